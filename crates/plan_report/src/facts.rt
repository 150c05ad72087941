//! The report of a plan.
ghost use Rattle.std.specs.Prelude.{◌≡◌, ◌++◌, ◌∷◌, [], OnOk, IfOk};
ghost use Rattle.std.specs.Fmt.{decimal};
ghost use Rattle.line_texts.specs.Lines.{ended};
ghost use Rattle.plan_report.specs.ReportText.{remark, game_lines, weight_lines, plan_lines_within, verdict_word, report_text, effort_report_text};

use comp_graph::{Label, NoMemory, Weights};
use std::alloc::Global;

/// What a report says of a plan. The costs and the bound count the loads and the stores between the slow and the fast memory, each by its
/// weight.
#[derive(Clone, Copy)]
pub struct Facts {
    /// The number of vertices of the graph.
    pub vertices: u16,
    /// How many of them are inputs.
    pub inputs: u16,
    /// The degree of the graph.
    pub degree: u16,
    /// The number of slots of the fast memory.
    pub slots: u16,
    /// What a load and a store cost.
    pub weights: Weights,
    /// The cost of the first plan.
    pub first: u32,
    /// The cost of the best plan that was found.
    pub cost: u32,
    /// The bound that was shown: no complete pebbling costs less.
    pub bound: u32,
    /// How many positions were expanded.
    pub expanded: u32,
    /// The most positions that were allowed to be expanded.
    pub budget: u32,
    /// Whether the cost was shown to be the least.
    pub optimal: bool,
}

/// The report: eleven lines `; NAME VALUE`, each ended by a line feed, for the kernel's title and each fact, in the order `kernel`,
/// `vertices`, `inputs`, `degree`, `slots`, `first`, `cost`, `bound`, `expanded`, `budget`, `verdict`. Where a load or a store does not
/// cost 1, the lines `load` and `store` stand after `slots`. The verdict is `Optimal` or `Open`. [`NoMemory`] comes where memory was wanted
/// and not found.
pub fn report(alloc: Global, title: &Label, facts: &Facts) -> Result<Vec<u8>, NoMemory>
    ensures { IfOk result (λ text. text.items ≡ report_text title.now facts.now) }
{
    report_within(alloc, title, facts, "budget", facts.budget)
}

/// The report of a plan that was improved: the same lines, with `effort`, from 0 to 200, in place of `budget`. [`NoMemory`] as there.
pub fn effort_report(
    alloc: Global,
    title: &Label,
    facts: &Facts,
    effort: u32,
) -> Result<Vec<u8>, NoMemory>
    ensures { IfOk result (λ text. text.items ≡ effort_report_text title.now effort facts.now) }
{
    report_within(alloc, title, facts, "effort", effort)
}

// The report, with the limit of the search by its name.
fn report_within(
    alloc: Global,
    title: &Label,
    facts: &Facts,
    name: &str,
    limit: u32,
) -> Result<Vec<u8>, NoMemory>
    ensures { IfOk result (λ text. text.items ≡ ended (game_lines title.now facts.now
        ++ (weight_lines facts.now.weights ++ plan_lines_within name.now limit facts.now))) }
{
    let mut text = Vec::new(alloc);
    add_game(alloc, &mut text, title, facts)?;
    add_weights(alloc, &mut text, facts.weights)?;
    add_plan(alloc, &mut text, facts, name, limit)?;
    Ok(text)
}

// Adds the lines on the kernel, its graph and the slots.
fn add_game(alloc: Global, text: &mut Vec<u8>, title: &Label, facts: &Facts) -> Result<(), NoMemory>
    ensures { OnOk result (text.new.items ≡ text.old.items ++ ended (game_lines title.now facts.now)) }
{
    add_remark(text, "kernel", title.bytes())?;
    add_number(alloc, text, "vertices", u32::from(facts.vertices))?;
    add_number(alloc, text, "inputs", u32::from(facts.inputs))?;
    add_number(alloc, text, "degree", u32::from(facts.degree))?;
    add_number(alloc, text, "slots", u32::from(facts.slots))?;
    Ok(())
}

// Adds the lines on what a load and a store cost, where one of them does not cost 1.
fn add_weights(alloc: Global, text: &mut Vec<u8>, weights: Weights) -> Result<(), NoMemory>
    ensures { OnOk result (text.new.items ≡ text.old.items ++ ended (weight_lines weights)) }
{
    if weights.load == 1 && weights.store == 1 {
        return Ok(());
    }
    add_number(alloc, text, "load", u32::from(weights.load))?;
    add_number(alloc, text, "store", u32::from(weights.store))?;
    Ok(())
}

// Adds the lines on costs, the bound, the search with its limit, and the verdict.
fn add_plan(
    alloc: Global,
    text: &mut Vec<u8>,
    facts: &Facts,
    name: &str,
    limit: u32,
) -> Result<(), NoMemory>
    ensures { OnOk result (text.new.items ≡ text.old.items ++ ended (plan_lines_within name.now limit facts.now)) }
{
    add_number(alloc, text, "first", facts.first)?;
    add_number(alloc, text, "cost", facts.cost)?;
    add_number(alloc, text, "bound", facts.bound)?;
    add_number(alloc, text, "expanded", facts.expanded)?;
    add_number(alloc, text, name, limit)?;
    add_remark(text, "verdict", verdict_word(facts.optimal).as_bytes())?;
    Ok(())
}

// Adds the line of a fact whose value is a number.
fn add_number(alloc: Global, text: &mut Vec<u8>, name: &str, number: u32) -> Result<(), NoMemory>
    ensures { OnOk result (text.new.items ≡ text.old.items ++ (remark name.now (decimal number) ++ 10 ∷ [])) }
{
    let value = format!(in alloc; "{number}")?;
    add_remark(text, name, value.as_bytes())
}

// Adds the line of a fact.
fn add_remark(text: &mut Vec<u8>, name: &str, value: &[u8]) -> Result<(), NoMemory>
    ensures { OnOk result (text.new.items ≡ text.old.items ++ (remark name.now value.now ++ 10 ∷ [])) }
{
    text.extend_from_slice(b"; ")?;
    text.extend_from_slice(name.as_bytes())?;
    text.extend_from_slice(b" ")?;
    text.extend_from_slice(value)?;
    text.extend_from_slice(b"\n")?;
    Ok(())
}

// The word of a verdict.
pub(crate) fn verdict_word(optimal: bool) -> &'static str
    ensures { result.now ≡ verdict_word optimal }
{
    if optimal { "Optimal" } else { "Open" }
}
