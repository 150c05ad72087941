//! The text of a trial.
ghost use Rattle.std.specs.Prelude.{◌≡◌, ◌++◌, ◌∷◌, [], OnOk, IfOk};
ghost use Rattle.plan_report.specs.TrialText as spec;

use crate::fact_line::{add_cost, add_fact};
use crate::facts::{Facts, verdict_word};
use comp_graph::NoMemory;
use std::alloc::Global;

/// The text of a trial with `n` statements: the five lines `trial N`, `vertices N`, `first F`, `cost U bound L` and `expanded E Optimal`
/// or `expanded E Open`, each ended by a line feed. [`NoMemory`] comes where memory was wanted and not found.
pub fn trial_text(alloc: Global, n: u32, facts: &Facts) -> Result<Vec<u8>, NoMemory>
    ensures { IfOk result (λ text. text.items ≡ spec.trial_text n facts.now) }
{
    let mut text = Vec::new(alloc);
    add_fact(alloc, &mut text, "trial", n)?;
    add_fact(alloc, &mut text, "vertices", u32::from(facts.vertices))?;
    add_fact(alloc, &mut text, "first", facts.first)?;
    add_cost(alloc, &mut text, "cost", facts.cost, facts.bound)?;
    add_verdict(alloc, &mut text, facts.expanded, facts.optimal)?;
    Ok(text)
}

// Adds the line of the number of expanded positions and the verdict.
fn add_verdict(
    alloc: Global,
    text: &mut Vec<u8>,
    expanded: u32,
    optimal: bool,
) -> Result<(), NoMemory>
    ensures { OnOk result (text.new.items ≡ text.old.items ++ (spec.verdict_line expanded optimal ++ 10 ∷ [])) }
{
    let verdict = verdict_word(optimal);
    let line = format!(in alloc; "expanded {expanded} {verdict}\n")?;
    text.extend_from_slice(line.as_bytes())?;
    Ok(())
}
