//! The text of the bounds of the parts of a graph.
ghost use Rattle.std.specs.Prelude.{◌≡◌, ◌++◌, ◌∷◌, [], OnOk, IfOk, codes};
ghost use Rattle.std.specs.Fmt.{decimal};
ghost use Rattle.line_texts.specs.Lines.{ended};
ghost use Rattle.line_texts.specs.Words.{line};
ghost use Rattle.plan_report.specs.PartsText as spec;

use comp_graph::NoMemory;
use std::alloc::Global;

/// What is printed of a part.
#[derive(Clone, Copy)]
pub struct PartFacts {
    /// The number of its vertices.
    pub vertices: u16,
    /// The cost of the best plan of the part that was found.
    pub cost: u32,
    /// The bound that was shown: no complete pebbling of the part costs less.
    pub bound: u32,
}

/// The text of parts and the sum of their bounds: the line `parts K` with the number of parts, for each part in order the line
/// `part J vertices N cost U bound L` with J from 0, and the line `sum T`, each ended by a line feed. [`NoMemory`] comes where memory was
/// wanted and not found.
pub fn parts_text(alloc: Global, parts: &[PartFacts], sum: u32) -> Result<Vec<u8>, NoMemory>
    ensures { IfOk result (λ text. text.items ≡ spec.parts_text parts.now sum) }
{
    let mut text = Vec::new(alloc);
    add_fact(alloc, &mut text, "parts", parts.len())?;
    add_parts(alloc, &mut text, parts)?;
    add_fact(alloc, &mut text, "sum", sum as usize)?;
    Ok(text)
}

// Adds the line of a fact whose value is a number.
fn add_fact(alloc: Global, text: &mut Vec<u8>, name: &str, number: usize) -> Result<(), NoMemory>
    ensures { OnOk result (text.new.items ≡ text.old.items ++ (line name.now (decimal number ∷ []) ++ 10 ∷ [])) }
{
    let line = format!(in alloc; "{name} {number}\n")?;
    text.extend_from_slice(line.as_bytes())?;
    Ok(())
}

// Adds the lines of the parts.
fn add_parts(alloc: Global, text: &mut Vec<u8>, parts: &[PartFacts]) -> Result<(), NoMemory>
    ensures { OnOk result (text.new.items ≡ text.old.items ++ ended (spec.part_lines 0 parts.now)) }
{
    for (number, part) in parts.iter().enumerate() {
        add_part(alloc, text, number, part)?;
    }
    Ok(())
}

// Adds the line of a part.
fn add_part(
    alloc: Global,
    text: &mut Vec<u8>,
    number: usize,
    part: &PartFacts,
) -> Result<(), NoMemory>
    ensures { OnOk result (text.new.items ≡ text.old.items ++ (spec.part_line number part.now ++ 10 ∷ [])) }
{
    let PartFacts {
        vertices,
        cost,
        bound,
    } = *part;
    let line = format!(in alloc; "part {number} vertices {vertices} cost {cost} bound {bound}\n")?;
    text.extend_from_slice(line.as_bytes())?;
    Ok(())
}
