//! The lines of facts whose values are numbers.
ghost use Rattle.std.specs.Prelude.{◌≡◌, ◌++◌, ◌∷◌, [], codes, OnOk};
ghost use Rattle.std.specs.Fmt.{decimal};
ghost use Rattle.line_texts.specs.Words.{line};

use comp_graph::NoMemory;
use std::alloc::Global;

/// Adds the line of a fact: its name, and its number.
pub(crate) fn add_fact(
    alloc: Global,
    text: &mut Vec<u8>,
    name: &str,
    number: u32,
) -> Result<(), NoMemory>
    ensures { OnOk result (text.new.items ≡ text.old.items ++ (line name.now (decimal number ∷ []) ++ 10 ∷ [])) }
{
    let line = format!(in alloc; "{name} {number}\n")?;
    text.extend_from_slice(line.as_bytes())?;
    Ok(())
}

/// Adds the line of a cost, by its name, and the bound that was shown.
pub(crate) fn add_cost(
    alloc: Global,
    text: &mut Vec<u8>,
    name: &str,
    cost: u32,
    bound: u32,
) -> Result<(), NoMemory>
    ensures { OnOk result (text.new.items ≡ text.old.items ++ (line name.now (decimal cost ∷ codes "bound" ∷ decimal bound ∷ []) ++ 10 ∷ [])) }
{
    let line = format!(in alloc; "{name} {cost} bound {bound}\n")?;
    text.extend_from_slice(line.as_bytes())?;
    Ok(())
}
