//! The values of a program's outputs.
ghost use Rattle.std.specs.Prelude.{◌≡◌, ◌++◌, ◌∷◌, [], length, OnOk, IfOk};
ghost use Rattle.plan_report.specs.OutputsText as spec;

use comp_graph::{Label, NoMemory};
use std::alloc::Global;

/// The values of output elements: a line `LABEL = VALUE` for each label and the value at its place, in order, ended by a line feed. There
/// are as many values as labels. [`NoMemory`] comes where memory was wanted and not found.
pub fn outputs_text(alloc: Global, names: &[Label], values: &[i64]) -> Result<Vec<u8>, NoMemory>
    requires { length names.now ≡ length values.now }
    ensures { IfOk result (λ text. text.items ≡ spec.outputs_text names.now values.now) }
{
    let mut text = Vec::new(alloc);
    for (name, value) in names.iter().zip(values) {
        add_value(alloc, &mut text, name, *value)?;
    }
    Ok(text)
}

// Adds the line of an element.
fn add_value(alloc: Global, text: &mut Vec<u8>, name: &Label, value: i64) -> Result<(), NoMemory>
    ensures { OnOk result (text.new.items ≡ text.old.items ++ (spec.value_line name.now value ++ 10 ∷ [])) }
{
    text.extend_from_slice(name.bytes())?;
    let end = format!(in alloc; " = {value}\n")?;
    text.extend_from_slice(end.as_bytes())?;
    Ok(())
}
