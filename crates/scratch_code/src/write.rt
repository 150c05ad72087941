//! Writes the text of a code.
ghost use Rattle.std.specs.Prelude.{◌≡◌, ◌≤◌, ◌++◌, ◌∷◌, [], length, map, take, OnOk, IfOk, string_bytes};
ghost use Rattle.std.specs.Fmt.{decimal};
ghost use Rattle.comp_graph.specs.Operations.{arity_of};
ghost use Rattle.scratch_machine.specs.declared.code.Instr.TheVariants.{Apply};
ghost use Rattle.line_texts.specs.Words.{after_spaces, line};
ghost use Rattle.line_texts.specs.Lines.{ended};
ghost use Rattle.std.specs.List.{All};
ghost use Rattle.scratch_code.specs.CodeTexts.{HasSmallConstant, HasSmallConstants, WritesSmallConstants};
ghost use Rattle.scratch_code.specs.CodeText.{operand_text, head_lines, line_of_instr, line_of_input, line_of_output, code_text};

use comp_graph::{Label, NoMemory, Op};
use scratch_machine::{Code, Instr, OutWord, Source};
use std::alloc::Global;

/// The text of a code: the lines `slots S` and `words N`, `in LABEL` for each input, `out LABEL W` for each output, the instructions in
/// order, and `end`, each ended by a line feed. An operation writes as many operands as it takes: `sK` for slot K, `#C` for a constant.
/// Numbers are plain decimal, and labels are written as they are. Where they have the form of labels, the text reads back as the code by
/// the laws of this crate: that all constants have 64 bits, which they need, is the second clause.
///
/// # Errors
///
/// [`NoMemory`] where memory was wanted and not found.
pub fn write_code(alloc: Global, code: &Code) -> Result<Vec<u8>, NoMemory>
    ensures text { IfOk result (λ text. text.items ≡ code_text code.now) }
    ensures constants { OnOk result (All HasSmallConstants code.now.instructions) }
{
    let mut text = head(alloc, code.slots(), code.words())?;
    add_inputs(&mut text, code.inputs())?;
    add_outputs(alloc, &mut text, code.outputs())?;
    add_instrs(alloc, &mut text, code.instructions())?;
    text.extend_from_slice(b"end\n")?;
    Ok(text)
}

// The lines of the numbers of slots and words.
fn head(alloc: Global, slots: u16, words: u16) -> Result<Vec<u8>, NoMemory>
    ensures { IfOk result (λ text. text.items ≡ ended (head_lines slots words)) }
{
    let lines = format!(in alloc; "slots {slots}\nwords {words}\n")?;
    Ok(Vec::from_slice(alloc, lines.as_bytes())?)
}

// Adds the lines of the inputs.
fn add_inputs(text: &mut Vec<u8>, labels: &[Label]) -> Result<(), NoMemory>
    ensures { OnOk result (text.new.items ≡ text.old.items ++ ended (map line_of_input labels.now)) }
{
    for label in labels {
        add_input(text, label)?;
    }
    Ok(())
}

// Adds the lines of the outputs.
fn add_outputs(alloc: Global, text: &mut Vec<u8>, outputs: &[OutWord]) -> Result<(), NoMemory>
    ensures { OnOk result (text.new.items ≡ text.old.items ++ ended (map line_of_output outputs.now)) }
{
    for output in outputs {
        add_output(alloc, text, output)?;
    }
    Ok(())
}

// Adds the lines of the instructions.
fn add_instrs(alloc: Global, text: &mut Vec<u8>, instrs: &[Instr]) -> Result<(), NoMemory>
    ensures text { OnOk result (text.new.items ≡ text.old.items ++ ended (map line_of_instr instrs.now)) }
    ensures constants { OnOk result (All WritesSmallConstants instrs.now) }
{
    for instr in instrs {
        add_instr(alloc, text, instr)?;
    }
    Ok(())
}

// Adds the line of an input.
fn add_input(text: &mut Vec<u8>, label: &Label) -> Result<(), NoMemory>
    ensures { OnOk result (text.new.items ≡ text.old.items ++ (line_of_input label.now ++ 10 ∷ [])) }
{
    text.extend_from_slice(b"in ")?;
    text.extend_from_slice(label.bytes())?;
    text.extend_from_slice(b"\n")?;
    Ok(())
}

// Adds the line of an output.
fn add_output(alloc: Global, text: &mut Vec<u8>, output: &OutWord) -> Result<(), NoMemory>
    ensures { OnOk result (text.new.items ≡ text.old.items ++ (line_of_output output.now ++ 10 ∷ [])) }
{
    let word = output.word;
    text.extend_from_slice(b"out ")?;
    text.extend_from_slice(output.label.bytes())?;
    let end = format!(in alloc; " {word}\n")?;
    text.extend_from_slice(end.as_bytes())?;
    Ok(())
}

// Adds the line of an instruction.
fn add_instr(alloc: Global, text: &mut Vec<u8>, instr: &Instr) -> Result<(), NoMemory>
    ensures text { OnOk result (text.new.items ≡ text.old.items ++ (line_of_instr instr.now ++ 10 ∷ [])) }
    ensures constants { OnOk result (WritesSmallConstants instr.now) }
{
    match *instr {
        Instr::Load { slot, word } => add_transfer(alloc, text, "load", slot, word)?,
        Instr::Store { slot, word } => add_transfer(alloc, text, "store", slot, word)?,
        Instr::Apply { op, slot, args } => add_operation(alloc, text, op, slot, args)?,
    }
    Ok(())
}

// Adds the line of a load or a store.
fn add_transfer(
    alloc: Global,
    text: &mut Vec<u8>,
    name: &str,
    slot: u16,
    word: u16,
) -> Result<(), NoMemory>
    ensures { OnOk result (text.new.items ≡ text.old.items ++ (line name.now (decimal slot ∷ decimal word ∷ []) ++ 10 ∷ [])) }
{
    let line = format!(in alloc; "{name} {slot} {word}\n")?;
    text.extend_from_slice(line.as_bytes())?;
    Ok(())
}

// Adds the line of an operation.
fn add_operation(
    alloc: Global,
    text: &mut Vec<u8>,
    op: Op,
    slot: u16,
    args: [Source; 3],
) -> Result<(), NoMemory>
    ensures text { OnOk result (text.new.items ≡ text.old.items ++ (line_of_instr (Apply op slot args) ++ 10 ∷ [])) }
    ensures constants { OnOk result (All HasSmallConstant (take (arity_of op) args)) }
{
    let operands = &args[..usize::from(op.arity())];
    let name = op.word();
    let line = format!(in alloc; "{name} {slot}")?;
    text.extend_from_slice(line.as_bytes())?;
    add_operands(alloc, text, operands)?;
    text.extend_from_slice(b"\n")?;
    Ok(())
}

// Adds the operands, each after a space.
fn add_operands(alloc: Global, text: &mut Vec<u8>, args: &[Source]) -> Result<(), NoMemory>
    ensures text { OnOk result (text.new.items ≡ text.old.items ++ after_spaces (map operand_text args.now)) }
    ensures constants { OnOk result (All HasSmallConstant args.now) }
{
    for arg in args {
        let piece = operand(alloc, *arg)?;
        text.extend_from_slice(b" ")?;
        text.extend_from_slice(piece.as_bytes())?;
    }
    Ok(())
}

// The text of an operand.
fn operand(alloc: Global, arg: Source) -> Result<String, NoMemory>
    ensures text { IfOk result (λ text. string_bytes text ≡ operand_text arg) }
    ensures constants { HasSmallConstant arg }
{
    match arg {
        Source::Slot(slot) => Ok(format!(in alloc; "s{slot}")?),
        Source::Const(constant) => Ok(format!(in alloc; "#{constant}")?),
    }
}
