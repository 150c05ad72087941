//! Code for the scratchpad machine: its operands, its instructions, and codes that keep their bounds.
ghost use Rattle.std.specs.Prelude.{◌≡◌};
ghost use Rattle.scratch_machine.specs.Codes.{IsCode};

use comp_graph::{Label, Op};
use std::marker::Model;

/// An operand of an instruction: what the slot of this number holds, or a constant.
#[derive(Clone, Copy)]
pub enum Source {
    Slot(u16),
    Const(i64),
}

/// An instruction. Slots are the words of fast memory and words those of slow memory, each by its number from 0. `Load` copies a
/// word to a slot and `Store` a slot to a word, which is one transfer each. `Apply` reads the first `op.arity()` operands and then
/// writes the operation's value to its slot; it is never `Input`, a `Set` has a constant, and the places from the arity on hold
/// `Const(0)`.
#[derive(Clone, Copy)]
pub enum Instr {
    Load {
        slot: u16,
        word: u16,
    },
    Store {
        slot: u16,
        word: u16,
    },
    Apply {
        op: Op,
        slot: u16,
        args: [Source; 3],
    },
}

/// An output element of the program, and the word that holds its value when the code has ended.
#[derive(Drop)]
pub struct OutWord {
    pub label: Label,
    pub word: u16,
}

/// A code: how many slots and words it has (it need not name all of them), the names of its inputs, its outputs, and its instructions in order. The k-th input's
/// value stands in word k at the start. There are from 1 to 64 slots and at most 256 words, no more inputs than words, and each slot
/// and word that is named is there. Contracts see it as a record of numbers and lists. Code is this project's own.
#[derive(Drop)]
pub struct Code {
    slots: u16,
    words: u16,
    inputs: Vec<Label>,
    outputs: Vec<OutWord>,
    instructions: Vec<Instr>,
}

impl Model for Code {
    ghost use Rattle.scratch_machine.specs.Codes.{CodeParts, IsCode};

    ghost Value = { CodeParts };

    ghost use Rattle.scratch_machine.specs.CodeView.{parts};

    ghost view = { parts };

    ghost invariant = { λ a. IsCode (parts a) };
}

impl Code {
    /// The code of these parts. `IsCode` says what they have to keep, as the type's text does.
    pub fn new(
        slots: u16,
        words: u16,
        inputs: Vec<Label>,
        outputs: Vec<OutWord>,
        instructions: Vec<Instr>,
    ) -> Code
        requires { IsCode (record { slots = slots; words = words; inputs = inputs.items; outputs = outputs.items; instructions = instructions.items }) }
        ensures { result ≡ record { slots = slots; words = words; inputs = inputs.items; outputs = outputs.items; instructions = instructions.items } }
    {
        Code {
            slots,
            words,
            inputs,
            outputs,
            instructions,
        }
    }

    /// The number of slots, from 1 to 64.
    pub fn slots(&self) -> u16
        ensures value { result ≡ self.now.slots }
        ensures valid { IsCode self.now }
    {
        self.slots
    }

    /// The number of words, at most 256.
    pub fn words(&self) -> u16
        ensures value { result ≡ self.now.words }
        ensures valid { IsCode self.now }
    {
        self.words
    }

    /// The names of the inputs, in order.
    pub fn inputs(&self) -> &[Label]
        ensures value { result.now ≡ self.now.inputs }
        ensures valid { IsCode self.now }
    {
        &self.inputs
    }

    /// The output elements, each with its word, in the order in which they are read at the end.
    pub fn outputs(&self) -> &[OutWord]
        ensures value { result.now ≡ self.now.outputs }
        ensures valid { IsCode self.now }
    {
        &self.outputs
    }

    /// The instructions, in the order in which they run.
    pub fn instructions(&self) -> &[Instr]
        ensures value { result.now ≡ self.now.instructions }
        ensures valid { IsCode self.now }
    {
        &self.instructions
    }
}
