//! The run of a code on a list of values, by a machine of arrays.
ghost use Rattle.std.specs.Prelude.{◌≡◌, ℕ, ◌+◌, ◌-◌, ◌^◌, ◌<◌, ◌≤◌, length};
ghost use Rattle.scratch_machine.specs.Codes.{IsInstr, IsSource, IsApply};
ghost use Rattle.scratch_machine.specs.Machines.{begun, value_read, outputs_read};
ghost use Rattle.scratch_machine.specs.Exec.{cells_of, machine_of, IsStep, IsOutputs, IsRunAnswer};
ghost use Rattle.std.specs.List.{All};

use crate::code::{Code, Instr, OutWord, Source};
use comp_graph::Op;
use std::alloc::Global;

/// What a run gives: the value of each output, in the order of the code's outputs, and how many transfers it made, which is how
/// many loads and stores it ran.
#[derive(Drop)]
pub struct Ran {
    pub outputs: Vec<i64>,
    pub transfers: u32,
}

/// Why a code was not run to its end.
#[derive(Clone, Copy, PartialEq, Eq, Debug)]
pub enum ExecEnd {
    /// The code has `needs` inputs, and `got` values were given. It comes first, exactly where the two differ.
    WrongCount { needs: u32, got: u32 },

    /// Instruction `at`, by its number from 0, reads a slot that holds nothing.
    EmptySlot { at: u32 },

    /// Instruction `at`, by its number from 0, reads a word that holds nothing. For an output whose word holds nothing at the end,
    /// `at` is the number of instructions plus the output's number from 0.
    EmptyWord { at: u32 },

    /// Memory for the outputs was wanted and not found.
    NoMemory,
}

// What an instruction reads and finds empty.
#[derive(Clone, Copy)]
enum Empty {
    Slot,
    Word,
}

// What each slot and each word holds, and how many loads and stores were made.
#[derive(Drop)]
struct Machine {
    slots: [Option<i64>; 64],
    words: [Option<i64>; 256],
    loads: u32,
    stores: u32,
}

impl Machine {
    // The machine at the start: the k-th value in word k, and nothing else.
    fn begin(values: &[i64]) -> Machine
        requires { length values.now ≤ 256 }
        ensures { machine_of result ≡ begun values.now }
    {
        let mut words = [None; 256];
        for (k, value) in values.iter().enumerate() {
            words[k] = Some(*value);
        }
        Machine {
            slots: [None; 64],
            words,
            loads: 0,
            stores: 0,
        }
    }

    // What an operand gives, or `None` where its slot holds nothing.
    fn operand(&self, source: Source) -> Option<i64>
        requires { IsSource 64 source }
        ensures { result ≡ value_read (machine_of self.now).slots source }
    {
        match source {
            Source::Slot(slot) => self.slots[slot as usize],
            Source::Const(value) => Some(value),
        }
    }

    // Runs an operation: reads its operands, and then writes its slot.
    fn apply(&mut self, op: Op, slot: u16, args: [Source; 3]) -> Result<(), Empty>
        requires { IsApply 64 op slot args }
        ensures { IsStep result (machine_of self.old) (machine_of self.new) (Instr.Apply op slot args) }
    {
        let Some(a) = self.operand(args[0]) else {
            return Err(Empty::Slot);
        };
        let Some(b) = self.operand(args[1]) else {
            return Err(Empty::Slot);
        };
        let Some(c) = self.operand(args[2]) else {
            return Err(Empty::Slot);
        };
        self.slots[slot as usize] = Some(op.value([a, b, c]));
        Ok(())
    }

    // Runs one instruction.
    fn step(&mut self, instr: &Instr) -> Result<(), Empty>
        requires valid { IsInstr 64 256 instr.now }
        requires loads { self.old.loads < 2 ^ 32 - 1 }
        requires stores { self.old.stores < 2 ^ 32 - 1 }
        ensures { IsStep result (machine_of self.old) (machine_of self.new) instr.now }
    {
        match *instr {
            Instr::Load { slot, word } => {
                let Some(value) = self.words[word as usize] else {
                    return Err(Empty::Word);
                };
                self.slots[slot as usize] = Some(value);
                self.loads += 1;
                Ok(())
            }
            Instr::Store { slot, word } => {
                let Some(value) = self.slots[slot as usize] else {
                    return Err(Empty::Slot);
                };
                self.words[word as usize] = Some(value);
                self.stores += 1;
                Ok(())
            }
            Instr::Apply { op, slot, args } => self.apply(op, slot, args),
        }
    }

    // Reads the outputs from their words. The number of the first, for a fault, is `first`.
    fn outputs(&self, alloc: Global, first: u32, outputs: &[OutWord]) -> Result<Vec<i64>, ExecEnd>
        requires few { first + length outputs.now < 2 ^ 32 }
        requires within { All (λ o. o.word < 256) outputs.now }
        ensures { IsOutputs result (outputs_read first (machine_of self.now).words outputs.now) }
    {
        let mut values = Vec::new(alloc);
        for (k, output) in outputs.iter().enumerate() {
            let Some(value) = self.words[output.word as usize] else {
                return Err(ExecEnd::EmptyWord {
                    at: first + k as u32,
                });
            };
            if values.push(value).is_err() {
                return Err(ExecEnd::NoMemory);
            }
        }
        Ok(values)
    }
}

/// Runs a code on as many values as it has inputs, and gives its outputs and the number of its transfers.
///
/// The machine has the code's slots and words, each of which holds a number or nothing. At the start the k-th value stands in word
/// k, and all else is empty. A load copies a word to a slot and a store copies a slot to a word, and each counts one transfer. An
/// operation reads its operands and then writes its slot. At the end each output is read from its word.
///
/// `WrongCount` comes where there are more or fewer values than inputs, before anything is run. Else the run ends at the first
/// instruction that reads an empty slot, by `EmptySlot`, or an empty word, by `EmptyWord`; where there is none, at the first output
/// whose word is empty, by `EmptyWord`. `NoMemory` comes where memory for the outputs is wanting. The instructions and the outputs
/// together have to be fewer than 4,294,967,295, and the values at most that many. The machine is this project's own.
pub fn exec(alloc: Global, code: &Code, values: &[i64]) -> Result<Ran, ExecEnd>
    requires few { length code.now.instructions + length code.now.outputs < 2 ^ 32 - 1 }
    requires few_values { length values.now < 2 ^ 32 }
    ensures { IsRunAnswer result code.now values.now }
{
    if values.len() != code.inputs().len() {
        return Err(ExecEnd::WrongCount {
            needs: code.inputs().len() as u32,
            got: values.len() as u32,
        });
    }
    let mut machine = Machine::begin(values);
    let instructions = code.instructions();
    for (at, instr) in instructions.iter().enumerate() {
        match machine.step(instr) {
            Ok(()) => {}
            Err(Empty::Slot) => return Err(ExecEnd::EmptySlot { at: at as u32 }),
            Err(Empty::Word) => return Err(ExecEnd::EmptyWord { at: at as u32 }),
        }
    }
    let outputs = machine.outputs(alloc, instructions.len() as u32, code.outputs())?;
    Ok(Ran {
        outputs,
        transfers: machine.loads + machine.stores,
    })
}
