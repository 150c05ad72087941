//! The emitter: instructions, a move at a time. A placement takes the lowest free slot, a store the next word.
ghost use Rattle.std.specs.Prelude.{◌≡◌, ◌≢◌, ℕ, ◌+◌, ◌<◌, ◌≤◌, length, OnOk, IfOk, ◌++◌, ◌∷◌, []};
ghost use Rattle.std.specs.FinSet as set;
ghost use Rattle.std.specs.List.{All};
ghost use Rattle.comp_graph.specs.Vertices.{AllBelow};
ghost use Rattle.comp_graph.specs.Graphs.{IsOperandBelow, operands_of};
ghost use Rattle.slot_alloc.specs.Emitted.{slot_given, slot_freed, word_given, lowest, source_at, sources, layout_after, code_of_move, first_layout, output_words};
ghost use Rattle.slot_alloc.specs.Emitters.{layout_of, CanBePlayed};

use comp_graph::{Graph, NoMemory, Node, Operand, Output, VertexSet};
use pebble_rules::Move;
use scratch_machine::{Instr, OutWord, Source};
use std::alloc::Global;

/// The instructions so far, the free slots, the slot of each red vertex, the word of each blue vertex, and how many words are taken.
#[derive(Drop)]
pub struct Emitter {
    pub free: VertexSet,
    pub slot_of: [u16; 256],
    pub word_of: [u16; 256],
    pub words: u16,
    pub instructions: Vec<Instr>,
}

impl Emitter {
    /// No instruction yet: all slots are free, and input k has word k.
    pub fn begin(alloc: Global, graph: &Graph, slots: u16) -> Emitter
        requires { slots ≤ 64 }
        ensures layout { layout_of result ≡ first_layout graph.now slots }
        ensures code { result.instructions.items ≡ [] }
    {
        let mut free = VertexSet::empty();
        for s in 0..slots {
            free = free.with(s);
        }
        let words = graph.inputs();
        let mut word_of = [0; 256];
        for k in 0..words {
            word_of[k as usize] = k;
        }
        Emitter {
            free,
            slot_of: [0; 256],
            word_of,
            words,
            instructions: Vec::new(alloc),
        }
    }

    /// The instructions of a move are appended. A `DropRed` has none.
    pub fn play(&mut self, graph: &Graph, mv: Move) -> Result<(), NoMemory>
        requires { CanBePlayed graph.now (layout_of self.old) mv }
        ensures layout { layout_of self.new ≡ layout_after (layout_of self.old) mv }
        ensures code { OnOk result (self.new.instructions.items ≡ self.old.instructions.items ++ code_of_move graph.now (layout_of self.old) mv) }
    {
        match mv {
            Move::Load(v) => self.load(v),
            Move::Store(v) => self.store(v),
            Move::Compute(v) => self.compute(v, &graph.nodes()[v as usize]),
            Move::DropRed(v) => {
                self.drop_red(v);
                Ok(())
            }
            Move::DropBlue(_) => unreachable!(),
        }
    }

    /// The output elements, each with the word of its vertex.
    pub fn output_words(&self, alloc: Global, outputs: &[Output]) -> Result<Vec<OutWord>, NoMemory>
        requires { All (λ o. o.vertex < 256) outputs.now }
        ensures { IfOk result (λ named. named.items ≡ output_words (layout_of self.now) outputs.now) }
    {
        let mut named = Vec::new(alloc);
        for output in outputs {
            let word = self.word_of[output.vertex as usize];
            let label = output.label.copy(alloc)?;
            named.push(OutWord { label, word })?;
        }
        Ok(named)
    }

    fn append(&mut self, instr: Instr) -> Result<(), NoMemory>
        ensures code { OnOk result (self.new.instructions.items ≡ self.old.instructions.items ++ instr ∷ []) }
        ensures layout { layout_of self.new ≡ layout_of self.old }
    {
        self.instructions.push(instr)?;
        Ok(())
    }

    // A vertex takes the lowest free slot.
    fn place(&mut self, v: u16) -> u16
        requires vertex { v < 256 }
        requires room { set.empty ≢ self.old.free }
        requires below { AllBelow 64 self.old.free }
        ensures slot { result ≡ lowest self.old.free }
        ensures layout { layout_of self.new ≡ slot_given (layout_of self.old) v }
        ensures code { self.new.instructions.items ≡ self.old.instructions.items }
    {
        let Some(slot) = self.free.least() else {
            unreachable!()
        };
        self.free = self.free.without(slot);
        self.slot_of[v as usize] = slot;
        slot
    }

    fn load(&mut self, v: u16) -> Result<(), NoMemory>
        requires vertex { v < 256 }
        requires room { set.empty ≢ self.old.free }
        requires below { AllBelow 64 self.old.free }
        ensures layout { layout_of self.new ≡ slot_given (layout_of self.old) v }
        ensures code { OnOk result (self.new.instructions.items ≡ self.old.instructions.items ++ Instr.Load (lowest self.old.free) ((layout_of self.old).word_of v) ∷ []) }
    {
        let word = self.word_of[v as usize];
        let slot = self.place(v);
        self.append(Instr::Load { slot, word })
    }

    fn store(&mut self, v: u16) -> Result<(), NoMemory>
        requires vertex { v < 256 }
        requires room { self.old.words < 256 }
        ensures layout { layout_of self.new ≡ word_given (layout_of self.old) v }
        ensures code { OnOk result (self.new.instructions.items ≡ self.old.instructions.items ++ Instr.Store ((layout_of self.old).slot_of v) self.old.words ∷ []) }
    {
        let slot = self.slot_of[v as usize];
        let word = self.words;
        self.word_of[v as usize] = word;
        self.words += 1;
        self.append(Instr::Store { slot, word })
    }

    fn compute(&mut self, v: u16, node: &Node) -> Result<(), NoMemory>
        requires vertex { v < 256 }
        requires room { set.empty ≢ self.old.free }
        requires below { AllBelow 64 self.old.free }
        requires operands { All (IsOperandBelow 256) (operands_of node.now) }
        ensures layout { layout_of self.new ≡ slot_given (layout_of self.old) v }
        ensures code { OnOk result (self.new.instructions.items ≡ self.old.instructions.items ++ Instr.Apply node.now.op (lowest self.old.free) (sources (layout_of self.old).slot_of node.now.op node.now.args) ∷ []) }
    {
        let args = [
            self.source(node, 0),
            self.source(node, 1),
            self.source(node, 2),
        ];
        let slot = self.place(v);
        self.append(Instr::Apply {
            op: node.op,
            slot,
            args,
        })
    }

    // A vertex leaves its slot, which is free again.
    fn drop_red(&mut self, v: u16)
        requires vertex { v < 256 }
        requires below { (layout_of self.old).slot_of v < 64 }
        ensures layout { layout_of self.new ≡ slot_freed (layout_of self.old) v }
        ensures code { self.new.instructions.items ≡ self.old.instructions.items }
    {
        self.free = self.free.with(self.slot_of[v as usize]);
    }

    // Operand k of an instruction.
    fn source(&self, node: &Node, k: usize) -> Source
        requires place { k < 3 }
        requires operands { All (IsOperandBelow 256) (operands_of node.now) }
        ensures { result ≡ source_at (layout_of self.now).slot_of node.now.op node.now.args k }
    {
        if k >= node.op.arity() as usize {
            return Source::Const(0);
        }
        match node.args[k] {
            Operand::Vertex(u) => Source::Slot(self.slot_of[u as usize]),
            Operand::Const(c) => Source::Const(c),
        }
    }
}
