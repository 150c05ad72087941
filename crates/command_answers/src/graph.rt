//! The answer of `graph`.
ghost use Rattle.std.specs.Prelude.{◌≢◌, ℕ, List, Err};
ghost use Rattle.kernel_ast.specs.KernelParts.{KernelParts};
ghost use Rattle.command_answers.specs.Accepted.{IsAccepted};
ghost use Rattle.command_answers.specs.GraphAnswers.{IsDrawn};
ghost use Rattle.command_answers.specs.MadeAnswers.{Meets, IfAnswer};

use crate::answer::{Answer, EarlyEnd};
use crate::status::Status;
use comp_graph::Graph;
use plan_report::graph_text;
use std::alloc::Global;

/// The answer of `graph` to an accepted kernel by its graph: the text of the graph.
pub fn graph_answer(alloc: Global, graph: &Graph) -> Result<Answer, EarlyEnd>
    ensures answers { (text : List ℕ) (kernel : KernelParts) → IsAccepted text kernel graph.now →
        IfAnswer result (Meets (IsDrawn text)) }
    ensures no_fault { result ≢ Err EarlyEnd.ReadFault }
{
    Ok(Answer {
        status: Status::Done,
        text: graph_text(alloc, graph)?,
        table: None,
    })
}
