//! The answer of `covercheck`.
ghost use Rattle.std.specs.Prelude.{◌≡◌, ◌≤◌, ◌<◌, ℕ, List, length, IfOk};
ghost use Rattle.std.specs.declared.option.Option.{Option};
ghost use Rattle.comp_graph.specs.Dags.{degree};
ghost use Rattle.comp_graph.specs.Games.{unit_weights};
ghost use Rattle.comp_graph.specs.Graphs.{dag_of};
ghost use Rattle.desk_io.specs.Known.{ToldFile, TellsFile};
ghost use Rattle.kernel_ast.specs.KernelParts.{KernelParts};
ghost use Rattle.command_answers.specs.Accepted.{IsAccepted};
ghost use Rattle.command_answers.specs.CoverCheckAnswers.{CoverChecks};
ghost use Rattle.command_answers.specs.MadeAnswers.{Meets, IsFileOf};

use crate::answer::{Answer, FileBytes};
use crate::check::{NO_TABLE, accepted, refused};
use cert_checker::Refused;
use comp_graph::{Game, NoMemory};
use cover_cert::{CoverEnd, check_cover, read_cover};
use std::alloc::Global;

// The answer to a game and the bytes of a file.
fn table_answer(alloc: Global, game: &Game, bytes: &[u8]) -> Result<Answer, NoMemory>
    requires weights { game.now.weights ≡ unit_weights }
    requires room { degree (dag_of game.now.graph) < game.now.slots }
    requires short { length bytes.now ≤ 20000000 }
    ensures { IfOk result (λ answer. (text : List ℕ) (kernel : KernelParts) (file : ToldFile) →
        IsAccepted text kernel game.now.graph → TellsFile file bytes.now →
        Meets (CoverChecks game.now.slots text file) answer) }
{
    let table = match read_cover(alloc, bytes) {
        Ok(table) => table,
        Err(CoverEnd::Shape) => return refused(alloc, NO_TABLE, 0),
        Err(CoverEnd::NoMemory) => return Err(NoMemory),
    };
    match check_cover(game, &table) {
        Ok(bound) => accepted(alloc, bound),
        Err(Refused { reason, row }) => refused(alloc, reason.number(), row),
    }
}

/// The answer of `covercheck` to the game of an accepted kernel, where a load and a store cost 1, and what its file holds: the bound that its
/// covered table proves, or why it proves none.
pub fn cover_check_answer(alloc: Global, game: &Game, file: &FileBytes) -> Result<Answer, NoMemory>
    requires weights { game.now.weights ≡ unit_weights }
    requires room { degree (dag_of game.now.graph) < game.now.slots }
    requires limit { (held : ToldFile) × IsFileOf held 20000000 file.now }
    ensures { IfOk result (λ answer. (text : List ℕ) (kernel : KernelParts) (held : ToldFile) →
        IsAccepted text kernel game.now.graph → IsFileOf held 20000000 file.now →
        Meets (CoverChecks game.now.slots text held) answer) }
{
    match file {
        FileBytes::Whole(bytes) => table_answer(alloc, game, bytes),
        FileBytes::TooLong => refused(alloc, NO_TABLE, 0),
    }
}
