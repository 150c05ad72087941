//! Whether a part of a certificate is valid.
ghost use Rattle.std.specs.Prelude.{◌≡◌, ◌↔◌, IsTrue, IfOk, length};
ghost use Rattle.comp_graph.specs.Games.{game_of};
ghost use Rattle.window_game.specs.Windows.{IsWindow};
ghost use Rattle.window_laws.specs.Images.{AreAutomorphisms};
ghost use Rattle.window_steps.specs.Sets.{window_of};
ghost use Rattle.window_images.specs.Permutations.{renamings};
ghost use Rattle.window_checker.specs.ValidCerts.{load_sets, IsValidTable, IsValidPart};

use crate::preparing::{load_sets, permutations};
use crate::table::Table;
use crate::table_test::is_valid_table;
use comp_graph::{Game, NoMemory, VertexSet};
use potential_cert::Row;
use std::alloc::Global;
use window_cert::CertWindow;
use window_floor::{WindowFloor, is_window, workers};
use window_images::{Permutation, are_automorphisms};
use window_steps::WindowSets;

/// Whether a window of a certificate is valid for a game: it is a window of the game, its renamings are automorphisms of it, and its rows rise
/// and prove its bound. [`NoMemory`] comes only if memory runs out.
pub fn window_holds(alloc: Global, game: &Game, part: &CertWindow) -> Result<bool, NoMemory>
    ensures { IfOk result (λ valid. IsTrue valid ↔ IsValidPart (game_of game.now) part.now) }
{
    let loads = load_sets(alloc, game, &part.tracked, &part.charged)?;
    let valid = is_valid_part(alloc, game, part, &loads)?;
    Ok(valid)
}

// Whether a part with these load sets is valid.
fn is_valid_part(
    alloc: Global,
    game: &Game,
    part: &CertWindow,
    loads: &[VertexSet],
) -> Result<bool, NoMemory>
    requires { loads.now ≡ load_sets (game_of game.now) part.now.tracked part.now.charged }
    ensures { IfOk result (λ valid. IsTrue valid ↔ IsValidPart (game_of game.now) part.now) }
{
    if loads.len() != game.graph().len() as usize {
        return Ok(false);
    }
    let window = WindowSets {
        loads,
        stores: part.stores,
        tracked: part.tracked,
        required: part.required,
    };
    if !is_window(game, &window) {
        return Ok(false);
    }
    let Some(permutations) = permutations(alloc, game.graph().len(), &part.renamings)? else {
        return Ok(false);
    };
    let proved = is_proved(alloc, game, &window, &permutations, &part.rows, part.bound)?;
    Ok(proved)
}

// Whether permutations are automorphisms of a window, and rows prove its bound.
fn is_proved(
    alloc: Global,
    game: &Game,
    window: &WindowSets,
    permutations: &[Permutation],
    rows: &[Row],
    bound: u32,
) -> Result<bool, NoMemory>
    requires loads { length window.now.loads.now ≡ length game.now.graph.nodes }
    requires window { IsWindow (game_of game.now) (window_of window.now) }
    ensures { IfOk result (λ valid. IsTrue valid ↔ (AreAutomorphisms (game_of game.now) (window_of window.now) (renamings permutations.now)
        × IsValidTable (game_of game.now) (window_of window.now) (renamings permutations.now) rows.now bound)) }
{
    let workers = workers(game, window);
    if !are_automorphisms(game, window, &workers, permutations) {
        return Ok(false);
    }
    let made = WindowFloor::new(alloc, game, window)?;
    let table = Table {
        permutations,
        rows,
        bound,
    };
    Ok(is_valid_table(game, window, &made, &table))
}
