//! The turns of a kernel's run.
ghost use Rattle.std.specs.Prelude.{◌≡◌};
ghost use Rattle.kernel_ast.specs.Walk as spec;

use kernel_ast::{Fault, MAX_TURNS, RunRule};

/// The turns after so many more, for the statement or the loop at `at`.
///
/// # Errors
///
/// Fault 12 at `at`, exactly where these are above 65,536.
pub fn count(at: u32, more: u32, turns: u32) -> Result<u32, Fault>
    ensures { result ≡ spec.count at more turns }
{
    let counted = turns.saturating_add(more);
    if counted > MAX_TURNS {
        return Err(RunRule::TooManyTurns.at(at));
    }
    Ok(counted)
}
