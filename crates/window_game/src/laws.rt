//! Laws over all games, windows and plays. A call does nothing: its contract is the law.
ghost use Rattle.window_game.specs.Views.{PlaysShow, PlaysInTime, PlaysAreSeen};
ghost use Rattle.window_game.specs.Bounds.{PaidOnce, BoundsAddUp};

/// The steps that a window shows of a normal play that finishes are possible in the window and can finish there. They cost
/// exactly what the play pays for the loads and stores that the window charges. Possible steps can be put off until they are
/// timely, at no greater cost. So for each play that finishes the window has a play that costs at most what the given play
/// pays for the window.
pub fn plays_show()
    ensures show { PlaysShow }
    ensures in_time { PlaysInTime }
    ensures seen { PlaysAreSeen }
{}

/// If no load and no store is charged in two windows, a play pays for all of them at most what it costs, and the sum of
/// bounds of the windows is a bound of the game.
pub fn bounds_add_up()
    ensures paid { PaidOnce }
    ensures sum { BoundsAddUp }
{
    normal_steps::laws::plays_cost_no_more();
}
