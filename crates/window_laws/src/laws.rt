//! Laws over all games, windows and plays. A call does nothing: its contract is the law.
ghost use Rattle.window_laws.specs.Sound.{StartIsSoundIn, PlaysKeepSoundIn};
ghost use Rattle.window_laws.specs.Tables.{TablesBoundWindows};
ghost use Rattle.window_laws.specs.Whole.{WholeIsWindow, WholeIsPaid, WholeIsGame};
ghost use Rattle.window_laws.specs.Entry.{EntryFloorHolds};
ghost use Rattle.window_laws.specs.Cones.{ConeFloorHolds, WalksAreClosed};
ghost use Rattle.window_laws.specs.Floors.{GreaterFloorHolds};
ghost use Rattle.window_laws.specs.Images.{ImagesStand};
ghost use Rattle.window_laws.specs.Proofs.{ProofsBoundPebblings};

/// At each position of a play of a window the red pebbles are on tracked vertices and fit the slots, the blue ones are on
/// vertices that can have a pebble, and each tracked input is blue.
pub fn window_positions_are_sound()
    ensures start { StartIsSoundIn }
    ensures plays { PlaysKeepSoundIn }
{}

/// Each play of the window that finishes costs at least the bound of a valid table. The table may use any floors, and it may
/// hold an image of a position in place of the position.
pub fn tables_bound_windows()
    ensures { TablesBoundWindows }
{}

/// The whole graph is a window, and a play of the game pays exactly its total cost for it. A play of this window that
/// finishes is a play of the game, at the same cost.
pub fn whole_is_window()
    ensures window { WholeIsWindow }
    ensures paid { WholeIsPaid }
    ensures game { WholeIsGame }
{}

/// The entry floor is a floor at each position of a window, whatever groups it counts, and so is the floor with cones,
/// whatever cones it counts. The greater of two floors is a floor. A walk back outside a cheap set is closed, as a cone must
/// be.
pub fn window_floors_hold()
    ensures entry { EntryFloorHolds }
    ensures cones { ConeFloorHolds }
    ensures greater { GreaterFloorHolds }
    ensures walks { WalksAreClosed }
{}

/// If automorphisms of a window take a sound position to another one after another, the other stands for it: each play from
/// the first that finishes has one from the other with no more steps and no greater cost.
pub fn images_stand()
    ensures { ImagesStand }
{}

/// If no load and no store is charged in two windows, the sum of the bounds of their valid tables is at most the cost of
/// each complete pebbling.
pub fn window_tables_bound_pebblings()
    ensures { ProofsBoundPebblings }
{
    window_game::laws::bounds_add_up();
}
