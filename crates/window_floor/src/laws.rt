//! Laws over all games, windows and positions. A call does nothing: its contract is the law.
ghost use Rattle.window_floor.specs.Workers.{WorkersAreTested};
ghost use Rattle.window_floor.specs.Groups.{GroupsAreGroups};
ghost use Rattle.window_floor.specs.GreedyCones.{WindowFloorHolds};

/// The vertices for which the test of a worker holds are just the vertices whose Works the window can show.
pub fn window_workers_are_tested()
    ensures { WorkersAreTested }
{}

/// The groups of a window are groups, and no two have a member in common.
pub fn window_groups_are_groups()
    ensures { GroupsAreGroups }
{}

/// The floor of a window's position is a floor: no play from there that finishes costs less.
pub fn window_floor_holds()
    ensures { WindowFloorHolds }
{}
