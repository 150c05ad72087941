//! Laws over all games, parts and pebblings. A call does nothing: its contract is the law.
ghost use Rattle.part_bounds.specs.Laws.{CutsAreDags, CutsArePebbled, PartsArePebbled, PartsCostNoMore, PartsCostAll, SumsAreBounds, GraphsAreInduced, GamesAreInduced, PartsAreGames};

/// The moves of a complete pebbling on some vertices are a complete pebbling of the game on these vertices, and so are those on a part.
pub fn parts_are_pebbled()
    ensures dags { CutsAreDags }
    ensures cuts { CutsArePebbled }
    ensures parts { PartsArePebbled }
{}

/// Together the moves on the parts cost no more than all moves, and just as much where all are on vertices of the graph. So where no
/// complete pebbling of a part costs less than its bound, none of the game costs less than the sum of the bounds.
pub fn bounds_add_up()
    ensures costs { PartsCostNoMore }
    ensures all { PartsCostAll }
    ensures bounds { SumsAreBounds }
{}

/// The graph of some of the vertices is a graph, and as the game sees it the one that is cut. So the game on them is a game, which is never
/// too small, and the laws of parts speak of it.
pub fn parts_are_games()
    ensures graphs { GraphsAreInduced }
    ensures games { GamesAreInduced }
    ensures parts { PartsAreGames }
{}
