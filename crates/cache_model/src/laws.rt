//! Laws over all games. A call does nothing: its contract is the law.
ghost use Rattle.cache_model.specs.Laws.{CachesArePebblings, CostsAreCounted, LinesFit, RoomIsKept, RoomIsMade};

/// The moves of the cache are a complete pebbling, wherever there are more slots than the degree. They cost a load's weight for each load
/// and a store's for each store.
pub fn caches_are_pebblings()
    ensures complete { CachesArePebblings }
    ensures costs { CostsAreCounted }
{}

/// After each turn there are at most as many lines as slots, and no vertex has two. A line is evicted exactly where there are as many lines
/// as slots.
pub fn lines_fit_slots()
    ensures fit { LinesFit }
    ensures kept { RoomIsKept }
    ensures made { RoomIsMade }
{}
