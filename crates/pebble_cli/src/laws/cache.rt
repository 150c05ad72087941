//! Laws of the answers of `cache`.
ghost use Rattle.pebble_cli.specs.CacheLaws.{CacheStatuses, CachesAreAnswered, CachesAreOptimalWhereEnough};

/// `cache` answers Kernel, TooSmall, Optimal or Open. To an accepted kernel with more slots than the degree of its graph it answers Optimal
/// or Open, by the plan, with the numbers of the cache; and never Open where the budget is at least 2 to the power 2n - i, with n vertices and
/// i inputs.
pub fn cache_answers()
    ensures statuses { CacheStatuses }
    ensures answered { CachesAreAnswered }
    ensures enough { CachesAreOptimalWhereEnough }
{}
