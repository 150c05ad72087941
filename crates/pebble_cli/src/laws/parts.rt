//! Laws of the answers of `parts`.
ghost use Rattle.pebble_cli.specs.PartLaws.{PartStatuses, PartsAreAnswered};

/// `parts` answers Kernel, TooSmall or Done. To an accepted kernel with more slots than the degree of its graph it answers Done, with the
/// bounds of the parts and their sum.
pub fn parts_answers()
    ensures statuses { PartStatuses }
    ensures answered { PartsAreAnswered }
{}
