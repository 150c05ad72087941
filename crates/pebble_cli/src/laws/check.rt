//! Laws of the answers of `check`.
ghost use Rattle.pebble_cli.specs.CheckLaws.{CheckStatuses, DoneWhereCertified, RefusedWhereNot, CertifiedOrRefused, PlansAreAccepted};

/// `check` answers Kernel, TooSmall, Done or Refused. To an accepted kernel with more slots than the degree of its graph it answers Done,
/// and prints the bound, exactly where the file is a table file of the game; and Refused, and prints the reason and the row, exactly where it
/// is refused for them. Each file does one of the two.
pub fn check_answers()
    ensures statuses { CheckStatuses }
    ensures done { DoneWhereCertified }
    ensures refused { RefusedWhereNot }
    ensures always { CertifiedOrRefused }
{}

/// A file that `plan` wrote is accepted by `check` with the same kernel, slots and weights, and its bound is printed.
pub fn plans_are_accepted()
    ensures { PlansAreAccepted }
{}
