//! Laws of the answers of `graph`.
ghost use Rattle.pebble_cli.specs.GraphLaws.{GraphStatuses, DoneWhereAccepted};

/// `graph` answers Kernel or Done: Done exactly to an accepted kernel, whose graph it prints.
pub fn graph_answers()
    ensures statuses { GraphStatuses }
    ensures done { DoneWhereAccepted }
{}
