//! Laws of the graphs of kernels. A call does nothing: its contract is the law.
ghost use Rattle.three_address.specs.Laws.{GraphsAreGraphs, GraphsKeepTheLabels, GraphsHaveTheMeaning, GraphsHaveTheFaults, WalksComeFirst, ConstantsAreSmall, WalkFaultsHaveTheirCodes, ValueFaultsHaveTheirCodes};

/// The graph of a well-formed kernel is a graph, it has the kernel's title and the labels of its input and output elements, and on each
/// list of values of the inputs its values are the kernel's outputs, as they are evaluated along the tree. Where there is no graph, its
/// fault is the first fault of the kernel's run; a fault of the walk comes before those of the values. The constants of the graph have 64 bits.
pub fn kernel_graphs()
    ensures graphs { GraphsAreGraphs }
    ensures labels { GraphsKeepTheLabels }
    ensures meaning { GraphsHaveTheMeaning }
    ensures faults { GraphsHaveTheFaults }
    ensures walk { WalksComeFirst }
    ensures constants { ConstantsAreSmall }
{}

/// Which codes the faults of each phase have. A fault of a walk has 7, 12, 14 or 17: an index out of its range, too many turns, a value of an
/// index beyond a million, a step below 1. Where the walk of a well-formed kernel has no fault, a fault of its graph has 8, 10 or 11: an
/// element that is read and not set, an output element that is not set at the end, a 257th vertex.
pub fn faults_have_their_codes()
    ensures walk { WalkFaultsHaveTheirCodes }
    ensures values { ValueFaultsHaveTheirCodes }
{}
