//! Laws of texts. A call does nothing: its contract is the law.
ghost use Rattle.kernel_parser.specs.TextLaws.{OneKernel, OneTextFault, KernelWithoutFault, KernelOrFault, KernelsAreWellFormed, NameFaultsInOrder};

/// Each text has exactly one of two: a kernel that it stands for, the only one, or a first fault, the only one. The kernel is well
/// formed. The first fault of the names is the one with the least place; at one name unknown stands before not writable, and that before
/// indices.
pub fn kernel_or_fault()
    ensures one_kernel { OneKernel }
    ensures well_formed { KernelsAreWellFormed }
    ensures one_fault { OneTextFault }
    ensures never_both { KernelWithoutFault }
    ensures always_one { KernelOrFault }
    ensures name_order { NameFaultsInOrder }
{}
