//! Laws of the texts that the program accepts. A call does nothing: its contract is the law.
ghost use Rattle.command_answers.specs.Accepted.{AcceptedOnce, OneKernelFault, NoFaultOfAccepted, AcceptedOrFault};

/// Each text has exactly one of two: it is accepted, with one kernel and one graph, or it has a fault, with one code and one place.
pub fn accepted_or_fault()
    ensures once { AcceptedOnce }
    ensures one_fault { OneKernelFault }
    ensures apart { NoFaultOfAccepted }
    ensures always { AcceptedOrFault }
{}
