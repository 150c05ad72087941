//! Texts with several faults, of which the first is answered: the phases are length, tokens, syntax, names, and in a phase the fault
//! that stands first.
use super::Cut;

/// A text with several faults: the code of the first, and where it is.
#[derive(Clone, Copy)]
pub struct First(pub u8, pub Cut);

pub const SEVERAL: [First; 24] = [
    // Of two faults of the tokens the earlier.
    First(2, Cut(0, "", "9223372036854775808 ?")),
    First(1, Cut(0, "", "? 9223372036854775808")),
    First(1, Cut(11, "kernel a { ", "?\n? }")),
    // Tokens before the syntax, also where they stand behind.
    First(1, Cut(13, "kernel a a { ", "? }")),
    First(2, Cut(2, "} ", "9223372036854775808")),
    First(1, Cut(13, "kernel a { } ", "? kernel")),
    // Tokens before the names.
    First(1, Cut(18, "kernel a { y = 1; ", "? }")),
    First(
        2,
        Cut(25, "kernel a { in A[65]; A = ", "9223372036854775808; }"),
    ),
    // Syntax before the names.
    First(3, Cut(20, "kernel a { y = 1; z ", "}")),
    First(3, Cut(20, "kernel a { in A[65] ", "}")),
    First(3, Cut(23, "kernel a { in x; in x; ", "1 }")),
    First(3, Cut(17, "kernel a { y = 1;", "")),
    // Of two faults of the syntax the earlier.
    First(3, Cut(9, "kernel a ", "a { ; }")),
    // Of two faults of the names the earlier: a declaration's name, its sizes from the left, and so on with the next.
    First(5, Cut(20, "kernel a { in x; in ", "x[0]; }")),
    First(16, Cut(16, "kernel a { in A[", "0]; in A; }")),
    First(5, Cut(20, "kernel a { in x; in ", "x; y = 1; }")),
    // A target, its indices, then the right side.
    First(4, Cut(11, "kernel a { ", "y = z; }")),
    First(9, Cut(17, "kernel a { in x; ", "x = z; }")),
    First(4, Cut(23, "kernel a { out y[2]; y[", "u] = v; }")),
    First(4, Cut(22, "kernel a { out y; y = ", "u + v; }")),
    // A loop's name, its bounds, its body.
    First(
        5,
        Cut(21, "kernel a { in i; for ", "i in i..j { k = 1; } }"),
    ),
    First(4, Cut(20, "kernel a { for i in ", "u..v { w = 1; } }")),
    First(4, Cut(23, "kernel a { for i in 0..", "v { w = 1; } }")),
    First(6, Cut(28, "kernel a { in x; out y; y = ", "x[z]; }")),
];

/// Two faults at one name: it is not known, then it is not writable, then it has other brackets.
pub const AT_ONE_NAME: [First; 6] = [
    First(4, Cut(11, "kernel a { ", "y[0] = 1; }")),
    First(4, Cut(22, "kernel a { out y; y = ", "z[0][0]; }")),
    First(9, Cut(17, "kernel a { in x; ", "x[0] = 1; }")),
    First(9, Cut(20, "kernel a { in A[2]; ", "A = 1; }")),
    First(9, Cut(27, "kernel a { for i in 0..1 { ", "i[0] = 1; } }")),
    First(9, Cut(27, "kernel a { for i in 0..1 { ", "i[z] = 1; } }")),
];
