//! Faults of the names.
use super::Cut;
use super::phases::First;

/// 16: a size is 0 or above 64.
pub const BAD_SIZES: [Cut; 10] = [
    Cut(16, "kernel a { in A[", "65]; out y; }"),
    Cut(16, "kernel a { in A[", "0]; }"),
    Cut(16, "kernel a { in A[", "000]; }"),
    Cut(16, "kernel a { in A[", "065]; }"),
    Cut(16, "kernel a { in A[", "9223372036854775807]; }"),
    // The second size, and the first of two.
    Cut(20, "kernel a { in A[64][", "65]; }"),
    Cut(19, "kernel a { in A[1][", "0]; }"),
    Cut(16, "kernel a { in A[", "0][65]; }"),
    // Of the last declaration: behind 11, 9 and 15 bytes.
    Cut(44, "kernel a { in A[1]; out B[64][64]; tmp t[1][", "0]; }"),
    // Words of two bytes stand before.
    Cut(18, "kernel é { in é[", "65]; }"),
];

/// 5: a name is declared again, or a loop's name is declared or open.
pub const TWICE: [Cut; 13] = [
    Cut(21, "kernel a { in x; out ", "x; }"),
    Cut(20, "kernel a { in x; in ", "x; }"),
    Cut(21, "kernel a { in x; tmp ", "x; }"),
    Cut(28, "kernel a { in x; out y; tmp ", "x; }"),
    Cut(28, "kernel a { in x; out y; tmp ", "y; }"),
    // With other sizes too.
    Cut(24, "kernel a { in x[2]; tmp ", "x; }"),
    Cut(24, "kernel a { in x[2]; tmp ", "x[2]; }"),
    // A loop by the name of an input, of an output, of the loop around it, and of one around that.
    Cut(21, "kernel a { in i; for ", "i in 0..1 { } }"),
    Cut(22, "kernel a { out i; for ", "i in 0..1 { } }"),
    Cut(31, "kernel a { for i in 0..1 { for ", "i in 0..1 { } } }"),
    Cut(
        47,
        "kernel a { for i in 0..1 { for j in 0..1 { for ",
        "i in 0..1 { } } } }",
    ),
    // The last statement: behind 11, 6, 7 and 7 bytes.
    Cut(35, "kernel a { in x; out y; y = x; for ", "y in 0..1 { } }"),
    // A name of another script.
    Cut(26, "kernel a { in имя; out ", "имя; }"),
];

/// 4: a name is not known where it stands.
pub const UNKNOWN: [Cut; 22] = [
    Cut(22, "kernel a { out y; y = ", "z; }"),
    // The first name that can be at fault, and the last one.
    Cut(11, "kernel a { ", "y = 1; }"),
    Cut(33, "kernel a { out y; y = 1; y = y + ", "z; }"),
    // In a group, behind a minus sign, as the last argument, with brackets.
    Cut(23, "kernel a { out y; y = (", "z); }"),
    Cut(23, "kernel a { out y; y = -", "z; }"),
    Cut(32, "kernel a { out y; y = mad(1, y, ", "z); }"),
    Cut(22, "kernel a { out y; y = ", "z[0]; }"),
    // The title is no element, and large letters are others.
    Cut(22, "kernel a { out y; y = ", "a; }"),
    Cut(28, "kernel a { in x; out y; y = ", "X; }"),
    // é in one character of two bytes, and as e with a mark, are two names.
    Cut(29, "kernel a { in é; out y; y = ", "e\u{301}; }"),
    // In an index only open loops are known: no number, no array, no unknown name.
    Cut(39, "kernel a { in A[2]; in x; out y; y = A[", "x]; }"),
    Cut(33, "kernel a { in A[2]; out y; y = A[", "A]; }"),
    Cut(33, "kernel a { in A[2]; out y; y = A[", "i]; }"),
    Cut(35, "kernel a { in A[2]; out y; y = A[1+", "i]; }"),
    Cut(23, "kernel a { out y[2]; y[", "y] = 1; }"),
    // In a bound too.
    Cut(29, "kernel a { in n; for i in 0..", "n { } }"),
    Cut(20, "kernel a { for i in ", "a..1 { } }"),
    // A loop's name is not known in its own bounds.
    Cut(20, "kernel a { for i in ", "i..1 { } }"),
    Cut(23, "kernel a { for i in 0..", "i { } }"),
    // Nor before the loop, nor behind it.
    Cut(22, "kernel a { out y; y = ", "i; for i in 0..1 { } }"),
    Cut(40, "kernel a { out y; for i in 0..1 { } y = ", "i; }"),
    Cut(
        56,
        "kernel a { out y; for i in 0..1 { } for j in 0..1 { y = ",
        "i; } }",
    ),
];

/// 9: the target is an input or an open index.
pub const NOT_WRITABLE: [Cut; 7] = [
    Cut(17, "kernel a { in x; ", "x = 1; }"),
    Cut(20, "kernel a { in A[2]; ", "A[0] = 1; }"),
    Cut(27, "kernel a { for i in 0..1 { ", "i = 1; } }"),
    Cut(
        43,
        "kernel a { for i in 0..1 { for j in 0..1 { ",
        "i = 1; } } }",
    ),
    // In a body, and in the last statement.
    Cut(33, "kernel a { in x; for i in 0..1 { ", "x = 1; } }"),
    Cut(31, "kernel a { in x; out y; y = x; ", "x = y; }"),
    // In a text of lines of 10, 7, 0, 0 and 2 bytes, with four line feeds.
    Cut(23, "kernel a {\n  in x;\n\n\n  ", "x = 1;\n}\n"),
];

/// 6: another number of brackets than sizes, or an open index with brackets.
pub const INDICES: [Cut; 12] = [
    Cut(28, "kernel a { in x; out y; y = ", "x[0]; }"),
    Cut(28, "kernel a { in x; out y; y = ", "x[0][0]; }"),
    Cut(31, "kernel a { in A[2]; out y; y = ", "A; }"),
    Cut(31, "kernel a { in A[2]; out y; y = ", "A[0][0]; }"),
    Cut(34, "kernel a { in A[2][2]; out y; y = ", "A; }"),
    Cut(34, "kernel a { in A[2][2]; out y; y = ", "A[0]; }"),
    // Of a target, where it is the first name that can be at fault.
    Cut(18, "kernel a { out y; ", "y[0] = 1; }"),
    Cut(21, "kernel a { out y[2]; ", "y = 1; }"),
    Cut(21, "kernel a { out y[2]; ", "y[0][1] = 1; }"),
    // An open index has none.
    Cut(38, "kernel a { out y; for i in 0..1 { y = ", "i[0]; } }"),
    Cut(
        42,
        "kernel a { out y; for i in 0..1 { y = 1 + ",
        "i[i]; } }",
    ),
    // The last name: behind 11, 6, 7, 7 and 8 bytes.
    Cut(39, "kernel a { in x; out y; y = x; y = y + ", "x[0]; }"),
];

/// Names in steps and branches: declared again, not known, not writable, with other brackets, and of several faults the first.
pub const IN_BRANCHES: [First; 28] = [
    // 5: a loop in a block has the name of a loop around the branch, or a declared one.
    First(
        5,
        Cut(
            43,
            "kernel a { for i in 0..1 { if i == 0 { for ",
            "i in 0..1 { } } } }",
        ),
    ),
    First(
        5,
        Cut(
            52,
            "kernel a { for i in 0..1 { if i == 0 { } else { for ",
            "i in 0..1 { } } } }",
        ),
    ),
    First(
        5,
        Cut(
            43,
            "kernel a { if 0 == 0 { for i in 0..1 { for ",
            "i in 0..1 { } } } }",
        ),
    ),
    First(
        5,
        Cut(
            33,
            "kernel a { in x; if 0 == 1 { for ",
            "x in 0..1 by 2 { } } }",
        ),
    ),
    // 4: in a side and in a step only open indices are known: no input, no title, no name of a loop that has ended, nor that of the loop itself.
    First(
        4,
        Cut(34, "kernel b { in x; out y; y = x; if ", "x < 1 { } }"),
    ),
    First(4, Cut(24, "kernel a { in x; if 0 < ", "x { } }")),
    First(4, Cut(14, "kernel a { if ", "i == 0 { } }")),
    First(4, Cut(19, "kernel a { if 0 == ", "a { } }")),
    First(
        4,
        Cut(32, "kernel a { for i in 0..1 { } if ", "i == 0 { } }"),
    ),
    First(
        4,
        Cut(
            53,
            "kernel a { if 0 == 0 { for i in 0..1 { } } else { if ",
            "i == 0 { } } }",
        ),
    ),
    First(4, Cut(28, "kernel a { for i in 0..4 by ", "i { } }")),
    First(4, Cut(34, "kernel a { in n; for i in 0..4 by ", "n { } }")),
    First(4, Cut(32, "kernel a { for i in 0..4 by 2 * ", "n { } }")),
    // 4, 9 and 6 in a block that is not run, too.
    First(
        4,
        Cut(41, "kernel a { out y; y = 1; if 0 == 1 { y = ", "z; } }"),
    ),
    First(
        4,
        Cut(
            50,
            "kernel a { out y; if 0 == 0 { y = 1; } else { y = ",
            "z; } }",
        ),
    ),
    First(9, Cut(29, "kernel a { in x; if 0 == 1 { ", "x = 1; } }")),
    First(
        9,
        Cut(
            39,
            "kernel a { for i in 0..1 { if i == 0 { ",
            "i = 1; } } }",
        ),
    ),
    First(
        6,
        Cut(43, "kernel a { in A[2]; out y; if 0 == 1 { y = ", "A; } }"),
    ),
    First(
        6,
        Cut(
            59,
            "kernel a { out y; for i in 0..1 { if 0 == 0 { } else { y = ",
            "i[0]; } } }",
        ),
    ),
    // Of two names the earlier: left before right, the sides before the blocks, the first block before the second.
    First(4, Cut(14, "kernel a { if ", "u == v { } }")),
    First(4, Cut(19, "kernel a { if 0 == ", "v { w = 1; } }")),
    First(
        4,
        Cut(23, "kernel a { if 0 == 0 { ", "u = 1; } else { v = 1; } }"),
    ),
    // The loop's name, its bounds, its step, its body.
    First(5, Cut(21, "kernel a { in i; for ", "i in 0..1 by u { } }")),
    First(4, Cut(23, "kernel a { for i in 0..", "v by u { } }")),
    First(4, Cut(28, "kernel a { for i in 0..1 by ", "u { v = 1; } }")),
    // 16: a size stands before all statements.
    First(16, Cut(16, "kernel a { in A[", "0]; if z == 0 { } }")),
    // 2: a number of a side or a step is too great for a token; a token stands before the names.
    First(
        2,
        Cut(19, "kernel a { if z == ", "9223372036854775808 { } }"),
    ),
    First(
        2,
        Cut(
            28,
            "kernel a { for i in z..1 by ",
            "9223372036854775808 { } }",
        ),
    ),
];
