//! Faults of the syntax: no kernel begins with the tokens up to the one at fault, or the text ends too early.
use super::Cut;

/// 3: what stands around a kernel, and declarations.
pub const DECLARATIONS: [Cut; 55] = [
    // Where the first token is, a middle one and the last one.
    Cut(0, "", "a kernel { }"),
    Cut(16, "kernel a { in x ", "out y; }"),
    Cut(13, "kernel a { } ", "}"),
    // A kernel begins with its word, in small letters.
    Cut(0, "", "{ }"),
    Cut(0, "", "Kernel a { }"),
    Cut(0, "", "1 kernel a { }"),
    // The text ends too early: the place is its end, behind spaces and comments.
    Cut(0, "", ""),
    Cut(5, "     ", ""),
    Cut(5, "\t\r\n \n", ""),
    Cut(10, "// comment", ""),
    Cut(6, "kernel", ""),
    Cut(8, "kernel a", ""),
    Cut(10, "kernel a {", ""),
    Cut(12, "kernel a {  ", ""),
    Cut(20, "kernel a { // to end", ""),
    Cut(19, "kernel a { // é\r\n ", ""),
    Cut(15, "kernel a { in x", ""),
    Cut(16, "kernel a { in x;", ""),
    Cut(23, "kernel a { out y; y = 1", ""),
    Cut(25, "kernel a { for i in 0..1 ", ""),
    Cut(28, "kernel a { for i in 0..1 { }", ""),
    // A carriage return ends no comment, so this text is one.
    Cut(17, "// c\rkernel a { }", ""),
    // Nothing stands behind a kernel.
    Cut(13, "kernel a { } ", ";"),
    Cut(13, "kernel a { } ", "a"),
    Cut(13, "kernel a { } ", "kernel b { }"),
    Cut(26, "kernel a { out y; y = 1; }", "}"),
    // The title is a name.
    Cut(7, "kernel ", "{ }"),
    Cut(7, "kernel ", "7 { }"),
    Cut(7, "kernel ", "kernel { }"),
    Cut(9, "kernel a ", "b { }"),
    Cut(9, "kernel a ", "[ ]"),
    // No reserved word is a name.
    Cut(14, "kernel a { in ", "kernel; }"),
    Cut(14, "kernel a { in ", "in; }"),
    Cut(14, "kernel a { in ", "out; }"),
    Cut(14, "kernel a { in ", "tmp; }"),
    Cut(14, "kernel a { in ", "for; }"),
    Cut(14, "kernel a { in ", "min; }"),
    Cut(14, "kernel a { in ", "max; }"),
    Cut(14, "kernel a { in ", "sel; }"),
    Cut(14, "kernel a { in ", "mad; }"),
    Cut(14, "kernel a { in ", "if; }"),
    Cut(14, "kernel a { in ", "else; }"),
    Cut(14, "kernel a { in ", "by; }"),
    // A declaration is one name with at most two sizes, which are numbers, and a semicolon.
    Cut(11, "kernel a { ", "; }"),
    Cut(14, "kernel a { in ", "5; }"),
    Cut(14, "kernel a { in ", "; }"),
    Cut(15, "kernel a { in x", ", z; }"),
    Cut(16, "kernel a { in x ", "= 1; }"),
    Cut(16, "kernel a { in A[", "]; }"),
    Cut(16, "kernel a { in A[", "-1]; }"),
    Cut(16, "kernel a { in A[", "n]; }"),
    Cut(17, "kernel a { in A[2", "+1]; }"),
    Cut(17, "kernel a { in A[2", ", 2]; }"),
    Cut(21, "kernel a { in A[1][1]", "[1]; }"),
    Cut(25, "kernel a { out y; y = 1; ", "tmp t; }"),
];

/// 3: statements, expressions and indices.
pub const STATEMENTS: [Cut; 59] = [
    // An assignment is a place, an equals sign, an expression and a semicolon.
    Cut(18, "kernel a { out y; ", "1 = y; }"),
    Cut(18, "kernel a { out y; ", "-y = 1; }"),
    Cut(18, "kernel a { out y; ", "(y) = 1; }"),
    Cut(18, "kernel a { out y; ", "min = 1; }"),
    Cut(20, "kernel a { out y; y ", "; }"),
    Cut(20, "kernel a { out y; y ", "+= 1; }"),
    Cut(20, "kernel a { out y; y ", "== 1; }"),
    Cut(22, "kernel a { out y; y = ", "; }"),
    Cut(24, "kernel a { out y; y = 1 ", "}"),
    Cut(24, "kernel a { out y; y = 1 ", "= 2; }"),
    // An operator stands between two operands; only the minus sign stands before one.
    Cut(22, "kernel a { out y; y = ", "+1; }"),
    Cut(22, "kernel a { out y; y = ", "*1; }"),
    Cut(22, "kernel a { out y; y = ", "&1; }"),
    Cut(22, "kernel a { out y; y = ", "|1; }"),
    Cut(22, "kernel a { out y; y = ", "^1; }"),
    Cut(23, "kernel a { out y; y = -", "; }"),
    Cut(24, "kernel a { out y; y = 1+", "; }"),
    Cut(24, "kernel a { out y; y = 1+", "*2; }"),
    Cut(24, "kernel a { out y; y = 1 ", "2; }"),
    // A number ends where no digit follows.
    Cut(23, "kernel a { out y; y = 1", "y; }"),
    // Two points are one sign, which stands only in the line of a loop.
    Cut(23, "kernel a { out y; y = 1", "..4; }"),
    // Parentheses hold one expression.
    Cut(23, "kernel a { out y; y = (", "); }"),
    Cut(24, "kernel a { out y; y = (1", "; }"),
    Cut(24, "kernel a { out y; y = (1", ", 2); }"),
    Cut(23, "kernel a { out y; y = 1", "); }"),
    // A call has as many arguments as its function.
    Cut(25, "kernel a { out y; y = min", "; }"),
    Cut(26, "kernel a { out y; y = min(", "); }"),
    Cut(27, "kernel a { out y; y = min(1", "); }"),
    Cut(29, "kernel a { out y; y = min(1,2", ",3); }"),
    Cut(29, "kernel a { out y; y = max(1,2", ",3); }"),
    Cut(29, "kernel a { out y; y = sel(1,2", "); }"),
    Cut(31, "kernel a { out y; y = sel(1,2,3", ",4); }"),
    Cut(29, "kernel a { out y; y = mad(1,2", "); }"),
    Cut(31, "kernel a { out y; y = mad(1,2,3", ",4); }"),
    Cut(23, "kernel a { out y; y = y", "(1); }"),
    // Reserved words that begin no operand.
    Cut(22, "kernel a { out y; y = ", "by; }"),
    Cut(22, "kernel a { out y; y = ", "in; }"),
    // A place has at most two brackets, and in each one index.
    Cut(24, "kernel a { out y; y = y[", "]; }"),
    Cut(25, "kernel a { out y; y = y[0", ", 0]; }"),
    Cut(29, "kernel a { out y; y = x[0][0]", "[0]; }"),
    Cut(18, "kernel a { x[0][0]", "[0] = 1; }"),
    // An index has no brackets, no calls, and only + - and * in it.
    Cut(25, "kernel a { out y; y = A[B", "[0]]; }"),
    Cut(24, "kernel a { out y; y = A[", "min(1,2)]; }"),
    Cut(25, "kernel a { out y; y = A[1", "&1]; }"),
    Cut(25, "kernel a { out y; y = A[1", "|1]; }"),
    Cut(25, "kernel a { out y; y = A[1", "^1]; }"),
    Cut(24, "kernel a { out y; y = A[", "+1]; }"),
    Cut(25, "kernel a { out y; y = A[(", ")]; }"),
    // A loop has a name, two bounds and a body in braces.
    Cut(15, "kernel a { for ", "in in 0..1 { } }"),
    Cut(15, "kernel a { for ", "1 in 0..1 { } }"),
    Cut(16, "kernel a { for A", "[0] in 0..1 { } }"),
    Cut(17, "kernel a { for i ", "= 0..1 { } }"),
    Cut(20, "kernel a { for i in ", "..1 { } }"),
    Cut(22, "kernel a { for i in 0 ", "{ } }"),
    Cut(21, "kernel a { for i in 0", ", 1 { } }"),
    Cut(23, "kernel a { for i in 0..", "{ } }"),
    Cut(25, "kernel a { for i in 0..1 ", "y = 1; }"),
    // A body has no declarations, and none stands behind a loop.
    Cut(27, "kernel a { for i in 0..1 { ", "in x; } }"),
    Cut(29, "kernel a { for i in 0..1 { } ", "in x; }"),
];

/// 3: branches.
pub const BRANCHES: [Cut; 57] = [
    // The longest sign is read first: `===` is `==` and `=`, and so on with the others.
    Cut(18, "kernel a { if 0 ==", "= 0 { } }"),
    Cut(18, "kernel a { if 0 !=", "= 0 { } }"),
    Cut(18, "kernel a { if 0 <=", "= 0 { } }"),
    Cut(18, "kernel a { if 0 >=", "= 0 { } }"),
    Cut(17, "kernel a { if 0 <", "< 0 { } }"),
    Cut(17, "kernel a { if 0 <", "> 0 { } }"),
    Cut(17, "kernel a { if 0 >", "< 0 { } }"),
    Cut(18, "kernel a { if 0 >=", "> 0 { } }"),
    // `=<` is `=` and `<`, and `=` begins no relation; nor do two signs with a space between them make one.
    Cut(16, "kernel a { if 0 ", "=< 0 { } }"),
    Cut(16, "kernel a { if 0 ", "=> 0 { } }"),
    Cut(16, "kernel a { if 0 ", "=!= 0 { } }"),
    Cut(16, "kernel a { if 0 ", "= 0 { } }"),
    Cut(16, "kernel a { if 0 ", "= = 0 { } }"),
    Cut(18, "kernel a { if 0 < ", "= 0 { } }"),
    Cut(18, "kernel a { if 0 > ", "= 0 { } }"),
    // A branch has two sides with a relation between them.
    Cut(14, "kernel a { if ", "{ } }"),
    Cut(14, "kernel a { if ", "== 0 { } }"),
    Cut(16, "kernel a { if 0 ", "{ } }"),
    Cut(19, "kernel a { if 0 == ", "{ } }"),
    Cut(21, "kernel a { if 0 == 0 ", "== 0 { } }"),
    Cut(20, "kernel a { if 0 < 1 ", "< 2 { } }"),
    Cut(17, "kernel a { if (0 ", "== 0) { } }"),
    Cut(16, "kernel a { if y ", "{ } }"),
    // A side is an index: no brackets, no calls, and only + - and * in it.
    Cut(20, "kernel a { if 0 == A", "[0] { } }"),
    Cut(14, "kernel a { if ", "min(0, 1) == 0 { } }"),
    Cut(16, "kernel a { if 0 ", "& 1 == 0 { } }"),
    Cut(21, "kernel a { if 0 == 0 ", "| 1 { } }"),
    Cut(14, "kernel a { if ", "+1 == 1 { } }"),
    // Its blocks are in braces, and hold statements alone.
    Cut(21, "kernel a { if 0 == 0 ", "y = 1; }"),
    Cut(21, "kernel a { if 0 == 0 ", "; }"),
    Cut(23, "kernel a { if 0 == 0 { ", "in x; } }"),
    Cut(30, "kernel a { if 0 == 0 { } else ", "y = 1; }"),
    Cut(30, "kernel a { if 0 == 0 { } else ", "if 1 == 1 { } }"),
    Cut(32, "kernel a { if 0 == 0 { } else { ", "tmp t; } }"),
    Cut(25, "kernel a { if 0 == 0 { } ", "; }"),
    Cut(25, "kernel a { if 0 == 0 { } ", "in x; }"),
    // `else` stands behind the first block of a branch, once.
    Cut(11, "kernel a { ", "else { } }"),
    Cut(25, "kernel a { out y; y = 1; ", "else { } }"),
    Cut(29, "kernel a { for i in 0..1 { } ", "else { } }"),
    Cut(34, "kernel a { if 0 == 0 { } else { } ", "else { } }"),
    Cut(
        43,
        "kernel a { if 0 == 0 { } for i in 0..1 { } ",
        "else { } }",
    ),
    Cut(23, "kernel a { if 0 == 0 { ", "else { } } }"),
    Cut(
        43,
        "kernel a { for i in 0..1 { if i == 0 { } } ",
        "else { } }",
    ),
    // The words are whole: `elseif` and `if0` are names.
    Cut(18, "kernel a { elseif ", "0 == 0 { } }"),
    Cut(15, "kernel a { if0 ", "== 0 { } }"),
    // A branch is no expression, and its signs are no operators.
    Cut(22, "kernel a { out y; y = ", "if 0 == 0 { 1 } }"),
    Cut(24, "kernel a { out y; y = 1 ", "< 2; }"),
    Cut(25, "kernel a { out y; y = (1 ", ">= 2); }"),
    Cut(35, "kernel a { in A[2]; out y; y = A[0 ", "!= 1]; }"),
    Cut(20, "kernel a { out y; y ", "<= 1; }"),
    Cut(22, "kernel a { out y; y = ", "= 1; }"),
    // The text ends too early.
    Cut(13, "kernel a { if", ""),
    Cut(18, "kernel a { if 0 ==", ""),
    Cut(23, "kernel a { if 0 == 0 { ", ""),
    Cut(24, "kernel a { if 0 == 0 { }", ""),
    Cut(29, "kernel a { if 0 == 0 { } else", ""),
    Cut(33, "kernel a { if 0 == 0 { } else { }", ""),
];

/// 3: steps of loops.
pub const STEPS: [Cut; 19] = [
    // A step is one index, behind the second bound.
    Cut(28, "kernel a { for i in 0..4 by ", "{ } }"),
    Cut(30, "kernel a { for i in 0..4 by 2 ", "by 2 { } }"),
    Cut(22, "kernel a { for i in 0 ", "by 2..4 { } }"),
    Cut(17, "kernel a { for i ", "by 2 in 0..4 { } }"),
    Cut(29, "kernel a { for i in 0..4 by 2", "..3 { } }"),
    Cut(28, "kernel a { for i in 0..4 by ", "= 2 { } }"),
    Cut(29, "kernel a { for i in 0..4 by A", "[0] { } }"),
    Cut(28, "kernel a { for i in 0..4 by ", "min(1, 2) { } }"),
    Cut(30, "kernel a { for i in 0..4 by 2 ", "y = 1; }"),
    // `by` stands nowhere else, and is no name; `by2` is one.
    Cut(11, "kernel a { ", "by 2 { } }"),
    Cut(21, "kernel a { if 0 == 0 ", "by 2 { } }"),
    Cut(14, "kernel a { if ", "by == 0 { } }"),
    Cut(15, "kernel a { for ", "by in 0..1 { } }"),
    Cut(25, "kernel a { for i in 0..4 ", "by2 { } }"),
    Cut(29, "kernel a { for i in 0..4 { } ", "by 2; }"),
    // A bound ends before a relation.
    Cut(25, "kernel a { for i in 0..4 ", "== 1 { } }"),
    Cut(30, "kernel a { for i in 0..4 by 2 ", "< 3 { } }"),
    // The text ends too early.
    Cut(27, "kernel a { for i in 0..4 by", ""),
    Cut(29, "kernel a { for i in 0..4 by 2", ""),
];
