//! Texts without a fault.

/// A text, and the cost of the first plan of its kernel with four slots: where these are enough for all values, a load of each input that
/// an output needs, and a store of each vertex that is an output and no input.
#[derive(Clone, Copy)]
pub struct Planned(pub u32, pub &'static str);

pub const PLANNED: [Planned; 57] = [
    // Nothing, and declarations of each kind. An output that is an input costs nothing, one that is a constant costs its store.
    Planned(0, "kernel a { }"),
    Planned(0, "kernel a { in x; tmp t; }"),
    Planned(0, "kernel a { in x; out y; y = x; }"),
    Planned(0, "kernel a { in x; out y; tmp t; t = x; y = t; }"),
    Planned(1, "kernel a { out y; y = 7; }"),
    // One operation of each sign.
    Planned(2, "kernel a { in x; out y; y = x + 1; }"),
    Planned(2, "kernel a { in x; out y; y = 1 - x; }"),
    Planned(2, "kernel a { in x; out y; y = x * x; }"),
    Planned(2, "kernel a { in x; out y; y = x & 6; }"),
    Planned(2, "kernel a { in x; out y; y = 6 | x; }"),
    Planned(2, "kernel a { in x; out y; y = x ^ x; }"),
    // An operation on constants is a constant.
    Planned(1, "kernel a { out y; y = 2 * 3; }"),
    // An output that is read and assigned again, and an operation that no output needs.
    Planned(2, "kernel a { in x; out y; y = x + 1; y = y * 2; }"),
    Planned(0, "kernel a { in x; out y; tmp t; t = x + 1; y = x; }"),
    // Parentheses round an operand and round the whole make no difference.
    Planned(0, "kernel a { in x; out y; y = (x); }"),
    Planned(1, "kernel a { out y; y = ((7)); }"),
    Planned(2, "kernel a { in x; out y; y = (x + 1); }"),
    Planned(2, "kernel a { in x; out y; y = ((x) * ((2))); }"),
    // Spaces: none where a sign parts the tokens, and of all four kinds.
    Planned(2, "kernel a{in x;out y;y=x-1;}"),
    Planned(
        2,
        "\n\tkernel\ta\r\n{ in\nx ; out\ty ; y\r=\rx\n\n+ 1 ; }\r\n ",
    ),
    Planned(0, "kernel a {\r\n  in x;\r\n  out y;\r\n  y = x;\r\n}\r\n"),
    Planned(0, "kernel a {\r in x;\r out y;\r y = x;\r}\r"),
    // Comments: before, behind and between tokens, in a row, empty, at the end of the text without a line feed.
    Planned(0, "// first\nkernel a { }"),
    Planned(0, "// first\r\nkernel a { }"),
    Planned(0, "kernel a { } // last"),
    Planned(0, "kernel a { }//"),
    Planned(0, "kernel a { }//\n"),
    Planned(0, "kernel//\na//\n{//\n}//\n"),
    Planned(2, "kernel a { in x; out y; y = x // the input\n + 1; }"),
    Planned(2, "kernel a { in x; out y; y = x//+ 2\n+ 1; }"),
    Planned(1, "kernel a { out y; y = 1; // y = 2;\n// y = 3;\n}"),
    // In a comment stand any characters, also those of faults, and a carriage return does not end it.
    Planned(
        0,
        "kernel a { // ? 9223372036854775808 } // /* \" \u{0} \u{a0}\n}",
    ),
    Planned(0, "kernel a { // é имя 名前 😀\n}"),
    Planned(0, "// c\r?\nkernel a { }"),
    // The least and the greatest character of each length, and those beside the surrogates.
    Planned(
        0,
        "kernel a { } // \u{7f}\u{80}\u{7ff}\u{800}\u{d7ff}\u{e000}\u{ffff}\u{10000}\u{10ffff}",
    ),
    // Names of three scripts, of letters of four bytes, with a mark, a middle point, a digit of another script.
    Planned(0, "kernel имя { in αβ; out 名前; 名前 = αβ; }"),
    Planned(0, "kernel 𐌰 { in 𐌰; out 𐌱; 𐌱 = 𐌰; }"),
    Planned(
        0,
        "kernel a { in x\u{301}; out a·b; tmp x\u{663}; a·b = x\u{301}; }",
    ),
    // é in one character, and as e with a mark, are two names; so are large and small letters.
    Planned(0, "kernel a { in é; out e\u{301}; e\u{301} = é; }"),
    Planned(0, "kernel a { in x; out X; X = x; }"),
    Planned(0, "kernel a { in _; out __1; __1 = _; }"),
    // Names that begin as reserved words, or are some in other letters.
    Planned(
        0,
        "kernel kernels { in in1; out output; tmp For; output = in1; }",
    ),
    Planned(0, "kernel a { in iff; out min_; tmp IN; min_ = iff; }"),
    // The title is in no table.
    Planned(0, "kernel x { in x; out y; y = x; }"),
    // Declarations in any order.
    Planned(0, "kernel a { out y; tmp t; in x; y = x; }"),
    // A name of 64 bytes, counted by tens, and one of 32 letters of two bytes.
    Planned(
        0,
        "kernel a123456789b123456789c123456789d123456789e123456789f123456789g123 { }",
    ),
    Planned(
        0,
        "kernel a { in a123456789b123456789c123456789d123456789e123456789f123456789g123; }",
    ),
    Planned(0, "kernel éééééééééééééééééééééééééééééééé { }"),
    // Numbers: the least, the greatest, with leading zeros.
    Planned(1, "kernel a { out y; y = 0; }"),
    Planned(1, "kernel a { out y; y = 9223372036854775807; }"),
    Planned(1, "kernel a { out y; y = 007; }"),
    Planned(
        1,
        "kernel a { out y; y = 000000000000000000000009223372036854775807; }",
    ),
    // The least number of 64 bits, and wrapping at the end of the range.
    Planned(
        3,
        "kernel a { in x; out y; out z; z = 0 - 9223372036854775807; z = z - 1; y = x + z; }",
    ),
    // Two outputs by one vertex, and two by equal constants.
    Planned(2, "kernel a { in x; out y; out z; y = x + 1; z = y; }"),
    Planned(2, "kernel a { out y; out z; y = 7; z = 7; }"),
    // Equal operations are two vertices.
    Planned(3, "kernel a { in x; out y; out z; y = x + 1; z = x + 1; }"),
    // An operation on constants that an output reads later.
    Planned(2, "kernel a { in x; out y; tmp t; t = 6 * 7; y = x - t; }"),
];

/// A kernel with names of three scripts, and all that is printed of it: the names as they are written.
pub const SCRIPTS: &str = "// α + 1\nkernel имя { in α; out 名; 名 = α + 1; }";

pub const SCRIPTS_PRINTED: &str =
    "; kernel имя\n; vertices 2\n; inputs 1\n; degree 1\n; slots 2\n; first 2\n; cost 2\n; bound 2\n; expanded 0\n; budget 0\n; verdict Optimal\nslots 2\nwords 2\nin α\nout 名 1\nload 0 0\nadd 1 s0 #1\nstore 1 1\nend\n";

/// Texts of kernels with arrays, loops and longer right sides, with their costs.
pub const WHOLE_LANGUAGE: [Planned; 46] = [
    // Arrays of each kind, also those that are not used; sizes from 1 to 64, in two dimensions at most, with leading zeros.
    Planned(0, "kernel a { in A[1]; }"),
    Planned(0, "kernel a { in A[64]; }"),
    Planned(0, "kernel a { in A[064]; }"),
    Planned(0, "kernel a { tmp t[1][1]; }"),
    Planned(0, "kernel a { tmp t[64][64]; }"),
    Planned(2, "kernel a { out y[2]; y[0] = 1; y[1] = 2; }"),
    Planned(0, "kernel a { in A[2][2]; out y; y = A[1][0]; }"),
    // Loops: empty, in one another, after one another under one name, under the title's name, with no turn.
    Planned(0, "kernel a { for i in 0..1 { } }"),
    Planned(
        0,
        "kernel a { in x; out y; y = x; for i in 3..3 { y = x + i; } }",
    ),
    Planned(0, "kernel a { for i in 0..2 { for j in 0..2 { } } }"),
    Planned(0, "kernel a { for i in 0..1 { } for i in 0..1 { } }"),
    Planned(
        0,
        "kernel a { for i in 0..1 { for j in 0..1 { } for j in 0..1 { } } }",
    ),
    Planned(0, "kernel a { for a in 0..1 { } }"),
    Planned(1, "kernel a { out y; for i in 0..4 { y = i; } }"),
    // Two points: 1..4 is three tokens, with and without spaces.
    Planned(0, "kernel a { for i in 1..4 { } }"),
    Planned(0, "kernel a { for i in 1 .. 4 { } }"),
    Planned(0, "kernel a { for i in 1//\n..//\n4 { } }"),
    // Each form of an index: sums, differences, products, minus signs, numbers, names, groups.
    Planned(0, "kernel a { in A[4]; out y; y = A[1 + 2]; }"),
    Planned(0, "kernel a { in A[4]; out y; y = A[3 - 2 - 1]; }"),
    Planned(0, "kernel a { in A[4]; out y; y = A[3 * 1 + 0 * 2]; }"),
    Planned(0, "kernel a { in A[4]; out y; y = A[-(-1)]; }"),
    Planned(0, "kernel a { in A[4]; out y; y = A[- -1]; }"),
    Planned(0, "kernel a { in A[4]; out y; y = A[(0)]; }"),
    Planned(
        0,
        "kernel a { in A[4]; out y; for i in 0..4 { y = A[i]; } }",
    ),
    Planned(
        0,
        "kernel a { in A[4]; out y[4]; for i in 0..4 { y[3 - i] = A[i]; } }",
    ),
    Planned(
        0,
        "kernel a { in A[2][2]; out y; for i in 0..2 { for j in i..2 { y = A[i][j - i]; } } }",
    ),
    Planned(
        0,
        "kernel a { for i in 0..2 { for j in i..i + 2 { for k in j * i..-i { } } } }",
    ),
    // Two numbers that touch the sign of a loop, and a negative bound.
    Planned(0, "kernel a { for i in -1..1 { } }"),
    // Chains of two operators and more; a-b-c is read from the left.
    Planned(1, "kernel a { out y; y = 2*3+1; }"),
    Planned(4, "kernel a { in a; in b; in c; out y; y = a-b-c; }"),
    Planned(2, "kernel a { in x; out y; y = x + 1 + 2; }"),
    Planned(
        2,
        "kernel a { in x; out y; y = x | 1 ^ 2 & 3 + 4 * 5 - 6; }",
    ),
    Planned(2, "kernel a { in x; out y; y = (x + 1) * 2; }"),
    Planned(2, "kernel a { in x; out y; y = 2 - (x + 1); }"),
    // Minus signs.
    Planned(2, "kernel a { in x; out y; y = -x; }"),
    Planned(1, "kernel a { out y; y = -1; }"),
    Planned(1, "kernel a { out y; y = --1; }"),
    Planned(2, "kernel a { in x; out y; y = x - -1; }"),
    Planned(2, "kernel a { in x; out y; y = -(x); }"),
    // Calls.
    Planned(2, "kernel a { in x; out y; y = min(x, 1); }"),
    Planned(2, "kernel a { in x; out y; y = max(x, 1); }"),
    Planned(2, "kernel a { in x; out y; y = sel(x, 1, 2); }"),
    Planned(2, "kernel a { in x; out y; y = mad(x, 2, 3); }"),
    Planned(
        2,
        "kernel a { in x; out y; y = min(max(x, 1), -mad(x, x, sel(x, 1, 2))); }",
    ),
    // An element is read that is not set: before its only assignment, by its own, never set. An output is not set.
    // Faults of a run: an index out of its range, too many turns, too great a bound, too many vertices.
    // A dot product, and a product of a matrix with a vector.
    Planned(
        9,
        "kernel dot { in A[4]; in B[4]; out y; tmp s; s = A[0]*B[0]; for i in 1..4 { s = s + A[i]*B[i]; } y = s; }",
    ),
    Planned(
        36,
        "kernel mv { in A[4][4]; in x[4]; out y[4]; for i in 0..4 { y[i] = A[i][0]*x[0]; for j in 1..4 { y[i] = y[i] + A[i][j]*x[j]; } } }",
    ),
];

/// Texts with branches and steps, with their costs.
pub const BRANCHES_AND_STEPS: [Planned; 29] = [
    // A block that is not run is not at fault: an index, an element that is not set, a step, turns, a vertex too many.
    Planned(
        0,
        "kernel a { in x; in A[1]; out y; y = x; if 0 == 1 { y = A[9]; } }",
    ),
    Planned(
        0,
        "kernel a { in x; in A[1]; out y; y = x; if 0 == 0 { } else { y = A[1000001]; } }",
    ),
    Planned(
        0,
        "kernel a { in x; out y; tmp t; y = x; if 1 < 1 { y = t; } }",
    ),
    Planned(0, "kernel a { if 0 > 0 { for i in 0..1 by 0 { } } }"),
    Planned(0, "kernel a { for i in 0..0 { for j in 0..1 by 0 { } } }"),
    Planned(0, "kernel a { if 0 == 1 { for i in 0..1000000 { } } }"),
    Planned(
        0,
        "kernel a { in A[64][4]; out y; y = A[0][0]; if 1 <= 0 { y = y + 1; } }",
    ),
    Planned(0, "kernel a { if 0 == 1 { if 1000001 == 0 { } } else { } }"),
    // Guards: the fifth turn reads nothing.
    Planned(
        0,
        "kernel a { in A[4]; out y; for i in 0..5 { if i < 4 { y = A[i]; } } }",
    ),
    // The limits of a side and of a step.
    Planned(0, "kernel a { if -1000000 < 1000000 { } }"),
    Planned(0, "kernel a { for i in 0..1000000 by 1000000 { } }"),
    Planned(
        0,
        "kernel a { for i in -1000000..1000000 by 999999 + 1 { } }",
    ),
    // Exactly 65,536 turns. A loop with a step counts 1 and each number, name and sign of the three indices, and then its turns.
    Planned(0, "kernel a { for i in 0..65532 by 1 { } }"),
    Planned(0, "kernel a { for i in 0..131064 by 2 { } }"),
    Planned(0, "kernel a { for i in 0..65530 by 2 - 1 { } }"),
    // 3 and 3 and 65,530; 3 and 65,527 and 1 + 3 + 2; 3 and 65,527 and 3, and the 3 of the block that is run.
    Planned(0, "kernel a { if 0 == 0 { } for i in 0..65530 { } }"),
    Planned(0, "kernel a { for i in 0..65530 { } if 0 == 0 { } }"),
    Planned(0, "kernel a { for i in 0..65527 { } if 1 + 2 == -0 { } }"),
    Planned(
        1,
        "kernel a { out y; for i in 0..65527 { } if 0 == 0 { y = 1; } else { y = 1; y = 1; } }",
    ),
    // 3 and 16,383 turns of 1 + 3, which are 65,535.
    Planned(0, "kernel a { for i in 0..16383 { if i == 0 { } } }"),
    // Spaces, none and many, and comments; a number before `by`, and a minus sign behind a relation.
    Planned(0, "kernel a{for i in 0..4by 2{}if 0==0{}else{}}"),
    Planned(
        0,
        "kernel a { if 0==-1 { } if 0<-1 { } if 0>=--1 { } if 0!=-1 { } }",
    ),
    Planned(0, "kernel a { if\t0\r\n<=\n1 { } }"),
    Planned(0, "kernel a { if 0 == 1 { } // c\n else // { }\n { } }"),
    Planned(0, "kernel a { for i in 0..4 // step\n by//\n2 { } }"),
    // Names: that of the title, one that a loop had, and names that begin as the words.
    Planned(0, "kernel a { for a in 0..1 { if a == a { } } }"),
    Planned(
        0,
        "kernel a { if 0 == 0 { for i in 0..1 { } } else { for i in 0..1 by 1 { } } for i in 0..1 { } }",
    ),
    Planned(
        0,
        "kernel a { in iffy; out elsewhere; tmp bye; elsewhere = iffy; }",
    ),
    Planned(
        1,
        "kernel a { out else_; for by_ in 0..2 { if by_ == 1 { else_ = by_; } } }",
    ),
];
