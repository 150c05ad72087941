//! Faults of the tokens.
use super::Cut;

/// 1: a character outside comments is no space and begins no token.
pub const BAD_CHARACTERS: [Cut; 30] = [
    // Where the first token is, a middle one and the last one.
    Cut(0, "", "? kernel a { }"),
    Cut(11, "kernel a { ", "? }"),
    Cut(13, "kernel a { } ", "?"),
    // Signs of other languages.
    Cut(14, "kernel a { in ", "$x; }"),
    Cut(15, "kernel a { in x", "#; }"),
    Cut(15, "kernel a { in x", "'; }"),
    Cut(15, "kernel a { in x", ": 4; }"),
    Cut(24, "kernel a { out y; y = 1 ", "% 2; }"),
    Cut(22, "kernel a { out y; y = ", "!1; }"),
    Cut(22, "kernel a { out y; y = ", "~1; }"),
    // A point alone, a slash alone, and the third of three points.
    Cut(23, "kernel a { out y; y = 1", ".5; }"),
    Cut(23, "kernel a { for i in 0..", ".1 { } }"),
    Cut(11, "kernel a { ", "/ one slash\n }"),
    Cut(11, "kernel a { ", "/* no comment */ }"),
    // What looks like a space: form feed, vertical tab, no-break space, the byte order mark, the byte 0.
    Cut(8, "kernel a", "\u{c}{ }"),
    Cut(8, "kernel a", "\u{b}{ }"),
    Cut(8, "kernel a", "\u{a0}{ }"),
    Cut(0, "", "\u{feff}kernel a { }"),
    Cut(12, "kernel a { }", "\0"),
    // A digit of another script and a combining mark begin no name, a raised 2 is in none, and a smile is no word.
    Cut(14, "kernel a { in ", "\u{663}; }"),
    Cut(14, "kernel a { in ", "\u{301}x; }"),
    Cut(15, "kernel a { in x", "\u{b2}; }"),
    Cut(14, "kernel a { in ", "\u{1f600}; }"),
    // A place is counted in bytes: é has two of them, 名 three, 𐌰 four.
    Cut(15, "kernel é { in ", "?; }"),
    Cut(16, "kernel 名 { in ", "?; }"),
    Cut(17, "kernel 𐌰 { in ", "?; }"),
    // Bytes of a comment count too, here 3 and the two of é; a carriage return and a line feed are two bytes.
    Cut(17, "// é\nkernel a { ", "? }"),
    Cut(12, "kernel a {\r\n", "? }"),
    // A comment ends with its line, and a fault in it is none.
    Cut(13, "//?\nkernel a ", "? { }"),
    Cut(17, "kernel a //?\n{ } ", "?"),
];

/// 2: a number above 9223372036854775807, or a name of more than 64 bytes. The long names are counted by tens.
pub const TOO_BIG: [Cut; 19] = [
    // The first token, a middle one and the last one.
    Cut(0, "", "9223372036854775808 kernel a { }"),
    Cut(22, "kernel a { out y; y = ", "9223372036854775808; }"),
    Cut(13, "kernel a { } ", "9223372036854775808"),
    // Leading zeros change nothing, and a minus sign before a number is no part of it.
    Cut(22, "kernel a { out y; y = ", "0009223372036854775808; }"),
    Cut(23, "kernel a { out y; y = -", "9223372036854775808; }"),
    Cut(
        22,
        "kernel a { out y; y = ",
        "99999999999999999999999999999999999999999; }",
    ),
    // Also where the number is a size, an index or a bound, and where it touches a name.
    Cut(16, "kernel a { in A[", "9223372036854775808]; }"),
    Cut(24, "kernel a { out y; y = A[", "9223372036854775808]; }"),
    Cut(23, "kernel a { for i in 0..", "9223372036854775808 { } }"),
    Cut(22, "kernel a { out y; y = ", "9223372036854775808x; }"),
    // 65 bytes: the first token, the title, a declared name, an operand, the last token.
    Cut(
        0,
        "",
        "a123456789b123456789c123456789d123456789e123456789f123456789g1234 a { }",
    ),
    Cut(
        7,
        "kernel ",
        "a123456789b123456789c123456789d123456789e123456789f123456789g1234 { }",
    ),
    Cut(
        14,
        "kernel a { in ",
        "a123456789b123456789c123456789d123456789e123456789f123456789g1234; }",
    ),
    Cut(
        22,
        "kernel a { out y; y = ",
        "a123456789b123456789c123456789d123456789e123456789f123456789g1234; }",
    ),
    Cut(
        13,
        "kernel a { } ",
        "a123456789b123456789c123456789d123456789e123456789f123456789g1234",
    ),
    // A word that begins as a reserved one.
    Cut(
        0,
        "",
        "kernel6789a123456789b123456789c123456789d123456789e123456789f1234 a { }",
    ),
    // 32 letters of two bytes and one of one byte.
    Cut(14, "kernel a { in ", "éééééééééééééééééééééééééééééééé1; }"),
    // A bad character that ends a long name stands behind its first byte.
    Cut(
        7,
        "kernel ",
        "a123456789b123456789c123456789d123456789e123456789f123456789g1234? { }",
    ),
    // What stands before counts in bytes.
    Cut(25, "kernel é { out é; é = ", "9223372036854775808; }"),
];

/// 1: an exclamation mark, which begins a sign only before `=`.
pub const BARE_MARKS: [Cut; 9] = [
    Cut(16, "kernel a { if 0 ", "! = 0 { } }"),
    Cut(16, "kernel a { if 0 ", "!0 { } }"),
    Cut(16, "kernel a { if 0 ", "!< 0 { } }"),
    Cut(16, "kernel a { if 0 ", "!! 0 { } }"),
    Cut(16, "kernel a { if 0 ", "!//\n= 0 { } }"),
    Cut(16, "kernel a { if 0 ", "!"),
    // Behind a sign that is read whole: `!=` and `=`.
    Cut(18, "kernel a { if 0 !=", "! 0 { } }"),
    Cut(17, "kernel a { if 0 =", "! 0 { } }"),
    // A sign of other texts.
    Cut(16, "kernel a { if 0 ", "≠ 0 { } }"),
];
