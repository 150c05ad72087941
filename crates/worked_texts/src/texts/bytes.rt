//! Bytes that begin no character of UTF-8, which is fault 1 at the first of them.
use super::Cut;

/// What is no character, each with how it is wrong.
pub const BROKEN: [&[u8]; 26] = [
    // A byte that continues a character, and none is begun.
    &[0x80],
    &[0xBF],
    // The first byte of a character of two, three and four bytes, and then no more of it.
    &[0xC3],
    &[0xE5],
    &[0xF0],
    // Two of three bytes, two and three of four.
    &[0xE5, 0x90],
    &[0xF0, 0x90],
    &[0xF0, 0x90, 0x8C],
    // The second, the third and the fourth byte is a letter.
    &[0xC3, b'x'],
    &[0xE5, 0x90, b'x'],
    &[0xF0, 0x90, 0x8C, b'x'],
    // More bytes than the character needs, the least and the greatest such spelling of two, three and four bytes.
    &[0xC0, 0x80],
    &[0xC1, 0xBF],
    &[0xE0, 0x80, 0x80],
    &[0xE0, 0x9F, 0xBF],
    &[0xF0, 0x80, 0x80, 0x80],
    &[0xF0, 0x8F, 0xBF, 0xBF],
    // The slash in two bytes begins no comment.
    &[0xC0, 0xAF, 0xC0, 0xAF],
    // The first and the last surrogate.
    &[0xED, 0xA0, 0x80],
    &[0xED, 0xBF, 0xBF],
    // The first number above U+10FFFF, and first bytes that only greater ones have.
    &[0xF4, 0x90, 0x80, 0x80],
    &[0xF5, 0x80, 0x80, 0x80],
    &[0xF8, 0x88, 0x80, 0x80, 0x80],
    // Bytes that stand in no character.
    &[0xFE],
    &[0xFF],
    // é in an older code, which has one byte for it.
    &[0xE9, b'0'],
];

/// Texts with a gap, in which the bytes above are put: as the first token, in a kernel, behind a name, in a comment with more lines, in
/// one behind é, behind the kernel, in a comment at the end of the text.
pub const GAPS: [Cut; 7] = [
    Cut(0, "", "kernel a { }"),
    Cut(11, "kernel a { ", " }"),
    Cut(15, "kernel a { in x", "; }"),
    Cut(14, "kernel a { // ", "\n}"),
    Cut(18, "// é\nkernel a // ", "\n{ }"),
    Cut(13, "kernel a { } ", ""),
    Cut(16, "kernel a { } // ", ""),
];
