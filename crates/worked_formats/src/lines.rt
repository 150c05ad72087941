//! Lines, words and numbers by hand.
use line_texts::{
    behind, is_comment, last_number, next_line, next_number, next_word, number, signed_number,
    up_to,
};
use std::process::Abort;

// Texts, with their first line and what follows it, if they have a line.
const LINES: [(&[u8], Option<(&[u8], &[u8])>); 7] = [
    (b"", None),
    (b"end", None),
    (b"end\r", None),
    (b"\n", Some((b"", b""))),
    (b"end\n", Some((b"end", b""))),
    (b"end\r\n\nmore", Some((b"end\r", b"\nmore"))),
    (
        b"; \xff\x00\nslots 1\n",
        Some((b"; \xff\x00", b"slots 1\n")),
    ),
];

#[test]
fn lines(rt: HostRuntime) {
    for (text, parts) in &LINES {
        assert!(rt; next_line(text) == *parts);
    }
}

// Lines, and whether they are comments.
const COMMENTS: [(&[u8], bool); 5] = [
    (b"", false),
    (b";", true),
    (b";end", true),
    (b" ;", false),
    (b"end;", false),
];

#[test]
fn comments(rt: HostRuntime) {
    for (line, comment) in &COMMENTS {
        assert!(rt; is_comment(line) == *comment);
    }
}

// Rests of lines, with the word that comes next and what follows it, if one comes.
const WORDS: [(&[u8], Option<(&[u8], &[u8])>); 6] = [
    (b"", None),
    (b"x", None),
    (b" ", Some((b"", b""))),
    (b" x", Some((b"x", b""))),
    (b" x 1", Some((b"x", b" 1"))),
    (b"  x", Some((b"", b" x"))),
];

#[test]
fn words(rt: HostRuntime) {
    for (rest, parts) in &WORDS {
        assert!(rt; next_word(rest) == *parts);
    }
}

#[test]
fn pieces(rt: HostRuntime) {
    let parts = (b"a".as_slice(), b"[1][2]".as_slice());
    assert!(rt; up_to(b"a[1][2]", b'[') == parts);
    let tail = behind(b"[1][2]", b'[');
    assert!(rt; tail == Some(b"1][2]".as_slice()));
    assert!(rt; behind(b"a", b'[').is_none());
}

// Words, limits, and the numbers below them that the words spell.
const NUMBERS: [(&[u8], u16, Option<u16>); 13] = [
    (b"0", 1, Some(0)),
    (b"0", 0, None),
    (b"63", 64, Some(63)),
    (b"64", 64, None),
    (b"65534", 65535, Some(65534)),
    (b"65535", 65535, None),
    (b"65600", 65535, None),
    (b"", 64, None),
    (b"07", 64, None),
    (b"+7", 64, None),
    (b"-0", 64, None),
    (b"7 ", 64, None),
    (b"\xd9\xa3", 64, None),
];

// Each word spells its number below the limit, or none.
fn check_numbers(rt: &impl Abort, cases: &[(&[u8], u16, Option<u16>)]) {
    for (word, limit, value) in cases {
        assert!(rt; number(word, *limit) == *value);
    }
}

#[test]
fn numbers(rt: HostRuntime) {
    check_numbers(&rt, &NUMBERS);
}

#[test]
fn next_numbers(rt: HostRuntime) {
    assert!(rt; last_number(b" 7", 64) == Some(7));
    assert!(rt; last_number(b" 7 8", 64).is_none());
    assert!(rt; next_number(b" 7 8", 64) == Some((7, b" 8".as_slice())));
    assert!(rt; next_number(b" 7x", 64).is_none());
}

// Words, and the numbers of 64 bits that they spell.
const SIGNED: [(&[u8], Option<i64>); 12] = [
    (b"0", Some(0)),
    (b"-1", Some(-1)),
    (b"9223372036854775807", Some(9223372036854775807)),
    (b"-9223372036854775808", Some(i64::MIN)),
    (b"9223372036854775808", None),
    (b"-9223372036854775809", None),
    (b"-0", None),
    (b"-01", None),
    (b"+1", None),
    (b"--1", None),
    (b"-", None),
    (b"", None),
];

// Each word spells its number, or none.
fn check_signed_numbers(rt: &impl Abort, cases: &[(&[u8], Option<i64>)]) {
    for (word, value) in cases {
        assert!(rt; signed_number(word) == *value);
    }
}

#[test]
fn signed_numbers(rt: HostRuntime) {
    check_signed_numbers(&rt, &SIGNED);
}
