//! Texts with the tokens or the fault that the rules give them. Places are counted by hand.
use kernel_lexer::{Keyword, LexEnd, Mark, Token, TokenKind, tokens};
use std::alloc::Global;
use std::process::Abort;
use std::test::Fail;

const NAME: TokenKind = TokenKind::Name;

// What the lexer answers for a text, which is not longer than a text may be.
fn answer(rt: &impl Abort, alloc: Global, text: &[u8]) -> Result<Vec<Token>, LexEnd> {
    assert!(rt; text.len() <= 65536);
    tokens(alloc, text)
}

// Compares the tokens of a text with those that are wanted.
fn check_tokens(
    rt: &impl Abort,
    alloc: Global,
    text: &str,
    wanted: &[(TokenKind, u32, u32)],
) -> Result<(), Fail> {
    let found = answer(rt, alloc, text.as_bytes())?;
    assert!(rt; found.len() == wanted.len(), "{text}");
    for (token, (kind, from, to)) in found.iter().zip(wanted) {
        assert!(rt; token.kind == *kind && token.from == *from && token.to == *to);
    }
    Ok(())
}

// The reserved words.
const WORDS: [(TokenKind, u32, u32); 12] = [
    (TokenKind::Word(Keyword::Kernel), 0, 6),
    (TokenKind::Word(Keyword::Input), 7, 9),
    (TokenKind::Word(Keyword::Output), 10, 13),
    (TokenKind::Word(Keyword::Temp), 14, 17),
    (TokenKind::Word(Keyword::Loop), 18, 21),
    (TokenKind::Word(Keyword::Min), 22, 25),
    (TokenKind::Word(Keyword::Max), 26, 29),
    (TokenKind::Word(Keyword::Sel), 30, 33),
    (TokenKind::Word(Keyword::Mad), 34, 37),
    (TokenKind::Word(Keyword::If), 38, 40),
    (TokenKind::Word(Keyword::Else), 41, 45),
    (TokenKind::Word(Keyword::By), 46, 48),
];

// The signs.
const SIGNS: [(TokenKind, u32, u32); 16] = [
    (TokenKind::Sign(Mark::OpenBrace), 0, 1),
    (TokenKind::Sign(Mark::CloseBrace), 1, 2),
    (TokenKind::Sign(Mark::OpenBracket), 2, 3),
    (TokenKind::Sign(Mark::CloseBracket), 3, 4),
    (TokenKind::Sign(Mark::OpenParen), 4, 5),
    (TokenKind::Sign(Mark::CloseParen), 5, 6),
    (TokenKind::Sign(Mark::Semicolon), 6, 7),
    (TokenKind::Sign(Mark::Comma), 7, 8),
    (TokenKind::Sign(Mark::Assign), 8, 9),
    (TokenKind::Sign(Mark::Dots), 9, 11),
    (TokenKind::Sign(Mark::Plus), 11, 12),
    (TokenKind::Sign(Mark::Minus), 12, 13),
    (TokenKind::Sign(Mark::Star), 13, 14),
    (TokenKind::Sign(Mark::And), 14, 15),
    (TokenKind::Sign(Mark::Or), 15, 16),
    (TokenKind::Sign(Mark::Xor), 16, 17),
];

// The signs that compare, also without spaces between.
const RELATIONS: [(TokenKind, u32, u32); 11] = [
    (TokenKind::Sign(Mark::Same), 0, 2),
    (TokenKind::Sign(Mark::Differs), 3, 5),
    (TokenKind::Sign(Mark::Less), 6, 7),
    (TokenKind::Sign(Mark::AtMost), 8, 10),
    (TokenKind::Sign(Mark::More), 11, 12),
    (TokenKind::Sign(Mark::AtLeast), 13, 15),
    (TokenKind::Sign(Mark::Same), 15, 17),
    (TokenKind::Sign(Mark::Assign), 17, 18),
    (TokenKind::Sign(Mark::More), 18, 19),
    (TokenKind::Sign(Mark::Less), 19, 20),
    (TokenKind::Sign(Mark::AtMost), 20, 22),
];

// Texts, each with its tokens: what they are, and the places of their first bytes and behind their last ones.
const TEXTS: [(&str, &[(TokenKind, u32, u32)]); 11] = [
    ("kernel in out tmp for min max sel mad if else by", &WORDS),
    ("{}[]();,=..+-*&|^", &SIGNS),
    ("== != < <= > >====><<=", &RELATIONS),
    (" \t\r\n", &[]),
    ("a\r\nb // c", &[(NAME, 0, 1), (NAME, 3, 4)]),
    ("// x\ry\n7", &[(TokenKind::Number(7), 7, 8)]),
    ("αβ имя 名前", &[(NAME, 0, 4), (NAME, 5, 11), (NAME, 12, 18)]),
    (
        "007 9223372036854775807",
        &[
            (TokenKind::Number(7), 0, 3),
            (TokenKind::Number(i64::MAX), 4, 23),
        ],
    ),
    (
        "1a inx in1 _",
        &[
            (TokenKind::Number(1), 0, 1),
            (NAME, 1, 2),
            (NAME, 3, 6),
            (NAME, 7, 10),
            (NAME, 11, 12),
        ],
    ),
    (
        "é1..é\n=",
        &[
            (NAME, 0, 3),
            (TokenKind::Sign(Mark::Dots), 3, 5),
            (NAME, 5, 7),
            (TokenKind::Sign(Mark::Assign), 8, 9),
        ],
    ),
    (
        "aaaaaaaaaaaaaaaaaaaaaaaaaaaaaaaaaaaaaaaaaaaaaaaaaaaaaaaaaaaaaaaa",
        &[(NAME, 0, 64)],
    ),
];

#[test]
fn texts(rt: HostRuntime) -> Result<(), Fail> {
    for (text, wanted) in &TEXTS {
        check_tokens(&rt, rt.alloc(), text, wanted)?;
    }
    Ok(())
}

// Texts, each with the code and the place of its first fault.
const FAULTS: [(&[u8], u8, u32); 23] = [
    (b"a.b", 1, 1),
    (b"...", 1, 2),
    (b"a / b", 1, 2),
    (b"a ! b", 1, 2),
    (b"a=!", 1, 2),
    (b"!!=", 1, 0),
    (b"a // \xff", 1, 5),
    (b"\xce", 1, 0),
    (b"ab\xe4\xb8", 1, 2),
    (b"x \xe4\xb8a", 1, 2),
    (b"\xc0\xaf", 1, 0),
    (b"\xed\xa0\x80", 1, 0),
    (b"a \xf4\x90\x80\x80", 1, 2),
    (b"a\x0cb", 1, 1),
    (b"a\xc2\xa0b", 1, 1),
    (b"\xef\xbb\xbfa", 1, 0),
    (b"\xc3\xa9 ?", 1, 3),
    (b"x=1; # ?", 1, 5),
    (b"1 9223372036854775808", 2, 2),
    (b"99999999999999999999 ? \xff", 2, 0),
    (
        b" aaaaaaaaaaaaaaaaaaaaaaaaaaaaaaaaaaaaaaaaaaaaaaaaaaaaaaaaaaaaaaaaa",
        2,
        1,
    ),
    (
        b"\xc3\xa9\xc3\xa9\xc3\xa9\xc3\xa9\xc3\xa9\xc3\xa9\xc3\xa9\xc3\xa9\xc3\xa9\xc3\xa9\xc3\xa9\xc3\xa9\xc3\xa9\xc3\xa9\xc3\xa9\xc3\xa9\xc3\xa9\xc3\xa9\xc3\xa9\xc3\xa9\xc3\xa9\xc3\xa9\xc3\xa9\xc3\xa9\xc3\xa9\xc3\xa9\xc3\xa9\xc3\xa9\xc3\xa9\xc3\xa9\xc3\xa9\xc3\xa9a",
        2,
        0,
    ),
    (
        b"\xff aaaaaaaaaaaaaaaaaaaaaaaaaaaaaaaaaaaaaaaaaaaaaaaaaaaaaaaaaaaaaaaaa",
        1,
        0,
    ),
];

// Each text has its fault.
fn check_faults(rt: &impl Abort, alloc: Global, cases: &[(&[u8], u8, u32)]) {
    for (text, code, at) in cases {
        let fault = LexEnd::Fault {
            code: *code,
            at: *at,
        };
        assert!(rt;
            answer(rt, alloc, text).err() == Some(fault),
            "K{code} at {at}"
        );
    }
}

#[test]
fn faults(rt: HostRuntime) {
    check_faults(&rt, rt.alloc(), &FAULTS);
}
