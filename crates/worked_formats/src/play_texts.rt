//! Texts of plays: one of each move, and bad lines.
use pebble_rules::Move;
use play_files::{PlayEnd, read_play};
use std::alloc::Global;
use std::process::Abort;
use std::test::Fail;

// The moves that a text spells on two vertices.
fn read(rt: &impl Abort, alloc: Global, text: &[u8]) -> Result<Vec<Move>, PlayEnd> {
    assert!(rt; text.len() <= 1000);
    read_play(alloc, text, 2)
}

// A move of each kind.
const PLAYED: [Move; 5] = [
    Move::Load(0),
    Move::Compute(1),
    Move::Store(1),
    Move::DropRed(0),
    Move::DropBlue(0),
];

#[test]
fn a_text_of_each_move(rt: HostRuntime) -> Result<(), Fail> {
    let text = b"; x\nload 0\ncompute 1\n;\nstore 1\ndrop 0\nunblue 0\nend\n; y\n";
    let moves = read(&rt, rt.alloc(), text.as_slice())?;
    assert!(rt; moves.as_slice() == PLAYED.as_slice());
    Ok(())
}

// Texts that read as no moves on two vertices, each with its bad line.
const BAD: [(&[u8], u32); 14] = [
    (b"load 2\nend\n", 1),
    (b"", 1),
    (b"end", 1),
    (b"load 0\n", 2),
    (b"load 0\n; x\n", 3),
    (b"; x\nload 00\nend\n", 2),
    (b"load 0\nspill 0\nend\n", 2),
    (b"end\nload 0\n", 2),
    (b"end\n; x", 2),
    (b"load\nend\n", 1),
    (b"load  0\nend\n", 1),
    (b"load 0 \nend\n", 1),
    (b"Load 0\nend\n", 1),
    (b"load 0\r\nend\n", 1),
];

#[test]
fn bad_lines(rt: HostRuntime) {
    for (text, line) in &BAD {
        let end = read(&rt, rt.alloc(), text).err();
        assert!(rt;
            end == Some(PlayEnd::BadLine { line: *line }),
            "line {line}"
        );
    }
}
