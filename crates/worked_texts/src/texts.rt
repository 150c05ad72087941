//! Texts of kernels, and what `plan 4 t 0` answers to each: the first fault with its place, or a plan.
//!
//! A text with a fault is written in two pieces, and the fault is where the second begins. Its place is counted in bytes by hand, from
//! the pieces that come again and again: `kernel a { ` has 11 bytes, `in x; ` 6, `out y; ` 7, `y = ` 4, `in A[2]; ` 9, `for i in ` 9, and
//! `for i in 0..1 { ` 16. The tests compare this number with the length of the first piece, too.
mod accepted;
mod bytes;
mod lengths;
mod levels;
mod names;
pub mod phases;
mod syntax;
mod tokens;

use accepted::Planned;
use command_answers::Status;
use example_runs::{Left, run_line};
use lengths::Long;
use levels::Nest;
use phases::First;
use std::alloc::{AllocError, Global};
use std::process::Abort;
use std::test::Fail;

/// A text that is cut in two where its first fault is: the place of the fault in bytes, what stands before it, and the rest.
#[derive(Clone, Copy)]
pub struct Cut(pub usize, pub &'static str, pub &'static str);

/// What the program answers to a text.
#[derive(Clone, Copy)]
pub enum Answer {
    /// The text's first fault: its code, and its place in bytes.
    Fault(u8, usize),
    /// The text has no fault, and its kernel has a plan of this cost.
    Plan(u32),
}

/// Appends a piece so many times.
pub fn push_times(text: &mut String, piece: &str, count: usize) -> Result<(), AllocError> {
    for _ in 0..count {
        text.push_str(piece)?;
    }
    Ok(())
}

// The program answers this to the text.
fn check(rt: &impl Abort, alloc: Global, text: &[u8], answer: Answer) -> Result<(), Fail> {
    let left = run_line(alloc, "plan 4 t 0", text, b"old")?;
    match answer {
        Answer::Fault(code, at) => check_fault(rt, alloc, left, code, at),
        Answer::Plan(cost) => check_plan(rt, alloc, left, cost),
    }
}

/// A run printed the line of a fault, and left the file as it was.
pub fn check_fault(
    rt: &impl Abort,
    alloc: Global,
    left: Left,
    code: u8,
    at: usize,
) -> Result<(), Fail> {
    let line = format!(in alloc; "kernel fault K{code} at {at}\n")?;
    assert_eq!(rt;
        str::from_utf8(left.output.as_slice())?,
        line.as_str(),
        "K{code} at {at}"
    );
    assert_eq!(rt; left.status, Status::Kernel, "K{code} at {at}");
    let file = left.file.ok_or("no file")?;
    assert_eq!(rt; file.as_slice(), b"old".as_slice());
    Ok(())
}

// A run printed a report with this cost.
fn check_plan(rt: &impl Abort, alloc: Global, left: Left, cost: u32) -> Result<(), Fail> {
    let line = format!(in alloc; "\n; cost {cost}\n")?;
    let output = str::from_utf8(left.output.as_slice())?;
    assert!(rt;
        output.contains(line.as_str()),
        "not planned at cost {cost}"
    );
    assert!(rt; left.status == Status::Optimal || left.status == Status::Open);
    Ok(())
}

// The first fault of a text has this code, and stands where the text is cut.
fn check_cut(rt: &impl Abort, alloc: Global, code: u8, cut: Cut) -> Result<(), Fail> {
    let Cut(at, before, rest) = cut;
    assert_eq!(rt; before.len(), at, "K{code}");
    let text = format!(in alloc; "{before}{rest}")?;
    check(rt, alloc, text.as_bytes(), Answer::Fault(code, at))
}

fn check_cuts(rt: &impl Abort, alloc: Global, code: u8, cuts: &[Cut]) -> Result<(), Fail> {
    for cut in cuts {
        check_cut(rt, alloc, code, *cut)?;
    }
    Ok(())
}

#[test]
fn first_faults(rt: HostRuntime) -> Result<(), Fail> {
    check_cuts(&rt, rt.alloc(), 1, &tokens::BAD_CHARACTERS)?;
    check_cuts(&rt, rt.alloc(), 1, &tokens::BARE_MARKS)?;
    check_cuts(&rt, rt.alloc(), 2, &tokens::TOO_BIG)?;
    check_cuts(&rt, rt.alloc(), 3, &syntax::DECLARATIONS)?;
    check_cuts(&rt, rt.alloc(), 3, &syntax::STATEMENTS)?;
    check_cuts(&rt, rt.alloc(), 3, &syntax::BRANCHES)?;
    check_cuts(&rt, rt.alloc(), 3, &syntax::STEPS)?;
    check_cuts(&rt, rt.alloc(), 16, &names::BAD_SIZES)?;
    check_cuts(&rt, rt.alloc(), 5, &names::TWICE)?;
    check_cuts(&rt, rt.alloc(), 4, &names::UNKNOWN)?;
    check_cuts(&rt, rt.alloc(), 9, &names::NOT_WRITABLE)?;
    check_cuts(&rt, rt.alloc(), 6, &names::INDICES)
}

// The code of the first fault of each text, and where it is.
fn check_firsts(rt: &impl Abort, alloc: Global, firsts: &[First]) -> Result<(), Fail> {
    for First(code, cut) in firsts {
        check_cut(rt, alloc, *code, *cut)?;
    }
    Ok(())
}

#[test]
fn first_of_several_faults(rt: HostRuntime) -> Result<(), Fail> {
    check_firsts(&rt, rt.alloc(), &phases::SEVERAL)?;
    check_firsts(&rt, rt.alloc(), &phases::AT_ONE_NAME)?;
    check_firsts(&rt, rt.alloc(), &names::IN_BRANCHES)
}

// In each gap of a text the bytes are a fault there.
fn check_broken(rt: &impl Abort, alloc: Global, broken: &[u8], gaps: &[Cut]) -> Result<(), Fail> {
    for Cut(at, before, rest) in gaps {
        assert_eq!(rt; before.len(), *at);
        let mut text = Vec::from_slice(alloc, before.as_bytes())?;
        text.extend_from_slice(broken)?;
        text.extend_from_slice(rest.as_bytes())?;
        check(rt, alloc, text.as_slice(), Answer::Fault(1, *at))?;
    }
    Ok(())
}

// The bytes that are no characters, of which the proof of a loop over them is to know nothing.
fn broken_bytes() -> &'static [&'static [u8]] {
    &bytes::BROKEN
}

#[test]
fn bytes_that_are_no_characters(rt: HostRuntime) -> Result<(), Fail> {
    for broken in broken_bytes() {
        check_broken(&rt, rt.alloc(), broken, &bytes::GAPS)?;
    }
    Ok(())
}

// Each text is planned at its cost.
fn check_planned(rt: &impl Abort, alloc: Global, planned: &[Planned]) -> Result<(), Fail> {
    for Planned(cost, text) in planned {
        check(rt, alloc, text.as_bytes(), Answer::Plan(*cost))?;
    }
    Ok(())
}

#[test]
fn texts_without_fault(rt: HostRuntime) -> Result<(), Fail> {
    check_planned(&rt, rt.alloc(), &accepted::PLANNED)?;
    check_planned(&rt, rt.alloc(), &accepted::WHOLE_LANGUAGE)?;
    check_planned(&rt, rt.alloc(), &accepted::BRANCHES_AND_STEPS)
}

#[test]
fn names_of_three_scripts(rt: HostRuntime) -> Result<(), Fail> {
    let left = run_line(
        rt.alloc(),
        "plan 2 t 0",
        accepted::SCRIPTS.as_bytes(),
        b"old",
    )?;
    assert_eq!(rt; left.status, Status::Optimal);
    assert_eq!(rt;
        str::from_utf8(left.output.as_slice())?,
        accepted::SCRIPTS_PRINTED
    );
    Ok(())
}

// Parts in one another up to the limit have this answer, and one more is a fault.
fn check_nest(rt: &impl Abort, alloc: Global, nest: &Nest) -> Result<(), Fail> {
    let fits = nest.text(alloc, nest.fits)?;
    check(rt, alloc, fits.as_bytes(), nest.answer)?;
    let deeper = nest.text(alloc, nest.fits.saturating_add(1))?;
    check(rt, alloc, deeper.as_bytes(), Answer::Fault(13, nest.at))
}

// Behind 32 open groups the rest of the text is this fault.
fn check_in_groups(rt: &impl Abort, alloc: Global, code: u8, rest: &str) -> Result<(), Fail> {
    let mut text = String::from_str(alloc, "kernel a { out y; y = ")?;
    push_times(&mut text, "(", 32)?;
    text.push_str(rest)?;
    check(rt, alloc, text.as_bytes(), Answer::Fault(code, 22 + 32))
}

// Each of these parts fits so often in itself, and no more often.
fn check_nests(rt: &impl Abort, alloc: Global, nests: &[Nest]) -> Result<(), Fail> {
    for nest in nests {
        check_nest(rt, alloc, nest)?;
    }
    Ok(())
}

// The ends of texts, of which the proof of a loop over them is to know nothing.
fn in_32_groups() -> &'static [(u8, &'static str)] {
    &levels::IN_32_GROUPS
}

#[test]
fn parts_in_one_another(rt: HostRuntime) -> Result<(), Fail> {
    check_nests(&rt, rt.alloc(), &levels::NESTS)?;
    for (code, rest) in in_32_groups() {
        check_in_groups(&rt, rt.alloc(), *code, rest)?;
    }
    Ok(())
}

// So many loops in one another with this body have this answer.
fn check_loops(
    rt: &impl Abort,
    alloc: Global,
    loops: &[(usize, &str, Answer)],
) -> Result<(), Fail> {
    for (count, body, answer) in loops {
        let text = levels::loops(alloc, *count, body)?;
        check(rt, alloc, text.as_bytes(), *answer)?;
    }
    Ok(())
}

#[test]
fn loops_in_one_another(rt: HostRuntime) -> Result<(), Fail> {
    check_loops(&rt, rt.alloc(), &levels::LOOPS)
}

// Each text has its length and its answer.
fn check_lengths(rt: &impl Abort, alloc: Global, texts: &[Long]) -> Result<(), Fail> {
    for long in texts {
        let text = long.text(alloc)?;
        assert_eq!(rt; text.len(), long.length);
        check(rt, alloc, text.as_bytes(), long.answer)?;
    }
    Ok(())
}

#[test]
fn long_texts(rt: HostRuntime) -> Result<(), Fail> {
    check_lengths(&rt, rt.alloc(), &lengths::LONG)
}
