//! Texts: kernels by their parts, and first faults of the tokens, the syntax and the names. Places are counted by hand.
use crate::builders::kernel;
use kernel_ast::{DeclKind, Kernel, Name};
use kernel_parser::{ParseEnd, parse};
use std::alloc::{AllocError, Global};
use std::process::Abort;
use std::test::Fail;

// Kernels, with their numbers of declarations and of statements outside of loops and branches.
const KERNELS: [(&[u8], usize, usize); 4] = [
    (b"kernel p { in x; out y; y = x + 1; }", 2, 1),
    (
        b"kernel k { in a[2]; out b; for i in 0..1 { b = a[i] + 3; } }",
        2,
        1,
    ),
    (
        b"kernel k { in a[2][3]; out b; for i in -1..(2) { b = a[i][i * 2 - 1] * 3 + min(1, -b) & 4 ^ 5 | mad(1, 2, 3); } }",
        2,
        1,
    ),
    (
        b"kernel k { in a[4]; out b; b = 0; for i in 0..4 by 2 { if i>=2 { b = a[i]; } else { if i != 0 { } } } }",
        2,
        2,
    ),
];

#[test]
fn kernels(rt: HostRuntime) -> Result<(), Fail> {
    for (text, decls, statements) in &KERNELS {
        let kernel = kernel(rt.alloc(), text)?;
        assert!(rt; kernel.decls().len() == *decls && kernel.body().len() == *statements);
    }
    Ok(())
}

// The kind of the declaration with this name, if there is one.
fn kind_of(alloc: Global, kernel: &Kernel, name: &[u8]) -> Result<Option<DeclKind>, AllocError> {
    let name = Name::new(name.to_vec(alloc)?);
    Ok(kernel.decls().get(&name).map(|decl| decl.kind))
}

// The kinds of the names in `kernel p { in x; out y; tmp z; .. }`.
const KINDS: [(&[u8], Option<DeclKind>); 4] = [
    (b"x", Some(DeclKind::Input)),
    (b"y", Some(DeclKind::Output)),
    (b"z", Some(DeclKind::Temp)),
    (b"p", None),
];

#[test]
fn title_and_names(rt: HostRuntime) -> Result<(), Fail> {
    let kernel = kernel(rt.alloc(), b"kernel p { in x; out y; tmp z; y = x + 1; }")?;
    assert!(rt; kernel.title().bytes() == b"p".as_slice());
    for (name, kind) in &KINDS {
        assert!(rt; kind_of(rt.alloc(), &kernel, name)? == *kind);
    }
    Ok(())
}

// Why a text is no kernel, if it is none.
fn parse_end(alloc: Global, text: &[u8]) -> Option<ParseEnd> {
    parse(alloc, text).err()
}

// Texts, each with the code and the place of its first fault.
const FAULTS: [(&[u8], u8, u32); 13] = [
    (b"kernel k { # }", 1, 11),
    (b"kernel k { b }", 3, 13),
    (b"kernel k", 3, 8),
    (b"kernel k { in a[2][3][4]; }", 3, 21),
    (b"kernel k { b = 1; }", 4, 11),
    (b"kernel k { in a; a = b; c }", 3, 26),
    (b"kernel b { in x; out y; y = x; if x < 1 { } }", 4, 34),
    (b"kernel k { else { } }", 3, 11),
    (b"kernel k { out y; y = 1; else { } }", 3, 25),
    (b"kernel k { for i in 0..1 { } else { } }", 3, 29),
    (b"kernel k { for i in 0..1 by 1 by 1 { } }", 3, 30),
    (b"kernel k { if 1 { } }", 3, 16),
    (b"kernel k { if 1 = 1 { } }", 3, 16),
];

// Each text has its fault.
fn check_faults(rt: &impl Abort, alloc: Global, cases: &[(&[u8], u8, u32)]) {
    for (text, code, at) in cases {
        let fault = ParseEnd::Fault {
            code: *code,
            at: *at,
        };
        assert!(rt; parse_end(alloc, text) == Some(fault), "K{code} at {at}");
    }
}

#[test]
fn faults(rt: HostRuntime) {
    check_faults(&rt, rt.alloc(), &FAULTS);
}

// A text in which a piece stands so many times between its head and its end, with as many closing pieces behind its middle.
fn nested(
    alloc: Global,
    head: &[u8],
    open: &[u8],
    middle: &[u8],
    close: &[u8],
    count: u32,
) -> Result<Vec<u8>, AllocError> {
    let mut text = head.to_vec(alloc)?;
    for _ in 0..count {
        text.extend_from_slice(open)?;
    }
    text.extend_from_slice(middle)?;
    for _ in 0..count {
        text.extend_from_slice(close)?;
    }
    text.extend_from_slice(b"; }")?;
    Ok(text)
}

// What the parser answers for so many groups in one another, if it is no kernel.
fn groups_end(alloc: Global, count: u32) -> Result<Option<ParseEnd>, AllocError> {
    let text = nested(alloc, b"kernel k { out x; x = ", b"(", b"1", b")", count)?;
    Ok(parse_end(alloc, text.as_slice()))
}

// The same for so many branches in one another, of which none is closed.
fn branches_end(alloc: Global, count: u32) -> Result<Option<ParseEnd>, AllocError> {
    let text = nested(alloc, b"kernel k { ", b"if 1<1{", b"", b"", count)?;
    Ok(parse_end(alloc, text.as_slice()))
}

// 22 bytes and 32 groups of 1 come before the 33rd group, and 11 bytes and 32 branches of 7 before the 33rd branch.
#[test]
fn deepest(rt: HostRuntime) -> Result<(), Fail> {
    assert!(rt; groups_end(rt.alloc(), 32)?.is_none());
    let deep_group = ParseEnd::Fault { code: 13, at: 54 };
    assert!(rt; groups_end(rt.alloc(), 33)? == Some(deep_group));
    let deep_branch = ParseEnd::Fault { code: 13, at: 235 };
    assert!(rt; branches_end(rt.alloc(), 33)? == Some(deep_branch));
    Ok(())
}
