//! The words of command lines, with the commands that they ask for and the files that they name.
use command_words::read::command;
use command_words::{
    Caching, Checking, Command, Covering, PartPlanning, Planning, TrialPlanning, file_word,
};
use comp_graph::Weights;
use std::alloc::{AllocError, Global};
use std::process::Abort;
use std::test::Fail;

// The words of a line, which single spaces part.
fn words(alloc: Global, line: &str) -> Result<Vec<String>, AllocError> {
    let mut words = Vec::new(alloc);
    for word in line.split(' ') {
        words.push(String::from_str(alloc, word)?)?;
    }
    Ok(words)
}

// What the words of a line ask for.
fn asked(alloc: Global, line: &str) -> Result<Option<Command>, AllocError> {
    Ok(command(&words(alloc, line)?))
}

// Lines, and the plans that they ask for.
const PLANS: [(&str, Command); 5] = [
    (
        "plan 2 t",
        Command::Plan(Planning {
            slots: 2,
            budget: 20000,
            weights: Weights { load: 1, store: 1 },
        }),
    ),
    (
        "plan 1 t 0",
        Command::Plan(Planning {
            slots: 1,
            budget: 0,
            weights: Weights { load: 1, store: 1 },
        }),
    ),
    (
        "plan 64 t 150000",
        Command::Plan(Planning {
            slots: 64,
            budget: 150000,
            weights: Weights { load: 1, store: 1 },
        }),
    ),
    (
        "plan 3 t 2000 1 16",
        Command::Plan(Planning {
            slots: 3,
            budget: 2000,
            weights: Weights { load: 1, store: 16 },
        }),
    ),
    (
        "plan 3 t 0 16 1",
        Command::Plan(Planning {
            slots: 3,
            budget: 0,
            weights: Weights { load: 16, store: 1 },
        }),
    ),
];

// Lines, and what else they ask for.
const OTHER_COMMANDS: [(&str, Command); 16] = [
    (
        "check 64 t",
        Command::Check(Checking {
            slots: 64,
            weights: Weights { load: 1, store: 1 },
        }),
    ),
    (
        "check 2 t 2 3",
        Command::Check(Checking {
            slots: 2,
            weights: Weights { load: 2, store: 3 },
        }),
    ),
    (
        "trial 1 3 t",
        Command::Trial(TrialPlanning {
            statements: 1,
            slots: 3,
        }),
    ),
    (
        "trial 200 64 t",
        Command::Trial(TrialPlanning {
            statements: 200,
            slots: 64,
        }),
    ),
    ("run v", Command::Run),
    ("exec v", Command::Exec),
    ("graph", Command::Graph),
    (
        "cover 64 t",
        Command::Cover(Covering {
            slots: 64,
            budget: 2000,
        }),
    ),
    (
        "cover 1 t 8000",
        Command::Cover(Covering {
            slots: 1,
            budget: 8000,
        }),
    ),
    ("covercheck 5 t", Command::CoverCheck(5)),
    (
        "parts 64 16 t",
        Command::Parts(PartPlanning {
            slots: 64,
            parts: 16,
            budget: 2000,
        }),
    ),
    (
        "parts 4 1 t 0",
        Command::Parts(PartPlanning {
            slots: 4,
            parts: 1,
            budget: 0,
        }),
    ),
    ("judge 6 p", Command::Judge(6)),
    ("tidy 7 p", Command::Tidy(7)),
    (
        "cache 64 t",
        Command::Cache(Caching {
            slots: 64,
            budget: 20000,
        }),
    ),
    (
        "cache 2 t 150000",
        Command::Cache(Caching {
            slots: 2,
            budget: 150000,
        }),
    ),
];

// Each line asks for its command.
fn check_commands(
    rt: &impl Abort,
    alloc: Global,
    cases: &[(&str, Command)],
) -> Result<(), AllocError> {
    for (line, command) in cases {
        assert!(rt; asked(alloc, line)? == Some(*command), "{line}");
    }
    Ok(())
}

#[test]
fn commands(rt: HostRuntime) -> Result<(), Fail> {
    check_commands(&rt, rt.alloc(), &PLANS)?;
    check_commands(&rt, rt.alloc(), &OTHER_COMMANDS)?;
    Ok(())
}

// Lines of no command.
const NO_COMMANDS: &str = "plan 0 t 0\n\
    plan 02 t 0\n\
    plan 65 t 0\n\
    plan +2 t 0\n\
    plan 2 t 150001\n\
    plan 2 t 01\n\
    plan 2 t 0 0\n\
    plan 2 t 0 0 1\n\
    plan 2 t 0 1 17\n\
    plan 2 t 0 1 1 1\n\
    check 2 t 1\n\
    check 2 t 0 1\n\
    plan 2\n\
    plan 2 \n\
    plan 2  0\n\
    check 2 t 0\n\
    trial 0 3 t\n\
    trial 201 3 t\n\
    trial 3 0 t\n\
    trial 3 65 t\n\
    trial 3 3 \n\
    check 65 t\n\
    check 0 t\n\
    check 02 t\n\
    check 2\n\
    check 2 \n\
    run\n\
    run v w\n\
    exec\n\
    exec v w\n\
    graph g\n\
    cover 2 t 8001\n\
    cover 2 t 0 0\n\
    covercheck 2 t 0\n\
    covercheck 65 t\n\
    parts 2 0 t\n\
    parts 2 17 t\n\
    parts 2 3 t 8001\n\
    parts 2 3\n\
    parts 2 3 t 0 0\n\
    judge 2 \n\
    judge 2 p 0\n\
    tidy 0 p\n\
    cache 2 t 150001\n\
    ";

#[test]
fn words_of_no_command(rt: HostRuntime) -> Result<(), Fail> {
    for line in NO_COMMANDS.split('\n') {
        assert!(rt; asked(rt.alloc(), line)?.is_none(), "{line}");
    }
    assert!(rt; command(&[]).is_none());
    Ok(())
}

// Lines, and the words in them that name a file.
const FILES: [(&str, &str); 14] = [
    ("plan 2 t 0", "t"),
    ("check 2 t", "t"),
    ("run v", "v"),
    ("exec v more", "v"),
    ("trial 3 2 t", "t"),
    ("parts 3 2 t 0", "t"),
    ("cover 3 t 0", "t"),
    ("covercheck 3 t", "t"),
    ("judge 3 p", "p"),
    ("tidy 3 p", "p"),
    ("cache 3 t", "t"),
    ("graph t t t", ""),
    ("plan 2", ""),
    ("", ""),
];

// Each line names its file.
fn check_files(rt: &impl Abort, alloc: Global, cases: &[(&str, &str)]) -> Result<(), AllocError> {
    for (line, file) in cases {
        let given = words(alloc, line)?;
        assert!(rt; file_word(&given) == *file);
    }
    Ok(())
}

#[test]
fn files(rt: HostRuntime) -> Result<(), Fail> {
    assert!(rt; file_word(&[]) == "");
    check_files(&rt, rt.alloc(), &FILES)?;
    Ok(())
}
