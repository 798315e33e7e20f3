// The words as a table for each program, with what they ask for: the command, the depth and the workers
// (9999 and 99 where none are asked for), and the flags; of the second program the call, the steps (0 where
// none are asked for), and the flags.
use crate::calls::list;
use crate::{refuter, shown};
use command_words::{
    Asked, Options, Refutation, asked_command, asked_refutation, refutation_usage, usage,
};
use ltl_syntax::Kind;
use std::alloc::{AllocError, Global};
use std::test::Fail;

fn asked(alloc: Global, words: &str) -> Result<Option<Asked>, AllocError> {
    let all = list(alloc, words)?;
    asked_command(alloc, &all)
}

fn kind_word(kind: Kind) -> &'static str {
    match kind {
        Kind::Finite => " finite",
        Kind::Infinite => "",
    }
}

fn options(alloc: Global, command: &str, options: Options) -> Result<String, AllocError> {
    let kind = kind_word(options.kind);
    let cert = if options.cert { " cert" } else { "" };
    let core = if options.core { " core" } else { "" };
    let depth = options.depth.unwrap_or(9_999);
    let workers = options.workers.unwrap_or(99);
    format!(in alloc; "{command} {depth} {workers}{kind}{cert}{core}")
}

fn shown(alloc: Global, asked: Option<Asked>) -> Result<String, AllocError> {
    match asked {
        None => String::from_str(alloc, "none"),
        Some(Asked::Solve(said)) => options(alloc, "solve", said),
        Some(Asked::Check(said)) => options(alloc, "check", said),
        Some(Asked::Trace) => String::from_str(alloc, "trace"),
        Some(Asked::Demo(number)) => format!(in alloc; "demo {number}"),
        Some(Asked::Batch(said)) => options(alloc, "batch", said),
        Some(Asked::System(said)) => options(alloc, "system", said),
        Some(Asked::Monitor) => String::from_str(alloc, "monitor"),
        Some(Asked::Depast) => String::from_str(alloc, "depast"),
    }
}

#[test]
fn words(rt: HostRuntime) -> Result<(), Fail> {
    let alloc = rt.alloc();
    let table = [
        ("", "none"),
        ("solved", "none"),
        ("solve", "solve 9999 99"),
        ("solve --depth=1", "solve 1 99"),
        (
            "solve --cert --depth 1000 --finite",
            "solve 1000 99 finite cert",
        ),
        ("solve --depth 1001", "none"),
        ("solve --depth 00001", "none"),
        ("solve --depth -1", "none"),
        ("solve --depth", "none"),
        ("solve --depth=", "none"),
        ("solve --finite --finite", "none"),
        ("solve --depth 1 --depth=2", "none"),
        ("solve --dep 3", "none"),
        ("solve --finite=1", "none"),
        ("solve --", "none"),
        ("solve --core", "solve 9999 99 core"),
        ("solve --workers 2 --core --cert", "solve 9999 2 cert core"),
        ("solve x", "none"),
        ("check --workers=16 --finite", "check 9999 16 finite"),
        ("check --workers 01", "check 9999 1"),
        ("check --workers 17", "none"),
        ("check --workers 0", "none"),
        ("check --depth 1", "none"),
        ("trace", "trace"),
        ("trace --finite", "none"),
        ("demo 04", "demo 4"),
        ("demo 64", "demo 64"),
        ("demo 1", "none"),
        ("demo 65", "none"),
        ("demo 004", "none"),
        ("demo 4 4", "none"),
        ("demo", "none"),
        ("batch", "batch 9999 99"),
        ("batch --workers 2 --finite --depth=3", "batch 3 2 finite"),
        ("batch --cert", "none"),
        ("system --cert --depth=7", "system 7 99 cert"),
        ("system --finite", "none"),
        ("monitor", "monitor"),
        ("monitor p", "none"),
        ("depast", "depast"),
        ("depast p", "none"),
    ];
    for (said, wanted) in &table {
        let text = shown(alloc, asked(alloc, said)?)?;
        assert_eq!(rt; text.as_str(), *wanted, "at {said}");
    }
    Ok(())
}

fn call(alloc: Global, name: &str, options: Options) -> Result<String, AllocError> {
    let kind = kind_word(options.kind);
    let cert = if options.cert { " cert" } else { "" };
    let check = if options.check { " check" } else { "" };
    let progress = if options.progress { " progress" } else { "" };
    let steps = options.steps.unwrap_or(0);
    format!(in alloc; "{name} {steps}{kind}{cert}{check}{progress}")
}

fn refuter_asked(alloc: Global, words: &str) -> Result<String, AllocError> {
    let all = list(alloc, words)?;
    match asked_refutation(alloc, &all)? {
        None => String::from_str(alloc, "none"),
        Some(Refutation::Refute(said)) => call(alloc, "refute", said),
        Some(Refutation::Check(said)) => call(alloc, "judge", said),
    }
}

#[test]
fn words_of_the_refuter(rt: HostRuntime) -> Result<(), Fail> {
    let alloc = rt.alloc();
    let table = [
        ("", "refute 0"),
        ("--finite", "refute 0 finite"),
        ("--steps=5", "refute 5"),
        (
            "--progress --steps 999999999 --cert --finite",
            "refute 999999999 finite cert progress",
        ),
        ("--steps 000000001", "refute 1"),
        ("--steps 0", "none"),
        ("--steps 1000000000", "none"),
        ("--steps 0000000001", "none"),
        ("--steps", "none"),
        ("--steps x", "none"),
        ("--finite --finite", "none"),
        ("--check", "judge 0 check"),
        ("--check --finite", "judge 0 finite check"),
        ("--finite --check", "judge 0 finite check"),
        ("--check --cert", "none"),
        ("--check --steps 5", "none"),
        ("--progress --check", "none"),
        ("--check --check", "none"),
        ("--depth 3", "none"),
        ("--workers 2", "none"),
        ("--core", "none"),
        ("solve", "none"),
        ("--finite p", "none"),
    ];
    for (said, wanted) in &table {
        let text = refuter_asked(alloc, said)?;
        assert_eq!(rt; text.as_str(), *wanted, "at {said}");
    }
    Ok(())
}

#[test]
fn words_of_the_refuter_alone(rt: HostRuntime) -> Result<(), Fail> {
    let alloc = rt.alloc();
    for said in &["solve --steps 5", "solve --progress", "check --check"] {
        assert!(rt; asked(alloc, said)?.is_none(), "at {said}");
    }
    Ok(())
}

#[test]
fn usage_lines(rt: HostRuntime) -> Result<(), Fail> {
    assert!(rt; *usage() == *shown::USAGE);
    assert!(rt; *refutation_usage() == *refuter::USAGE);
    Ok(())
}
