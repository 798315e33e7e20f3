// Cores of conflicts that were found by hand: what of each formula matters. The contract says that what is
// shown is right, and not that anything is found.
use crate::questions::{answer_of, given_of, tables};
use ltl_syntax::{Kind, print};
use requirement_questions::{Because, Core, Limits, QuestionAnswer, Wanted, core_of};
use std::alloc::{AllocError, Global};
use std::process::Abort;
use std::test::Fail;

/// The kind, formulas that no trace satisfies together, and what matters of each; nothing, if all of it does.
type Row = (Kind, &'static [&'static str], &'static str);

const ROWS: &[Row] = &[
    // `q` adds nothing to what `F !p` contradicts.
    (
        Kind::Infinite,
        &["G (p & q)", "F !p"],
        "G (p & {0}); F !p; ",
    ),
    // A part that can be left out is one letter, however large it is.
    (
        Kind::Finite,
        &["F a & G c", "G (a -> X b)", "G !b & (c | d)"],
        "(F a & {0}); G (a -> X b); (G !b & {1}); ",
    ),
    (
        Kind::Infinite,
        &["p", "G (p -> X p)", "F (!p & r)"],
        "p; G (p -> X p); F (!p & {0}); ",
    ),
    // One formula by itself, and two that have nothing to spare.
    (Kind::Infinite, &["F (p & !p) & q"], "(F (p & !p) & {0}); "),
    (Kind::Infinite, &["p", "!p"], ""),
];

/// The parts of a core, each with what ends it.
fn tell_core(rt: &impl Abort, alloc: Global, core: &Core) -> Result<Vec<u8>, AllocError> {
    let mut line = Vec::new(alloc);
    'parts: for k in 0..core.parts.len() {
        let number = core.parts[k];
        assert!(rt; number < core.table.len());
        let text = print(alloc, &core.table, number)?;
        line.extend_from_slice(&text)?;
        line.extend_from_slice(b"; ")?;
    }
    Ok(line)
}

fn tell_core_of(
    rt: &impl Abort,
    alloc: Global,
    kind: Kind,
    because: &Because,
) -> Result<Vec<u8>, AllocError> {
    assert!(rt; because.root < because.table.len());
    match core_of(alloc, kind, because, Limits { steps: 100_000 })? {
        Some(core) => tell_core(rt, alloc, &core),
        None => Ok(Vec::new(alloc)),
    }
}

fn told(rt: &impl Abort, alloc: Global, row: &Row) -> Result<Vec<u8>, AllocError> {
    let (kind, texts, _) = *row;
    let tables = tables(rt, alloc, texts)?;
    let given = given_of(alloc, &tables)?;
    match answer_of(alloc, kind, &given, Wanted::Nothing)? {
        QuestionAnswer::Cannot(because) => tell_core_of(rt, alloc, kind, &because),
        _ => panic!(rt; "no conflict was found"),
    }
}

#[test]
fn cores(rt: HostRuntime) -> Result<(), Fail> {
    for row in ROWS {
        let line = told(&rt, rt.alloc(), row)?;
        assert!(rt; line.as_slice() == row.2.as_bytes(), "{}", row.2);
    }
    Ok(())
}
