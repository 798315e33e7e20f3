use crate::formulas::{formula, push};
use depast::{RemoveRefused, lift, lower, remove};
use ltl_syntax::{FormulaTable, Node, UnaryOp, print};
use ltl_word::Trace;
use std::alloc::Global;
use std::process::Abort;
use std::test::Fail;

// The formula of the text, over a table that has a name of two underscores too.
fn formula_beside(rt: &impl Abort, alloc: Global, text: &str) -> Result<(FormulaTable, u32), Fail> {
    let (mut table, root) = formula(rt, alloc, text)?;
    assert!(rt; table.letters() < 100);
    table.name("__x")?;
    assert!(rt; root < table.len());
    Ok((table, root))
}

#[test]
fn takes_past_out(rt: HostRuntime) -> Result<(), Fail> {
    let rows = [
        ("Y p", "(_p0 & (!_p0 & G ((p & wX _p0) | (!p & wX !_p0))))"),
        (
            "G (p <-> Y !p)",
            "(G (p <-> _p0) & (!_p0 & G ((!p & wX _p0) | (!!p & wX !_p0))))",
        ),
        (
            "Y __x",
            "(___p0 & (!___p0 & G ((__x & wX ___p0) | (!__x & wX !___p0))))",
        ),
        (
            "p S q",
            "(_p0 & ((_p0 <-> q) & G ((_p0 & wX (_p0 <-> (q | p))) | (!_p0 & wX (_p0 <-> q)))))",
        ),
        (
            "O[1,2] p",
            "(((_p0 | _p1) & (!_p0 & G ((p & wX _p0) | (!p & wX !_p0)))) \
             & (!_p1 & G ((_p0 & wX _p1) | (!_p0 & wX !_p1))))",
        ),
        (
            "p T Z q",
            "((_p1 & (_p0 & G ((q & wX _p0) | (!q & wX !_p0)))) \
             & ((_p1 <-> _p0) & G ((_p1 & wX (_p1 <-> _p0)) | (!_p1 & wX (_p1 <-> (_p0 & p))))))",
        ),
    ];
    for (text, want) in rows {
        let (table, root) = formula_beside(&rt, rt.alloc(), text)?;
        assert!(rt; root < table.len());
        let removed = remove(rt.alloc(), &table, root)?;
        let out = print(rt.alloc(), removed.table(), removed.root())?;
        assert!(rt; out.as_slice() == want.as_bytes(), "{text}");
    }
    Ok(())
}

// Each step back takes 16, and the letter 1.
#[test]
fn counts_the_size(rt: HostRuntime) -> Result<(), Fail> {
    for (times, want) in [(1_023, None), (1_024, Some(RemoveRefused::Nodes(16_385)))] {
        let (mut table, mut root) = formula_beside(&rt, rt.alloc(), "p")?;
        for _ in 0..times {
            root = push(&rt, &mut table, Node::Unary(UnaryOp::Yesterday, root))?;
        }
        assert!(rt; root < table.len());
        assert_eq!(rt; remove(rt.alloc(), &table, root).err(), want);
    }
    Ok(())
}

#[test]
fn lifts_and_lowers(rt: HostRuntime) -> Result<(), Fail> {
    let (table, root) = formula_beside(&rt, rt.alloc(), "G (p <-> Y !p)")?;
    assert!(rt; root < table.len());
    let removed = remove(rt.alloc(), &table, root)?;
    let text = br#"{"kind":"infinite","loop":[["p"],[]],"stem":[[]]}"#;
    let trace = Trace::from_json(rt.alloc(), text)?;
    match &trace {
        Trace::Infinite { stem: _, loop_part } => assert!(rt; loop_part.as_slice().len() > 0),
        Trace::Finite { states } => assert!(rt; states.as_slice().len() > 0),
    }
    let lifted = lift(rt.alloc(), &removed, &table, root, &trace)?;
    let want = br#"{"kind":"infinite","loop":[["_p0","p"],[]],"stem":[[],["_p0","p"],[]]}"#;
    assert!(rt; lifted.to_json(rt.alloc())?.as_slice() == want.as_slice());
    let lowered = lower(rt.alloc(), &removed, &lifted)?;
    let want = br#"{"kind":"infinite","loop":[["p"],[]],"stem":[[],["p"],[]]}"#;
    assert!(rt; lowered.to_json(rt.alloc())?.as_slice() == want.as_slice());
    Ok(())
}
