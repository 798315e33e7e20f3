// The texts letter by letter. The expected lines are those of the documents.
use crate::shown::USAGE;
use cert_check::{Reason, Verdict};
use ltl_word::Trace;
use report::{
    Fault, Shown, Summary, answers, checked, demo, depasted, lifted, no_path, path_fails,
    paths_hold, paths_hold_by, refused, sat, traced, undecided, unsat,
};
use std::alloc::AllocError;
use std::process::Abort;
use std::test::Fail;

/// This was added to nothing, and nothing is left of it.
fn is<R: Abort>(
    rt: &R,
    added: Result<(), AllocError>,
    out: &mut Vec<u8>,
    wanted: &[u8],
) -> Result<(), Fail> {
    added?;
    assert!(rt; out.as_slice() == wanted);
    out.clear();
    Ok(())
}

#[test]
fn refusals(rt: HostRuntime) -> Result<(), Fail> {
    let mut out = Vec::new(rt.alloc());
    let table: [(Fault, &[u8]); 19] = [
        (Fault::Usage, USAGE),
        (Fault::NoSeparator, b"no separator line\n"),
        (Fault::Text, b"limit text 1048576\n"),
        (Fault::Batch, b"limit batch 16777216\n"),
        (Fault::Lexical(0), b"lexical fault at byte 0\n"),
        (
            Fault::Grammar(1_048_576),
            b"grammar fault at byte 1048576\n",
        ),
        (Fault::Nodes(16_385), b"limit nodes 16384 have 16385\n"),
        (
            Fault::PastNodes(16_385),
            b"limit depast nodes 16384 have 16385\n",
        ),
        (
            Fault::Letters(937),
            b"limit letters 16777216 greatest depth 937\n",
        ),
        (
            Fault::Cells(268_435_456),
            b"limit cells 67108864 have 268435456\n",
        ),
        (Fault::Certificate(61), b"certificate fault at byte 61\n"),
        (Fault::NotJson, b"trace fault: not JSON\n"),
        (Fault::NotTrace, b"trace fault: not a trace\n"),
        (Fault::EmptyLoop, b"trace fault: loop is empty\n"),
        (Fault::EmptyStates, b"trace fault: states is empty\n"),
        (Fault::SystemStart, b"system fault in start\n"),
        (Fault::SystemStep, b"system fault in step\n"),
        (Fault::LooksAhead, b"monitor fault: future operator\n"),
        (Fault::State(2), b"state fault at line 2\n"),
    ];
    for (fault, wanted) in &table {
        is(&rt, refused(fault, &mut out), &mut out, wanted)?;
    }
    Ok(())
}

#[test]
fn verdicts(rt: HostRuntime) -> Result<(), Fail> {
    let alloc = rt.alloc();
    let mut out = Vec::new(alloc);
    let json = b"{\"kind\":\"finite\",\"states\":[[\"p\"]]}";
    let Ok(trace) = Trace::from_json(alloc, json) else {
        return Err(Fail::new("the text is no trace"));
    };
    is(
        &rt,
        sat(alloc, 0, &trace, &mut out),
        &mut out,
        b"SAT 0\n{\"kind\":\"finite\",\"states\":[[\"p\"]]}\n",
    )?;
    is(&rt, unsat(2, None, &mut out), &mut out, b"UNSAT 2\n")?;
    is(
        &rt,
        unsat(0, Some(b"((p & !p) & {0})"), &mut out),
        &mut out,
        b"UNSAT 0\ncore ((p & !p) & {0})\n",
    )?;
    is(
        &rt,
        undecided(1000, &mut out),
        &mut out,
        b"UNDECIDED 1000\n",
    )?;
    is(&rt, no_path(3, &mut out), &mut out, b"NO PATH 3\n")?;
    is(&rt, paths_hold(5, &mut out), &mut out, b"HOLDS 5\n")?;
    is(
        &rt,
        paths_hold_by(0, b"((p & G q) & !r)", &mut out),
        &mut out,
        b"HOLDS 0\nformula ((p & G q) & !r)\n",
    )?;
    is(
        &rt,
        path_fails(alloc, 1, &trace, &mut out),
        &mut out,
        b"FAILS 1\n{\"kind\":\"finite\",\"states\":[[\"p\"]]}\n",
    )?;
    is(&rt, depasted(b"X p", &mut out), &mut out, b"X p\n")?;
    is(
        &rt,
        lifted(alloc, b"p", &trace, &mut out),
        &mut out,
        b"p\n{\"kind\":\"finite\",\"states\":[[\"p\"]]}\n",
    )?;
    is(&rt, traced(true, &mut out), &mut out, b"HOLDS\n")?;
    is(&rt, traced(false, &mut out), &mut out, b"FAILS\n")?;
    is(
        &rt,
        answers(&[true, false], &mut out),
        &mut out,
        b"true\nfalse\n",
    )
}

#[test]
fn checks(rt: HostRuntime) -> Result<(), Fail> {
    let mut out = Vec::new(rt.alloc());
    let table: [(Verdict, &[u8]); 4] = [
        (Verdict::Verified, b"VERIFIED\n"),
        (Verdict::Rejected(Reason::Kind), b"REJECTED kind\n"),
        (Verdict::Rejected(Reason::Line(2)), b"REJECTED line 2\n"),
        (Verdict::Rejected(Reason::Target(1)), b"REJECTED target 1\n"),
    ];
    for (verdict, wanted) in &table {
        is(&rt, checked(verdict, &mut out), &mut out, wanted)?;
    }
    Ok(())
}

#[test]
fn demos(rt: HostRuntime) -> Result<(), Fail> {
    let mut out = Vec::new(rt.alloc());
    let small = Summary {
        number: 2,
        nodes: 27,
        entries: 30,
        letters: 154,
        verdict: Shown::Sat(2),
    };
    let table: [(Shown, &[u8]); 3] = [
        (
            Shown::Sat(2),
            b"demo 2\nnodes 27\nentries 30\nletters 154\nSAT 2\n",
        ),
        (
            Shown::Unsat(0),
            b"demo 2\nnodes 27\nentries 30\nletters 154\nUNSAT 0\n",
        ),
        (
            Shown::Undecided(64),
            b"demo 2\nnodes 27\nentries 30\nletters 154\nUNDECIDED 64\n",
        ),
    ];
    for (verdict, wanted) in &table {
        let summary = Summary {
            verdict: *verdict,
            ..small
        };
        is(&rt, demo(&summary, &mut out), &mut out, wanted)?;
    }
    Ok(())
}
