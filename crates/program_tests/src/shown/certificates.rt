// `check` on certificates that were worked by hand, and on those that `solve --cert` prints.
use super::{NINE, RECURRING, repeated, watched};
use crate::calls::{Program, called, joined, shows};
use crate::gates::{Meeting, Roll};
use black_top::Status;
use std::alloc::{AllocError, Global};
use std::process::Abort;
use std::test::Fail;
use std::thread::Threads;

/// A second part, the line that `check` prints, and its status.
type Row = (&'static [u8], &'static [u8], Status);

const VERIFIED: &[u8] = b"VERIFIED\n";

const LINE_ONE: &[u8] = b"REJECTED line 1\n";

const LINE_TWO: &[u8] = b"REJECTED line 2\n";

const TARGET_ONE: &[u8] = b"REJECTED target 1\n";

const TARGET_THREE: &[u8] = b"REJECTED target 3\n";

/// On `false`, in both versions of the text.
const ON_FALSE: &[Row] = &[
    (
        b"ltlcert 1 infinite 0\n-2 0 2 1 0\nclose 1 1\n",
        VERIFIED,
        Status::Good,
    ),
    (
        b"ltlcert 1 infinite 0\n-2 0 1 2 0\nclose 1 1\n",
        VERIFIED,
        Status::Good,
    ),
    (
        b"ltlcert 1 infinite 0\n-2 0 2 0\nclose 1 1\n",
        LINE_ONE,
        Status::Negative,
    ),
    (
        b"ltlcert 1 infinite 0\n-2 0 2 1 1 0\nclose 1 1\n",
        LINE_ONE,
        Status::Negative,
    ),
    (
        b"ltlcert 1 infinite 0\n-2 0 2 3 1 0\nclose 1 1\n",
        LINE_ONE,
        Status::Negative,
    ),
    (
        b"ltlcert 1 infinite 0\n2 -2 0 2 1 0\nclose 1 1\n",
        LINE_ONE,
        Status::Negative,
    ),
    (
        b"ltlcert 1 infinite 0\n-2 0 2 1 0\nclose 1 2\n",
        b"REJECTED target 2\n",
        Status::Negative,
    ),
    (
        b"ltlcert 1 infinite 0\nclose 1 1\n",
        TARGET_ONE,
        Status::Negative,
    ),
    (
        b"ltlcert 1 finite 0\n-2 0 2 1 0\nclose 1 1\n",
        b"REJECTED kind\n",
        Status::Negative,
    ),
    (
        b"ltlcert 1 infinite 0\n-2 0 2 1 0\n",
        b"certificate fault at byte 32\n",
        Status::Text,
    ),
    (
        b"ltlcert 2 infinite 0\n-2 0 2 1 0\nclose 1 1\n",
        VERIFIED,
        Status::Good,
    ),
    (
        b"ltlcert 3 infinite 0\n-2 0 2 1 0\nclose 1 1\n",
        b"certificate fault at byte 8\n",
        Status::Text,
    ),
    (
        b"ltlcert 1 infinite 1001\n-2 0 2 1 0\nclose 1 1\n",
        b"certificate fault at byte 22\n",
        Status::Text,
    ),
    (
        b"ltlcert 2 infinite 0\n-2 0 2 1 0\n-2 0 -1 0\nd 1\nclose 2 2\n",
        VERIFIED,
        Status::Good,
    ),
    (
        b"ltlcert 2 infinite 0\n-2 0 2 1 0\n-2 0 -1 0\nd 1\nclose 1 2\n",
        TARGET_ONE,
        Status::Negative,
    ),
    (
        b"ltlcert 2 infinite 0\n-2 0 2 1 0\nd 1\n-2 0 -1 0\nclose 2 2\n",
        LINE_TWO,
        Status::Negative,
    ),
    (
        b"ltlcert 2 infinite 0\n-2 0 2 1 0\n-2 0 -1 0\nd 7\nclose 2 2\n",
        VERIFIED,
        Status::Good,
    ),
    (
        b"ltlcert 1 infinite 0\n-2 0 2 1 0\n-2 0 -1 0\nd 1\nclose 2 2\n",
        b"certificate fault at byte 42\n",
        Status::Text,
    ),
];

/// A certificate of `wX false`.
const LAST: &[u8] = b"ltlcert 1 infinite 1\n-2 -3 0 2 3 4 0\n-8 0 5 2 7 6 0\nclose 1 2 2\n";

/// On `wX false`, with that certificate changed in one place.
const ON_LAST: &[Row] = &[
    (LAST, VERIFIED, Status::Good),
    (
        b"ltlcert 1 infinite 1\n-2 -3 0 2 3 4 0\n-8 0 5 2 7 6 0\nclose 2 2 2\n",
        TARGET_ONE,
        Status::Negative,
    ),
    (
        b"ltlcert 1 infinite 1\n-2 -3 0 2 3 4 0\n-8 0 5 2 6 7 0\nclose 1 2 2\n",
        VERIFIED,
        Status::Good,
    ),
    (
        b"ltlcert 1 infinite 1\n-2 -3 0 2 3 4 0\n-8 0 5 7 2 6 0\nclose 1 2 2\n",
        LINE_TWO,
        Status::Negative,
    ),
    (
        b"ltlcert 1 infinite 1\n-2 -3 0 2 3 4 0\n-8 0 5 2 7 6 0\nclose 1 2 1\n",
        TARGET_THREE,
        Status::Negative,
    ),
    (
        b"ltlcert 1 infinite 1\n-2 -3 0 2 3 4 0\n-8 0 5 2 7 6 0\nclose 1 2 3\n",
        TARGET_THREE,
        Status::Negative,
    ),
    (b"", b"certificate fault at byte 0\n", Status::Text),
    (
        b"ltlcert 1 infinite 01\n-2 -3 0 2 3 4 0\n-8 0 5 2 7 6 0\nclose 1 2 2\n",
        b"certificate fault at byte 20\n",
        Status::Text,
    ),
    (
        b"ltlcert 1 infinite 1\r\n-2 -3 0 2 3 4 0\n-8 0 5 2 7 6 0\nclose 1 2 2\n",
        b"certificate fault at byte 20\n",
        Status::Text,
    ),
    (
        b"ltlcert 1 infinite 1\n-16777217 -3 0 2 3 4 0\n-8 0 5 2 7 6 0\nclose 1 2 2\n",
        b"certificate fault at byte 29\n",
        Status::Text,
    ),
    (
        b"ltlcert 1 infinite 1\n-2 -3 0 2 3 4 0\n-8 0 5 2 7 6 0\nclose 1 2\n",
        b"certificate fault at byte 61\n",
        Status::Text,
    ),
    (
        b"ltlcert 1 infinite 1\n-2 -3 0 2 3 4 0\n-8 0 5 2 7 6 0\nclose 1 2 2",
        b"certificate fault at byte 63\n",
        Status::Text,
    ),
    (
        b"ltlcert 1 infinite 1\n-2 -3 0 2 3 4 0\n-8 0 5 2 7 6 0\nclose 1 2 2\n\n",
        b"certificate fault at byte 64\n",
        Status::Text,
    ),
    (
        b"ltlcert 1 infinite 1\n-2 -3 0 2 3 19 0\n-8 0 5 2 7 6 0\nclose 1 2 2\n",
        LINE_ONE,
        Status::Negative,
    ),
    (
        b"ltlcert 1 infinite 1\n-2 -3 0 2 3 -1 0\n-8 0 5 2 7 6 0\nclose 1 2 2\n",
        LINE_ONE,
        Status::Negative,
    ),
    (
        b"ltlcert 1 infinite 1\n-2 -3 0 2 3 -2 0\n-8 0 5 2 7 6 0\nclose 1 2 2\n",
        LINE_ONE,
        Status::Negative,
    ),
    (
        b"ltlcert 1 infinite 1\n-2 -3 0 0\n-8 0 5 2 7 6 0\nclose 1 2 2\n",
        LINE_ONE,
        Status::Negative,
    ),
    (
        b"ltlcert 1 infinite 1\n-2 -3 0 2 3 4 0\n-8 17 0 5 2 7 6 0\nclose 1 2 2\n",
        LINE_TWO,
        Status::Negative,
    ),
];

/// What stands behind 50,000 good lines of a certificate of `false`, and what is shown.
const LONG_ENDS: &[Row] = &[
    (b"close 1 50000\n", VERIFIED, Status::Good),
    (
        b"-2 0 2 0\nclose 1 1\n",
        b"REJECTED line 50001\n",
        Status::Negative,
    ),
    (b"close 1 50001\n", b"REJECTED target 2\n", Status::Negative),
    (
        b"close 1 1",
        b"certificate fault at byte 550030\n",
        Status::Text,
    ),
];

/// `check` with these options answers each row so for the formula.
fn checks<R: Threads + Abort + Sync>(
    rt: &R,
    alloc: Global,
    words: &str,
    formula: &[u8],
    rows: &[Row],
) -> Result<(), Fail> {
    for (second, output, status) in rows {
        let input = joined(alloc, formula, second)?;
        shows(rt, alloc, Program::Black, words, &input, output, *status)?;
    }
    Ok(())
}

#[test]
fn worked_certificates(rt: HostRuntime) -> Result<(), Fail> {
    let alloc = rt.alloc();
    let words: [&str; 4] = [
        "check",
        "check --workers 2",
        "check --workers=3",
        "check --workers 16",
    ];
    for words in &words {
        checks(&rt, alloc, words, b"false", ON_FALSE)?;
        checks(&rt, alloc, words, b"wX false", ON_LAST)?;
    }
    Ok(())
}

/// `false` with a certificate of 50,000 good lines and this end.
fn long_input(alloc: Global, last: &[u8]) -> Result<Vec<u8>, AllocError> {
    let lines = repeated(alloc, b"-2 0 2 1 0\n", 50_000, last)?;
    let mut text = b"ltlcert 1 infinite 0\n".to_vec(alloc)?;
    text.extend_from_slice(&lines)?;
    joined(alloc, b"false", &text)
}

/// Inputs of many reads, each worker with many lines.
#[test]
fn long_certificates(rt: HostRuntime) -> Result<(), Fail> {
    let alloc = rt.alloc();
    for (last, output, status) in LONG_ENDS {
        let input = long_input(alloc, last)?;
        shows(
            &rt,
            alloc,
            Program::Black,
            "check --workers 2",
            &input,
            output,
            *status,
        )?;
    }
    Ok(())
}

/// The kind, the formula part, and the letters.
#[test]
fn checked_inputs(rt: HostRuntime) -> Result<(), Fail> {
    let alloc = rt.alloc();
    let mut deep = joined(alloc, NINE, b"ltlcert 1 infinite 1000\nclose")?;
    for _ in 0..1002 {
        deep.extend_from_slice(b" 1")?;
    }
    deep.push(b'\n')?;
    let next: &[u8] =
        b"X false\n---\nltlcert 1 finite 1\n-2 -3 0 2 3 0\n-6 0 4 2 6 5 0\nclose 1 2 2\n";
    let table: [(&str, &[u8], &[u8], Status); 9] = [
        ("check --finite", next, VERIFIED, Status::Good),
        ("check --workers 3 --finite", next, VERIFIED, Status::Good),
        ("check", next, b"REJECTED kind\n", Status::Negative),
        (
            "check --finite",
            b"false\r\n---\r\nltlcert 1 finite 0\n-2 0 2 1 0\nclose 1 1\n",
            VERIFIED,
            Status::Good,
        ),
        (
            "check",
            &deep,
            b"limit letters 16777216 greatest depth 937\n",
            Status::Limit,
        ),
        ("check", b"p", b"no separator line\n", Status::Text),
        ("check", b"---", b"grammar fault at byte 0\n", Status::Text),
        (
            "check",
            b"p $\n---\n",
            b"lexical fault at byte 2\n",
            Status::Text,
        ),
        (
            "check",
            b"p\n---",
            b"certificate fault at byte 0\n",
            Status::Text,
        ),
    ];
    for (words, input, output, status) in &table {
        shows(&rt, alloc, Program::Black, words, input, output, *status)?;
    }
    Ok(())
}

/// `check` with the same kind verifies what `solve --cert` prints.
#[test]
fn printed_certificates_verify(rt: HostRuntime) -> Result<(), Fail> {
    let alloc = rt.alloc();
    let infinite: (&str, &str) = ("solve --cert", "check");
    let finite: (&str, &str) = ("solve --finite --cert", "check --workers 2 --finite");
    let core: (&str, &str) = ("solve --core --cert --workers 2", "check");
    let table: [((&str, &str), &[u8], &[u8]); 7] = [
        (infinite, b"false", b"UNSAT 0\n"),
        (core, b"false", b"UNSAT 0\ncore false\n"),
        (infinite, b"wX false", b"UNSAT 1\n"),
        (infinite, RECURRING, b"UNSAT 2\n"),
        (finite, RECURRING, b"UNSAT 1\n"),
        (finite, b"G X true", b"UNSAT 1\n"),
        (finite, b"p & !p", b"UNSAT 0\n"),
    ];
    for (words, formula, first_line) in &table {
        let call = called(&rt, alloc, Program::Black, words.0, formula)?;
        let Some(certificate) = call.text.strip_prefix(*first_line) else {
            return Err(Fail::new("another first line"));
        };
        assert!(rt; call.status == Status::Unsat);
        let input = joined(alloc, formula, certificate)?;
        shows(
            &rt,
            alloc,
            Program::Black,
            words.1,
            &input,
            VERIFIED,
            Status::Good,
        )?;
    }
    Ok(())
}

/// Two workers are at work at once, on few lines and on many.
#[test]
fn workers_meet(rt: HostRuntime) -> Result<(), Fail> {
    let alloc = rt.alloc();
    for input in [
        joined(alloc, b"wX false", LAST)?,
        long_input(alloc, b"close 1 50000\n")?,
    ] {
        let gate = Meeting::new();
        let status = watched(&rt, alloc, "check --workers 2", &input, VERIFIED, &gate)?;
        assert!(rt; status == Status::Good && gate.met());
    }
    Ok(())
}

/// The gate is told of each worker's piece once, and of no other, however few lines there are.
#[test]
fn pieces_are_told_once(rt: HostRuntime) -> Result<(), Fail> {
    let alloc = rt.alloc();
    let none: &[u8] = b"ltlcert 1 infinite 0\nclose 1 1\n";
    for (words, workers) in [
        ("check", 1u32),
        ("check --workers 1", 1),
        ("check --workers 2", 2),
        ("check --workers 16", 16),
    ] {
        for (input, shown) in [
            (joined(alloc, b"false", none)?, TARGET_ONE),
            (joined(alloc, b"wX false", LAST)?, VERIFIED),
            (long_input(alloc, b"close 1 50000\n")?, VERIFIED),
        ] {
            let gate = Roll::new(alloc)?;
            watched(&rt, alloc, words, &input, shown, &gate)?;
            assert!(rt; gate.each_once(workers));
        }
    }
    Ok(())
}
