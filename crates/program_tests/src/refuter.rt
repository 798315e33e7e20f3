// What `black_refute` shows, over memory. The expected texts were written by hand, and the certificate too.
use crate::calls::{Program, Row, called, joined, show_rows, shows};
use refute_top::Status;
use std::alloc::{AllocError, Global};
use std::test::Fail;

pub(crate) const USAGE: &[u8] =
    b"usage: black_refute [--finite] [--cert] [--steps N] [--progress]\n\
    usage: black_refute --check [--finite]\n";

const RECURRING: &[u8] = b"G F p & G !p";

const YESTERDAY_CHECKED: &[u8] = b"Y p\n---\nltlinv 1 infinite\n-6 0 3 4 0\nclose 1\n";

const ANSWERS: &[Row] = &[
    (
        "",
        RECURRING,
        b"UNSAT\nnever X F p & wX G !p\n",
        Status::Unsat,
    ),
    (
        "--progress",
        b"p",
        b"SAT\n{\"kind\":\"infinite\",\"loop\":[[]],\"stem\":[[\"p\"]]}\n",
        Status::Sat,
    ),
    (
        "--finite",
        b"p",
        b"SAT\n{\"kind\":\"finite\",\"states\":[[\"p\"]]}\n",
        Status::Sat,
    ),
    // No claim is needed.
    ("", b"Y p", b"UNSAT\n", Status::Unsat),
    ("--steps 1", RECURRING, b"UNDECIDED\n", Status::Undecided),
    ("--steps=0", b"p", USAGE, Status::Usage),
    ("--check --cert", b"p", USAGE, Status::Usage),
    ("solve", b"p", USAGE, Status::Usage),
    ("", b"p $", b"lexical fault at byte 2\n", Status::Text),
    ("", b"p &", b"grammar fault at byte 3\n", Status::Text),
    ("--check", b"p", b"no separator line\n", Status::Text),
    (
        "--check",
        b"p &\n---\n",
        b"grammar fault at byte 3\n",
        Status::Text,
    ),
    (
        "--check",
        b"p\n---\nltlinv 2",
        b"certificate fault at byte 7\n",
        Status::Text,
    ),
    ("--check", YESTERDAY_CHECKED, b"VERIFIED\n", Status::Good),
    (
        "--check --finite",
        YESTERDAY_CHECKED,
        b"REJECTED kind\n",
        Status::Negative,
    ),
];

#[test]
fn answers(rt: HostRuntime) -> Result<(), Fail> {
    show_rows(&rt, rt.alloc(), Program::Refuter, ANSWERS)
}

/// A formula, a separator line and a certificate of it.
const CERTIFIED: &[&str] = &[
    "G F p & G !p",
    "---",
    "ltlinv 1 infinite",
    "layer 1",
    "c -5 -10 0",
    "-10 -23 16 -5 0 39 25 31 32 43 0",
    "-10 -23 -14 0 31 32 43 0",
    "base 1 2",
    "-20 -15 0 20 32 33 31 47 25 0",
    "-10 -23 -5 0 39 -3 43 0",
    "step 4",
    "-11 0 1 17 18 7 13 14 12 48 6 0",
    "-24 0 45 -5 0",
    "close 6",
];

/// The same, with another line of this number.
fn changed(alloc: Global, number: usize, other: &str) -> Result<Vec<u8>, AllocError> {
    let mut text = Vec::new(alloc);
    for (place, line) in CERTIFIED.iter().enumerate() {
        let line = if place == number { other } else { *line };
        text.extend_from_slice(line.as_bytes())?;
        text.push(b'\n')?;
    }
    Ok(text)
}

/// The number of a line, another one in its place, and what is shown.
const VERDICTS: &[(usize, &str, &[u8], Status)] = &[
    (1, "---", b"VERIFIED\n", Status::Good),
    (2, "ltlinv 1 finite", b"REJECTED kind\n", Status::Negative),
    (
        3,
        "layer 2",
        b"REJECTED layer 1 eventuality\n",
        Status::Negative,
    ),
    (
        4,
        "c -5 -12 0",
        b"REJECTED layer 1 claim 1\n",
        Status::Negative,
    ),
    (
        4,
        "c -5 0",
        b"REJECTED layer 1 base target 1\n",
        Status::Negative,
    ),
    (
        6,
        "-10 -23 -14 0 31 32 0",
        b"REJECTED layer 1 base line 2\n",
        Status::Negative,
    ),
    (
        8,
        "-20 -15 0 20 0",
        b"REJECTED layer 1 step line 1\n",
        Status::Negative,
    ),
    (
        10,
        "step 3",
        b"REJECTED layer 1 step target 1\n",
        Status::Negative,
    ),
    (12, "-24 0 45 0", b"REJECTED line 2\n", Status::Negative),
    (13, "close 5", b"REJECTED target\n", Status::Negative),
];

#[test]
fn verdicts(rt: HostRuntime) -> Result<(), Fail> {
    let alloc = rt.alloc();
    for (number, other, output, status) in VERDICTS {
        let input = changed(alloc, *number, other)?;
        shows(
            &rt,
            alloc,
            Program::Refuter,
            "--check",
            &input,
            output,
            *status,
        )?;
    }
    Ok(())
}

/// Words, a formula, and the words that judge what is printed.
const PRINTED: &[(&str, &[u8], &str)] = &[
    ("--cert", RECURRING, "--check"),
    ("--cert --finite", b"G X p", "--check --finite"),
    ("--cert", b"Y p", "--check"),
];

/// What `--cert` prints is verified behind the text of its formula.
#[test]
fn certificates(rt: HostRuntime) -> Result<(), Fail> {
    let alloc = rt.alloc();
    for (words, formula, judge) in PRINTED {
        let call = called(&rt, alloc, Program::Refuter, words, formula)?;
        let Some(certificate) = call.text.strip_prefix(b"UNSAT\n".as_slice()) else {
            return Err(Fail::new("another first line"));
        };
        assert!(rt; call.status == Status::Unsat && certificate.starts_with(b"ltlinv 1 "));
        let input = joined(alloc, formula, certificate)?;
        shows(
            &rt,
            alloc,
            Program::Refuter,
            judge,
            &input,
            b"VERIFIED\n",
            Status::Good,
        )?;
    }
    Ok(())
}
