// `system`: its answers, what it refuses, and that `check` verifies what it prints.
use super::{USAGE, repeated};
use crate::calls::{Program, Row, called, show_rows, shows};
use black_top::Status;
use std::test::Fail;

const TURNS: &[u8] = b"!p\n---\nX p <-> !p\n---\nG F p";

const SYSTEMS: &[Row] = &[
    ("system", TURNS, b"HOLDS 5\n", Status::Good),
    (
        "system --depth 4",
        TURNS,
        b"UNDECIDED 4\n",
        Status::Undecided,
    ),
    (
        "system",
        b"!p\n---\ntrue\n---\nG !p",
        b"FAILS 1\n{\"kind\":\"infinite\",\"loop\":[[\"p\"]],\"stem\":[[]]}\n",
        Status::Negative,
    ),
    (
        "system",
        b"p & !p\n---\ntrue\n---\np",
        b"NO PATH 0\n",
        Status::Unsat,
    ),
    (
        "system",
        b"Y p\n---\ntrue\n---\np",
        b"system fault in start\n",
        Status::Text,
    ),
    (
        "system",
        b"p\n---\nX X p\n---\np",
        b"system fault in step\n",
        Status::Text,
    ),
    (
        "system",
        b"p\n---\nX[1] p\n---\np",
        b"system fault in step\n",
        Status::Text,
    ),
    (
        "system",
        b"Y p\n---\nY p\n---\np",
        b"system fault in start\n",
        Status::Text,
    ),
    ("system --finite", TURNS, USAGE, Status::Usage),
    ("system", b"p\n---\np", b"no separator line\n", Status::Text),
    (
        "system",
        b"p &\n---\n?\n---\n?",
        b"grammar fault at byte 3\n",
        Status::Text,
    ),
    (
        "system",
        b"p\n---\np ?\n---\np &",
        b"lexical fault at byte 8\n",
        Status::Text,
    ),
    (
        "system",
        b"p\n---\r\nq\n---\nr &",
        b"grammar fault at byte 16\n",
        Status::Text,
    ),
    (
        "system",
        b"p\n---\nq\n---\nr\n---\n",
        b"lexical fault at byte 14\n",
        Status::Text,
    ),
    (
        "system",
        b"p\n---\nX[255] p & ?\n---\np",
        b"lexical fault at byte 17\n",
        Status::Text,
    ),
    (
        "system",
        b"---\n---",
        b"grammar fault at byte 0\n",
        Status::Text,
    ),
];

#[test]
fn systems(rt: HostRuntime) -> Result<(), Fail> {
    show_rows(&rt, rt.alloc(), Program::Black, SYSTEMS)
}

/// The size of the whole formula is shown, whether a part alone is above the limit or not.
#[test]
fn large_systems(rt: HostRuntime) -> Result<(), Fail> {
    let alloc = rt.alloc();
    for (count, output) in [
        (16_376, b"limit nodes 16384 have 16385\n"),
        (16_384, b"limit nodes 16384 have 16393\n"),
    ] {
        let mut input = repeated(alloc, b"!", count, b"p\n---\np & p\n---\np")?;
        shows(
            &rt,
            alloc,
            Program::Black,
            "system",
            &input,
            output,
            Status::Limit,
        )?;
        input.extend_from_slice(b" ?")?;
        let call = called(&rt, alloc, Program::Black, "system", &input)?;
        assert!(rt; call.status == Status::Text);
    }
    Ok(())
}

/// What is printed with a certificate, `check` verifies: the formula behind its word, a separator line, the
/// rest.
#[test]
fn printed_systems_verify(rt: HostRuntime) -> Result<(), Fail> {
    let alloc = rt.alloc();
    let call = called(&rt, alloc, Program::Black, "system --cert", TURNS)?;
    let front = b"HOLDS 5\nformula ".as_slice();
    let Some(shown) = call.text.strip_prefix(front) else {
        return Err(Fail::new("no formula is shown"));
    };
    let Some(end) = shown.iter().position(|byte| *byte == b'\n') else {
        return Err(Fail::new("the formula has no end"));
    };
    let mut input = shown[..end + 1].to_vec(alloc)?;
    input.extend_from_slice(b"---\n")?;
    input.extend_from_slice(&shown[end + 1..])?;
    assert!(rt; call.status == Status::Good);
    shows(
        &rt,
        alloc,
        Program::Black,
        "check",
        &input,
        b"VERIFIED\n",
        Status::Good,
    )
}
