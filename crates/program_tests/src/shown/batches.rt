// `batch` on texts that were worked by hand.
use super::watched;
use crate::calls::{Program, Row, show_rows};
use crate::gates::Meeting;
use black_top::Status;
use std::test::Fail;

const LINES: &[u8] = b"p & !p\n\nG F p & G !p\np &\n";

const ANSWERS: &[u8] = b"1 UNSAT 0\n3 UNSAT 2\n4 grammar fault at byte 3\n";

const BATCHES: &[Row] = &[
    ("batch", LINES, ANSWERS, Status::Text),
    ("batch --workers 16", LINES, ANSWERS, Status::Text),
    ("batch", b"", b"", Status::Good),
    (
        "batch --depth 1",
        b"X[2] false",
        b"1 UNDECIDED 1\n",
        Status::Good,
    ),
    ("batch --finite", b"G p\r\n", b"1 SAT 0\n", Status::Good),
];

#[test]
fn batches(rt: HostRuntime) -> Result<(), Fail> {
    show_rows(&rt, rt.alloc(), Program::Black, BATCHES)
}

#[test]
fn lines_meet(rt: HostRuntime) -> Result<(), Fail> {
    let gate = Meeting::new();
    let status = watched(
        &rt,
        rt.alloc(),
        "batch --workers 2",
        b"p\np\n",
        b"1 SAT 0\n2 SAT 0\n",
        &gate,
    )?;
    assert!(rt; status == Status::Good && gate.met());
    Ok(())
}
