// Batches that were worked by hand.
use crate::gates::{Meeting, Roll};
use batch_run::{all_verdicts, answers, batch_text, laws};
use ltl_io::NoGate;
use ltl_syntax::Kind;
use std::alloc::Global;
use std::process::Abort;
use std::test::Fail;
use std::thread::Threads;

/// A text, the kind, the depth that is asked for, the text of the answers, and whether each is a verdict.
type Row = (&'static [u8], Kind, u32, &'static [u8], bool);

const ROWS: &[Row] = &[
    (b"", Kind::Infinite, 64, b"", true),
    (
        b"p & !p\n\nG F p & G !p\np &\n",
        Kind::Infinite,
        64,
        b"1 UNSAT 0\n3 UNSAT 2\n4 grammar fault at byte 3\n",
        false,
    ),
    // The last line has no newline.
    (
        b"\n \t\r\np $ q\nX p",
        Kind::Finite,
        64,
        b"3 lexical fault at byte 2\n4 SAT 1\n",
        false,
    ),
    (
        b"G p\nwX false\r\n",
        Kind::Finite,
        64,
        b"1 SAT 0\n2 SAT 0\n",
        true,
    ),
    (b"wX false\r\n", Kind::Infinite, 64, b"1 UNSAT 1\n", true),
    (b"X[2] false", Kind::Infinite, 1, b"1 UNDECIDED 1\n", true),
];

/// The text of a batch and whether it is clean.
fn run<R: Abort + Threads + Sync>(rt: &R, alloc: Global, row: &Row, workers: u32) -> bool {
    let (text, kind, asked, _, _) = *row;
    assert!(rt; text.len() <= 16_777_216 && asked <= 1000 && 1 <= workers && workers <= 16);
    let found = answers(rt, alloc, text, kind, asked, workers, &NoGate).expect(rt, "memory");
    let printed = batch_text(alloc, &found).expect(rt, "memory");
    assert!(rt; *printed == *row.3);
    all_verdicts(&found)
}

#[test]
fn answers_each_formula_line(rt: HostRuntime) {
    for workers in [1, 3, 16] {
        for row in ROWS {
            let clean = run(&rt, rt.alloc(), row, workers);
            assert!(rt; clean == row.4);
        }
    }
    laws::one_cut();
    laws::one_list();
    laws::verdicts();
}

#[test]
fn refuses_a_long_line(rt: HostRuntime) -> Result<(), Fail> {
    let mut text = Vec::new(rt.alloc());
    text.resize(1_048_577, b' ')?;
    text.push(b'p')?;
    let found = answers(&rt, rt.alloc(), &text, Kind::Infinite, 64, 2, &NoGate)?;
    let printed = batch_text(rt.alloc(), &found)?;
    let wanted: &[u8] = b"1 limit text 1048576\n";
    assert!(rt; *printed == *wanted);
    Ok(())
}

#[test]
fn two_lines_at_once(rt: HostRuntime) -> Result<(), Fail> {
    let gate = Meeting::new();
    answers(&rt, rt.alloc(), b"p\np\n", Kind::Infinite, 64, 2, &gate)?;
    assert!(rt; gate.met());
    Ok(())
}

/// The gate is told once of each line, and the numbers go on from group to group: over fifty lines, which are
/// more than three groups of the workers, and over three times as many lines as are decided at once.
#[test]
fn lines_are_told_once(rt: HostRuntime) -> Result<(), Fail> {
    let alloc = rt.alloc();
    for (workers, lines) in [(1u32, 50u64), (2, 50), (16, 50), (1, 131_080)] {
        let mut text = Vec::new(alloc);
        for _line in 0..lines {
            text.extend_from_slice(b"$\n")?;
        }
        assert!(rt; text.len() <= 16_777_216);
        let gate = Roll::new(alloc)?;
        let found = answers(&rt, alloc, &text, Kind::Infinite, 64, workers, &gate)?;
        assert!(rt; found.len() as u64 == lines);
        for piece in 0..64u32 {
            assert!(rt; gate.count(piece) == ((piece as u64) < lines) as u64);
        }
        assert!(rt; gate.count(64) == lines.saturating_sub(64));
    }
    Ok(())
}
