// `solve --core` on formulas that were worked by hand.
use super::watched;
use crate::calls::{Program, shows};
use crate::gates::{Meeting, Roll};
use black_top::Status;
use std::test::Fail;

const CONFLICT: &[u8] = b"p & !p & G q";

const CONFLICT_SHOWN: &[u8] = b"UNSAT 0\ncore ((p & !p) & {0})\n";

/// Options, a formula, and what is printed of it.
type Row = (&'static str, &'static [u8], &'static [u8]);

const ROWS: &[Row] = &[
    ("", CONFLICT, CONFLICT_SHOWN),
    (
        "",
        b"G F p & G !p & r",
        b"UNSAT 2\ncore ((G F p & G !p) & {0})\n",
    ),
    (
        "--finite",
        b"G F p & G !p & r",
        b"UNSAT 1\ncore ((G F p & G !p) & {0})\n",
    ),
    (
        "",
        b"(q | r) & p & X q & !p",
        b"UNSAT 0\ncore ((({0} & p) & {1}) & !p)\n",
    ),
    ("", b"false", b"UNSAT 0\ncore false\n"),
    ("--finite", b"X false", b"UNSAT 1\ncore X false\n"),
];

/// The number of workers changes nothing.
#[test]
fn cores(rt: HostRuntime) -> Result<(), Fail> {
    let alloc = rt.alloc();
    for workers in [1, 2, 4, 16] {
        for (options, formula, output) in ROWS {
            let words = format!(in alloc; "solve --core --workers {workers} {options}")?;
            shows(
                &rt,
                alloc,
                Program::Black,
                &words,
                formula,
                output,
                Status::Unsat,
            )?;
        }
    }
    Ok(())
}

/// Where there is a trace, and where it is undecided, `--core` changes nothing. Without it no core is shown.
#[test]
fn no_core(rt: HostRuntime) -> Result<(), Fail> {
    let alloc = rt.alloc();
    let p = b"SAT 0\n{\"kind\":\"infinite\",\"loop\":[[]],\"stem\":[[\"p\"]]}\n".as_slice();
    let table: [(&str, &[u8], &[u8], Status); 4] = [
        ("solve --core", b"p", p, Status::Sat),
        (
            "solve --core --depth 1",
            b"G F p & G !p",
            b"UNDECIDED 1\n",
            Status::Undecided,
        ),
        ("solve --workers 2", CONFLICT, b"UNSAT 0\n", Status::Unsat),
        (
            "solve --core",
            b"p &",
            b"grammar fault at byte 3\n",
            Status::Text,
        ),
    ];
    for (words, input, output, status) in &table {
        shows(&rt, alloc, Program::Black, words, input, output, *status)?;
    }
    Ok(())
}

/// Two tests are done at once.
#[test]
fn tests_meet(rt: HostRuntime) -> Result<(), Fail> {
    let gate = Meeting::new();
    let words = "solve --core --workers 2";
    let status = watched(&rt, rt.alloc(), words, CONFLICT, CONFLICT_SHOWN, &gate)?;
    assert!(rt; status == Status::Unsat && gate.met());
    Ok(())
}

/// Workers, and how often each number of a test is told for the conflict: its seven occurrences are tested in
/// turn until the sixth is replaced, and then the five that are kept once more. Each group of as many tests
/// as there are workers is a phase of its own, numbered from 0.
const TOLD: &[(u32, [u64; 7])] = &[
    (1, [11, 0, 0, 0, 0, 0, 0]),
    (2, [6, 5, 0, 0, 0, 0, 0]),
    (16, [2, 2, 2, 2, 2, 1, 1]),
];

#[test]
fn tests_are_told_once(rt: HostRuntime) -> Result<(), Fail> {
    let alloc = rt.alloc();
    for (workers, told) in TOLD {
        let gate = Roll::new(alloc)?;
        let words = format!(in alloc; "solve --core --workers {workers}")?;
        let status = watched(&rt, alloc, &words, CONFLICT, CONFLICT_SHOWN, &gate)?;
        assert!(rt; status == Status::Unsat);
        for piece in 0..65u32 {
            assert!(rt; gate.count(piece) == *told.get(piece as usize).unwrap_or(&0));
        }
    }
    Ok(())
}
