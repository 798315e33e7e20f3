// What is found in runs that were worked by hand, and rows that are read from the values of letters.
ghost use Rattle.std.specs.Prelude.{◌≤◌, ◌<◌, length, slice_index_or, false};
ghost use Rattle.demand.specs.Reading.{HasRoom};

use crate::formulas::{closure_of, formula};
use cnf_base::Letter;
use demand::{
    Constraint, Pruned, Pruning, Row, Values, close_of, first_difference, prunings, read_rows,
    refuse_loops,
};
use enc_layout::Layout;
use ltl_closure::Closure;
use ltl_run::Close;
use ltl_syntax::Kind;
use std::alloc::Global;
use std::process::Abort;

/// A state: two places of the carry, whether its one eventuality is pending, whether it is fulfilled, and the
/// one request that the end refuses.
type State = [u8; 5];

const CLOSES: &[(Kind, &[State], Option<Close>)] = &[
    // Nothing is asked at the end.
    (Kind::Infinite, &[*b"10101", *b"10000"], Some(Close::Empty)),
    // The carry comes again, and the eventuality is fulfilled in between.
    (
        Kind::Infinite,
        &[*b"10101", *b"01111", *b"10101"],
        Some(Close::Loop(0)),
    ),
    // The carry differs at its second place.
    (Kind::Infinite, &[*b"10101", *b"01111", *b"11101"], None),
    // The eventuality is fulfilled at the first state alone, so not after it.
    (Kind::Infinite, &[*b"10111", *b"01101", *b"10101"], None),
    // To the nearest of two.
    (
        Kind::Infinite,
        &[*b"10111", *b"10111", *b"10111"],
        Some(Close::Loop(1)),
    ),
    (Kind::Finite, &[*b"10000"], Some(Close::End)),
    (Kind::Finite, &[*b"10101"], None),
];

const PRUNINGS: &[(Kind, &[State], &[Pruned])] = &[
    // One carry three times and four times, with nothing new.
    (
        Kind::Infinite,
        &[*b"10101", *b"10101", *b"10101", *b"10101"],
        &[
            Pruned {
                state: 2,
                by: Pruning::Triple(0, 1),
            },
            Pruned {
                state: 3,
                by: Pruning::Triple(1, 2),
            },
        ],
    ),
    // Fulfilled for the first time since the second of them.
    (Kind::Infinite, &[*b"10101", *b"10101", *b"10111"], &[]),
    // Twice only.
    (Kind::Infinite, &[*b"10101", *b"01101", *b"10101"], &[]),
    (
        Kind::Finite,
        &[*b"10101", *b"01101", *b"10101"],
        &[Pruned {
            state: 2,
            by: Pruning::Pair(0),
        }],
    ),
    (Kind::Finite, &[*b"10101", *b"01101", *b"11101"], &[]),
];

/// A run that closes nowhere: to its first state for a place of the carry, to its second one because the
/// eventuality is not fulfilled after it.
const OPEN: &[State] = &[*b"10101", *b"01111", *b"11101"];

const FIRST_LOOP: Constraint = Constraint::Loop {
    earlier: 0,
    later: 2,
};

const FIRST_PLACE: Constraint = Constraint::Place {
    earlier: 0,
    later: 2,
    place: 1,
    value: false,
};

const SECOND_FULFILMENT: Constraint = Constraint::Fulfilment {
    earlier: 1,
    later: 2,
    eventuality: 0,
};

const SECOND_LOOP: Constraint = Constraint::Loop {
    earlier: 1,
    later: 2,
};

const SECOND_PLACE: Constraint = Constraint::Place {
    earlier: 1,
    later: 2,
    place: 0,
    value: false,
};

/// What is taken at the first turn, and at one where two are taken of each.
const REFUSED: &[(u32, &[Constraint])] = &[
    (0, &[FIRST_LOOP, FIRST_PLACE, SECOND_FULFILMENT]),
    (
        4,
        &[
            FIRST_LOOP,
            FIRST_PLACE,
            SECOND_FULFILMENT,
            SECOND_LOOP,
            SECOND_PLACE,
        ],
    ),
];

fn values_of(rt: &impl Abort, alloc: Global, bytes: &[u8]) -> Vec<bool> {
    let values: Result<Vec<bool>, _> = bytes.iter().map(|byte| *byte == b'1').collect(alloc);
    values.expect(rt, "memory")
}

fn row_of(rt: &impl Abort, alloc: Global, state: &State) -> Row {
    Row {
        carry: values_of(rt, alloc, &state[0..2]),
        pending: values_of(rt, alloc, &state[2..3]),
        fulfilled: values_of(rt, alloc, &state[3..4]),
        refused: values_of(rt, alloc, &state[4..5]),
    }
}

fn rows_of(rt: &impl Abort, alloc: Global, states: &[State]) -> Vec<Row> {
    let mut rows = Vec::new(alloc);
    for state in states {
        rows.push(row_of(rt, alloc, state)).expect(rt, "memory");
    }
    assert!(rt; 0 < rows.len() && rows.len() <= 1001);
    rows
}

#[test]
fn closes(rt: HostRuntime) {
    for (kind, states, want) in CLOSES {
        let rows = rows_of(&rt, rt.alloc(), states);
        assert!(rt; 0 < rows.len() && rows.len() <= 1001);
        assert!(rt; close_of(*kind, &rows) == *want);
    }
}

#[test]
fn prunes(rt: HostRuntime) {
    for (kind, states, want) in PRUNINGS {
        let rows = rows_of(&rt, rt.alloc(), states);
        assert!(rt; rows.len() <= 1001);
        let found = prunings(rt.alloc(), *kind, &rows).expect(&rt, "memory");
        assert!(rt; found.as_slice() == *want);
    }
}

#[test]
fn refuses(rt: HostRuntime) {
    let rows = rows_of(&rt, rt.alloc(), OPEN);
    assert!(rt; 0 < rows.len() && rows.len() <= 1001);
    for (turn, want) in REFUSED {
        let found = refuse_loops(rt.alloc(), &rows, *turn).expect(&rt, "memory");
        assert!(rt; found.as_slice() == *want);
    }
}

#[test]
fn differs(rt: HostRuntime) {
    assert!(rt; first_difference(&[true, false], &[true, true]) == Some(1));
    assert!(rt; first_difference(&[true], &[true, false]) == Some(1));
    assert!(rt; first_difference(&[true, false], &[true, false]).is_none());
}

/// The values of letters, by their numbers.
#[derive(Drop)]
struct Stored<'v> {
    values: &'v [bool],
}

impl<'v> Values for Stored<'v> {
    ghost room = { λ s. length s.values.now };

    ghost values = { λ s n. slice_index_or s.values.now n false };

    fn value(&self, letter: Letter) -> bool {
        self.values[letter.0 as usize]
    }
}

/// The rows of the states 0 to depth.
fn read(
    rt: &impl Abort,
    alloc: Global,
    closure: &Closure<'_>,
    values: &[bool],
    depth: u32,
) -> Vec<Row> {
    assert!(rt; depth <= 1000);
    let layout = Layout::of(closure);
    assert!(rt; layout.fits(depth));
    assert!(rt; layout.letters_through(depth) < values.len() as u64);
    let values = Stored { values };
    read_rows(alloc, closure, &values, depth).expect(rt, "memory")
}

// `F p`: the entries are true, p, F p and X F p. The letters of the entries of step 0 are 6 to 9, those of
// step 1 are 15 to 18. At step 0 the request is true, at step 1 the letter p is.
#[test]
fn reads_rows(rt: HostRuntime) {
    let (table, root) = formula(&rt, rt.alloc(), "F p");
    let closure = closure_of(&rt, rt.alloc(), &table, root, Kind::Infinite);
    let mut values = [false; 30];
    values[9] = true;
    values[16] = true;
    let rows = read(&rt, rt.alloc(), &closure, &values, 1);
    assert!(rt; rows.len() == 2);
    for (row, request) in rows.iter().zip([true, false]) {
        assert!(rt; row.carry.as_slice() == [request].as_slice());
        assert!(rt; row.pending.as_slice() == [request].as_slice());
        assert!(rt; row.fulfilled.as_slice() == [!request].as_slice());
        assert!(rt; row.refused.as_slice() == [request].as_slice());
    }
}
