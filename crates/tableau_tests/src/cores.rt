// Cores that were worked by hand.
use crate::formulas::formula;
use core_extract::{core, is_refuted, laws};
use ltl_io::{Gate, NoGate};
use ltl_syntax::{Kind, has_no_fresh, print};
use std::alloc::Global;
use std::process::Abort;
use std::sync::atomic::{AtomicBool, Ordering};
use std::thread::Threads;

/// A formula, its kind, and the text of its core.
type Row = (&'static str, Kind, &'static [u8]);

const CONFLICT: Row = ("p & !p & G q", Kind::Infinite, b"((p & !p) & {0})");

const ROWS: &[Row] = &[
    CONFLICT,
    (
        "G F p & G !p & r",
        Kind::Infinite,
        b"((G F p & G !p) & {0})",
    ),
    ("false", Kind::Infinite, b"false"),
    ("X false", Kind::Finite, b"X false"),
];

fn core_text<R: Abort + Threads + Sync, G: Gate + Sync>(
    rt: &R,
    alloc: Global,
    row: &Row,
    workers: u32,
    gate: &G,
) -> Vec<u8> {
    let (table, root) = formula(rt, alloc, row.0);
    assert!(rt; root < table.len() && 1 <= workers && workers <= 16);
    let given = has_no_fresh(alloc, &table, root).expect(rt, "memory");
    assert!(rt; given);
    let refuted = is_refuted(alloc, &table, root, row.1, 64).expect(rt, "memory");
    assert!(rt; refuted);
    let found = core(rt, alloc, &table, root, row.1, 64, workers, gate).expect(rt, "memory");
    print(alloc, &found.0, found.1).expect(rt, "memory")
}

#[test]
fn leaves_what_conflicts(rt: HostRuntime) {
    for workers in [1, 2, 4, 16] {
        for row in ROWS {
            let text = core_text(&rt, rt.alloc(), row, workers, &NoGate);
            assert!(rt; *text == *row.2);
        }
    }
    laws::core_is_one();
    laws::core_exists();
    laws::core_is_least();
}

/// Piece 0 waits a while for piece 1 to begin, and notes whether it did.
#[derive(Drop)]
struct Meeting {
    second: AtomicBool,
    met: AtomicBool,
}

impl Gate for Meeting {
    fn begin(&self, piece: u32) {
        if piece == 1 {
            self.second.store(true, Ordering::SeqCst);
        }
        if piece == 0 {
            for _ in 0..1_000_000_000u32 {
                if self.second.load(Ordering::SeqCst) {
                    self.met.store(true, Ordering::SeqCst);
                    return;
                }
            }
        }
    }
}

#[test]
fn two_tests_at_once(rt: HostRuntime) {
    let gate = Meeting {
        second: AtomicBool::new(false),
        met: AtomicBool::new(false),
    };
    let text = core_text(&rt, rt.alloc(), &CONFLICT, 2, &gate);
    assert!(rt; *text == *CONFLICT.2 && gate.met.load(Ordering::SeqCst));
}
