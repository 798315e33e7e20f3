// Closures that were worked by hand.
use crate::formulas::{closure_of, formula};
use ltl_syntax::Kind;
use std::alloc::Global;
use std::process::Abort;

/// A formula, the entries of its closure as they are printed, the number of its normal form, and which
/// entries are nexts, yesterdays and eventualities.
type Row = (
    &'static str,
    &'static str,
    u32,
    &'static [u32],
    &'static [u32],
    &'static [u32],
);

const ROWS: &[Row] = &[
    ("false", "[False]", 1, &[], &[], &[]),
    (
        "wX false",
        "[False, Next { argument: 1, weak: true }]",
        2,
        &[2],
        &[],
        &[],
    ),
    (
        "G F p",
        "[False, True, Letter(0), \
         Until { left: 2, right: 3, request: 5 }, Next { argument: 4, weak: false }, \
         Release { left: 1, right: 4, request: 7 }, Next { argument: 6, weak: true }]",
        6,
        &[5, 7],
        &[],
        &[4],
    ),
    (
        "p & !p",
        "[Letter(0), NotLetter(1), And(1, 2)]",
        3,
        &[],
        &[],
        &[],
    ),
    (
        "p W q",
        "[Letter(1), Letter(0), Or(2, 1), \
         Release { left: 1, right: 3, request: 5 }, Next { argument: 4, weak: true }]",
        4,
        &[5],
        &[],
        &[],
    ),
    (
        "H O p",
        "[False, True, Letter(0), \
         Since { left: 2, right: 3, request: 5 }, Yesterday { argument: 4, weak: false }, \
         Trigger { left: 1, right: 4, request: 7 }, Yesterday { argument: 6, weak: true }]",
        6,
        &[],
        &[5, 7],
        &[],
    ),
    (
        "F[1,2] p",
        "[Letter(0), Next { argument: 1, weak: false }, Or(1, 2), Next { argument: 3, weak: false }]",
        4,
        &[2, 4],
        &[],
        &[],
    ),
    (
        "!H[0,1] p",
        "[Letter(0), NotLetter(1), Yesterday { argument: 2, weak: false }, Or(2, 3)]",
        4,
        &[],
        &[3],
        &[],
    ),
    // The sides of an equivalence share what both have.
    (
        "p <-> (q <-> r)",
        "[Letter(0), Letter(1), Letter(2), And(2, 3), NotLetter(2), NotLetter(3), And(5, 6), \
         Or(4, 7), And(1, 8), NotLetter(1), And(2, 6), And(5, 3), Or(11, 12), And(10, 13), \
         Or(9, 14)]",
        15,
        &[],
        &[],
        &[],
    ),
];

fn is_text(found: &str, wanted: &str) -> bool {
    found == wanted
}

fn are_numbers(found: &[u32], wanted: &[u32]) -> bool {
    found == wanted
}

fn check(rt: &impl Abort, alloc: Global, row: &Row) {
    let (table, root) = formula(rt, alloc, row.0);
    let closure = closure_of(rt, alloc, &table, root, Kind::Finite);
    let found = closure.entries();
    let entries = format!(in alloc; "{found:?}").expect(rt, "memory");
    assert!(rt; is_text(&entries, row.1), "{entries}");
    assert_eq!(rt; closure.root(), row.2, "{entries}");
    assert!(rt; are_numbers(closure.nexts(), row.3), "{entries}");
    assert!(rt; are_numbers(closure.yesterdays(), row.4), "{entries}");
    assert!(rt; are_numbers(closure.eventualities(), row.5), "{entries}");
    assert!(rt; closure.kind() == Kind::Finite && closure.node() == root);
    assert!(rt; closure.table().letters() == table.letters());
}

#[test]
fn entries_with_their_numbers(rt: HostRuntime) {
    for row in ROWS {
        check(&rt, rt.alloc(), row);
    }
}

/// How many entries the formula has, and how many of them are nexts.
fn counts(rt: &impl Abort, alloc: Global, text: &str) -> (usize, usize) {
    let (table, root) = formula(rt, alloc, text);
    let closure = closure_of(rt, alloc, &table, root, Kind::Infinite);
    (closure.entries().len(), closure.nexts().len())
}

// Each range has two entries for each of its 255 steps, one of them a next, and walks its operand once.
#[test]
fn ranges_of_ranges(rt: HostRuntime) {
    let prefixes = "G[0,255] F[0,255] "
        .repeat(rt.alloc(), 32)
        .expect(&rt, "memory");
    let text = format!(in rt.alloc(); "{prefixes}p").expect(&rt, "memory");
    assert_eq!(rt; counts(&rt, rt.alloc(), &text), (64 * 510 + 1, 64 * 255));
}

// 40 equivalences, each the left operand of the one before. Each of the 41 letters stands there and negated;
// each equivalence has three entries and its negation three more, but for the first, whose negation is not
// there. Were a node walked once for each of its occurrences in the normal form, this would take 2 ^ 40
// steps.
#[test]
fn equivalences_are_walked_once(rt: HostRuntime) {
    let mut text = String::from_str(rt.alloc(), "p0").expect(&rt, "memory");
    for number in 1..41 {
        let next = format!(in rt.alloc(); " <-> p{number}").expect(&rt, "memory");
        text.push_str(&next).expect(&rt, "memory");
    }
    assert_eq!(rt; counts(&rt, rt.alloc(), &text), (41 * 2 + 39 * 6 + 3, 0));
}

fn is_bound(rt: &impl Abort, alloc: Global, text: &str, kind: Kind, bound: u32) -> bool {
    let (table, root) = formula(rt, alloc, text);
    let closure = closure_of(rt, alloc, &table, root, kind);
    assert!(rt; 1 <= bound && bound <= 1_000);
    closure.bound_at_most(bound) && !closure.bound_at_most(bound - 1)
}

#[test]
fn bounds(rt: HostRuntime) {
    for (text, kind, bound) in [
        ("G F p & G !p", Kind::Infinite, 16),
        ("G F p & G !p", Kind::Finite, 8),
        ("p", Kind::Infinite, 1),
    ] {
        assert!(rt; is_bound(&rt, rt.alloc(), text, kind, bound), "{text}");
    }
}

#[test]
fn a_bound_past_every_number(rt: HostRuntime) {
    let prefixes = "X ".repeat(rt.alloc(), 130).expect(&rt, "memory");
    let text = format!(in rt.alloc(); "{prefixes}p").expect(&rt, "memory");
    let (table, root) = formula(&rt, rt.alloc(), &text);
    let closure = closure_of(&rt, rt.alloc(), &table, root, Kind::Infinite);
    assert!(rt; closure.nexts().len() == 130);
    assert!(rt; !closure.bound_at_most(1_000));
}
