// What the search finds is lawful, it refutes within a known number of questions, it ends where a formula has
// a trace, and its certificate is the same however its questions are cut into calls.
ghost use Rattle.std.specs.Prelude.{◌≤◌, length};

use crate::building::formula;
use claim_check::{Certificate, ClaimVerdict, HintedLines, check};
use claim_search::{Progress, Search};
use cnf_base::{Clauses, Hint, Literal};
use ltl_closure::Closure;
use ltl_syntax::Kind;
use std::alloc::{AllocError, Global};
use std::process::Abort;

/// A formula, and how many questions are enough to refute it, or are tried.
type Row = (&'static str, u64);

/// What a search came to, and a number that stands for its certificate.
#[derive(Clone, Copy, Debug, PartialEq, Eq)]
enum Outcome {
    Lawful(u64),
    Unlawful,
    Ended,
    Open,
}

fn add(sum: u64, number: u64) -> u64 {
    sum.wrapping_mul(31).wrapping_add(number)
}

fn add_clause(sum: u64, clause: &[Literal]) -> u64 {
    let mut sum = add(sum, 1);
    for literal in clause {
        sum = add(add(sum, literal.letter.0 as u64), literal.negated as u64);
    }
    sum
}

fn add_hints(sum: u64, hints: &[Hint]) -> u64 {
    let mut sum = add(sum, 2);
    for hint in hints {
        sum = match *hint {
            Hint::Clause(number) => add(add(sum, 3), number),
            Hint::Line(number) => add(add(sum, 4), number),
        };
    }
    sum
}

fn add_lines(sum: u64, lines: &HintedLines) -> u64 {
    let mut sum = add(sum, 5);
    for line in 0..lines.literals.count() {
        sum = add_clause(sum, lines.literals.clause(line + 1));
        sum = add_hints(sum, lines.hints_at(line as usize));
    }
    sum
}

/// A number that differs for most certificates that differ.
fn sum_of(certificate: &Certificate) -> u64 {
    let mut sum = certificate.target;
    for layer in &certificate.layers {
        sum = add_lines(add_lines(sum, &layer.base_lines), &layer.step_lines);
    }
    add_lines(sum, &certificate.lines)
}

/// What a search comes to that is asked for `step` questions at a time.
fn found(search: &mut Search<'_>, questions: u64, step: u64) -> Result<Progress, AllocError> {
    for _ in 0..questions {
        if search.asked() >= questions {
            return Ok(Progress::More);
        }
        match search.advance(step)? {
            Progress::More => {}
            last => return Ok(last),
        }
    }
    Ok(Progress::More)
}

fn searched(rt: &impl Abort, alloc: Global, kind: Kind, row: Row, step: u64) -> Outcome {
    let (text, questions) = row;
    let (table, root) = formula(rt, alloc, text);
    assert!(rt; root < table.len());
    let closure = Closure::of(alloc, &table, root, kind).expect(rt, "memory");
    let mut search = Search::new(alloc, &closure, kind).expect(rt, "memory");
    match found(&mut search, questions, step).expect(rt, "memory") {
        Progress::More => Outcome::Open,
        Progress::Ended => Outcome::Ended,
        Progress::Found(certificate) => {
            match check(alloc, &closure, kind, &certificate).expect(rt, "memory") {
                ClaimVerdict::Verified => Outcome::Lawful(sum_of(&certificate)),
                ClaimVerdict::Refused(_) => Outcome::Unlawful,
            }
        }
    }
}

// Two bits count up, and never come to both; a finite trace ends before.
const STUCK: &str =
    "!a & !b & G (a <-> X !a) & G (a -> (b <-> X !b)) & G (!a -> (b <-> X b)) & G !(a & b)";

// A token goes round, a counter runs beside it, and once in a while is never.
const BESIDE: &str = "p0 & G (p0 -> X p1) & G (p1 -> X p2) & G (p2 -> X p0) \
    & (G !(p0 & p1) & G !(p1 & p2) & G !(p2 & p0)) & (!a & G (a <-> X !a)) & G F q & F G !q";

// Three eventualities that come again are never met together with one another, nor after.
const CLASH: &str = "G F p & G F q & G F r & G (p -> X G !q) & G (q -> X G !r) & G (r -> X G !p)";

// Two registers are fed alike, and differ at their ends.
const TWINS: &str = "G (a <-> b) & (!c & !d & !e & !f) & (G (X c <-> a) & G (X d <-> b)) \
    & (G (X e <-> c) & G (X f <-> d)) & F !(e <-> f)";

// Each of three finds a hole of two, again and again.
const PIGEONS: &str = "G F (a0 | a1) & G F (b0 | b1) & G F (c0 | c1) \
    & (G (a0 -> G a0) & G (a1 -> G a1) & G (b0 -> G b0) & G (b1 -> G b1) \
    & G (c0 -> G c0) & G (c1 -> G c1)) \
    & (G !(a0 & b0) & G !(a0 & c0) & G !(b0 & c0)) & (G !(a1 & b1) & G !(a1 & c1) & G !(b1 & c1))";

// An answer comes within five steps, and once it does not. Without lifting it takes thrice as many questions.
const TIGHT: &str = "G (p -> (s | X (s | X (s | X (s | X s))))) \
    & F (p & !s & X (!s & X (!s & X (!s & X !s))))";

const REFUTED: &[Row] = &[
    ("false", 20),
    ("G F p & G !p", 50),
    ("G F p & F G !p", 200),
    ("G F (p & Y q) & F G !q", 300),
    ("G (p -> O q) & (H !q & F p & G !q)", 150),
    ("(p U q) & G !q", 100),
    ("X X X p & wX wX wX !p", 200),
    (STUCK, 300),
    (BESIDE, 500),
    (CLASH, 300),
    (TWINS, 1000),
    (TIGHT, 350),
    (PIGEONS, 2000),
];

const REFUTED_OVER_FINITE: &[Row] = &[
    ("false", 20),
    ("G X p", 50),
    ("G F p & G (p -> X !p)", 100),
    (
        "F p & F q & G !(p & q) & G (p -> wX G !q) & G (q -> wX G !p)",
        200,
    ),
    ("G (p -> X q) & G (q -> X p) & F p", 300),
    ("F (p & Y q) & H !q & G !q", 100),
    (TWINS, 1000),
    (TIGHT, 350),
];

const ENDED: &[Row] = &[
    ("true", 100),
    ("G F p & G F !p", 500),
    ("G (p -> F q) & G F p & G (q -> O p)", 1000),
    ("G (p <-> X !p) & G (q -> Y p) & F q", 1000),
    ("(p U q) & G (q -> X p) & F G !r", 500),
    ("G F (p & X q) & G F !p & G (q -> X X !q)", 500),
];

const ENDED_OVER_FINITE: &[Row] = &[
    ("true", 100),
    (STUCK, 100),
    ("F p & G (p -> X q)", 500),
    ("X X X !p & wX p & H q", 500),
    ("G (p <-> wX !p) & F (q & !Y p)", 500),
];

fn are_refuted(rt: &impl Abort, alloc: Global, kind: Kind, rows: &[Row]) {
    for row in rows {
        let found = searched(rt, alloc, kind, *row, 64);
        assert!(rt; matches!(found, Outcome::Lawful(_)));
    }
}

fn are_ended(rt: &impl Abort, alloc: Global, kind: Kind, rows: &[Row]) {
    for row in rows {
        let found = searched(rt, alloc, kind, *row, 64);
        assert!(rt; matches!(found, Outcome::Ended));
    }
}

fn are_the_same(rt: &impl Abort, alloc: Global, kind: Kind, rows: &[Row]) {
    for row in rows {
        if row.1 <= 300 {
            let whole = searched(rt, alloc, kind, *row, 1_000_000);
            assert_eq!(rt; searched(rt, alloc, kind, *row, 1), whole);
            assert_eq!(rt; searched(rt, alloc, kind, *row, 7), whole);
        }
    }
}

#[test]
fn refutes_within_so_many_questions(rt: HostRuntime) {
    are_refuted(&rt, rt.alloc(), Kind::Infinite, REFUTED);
    are_refuted(&rt, rt.alloc(), Kind::Finite, REFUTED_OVER_FINITE);
}

#[test]
fn ends_where_there_is_a_trace(rt: HostRuntime) {
    are_ended(&rt, rt.alloc(), Kind::Infinite, ENDED);
    are_ended(&rt, rt.alloc(), Kind::Finite, ENDED_OVER_FINITE);
}

#[test]
fn finds_the_same_by_any_steps(rt: HostRuntime) {
    are_the_same(&rt, rt.alloc(), Kind::Infinite, REFUTED);
    are_the_same(&rt, rt.alloc(), Kind::Finite, REFUTED_OVER_FINITE);
}
