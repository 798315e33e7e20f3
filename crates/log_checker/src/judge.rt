// Whether one line is a hinted step. Its literals are made false; then each hint but the last has to name a
// clause with one literal that is not false and has no value, which is made true, and the last one a clause
// that is false.
ghost use Rattle.std.specs.Prelude.{◌≡◌, ℕ, ◌<◌, ◌≤◌, ◌↔◌, IsTrue, List, [], ◌∷◌, ◌++◌, length};
ghost use Rattle.cnf_base.specs.declared.literal.Literal.{Literal};
ghost use Rattle.cnf_base.specs.Known.{AreKnown};
ghost use Rattle.cnf_base.specs.Step.{clause_at};
ghost use Rattle.cnf_base.specs.Among.{RefutesAmong, IsStepAmong};
ghost use Rattle.log_checker.specs.Values.{letters_in, falses_in};
ghost use Rattle.log_checker.specs.Judging.{IsOutcome, IsLineOutcome, IsHintOutcome, IsAssumed};

use crate::ClauseStatus;
use crate::assignment::{Assignment, Truth};
use crate::listed::Listed;
use cnf_base::{Clauses, Hint, Literal};

/// The clauses that hints may name, numbered from 1. Each is asked for once at a hint, so that whoever works
/// a clause out does it once, and not for each literal.
pub trait NamedClauses {
    ghost use Rattle.std.specs.Prelude.{◌≡◌, ◌≤◌, List, length};
    ghost use Rattle.cnf_base.specs.declared.literal.Literal.{Literal};
    ghost use Rattle.cnf_base.specs.Known.{AreKnown};
    ghost use Rattle.cnf_base.specs.Step.{clause_at};
    ghost use Rattle.log_checker.specs.Values.{letters_in, falses_in};
    ghost use Rattle.log_checker.specs.Judging.{IsOutcome};

    ghost clauses: { Self → List (List Literal) };

    /// The number of the last clause, 0 where there is none.
    fn last_number(&self) -> u64
        ensures { result ≡ length (clauses self.now) };

    /// What the clause of this number is under these values.
    fn outcome(&self, assignment: &Assignment, number: u64) -> ClauseStatus
        requires from_one { 1 ≤ number }
        requires in_list { number ≤ length (clauses self.now) }
        requires known { AreKnown (letters_in assignment.now) (clauses self.now) }
        ensures { IsOutcome (falses_in assignment.now) (clause_at (clauses self.now) number) result };
}

impl<C: Clauses> NamedClauses for C {
    ghost clauses = { λ c. C.clauses c };

    fn last_number(&self) -> u64 {
        self.count()
    }

    fn outcome(&self, assignment: &Assignment, number: u64) -> ClauseStatus {
        of_clause(assignment, self, number)
    }
}

/// The lines that hints may name.
pub trait NamedLines {
    ghost use Rattle.std.specs.Prelude.{◌≡◌, ℕ, List, Option, Some, None, MatchOption};
    ghost use Rattle.cnf_base.specs.declared.literal.Literal.{Literal};

    type Found: Listed<Literal> + Drop;

    ghost lines: { Self → ℕ → Option (List Literal) };

    /// The literals of the line of this number, where it may be named.
    fn find(&self, number: u64) -> Option<Self::Found>
        ensures { MatchOption result (lines self.now number ≡ None)
            (λ found. lines self.now number ≡ Some (Self.Found.items found)) };
}

/// Whether the line with these literals and hints is a hinted step. Nothing is asked of the values before,
/// and they are no answer behind; no memory is taken.
pub fn judge<C: NamedClauses, L: NamedLines, I: Listed<Literal> + Drop, H: Listed<Hint> + Drop>(
    assignment: &mut Assignment,
    clauses: &C,
    lines: &L,
    literals: I,
    hints: H,
) -> bool
    requires { AreKnown (letters_in assignment.old) (C.clauses clauses.now) }
    ensures judged { IsTrue result ↔ IsStepAmong (C.clauses clauses.now) (L.lines lines.now)
        (letters_in assignment.old) (I.items literals) (H.items hints) }
    ensures size { length assignment.new ≡ length assignment.old }
{
    assignment.clear();
    if !assume(assignment, literals) {
        return false;
    }
    refute(assignment, clauses, lines, hints)
}

/// Makes the literals false, unless there is a complementary pair or a letter that is not known.
fn assume<I: Listed<Literal> + Drop>(assignment: &mut Assignment, literals: I) -> bool
    requires { falses_in assignment.old ≡ [] }
    ensures assumed { IsAssumed (letters_in assignment.old) (I.items literals)
        (falses_in assignment.new) result }
    ensures size { length assignment.new ≡ length assignment.old }
{
    let mut rest = literals;
    'literals: while let Some(literal) = rest.take() {
        if !assignment.knows(literal) {
            return false;
        }
        match assignment.value(literal) {
            Truth::True => return false,
            Truth::False => {}
            Truth::Unset => assignment.falsify(literal),
        }
    }
    true
}

/// Whether the hints lead to a false clause.
fn refute<C: NamedClauses, L: NamedLines, H: Listed<Hint> + Drop>(
    assignment: &mut Assignment,
    clauses: &C,
    lines: &L,
    hints: H,
) -> bool
    requires { AreKnown (letters_in assignment.old) (C.clauses clauses.now) }
    ensures refuted { IsTrue result ↔ RefutesAmong (C.clauses clauses.now) (L.lines lines.now)
        (letters_in assignment.old) (falses_in assignment.old) (H.items hints) }
    ensures size { length assignment.new ≡ length assignment.old }
{
    let mut rest = hints;
    'hints: while let Some(hint) = rest.take() {
        match of_hint(assignment, clauses, lines, hint) {
            ClauseStatus::AllFalse => return rest.take().is_none(),
            ClauseStatus::Forces(literal) => assignment.falsify(literal.opposite()),
            ClauseStatus::Neither => return false,
        }
    }
    false
}

/// What the clause is that the hint names.
fn of_hint<C: NamedClauses, L: NamedLines>(
    assignment: &Assignment,
    clauses: &C,
    lines: &L,
    hint: Hint,
) -> ClauseStatus
    requires { AreKnown (letters_in assignment.now) (C.clauses clauses.now) }
    ensures { IsHintOutcome (C.clauses clauses.now) (L.lines lines.now) (letters_in assignment.now)
        (falses_in assignment.now) hint result }
{
    match hint {
        Hint::Clause(number) => {
            if number < 1 || number > clauses.last_number() {
                return ClauseStatus::Neither;
            }
            clauses.outcome(assignment, number)
        }
        Hint::Line(number) => match lines.find(number) {
            None => ClauseStatus::Neither,
            Some(literals) => of_line(assignment, literals),
        },
    }
}

/// What the clause of this number is.
pub(crate) fn of_clause<C: Clauses>(
    assignment: &Assignment,
    clauses: &C,
    number: u64,
) -> ClauseStatus
    requires from_one { 1 ≤ number }
    requires in_list { number ≤ length (C.clauses clauses.now) }
    requires known { AreKnown (letters_in assignment.now) (C.clauses clauses.now) }
    ensures { IsOutcome (falses_in assignment.now) (clause_at (C.clauses clauses.now) number) result }
{
    let mut outcome = ClauseStatus::AllFalse;
    'places: for place in 0..clauses.len(number) {
        outcome = with_literal(assignment, outcome, clauses.literal(number, place));
        if let ClauseStatus::Neither = outcome {
            return ClauseStatus::Neither;
        }
    }
    outcome
}

/// What a named line is, whose letters are not known yet to be within the greatest.
fn of_line<I: Listed<Literal> + Drop>(assignment: &Assignment, literals: I) -> ClauseStatus
    ensures { IsLineOutcome (letters_in assignment.now) (falses_in assignment.now)
        (I.items literals) result }
{
    let mut outcome = ClauseStatus::AllFalse;
    let mut rest = literals;
    'literals: while let Some(literal) = rest.take() {
        if !assignment.knows(literal) {
            return ClauseStatus::Neither;
        }
        outcome = with_literal(assignment, outcome, literal);
        if let ClauseStatus::Neither = outcome {
            return ClauseStatus::Neither;
        }
    }
    outcome
}

/// What a clause is with one more literal.
pub fn with_literal(
    assignment: &Assignment,
    outcome: ClauseStatus,
    literal: Literal,
) -> ClauseStatus
    requires { literal.letter.0 < length assignment.now }
    ensures { (clause : List Literal) → IsOutcome (falses_in assignment.now) clause outcome →
        IsOutcome (falses_in assignment.now) (clause ++ literal ∷ []) result }
{
    match assignment.value(literal) {
        Truth::False => outcome,
        Truth::True => ClauseStatus::Neither,
        Truth::Unset => match outcome {
            ClauseStatus::AllFalse => ClauseStatus::Forces(literal),
            ClauseStatus::Forces(other) => {
                if other == literal {
                    outcome
                } else {
                    ClauseStatus::Neither
                }
            }
            ClauseStatus::Neither => outcome,
        },
    }
}
