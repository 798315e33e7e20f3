// Clauses that are stored for judging. Most have two or three literals. These stand as one number each beside
// one another, so that a hint costs one look into memory; the others are looked up in the list.
ghost use Rattle.std.specs.Prelude.{◌≡◌, ◌/◌, ◌<◌, List, [], ◌∷◌, ◌++◌, length, IfOk, IfSome};
ghost use Rattle.cnf_base.specs.declared.literal.Literal.{Literal};
ghost use Rattle.log_checker.specs.Values.{falses_in};
ghost use Rattle.log_checker.specs.Judging.{IsOutcome};
ghost use Rattle.log_checker.specs.Shorts.{literal_of, IsShort};

use crate::ClauseStatus;
use crate::assignment::Assignment;
use crate::judge::{NamedClauses, of_clause, with_literal};
use cnf_base::{ClauseList, Clauses, Letter, Literal};
use std::alloc::{AllocError, Global};
use std::marker::Model;

/// A clause of one to three literals: the number of each is twice its letter, and 1 more where it is negated.
#[derive(Clone, Copy, Drop)]
pub enum Short {
    One(u32),
    Two(u32, u32),
    Three(u32, u32, u32),
    /// It is longer or empty, or a letter is too great.
    Other,
}

/// A list of clauses, and for each of them the short form, where it has one: 16 bytes a clause.
#[derive(Drop)]
pub struct StoredClauses {
    list: ClauseList,
    shorts: Vec<Short>,
}

impl Model for StoredClauses {
    ghost use Rattle.std.specs.Prelude.{List};
    ghost use Rattle.cnf_base.specs.declared.literal.Literal.{Literal};
    ghost use Rattle.log_checker.specs.Shorts.{AreShorts};

    ghost Value = { List (List Literal) };

    ghost view = { λ a. a.list };

    ghost invariant = { λ a. AreShorts a.shorts.items a.list };
}

impl StoredClauses {
    /// The clauses of the list.
    pub fn of(alloc: Global, list: ClauseList) -> Result<StoredClauses, AllocError>
        ensures { IfOk result (λ stored. stored ≡ list) }
    {
        let mut shorts = Vec::with_capacity(alloc, list.count() as usize)?;
        'clauses: for index in 0..list.count() {
            shorts.push(short_of(list.clause(index + 1)))?;
        }
        Ok(StoredClauses { list, shorts })
    }
}

/// The number of a literal.
fn number_of(literal: Literal) -> Option<u32>
    ensures { IfSome result (λ n. literal_of n ≡ literal) }
{
    let letter = literal.letter.0;
    if letter >= 1 << 31 {
        return None;
    }
    if literal.negated {
        Some(2 * letter + 1)
    } else {
        Some(2 * letter)
    }
}

fn one(first: Literal) -> Short
    ensures { IsShort result (first ∷ []) }
{
    match number_of(first) {
        Some(a) => Short::One(a),
        None => Short::Other,
    }
}

fn two(first: Literal, second: Literal) -> Short
    ensures { IsShort result (first ∷ second ∷ []) }
{
    match (number_of(first), number_of(second)) {
        (Some(a), Some(b)) => Short::Two(a, b),
        _ => Short::Other,
    }
}

fn three(first: Literal, second: Literal, third: Literal) -> Short
    ensures { IsShort result (first ∷ second ∷ third ∷ []) }
{
    match (number_of(first), number_of(second), number_of(third)) {
        (Some(a), Some(b), Some(c)) => Short::Three(a, b, c),
        _ => Short::Other,
    }
}

/// The short form of a clause.
fn short_of(clause: &[Literal]) -> Short
    ensures { IsShort result clause.now }
{
    match clause.len() {
        1 => one(clause[0]),
        2 => two(clause[0], clause[1]),
        3 => three(clause[0], clause[1], clause[2]),
        _ => Short::Other,
    }
}

/// What a clause is with one more literal, that of this number.
#[inline(always)]
fn with_number(assignment: &Assignment, outcome: ClauseStatus, number: u32) -> ClauseStatus
    requires { number / 2 < length assignment.now }
    ensures { (clause : List Literal) → IsOutcome (falses_in assignment.now) clause outcome →
        IsOutcome (falses_in assignment.now) (clause ++ literal_of number ∷ []) result }
{
    let literal = Literal {
        letter: Letter(number / 2),
        negated: number % 2 == 1,
    };
    with_literal(assignment, outcome, literal)
}

fn of_one(assignment: &Assignment, a: u32) -> ClauseStatus
    requires { a / 2 < length assignment.now }
    ensures { IsOutcome (falses_in assignment.now) (literal_of a ∷ []) result }
{
    with_number(assignment, ClauseStatus::AllFalse, a)
}

fn of_two(assignment: &Assignment, a: u32, b: u32) -> ClauseStatus
    requires first { a / 2 < length assignment.now }
    requires second { b / 2 < length assignment.now }
    ensures { IsOutcome (falses_in assignment.now) (literal_of a ∷ literal_of b ∷ []) result }
{
    with_number(assignment, of_one(assignment, a), b)
}

fn of_three(assignment: &Assignment, a: u32, b: u32, c: u32) -> ClauseStatus
    requires first { a / 2 < length assignment.now }
    requires second { b / 2 < length assignment.now }
    requires third { c / 2 < length assignment.now }
    ensures { IsOutcome (falses_in assignment.now) (literal_of a ∷ literal_of b ∷ literal_of c ∷ []) result }
{
    with_number(assignment, of_two(assignment, a, b), c)
}

impl NamedClauses for StoredClauses {
    ghost clauses = { λ stored. stored };

    fn last_number(&self) -> u64 {
        self.list.count()
    }

    fn outcome(&self, assignment: &Assignment, number: u64) -> ClauseStatus {
        match self.shorts[(number - 1) as usize] {
            Short::One(a) => of_one(assignment, a),
            Short::Two(a, b) => of_two(assignment, a, b),
            Short::Three(a, b, c) => of_three(assignment, a, b, c),
            Short::Other => of_clause(assignment, &self.list, number),
        }
    }
}
