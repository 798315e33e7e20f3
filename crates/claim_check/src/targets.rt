// Which lines are targets.
ghost use Rattle.std.specs.Prelude.{◌+◌, ◌*◌, ◌↔◌, ◌++◌, IsTrue, All, Contains, length};
ghost use Rattle.enc_layout.specs.Targets.{IsTarget};
ghost use Rattle.claim_check.specs.Bases.{IsFound, IsHeld, IsHeldTwice};

use cnf_base::{ClauseList, Clauses, Literal};

/// Whether a target, counted from 0, names a line that has only literals of the claim and of the others.
pub fn is_target(
    lines: &ClauseList,
    targets: &[u64],
    index: usize,
    claim: &[Literal],
    others: &[Literal],
) -> bool
    ensures { IsTrue result ↔ IsTarget lines.now targets.now index (claim.now ++ others.now) }
{
    if index >= targets.len() {
        return false;
    }
    let number = targets[index];
    if number < 1 || number > lines.count() {
        return false;
    }
    let line = lines.clause(number);
    are_among(line, claim, others)
}

/// The number of the first claim for which no target names a line that has only literals of it and of the
/// others.
pub fn first_missed(
    lines: &ClauseList,
    claims: &ClauseList,
    targets: &[u64],
    others: &[Literal],
) -> Option<u64>
    ensures { IsFound (IsHeld lines.now claims.now targets.now others.now) (length claims.now) result }
{
    'claims: for place in 0..claims.count() {
        let claim = claims.clause(place + 1);
        if !is_target(lines, targets, place as usize, claim, others) {
            return Some(place + 1);
        }
    }
    None
}

/// The same where each claim has two targets, one with some literals beside its own and one with others.
pub fn first_missed_twice(
    lines: &ClauseList,
    claims: &ClauseList,
    targets: &[u64],
    some: &[Literal],
    others: &[Literal],
) -> Option<u64>
    ensures { IsFound (IsHeldTwice lines.now claims.now targets.now some.now others.now)
        (length claims.now) result }
{
    'claims: for place in 0..claims.count() {
        let claim = claims.clause(place + 1);
        if !are_two(lines, targets, place as usize, claim, some, others) {
            return Some(place + 1);
        }
    }
    None
}

/// Whether both targets of a claim, whose place counts from 0, name such a line.
fn are_two(
    lines: &ClauseList,
    targets: &[u64],
    place: usize,
    claim: &[Literal],
    some: &[Literal],
    others: &[Literal],
) -> bool
    ensures { IsTrue result ↔ (IsTarget lines.now targets.now (2 * place) (claim.now ++ some.now)
        × IsTarget lines.now targets.now (2 * place + 1) (claim.now ++ others.now)) }
{
    if place >= targets.len() / 2 {
        return false;
    }
    if !is_target(lines, targets, 2 * place, claim, some) {
        return false;
    }
    is_target(lines, targets, 2 * place + 1, claim, others)
}

/// Whether each of the literals is one of the claim's or one of the others.
pub fn are_among(literals: &[Literal], claim: &[Literal], others: &[Literal]) -> bool
    ensures { IsTrue result ↔ All (Contains (claim.now ++ others.now)) literals.now }
{
    'literals: for literal in literals {
        if !is_among(*literal, claim, others) {
            return false;
        }
    }
    true
}

/// Whether the literal is one of the claim's or one of the others.
fn is_among(literal: Literal, claim: &[Literal], others: &[Literal]) -> bool
    ensures { IsTrue result ↔ Contains (claim.now ++ others.now) literal }
{
    'claim: for own in claim {
        if *own == literal {
            return true;
        }
    }
    'others: for other in others {
        if *other == literal {
            return true;
        }
    }
    false
}
