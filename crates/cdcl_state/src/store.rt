// A clause comes into the state: each of its literals once, watched by the first two. A repeated literal is
// dropped.
ghost use Rattle.std.specs.Prelude.{◌≡◌, ◌≢◌, ℕ, ◌<◌, ◌≤◌, ◌⊎◌, ◌↔◌, IsTrue, [], length, All, Contains};
ghost use Rattle.std.specs.Prelude.{OnErr, OnOk, slice_index_or};
ghost use Rattle.cdcl_watches.specs.Watching.{code, AreApart, blank};
ghost use Rattle.cnf_base.specs.Literal.{opposite};
ghost use Rattle.cdcl_trail.specs.Trail.{literals_of, literal_at};
ghost use Rattle.cdcl_propagate.specs.Visit.{HaveSame};
ghost use Rattle.cdcl_state.specs.State.{IsNamed, IsRewound, IsWatchable};

use crate::repeats::repeats;
use cdcl_analyze::Marks;
use cdcl_trail::{Assigned, encode_hint};
use cdcl_watches::Watches;
use cnf_base::{Hint, Literal};
use std::alloc::AllocError;

/// Whether the literal is among these.
pub fn has(literals: &[Literal], wanted: Literal) -> bool
    ensures { IsTrue result ↔ Contains literals.now wanted }
{
    for literal in literals {
        if *literal == wanted {
            return true;
        }
    }
    false
}

/// Puts the literal behind the others, if it is not among them.
fn insert(literal: Literal, out: &mut Vec<Literal>) -> Result<(), AllocError>
    requires apart { AreApart out.old.items }
    ensures apart { AreApart out.new.items }
    ensures kept { All (Contains out.new.items) out.old.items }
    ensures there { OnOk result (Contains out.new.items literal) }
    ensures only { All (λ l. Contains out.old.items l ⊎ (l ≡ literal)) out.new.items }
{
    if has(out, literal) {
        return Ok(());
    }
    match out.push(literal) {
        Ok(()) => {
            return Ok(());
        }
        Err(_) => {
            return Err(AllocError);
        }
    }
}

/// The clause's literals, each once.
pub fn distinct(clause: &[Literal], out: &mut Vec<Literal>) -> Result<(), AllocError>
    requires { out.old.items ≡ [] }
    ensures apart { AreApart out.new.items }
    ensures same { OnOk result (HaveSame clause.now out.new.items) }
{
    for literal in clause {
        insert(*literal, out)?;
    }
    Ok(())
}

/// Whether the literal at the place is false.
fn is_false(assigned: &Assigned, clause: &[Literal], place: usize) -> bool
    requires place { place < length clause.now }
    requires known { All (λ l. l.letter.0 < length assigned.now.values) clause.now }
    ensures { IsTrue result ↔ Contains (literals_of assigned.now.trail)
        (opposite (slice_index_or clause.now place blank)) }
{
    assigned.holds(clause[place].opposite())
}

/// When the literal at the place became false: the greater the later, and the greatest number where it is not
/// false.
fn lateness(assigned: &Assigned, clause: &[Literal], place: usize) -> usize
    requires place { place < length clause.now }
    requires known { All (λ l. l.letter.0 < length assigned.now.values) clause.now }
{
    if is_false(assigned, clause, place) {
        return assigned.place_of(clause[place].letter.0 as usize);
    }
    usize::MAX
}

/// The place, from this one on, of a literal that is not false, or else of the one that became false last.
fn latest(assigned: &Assigned, clause: &[Literal], from: usize) -> usize
    requires from { from < length clause.now }
    requires known { All (λ l. l.letter.0 < length assigned.now.values) clause.now }
    ensures { result < length clause.now }
{
    let mut found = from;
    'along: for place in from + 1..clause.len() {
        if lateness(assigned, clause, found) < lateness(assigned, clause, place) {
            found = place;
        }
    }
    found
}

/// Brings the literal to this place which of those from there on is not false, or else became false last.
fn bring(assigned: &Assigned, clause: &mut Vec<Literal>, to: usize)
    requires to { to < length clause.old.items }
    requires known { All (λ l. l.letter.0 < length assigned.now.values) clause.old.items }
    requires apart { AreApart clause.old.items }
    ensures size { length clause.new.items ≡ length clause.old.items }
    ensures known { All (λ l. l.letter.0 < length assigned.now.values) clause.new.items }
    ensures apart { AreApart clause.new.items }
    ensures same { HaveSame clause.old.items clause.new.items }
{
    let from = latest(assigned, clause, to);
    clause.swap(to, from);
}

/// Puts two literals first that are not false, or else became false last, so that the lists of what became
/// false before them need not be visited again for this clause.
pub fn lead(assigned: &Assigned, clause: &mut Vec<Literal>)
    requires known { All (λ l. l.letter.0 < length assigned.now.values) clause.old.items }
    requires apart { AreApart clause.old.items }
    ensures apart { AreApart clause.new.items }
    ensures same { HaveSame clause.old.items clause.new.items }
{
    if clause.len() < 2 {
        return;
    }
    bring(assigned, clause, 0);
    bring(assigned, clause, 1);
}

/// Whether the clause may be watched by its first two literals as it stands: no letter is in it twice, and
/// neither of the two is false.
pub fn is_ready(assigned: &Assigned, marks: &mut Marks, clause: &[Literal]) -> bool
    requires known { All (λ l. l.letter.0 < length assigned.now.values) clause.now }
    requires marks { length assigned.now.values ≤ length marks.old.stamps }
    ensures size { length marks.new.stamps ≡ length marks.old.stamps }
    ensures apart { IsTrue result → AreApart clause.now }
    ensures watchable { IsTrue result ↔ IsWatchable assigned.now.trail clause.now }
{
    if 0 < clause.len() && is_false(assigned, clause, 0) {
        return false;
    }
    if 1 < clause.len() && is_false(assigned, clause, 1) {
        return false;
    }
    !repeats(marks, clause)
}

/// Puts the clause among the watched ones, under the name of the hint. A hint whose number is beyond
/// 2,147,483,646 is refused as want of memory.
pub fn store(clause: &[Literal], hint: Hint, watches: &mut Watches) -> Result<(), AllocError>
    requires long { 2 ≤ length clause.now }
    requires apart { AreApart clause.now }
    requires fits { All (λ l. code l < length watches.old.lists) clause.now }
    ensures stored { OnOk result (IsNamed watches.old watches.new clause.now hint) }
    ensures refused { OnErr result (watches.new ≡ watches.old) }
{
    match encode_hint(hint) {
        None => Err(AllocError),
        Some(name) => watches.add(name, clause),
    }
}

/// Where the literal is false from a place below `propagated` on, that goes back to the place.
fn lower(assigned: &Assigned, literal: Literal, propagated: &mut usize)
    requires known { literal.letter.0 < length assigned.now.values }
    requires within { propagated.old ≤ length assigned.now.trail }
    ensures falls { propagated.new ≤ propagated.old }
    ensures free { (k : ℕ) → k < propagated.new → literal_at assigned.now.trail k ≢ opposite literal }
{
    if !assigned.holds(literal.opposite()) {
        return;
    }
    let place = assigned.place_of(literal.letter.0 as usize);
    if place < *propagated {
        *propagated = place;
    }
}

/// The lists from where one of the clause's first two literals became false on are visited again.
pub fn rewind(assigned: &Assigned, clause: &[Literal], propagated: &mut usize, lasting: &mut usize)
    requires long { 2 ≤ length clause.now }
    requires known { All (λ l. l.letter.0 < length assigned.now.values) clause.now }
    requires within { propagated.old ≤ length assigned.now.trail }
    requires low { lasting.old ≤ propagated.old }
    ensures { IsRewound assigned.now.trail clause.now propagated.old lasting.old propagated.new lasting.new }
{
    lower(assigned, clause[0], propagated);
    lower(assigned, clause[1], propagated);
    if *propagated < *lasting {
        *lasting = *propagated;
    }
}
