// The checker that goes through a text once. It keeps the lines that are live, and judges each line when it
// comes.
ghost use Rattle.std.specs.Prelude.{◌≡◌, ◌<◌, length, IfOk, OnOk, OnErr, MatchOption};
ghost use Rattle.std.specs.Prelude.{Some, None};
ghost use Rattle.cnf_base.specs.Known.{AreKnown};
ghost use Rattle.log_checker.specs.Judging.{fresh, found, with_item, IsGoodItem, line_number, line_literals};

use crate::assignment::Assignment;
use crate::judge::{NamedClauses, judge};
use crate::kept::Kept;
use cert_text::{CertItem, Literals};
use std::alloc::{AllocError, Global};
use std::marker::Model;

/// Takes the items of one certificate text in order. Its memory follows the lines that are live, not the
/// text.
#[derive(Drop)]
pub struct LiveChecker<'t> {
    assignment: Assignment,
    kept: Kept<'t>,
}

impl<'t> Model for LiveChecker<'t> {
    ghost use Rattle.log_checker.specs.Judging.{Checker};
    ghost use Rattle.log_checker.specs.Values.{letters_in};

    ghost Value = { Checker };

    ghost view = { λ a. record {
      letters = letters_in a.assignment;
      lines = a.kept.lines;
      live = a.kept.live;
    } };
}

impl<'t> LiveChecker<'t> {
    /// No lines, over the letters from 1 to `letters`.
    pub fn new(alloc: Global, letters: u32) -> Result<LiveChecker<'t>, AllocError>
        ensures { IfOk result (λ checker. checker ≡ fresh letters) }
    {
        let assignment = Assignment::new(alloc, letters)?;
        Ok(LiveChecker {
            assignment,
            kept: Kept::new(alloc),
        })
    }

    /// Takes the next item of the text. A line is kept, whether it is a hinted step over the live lines or
    /// not, and the answer is whether it is one; a delete drops the lines that it names. The answer to a
    /// delete and to the close is true. After want of memory the checker is as before.
    pub fn take<C: NamedClauses>(
        &mut self,
        item: CertItem<'t>,
        clauses: &C,
    ) -> Result<bool, AllocError>
        requires { AreKnown self.old.letters (C.clauses clauses.now) }
        ensures taken { OnOk result (self.new ≡ with_item self.old item.entry) }
        ensures judged { IfOk result (λ good. IsGoodItem (C.clauses clauses.now) self.old item.entry good) }
        ensures refused { OnErr result (self.new ≡ self.old) }
    {
        match item {
            CertItem::Line { literals, hints } => {
                let again = literals.again();
                let good = judge(&mut self.assignment, clauses, &self.kept, again, hints);
                self.kept.push(literals)?;
                Ok(good)
            }
            CertItem::Delete { lines } => {
                self.kept.delete(lines);
                Ok(true)
            }
            CertItem::Close { .. } => Ok(true),
        }
    }

    /// The number of live lines.
    pub fn live(&self) -> u64
        ensures { result ≡ length self.now.live }
    {
        self.kept.live()
    }

    /// The number of a live line. Live lines stand in ascending order of their numbers, and places count
    /// from 0. The cost grows with the place, that of `find` with its logarithm alone.
    pub fn live_line(&self, place: u64) -> u64
        requires { place < length self.now.live }
        ensures { result ≡ line_number self.now.live place }
    {
        self.kept.number(place)
    }

    /// The literals of the live line at a place.
    pub fn literals(&self, place: u64) -> Literals<'t>
        requires { place < length self.now.live }
        ensures { result ≡ line_literals self.now.live place }
    {
        self.kept.literals(place)
    }

    /// The literals of the line of this number, where it is live.
    pub fn find(&self, number: u64) -> Option<Literals<'t>>
        ensures { MatchOption result (found self.now.live number ≡ None)
            (λ literals. found self.now.live number ≡ Some literals) }
    {
        self.kept.line(number)
    }
}
