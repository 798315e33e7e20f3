// What one worker does, in an area of its own: it judges the lines of its piece up to the first bad one. A
// line may name earlier lines whether these are hinted steps or not, so nothing of one piece is asked in
// another.
ghost use Rattle.std.specs.Prelude.{◌≡◌, ◌+◌, ◌-◌, ◌<◌, ◌≤◌, ◌↔◌, IsTrue, length};
ghost use Rattle.cnf_base.specs.Known.{AreKnown};
ghost use Rattle.cert_text.specs.Live.{lines_of, live_at, IsGoodLine};
ghost use Rattle.log_checker.specs.Values.{letters_in};
ghost use Rattle.log_checker.specs.Judging.{IsFirstBad};
ghost use Rattle.log_checker.specs.Pieces.{AreCuts, IsJudged};

use crate::assignment::Assignment;
use crate::judge::{NamedClauses, NamedLines, judge};
use cert_text::{CertView, Literals};
use ltl_io::Gate;

/// What one worker works in, and what it answers.
#[derive(Drop)]
pub struct Area {
    pub assignment: Assignment,
    /// The first line of its piece that is no hinted step, counted from 0.
    pub first_bad: Option<u64>,
    /// Keeps areas that stand side by side out of one another's cache lines, since each worker writes into
    /// its own with each literal.
    pub apart: [u64; 16],
}

/// The lines that are live at a line.
#[derive(Drop)]
struct LinesAt<'v, 't> {
    view: &'v CertView<'t>,
    line: u64,
    ghost from_one: { 1 ≤ line },
    ghost within: { line ≤ length (lines_of view.now.parts) },
}

impl<'v, 't> NamedLines for LinesAt<'v, 't> {
    ghost use Rattle.std.specs.Prelude.{◌-◌};
    ghost use Rattle.cert_text.specs.Live.{live_at};

    type Found = Literals<'t>;

    ghost lines = { λ at number. live_at at.view.now.parts (at.line - 1) number };

    fn find(&self, number: u64) -> Option<Literals<'t>> {
        if number < 1 {
            return None;
        }
        if number >= self.line {
            return None;
        }
        if self.view.last_user(number) < self.line {
            return None;
        }
        Some(self.view.literals(number))
    }
}

/// Judges the piece of the worker's number, up to its first bad line.
pub fn judge_piece<C: NamedClauses, G: Gate>(
    view: &CertView<'_>,
    clauses: &C,
    gate: &G,
    area: &mut Area,
    worker: usize,
    cuts: &Vec<u64>,
)
    requires known { AreKnown (letters_in area.old.assignment) (C.clauses clauses.now) }
    requires cuts { AreCuts cuts.now.items (length (lines_of view.now.parts)) }
    requires piece { worker + 1 < length cuts.now.items }
    requires few { worker < 16 }
    ensures judged { IsJudged (C.clauses clauses.now) view.now.parts cuts.now.items worker area.new }
    ensures size { length area.new.assignment ≡ length area.old.assignment }
{
    gate.begin(worker as u32);
    area.first_bad = first_bad(
        &mut area.assignment,
        view,
        clauses,
        cuts[worker],
        cuts[worker + 1],
    );
}

/// The first of these lines that is no hinted step. Lines are counted from 0 here.
fn first_bad<C: NamedClauses>(
    assignment: &mut Assignment,
    view: &CertView<'_>,
    clauses: &C,
    from: u64,
    to: u64,
) -> Option<u64>
    requires known { AreKnown (letters_in assignment.old) (C.clauses clauses.now) }
    requires order { from ≤ to }
    requires within { to ≤ length (lines_of view.now.parts) }
    ensures first { IsFirstBad (IsGoodLine (C.clauses clauses.now)
        (letters_in assignment.old) view.now.parts) from to result }
    ensures size { length assignment.new ≡ length assignment.old }
{
    'lines: for index in from..to {
        if !is_good(assignment, view, clauses, index + 1) {
            return Some(index);
        }
    }
    None
}

/// Whether the line is a hinted step over the lines that are live at it.
fn is_good<C: NamedClauses>(
    assignment: &mut Assignment,
    view: &CertView<'_>,
    clauses: &C,
    line: u64,
) -> bool
    requires known { AreKnown (letters_in assignment.old) (C.clauses clauses.now) }
    requires from_one { 1 ≤ line }
    requires within { line ≤ length (lines_of view.now.parts) }
    ensures good { IsTrue result ↔ IsGoodLine (C.clauses clauses.now)
        (letters_in assignment.old) view.now.parts (line - 1) }
    ensures size { length assignment.new ≡ length assignment.old }
{
    let lines = LinesAt { view, line };
    judge(
        assignment,
        clauses,
        &lines,
        view.literals(line),
        view.hints(line),
    )
}
