// One line over the clauses and all lines so far, each of which it may name.
ghost use Rattle.std.specs.Prelude.{◌≡◌, ◌↔◌, IsTrue, length};
ghost use Rattle.cnf_base.specs.Known.{AreKnown};
ghost use Rattle.cnf_base.specs.Step.{IsHintedStep};
ghost use Rattle.log_checker.specs.Values.{letters_in};

use cnf_base::{ClauseList, Clauses, Hint, Literal};
use log_checker::judge::judge;
use log_checker::{Assignment, NamedLines, Rest};

/// The lines so far.
#[derive(Drop)]
struct AllLines<'l> {
    lines: &'l ClauseList,
}

impl<'l> NamedLines for AllLines<'l> {
    ghost use Rattle.cnf_base.specs.Step.{numbered};

    type Found = Rest<'l, Literal>;

    ghost lines = { λ all number. numbered all.lines.now number };

    fn find(&self, number: u64) -> Option<Rest<'l, Literal>> {
        if number < 1 {
            return None;
        }
        if number > self.lines.count() {
            return None;
        }
        Some(Rest::new(self.lines.clause(number)))
    }
}

/// Whether the line with these literals and hints is a hinted step over the clauses and the lines.
pub fn is_step(
    assignment: &mut Assignment,
    clauses: &ClauseList,
    lines: &ClauseList,
    literals: &[Literal],
    hints: &[Hint],
) -> bool
    requires { AreKnown (letters_in assignment.old) clauses.now }
    ensures judged { IsTrue result
        ↔ IsHintedStep clauses.now lines.now (letters_in assignment.old) literals.now hints.now }
    ensures size { length assignment.new ≡ length assignment.old }
{
    let lines = AllLines { lines };
    judge(
        assignment,
        clauses,
        &lines,
        Rest::new(literals),
        Rest::new(hints),
    )
}
