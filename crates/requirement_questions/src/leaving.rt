// Given formulas that cannot be with what is asked: as few as can be shown. They are left out from the last
// to the first, and one stays out where the rest still cannot be. Several at once are tried where those
// behind them could be left out, so few questions are asked where most of them stay out.
ghost use Rattle.std.specs.Prelude.{◌≡◌, ◌<◌, ◌≤◌, ◌+◌, ◌-◌, ◌*◌, true, length, IfOk};
ghost use Rattle.requirement_questions.specs.Formulas.{IsQuestion};
ghost use Rattle.requirement_questions.specs.Members.{places, counted};
ghost use Rattle.requirement_questions.specs.Answer.{IsBecause};
ghost use Rattle.requirement_questions.specs.Settling.{IsRefuted, IsMade, IsNoted};

use crate::members::{Member, mark, others};
use crate::questions::{Limits, Question};
use crate::settling::{Refuted, Settled, settle};
use claim_check::Certificate;
use claims::laws;
use ltl_syntax::FormulaTable;
use std::alloc::{AllocError, Global};

/// Some of the given formulas that no trace of the kind satisfies with what is asked.
#[derive(Drop)]
pub struct Because {
    /// In the order in which they are given.
    pub members: Vec<Member>,
    /// Lawful for the formula that says that the members hold, and what is asked.
    pub certificate: Certificate,
    /// This formula.
    pub table: FormulaTable,
    pub root: u32,
}

/// What is tried next: members before this place, at most this many at once.
#[derive(Clone, Copy)]
struct Stretch {
    end: usize,
    width: usize,
}

/// As few of the members as can be shown: each that could be left out is, within the limits.
pub fn fewest(
    alloc: Global,
    question: &Question<'_>,
    limits: Limits,
    because: Box<Because>,
) -> Result<Box<Because>, AllocError>
    requires question { IsQuestion question.now }
    requires because { IsBecause question.now because.value }
    ensures { IfOk result (λ fewer. IsBecause question.now fewer.value) }
{
    let mut because = because;
    let mut next = Stretch {
        end: because.members.len(),
        width: 1,
    };
    'stretches: while next.end > 0 {
        let count = because.members.len();
        let first = next.end.saturating_sub(next.width);
        because = tried(alloc, question, limits, because, first, next.end)?;
        next = behind(first, next.end, because.members.len() < count);
    }
    Ok(because)
}

/// What is tried behind a stretch: one before it, twice as long, where it was left out, and else half of it,
/// or what stands before the one.
fn behind(first: usize, end: usize, is_left_out: bool) -> Stretch
    requires { first < end }
    ensures some { 0 < result.width }
    ensures low { result.end ≤ end }
    ensures left_out { is_left_out ≡ true → result.end ≡ first }
    ensures less { 3 * result.end + result.width < 3 * end + (end - first) }
{
    let width = end - first;
    if is_left_out {
        return Stretch {
            end: first,
            width: width.saturating_add(width),
        };
    }
    if width == 1 {
        return Stretch {
            end: first,
            width: 1,
        };
    }
    Stretch {
        end,
        width: width / 2,
    }
}

/// What is left of them where those from the first place on to before the end are left out, if that is shown.
/// Where it is one, and it is shown that it cannot be, it is marked as needed.
fn tried(
    alloc: Global,
    question: &Question<'_>,
    limits: Limits,
    because: Box<Because>,
    first: usize,
    end: usize,
) -> Result<Box<Because>, AllocError>
    requires question { IsQuestion question.now }
    requires because { IsBecause question.now because.value }
    requires order { first < end }
    requires there { end ≤ length because.value.members.items }
    ensures because { IfOk result (λ rest. IsBecause question.now rest.value) }
    ensures many { IfOk result (λ rest. length because.value.members.items
        ≤ length rest.value.members.items + (end - first)) }
{
    laws::nothing_satisfies();
    let rest = others(alloc, &because.members, first, end)?;
    match settle(alloc, question, &rest, limits)? {
        Settled::Impossible(refuted) => because_of(alloc, rest, refuted),
        Settled::Possible(_) => Ok(noted(because, first, end)),
        Settled::Undecided | Settled::TooLarge => Ok(because),
    }
}

/// What is known where a trace satisfies the rest. If one member was left out, that one is needed; of several
/// it is not known which.
fn noted(because: Box<Because>, first: usize, end: usize) -> Box<Because>
    requires order { first < end }
    requires there { end ≤ length because.value.members.items }
    ensures { IsNoted because.value first (end - first) result.value }
{
    if end - first != 1 {
        return because;
    }
    let mut because = because;
    mark(&mut because.members, first);
    because
}

/// All given formulas, none of which is marked as needed.
pub fn all_because(
    alloc: Global,
    question: &Question<'_>,
    members: Vec<Member>,
    refuted: Box<Refuted>,
) -> Result<Box<Because>, AllocError>
    requires members { members.items ≡ counted (length question.now.given.now) }
    requires refuted { IsRefuted question.now (places members.items) refuted.value.certificate
        refuted.value.table refuted.value.root }
    ensures { IfOk result (λ all. IsBecause question.now all.value) }
{
    laws::nothing_satisfies();
    because_of(alloc, members, refuted)
}

/// Some members, together with the formula that they make and the certificate that refutes it.
fn because_of(
    alloc: Global,
    members: Vec<Member>,
    refuted: Box<Refuted>,
) -> Result<Box<Because>, AllocError>
    ensures { IfOk result (λ b. IsMade members.items refuted.value b.value) }
{
    let refuted = Box::into_inner(refuted);
    let because = Because {
        members,
        certificate: refuted.certificate,
        table: refuted.table,
        root: refuted.root,
    };
    Ok(Box::new(alloc, because)?)
}
