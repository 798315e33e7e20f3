// Several workers: the places of all lines are kept, the lines are judged in as many pieces, and
// targets by what the places say.
ghost use Rattle.std.specs.Prelude.{◌≡◌, ◌+◌, ◌<◌, ◌≤◌, ◌↔◌, IsTrue, IfOk};
ghost use Rattle.enc_layout.specs.Letters.{Fits};
ghost use Rattle.enc_layout.specs.Clauses.{layout_of, clause_list};
ghost use Rattle.cert_check.specs.Lawful.{IsGoodTarget};
ghost use Rattle.cert_check.specs.Answer.{answer_of, IsFirstTarget, IsJudged};

use crate::listing::stored_for;
use crate::on_demand::OnDemand;
use crate::targets::{allowed, are_among, by_targets};
use crate::verdict::{Reason, Verdict};
use cert_text::CertView;
use clause_index::Indexed;
use enc_layout::Layout;
use log_checker::{Lines, NamedClauses, Scratch, check_lines};
use ltl_closure::Closure;
use ltl_io::Gate;
use std::alloc::{AllocError, Global};
use std::thread::Threads;

/// Whether a target names a line that is live at the close and has only its literals. Targets count from 0
/// here.
fn is_good(closure: &Closure<'_>, view: &CertView<'_>, index: u32) -> bool
    requires kind { view.now.kind ≡ closure.now.kind }
    requires fits { Fits (layout_of closure.now) view.now.depth }
    requires index { index < view.now.depth + 2 }
    ensures { IsTrue result ↔ IsGoodTarget closure.now.formula view.now index }
{
    view.invariant();
    let line = view.target(index + 1);
    if line < 1 || line > view.lines() {
        return false;
    }
    if !view.live_at_close(line) {
        return false;
    }
    let (first, second) = allowed(closure, view.depth(), index);
    are_among(view.literals(line), first, second)
}

/// The first bad target, counted from 1.
fn first_bad_target(closure: &Closure<'_>, view: &CertView<'_>) -> Option<u32>
    requires kind { view.now.kind ≡ closure.now.kind }
    requires fits { Fits (layout_of closure.now) view.now.depth }
    ensures { IsFirstTarget (IsGoodTarget closure.now.formula view.now) (view.now.depth + 2) result }
{
    view.invariant();
    'targets: for index in 0..view.depth() + 2 {
        if !is_good(closure, view, index) {
            return Some(index + 1);
        }
    }
    None
}

/// The verdict on a certificate of the right kind whose letters are few enough; its text has `bytes` bytes.
pub fn judge<R: Threads + Sync, G: Gate + Sync>(
    rt: &R,
    alloc: Global,
    closure: &Closure<'_>,
    view: &CertView<'_>,
    bytes: usize,
    workers: u32,
    gate: &G,
) -> Result<Verdict, AllocError>
    requires kind { view.now.kind ≡ closure.now.kind }
    requires fits { Fits (layout_of closure.now) view.now.depth }
    requires some { 1 ≤ workers }
    requires few { workers ≤ 16 }
    ensures { IfOk result (λ v. IsJudged closure.now.formula view.now (answer_of v)) }
{
    view.invariant();
    let clauses = Indexed::of(closure, view.depth());
    match stored_for(alloc, &clauses, bytes) {
        Some(list) => judge_over(rt, alloc, closure, &list, view, workers, gate),
        None => {
            let clauses = OnDemand::of(&clauses);
            judge_over(rt, alloc, closure, &clauses, view, workers, gate)
        }
    }
}

/// The same over these clauses, however they are found.
fn judge_over<R: Threads + Sync, C: NamedClauses + Sync, G: Gate + Sync>(
    rt: &R,
    alloc: Global,
    closure: &Closure<'_>,
    clauses: &C,
    view: &CertView<'_>,
    workers: u32,
    gate: &G,
) -> Result<Verdict, AllocError>
    requires kind { view.now.kind ≡ closure.now.kind }
    requires fits { Fits (layout_of closure.now) view.now.depth }
    requires clauses { C.clauses clauses.now
        ≡ clause_list closure.now.formula closure.now.kind view.now.depth }
    requires some { 1 ≤ workers }
    requires few { workers ≤ 16 }
    ensures { IfOk result (λ v. IsJudged closure.now.formula view.now (answer_of v)) }
{
    view.invariant();
    let letters = Layout::of(closure).letters_through(view.depth()) as u32;
    let mut scratch = Scratch::new(alloc, workers, letters)?;
    match check_lines(rt, view, clauses, &mut scratch, gate) {
        Lines::FirstBad(line) => Ok(Verdict::Rejected(Reason::Line(line))),
        Lines::AllGood => Ok(by_targets(first_bad_target(closure, view))),
    }
}
