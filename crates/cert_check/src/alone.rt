// One worker: the text is gone through once, and what is kept are the lines that are live.
ghost use Rattle.std.specs.Prelude.{◌≡◌, ◌+◌, ◌<◌, ◌≤◌, ◌↔◌, IsTrue, length, slice_index_or, IfOk};
ghost use Rattle.enc_layout.specs.Letters.{Fits};
ghost use Rattle.enc_layout.specs.Clauses.{layout_of, clause_list};
ghost use Rattle.cert_text.specs.Text.{IsTextOf};
ghost use Rattle.cert_text.specs.Shape.{form_of};
ghost use Rattle.cert_text.specs.Reading.{certificate_in};
ghost use Rattle.cert_check.specs.Answer.{answer_of, IsFirstTarget, IsJudged};
ghost use Rattle.cert_check.specs.Walk.{IsGoodKept};

use crate::listing::stored_for;
use crate::on_demand::OnDemand;
use crate::targets::{allowed, are_among, by_targets};
use crate::verdict::{Reason, Verdict};
use cert_text::{CertItem, Form, Items, LineNumbers};
use clause_index::Indexed;
use enc_layout::Layout;
use log_checker::{LiveChecker, NamedClauses};
use ltl_closure::Closure;
use std::alloc::{AllocError, Global};

/// Whether a target names a line that is live and has only its literals. Targets count from 0 here.
fn is_good(
    closure: &Closure<'_>,
    depth: u32,
    checker: &LiveChecker<'_>,
    index: u32,
    target: u64,
) -> bool
    requires few { depth ≤ 1000 }
    requires fits { Fits (layout_of closure.now) depth }
    requires index { index < depth + 2 }
    ensures { IsTrue result
        ↔ IsGoodKept closure.now.formula closure.now.kind depth checker.now.live index target }
{
    match checker.find(target) {
        None => false,
        Some(literals) => {
            let (first, second) = allowed(closure, depth, index);
            are_among(literals, first, second)
        }
    }
}

/// The first bad target, counted from 1.
fn first_bad_target(
    closure: &Closure<'_>,
    depth: u32,
    checker: &LiveChecker<'_>,
    targets: LineNumbers<'_>,
) -> Option<u32>
    requires few { depth ≤ 1000 }
    requires fits { Fits (layout_of closure.now) depth }
    requires count { length targets ≡ depth + 2 }
    ensures { IsFirstTarget (λ i. IsGoodKept closure.now.formula closure.now.kind depth checker.now.live i
        (slice_index_or targets.entry i 0)) (depth + 2) result }
{
    let mut index = 0;
    'targets: for target in targets {
        if !is_good(closure, depth, checker, index, target) {
            return Some(index + 1);
        }
        index += 1;
    }
    None
}

/// The verdict on a certificate of the right kind whose letters are few enough.
pub fn judge(
    alloc: Global,
    closure: &Closure<'_>,
    form: Form,
    bytes: &[u8],
) -> Result<Verdict, AllocError>
    requires text { IsTextOf bytes.now (certificate_in bytes.now) }
    requires says { form ≡ form_of (certificate_in bytes.now) }
    requires kind { form.kind ≡ closure.now.kind }
    requires fits { Fits (layout_of closure.now) form.depth }
    ensures { IfOk result (λ v. IsJudged closure.now.formula (certificate_in bytes.now) (answer_of v)) }
{
    let clauses = Indexed::of(closure, form.depth);
    match stored_for(alloc, &clauses, bytes.len()) {
        Some(list) => judge_over(alloc, closure, &list, form, bytes),
        None => judge_over(alloc, closure, &OnDemand::of(&clauses), form, bytes),
    }
}

/// The same over these clauses, however they are found.
fn judge_over<C: NamedClauses>(
    alloc: Global,
    closure: &Closure<'_>,
    clauses: &C,
    form: Form,
    bytes: &[u8],
) -> Result<Verdict, AllocError>
    requires text { IsTextOf bytes.now (certificate_in bytes.now) }
    requires says { form ≡ form_of (certificate_in bytes.now) }
    requires kind { form.kind ≡ closure.now.kind }
    requires fits { Fits (layout_of closure.now) form.depth }
    requires clauses { C.clauses clauses.now ≡ clause_list closure.now.formula closure.now.kind form.depth }
    ensures { IfOk result (λ v. IsJudged closure.now.formula (certificate_in bytes.now) (answer_of v)) }
{
    let letters = Layout::of(closure).letters_through(form.depth) as u32;
    let mut checker = LiveChecker::new(alloc, letters)?;
    let mut left = form.lines;
    'items: for item in Items::new(bytes) {
        match item {
            CertItem::Line { literals, hints } => {
                left -= 1;
                if !checker.take(CertItem::Line { literals, hints }, clauses)? {
                    return Ok(Verdict::Rejected(Reason::Line(form.lines - left)));
                }
            }
            CertItem::Delete { lines } => {
                let _ = checker.take(CertItem::Delete { lines }, clauses)?;
            }
            CertItem::Close { targets } => {
                let bad = first_bad_target(closure, form.depth, &checker, targets);
                return Ok(by_targets(bad));
            }
        }
    }
    Ok(Verdict::Verified)
}
