// A certificate against a formula: its form, its kind, its letters, its lines and then its targets.
ghost use Rattle.std.specs.Prelude.{ℕ, ◌<◌, ◌≤◌, length, IfOk, IsErrOf, MatchOption};
ghost use Rattle.ltl_syntax.specs.Table.{tree_at};
ghost use Rattle.enc_layout.specs.Letters.{Fits};
ghost use Rattle.enc_layout.specs.Clauses.{layout_of};
ghost use Rattle.cert_check.specs.declared.verdict.CheckRefused.TheVariants.{Form, Letters};
ghost use Rattle.enc_layout.specs.Limit.{IsInForce};
ghost use Rattle.cert_check.specs.Answer.{IsAnswer, answer_of, FormFault, TooManyLetters};

use crate::verdict::{CheckRefused, Reason, Verdict};
use crate::{alone, together};
use cert_text::{CertRefused, CertView, form};
use enc_layout::Layout;
use ltl_closure::Closure;
use ltl_io::Gate;
use ltl_syntax::{FormulaTable, Kind};
use std::alloc::Global;
use std::thread::Threads;

/// Where the letters through the depth are too many, the greatest depth up to it where they are few enough.
fn limit_below(closure: &Closure<'_>, depth: u32) -> Option<u32>
    requires { depth ≤ 1000 }
    ensures { MatchOption result (Fits (layout_of closure.now) depth)
        (λ limit. (¬ Fits (layout_of closure.now) depth)
        × IsInForce closure.now.formula closure.now.kind depth limit) }
{
    let layout = Layout::of(closure);
    if layout.fits(depth) {
        return None;
    }
    Some(layout.greatest_depth(depth))
}

/// By one worker, who keeps the live lines alone.
fn check_alone<G: Gate>(
    alloc: Global,
    table: &FormulaTable,
    root: u32,
    kind: Kind,
    bytes: &[u8],
    gate: &G,
) -> Result<Verdict, CheckRefused>
    requires { root < length table.now.nodes }
    ensures verdict { IfOk result (λ v. IsAnswer (tree_at table.now root) kind bytes.now (answer_of v)) }
    ensures form { (byte : ℕ) → IsErrOf result (Form byte)
        → IsAnswer (tree_at table.now root) kind bytes.now (FormFault byte) }
    ensures letters { (depth : ℕ) → IsErrOf result (Letters depth)
        → IsAnswer (tree_at table.now root) kind bytes.now (TooManyLetters depth) }
{
    let form = match form(bytes) {
        Ok(form) => form,
        Err(byte) => return Err(CheckRefused::Form(byte)),
    };
    if form.kind != kind {
        return Ok(Verdict::Rejected(Reason::Kind));
    }
    let closure = Closure::of(alloc, table, root, kind)?;
    if let Some(limit) = limit_below(&closure, form.depth) {
        return Err(CheckRefused::Letters(limit));
    }
    gate.begin(0);
    Ok(alone::judge(alloc, &closure, form, bytes)?)
}

/// By several workers, over the places of all lines.
fn check_together<R: Threads + Sync, G: Gate + Sync>(
    rt: &R,
    alloc: Global,
    table: &FormulaTable,
    root: u32,
    kind: Kind,
    bytes: &[u8],
    workers: u32,
    gate: &G,
) -> Result<Verdict, CheckRefused>
    requires root { root < length table.now.nodes }
    requires some { 1 ≤ workers }
    requires few { workers ≤ 16 }
    ensures verdict { IfOk result (λ v. IsAnswer (tree_at table.now root) kind bytes.now (answer_of v)) }
    ensures form { (byte : ℕ) → IsErrOf result (Form byte)
        → IsAnswer (tree_at table.now root) kind bytes.now (FormFault byte) }
    ensures letters { (depth : ℕ) → IsErrOf result (Letters depth)
        → IsAnswer (tree_at table.now root) kind bytes.now (TooManyLetters depth) }
{
    let view = match CertView::read_by(rt, alloc, bytes, workers) {
        Ok(view) => view,
        Err(CertRefused::Form(byte)) => return Err(CheckRefused::Form(byte)),
        Err(CertRefused::NoMemory) => return Err(CheckRefused::NoMemory),
    };
    if view.kind() != kind {
        return Ok(Verdict::Rejected(Reason::Kind));
    }
    view.invariant();
    let closure = Closure::of(alloc, table, root, kind)?;
    if let Some(limit) = limit_below(&closure, view.depth()) {
        return Err(CheckRefused::Letters(limit));
    }
    Ok(together::judge(rt, alloc, &closure, &view, bytes.len(), workers, gate)?)
}

/// Judges the certificate text `bytes` for the formula under the node `root` and a kind of trace. With
/// one worker lines are kept only while they are live. With more the places of all lines are kept, and
/// the lines are judged in as many pieces. The gate is told of each piece, and with one worker of piece
/// 0. Memory may be wanting at any place.
pub fn check<R: Threads + Sync, G: Gate + Sync>(
    rt: &R,
    alloc: Global,
    table: &FormulaTable,
    root: u32,
    kind: Kind,
    bytes: &[u8],
    workers: u32,
    gate: &G,
) -> Result<Verdict, CheckRefused>
    requires root { root < length table.now.nodes }
    requires some { 1 ≤ workers }
    requires few { workers ≤ 16 }
    ensures verdict { IfOk result (λ v. IsAnswer (tree_at table.now root) kind bytes.now (answer_of v)) }
    ensures form { (byte : ℕ) → IsErrOf result (Form byte)
        → IsAnswer (tree_at table.now root) kind bytes.now (FormFault byte) }
    ensures letters { (depth : ℕ) → IsErrOf result (Letters depth)
        → IsAnswer (tree_at table.now root) kind bytes.now (TooManyLetters depth) }
{
    if workers == 1 {
        check_alone(alloc, table, root, kind, bytes, gate)
    } else {
        check_together(rt, alloc, table, root, kind, bytes, workers, gate)
    }
}
