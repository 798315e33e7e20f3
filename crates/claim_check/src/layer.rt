// One layer: its claims, the lines of its base and those of its step.
ghost use Rattle.std.specs.Prelude.{◌≡◌, ◌+◌, ◌*◌, ◌≤◌, ◌↔◌, ◌++◌, [], true, IsTrue, IfOk, OnOk, None};
ghost use Rattle.std.specs.Prelude.{All, length, slice_index_or};
ghost use Rattle.cnf_base.specs.Known.{IsKnown, AreKnown};
ghost use Rattle.log_checker.specs.Values.{letters_in};
ghost use Rattle.claims.specs.Between.{width, greatest};
ghost use Rattle.claims.specs.Certificate.{clauses_of, next_claims};
ghost use Rattle.claim_check.specs.Data.{lines_in, layer_in};
ghost use Rattle.claim_check.specs.Bases.{IsFound, IsBased, IsBaseOf};
ghost use Rattle.claim_check.specs.Reasons.{IsBaseAnswer, IsStepAnswer, IsLayerAnswer};

use crate::base::{Base, base_of};
use crate::certificate::Layer;
use crate::opening::open_next;
use crate::reason::LayerFault;
use crate::taking::take_lines;
use crate::targets::{first_missed, first_missed_twice};
use cnf_base::{ClauseList, Clauses, Letter, Literal};
use log_checker::Assignment;
use ltl_closure::Closure;
use ltl_syntax::Kind;
use std::alloc::AllocError;

/// The negation of a letter behind those of the entries.
pub fn negation(closure: &Closure<'_>, place: u32) -> Literal
    requires { place ≤ 3 }
    ensures { result ≡ (record {
      letter = record { 0 = 2 * width closure.now.formula + place };
      negated = true;
    }) }
{
    let width = closure.entries().len() as u32;
    Literal {
        letter: Letter(2 * width + place),
        negated: true,
    }
}

/// Whether the letters of the claim are those of entries.
fn is_of_entries(claim: &[Literal], width: u32) -> bool
    ensures { IsTrue result ↔ All (IsKnown width) claim.now }
{
    'literals: for literal in claim {
        if literal.letter.0 < 1 || literal.letter.0 > width {
            return false;
        }
    }
    true
}

/// The number of the first claim that has another letter.
fn first_foreign(claims: &ClauseList, width: u32) -> Option<u64>
    ensures { IsFound (λ q. All (IsKnown width) (slice_index_or claims.now q [])) (length claims.now) result }
{
    'claims: for place in 0..claims.count() {
        if !is_of_entries(claims.clause(place + 1), width) {
            return Some(place + 1);
        }
    }
    None
}

/// The number of the first claim that does not hold at the base.
fn first_unbased(
    closure: &Closure<'_>,
    kind: Kind,
    base: Base,
    layer: &Layer,
    lines: &ClauseList,
) -> Option<u64>
    requires { IsBaseOf closure.now.formula kind (layer_in layer.now).eventuality base }
    ensures { IsFound (IsBased closure.now.formula kind lines.now (layer_in layer.now)
        (layer_in layer.now).eventuality) (length layer.now.claims) result }
{
    match base {
        Base::Last => {
            let last = negation(closure, 3);
            first_missed(lines, &layer.claims, &layer.base_targets, &[last])
        }
        Base::Everywhere => {
            let after = negation(closure, 1);
            first_missed(lines, &layer.claims, &layer.base_targets, &[after])
        }
        Base::Meeting(pending, missed) => {
            let after = negation(closure, 1);
            first_missed_twice(
                lines,
                &layer.claims,
                &layer.base_targets,
                &[after, pending],
                &[after, missed],
            )
        }
    }
}

/// Puts the clauses behind the others.
fn push_all(claims: &ClauseList, out: &mut ClauseList) -> Result<(), AllocError>
    ensures { OnOk result (out.new ≡ out.old ++ claims.now) }
{
    'claims: for number in 0..claims.count() {
        let _length = claims.len(number + 1);
        out.push(claims.clause(number + 1))?;
    }
    Ok(())
}

/// Puts the lines of the base behind the earlier ones, where all up to it is in order.
fn take_base(
    closure: &Closure<'_>,
    kind: Kind,
    layer: &Layer,
    assignment: &mut Assignment,
    clauses: &ClauseList,
    lines: &mut ClauseList,
) -> Result<Option<LayerFault>, AllocError>
    requires clauses { AreKnown (greatest closure.now.formula) clauses.now }
    requires lines { AreKnown (greatest closure.now.formula) lines.old }
    requires letters { letters_in assignment.old ≡ greatest closure.now.formula }
    ensures judged { IfOk result
        (IsBaseAnswer closure.now.formula kind clauses.now lines.old (layer_in layer.now)) }
    ensures lines { IfOk result (λ fault. fault ≡ None →
        lines.new ≡ lines.old ++ clauses_of (lines_in layer.now.base_lines)) }
    ensures known { IfOk result (λ fault. AreKnown (greatest closure.now.formula) lines.new) }
    ensures size { length assignment.new ≡ length assignment.old }
{
    let width = closure.entries().len() as u32;
    let Some(base) = base_of(closure, kind, layer.eventuality) else {
        return Ok(Some(LayerFault::Eventuality));
    };
    if let Some(claim) = first_foreign(&layer.claims, width) {
        return Ok(Some(LayerFault::Claim(claim)));
    }
    if let Some(line) = take_lines(assignment, clauses, &layer.base_lines, lines)? {
        return Ok(Some(LayerFault::BaseLine(line)));
    }
    if let Some(claim) = first_unbased(closure, kind, base, layer, lines) {
        return Ok(Some(LayerFault::BaseTarget(claim)));
    }
    Ok(None)
}

/// Puts the lines of the step behind the earlier ones and the claims behind the clauses, where all is in
/// order.
fn take_step(
    closure: &Closure<'_>,
    layer: &Layer,
    assignment: &mut Assignment,
    clauses: &mut ClauseList,
    lines: &mut ClauseList,
    moved: &mut Vec<Literal>,
) -> Result<Option<LayerFault>, AllocError>
    requires claims { AreKnown (width closure.now.formula) layer.now.claims }
    requires clauses { AreKnown (greatest closure.now.formula) clauses.old }
    requires lines { AreKnown (greatest closure.now.formula) lines.old }
    requires letters { letters_in assignment.old ≡ greatest closure.now.formula }
    ensures judged { IfOk result
        (IsStepAnswer closure.now.formula clauses.old lines.old (layer_in layer.now)) }
    ensures clauses { IfOk result (λ fault. fault ≡ None → clauses.new ≡ clauses.old
        ++ next_claims (width closure.now.formula) (layer_in layer.now) ++ layer.now.claims) }
    ensures lines { IfOk result (λ fault. fault ≡ None →
        lines.new ≡ lines.old ++ clauses_of (lines_in layer.now.step_lines)) }
    ensures known { IfOk result (λ fault. AreKnown (greatest closure.now.formula) lines.new) }
    ensures size { length assignment.new ≡ length assignment.old }
{
    let width = closure.entries().len() as u32;
    open_next(&layer.claims, width, moved, clauses)?;
    if let Some(line) = take_lines(assignment, clauses, &layer.step_lines, lines)? {
        return Ok(Some(LayerFault::StepLine(line)));
    }
    let after = negation(closure, 1);
    if let Some(claim) = first_missed(lines, &layer.claims, &layer.step_targets, &[after]) {
        return Ok(Some(LayerFault::StepTarget(claim)));
    }
    push_all(&layer.claims, clauses)?;
    Ok(None)
}

/// Puts the lines of the layer behind the earlier ones and its claims behind the clauses, where it is lawful,
/// and answers with its first fault.
pub fn take_layer(
    closure: &Closure<'_>,
    kind: Kind,
    layer: &Layer,
    assignment: &mut Assignment,
    clauses: &mut ClauseList,
    lines: &mut ClauseList,
    moved: &mut Vec<Literal>,
) -> Result<Option<LayerFault>, AllocError>
    requires clauses { AreKnown (greatest closure.now.formula) clauses.old }
    requires lines { AreKnown (greatest closure.now.formula) lines.old }
    requires letters { letters_in assignment.old ≡ greatest closure.now.formula }
    ensures judged { IfOk result
        (IsLayerAnswer closure.now.formula kind clauses.old lines.old (layer_in layer.now)) }
    ensures clauses { IfOk result (λ fault. fault ≡ None → clauses.new ≡ clauses.old
        ++ next_claims (width closure.now.formula) (layer_in layer.now) ++ layer.now.claims) }
    ensures lines { IfOk result (λ fault. fault ≡ None → lines.new ≡ lines.old
        ++ clauses_of (lines_in layer.now.base_lines) ++ clauses_of (lines_in layer.now.step_lines)) }
    ensures known { IfOk result (λ fault. AreKnown (greatest closure.now.formula) lines.new) }
    ensures size { length assignment.new ≡ length assignment.old }
{
    if let Some(fault) = take_base(closure, kind, layer, assignment, clauses, lines)? {
        return Ok(Some(fault));
    }
    take_step(closure, layer, assignment, clauses, lines, moved)
}
