// A certificate of claims against a formula and a kind of trace.
ghost use Rattle.std.specs.Prelude.{◌≡◌, ◌↔◌, IfOk};
ghost use Rattle.claims.specs.Lawful.{IsLawful};
ghost use Rattle.claim_check.specs.Data.{certificate_in};
ghost use Rattle.claim_check.specs.declared.reason.ClaimVerdict.TheVariants.{Verified};
ghost use Rattle.claim_check.specs.Reasons.{IsVerdict};

use crate::certificate::Certificate;
use crate::layer::{negation, take_layer};
use crate::reason::{CertificateFault, ClaimVerdict};
use crate::step_list::push_step_list;
use crate::taking::take_lines;
use crate::targets::is_target;
use cnf_base::ClauseList;
use log_checker::Assignment;
use ltl_closure::Closure;
use ltl_syntax::Kind;
use std::alloc::{AllocError, Global};

/// Whether the certificate is lawful for the formula of the closure and the kind, and else the first reason
/// why it is not.
pub fn check(
    alloc: Global,
    closure: &Closure<'_>,
    kind: Kind,
    certificate: &Certificate,
) -> Result<ClaimVerdict, AllocError>
    ensures verdict { IfOk result (IsVerdict closure.now.formula kind (certificate_in certificate.now)) }
    ensures lawful { IfOk result (λ verdict. (verdict ≡ Verified)
        ↔ IsLawful closure.now.formula kind (certificate_in certificate.now)) }
{
    if certificate.kind != kind {
        return Ok(ClaimVerdict::Refused(CertificateFault::Kind));
    }
    let mut clauses = ClauseList::new(alloc);
    push_step_list(closure, &mut clauses)?;
    let mut lines = ClauseList::new(alloc);
    let letters = 2 * closure.entries().len() as u32 + 3;
    let mut assignment = Assignment::new(alloc, letters)?;
    let mut moved = Vec::new(alloc);
    'layers: for j in 0..certificate.layers.len() {
        let layer = &certificate.layers[j];
        if let Some(fault) = take_layer(
            closure,
            kind,
            layer,
            &mut assignment,
            &mut clauses,
            &mut lines,
            &mut moved,
        )? {
            return Ok(ClaimVerdict::Refused(CertificateFault::Layer(j as u64 + 1, fault)));
        }
    }
    if let Some(line) = take_lines(&mut assignment, &clauses, &certificate.lines, &mut lines)? {
        return Ok(ClaimVerdict::Refused(CertificateFault::Line(line)));
    }
    let first = negation(closure, 2);
    if !is_target(&lines, &[certificate.target], 0, &[], &[first]) {
        return Ok(ClaimVerdict::Refused(CertificateFault::Target));
    }
    Ok(ClaimVerdict::Verified)
}
