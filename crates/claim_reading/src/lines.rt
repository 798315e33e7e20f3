// The lines that say what the claims of a certificate exclude.
ghost use Rattle.std.specs.Prelude.{◌≡◌, ◌≤◌, ◌<◌, ◌++◌, length, map, take, drop, All, IfOk, OnOk, codes};
ghost use Rattle.std.specs.List.{flat_map};
ghost use Rattle.ltl_syntax.specs.Print.{text_of};
ghost use Rattle.cnf_base.specs.Known.{IsKnown, AreKnown};
ghost use Rattle.claims.specs.Between.{width};
ghost use Rattle.claim_check.specs.Data.{certificate_in};
ghost use Rattle.claim_reading.specs.Never.{denied, behind_and, joined_text, never_line, never_text};
ghost use Rattle.claim_reading.specs.Never.{AreOfEntries};
ghost use Rattle.claim_reading.specs.Sizes.{AreSizes};

use crate::entry_sizes::{fits, sizes_of};
use crate::printing::push_entry;
use claim_check::Certificate;
use cnf_base::{ClauseList, Clauses, Literal};
use ltl_closure::Closure;
use std::alloc::{AllocError, Global};

/// A line `never` and a formula for each claim, layer after layer: the formula says that each literal of the
/// claim is false. One of more than 16,384 nodes is left out, and the line says so.
///
/// Takes time linear in the closure, the claims and what is printed.
pub fn never_lines(
    alloc: Global,
    closure: &Closure<'_>,
    certificate: &Certificate,
) -> Result<Vec<u8>, AllocError>
    requires known { AreOfEntries closure.now.formula (certificate_in certificate.now) }
    ensures { IfOk result (λ text. text.items
        ≡ never_text closure.now.formula (certificate_in certificate.now)) }
{
    let sizes = sizes_of(alloc, closure)?;
    let mut out = Vec::new(alloc);
    for layer in &certificate.layers {
        push_claims(alloc, closure, &sizes, &layer.claims, &mut out)?;
    }
    Ok(out)
}

fn push_claims(
    alloc: Global,
    closure: &Closure<'_>,
    sizes: &Vec<u32>,
    claims: &ClauseList,
    out: &mut Vec<u8>,
) -> Result<(), AllocError>
    requires sizes { AreSizes closure.now.formula (width closure.now.formula) sizes.now.items }
    requires known { AreKnown (width closure.now.formula) claims.now }
    ensures { OnOk result (out.new.items
        ≡ out.old.items ++ flat_map (never_line closure.now.formula) claims.now) }
{
    for index in 0..claims.count() {
        push_claim(alloc, closure, sizes, claims.clause(index + 1), out)?;
    }
    Ok(())
}

fn push_claim(
    alloc: Global,
    closure: &Closure<'_>,
    sizes: &Vec<u32>,
    claim: &[Literal],
    out: &mut Vec<u8>,
) -> Result<(), AllocError>
    requires sizes { AreSizes closure.now.formula (width closure.now.formula) sizes.now.items }
    requires known { All (IsKnown (width closure.now.formula)) claim.now }
    ensures { OnOk result (out.new.items
        ≡ out.old.items ++ never_line closure.now.formula claim.now) }
{
    if !fits(closure, sizes, claim) {
        return out.extend_from_slice(b"never (a formula of more than 16384 nodes)\n");
    }
    push_formula(alloc, closure, claim, out)
}

fn push_formula(
    alloc: Global,
    closure: &Closure<'_>,
    claim: &[Literal],
    out: &mut Vec<u8>,
) -> Result<(), AllocError>
    requires { All (IsKnown (width closure.now.formula)) claim.now }
    ensures { OnOk result (out.new.items ≡ out.old.items
        ++ (codes "never " ++ (joined_text (map (denied closure.now.formula) claim.now) ++ codes "\n"))) }
{
    out.extend_from_slice(b"never ")?;
    push_joined(alloc, closure, claim, out)?;
    out.extend_from_slice(b"\n")
}

fn push_joined(
    alloc: Global,
    closure: &Closure<'_>,
    claim: &[Literal],
    out: &mut Vec<u8>,
) -> Result<(), AllocError>
    requires { All (IsKnown (width closure.now.formula)) claim.now }
    ensures { OnOk result (out.new.items
        ≡ out.old.items ++ joined_text (map (denied closure.now.formula) claim.now)) }
{
    if claim.is_empty() {
        return out.extend_from_slice(b"true");
    }
    push_denied(alloc, closure, claim[0], out)?;
    push_more(alloc, closure, &claim[1..], out)
}

fn push_more(
    alloc: Global,
    closure: &Closure<'_>,
    literals: &[Literal],
    out: &mut Vec<u8>,
) -> Result<(), AllocError>
    requires { All (IsKnown (width closure.now.formula)) literals.now }
    ensures { OnOk result (out.new.items
        ≡ out.old.items ++ flat_map behind_and (map (denied closure.now.formula) literals.now)) }
{
    for literal in literals {
        out.extend_from_slice(b" & ")?;
        push_denied(alloc, closure, *literal, out)?;
    }
    Ok(())
}

/// The text of the formula that holds where the literal is false.
fn push_denied(
    alloc: Global,
    closure: &Closure<'_>,
    literal: Literal,
    out: &mut Vec<u8>,
) -> Result<(), AllocError>
    requires { IsKnown (width closure.now.formula) literal }
    ensures { OnOk result (out.new.items
        ≡ out.old.items ++ text_of (denied closure.now.formula literal)) }
{
    if literal.negated {
        return push_entry(alloc, closure, literal.letter.0, out);
    }
    out.push(b'!')?;
    push_entry(alloc, closure, literal.letter.0, out)
}
