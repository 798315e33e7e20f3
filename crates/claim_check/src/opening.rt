// Claims that are opened, at the next state and at the state.
ghost use Rattle.std.specs.Prelude.{◌≡◌, ◌<◌, ◌≤◌, ◌^◌, [], ◌∷◌, ◌++◌, All, OnOk, OnErr, length, map};
ghost use Rattle.cnf_base.specs.Known.{IsKnown, AreKnown};
ghost use Rattle.claims.specs.Certificate.{at_next as moved_on};

use cnf_base::{ClauseList, Clauses, Letter, Literal};
use std::alloc::AllocError;

/// Puts the claims at the next state behind the clauses.
pub fn open_next(
    claims: &ClauseList,
    width: u32,
    moved: &mut Vec<Literal>,
    out: &mut ClauseList,
) -> Result<(), AllocError>
    requires few { width ≤ 98306 }
    requires known { AreKnown width claims.now }
    ensures ok { OnOk result (out.new ≡ out.old ++ map (map (moved_on width)) claims.now) }
{
    'claims: for number in 0..claims.count() {
        let _length = claims.len(number + 1);
        push_next(claims.clause(number + 1), width, moved, out)?;
    }
    Ok(())
}

/// Puts the claim at the next state behind the clauses.
pub fn push_next(
    claim: &[Literal],
    width: u32,
    moved: &mut Vec<Literal>,
    out: &mut ClauseList,
) -> Result<(), AllocError>
    requires few { width ≤ 98306 }
    requires short { length claim.now < 2 ^ 32 }
    requires known { All (IsKnown width) claim.now }
    ensures ok { OnOk result (out.new ≡ out.old ++ map (moved_on width) claim.now ∷ []) }
    ensures err { OnErr result (out.new ≡ out.old) }
{
    moved.clear();
    'literals: for literal in claim {
        moved.push(at_next(*literal, width))?;
    }
    out.push(moved)
}

/// The literal of an entry at the next state.
pub fn at_next(literal: Literal, width: u32) -> Literal
    requires few { width ≤ 98306 }
    requires known { IsKnown width literal }
    ensures { result ≡ moved_on width literal }
{
    Literal {
        letter: Letter(width + literal.letter.0),
        negated: literal.negated,
    }
}
