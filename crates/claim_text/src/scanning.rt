// What a byte decides, by the place and by what is read so far: the bytes that must come then, the place
// behind them, and what is read with it.
ghost use Rattle.std.specs.Prelude.{◌≡◌, ◌==◌, ◌+◌, ◌≤◌, None, Some, MatchOption, length, if◌then◌else◌};
ghost use Rattle.claim_text.specs.Scan.{decided, advanced, end_in, first_in, number_in, nought_in};
ghost use Rattle.claim_text.specs.Scan.{literal_in, hint_in, item_in, more_in, kind_in, greatest_in};
ghost use Rattle.claim_text.specs.Scan.{place_behind, wanted, IsInRange};
ghost use Rattle.claim_text.specs.Stored.{draft_in};
ghost use Rattle.claim_text.specs.declared.place.Place.TheVariants as places;
ghost use Rattle.claim_text.specs.declared.place.Role.TheVariants as roles;
ghost use Rattle.claim_text.specs.declared.place.Section.TheVariants as sections;
ghost use Rattle.cert_text.specs.Scan.{literal, hint};

use crate::draft::Draft;
use crate::place::{Act, Place, Role, Section};
use cnf_base::{Clauses, Hint, Letter, Literal};
use ltl_syntax::Kind;

#[inline(always)]
fn greatest(role: Role) -> u64
    ensures { result ≡ greatest_in role }
{
    match role {
        Role::Eventuality => 4_294_967_295,
        Role::Literal {
            claim: _,
            negated: _,
        } => 16_777_216,
        Role::Hint { negated: _ } | Role::Target => u64::MAX,
    }
}

fn has_no_lines(draft: &Draft) -> bool
    ensures { result ≡ (length (draft_in draft.now).lines == 0) }
{
    draft.lines.literals.count() == 0
}

fn has_no_claims(draft: &Draft) -> bool
    ensures { result ≡ (length (draft_in draft.now).layer.claims == 0) }
{
    draft.layer.claims.count() == 0
}

/// Whether one target more is as many as there are claims, or twice as many.
fn are_enough(targets: u64, claims: u64, twice: bool) -> bool
    ensures { result ≡ (targets + 1 == (if twice then claims + claims else claims)) }
{
    if twice {
        targets % 2 == 1 && targets / 2 + 1 == claims
    } else {
        claims > 0 && targets == claims - 1
    }
}

/// Whether the target that comes is the last one that is wanted.
fn is_last(draft: &Draft) -> bool
    ensures { result ≡ (length (draft_in draft.now).targets + 1 == wanted (draft_in draft.now)) }
{
    let targets = draft.targets.len() as u64;
    let claims = draft.layer.claims.count();
    match draft.section {
        Section::Outside => targets == 0,
        Section::Base => are_enough(targets, claims, draft.layer.eventuality.is_some()),
        Section::Step => are_enough(targets, claims, false),
    }
}

#[inline(always)]
fn first(role: Role, byte: u8) -> Option<(&'static [u8], Place, Act)>
    ensures { MatchOption result (first_in role byte ≡ None)
        (λ r. first_in role byte ≡ Some (r.0.now, r.1, r.2)) }
{
    if byte > b'0' && byte <= b'9' {
        Some((b"", Place::More(role, (byte - b'0') as u64), Act::Nothing))
    } else {
        None
    }
}

#[inline(always)]
fn number(role: Role, byte: u8) -> Option<(&'static [u8], Place, Act)>
    ensures { MatchOption result (number_in role byte ≡ None)
        (λ r. number_in role byte ≡ Some (r.0.now, r.1, r.2)) }
{
    match role {
        Role::Eventuality if byte == b'0' => Some((b"\n", Place::Item, Act::Layer(None))),
        _ => first(role, byte),
    }
}

#[inline(always)]
fn nought(claim: bool) -> (&'static [u8], Place, Act)
    ensures { nought_in claim ≡ Some (result.0.now, result.1, result.2) }
{
    if claim {
        (b"\n", Place::Item, Act::Claim)
    } else {
        (b" ", Place::Hint, Act::Nothing)
    }
}

#[inline(always)]
fn literal(claim: bool, byte: u8) -> Option<(&'static [u8], Place, Act)>
    ensures { MatchOption result (literal_in claim byte ≡ None)
        (λ r. literal_in claim byte ≡ Some (r.0.now, r.1, r.2)) }
{
    let role = Role::Literal {
        claim,
        negated: byte == b'-',
    };
    match byte {
        b'0' => Some(nought(claim)),
        b'-' => Some((b"", Place::First(role), Act::Nothing)),
        _ => first(role, byte),
    }
}

#[inline(always)]
fn hint(byte: u8) -> Option<(&'static [u8], Place, Act)>
    ensures { MatchOption result (hint_in byte ≡ None) (λ r. hint_in byte ≡ Some (r.0.now, r.1, r.2)) }
{
    match byte {
        b'0' => Some((b"\n", Place::Item, Act::Line)),
        b'-' => Some((
            b"",
            Place::First(Role::Hint { negated: true }),
            Act::Nothing,
        )),
        _ => first(Role::Hint { negated: false }, byte),
    }
}

#[inline(always)]
fn kind(byte: u8) -> Option<(&'static [u8], Place, Act)>
    ensures { MatchOption result (kind_in byte ≡ None) (λ r. kind_in byte ≡ Some (r.0.now, r.1, r.2)) }
{
    match byte {
        b'i' => Some((b"nfinite\n", Place::Item, Act::Kind(Kind::Infinite))),
        b'f' => Some((b"inite\n", Place::Item, Act::Kind(Kind::Finite))),
        _ => None,
    }
}

/// A layer comes before the lines of the close.
fn outside(draft: &Draft, byte: u8) -> Option<(&'static [u8], Place, Act)>
    ensures { MatchOption result (item_in sections.Outside (draft_in draft.now) byte ≡ None)
        (λ r. item_in sections.Outside (draft_in draft.now) byte ≡ Some (r.0.now, r.1, r.2)) }
{
    match byte {
        b'c' => Some((b"lose ", Place::First(Role::Target), Act::Nothing)),
        b'l' if has_no_lines(draft) => Some((
            b"ayer ",
            Place::First(Role::Eventuality),
            Act::Nothing,
        )),
        b'l' => None,
        _ => literal(false, byte),
    }
}

/// Claims come before the lines of the base, and there is one.
fn base(draft: &Draft, byte: u8) -> Option<(&'static [u8], Place, Act)>
    ensures { MatchOption result (item_in sections.Base (draft_in draft.now) byte ≡ None)
        (λ r. item_in sections.Base (draft_in draft.now) byte ≡ Some (r.0.now, r.1, r.2)) }
{
    match byte {
        b'c' if has_no_lines(draft) => Some((b" ", Place::Literal { claim: true }, Act::Nothing)),
        b'c' => None,
        _ if has_no_claims(draft) => None,
        b'b' => Some((b"ase ", Place::First(Role::Target), Act::Nothing)),
        _ => literal(false, byte),
    }
}

fn item(draft: &Draft, byte: u8) -> Option<(&'static [u8], Place, Act)>
    ensures { MatchOption result (decided places.Item (draft_in draft.now) byte ≡ None)
        (λ r. decided places.Item (draft_in draft.now) byte ≡ Some (r.0.now, r.1, r.2)) }
{
    match draft.section {
        Section::Outside => outside(draft, byte),
        Section::Base => base(draft, byte),
        Section::Step if byte == b's' => Some((b"tep ", Place::First(Role::Target), Act::Nothing)),
        Section::Step => literal(false, byte),
    }
}

#[inline(always)]
fn behind(section: Section) -> Place
    ensures { result ≡ place_behind section }
{
    match section {
        Section::Outside => Place::End,
        Section::Base | Section::Step => Place::Item,
    }
}

/// The byte behind a target: the last one ends the line.
fn target_end(draft: &Draft, value: u64, byte: u8) -> Option<(&'static [u8], Place, Act)>
    ensures { MatchOption result (end_in roles.Target value (draft_in draft.now) byte ≡ None)
        (λ r. end_in roles.Target value (draft_in draft.now) byte ≡ Some (r.0.now, r.1, r.2)) }
{
    if is_last(draft) {
        if byte != b'\n' {
            return None;
        }
        Some((b"", behind(draft.section), Act::Last(value)))
    } else {
        if byte != b' ' {
            return None;
        }
        Some((b"", Place::First(Role::Target), Act::Target(value)))
    }
}

fn literal_of(negated: bool, value: u64) -> Literal
    requires { value ≤ 16777216 }
    ensures { result ≡ literal negated value }
{
    Literal {
        letter: Letter(value as u32),
        negated,
    }
}

fn hint_of(negated: bool, value: u64) -> Hint
    ensures { result ≡ hint negated value }
{
    if negated {
        Hint::Line(value)
    } else {
        Hint::Clause(value)
    }
}

fn end(draft: &Draft, role: Role, value: u64, byte: u8) -> Option<(&'static [u8], Place, Act)>
    requires some { 1 ≤ value }
    requires few { value ≤ greatest_in role }
    ensures { MatchOption result (end_in role value (draft_in draft.now) byte ≡ None)
        (λ r. end_in role value (draft_in draft.now) byte ≡ Some (r.0.now, r.1, r.2)) }
{
    match role {
        Role::Eventuality => {
            if byte != b'\n' {
                return None;
            }
            Some((b"", Place::Item, Act::Layer(Some((value - 1) as u32))))
        }
        Role::Literal { claim, negated } => {
            if byte != b' ' {
                return None;
            }
            Some((
                b"",
                Place::Literal { claim },
                Act::Literal(literal_of(negated, value)),
            ))
        }
        Role::Hint { negated } => {
            if byte != b' ' {
                return None;
            }
            Some((b"", Place::Hint, Act::Hint(hint_of(negated, value))))
        }
        Role::Target => target_end(draft, value, byte),
    }
}

fn more(draft: &Draft, role: Role, value: u64, byte: u8) -> Option<(&'static [u8], Place, Act)>
    requires some { 1 ≤ value }
    requires few { value ≤ greatest_in role }
    ensures { MatchOption result (more_in role value (draft_in draft.now) byte ≡ None)
        (λ r. more_in role value (draft_in draft.now) byte ≡ Some (r.0.now, r.1, r.2)) }
{
    if byte < b'0' || byte > b'9' {
        return end(draft, role, value, byte);
    }
    let digit = (byte - b'0') as u64;
    if value > (greatest(role) - digit) / 10 {
        return None;
    }
    Some((b"", Place::More(role, 10 * value + digit), Act::Nothing))
}

fn decide(draft: &Draft, place: Place, byte: u8) -> Option<(&'static [u8], Place, Act)>
    requires { IsInRange place }
    ensures { MatchOption result (decided place (draft_in draft.now) byte ≡ None)
        (λ r. decided place (draft_in draft.now) byte ≡ Some (r.0.now, r.1, r.2)) }
{
    match place {
        Place::Kind => kind(byte),
        Place::Item => item(draft, byte),
        Place::Literal { claim } => literal(claim, byte),
        Place::Hint => hint(byte),
        Place::First(role) => number(role, byte),
        Place::More(role, value) => more(draft, role, value, byte),
        Place::End => None,
    }
}

/// The same behind bytes that must come.
pub(crate) fn advance(
    draft: &Draft,
    left: &'static [u8],
    place: Place,
    byte: u8,
) -> Option<(&'static [u8], Place, Act)>
    requires { IsInRange place }
    ensures { MatchOption result (advanced left.now place (draft_in draft.now) byte ≡ None)
        (λ r. advanced left.now place (draft_in draft.now) byte ≡ Some (r.0.now, r.1, r.2)) }
{
    if left.is_empty() {
        return decide(draft, place, byte);
    }
    if byte != left[0] {
        return None;
    }
    Some((&left[1..], place, Act::Nothing))
}
