// One pass over the bytes of a certificate, without memory: a byte is either wanted, or it decides how the
// text goes on. Each step is inlined, so that the place stays in registers. Short numbers are gone over at
// once.
ghost use Rattle.std.specs.Prelude.{◌≡◌, ◌+◌, ◌<◌, ◌≤◌, ◌^◌, [], Some, None, MatchOption, MatchResult};
ghost use Rattle.cert_text.specs.Text.{Certificate, IsTextOf, IsFormFault};
ghost use Rattle.cert_text.specs.Shape.{small_step, small_advance, number_in, literal_in, first_in, end_in};
ghost use Rattle.cert_text.specs.Shape.{greatest_in, with_target, IsFew, IsInRange, lines_at, form_of};
ghost use Rattle.cert_text.specs.declared.scanning.Role.TheVariants as roles;
ghost use Rattle.cert_text.specs.declared.scanning.Place.TheVariants as places;

use crate::glance::Form;
use crate::skipping::skip;
use ltl_syntax::Kind;

/// What stands before a part of a certificate: the header, and how many lines and targets.
#[derive(Clone, Copy, Drop)]
pub struct Head {
    pub version: u32,
    pub kind: Kind,
    pub depth: u32,
    pub lines: u64,
    pub targets: u32,
}

/// What a number will be.
#[derive(Clone, Copy, Drop)]
pub enum Role {
    Depth { version: u32, kind: Kind },
    Literal(Head),
    Hint(Head),
    Target(Head),
    Delete(Head),
}

/// Where the next byte decides how the text goes on.
#[derive(Clone, Copy, Drop)]
pub enum Place {
    Version,
    Kind { version: u32 },
    First(Role),
    More(Role, u64),
    Part(Head),
    Literal(Head),
    Hint(Head),
    End(Head),
}

#[inline(always)]
fn greatest(role: Role) -> u64
    ensures { result ≡ greatest_in role }
{
    match role {
        Role::Depth {
            version: _,
            kind: _,
        } => 1000,
        Role::Literal(_) => 16_777_216,
        Role::Hint(_) | Role::Target(_) | Role::Delete(_) => u64::MAX,
    }
}

#[inline(always)]
fn first(role: Role, byte: u8) -> Option<(&'static [u8], Place)>
    ensures { MatchOption result (first_in role byte ≡ None) (λ r. first_in role byte ≡ Some (r.0.now, r.1)) }
{
    if byte > b'0' && byte <= b'9' {
        Some((b"", Place::More(role, (byte - b'0') as u64)))
    } else {
        None
    }
}

#[inline(always)]
fn number(role: Role, byte: u8) -> Option<(&'static [u8], Place)>
    ensures { MatchOption result (number_in role byte ≡ None)
        (λ r. number_in role byte ≡ Some (r.0.now, r.1)) }
{
    match role {
        Role::Depth { version, kind } if byte == b'0' => Some((
            b"\n",
            Place::Part(Head {
                version,
                kind,
                depth: 0,
                lines: 0,
                targets: 0,
            }),
        )),
        _ => first(role, byte),
    }
}

#[inline(always)]
fn literal(head: Head, byte: u8) -> Option<(&'static [u8], Place)>
    ensures { MatchOption result (literal_in head byte ≡ None)
        (λ r. literal_in head byte ≡ Some (r.0.now, r.1)) }
{
    match byte {
        b'0' => Some((b" ", Place::Hint(head))),
        b'-' => Some((b"", Place::First(Role::Literal(head)))),
        _ => first(Role::Literal(head), byte),
    }
}

#[inline(always)]
fn with_target(head: Head) -> Head
    requires { head.targets ≤ 1001 }
    ensures { result ≡ with_target head }
{
    Head {
        targets: head.targets + 1,
        ..head
    }
}

/// The byte behind a target: the last one ends the line.
#[inline(always)]
fn target_end(head: Head, value: u64, byte: u8) -> Option<(&'static [u8], Place)>
    requires few { IsFew (roles.Target head) }
    ensures { MatchOption result (end_in (roles.Target head) value byte ≡ None)
        (λ r. end_in (roles.Target head) value byte ≡ Some (r.0.now, r.1)) }
{
    if head.targets == head.depth + 1 {
        if byte != b'\n' {
            return None;
        }
        Some((b"", Place::End(with_target(head))))
    } else {
        if byte != b' ' {
            return None;
        }
        Some((b"", Place::First(Role::Target(with_target(head)))))
    }
}

#[inline(always)]
fn end(role: Role, value: u64, byte: u8) -> Option<(&'static [u8], Place)>
    requires number { value ≤ greatest_in role }
    requires few { IsFew role }
    ensures { MatchOption result (end_in role value byte ≡ None)
        (λ r. end_in role value byte ≡ Some (r.0.now, r.1)) }
{
    match role {
        Role::Depth { version, kind } => {
            if byte != b'\n' {
                return None;
            }
            Some((
                b"",
                Place::Part(Head {
                    version,
                    kind,
                    depth: value as u32,
                    lines: 0,
                    targets: 0,
                }),
            ))
        }
        Role::Literal(head) => {
            if byte != b' ' {
                return None;
            }
            Some((b"", Place::Literal(head)))
        }
        Role::Hint(head) => {
            if byte != b' ' {
                return None;
            }
            Some((b"", Place::Hint(head)))
        }
        Role::Target(head) => target_end(head, value, byte),
        Role::Delete(head) => match byte {
            b' ' => Some((b"", Place::First(Role::Delete(head)))),
            b'\n' => Some((b"", Place::Part(head))),
            _ => None,
        },
    }
}

#[inline(always)]
fn more(role: Role, value: u64, byte: u8) -> Option<(&'static [u8], Place)>
    requires number { value ≤ greatest_in role }
    requires few { IsFew role }
    ensures { MatchOption result (small_step (places.More role value) byte ≡ None)
        (λ r. small_step (places.More role value) byte ≡ Some (r.0.now, r.1)) }
{
    if byte < b'0' || byte > b'9' {
        return end(role, value, byte);
    }
    let digit = (byte - b'0') as u64;
    if value > (greatest(role) - digit) / 10 {
        return None;
    }
    Some((b"", Place::More(role, 10 * value + digit)))
}

#[inline(always)]
fn kind(version: u32, byte: u8) -> Option<(&'static [u8], Place)>
    ensures { MatchOption result (small_step (places.Kind version) byte ≡ None)
        (λ r. small_step (places.Kind version) byte ≡ Some (r.0.now, r.1)) }
{
    match byte {
        b'i' => Some((
            b"nfinite ",
            Place::First(Role::Depth {
                version,
                kind: Kind::Infinite,
            }),
        )),
        b'f' => Some((
            b"inite ",
            Place::First(Role::Depth {
                version,
                kind: Kind::Finite,
            }),
        )),
        _ => None,
    }
}

#[inline(always)]
fn hint(head: Head, byte: u8) -> Option<(&'static [u8], Place)>
    requires { head.lines + 1 < 2 ^ 64 }
    ensures { MatchOption result (small_step (places.Hint head) byte ≡ None)
        (λ r. small_step (places.Hint head) byte ≡ Some (r.0.now, r.1)) }
{
    match byte {
        b'0' => {
            let head = Head {
                lines: head.lines + 1,
                ..head
            };
            Some((b"\n", Place::Part(head)))
        }
        b'-' => Some((b"", Place::First(Role::Hint(head)))),
        _ => first(Role::Hint(head), byte),
    }
}

/// What a byte leads to: the bytes that must come then, and the place behind them.
#[inline(always)]
fn next(place: Place, byte: u8) -> Option<(&'static [u8], Place)>
    requires range { IsInRange place }
    requires lines { lines_at place + 1 < 2 ^ 64 }
    ensures { MatchOption result (small_step place byte ≡ None)
        (λ r. small_step place byte ≡ Some (r.0.now, r.1)) }
{
    match place {
        Place::Version => match byte {
            b'1' => Some((b" ", Place::Kind { version: 1 })),
            b'2' => Some((b" ", Place::Kind { version: 2 })),
            _ => None,
        },
        Place::Kind { version } => kind(version, byte),
        Place::First(role) => number(role, byte),
        Place::More(role, value) => more(role, value, byte),
        Place::Part(head) => match byte {
            b'c' => Some((b"lose ", Place::First(Role::Target(head)))),
            b'd' if head.version == 2 => Some((b" ", Place::First(Role::Delete(head)))),
            b'd' => None,
            _ => literal(head, byte),
        },
        Place::Literal(head) => literal(head, byte),
        Place::Hint(head) => hint(head, byte),
        Place::End(_) => None,
    }
}

/// The same behind bytes that must come.
#[inline(always)]
pub(crate) fn advance(left: &'static [u8], place: Place, byte: u8) -> Option<(&'static [u8], Place)>
    requires range { IsInRange place }
    requires lines { left.now ≡ [] → lines_at place + 1 < 2 ^ 64 }
    ensures { MatchOption result (small_advance left.now place byte ≡ None)
        (λ r. small_advance left.now place byte ≡ Some (r.0.now, r.1)) }
{
    if left.is_empty() {
        return next(place, byte);
    }
    if byte != left[0] {
        return None;
    }
    Some((&left[1..], place))
}

/// What the text says at a glance, or the place of its fault: the first byte, counted from 0, that no
/// certificate text continues, or the count of bytes where they begin a certificate text and are none. It
/// takes no memory.
pub fn form(bytes: &[u8]) -> Result<Form, u64>
    ensures { MatchResult result (λ f. (c : Certificate) × IsTextOf bytes.now c × (f ≡ form_of c))
        (λ b. IsFormFault bytes.now b) }
{
    let mut left: &'static [u8] = b"ltlcert ";
    let mut place = Place::Version;
    let mut index = 0;
    'bytes: while index < bytes.len() {
        let Some(found) = advance(left, place, bytes[index]) else {
            return Err(index as u64);
        };
        left = found.0;
        place = found.1;
        index = skip(bytes, index + 1, left, place);
    }
    let end = bytes.len() as u64;
    if !left.is_empty() {
        return Err(end);
    }
    let Place::End(head) = place else {
        return Err(end);
    };
    Ok(Form {
        version: head.version,
        kind: head.kind,
        depth: head.depth,
        lines: head.lines,
    })
}
