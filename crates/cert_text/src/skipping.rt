// Short numbers, gone over at once. Most bytes of a certificate are those of hints and literals of a few
// digits, which fit whatever their digits are: the pass need not know their values. What is not so is left
// to the pass, byte by byte. Hints, which are most of all, are gone over by blocks first.
ghost use Rattle.std.specs.Prelude.{◌≡◌, ◌↔◌, ◌⊎◌, ◌<◌, ◌≤◌, [], length, All, IsTrue, IfSome};
ghost use Rattle.cert_text.specs.Skipped.{between, IsDigit, IsSign, AreShort, digits_at};

use crate::blocks::block_numbers_end;
use crate::scanning::Place;

#[inline(always)]
fn is_digit(byte: u8) -> bool
    ensures { IsTrue result ↔ IsDigit byte }
{
    byte >= b'0' && byte <= b'9'
}

/// The place behind a minus sign that stands at `at`, or `at`.
#[inline(always)]
fn sign_end(bytes: &[u8], at: usize) -> usize
    requires { at ≤ length bytes.now }
    ensures from { at ≤ result }
    ensures within { result ≤ length bytes.now }
    ensures sign { IsSign (between bytes.now at result) }
{
    if at < bytes.len() && bytes[at] == b'-' {
        return at + 1;
    }
    at
}

/// The place behind the digits that stand from `at` on.
#[inline(always)]
fn digits_end(bytes: &[u8], at: usize) -> usize
    requires { at ≤ length bytes.now }
    ensures from { at ≤ result }
    ensures within { result ≤ length bytes.now }
    ensures digits { All IsDigit (between bytes.now at result) }
{
    let mut end = at;
    'digits: while end < bytes.len() && is_digit(bytes[end]) {
        end += 1;
    }
    end
}

/// The place behind a number with its sign and its space that begins at `at`, if there is one of at most
/// `most` digits.
#[inline(always)]
fn number_end(bytes: &[u8], at: usize, most: usize) -> Option<usize>
    requires within { at ≤ length bytes.now }
    requires few { most ≤ 19 }
    ensures { IfSome result (λ end. (at < end) × (end ≤ length bytes.now)
        × AreShort most (between bytes.now at end)) }
{
    let start = sign_end(bytes, at);
    let end = digits_end(bytes, start);
    if end == start || end == bytes.len() || end - start > most {
        return None;
    }
    if bytes[start] == b'0' || bytes[end] != b' ' {
        return None;
    }
    Some(end + 1)
}

/// The place behind such numbers that stand from `at` on.
#[inline(always)]
fn numbers_end(bytes: &[u8], at: usize, most: usize) -> usize
    requires within { at ≤ length bytes.now }
    requires few { most ≤ 19 }
    ensures from { at ≤ result }
    ensures within { result ≤ length bytes.now }
    ensures numbers { AreShort most (between bytes.now at result) }
{
    let mut end = at;
    'numbers: while let Some(next) = number_end(bytes, end, most) {
        end = next;
    }
    end
}

/// The place behind numbers of at most 19 digits that stand from `at` on.
#[inline(always)]
fn hints_end(bytes: &[u8], at: usize) -> usize
    requires { at ≤ length bytes.now }
    ensures from { at ≤ result }
    ensures within { result ≤ length bytes.now }
    ensures numbers { AreShort 19 (between bytes.now at result) }
{
    let blocks = block_numbers_end(bytes, at);
    numbers_end(bytes, blocks, 19)
}

/// Up to where the pass, which has come to a place, goes on at once: it is at the same place then.
#[inline(always)]
pub fn skip(bytes: &[u8], at: usize, left: &'static [u8], place: Place) -> usize
    requires { at ≤ length bytes.now }
    ensures from { at ≤ result }
    ensures within { result ≤ length bytes.now }
    ensures same { (result ≡ at)
        ⊎ ((left.now ≡ []) × AreShort (digits_at place) (between bytes.now at result)) }
{
    if !left.is_empty() {
        return at;
    }
    match place {
        Place::Literal(_) => numbers_end(bytes, at, 7),
        Place::Hint(_) => hints_end(bytes, at),
        _ => at,
    }
}
