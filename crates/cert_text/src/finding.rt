// Where things stand in a text: a byte, and the 0 behind the literals of a line. Both may be far away, and
// are looked for by several bytes at once.
ghost use Rattle.std.specs.Prelude.{◌≡◌, ℕ, ◌+◌, ◌-◌, ◌<◌, ◌≤◌, List, ◌∷◌, ◌++◌, length, get_or, All, IsTrue};
ghost use Rattle.std.specs.List.{flat_map};
ghost use Rattle.cnf_base.specs.declared.literal.Literal.{Literal as SomeLiteral};
ghost use Rattle.cert_text.specs.Text.{IsLiteral, literal_text};
ghost use Rattle.cert_text.specs.Skipped.{HasNoNought};

use crate::blocks::BLOCK;
use memchr::memchr;
use std::simd::prelude::*;

/// The first place from `at` on where the byte stands, or the end.
pub fn find(bytes: &[u8], at: usize, byte: u8) -> usize
    requires { at ≤ length bytes.now }
    ensures from { at ≤ result }
    ensures within { result ≤ length bytes.now }
    ensures first { (before word more : List ℕ) → All (λ b. b ≡ byte → ⊥) word
        → bytes.now ≡ before ++ (word ++ byte ∷ more) → length before ≡ at → result ≡ at + length word }
    ensures stands { result < length bytes.now → get_or bytes.now result 0 ≡ byte }
{
    match memchr(byte, &bytes[at..]) {
        None => bytes.len(),
        Some(place) => at + place,
    }
}

/// Whether no 0 of a block of bytes stands behind a space.
#[inline(always)]
fn has_no_nought(bytes: &[u8], at: usize) -> bool
    requires some { 1 ≤ at }
    requires within { at + BLOCK ≤ length bytes.now }
    ensures { IsTrue result → HasNoNought bytes.now at (at + BLOCK) }
{
    let noughts = u8x16::from_slice(&bytes[at..]).simd_eq(u8x16::splat(b'0'));
    let spaces = u8x16::from_slice(&bytes[at - 1..]).simd_eq(u8x16::splat(b' '));
    (noughts & spaces).to_bitmask() == 0
}

/// The place behind those first blocks, behind the first byte, in which no 0 stands behind a space.
fn blocks_end(line: &[u8]) -> usize
    requires { 1 ≤ length line.now }
    ensures from { 1 ≤ result }
    ensures within { result ≤ length line.now }
    ensures none { HasNoNought line.now 1 result }
{
    let mut end = 1;
    'blocks: while line.len() - end >= BLOCK && has_no_nought(line, end) {
        end += BLOCK;
    }
    end
}

/// The place of the first 0 from `at` on that stands behind a space, or the end.
fn nought_from(line: &[u8], at: usize) -> usize
    requires some { 1 ≤ at }
    requires within { at ≤ length line.now }
    ensures from { at ≤ result }
    ensures within { result ≤ length line.now }
    ensures none { HasNoNought line.now at result }
    ensures stops { result < length line.now
        → (get_or line.now result 0 ≡ 48) × (get_or line.now (result - 1) 0 ≡ 32) }
{
    let mut end = at;
    'bytes: while end < line.len() && (line[end] != b'0' || line[end - 1] != b' ') {
        end += 1;
    }
    end
}

/// The place of the 0 behind the literals that begin the line.
pub fn literals_end(line: &[u8]) -> usize
    ensures { (literals : List SomeLiteral) (more : List ℕ) → All IsLiteral literals
        → line.now ≡ flat_map literal_text literals ++ 48 ∷ more
        → result ≡ length (flat_map literal_text literals) }
{
    if line.is_empty() {
        return 0;
    }
    if line[0] == b'0' {
        return 0;
    }
    let end = blocks_end(line);
    nought_from(line, end)
}
