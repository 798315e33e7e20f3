// Hints, gone over by blocks of bytes. Where each byte may stand behind the one before it, and no space is
// far from the next, the bytes up to a space are numbers that fit, and no byte of a block waits for another.
ghost use Rattle.std.specs.Prelude.{◌≡◌, ◌⊎◌, ◌+◌, ◌-◌, ◌≤◌, length, get_or, IsTrue};
ghost use Rattle.cert_text.specs.Skipped.{between, AreShort, AreInOrder, HasSpace, AreSpaced};

use std::simd::prelude::*;

/// How many bytes are gone over at once.
pub(crate) const BLOCK: usize = 16;

/// How many of them have to have a space among them.
const HALF: usize = 8;

/// Whether each byte of a block may stand behind the one before it.
#[inline(always)]
fn is_in_order(bytes: &[u8], at: usize) -> bool
    requires some { 1 ≤ at }
    requires within { at + BLOCK ≤ length bytes.now }
    ensures { IsTrue result → AreInOrder bytes.now at (at + BLOCK) }
{
    let byte = u8x16::from_slice(&bytes[at..]);
    let before = u8x16::from_slice(&bytes[at - 1..]);
    let is_digit = byte.simd_ge(u8x16::splat(b'1')) & byte.simd_le(u8x16::splat(b'9'));
    let ends = byte.simd_eq(u8x16::splat(b'0')) | byte.simd_eq(u8x16::splat(b' '));
    let is_behind = before.simd_ge(u8x16::splat(b'0')) & ends;
    let is_sign = byte.simd_eq(u8x16::splat(b'-')) & before.simd_eq(u8x16::splat(b' '));
    (is_digit | (is_behind | is_sign)).to_bitmask() == 65535
}

/// Whether a space is among the bytes of half a block.
#[inline(always)]
fn has_space(bytes: &[u8], at: usize) -> bool
    requires { at + HALF ≤ length bytes.now }
    ensures { IsTrue result → HasSpace bytes.now at (at + HALF) }
{
    let spaces = u8x8::from_slice(&bytes[at..]).simd_eq(u8x8::splat(b' '));
    spaces.to_bitmask() != 0
}

/// The place behind the blocks from `at` on that are in order.
#[inline(always)]
fn blocks_end(bytes: &[u8], at: usize) -> usize
    requires some { 1 ≤ at }
    requires within { at ≤ length bytes.now }
    ensures from { at ≤ result }
    ensures within { result ≤ length bytes.now }
    ensures order { AreInOrder bytes.now at result }
    ensures spaced { AreSpaced bytes.now at result }
{
    let mut end = at;
    'blocks: while bytes.len() - end >= BLOCK
        && is_in_order(bytes, end)
        && has_space(bytes, end)
        && has_space(bytes, end + HALF)
    {
        end += BLOCK;
    }
    end
}

/// Behind the last space that stands from `at` up to `to`, or `at`.
#[inline(always)]
fn last_space_end(bytes: &[u8], at: usize, to: usize) -> usize
    requires order { at ≤ to }
    requires within { to ≤ length bytes.now }
    ensures from { at ≤ result }
    ensures within { result ≤ to }
    ensures space { (result ≡ at) ⊎ (get_or bytes.now (result - 1) 0 ≡ 32) }
{
    let mut end = to;
    'back: while end > at && bytes[end - 1] != b' ' {
        end -= 1;
    }
    end
}

/// Up to where numbers stand from `at` on that were gone over by blocks.
#[inline(always)]
pub fn block_numbers_end(bytes: &[u8], at: usize) -> usize
    requires { at ≤ length bytes.now }
    ensures from { at ≤ result }
    ensures within { result ≤ length bytes.now }
    ensures numbers { AreShort 19 (between bytes.now at result) }
{
    if at == 0 || bytes[at - 1] != b' ' {
        return at;
    }
    let end = blocks_end(bytes, at);
    last_space_end(bytes, at, end)
}
