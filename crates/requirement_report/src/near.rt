// Letters that are nearly the same, so that one may be a slip of the pen for the other. Two such letters
// differ only in capitals and `_`, or by one change: a character more, fewer or another, or two that have
// changed places.
ghost use Rattle.std.specs.Prelude.{◌≡◌, ◌++◌, false, chars, string_bytes, IfOk, OnOk};
ghost use Rattle.requirement_report.specs.Slips.{folded_byte, folded, is_digit};
ghost use Rattle.requirement_report.specs.Slips.{differ_inside, is_mistyped, is_near};
ghost use Rattle.requirement_report.specs.Known.{known_in};

use crate::known::Known;
use std::alloc::{AllocError, Global};
use strsim::osa_distance;

/// Whether two letters differ, and only in capitals of ASCII and `_`, or in one change within them.
pub fn is_near(alloc: Global, one: &Known, other: &Known) -> Result<bool, AllocError>
    ensures { IfOk result (λ near.
        near ≡ is_near (string_bytes one.now.letter) (string_bytes other.now.letter)) }
{
    if one.letter.as_str() == other.letter.as_str() {
        return Ok(false);
    }
    if one.small.as_slice() == other.small.as_slice() {
        return Ok(true);
    }
    is_mistyped(alloc, one, other)
}

/// The letter, with the number of items in which it stands, ready to be compared.
pub fn known(alloc: Global, letter: &str, count: usize) -> Result<Known, AllocError>
    ensures { IfOk result (λ made. known_in made ≡ record { letter = letter.now; count = count }) }
{
    let small = folded(alloc, letter)?;
    let characters = characters(alloc, letter)?;
    Ok(Known {
        letter: String::from_str(alloc, letter)?,
        count,
        small,
        characters,
    })
}

/// The letter without `_`, and with small letters for capitals.
fn folded(alloc: Global, letter: &str) -> Result<Vec<u8>, AllocError>
    ensures { IfOk result (λ made. made.items ≡ folded letter.now) }
{
    let mut made = Vec::new(alloc);
    put_folded(letter.as_bytes(), &mut made)?;
    Ok(made)
}

/// Adds the bytes without `_`, and with small letters for capitals.
fn put_folded(bytes: &[u8], out: &mut Vec<u8>) -> Result<(), AllocError>
    ensures { OnOk result (out.new.items ≡ out.old.items ++ folded bytes.now) }
{
    for byte in bytes {
        put_folded_byte(*byte, out)?;
    }
    Ok(())
}

/// Adds a byte, or its small letter, or nothing for `_`. Capitals are those of ASCII.
fn put_folded_byte(byte: u8, out: &mut Vec<u8>) -> Result<(), AllocError>
    ensures { OnOk result (out.new.items ≡ out.old.items ++ folded_byte byte) }
{
    if byte == b'_' {
        return Ok(());
    }
    if 65 <= byte && byte <= 90 {
        out.push(byte + 32)?;
    } else {
        out.push(byte)?;
    }
    Ok(())
}

/// Whether one change within makes one of the other. Letters of fewer than four characters are left out, as
/// one change is much of them. The lengths tell most that are further apart, before the changes are counted.
#[tactic(auto, using(crate::proofs::Apart::too_long, crate::proofs::Apart::too_short))]
fn is_mistyped(alloc: Global, one: &Known, other: &Known) -> Result<bool, AllocError>
    ensures { IfOk result (λ mistyped.
        mistyped ≡ is_mistyped (string_bytes one.now.letter) (string_bytes other.now.letter)) }
{
    let first = one.characters.len();
    let second = other.characters.len();
    if first < 4 || second < 4 {
        return Ok(false);
    }
    if first + 1 < second {
        return Ok(false);
    }
    if second + 1 < first {
        return Ok(false);
    }
    if !differ_inside(one.characters.as_slice(), other.characters.as_slice()) {
        return Ok(false);
    }
    let changes = osa_distance(alloc, one.letter.as_str(), other.letter.as_str())?;
    Ok(changes == 1)
}

fn characters(alloc: Global, text: &str) -> Result<Vec<char>, AllocError>
    ensures { IfOk result (λ made. made.items ≡ chars text.now) }
{
    text.chars().collect(alloc)
}

/// Whether the first characters that differ may be a slip. They are taken as meant where one is a digit,
/// where they begin a letter or a part of it behind `_`, and where they end both letters. So `floor_1` and
/// `floor_2` are no slips, nor `sendA` and `sendB`, nor two letters of which one is how the other begins.
fn differ_inside(xs: &[char], ys: &[char]) -> bool
    ensures { result ≡ differ_inside false xs.now ys.now }
{
    let mut inside = false;
    let shorter = xs.len().min(ys.len());
    'places: for place in 0..shorter {
        let x = xs[place];
        let y = ys[place];
        if x != y {
            let last = place + 1 == xs.len() && place + 1 == ys.len();
            return inside && !is_digit(x) && !is_digit(y) && !last;
        }
        inside = x != '_';
    }
    false
}

fn is_digit(c: char) -> bool
    ensures { result ≡ is_digit c }
{
    '0' <= c && c <= '9'
}
