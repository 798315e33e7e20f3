// Where a fault of a formula is: its line, and a caret under the place. Columns count characters, and each of
// them is shown as one, so that the caret stands under its own.
ghost use Rattle.std.specs.Prelude.{◌≡◌, ◌≤◌, ◌+◌, ◌++◌, List, ℕ, length, take, drop, IfOk, OnOk};
ghost use Rattle.std.specs.List.{flat_map};
ghost use Rattle.requirement_report.specs.Lines.{inner, newline_count, lines_in};
ghost use Rattle.requirements_top.specs.Pointing.{behind, last_line, first_line, begins_character};
ghost use Rattle.requirements_top.specs.Pointing.{character_count};
ghost use Rattle.requirements_top.specs.Pointing.{characters, blank_for, place_line, shown_line};
ghost use Rattle.requirements_top.specs.Pointing.{caret_line, pointing};

use requirement_report::plain;
use std::alloc::{AllocError, Global};

/// Adds the line and the column of the place between the two parts of a formula, its line, and a caret under
/// it.
pub fn put_pointing(
    alloc: Global,
    front: &[u8],
    back: &[u8],
    out: &mut Vec<u8>,
) -> Result<(), AllocError>
    ensures { OnOk result (out.new.items ≡ out.old.items ++ pointing front.now back.now) }
{
    let before = last_line(alloc, front)?;
    put_place_line(alloc, front, &before, out)?;
    put_shown_line(alloc, &before, back, out)?;
    put_caret_line(alloc, &before, out)
}

/// What stands behind the last newline.
fn last_line(alloc: Global, text: &[u8]) -> Result<Vec<u8>, AllocError>
    ensures { IfOk result (λ line. line.items ≡ last_line text.now) }
{
    let mut line = Vec::new(alloc);
    for byte in text {
        put_behind(*byte, &mut line)?;
    }
    Ok(line)
}

fn put_behind(byte: u8, line: &mut Vec<u8>) -> Result<(), AllocError>
    ensures { OnOk result (line.new.items ≡ behind line.old.items byte) }
{
    if byte == b'\n' {
        line.clear();
        return Ok(());
    }
    line.push(byte)?;
    Ok(())
}

/// Adds what stands before the first newline.
fn put_first_line(text: &[u8], line: &mut Vec<u8>) -> Result<(), AllocError>
    ensures { OnOk result (line.new.items ≡ line.old.items ++ first_line text.now) }
{
    for byte in text {
        if *byte == b'\n' {
            return Ok(());
        }
        line.push(*byte)?;
    }
    Ok(())
}

fn put_place_line(
    alloc: Global,
    front: &[u8],
    before: &[u8],
    out: &mut Vec<u8>,
) -> Result<(), AllocError>
    requires { before.now ≡ last_line front.now }
    ensures { OnOk result (out.new.items ≡ out.old.items ++ place_line front.now) }
{
    let line = newlines(front) as u128 + 1;
    let column = characters(before) as u128 + 1;
    let mut text = Vec::from_slice(alloc, b"line ")?;
    text.extend_from_slice(line.to_string(alloc)?.as_bytes())?;
    text.extend_from_slice(b", column ")?;
    text.extend_from_slice(column.to_string(alloc)?.as_bytes())?;
    put_inner(&text, out)
}

fn put_shown_line(
    alloc: Global,
    before: &[u8],
    back: &[u8],
    out: &mut Vec<u8>,
) -> Result<(), AllocError>
    ensures { OnOk result (out.new.items ≡ out.old.items ++ shown_line (before.now ++ first_line back.now)) }
{
    let mut line = before.to_vec(alloc)?;
    put_first_line(back, &mut line)?;
    let text = String::from_utf8_lossy(alloc, &line)?;
    let shown = plain(alloc, text.as_str())?;
    put_inner(shown.as_bytes(), out)
}

fn put_caret_line(alloc: Global, before: &[u8], out: &mut Vec<u8>) -> Result<(), AllocError>
    ensures { OnOk result (out.new.items ≡ out.old.items ++ caret_line before.now) }
{
    let mut line = Vec::new(alloc);
    put_blanks(before, &mut line)?;
    line.push(b'^')?;
    put_inner(&line, out)
}

/// Adds a blank for each character.
fn put_blanks(text: &[u8], line: &mut Vec<u8>) -> Result<(), AllocError>
    ensures { OnOk result (line.new.items ≡ line.old.items ++ flat_map blank_for text.now) }
{
    for byte in text {
        put_blank_for(*byte, line)?;
    }
    Ok(())
}

fn put_blank_for(byte: u8, line: &mut Vec<u8>) -> Result<(), AllocError>
    ensures { OnOk result (line.new.items ≡ line.old.items ++ blank_for byte) }
{
    if begins_character(byte) {
        line.push(b' ')?;
    }
    Ok(())
}

/// How many newlines there are.
fn newlines(text: &[u8]) -> usize
    ensures { result ≡ lines_in text.now }
{
    let mut count = 0;
    for byte in text {
        count += newline_count(*byte);
    }
    count
}

fn newline_count(byte: u8) -> usize
    ensures value { result ≡ newline_count byte }
    ensures small { result ≤ 1 }
{
    if byte == b'\n' { 1 } else { 0 }
}

/// How many characters there are.
fn characters(text: &[u8]) -> usize
    ensures { result ≡ characters text.now }
{
    let mut count = 0;
    for byte in text {
        count += character_count(*byte);
    }
    count
}

fn character_count(byte: u8) -> usize
    ensures value { result ≡ character_count byte }
    ensures small { result ≤ 1 }
{
    if begins_character(byte) { 1 } else { 0 }
}

fn begins_character(byte: u8) -> bool
    ensures { result ≡ begins_character byte }
{
    byte < 128 || byte >= 192
}

/// Adds the text as a line behind four blanks.
pub fn put_inner(text: &[u8], out: &mut Vec<u8>) -> Result<(), AllocError>
    ensures { OnOk result (out.new.items ≡ out.old.items ++ inner text.now) }
{
    out.extend_from_slice(b"    ")?;
    out.extend_from_slice(text)?;
    out.extend_from_slice(b"\n")
}
