// What matters of the members of a conflict. Where its core is known, each member has a part: its formula,
// with a fresh letter in place of all that the conflict does not need. A fresh letter is printed as a number
// between braces, and shown as `…`: something stands there, and it does not matter what.
ghost use Rattle.std.specs.Prelude.{◌≡◌, ◌++◌, slice_get, IfOk, OnOk};
ghost use Rattle.std.specs.Option.{option_copied, option_map};
ghost use Rattle.requirement_report.specs.Parts.{is_inside, elided_byte, elided, part_at, part_under};
ghost use Rattle.requirement_report.specs.Parts.{part_of, core_at};

use ltl_syntax::{FormulaTable, print};
use requirement_questions::Core;
use std::alloc::{AllocError, Global};

/// How `…` is written in UTF-8.
const ELLIPSIS: &[u8] = &[226, 128, 166];

/// The core of the conflict at this place of the report, from 0, where it is known.
pub fn core_at(cores: &[Option<Box<Core>>], place: usize) -> Option<&Core>
    ensures { option_copied result ≡ core_at cores.now place }
{
    match cores.get(place) {
        Some(Some(core)) => Some(&**core),
        Some(None) | None => None,
    }
}

/// The text of the part of a conflict's member, elided, by the member's place from 0. None where there is no
/// core, and where it has no such part.
pub fn part_of(
    alloc: Global,
    core: Option<&Core>,
    place: usize,
) -> Result<Option<Vec<u8>>, AllocError>
    ensures { IfOk result (λ part.
        option_map (λ text. text.items) part ≡ part_of (option_copied core.entry) place) }
{
    match core {
        Some(core) => part_in(alloc, core, place),
        None => Ok(None),
    }
}

/// The same where there is a core.
fn part_in(alloc: Global, core: &Core, place: usize) -> Result<Option<Vec<u8>>, AllocError>
    ensures { IfOk result (λ part. option_map (λ text. text.items) part
        ≡ part_under core.now.table (slice_get core.now.parts.items place)) }
{
    match core.parts.get(place) {
        Some(root) => part_at(alloc, &core.table, *root),
        None => Ok(None),
    }
}

/// The text of the part with this root, elided. None where the table has no such node.
fn part_at(alloc: Global, table: &FormulaTable, root: u32) -> Result<Option<Vec<u8>>, AllocError>
    ensures { IfOk result (λ part.
        option_map (λ text. text.items) part ≡ part_at table.now root) }
{
    if root >= table.len() {
        return Ok(None);
    }
    let printed = print(alloc, table, root)?;
    let text = elided(alloc, &printed)?;
    Ok(Some(text))
}

/// The text of a part as it is shown: `…` stands in place of each fresh letter, and so of each piece of the
/// formula that does not matter. A printed formula has no braces but those of fresh letters.
pub fn elided(alloc: Global, text: &[u8]) -> Result<Vec<u8>, AllocError>
    ensures { IfOk result (λ short. short.items ≡ elided text.now) }
{
    let mut out = Vec::new(alloc);
    let mut inside = false;
    for byte in text {
        put_byte(*byte, inside, &mut out)?;
        inside = is_inside(inside, *byte);
    }
    Ok(out)
}

/// Adds a byte of such a text. `…` is put where a brace opens, and all else up to the closing brace is left
/// out.
fn put_byte(byte: u8, inside: bool, out: &mut Vec<u8>) -> Result<(), AllocError>
    ensures { OnOk result (out.new.items ≡ out.old.items ++ elided_byte inside byte) }
{
    if inside {
        return Ok(());
    }
    if byte == b'{' {
        return out.extend_from_slice(ELLIPSIS);
    }
    out.push(byte)?;
    Ok(())
}

/// Whether the next byte still belongs to a number between braces. The closing brace does.
fn is_inside(inside: bool, byte: u8) -> bool
    ensures { result ≡ is_inside inside byte }
{
    if inside { byte != b'}' } else { byte == b'{' }
}
