// The block of the letters that may be slips. It is a remark and changes no verdict. The page has it in
// `requirement_page/src/slips.rt`, the JSON in `requirement_json/src/letters.rt`.
ghost use Rattle.std.specs.Prelude.{◌≡◌, ◌++◌, map, string_bytes, option_map, IfOk, OnOk};
ghost use Rattle.std.specs.List.{flat_map};
ghost use Rattle.requirement_document.specs.Values.{document_in};
ghost use Rattle.requirement_report.specs.Slips.{slip_in};
ghost use Rattle.requirement_report.specs.Text.{alone_text, nearly_text, both_texts};
ghost use Rattle.requirement_report.specs.Text.{slip_line, slips_block, slips_text};

use crate::blocks::is_all;
use crate::flat::put_flat;
use crate::lines::put_inner;
use crate::slips::{Slip, slips_of};
use crate::subjects::name_of;
use requirement_answers::Scope;
use requirement_document::Document;
use std::alloc::{AllocError, Global};

/// Adds the block where the whole document is asked and there are any such letters.
pub fn put_slips(
    alloc: Global,
    document: &Document,
    scope: Scope,
    out: &mut Vec<u8>,
) -> Result<(), AllocError>
    ensures { OnOk result (out.new.items
        ≡ out.old.items ++ slips_text (document_in document.now) scope) }
{
    if !is_all(scope) {
        return Ok(());
    }
    let slips = slips_of(alloc, document)?;
    put_block(alloc, document, &slips, out)
}

/// Adds the head of the block and its lines, where there are any.
fn put_block(
    alloc: Global,
    document: &Document,
    slips: &[Slip],
    out: &mut Vec<u8>,
) -> Result<(), AllocError>
    ensures { OnOk result (out.new.items
        ≡ out.old.items ++ slips_block (document_in document.now) (map slip_in slips.now)) }
{
    if slips.is_empty() {
        return Ok(());
    }
    out.extend_from_slice(b"\nperhaps a slip\n")?;
    put_slip_lines(alloc, document, slips, out)
}

/// Adds a line for each letter that may be a slip.
fn put_slip_lines(
    alloc: Global,
    document: &Document,
    slips: &[Slip],
    out: &mut Vec<u8>,
) -> Result<(), AllocError>
    ensures { OnOk result (out.new.items
        ≡ out.old.items ++ flat_map (λ s. slip_line (document_in document.now) (slip_in s)) slips.now) }
{
    for slip in slips {
        put_slip_line(alloc, document, slip, out)?;
    }
    Ok(())
}

/// Adds the line of a letter: in which item alone it stands, and which letter it is nearly.
fn put_slip_line(
    alloc: Global,
    document: &Document,
    slip: &Slip,
    out: &mut Vec<u8>,
) -> Result<(), AllocError>
    ensures { OnOk result (out.new.items
        ≡ out.old.items ++ slip_line (document_in document.now) (slip_in slip.now)) }
{
    let alone = alone_text(alloc, document, &slip.items)?;
    let nearly = nearly_text(alloc, &slip.nearly)?;
    let mut line = Vec::new(alloc);
    put_flat(alloc, slip.letter.as_str(), &mut line)?;
    line.extend_from_slice(b": ")?;
    put_both(&alone, &nearly, &mut line)?;
    put_inner(&line, out)
}

/// That the letter stands in one item alone. Empty where it stands in more.
fn alone_text(alloc: Global, document: &Document, items: &[u32]) -> Result<Vec<u8>, AllocError>
    ensures { IfOk result (λ text. text.items ≡ alone_text (document_in document.now) items.now) }
{
    let mut text = Vec::new(alloc);
    if items.len() != 1 {
        return Ok(text);
    }
    text.extend_from_slice(b"in ")?;
    put_flat(alloc, name_of(document, items[0]), &mut text)?;
    text.extend_from_slice(b" alone")?;
    Ok(text)
}

/// Which letter it is nearly. Empty where there is none.
fn nearly_text(alloc: Global, nearly: &Option<String>) -> Result<Vec<u8>, AllocError>
    ensures { IfOk result (λ text. text.items ≡ nearly_text (option_map string_bytes nearly.now)) }
{
    let mut text = Vec::new(alloc);
    match nearly {
        None => Ok(text),
        Some(other) => {
            text.extend_from_slice(b"nearly ")?;
            put_flat(alloc, other.as_str(), &mut text)?;
            Ok(text)
        }
    }
}

/// Adds two remarks, of which either may be empty. A semicolon stands between only where both are there.
fn put_both(first: &[u8], later: &[u8], out: &mut Vec<u8>) -> Result<(), AllocError>
    ensures { OnOk result (out.new.items ≡ out.old.items ++ both_texts first.now later.now) }
{
    out.extend_from_slice(first)?;
    if !first.is_empty() && !later.is_empty() {
        out.extend_from_slice(b"; ")?;
    }
    out.extend_from_slice(later)
}
