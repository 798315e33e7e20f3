// Letters that may be slips, as a list behind the answers. The text has a block for them:
// `requirement_report/src/remarks.rt`.
ghost use Rattle.std.specs.Prelude.{◌≡◌, ◌++◌, map, OnOk};
ghost use Rattle.std.specs.List.{flat_map};
ghost use Rattle.requirement_document.specs.Values.{document_in};
ghost use Rattle.requirement_report.specs.Slips.{slip_in, slips_of};
ghost use Rattle.requirement_page.specs.Slips.{alone, suspected, slip_item, slip_list, slips_part};

use crate::marks::{put_item_link, put_said_code};
use requirement_answers::Scope;
use requirement_document::Document;
use requirement_report::{Slip, slips_of};
use std::alloc::{AllocError, Global};

/// Adds the letters that may be slips, where the whole document is asked and there are any.
pub fn put_slips(
    alloc: Global,
    document: &Document,
    scope: Scope,
    out: &mut Vec<u8>,
) -> Result<(), AllocError>
    ensures { OnOk result (out.new.items
        ≡ out.old.items ++ slips_part (document_in document.now) scope) }
{
    match scope {
        Scope::All => put_all_slips(alloc, document, out),
        Scope::Item(_) | Scope::Behaviour(_) => Ok(()),
    }
}

/// Adds the list of those of the document, where there are any.
fn put_all_slips(alloc: Global, document: &Document, out: &mut Vec<u8>) -> Result<(), AllocError>
    ensures { OnOk result (out.new.items
        ≡ out.old.items ++ slip_list (document_in document.now) (slips_of (document_in document.now))) }
{
    let slips = slips_of(alloc, document)?;
    put_slip_list(alloc, document, &slips, out)
}

/// Adds the heading and the list of some letters, and nothing where there are none.
fn put_slip_list(
    alloc: Global,
    document: &Document,
    slips: &[Slip],
    out: &mut Vec<u8>,
) -> Result<(), AllocError>
    ensures { OnOk result (out.new.items
        ≡ out.old.items ++ slip_list (document_in document.now) (map slip_in slips.now)) }
{
    if slips.is_empty() {
        return Ok(());
    }
    out.extend_from_slice(b"<h2>Perhaps a slip</h2>\n<ul>\n")?;
    put_each_slip(alloc, document, slips, out)?;
    out.extend_from_slice(b"</ul>\n")
}

/// Adds an entry for each letter.
fn put_each_slip(
    alloc: Global,
    document: &Document,
    slips: &[Slip],
    out: &mut Vec<u8>,
) -> Result<(), AllocError>
    ensures { OnOk result (out.new.items ≡ out.old.items
        ++ flat_map (slip_item (document_in document.now)) (map slip_in slips.now)) }
{
    for slip in slips {
        put_slip(alloc, document, slip, out)?;
    }
    Ok(())
}

/// Adds the entry of a letter: the letter as code, and why it may be a slip.
fn put_slip(
    alloc: Global,
    document: &Document,
    slip: &Slip,
    out: &mut Vec<u8>,
) -> Result<(), AllocError>
    ensures { OnOk result (out.new.items
        ≡ out.old.items ++ slip_item (document_in document.now) (slip_in slip.now)) }
{
    out.extend_from_slice(b"<li>")?;
    put_said_code(alloc, slip.letter.as_str(), out)?;
    out.extend_from_slice(b": ")?;
    put_suspected(alloc, document, slip, out)?;
    out.extend_from_slice(b"</li>\n")
}

/// Adds why a letter may be a slip: in which item alone it stands, which letter it is nearly, or both.
fn put_suspected(
    alloc: Global,
    document: &Document,
    slip: &Slip,
    out: &mut Vec<u8>,
) -> Result<(), AllocError>
    ensures { OnOk result (out.new.items ≡ out.old.items
        ++ suspected (document_in document.now) (slip_in slip.now).items (slip_in slip.now).nearly) }
{
    match &slip.nearly {
        Some(other) => {
            put_alone(alloc, document, &slip.items, b"; ", out)?;
            out.extend_from_slice(b"nearly ")?;
            put_said_code(alloc, other.as_str(), out)
        }
        None => put_alone(alloc, document, &slip.items, b"", out),
    }
}

/// Adds the item that alone has the letter, where there is one, and some words behind that.
fn put_alone(
    alloc: Global,
    document: &Document,
    items: &[u32],
    behind: &[u8],
    out: &mut Vec<u8>,
) -> Result<(), AllocError>
    ensures { OnOk result (out.new.items
        ≡ out.old.items ++ alone (document_in document.now) items.now behind.now) }
{
    if items.len() != 1 {
        return Ok(());
    }
    out.extend_from_slice(b"in ")?;
    put_item_link(alloc, document, items[0], out)?;
    out.extend_from_slice(b" alone")?;
    out.extend_from_slice(behind)
}
