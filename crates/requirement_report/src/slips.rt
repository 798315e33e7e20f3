// Letters that may be slips: those that stand in one item alone, and those that are nearly another letter.
// Whoever wrote the document knows whether they are. All three faces of a report show them.
ghost use Rattle.std.specs.Prelude.{◌≡◌, ◌++◌, map, string_bytes, option_map, IfOk, OnOk};
ghost use Rattle.requirement_document.specs.Values.{document_in};
ghost use Rattle.requirement_report.specs.Letters.{use_in};
ghost use Rattle.requirement_report.specs.Known.{known_in};
ghost use Rattle.requirement_report.specs.Slips.{slip_in, all_slips, slips_among, slip_of, is_slip, slips_of};
ghost use Rattle.requirement_report.specs.Slips.{known_of, is_meant, nearest_known};

use crate::known::Known;
use crate::letters::{Use, uses_of};
use crate::near::{is_near, known};
use requirement_document::Document;
use std::alloc::{AllocError, Global};

/// The most letters that are held against each other.
const MOST_LETTERS: usize = 16_384;

/// A letter that may be a slip.
#[derive(Drop)]
pub struct Slip {
    pub letter: String,
    /// The numbers of the items that have it.
    pub items: Vec<u32>,
    /// The first letter that it is nearly, among those that stand in as many items or more.
    pub nearly: Option<String>,
}

/// The letters of the document that may be slips, in ascending order of their bytes.
pub fn slips_of(alloc: Global, document: &Document) -> Result<Vec<Slip>, AllocError>
    ensures { IfOk result (λ slips. map slip_in slips.items ≡ slips_of (document_in document.now)) }
{
    let uses = uses_of(alloc, document)?;
    slips_among(alloc, &uses)
}

/// Those among some letters with their items, in their order. Each is held against each, which would take too
/// long with many: of more than 16,384 letters none is a slip.
pub fn slips_among(alloc: Global, uses: &[Use]) -> Result<Vec<Slip>, AllocError>
    ensures { IfOk result (λ slips. map slip_in slips.items ≡ slips_among (map use_in uses.now)) }
{
    if uses.len() > MOST_LETTERS {
        return Ok(Vec::new(alloc));
    }
    all_slips(alloc, uses)
}

/// The same, whatever their number.
fn all_slips(alloc: Global, uses: &[Use]) -> Result<Vec<Slip>, AllocError>
    ensures { IfOk result (λ slips. map slip_in slips.items ≡ all_slips (map use_in uses.now)) }
{
    let known = all_known(alloc, uses)?;
    let mut slips = Vec::new(alloc);
    for one in uses {
        put_slip(alloc, &known, one, &mut slips)?;
    }
    Ok(slips)
}

/// All letters, ready to be compared, in their order.
fn all_known(alloc: Global, uses: &[Use]) -> Result<Vec<Known>, AllocError>
    ensures { IfOk result (λ known. map known_in known.items
        ≡ map (λ u. known_of (use_in u)) uses.now) }
{
    let mut all = Vec::new(alloc);
    for one in uses {
        all.push(known_of(alloc, one)?)?;
    }
    Ok(all)
}

/// A letter, ready to be compared, with the number of items that have it.
fn known_of(alloc: Global, one: &Use) -> Result<Known, AllocError>
    ensures { IfOk result (λ made. known_in made ≡ known_of (use_in one.now)) }
{
    known(alloc, one.letter.as_str(), one.items.len())
}

/// Adds the letter if it may be a slip.
fn put_slip(
    alloc: Global,
    known: &[Known],
    one: &Use,
    slips: &mut Vec<Slip>,
) -> Result<(), AllocError>
    ensures { OnOk result (map slip_in slips.new.items ≡ map slip_in slips.old.items
        ++ slip_of (use_in one.now) (nearest_known (map known_in known.now) (known_of (use_in one.now)))) }
{
    let own = known_of(alloc, one)?;
    let nearly = nearest(alloc, known, &own)?;
    if is_slip(one, &nearly) {
        slips.push(slip_with(alloc, one, nearly)?)?;
    }
    Ok(())
}

/// The slip that this letter may be, with the letter that it is nearly. It keeps copies.
fn slip_with(alloc: Global, one: &Use, nearly: Option<String>) -> Result<Slip, AllocError>
    ensures { IfOk result (λ slip. slip_in slip ≡ record {
      letter = string_bytes one.now.letter;
      items = one.now.items.items;
      nearly = option_map string_bytes nearly;
    }) }
{
    Ok(Slip {
        letter: String::from_str(alloc, one.letter.as_str())?,
        items: Vec::from_slice(alloc, &one.items)?,
        nearly,
    })
}

/// Whether the letter may be a slip: it is nearly another one, or stands in one item alone.
fn is_slip(one: &Use, nearly: &Option<String>) -> bool
    ensures { result ≡ is_slip (use_in one.now) (option_map string_bytes nearly.now) }
{
    match nearly {
        Some(_) => true,
        None => one.items.len() == 1,
    }
}

/// The first letter in their order that this one is nearly. Another one may be as near.
fn nearest(alloc: Global, all: &[Known], one: &Known) -> Result<Option<String>, AllocError>
    ensures { IfOk result (λ nearly. option_map string_bytes nearly
        ≡ nearest_known (map known_in all.now) (known_in one.now)) }
{
    for other in all {
        if is_meant(alloc, one, other)? {
            return Ok(Some(String::from_str(alloc, other.letter.as_str())?));
        }
    }
    Ok(None)
}

/// Whether this one is nearly the other, which stands in as many items or more: the more common one is meant.
fn is_meant(alloc: Global, one: &Known, other: &Known) -> Result<bool, AllocError>
    ensures { IfOk result (λ meant. meant ≡ is_meant (known_in one.now) (known_in other.now)) }
{
    if one.count > other.count {
        return Ok(false);
    }
    is_near(alloc, one, other)
}
