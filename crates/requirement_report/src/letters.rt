// The letters of a document, and the items that have them. The list of letters and the letters that may be
// slips are made from these. Letters that stand in behaviours alone are not among them. The JSON lists them
// in `requirement_json/src/letters.rt`.
ghost use Rattle.std.specs.Prelude.{◌≡◌, ◌<◌, ◌++◌, length, map, IfOk, OnOk};
ghost use Rattle.std.specs.List.{flat_map};
ghost use Rattle.requirement_document.specs.Values.{document_in, item_in};
ghost use Rattle.requirement_report.specs.Letters.{item_letters, set_of, user_among, users_among, use_among};
ghost use Rattle.requirement_report.specs.Letters.{use_in, uses_of, use_line, names_text};
ghost use Rattle.requirement_report.specs.Letters.{name_behind, letters_text};
ghost use Rattle.requirement_report.specs.Pictures.{has, ascending};

use crate::flat::put_flat;
use crate::lines::put_head;
use crate::subjects::name_of;
use crate::walks::put_letters;
use ltl_word::{Name, StateSet};
use requirement_document::{Document, Item};
use std::alloc::{AllocError, Global};

/// A letter with the items that have it.
#[derive(Drop)]
pub struct Use {
    pub letter: String,
    /// Their numbers, from 0, ascending.
    pub items: Vec<u32>,
}

/// The letters of all items with their items, in ascending order of their bytes.
pub fn uses_of(alloc: Global, document: &Document) -> Result<Vec<Use>, AllocError>
    ensures { IfOk result (λ uses. map use_in uses.items ≡ uses_of (document_in document.now)) }
{
    let sets = sets_of(alloc, &document.items)?;
    let letters = all_letters(alloc, &document.items)?;
    uses_among(alloc, &sets, letters.names())
}

/// The letters of each item, in the order of the items.
fn sets_of(alloc: Global, items: &[Item]) -> Result<Vec<StateSet>, AllocError>
    ensures { IfOk result (λ sets. sets.items ≡ map (λ i. set_of (item_in i)) items.now) }
{
    let mut sets = Vec::new(alloc);
    for item in items {
        sets.push(set_of(alloc, item)?)?;
    }
    Ok(sets)
}

/// The letters of one item, each once.
fn set_of(alloc: Global, item: &Item) -> Result<StateSet, AllocError>
    ensures { IfOk result (λ set. set ≡ set_of (item_in item.now)) }
{
    let mut names = Vec::new(alloc);
    put_letters(alloc, &item.table, item.root, &mut names)?;
    ascending(names)
}

/// The letters of all items, each once and in ascending order of their bytes.
fn all_letters(alloc: Global, items: &[Item]) -> Result<StateSet, AllocError>
    ensures { IfOk result (λ set. set ≡ ascending (flat_map (λ i. item_letters (item_in i)) items.now)) }
{
    let mut names = Vec::new(alloc);
    put_all_letters(alloc, items, &mut names)?;
    ascending(names)
}

/// Adds the letters of all items, one item behind the other. A letter is added wherever it stands.
fn put_all_letters(alloc: Global, items: &[Item], names: &mut Vec<Name>) -> Result<(), AllocError>
    ensures { OnOk result (names.new.items
        ≡ names.old.items ++ flat_map (λ i. item_letters (item_in i)) items.now) }
{
    for item in items {
        put_letters(alloc, &item.table, item.root, names)?;
    }
    Ok(())
}

/// The names in ascending order, each once.
pub fn ascending(names: Vec<Name>) -> Result<StateSet, AllocError>
    ensures { IfOk result (λ set. set ≡ ascending names.items) }
{
    StateSet::from_names(names)
}

/// Each letter with the numbers of the sets that have it. The set of an item has the number of the item.
fn uses_among(alloc: Global, sets: &[StateSet], letters: &[Name]) -> Result<Vec<Use>, AllocError>
    ensures { IfOk result (λ uses. map use_in uses.items ≡ map (use_among sets.now) letters.now) }
{
    let mut uses = Vec::new(alloc);
    for letter in letters {
        uses.push(use_among(alloc, sets, letter.text())?)?;
    }
    Ok(uses)
}

/// One letter with the numbers of the sets that have it.
fn use_among(alloc: Global, sets: &[StateSet], letter: &str) -> Result<Use, AllocError>
    ensures { IfOk result (λ found. use_in found ≡ use_among sets.now letter.now) }
{
    let items = users_among(alloc, sets, letter)?;
    Ok(Use {
        letter: String::from_str(alloc, letter)?,
        items,
    })
}

/// The numbers of the sets that have the letter, from 0 and ascending.
fn users_among(alloc: Global, sets: &[StateSet], letter: &str) -> Result<Vec<u32>, AllocError>
    ensures { IfOk result (λ users. users.items ≡ users_among sets.now letter.now (length sets.now)) }
{
    let Ok(count) = u32::try_from(sets.len()) else {
        return Err(AllocError);
    };
    let mut users = Vec::new(alloc);
    'sets: for number in 0..count {
        put_user(sets, letter, number, &mut users)?;
    }
    Ok(users)
}

/// Adds the number of a set, if that has the letter.
fn put_user(
    sets: &[StateSet],
    letter: &str,
    number: u32,
    users: &mut Vec<u32>,
) -> Result<(), AllocError>
    requires { number < length sets.now }
    ensures { OnOk result (users.new.items ≡ users.old.items ++ user_among sets.now letter.now number) }
{
    if has(&sets[number as usize], letter) {
        users.push(number)?;
    }
    Ok(())
}

fn has(set: &StateSet, letter: &str) -> bool
    ensures { result ≡ has letter.now set.now }
{
    set.has(letter)
}

/// A line for each letter of the document, with the names of the items that have it.
pub fn letters_text(alloc: Global, document: &Document) -> Result<Vec<u8>, AllocError>
    ensures { IfOk result (λ text. text.items ≡ letters_text (document_in document.now)) }
{
    let uses = uses_of(alloc, document)?;
    let mut out = Vec::new(alloc);
    put_uses(alloc, document, &uses, &mut out)?;
    Ok(out)
}

/// Adds a line for each letter.
fn put_uses(
    alloc: Global,
    document: &Document,
    uses: &[Use],
    out: &mut Vec<u8>,
) -> Result<(), AllocError>
    ensures { OnOk result (out.new.items
        ≡ out.old.items ++ flat_map (λ u. use_line (document_in document.now) (use_in u)) uses.now) }
{
    for one in uses {
        put_use(alloc, document, one, out)?;
    }
    Ok(())
}

/// Adds the line of a letter: the letter, and the names of the items that have it.
fn put_use(
    alloc: Global,
    document: &Document,
    one: &Use,
    out: &mut Vec<u8>,
) -> Result<(), AllocError>
    ensures { OnOk result (out.new.items
        ≡ out.old.items ++ use_line (document_in document.now) (use_in one.now)) }
{
    let mut letter = Vec::new(alloc);
    put_flat(alloc, one.letter.as_str(), &mut letter)?;
    let mut names = Vec::new(alloc);
    put_names(alloc, document, &one.items, &mut names)?;
    put_head(&letter, &names, out)
}

/// Adds the names of the items, joined by commas.
fn put_names(
    alloc: Global,
    document: &Document,
    items: &[u32],
    out: &mut Vec<u8>,
) -> Result<(), AllocError>
    ensures { OnOk result (out.new.items
        ≡ out.old.items ++ names_text (document_in document.now) items.now) }
{
    if items.is_empty() {
        return Ok(());
    }
    put_flat(alloc, name_of(document, items[0]), out)?;
    put_names_behind(alloc, document, &items[1..], out)
}

/// Adds the names of the items behind the first, each behind a comma.
fn put_names_behind(
    alloc: Global,
    document: &Document,
    items: &[u32],
    out: &mut Vec<u8>,
) -> Result<(), AllocError>
    ensures { OnOk result (out.new.items
        ≡ out.old.items ++ flat_map (name_behind (document_in document.now)) items.now) }
{
    for item in items {
        out.extend_from_slice(b", ")?;
        put_flat(alloc, name_of(document, *item), out)?;
    }
    Ok(())
}
