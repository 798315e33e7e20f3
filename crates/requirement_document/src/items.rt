// The items of a role.
ghost use Rattle.std.specs.Prelude.{◌≡◌, ◌∷◌, ◌++◌, [], IfOk, IfErr, OnOk, List, map, string_bytes};
ghost use Rattle.toml.specs.View.{view};
ghost use Rattle.requirement_document.specs.Values.{ItemValue, item_in};
ghost use Rattle.requirement_document.specs.Entry.{IsItem};
ghost use Rattle.requirement_document.specs.Document.{section_of, name_at, in_list, names_in, taken_before};
ghost use Rattle.requirement_document.specs.Document.{HasDefinitions, HasItems, IsRefusedOf};
ghost use Rattle.requirement_document.specs.Inner.{defined_in, IsRefusedAt};

use crate::accepting::{formula_of, formula_text};
use crate::entries::entries_of;
use crate::fault::Refusal;
use crate::formulas::Tree;
use crate::keys::check_keys;
use crate::names::{new_name, sentence_of, take_name};
use crate::place::placed;
use crate::words::section_of;
use crate::{Item, Refused, Role};
use indexmap::{IndexMap, IndexSet};
use std::alloc::Global;
use toml::Value;

/// The item that an entry is.
#[tactic(auto, using(crate::proofs::Refusing::formula_refused, crate::proofs::Refusing::role_has_formulas))]
fn item(
    alloc: Global,
    role: Role,
    entry: &Value,
    definitions: &IndexMap<String, Tree>,
    names: &IndexSet<String>,
) -> Result<Item, Refusal>
    ensures ok { IfOk result (λ i. IsItem role (defined_in definitions.now.entries)
        (map string_bytes names.now.keys) (view entry.now) (item_in i)) }
    ensures err { IfErr result (IsRefusedAt (section_of role) (defined_in definitions.now.entries)
        (map string_bytes names.now.keys) (view entry.now)) }
{
    check_keys(alloc, section_of(role), entry)?;
    let name = new_name(entry, names)?;
    let sentence = sentence_of(alloc, entry)?;
    let text = formula_text(entry)?;
    let tree = formula_of(alloc, text, definitions)?;
    let own = String::from_str(alloc, name)?;
    let formula = String::from_str(alloc, text)?;
    Ok(Item {
        role,
        name: own,
        sentence,
        formula,
        table: tree.table,
        root: tree.root,
    })
}

/// Reads an item, puts it behind the others, and takes its name.
fn add_item(
    alloc: Global,
    role: Role,
    entry: &Value,
    definitions: &IndexMap<String, Tree>,
    names: &mut IndexSet<String>,
    items: &mut Vec<Item>,
) -> Result<(), Refusal>
    ensures item { OnOk result ((i : ItemValue) × IsItem role (defined_in definitions.now.entries)
        (map string_bytes names.old.keys) (view entry.now) i
        × (map item_in items.new.items ≡ map item_in items.old.items ++ i ∷ [])) }
    ensures name { OnOk result (map string_bytes names.new.keys
        ≡ map string_bytes names.old.keys ++ in_list (name_at (view entry.now))) }
    ensures err { IfErr result (IsRefusedAt (section_of role) (defined_in definitions.now.entries)
        (map string_bytes names.old.keys) (view entry.now)) }
{
    let item = item(alloc, role, entry, definitions, names)?;
    take_name(alloc, names, item.name.as_str())?;
    items.push(item)?;
    Ok(())
}

/// Puts the items of a role behind the others, and takes their names.
pub fn add_items(
    alloc: Global,
    role: Role,
    root: &Value,
    definitions: &IndexMap<String, Tree>,
    names: &mut IndexSet<String>,
    items: &mut Vec<Item>,
) -> Result<(), Refused>
    requires defined { HasDefinitions (view root.now) (defined_in definitions.now.entries) }
    requires taken { map string_bytes names.old.keys ≡ taken_before (section_of role) (view root.now) }
    ensures items { OnOk result ((added : List ItemValue)
        × HasItems role (defined_in definitions.now.entries) (view root.now) added
        × (map item_in items.new.items ≡ map item_in items.old.items ++ added)) }
    ensures names { OnOk result (map string_bytes names.new.keys
        ≡ taken_before (section_of role) (view root.now) ++ names_in (section_of role) (view root.now)) }
    ensures err { IfErr result (IsRefusedOf (view root.now)) }
{
    let section = section_of(role);
    let entries = entries_of(root, section)?;
    'each: for index in 0..entries.len() {
        let entry = &entries[index];
        match add_item(alloc, role, entry, definitions, names, items) {
            Ok(()) => {}
            Err(refusal) => return Err(placed(alloc, section, index, entry, refusal)),
        }
    }
    Ok(())
}
