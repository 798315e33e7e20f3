// Definitions: a map of names to formulas, in which each is put in into those behind it.
ghost use Rattle.std.specs.Prelude.{◌≡◌, ◌∷◌, ◌++◌, [], false, None, Some, IfOk, IfErr, OnOk, MatchOption, ℕ};
ghost use Rattle.std.specs.Prelude.{List, string_bytes};
ghost use Rattle.toml.specs.View.{view};
ghost use Rattle.requirement_document.specs.declared.fault.Section.TheVariants as sections;
ghost use Rattle.ltl_syntax.specs.Formula.{Formula};
ghost use Rattle.requirement_document.specs.Substitution.{found, names_defined};
ghost use Rattle.requirement_document.specs.Entry.{IsDefinition, IsLetter, IsNewName, is_among};
ghost use Rattle.requirement_document.specs.Document.{HasDefinitions, IsRefusedOf};
ghost use Rattle.requirement_document.specs.Inner.{defined_in, tree_in, IsRefusedAt};

use crate::accepting::{formula_of, formula_text, is_letter};
use crate::entries::entries_of;
use crate::fault::Refusal;
use crate::formulas::Tree;
use crate::keys::check_keys;
use crate::names::{name_of, sentence_of};
use crate::place::placed;
use crate::{Cause, Refused, Section};
use indexmap::IndexMap;
use std::alloc::{AllocError, Global};
use toml::Value;

/// What a name is defined as.
pub fn find<'d>(definitions: &'d IndexMap<String, Tree>, name: &str) -> Option<&'d Tree>
    ensures { MatchOption result (found (defined_in definitions.now.entries) name.now ≡ None)
        (λ t. found (defined_in definitions.now.entries) name.now ≡ Some (tree_in t.now)) }
{
    definitions.get(name)
}

/// Whether the name is defined.
fn is_defined(definitions: &IndexMap<String, Tree>, name: &str) -> bool
    ensures { result ≡ is_among name.now (names_defined (defined_in definitions.now.entries)) }
{
    find(definitions, name).is_some()
}

/// Puts a definition behind the others.
fn define(
    definitions: &mut IndexMap<String, Tree>,
    name: String,
    tree: Tree,
) -> Result<(), AllocError>
    requires { is_among (string_bytes name) (names_defined (defined_in definitions.old.entries)) ≡ false }
    ensures { OnOk result (defined_in definitions.new.entries
        ≡ defined_in definitions.old.entries ++ (string_bytes name, tree_in tree) ∷ []) }
{
    definitions.insert(name, tree)?;
    Ok(())
}

/// The name of a definition: a letter that is not defined before.
fn new_letter(
    alloc: Global,
    entry: &Value,
    definitions: &IndexMap<String, Tree>,
) -> Result<String, Refusal>
    ensures name { IfOk result (λ name. IsNewName (view entry.now)
        (names_defined (defined_in definitions.now.entries)) (string_bytes name)) }
    ensures letter { IfOk result (λ name. IsLetter (string_bytes name)) }
    ensures err { IfErr result (IsRefusedAt sections.Define (defined_in definitions.now.entries)
        (names_defined (defined_in definitions.now.entries)) (view entry.now)) }
{
    let name = name_of(entry)?;
    if is_defined(definitions, name) {
        return Err(Refusal::Cause(Cause::NameTwice));
    }
    if !is_letter(alloc, name)? {
        return Err(Refusal::Cause(Cause::NoLetter));
    }
    Ok(String::from_str(alloc, name)?)
}

/// Reads a definition, and puts it behind the others.
#[tactic(auto, using(crate::proofs::Refusing::formula_refused))]
fn add_definition(
    alloc: Global,
    entry: &Value,
    definitions: &mut IndexMap<String, Tree>,
) -> Result<(), Refusal>
    ensures ok { OnOk result ((new : List ℕ × Formula)
        × IsDefinition (defined_in definitions.old.entries) (view entry.now) new
        × (defined_in definitions.new.entries ≡ defined_in definitions.old.entries ++ new ∷ [])) }
    ensures err { IfErr result (IsRefusedAt sections.Define (defined_in definitions.old.entries)
        (names_defined (defined_in definitions.old.entries)) (view entry.now)) }
{
    check_keys(alloc, Section::Define, entry)?;
    let name = new_letter(alloc, entry, definitions)?;
    let _sentence = sentence_of(alloc, entry)?;
    let text = formula_text(entry)?;
    let tree = formula_of(alloc, text, definitions)?;
    define(definitions, name, tree)?;
    Ok(())
}

/// The definitions of the document.
pub fn read_definitions(alloc: Global, root: &Value) -> Result<IndexMap<String, Tree>, Refused>
    ensures ok { IfOk result (λ m. HasDefinitions (view root.now) (defined_in m.entries)) }
    ensures err { IfErr result (IsRefusedOf (view root.now)) }
{
    let entries = entries_of(root, Section::Define)?;
    let mut definitions = IndexMap::new(alloc);
    'each: for index in 0..entries.len() {
        let entry = &entries[index];
        match add_definition(alloc, entry, &mut definitions) {
            Ok(()) => {}
            Err(refusal) => return Err(placed(alloc, Section::Define, index, entry, refusal)),
        }
    }
    Ok(definitions)
}
