// The formula that a text reads as, with definitions put in, or what is wrong with the text.
ghost use Rattle.std.specs.Prelude.{◌≡◌, ◌<◌, ◌↔◌, IfOk, IfErr, IsTrue, ℕ, List, length};
ghost use Rattle.toml.specs.View.{view};
ghost use Rattle.ltl_syntax.specs.Formula.{Letter, Name};
ghost use Rattle.ltl_syntax.specs.Table.{tree_at};
ghost use Rattle.ltl_parser.specs.Text.{IsAccepted};
ghost use Rattle.requirement_document.specs.declared.fault.Key.TheVariants as keys;
ghost use Rattle.requirement_document.specs.declared.fault.Section.{Section};
ghost use Rattle.requirement_document.specs.Keys.{HasFormulas};
ghost use Rattle.requirement_document.specs.Substitution.{Definitions};
ghost use Rattle.requirement_document.specs.Entry.{HasText, IsLetter, IsPutIn};
ghost use Rattle.requirement_document.specs.Inner.{defined_in, tree_in, cause_of, IsRefusedAt, IsRefusedText};

use crate::fault::Refusal;
use crate::formulas::Tree;
use crate::putting::put_in;
use crate::sizes::size_of;
use crate::values::{TextAt, text_at};
use crate::{Cause, Key};
use formula_reading::{FormulaFault, Reading, read_formula};
use indexmap::IndexMap;
use ltl_syntax::{FormulaTable, MAX_SIZE, Node};
use std::alloc::{AllocError, Global};
use toml::Value;

/// The text of the formula of an entry.
pub fn formula_text<'v>(entry: &'v Value) -> Result<&'v str, Refusal>
    ensures ok { IfOk result (λ text. HasText (view entry.now) keys.Formula text.now) }
    ensures err { (s : Section) (ds : Definitions) (taken : List (List ℕ)) → HasFormulas s
        → IfErr result (IsRefusedAt s ds taken (view entry.now)) }
{
    match text_at(entry, Key::Formula) {
        TextAt::Missing => Err(Refusal::Cause(Cause::Missing(Key::Formula))),
        TextAt::Unfit => Err(Refusal::Cause(Cause::Unfit(Key::Formula))),
        TextAt::Given(text) => Ok(text),
    }
}

/// The formula as it is written.
fn written(alloc: Global, text: &[u8]) -> Result<Tree, Refusal>
    ensures ok { IfOk result (λ t. IsAccepted text.now (tree_in t)) }
    ensures err { (ds : Definitions) → IfErr result (IsRefusedText ds text.now) }
{
    match read_formula(alloc, text)? {
        Reading::Formula { table, root } => {
            let size = table.size() as u64;
            Ok(Tree { table, root, size })
        }
        Reading::Refused(fault) => Err(Refusal::Cause(cause_of(fault))),
    }
}

/// What is wrong with a text that has this fault.
fn cause_of(fault: FormulaFault) -> Cause
    ensures { result ≡ cause_of fault }
{
    match fault {
        FormulaFault::Long => Cause::TooLong,
        FormulaFault::Lexical(byte) => Cause::Lexical(byte),
        FormulaFault::Grammar(byte) => Cause::Grammar(byte),
        FormulaFault::Nodes(count) => Cause::Size(count as u64),
    }
}

/// The formula with the definitions put in.
pub fn formula_of(
    alloc: Global,
    text: &str,
    definitions: &IndexMap<String, Tree>,
) -> Result<Tree, Refusal>
    ensures ok { IfOk result (λ t. IsPutIn (defined_in definitions.now.entries) text.now (tree_in t)) }
    ensures err { IfErr result (IsRefusedText (defined_in definitions.now.entries) text.now) }
{
    let own = written(alloc, text.as_bytes())?;
    let size = size_of(alloc, &own.table, own.root, definitions)?;
    if size > MAX_SIZE as u64 {
        return Err(Refusal::Cause(Cause::Size(size)));
    }
    let mut table = FormulaTable::new(alloc);
    let root = put_in(alloc, &own.table, own.root, definitions, &mut table)?;
    Ok(Tree { table, root, size })
}

/// Whether the text is that of one letter, and of nothing around it.
pub fn is_letter(alloc: Global, name: &str) -> Result<bool, AllocError>
    ensures { IfOk result (λ b. IsTrue b ↔ IsLetter name.now) }
{
    formula_reading::laws::one_reading();
    match read_formula(alloc, name.as_bytes())? {
        Reading::Formula { table, root } => Ok(is_letter_of(&table, root, name)),
        Reading::Refused(_) => Ok(false),
    }
}

/// Whether the tree under the root is the letter of this name.
fn is_letter_of(table: &FormulaTable, root: u32, name: &str) -> bool
    requires { root < length table.now.nodes }
    ensures { IsTrue result ↔ (tree_at table.now root ≡ Letter (Name name.now)) }
{
    match table.node(root) {
        Node::Letter(letter) => table.name_of(letter) == name,
        _ => false,
    }
}
