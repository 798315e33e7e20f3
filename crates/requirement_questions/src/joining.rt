// Formulas of several tables in one, joined by `&` in their order. Letters of one name are one letter,
// whatever the table.
ghost use Rattle.std.specs.Prelude.{◌≡◌, ◌<◌, ◌≤◌, ◌++◌, List, length, All, IfOk};
ghost use Rattle.ltl_syntax.specs.Formula.{Formula};
ghost use Rattle.requirement_questions.specs.Formulas.{IsThere, AskedIsThere, IsQuestion, asked_formulas};
ghost use Rattle.requirement_questions.specs.Formulas.{some_formulas, formula_in};
ghost use Rattle.requirement_questions.specs.Members.{places};
ghost use Rattle.requirement_questions.specs.Joining.{part_formula, IsPartPut, joined_at, some_of, IsBuilt};
ghost use Rattle.requirement_questions.specs.Joining.{IsAdded, IsFinished, IsWhole, IsJoining};

use crate::members::Member;
use crate::questions::{Given, Question, Wanted};
use formula_copy::{put_node, put_tree};
use ltl_syntax::{BinaryOp, FormulaTable, Node, UnaryOp};
use std::alloc::{AllocError, Global};

/// A formula: a table, and the number of its root there.
#[derive(Drop)]
pub struct Joined {
    pub table: FormulaTable,
    pub root: u32,
}

/// The formula that says that the members hold, and what is asked; none where it is too large.
pub fn join(
    alloc: Global,
    question: &Question<'_>,
    members: &[Member],
) -> Result<Option<Joined>, AllocError>
    requires question { IsQuestion question.now }
    requires members { All (λ m. m.given < length question.now.given.now) members.now }
    ensures { IfOk result (IsJoining (some_formulas question.now (places members.now))) }
{
    let mut table = FormulaTable::new(alloc);
    let mut root = None;
    'places: for k in 0..members.len() {
        let member = members[k];
        let given = question.given[member.given as usize];
        let Some(number) = add(alloc, &mut table, root, given, false)? else {
            return Ok(None);
        };
        root = Some(number);
    }
    finish(alloc, question.asked, table, root)
}

/// The formula of the members, with what is asked joined to it.
fn finish(
    alloc: Global,
    asked: Wanted<'_>,
    table: FormulaTable,
    root: Option<u32>,
) -> Result<Option<Joined>, AllocError>
    requires asked { AskedIsThere asked }
    requires built { IsBuilt table root }
    ensures { IfOk result (λ joined. (formulas : List Formula) → joined_at table root ≡ some_of formulas
        → IsJoining (formulas ++ asked_formulas asked.entry) joined) }
{
    let mut table = table;
    let Some(root) = add_asked(alloc, &mut table, root, asked)? else {
        return Ok(None);
    };
    Ok(Some(Joined { table, root }))
}

/// What is asked, joined to the formula of the members. Where there is neither, the formula is `true`.
fn add_asked(
    alloc: Global,
    table: &mut FormulaTable,
    root: Option<u32>,
    asked: Wanted<'_>,
) -> Result<Option<u32>, AllocError>
    requires asked { AskedIsThere asked }
    requires built { IsBuilt table.old root }
    ensures { IfOk result (IsWhole (joined_at table.old root) asked.entry table.new) }
{
    match asked {
        Wanted::Nothing => some_root(table, root),
        Wanted::Holds(given) => add(alloc, table, root, given, false),
        Wanted::Fails(given) => add(alloc, table, root, given, true),
    }
}

/// The root of the formula of the members, or `true` where there are none.
fn some_root(table: &mut FormulaTable, root: Option<u32>) -> Result<Option<u32>, AllocError>
    requires { IsBuilt table.old root }
    ensures { IfOk result (IsFinished (joined_at table.old root) table.new) }
{
    match root {
        Some(number) => Ok(Some(number)),
        None => put_node(table, Node::Const(true)),
    }
}

/// Joins a given formula, or its negation, to what is there.
fn add(
    alloc: Global,
    table: &mut FormulaTable,
    root: Option<u32>,
    given: Given<'_>,
    negated: bool,
) -> Result<Option<u32>, AllocError>
    requires there { IsThere given }
    requires built { IsBuilt table.old root }
    ensures { IfOk result (IsAdded (joined_at table.old root) (part_formula given.entry negated) table.new) }
{
    let Some(number) = put_part(alloc, table, given, negated)? else {
        return Ok(None);
    };
    match root {
        Some(before) => put_node(table, Node::Binary(BinaryOp::And, before, number)),
        None => Ok(Some(number)),
    }
}

/// Puts a given formula, or its negation, behind what is there.
fn put_part(
    alloc: Global,
    table: &mut FormulaTable,
    given: Given<'_>,
    negated: bool,
) -> Result<Option<u32>, AllocError>
    requires there { IsThere given }
    requires names { length table.old.names ≤ length table.old.nodes }
    ensures { IfOk result (IsPartPut (part_formula given.entry negated) table.old table.new) }
{
    let Some(number) = put_tree(alloc, given.table, given.root, table)? else {
        return Ok(None);
    };
    if negated {
        return put_node(table, Node::Unary(UnaryOp::Not, number));
    }
    Ok(Some(number))
}
