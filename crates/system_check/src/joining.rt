// A start, a step and a goal, joined into one table with the system's formula and the formula that refutes
// the goal.
ghost use Rattle.std.specs.Prelude.{◌≡◌, ◌+◌, ◌<◌, ◌≤◌, length, IfOk};
ghost use Rattle.ltl_syntax.specs.Table.{tree_at};
ghost use Rattle.ltl_syntax.specs.Size.{sizes};
ghost use Rattle.system_check.specs.declared.joining.JoinRefused.TheVariants.{NoMemory};
ghost use Rattle.system_check.specs.Joining.{IsJoining};
ghost use Rattle.system_check.specs.Formulas.{HasFormulas, AreCopies, IsPartOf};

use crate::forms::forms_of;
use formula_copy::{TablePart, copy, put};
use ltl_syntax::{BinaryOp, FormulaTable, MAX_SIZE, Node, UnaryOp};
use std::alloc::{AllocError, Global};

/// Why a start, a step and a goal were not joined.
#[derive(Clone, Copy, Debug, PartialEq, Eq)]
pub enum JoinRefused {
    /// The whole formula has this size, which is above 16,384.
    Nodes(u32),
    /// The start has a temporal operator.
    Start,
    /// The step has a temporal operator that is not `X`, or an `X` under an `X`.
    Step,
    NoMemory,
}

impl From<AllocError> for JoinRefused {
    ghost from_gives = { λ _ e. e ≡ NoMemory };

    fn from(_: AllocError) -> Self {
        JoinRefused::NoMemory
    }
}

/// A table with the two formulas of a system and a goal, each under a node.
#[derive(Drop)]
pub struct Joined {
    pub table: FormulaTable,
    /// The node of `start & G step`, whose infinite traces are the paths of the system.
    pub system: u32,
    /// The node of `(start & G step) & !goal`, whose infinite traces are the paths on which the goal fails.
    pub whole: u32,
}

/// The formulas of a system and a goal. Letters of one name are one letter, whatever the part. The size is
/// tested first, then the form of the start, then that of the step.
pub fn join_parts(
    alloc: Global,
    start: &FormulaTable,
    start_root: u32,
    step: &FormulaTable,
    step_root: u32,
    goal: &FormulaTable,
    goal_root: u32,
) -> Result<Joined, JoinRefused>
    requires start { start_root < length start.now.nodes }
    requires step { step_root < length step.now.nodes }
    requires goal { goal_root < length goal.now.nodes }
    ensures { IsJoining (tree_at start.now start_root) (tree_at step.now step_root)
        (tree_at goal.now goal_root) result }
{
    let start_part = TablePart::of(alloc, start, start_root)?;
    let step_part = TablePart::of(alloc, step, step_root)?;
    let goal_part = TablePart::of(alloc, goal, goal_root)?;
    let size = start_part.size + step_part.size + goal_part.size + 4;
    if size > MAX_SIZE {
        return Err(JoinRefused::Nodes(size));
    }
    let start_forms = forms_of(alloc, start, start_root)?;
    if !start_forms.start {
        return Err(JoinRefused::Start);
    }
    let step_forms = forms_of(alloc, step, step_root)?;
    if !step_forms.step {
        return Err(JoinRefused::Step);
    }
    Ok(assemble(alloc, &start_part, &step_part, &goal_part)?)
}

/// The roots of the copied parts.
#[derive(Clone, Copy)]
struct Copies {
    start: u32,
    step: u32,
    goal: u32,
}

/// The parts, copied into one table, with the operators that join them.
fn assemble(
    alloc: Global,
    start: &TablePart<'_>,
    step: &TablePart<'_>,
    goal: &TablePart<'_>,
) -> Result<Joined, AllocError>
    requires start { IsPartOf start.now }
    requires step { IsPartOf step.now }
    requires goal { IsPartOf goal.now }
    requires room { start.now.size + step.now.size + goal.now.size + 4 ≤ 16384 }
    ensures { IfOk result (λ j. HasFormulas
        (tree_at start.now.table.now start.now.root)
        (tree_at step.now.table.now step.now.root)
        (tree_at goal.now.table.now goal.now.root)
        j.table j.system j.whole) }
{
    let mut table = FormulaTable::new(alloc);
    let copies = Copies {
        start: copy(alloc, start, &mut table)?,
        step: copy(alloc, step, &mut table)?,
        goal: copy(alloc, goal, &mut table)?,
    };
    let (system, whole) = connect(&mut table, copies)?;
    Ok(Joined {
        table,
        system,
        whole,
    })
}

/// Puts the operators on top of the copied parts, and answers the numbers of the system's formula and of the
/// whole formula.
fn connect(table: &mut FormulaTable, copies: Copies) -> Result<(u32, u32), AllocError>
    requires copies { AreCopies table.old copies }
    requires room { sizes table.old.nodes + 4 ≤ 16384 }
    ensures { IfOk result (λ r. HasFormulas (tree_at table.old copies.start) (tree_at table.old copies.step)
        (tree_at table.old copies.goal) table.new r.0 r.1) }
{
    let always = put(table, Node::Unary(UnaryOp::Always, copies.step))?;
    let system = put(table, Node::Binary(BinaryOp::And, copies.start, always))?;
    let failing = put(table, Node::Unary(UnaryOp::Not, copies.goal))?;
    let whole = put(table, Node::Binary(BinaryOp::And, system, failing))?;
    Ok((system, whole))
}
