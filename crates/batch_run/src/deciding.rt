// One line: it is read as a formula, and the tableau's verdict is taken at the batch limit.
ghost use Rattle.std.specs.Prelude.{◌≡◌, ◌<◌, ◌≤◌, length, IfOk};
ghost use Rattle.ltl_syntax.specs.Table.{tree_at};
ghost use Rattle.enc_layout.specs.Letters.{Fits};
ghost use Rattle.enc_layout.specs.Clauses.{layout_of};
ghost use Rattle.batch_run.specs.Outcomes.{IsOutcome, IsBatchLimit, refusal_of};
ghost use Rattle.batch_run.specs.Grouping.{ShowsVerdict};

use crate::answer::LineOutcome;
use enc_layout::Layout;
use formula_reading::{FormulaFault, Reading, read_formula};
use ltl_closure::Closure;
use ltl_syntax::{FormulaTable, Kind};
use std::alloc::{AllocError, Global};
use unravel::Decision;

/// The most letters that the clauses of a line's formula may have.
const MAX_LETTERS: u64 = 1_048_576;

/// What is said of a line.
pub fn outcome(
    alloc: Global,
    text: &[u8],
    kind: Kind,
    asked: u32,
) -> Result<LineOutcome, AllocError>
    requires { asked ≤ 1000 }
    ensures { IfOk result (IsOutcome kind asked text.now) }
{
    match read_formula(alloc, text)? {
        Reading::Formula { table, root } => verdict(alloc, &table, root, kind, asked),
        Reading::Refused(fault) => Ok(refusal_of(fault)),
    }
}

/// What is said of a line with this fault.
fn refusal_of(fault: FormulaFault) -> LineOutcome
    ensures { result ≡ refusal_of fault }
{
    match fault {
        FormulaFault::Long => LineOutcome::Text,
        FormulaFault::Lexical(byte) => LineOutcome::Lexical(byte),
        FormulaFault::Grammar(byte) => LineOutcome::Grammar(byte),
        FormulaFault::Nodes(count) => LineOutcome::Nodes(count),
    }
}

/// The tableau's verdict at the batch limit. What shows it is dropped.
fn verdict(
    alloc: Global,
    table: &FormulaTable,
    root: u32,
    kind: Kind,
    asked: u32,
) -> Result<LineOutcome, AllocError>
    requires few { asked ≤ 1000 }
    requires root { root < length table.now.nodes }
    ensures { IfOk result (ShowsVerdict (tree_at table.now root) kind asked) }
{
    let closure = Closure::of(alloc, table, root, kind)?;
    let limit = batch_limit(&closure, asked);
    match unravel::decide(alloc, &closure, limit)? {
        Decision::Sat { depth, .. } => Ok(LineOutcome::Sat(depth)),
        Decision::Unsat { depth, .. } => Ok(LineOutcome::Unsat(depth)),
        Decision::Undecided { depth } => Ok(LineOutcome::Undecided(depth)),
    }
}

/// The greatest depth up to `asked` whose letters are at most 1,048,576. Depth 0 is always one.
fn batch_limit(closure: &Closure<'_>, asked: u32) -> u32
    requires { asked ≤ 1000 }
    ensures limit { IsBatchLimit closure.now.formula closure.now.kind asked result }
    ensures fits { Fits (layout_of closure.now) result }
{
    let _entries = closure.entries();
    let layout = Layout::of(closure);
    let mut depth = asked;
    'depths: while depth > 0 && layout.letters_through(depth) > MAX_LETTERS {
        depth -= 1;
    }
    depth
}
