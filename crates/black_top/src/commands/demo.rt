// `demo`: the tableau's verdict on a token ring over infinite traces, with how much there was to decide.
ghost use Rattle.std.specs.Prelude.{◌≡◌, ℕ, ◌<◌, ◌≤◌, length, IfOk};
ghost use Rattle.ltl_syntax.specs.Formula.{nodes_in};
ghost use Rattle.ltl_syntax.specs.Table.{tree_at};
ghost use Rattle.ltl_closure.specs.Run.{Verdict, IsVerdict};
ghost use Rattle.enc_layout.specs.Limit.{IsInForce};
ghost use Rattle.black_top.specs.Answer.{Answer};
ghost use Rattle.black_top.specs.Demo.{IsShown, ring, shown_verdict};
ghost use Rattle.black_top.specs.Inner.{Shows};

use super::limit::DEFAULT_DEPTH;
use crate::output::{Output, refusal, summary};
use crate::ring::demo_text;
use enc_layout::Layout;
use ltl_closure::Closure;
use ltl_syntax::{FormulaTable, Kind};
use program_input::{PartReading, read_formula};
use report::{Shown, Summary};
use std::alloc::{AllocError, Global};
use unravel::{Decision, decide_in_force};

/// The summary of the ring with this number of places.
pub fn demo(alloc: Global, number: u32) -> Result<Output, AllocError>
    requires low { 2 ≤ number }
    requires high { number ≤ 64 }
    ensures { IfOk result (λ out. (a : Answer) × IsShown number a × Shows out a) }
{
    ltl_parser::laws::one_outcome();
    ltl_parser::laws::printed_text();
    let text = demo_text(alloc, number)?;
    match read_formula(alloc, &text)? {
        // Does not come: the ring is accepted.
        PartReading::Refused(fault) => refusal(alloc, fault),
        PartReading::Formula { table, root } => summarize(alloc, &table, root, number),
    }
}

/// The summary of the ring that the table has.
fn summarize(
    alloc: Global,
    table: &FormulaTable,
    root: u32,
    number: u32,
) -> Result<Output, AllocError>
    requires root { root < length table.now.nodes }
    requires nodes { length table.now.nodes ≡ nodes_in (tree_at table.now root) }
    requires few { number ≤ 64 }
    requires ring { tree_at table.now root ≡ ring number }
    ensures { IfOk result (λ out. (a : Answer) × IsShown number a × Shows out a) }
{
    let closure = Closure::of(alloc, table, root, Kind::Infinite)?;
    let verdict = verdict(alloc, &closure)?;
    let layout = Layout::of(&closure);
    let about = Summary {
        number,
        nodes: table.len(),
        entries: closure.entries().len() as u32,
        letters: layout.letters_through(number),
        verdict,
    };
    summary(alloc, &about)
}

/// The tableau's verdict at the limit in force, as it is shown.
fn verdict(alloc: Global, closure: &Closure<'_>) -> Result<Shown, AllocError>
    ensures { IfOk result (λ shown. (limit : ℕ) × (v : Verdict)
        × IsInForce closure.now.formula closure.now.kind 64 limit
        × IsVerdict closure.now.formula closure.now.kind limit v × (shown ≡ shown_verdict v)) }
{
    match decide_in_force(alloc, closure, DEFAULT_DEPTH)? {
        Decision::Sat { depth, .. } => Ok(Shown::Sat(depth)),
        Decision::Unsat { depth, .. } => Ok(Shown::Unsat(depth)),
        Decision::Undecided { depth } => Ok(Shown::Undecided(depth)),
    }
}
