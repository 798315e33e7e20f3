// `monitor`: for one state after the other, whether a formula that does not look ahead holds at it. The input
// is the formula and the states, one a line, with a separator line between.
ghost use Rattle.std.specs.Prelude.{◌<◌, length, IfOk};
ghost use Rattle.ltl_syntax.specs.Table.{tree_at};
ghost use Rattle.black_top.specs.Answer.{Answer};
ghost use Rattle.black_top.specs.Reading.{IsParted};
ghost use Rattle.black_top.specs.Monitor.{IsMonitored};
ghost use Rattle.black_top.specs.Inner.{Shows};

use crate::output::{Output, refusal, watched};
use ltl_syntax::FormulaTable;
use past_monitor::WatchRefused;
use program_input::{PartReading, cut, read_formula};
use report::Fault;
use std::alloc::{AllocError, Global};

/// The answer to an input of two parts.
pub fn monitor(alloc: Global, input: &[u8]) -> Result<Output, AllocError>
    ensures { IfOk result (λ out. (a : Answer) × IsParted IsMonitored input.now a × Shows out a) }
{
    let Some(parts) = cut(input) else {
        return refusal(alloc, Fault::NoSeparator);
    };
    match read_formula(alloc, parts.formula)? {
        PartReading::Refused(fault) => refusal(alloc, fault),
        PartReading::Formula { table, root } => watch(alloc, &table, root, parts.second),
    }
}

/// A line for each state, or why there is none.
fn watch(alloc: Global, table: &FormulaTable, root: u32, text: &[u8]) -> Result<Output, AllocError>
    requires { root < length table.now.nodes }
    ensures { IfOk result (λ out. (a : Answer)
        × IsMonitored (tree_at table.now root) text.now a × Shows out a) }
{
    match past_monitor::watch(alloc, table, root, text) {
        Ok(answers) => watched(alloc, &answers),
        Err(WatchRefused::Future) => refusal(alloc, Fault::LooksAhead),
        Err(WatchRefused::State(number)) => refusal(alloc, Fault::State(number)),
        Err(WatchRefused::NoMemory) => Err(AllocError),
    }
}
