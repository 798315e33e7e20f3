//! A table whose trees and text were written out by hand. The function is empty: its contract is the law.
ghost use Rattle.ltl_syntax.specs.Examples.{WorkedTable};

/// What the definitions give for a small table.
pub fn worked_table()
    ensures { WorkedTable }
{}
