// The monitor of a formula.
ghost use Rattle.std.specs.Prelude.{◌≡◌, ◌<◌, [], length, vec_capacity, IfOk, OnOk, Err};
ghost use Rattle.ltl_syntax.specs.Table.{tree_at};
ghost use Rattle.past_monitor.specs.declared.refused.MonitorRefused.TheVariants.{Future};
ghost use Rattle.past_monitor.specs.Past.{IsPast};
ghost use Rattle.past_monitor.specs.Monitor.{formula_of, AreAll, AreUnder, StandsFor, IsStep};
ghost use Rattle.past_monitor.specs.Part.{HaveChildrenBelow, AreStepped};

use crate::MonitorRefused;
use crate::part::Part;
use crate::under::parts_under;
use ltl_syntax::FormulaTable;
use ltl_word::StateSet;
use std::alloc::Global;
use std::marker::Model;

/// A monitor of the formula under a node. It takes one state after the other, and tells whether the formula
/// holds at the last one.
///
/// Contracts see the formulas under the node, the values that are kept for each, and for how many there is
/// memory.
#[derive(Drop)]
pub struct Monitor<'t> {
    table: &'t FormulaTable,
    parts: Vec<Part>,
    values: Vec<bool>,
}

impl<'t> Model for Monitor<'t> {
    ghost use Rattle.std.specs.Prelude.{map, ◌∷◌, vec_capacity};
    ghost use Rattle.past_monitor.specs.Monitor.{MonitorValue, coded_monitor};

    ghost Value = { MonitorValue };

    ghost coded = { coded_monitor };

    ghost use Rattle.past_monitor.specs.Part.{IsMonitor, formulas_of, kept_of, rooms_of};

    ghost view = { λ m. record {
      formulas = formulas_of m.table.now.names m.parts.items;
      kept = kept_of m.parts.items;
      rooms = vec_capacity m.parts ∷ vec_capacity m.values ∷ rooms_of m.parts.items;
    } };

    ghost invariant = { λ m. IsMonitor m.table.now.names m.parts.items m.values.items };
}

impl<'t> Monitor<'t> {
    /// A monitor that has taken no state, with all the memory that it takes: it grows with the size of the
    /// formula.
    pub fn new(
        alloc: Global,
        table: &'t FormulaTable,
        root: u32,
    ) -> Result<Monitor<'t>, MonitorRefused>
        requires { root < length table.now.nodes }
        ensures formula { IfOk result (λ m. formula_of m ≡ tree_at table.now root) }
        ensures all { IfOk result (λ m. AreAll m.formulas) }
        ensures nodes { IfOk result (λ m. AreUnder table.now root (length m.formulas)) }
        ensures start { IfOk result (λ m. StandsFor m []) }

        // it is refused for an operator that looks ahead where there is one, and only there
        ensures past { OnOk result (IsPast (tree_at table.now root)) }
        ensures future { result ≡ Err Future → IsPast (tree_at table.now root) → ⊥ }
    {
        let parts = parts_under(alloc, table, root)?;
        let values = vec![in alloc; false; parts.len()]?;
        Ok(Monitor {
            table,
            parts,
            values,
        })
    }

    /// Takes a state, and answers whether the formula holds at it, the last position so far.
    pub fn step(&mut self, state: &StateSet) -> bool
        ensures step { IsStep self.old state.now result self.new }
        // It takes no memory.
        ensures rooms { self.new.rooms ≡ self.old.rooms }
    {
        step_parts(&mut self.parts, &mut self.values, state);
        self.values[self.values.len() - 1]
    }
}

// Each part takes the state, children first, and the values of the parts there.
fn step_parts(parts: &mut Vec<Part>, values: &mut Vec<bool>, state: &StateSet)
    requires long { length values.old.items ≡ length parts.old.items }
    requires below { HaveChildrenBelow parts.old.items }
    ensures stepped { AreStepped state.now parts.old.items parts.new.items values.new.items }
    ensures parts { vec_capacity parts.new ≡ vec_capacity parts.old }
    ensures values { vec_capacity values.new ≡ vec_capacity values.old }
{
    for place in 0..parts.len() {
        let value = parts[place].take(state, values);
        values[place] = value;
    }
}
