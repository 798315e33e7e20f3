// Behind the last turn of a question: all clauses of the list that are not in yet.
ghost use Rattle.std.specs.Prelude.{◌≤◌, All, Contains, IsTrue, OnOk};
ghost use Rattle.enc_layout.specs.Letters.{Fits};
ghost use Rattle.enc_layout.specs.Clauses.{layout_of};
ghost use Rattle.unravel.specs.Putting.{listed_of, list_of, IsPartOf, HasMore};

use crate::inputs::Inputs;
use crate::listed::Listed;
use ltl_closure::Closure;
use std::alloc::AllocError;

/// Whether the number is found among the sorted ones.
fn is_among(sorted: &[u64], number: u64) -> bool
    ensures { IsTrue result → Contains sorted.now number }
{
    match sorted.binary_search(&number) {
        Ok(place) => sorted[place] == number,
        Err(_) => false,
    }
}

/// Puts all clauses in that are not in yet.
fn add_missing(listed: &Listed<'_>, inputs: &mut Inputs) -> Result<(), AllocError>
    requires { IsPartOf listed.now inputs.old }
    ensures more { OnOk result (HasMore listed.now inputs.old inputs.new) }
    ensures whole { OnOk result (All (Contains inputs.new.solver.log.inputs) (list_of listed.now)) }
{
    let mut there = inputs.names.clone()?;
    there.sort()?;
    'numbers: for index in 0..listed.count() {
        if is_among(&there, index + 1) {
            continue;
        }
        inputs.add(listed, index + 1)?;
    }
    Ok(())
}

/// Puts the rest of the list through the depth in.
pub fn add_rest(closure: &Closure<'_>, depth: u32, inputs: &mut Inputs) -> Result<(), AllocError>
    requires few { depth ≤ 1000 }
    requires fits { Fits (layout_of closure.now) depth }
    requires part { IsPartOf (listed_of closure.now depth) inputs.old }
    ensures more { OnOk result (HasMore (listed_of closure.now depth) inputs.old inputs.new) }
    ensures whole { OnOk result (All (Contains inputs.new.solver.log.inputs)
        (list_of (listed_of closure.now depth))) }
{
    let listed = Listed::of(closure, depth);
    add_missing(&listed, inputs)?;
    Ok(())
}
