// A depth's clauses of the states and of acceptance, put in behind those of the depths before. What is said
// of pairs of steps is put in where a run asks for it, but for the first two steps, whose pair is put in
// whole: with one wide step a run would have to ask for most of it, place by place.
ghost use Rattle.std.specs.Prelude.{◌≤◌, All, Contains, OnOk};
ghost use Rattle.enc_layout.specs.Letters.{Fits};
ghost use Rattle.enc_layout.specs.Clauses.{layout_of, state_clauses, signed_clauses};
ghost use Rattle.clause_index.specs.Sections.{section_clauses};
ghost use Rattle.unravel.specs.Putting.{IsPartOf, HasMore, Keeps};
ghost use Rattle.unravel.specs.Depths.{IsBefore, IsThrough};

use crate::demanded::add_numbers;
use crate::inputs::Inputs;
use crate::listed::Listed;
use clause_index::StepSection;
use enc_layout::Layout;
use ltl_closure::Closure;
use std::alloc::AllocError;

/// Puts the clauses of a section of the step in.
fn add_section(
    listed: &Listed<'_>,
    step: u32,
    section: StepSection,
    inputs: &mut Inputs,
) -> Result<(), AllocError>
    requires step { step ≤ listed.now.depth }
    requires part { IsPartOf listed.now inputs.old }
    ensures more { OnOk result (HasMore listed.now inputs.old inputs.new) }
    ensures there { OnOk result (All (Contains inputs.new.solver.log.inputs)
        (signed_clauses listed.now.formula listed.now.kind
        (section_clauses listed.now.formula listed.now.kind step section))) }
{
    let numbers = listed.section(step, section);
    'clauses: for index in 0..numbers.count {
        inputs.add(listed, numbers.first + index)?;
    }
    Ok(())
}

/// Puts in what the step says of pairs, where it is the second.
fn add_first_pair(listed: &Listed<'_>, step: u32, inputs: &mut Inputs) -> Result<(), AllocError>
    requires step { step ≤ listed.now.depth }
    requires part { IsPartOf listed.now inputs.old }
    ensures { OnOk result (HasMore listed.now inputs.old inputs.new) }
{
    if step != 1 {
        return Ok(());
    }
    add_numbers(listed, listed.section(step, StepSection::Pairs), inputs)?;
    add_numbers(listed, listed.section(step, StepSection::Pruning), inputs)?;
    Ok(())
}

/// Puts the step's clauses of its state and of acceptance in, and those of the first pair.
fn add_step(listed: &Listed<'_>, step: u32, inputs: &mut Inputs) -> Result<(), AllocError>
    requires step { step ≤ listed.now.depth }
    requires part { IsPartOf listed.now inputs.old }
    ensures more { OnOk result (HasMore listed.now inputs.old inputs.new) }
    ensures states { OnOk result (All (Contains inputs.new.solver.log.inputs)
        (signed_clauses listed.now.formula listed.now.kind (state_clauses listed.now.formula step))) }
{
    add_section(listed, step, StepSection::States, inputs)?;
    add_section(listed, step, StepSection::Acceptance, inputs)?;
    add_first_pair(listed, step, inputs)?;
    Ok(())
}

/// Makes the letters of a step known, where those of the steps before are, and puts the step's clauses in
/// that no run has to ask for.
pub fn grow(closure: &Closure<'_>, step: u32, inputs: &mut Inputs) -> Result<(), AllocError>
    requires few { step ≤ 1000 }
    requires fits { Fits (layout_of closure.now) step }
    requires before { IsBefore closure.now.formula closure.now.kind step inputs.old }
    ensures through { OnOk result (IsThrough closure.now.formula closure.now.kind step inputs.new) }
    ensures kept { OnOk result (Keeps inputs.old inputs.new) }
{
    let letters = Layout::of(closure).letters_through(step);
    inputs.letters(letters as u32)?;
    let listed = Listed::of(closure, step);
    add_step(&listed, step, inputs)?;
    Ok(())
}
