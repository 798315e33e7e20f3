// The clauses that a run asks for, by what they say: which parts of which pairs these are, and which clauses
// of a part. That these clauses refuse the run is not needed by any contract, since whatever is put in is a
// clause of the list.
ghost use Rattle.std.specs.Prelude.{◌≤◌, OnOk};
ghost use Rattle.enc_layout.specs.Letters.{Fits};
ghost use Rattle.enc_layout.specs.Clauses.{layout_of};
ghost use Rattle.unravel.specs.Putting.{listed_of, AreNumbersIn, IsPartOf, HasMore};

use crate::inputs::Inputs;
use crate::listed::{Listed, Pair, number};
use clause_index::{Numbers, PairPart};
use demand::{Constraint, Pruned, Pruning};
use ltl_closure::Closure;
use std::alloc::AllocError;

/// More clauses than a part of a pair has.
const ALL: u64 = u64::MAX;

/// Puts the clauses of these numbers in, each where no run has asked for it yet.
pub fn add_numbers(
    listed: &Listed<'_>,
    numbers: Numbers,
    inputs: &mut Inputs,
) -> Result<(), AllocError>
    requires numbers { AreNumbersIn listed.now numbers }
    requires part { IsPartOf listed.now inputs.old }
    ensures { OnOk result (HasMore listed.now inputs.old inputs.new) }
{
    'clauses: for index in 0..numbers.count {
        inputs.add_once(listed, numbers.first + index)?;
    }
    Ok(())
}

/// Puts clauses of a part of the pair in: this number of them, from a place of the part on.
fn add_some(
    listed: &Listed<'_>,
    pair: Pair,
    part: PairPart,
    from: u64,
    count: u64,
    inputs: &mut Inputs,
) -> Result<(), AllocError>
    requires { IsPartOf listed.now inputs.old }
    ensures { OnOk result (HasMore listed.now inputs.old inputs.new) }
{
    add_numbers(listed, listed.part(pair, part, from, count), inputs)
}

/// Puts in that the carries of the pair are equal, or differ at some place, and what it is to differ at each.
fn add_equal(listed: &Listed<'_>, pair: Pair, inputs: &mut Inputs) -> Result<(), AllocError>
    requires { IsPartOf listed.now inputs.old }
    ensures { OnOk result (HasMore listed.now inputs.old inputs.new) }
{
    'places: for place in 0..listed.places() {
        add_some(listed, pair, PairPart::Place(place), 0, 2, inputs)?;
    }
    add_some(listed, pair, PairPart::Equal, 0, ALL, inputs)?;
    Ok(())
}

/// Puts in what the pair says of the fulfilment of each eventuality.
fn add_fulfilled(listed: &Listed<'_>, pair: Pair, inputs: &mut Inputs) -> Result<(), AllocError>
    requires { IsPartOf listed.now inputs.old }
    ensures { OnOk result (HasMore listed.now inputs.old inputs.new) }
{
    'all: for eventuality in 0..listed.eventualities() {
        add_some(
            listed,
            pair,
            PairPart::Fulfilment(eventuality),
            0,
            ALL,
            inputs,
        )?;
    }
    Ok(())
}

/// Puts in the same of the pair's earlier step and each step after it up to the later one.
fn add_chain(listed: &Listed<'_>, pair: Pair, inputs: &mut Inputs) -> Result<(), AllocError>
    requires { IsPartOf listed.now inputs.old }
    ensures { OnOk result (HasMore listed.now inputs.old inputs.new) }
{
    'steps: for before in pair.earlier..pair.later {
        let near = Pair {
            earlier: pair.earlier,
            later: before + 1,
        };
        add_fulfilled(listed, near, inputs)?;
    }
    Ok(())
}

/// Puts in that an eventuality is fulfilled between the two steps where the run closes from the one to the
/// other and it is pending there: it is fulfilled after the earlier step only where some later one fulfils
/// it.
fn add_fulfilment(
    listed: &Listed<'_>,
    pair: Pair,
    eventuality: u32,
    inputs: &mut Inputs,
) -> Result<(), AllocError>
    requires { IsPartOf listed.now inputs.old }
    ensures { OnOk result (HasMore listed.now inputs.old inputs.new) }
{
    let part = PairPart::Fulfilment(eventuality);
    'steps: for before in pair.earlier..pair.later {
        let near = Pair {
            earlier: pair.earlier,
            later: before + 1,
        };
        // The clause from the letter of fulfilment on: of two the first, of three the last.
        let from = if before == pair.earlier { 0 } else { 2 };
        add_some(listed, near, part, from, 1, inputs)?;
    }
    add_some(
        listed,
        pair,
        PairPart::Loop,
        1 + eventuality as u64,
        1,
        inputs,
    )?;
    Ok(())
}

/// Puts in that these three states prune the last of them, on infinite traces.
fn add_triple(
    listed: &Listed<'_>,
    before: Pair,
    after: Pair,
    inputs: &mut Inputs,
) -> Result<(), AllocError>
    requires { IsPartOf listed.now inputs.old }
    ensures { OnOk result (HasMore listed.now inputs.old inputs.new) }
{
    add_equal(listed, before, inputs)?;
    add_equal(listed, after, inputs)?;
    add_chain(listed, before, inputs)?;
    add_chain(listed, after, inputs)?;
    add_some(listed, before, PairPart::Seen, 0, ALL, inputs)?;
    add_some(listed, after, PairPart::Prune, 0, ALL, inputs)?;
    Ok(())
}

/// Puts in that the pair prunes its later state, on finite traces.
fn add_pair(listed: &Listed<'_>, pair: Pair, inputs: &mut Inputs) -> Result<(), AllocError>
    requires { IsPartOf listed.now inputs.old }
    ensures { OnOk result (HasMore listed.now inputs.old inputs.new) }
{
    add_equal(listed, pair, inputs)?;
    add_some(listed, pair, PairPart::Prune, 0, ALL, inputs)?;
    Ok(())
}

/// Puts in that the state is pruned by these earlier ones.
fn add_pruning(listed: &Listed<'_>, pruned: Pruned, inputs: &mut Inputs) -> Result<(), AllocError>
    requires { IsPartOf listed.now inputs.old }
    ensures { OnOk result (HasMore listed.now inputs.old inputs.new) }
{
    let later = pruned.state;
    match pruned.by {
        Pruning::Triple(first, second) => {
            let before = Pair {
                earlier: first,
                later: second,
            };
            let after = Pair {
                earlier: second,
                later,
            };
            add_triple(listed, before, after, inputs)
        }
        Pruning::Pair(earlier) => {
            let pair = Pair { earlier, later };
            add_pair(listed, pair, inputs)
        }
    }
}

/// Puts the constraint in.
fn add_constraint(
    listed: &Listed<'_>,
    constraint: Constraint,
    inputs: &mut Inputs,
) -> Result<(), AllocError>
    requires { IsPartOf listed.now inputs.old }
    ensures { OnOk result (HasMore listed.now inputs.old inputs.new) }
{
    match constraint {
        Constraint::Place {
            earlier,
            later,
            place,
            value,
        } => {
            let pair = Pair { earlier, later };
            // Behind the two clauses on differing: equal carries have no place that is true and then false,
            // and none that is false and then true.
            let from = if value { 2 } else { 3 };
            add_some(
                listed,
                pair,
                PairPart::Place(number(place)),
                from,
                1,
                inputs,
            )
        }
        Constraint::Loop { earlier, later } => {
            add_some(
                listed,
                Pair { earlier, later },
                PairPart::Loop,
                0,
                1,
                inputs,
            )
        }
        Constraint::Fulfilment {
            earlier,
            later,
            eventuality,
        } => { add_fulfilment(listed, Pair { earlier, later }, number(eventuality), inputs) }
        Constraint::Pruning(pruned) => add_pruning(listed, pruned, inputs),
    }
}

/// Puts the constraints in.
fn add_each(
    listed: &Listed<'_>,
    constraints: &[Constraint],
    inputs: &mut Inputs,
) -> Result<(), AllocError>
    requires { IsPartOf listed.now inputs.old }
    ensures { OnOk result (HasMore listed.now inputs.old inputs.new) }
{
    'constraints: for constraint in constraints {
        add_constraint(listed, *constraint, inputs)?;
    }
    Ok(())
}

/// Puts in how each of the states is pruned.
fn add_each_pruning(
    listed: &Listed<'_>,
    prunings: &[Pruned],
    inputs: &mut Inputs,
) -> Result<(), AllocError>
    requires { IsPartOf listed.now inputs.old }
    ensures { OnOk result (HasMore listed.now inputs.old inputs.new) }
{
    'prunings: for pruned in prunings {
        add_pruning(listed, *pruned, inputs)?;
    }
    Ok(())
}

/// Puts the constraints in, which are of states up to the depth.
pub fn add_constraints(
    closure: &Closure<'_>,
    depth: u32,
    constraints: &[Constraint],
    inputs: &mut Inputs,
) -> Result<(), AllocError>
    requires few { depth ≤ 1000 }
    requires fits { Fits (layout_of closure.now) depth }
    requires part { IsPartOf (listed_of closure.now depth) inputs.old }
    ensures { OnOk result (HasMore (listed_of closure.now depth) inputs.old inputs.new) }
{
    let listed = Listed::of(closure, depth);
    add_each(&listed, constraints, inputs)?;
    Ok(())
}

/// Puts in how each of the states is pruned, which are states up to the depth.
pub fn add_prunings(
    closure: &Closure<'_>,
    depth: u32,
    prunings: &[Pruned],
    inputs: &mut Inputs,
) -> Result<(), AllocError>
    requires few { depth ≤ 1000 }
    requires fits { Fits (layout_of closure.now) depth }
    requires part { IsPartOf (listed_of closure.now depth) inputs.old }
    ensures { OnOk result (HasMore (listed_of closure.now depth) inputs.old inputs.new) }
{
    let listed = Listed::of(closure, depth);
    add_each_pruning(&listed, prunings, inputs)?;
    Ok(())
}
