// The links between neighbouring states: a state is there only where the one before it is, a next request
// has the value that its argument has one state later, a yesterday request the value that its argument had
// one state before. Before the first state a yesterday request is false, and a weak one true.
ghost use Rattle.std.specs.Prelude.{◌≡◌, ◌+◌, ◌-◌, ◌*◌, ◌<◌, ◌≤◌, [], length, slice_index_or, flat_map};
ghost use Rattle.ltl_closure.specs.Closure.{nexts, yesterdays};
ghost use Rattle.enc_layout.specs.Letters.{Fits};
ghost use Rattle.enc_layout.specs.Clauses.{layout_of, chain_part, links_part, next_clauses, before_clauses};
ghost use Rattle.clause_index.specs.Literals.{literals};
ghost use Rattle.clause_index.specs.Rows.{row_at, link_rows};
ghost use Rattle.clause_index.specs.Counts.{chain_size};

use crate::found::Found;
use crate::request::{next_at, yesterday_at};
use cnf_base::Literal;
use enc_layout::{Layout, Part};
use ltl_closure::Closure;

/// The one clause that links the state to the one before it.
pub fn chain(layout: &Layout, step: u32, index: u64) -> Found
    requires few { step ≤ 1000 }
    requires fits { Fits layout.now step }
    requires within { index < chain_size step }
    ensures { literals result ≡ row_at layout.now (chain_part step) index }
{
    let here = layout.negative(step, Part::Here);
    Found::Two(here, layout.positive(step - 1, Part::Here))
}

/// Where the state is there, the request has the value of its argument.
#[tactic(auto, using(crate::proofs::Picks::last_of_two))]
fn link(here: Literal, request: Literal, argument: Literal, index: u64) -> Found
    requires { index < 2 }
    ensures { literals result ≡ slice_index_or (link_rows here request argument) index [] }
{
    if index == 0 {
        return Found::Three(here.opposite(), request.opposite(), argument);
    }
    Found::Three(here.opposite(), request, argument.opposite())
}

fn first(closure: &Closure<'_>, layout: &Layout, index: u64) -> Found
    requires own { layout.now ≡ layout_of closure.now }
    requires fits { Fits layout.now 0 }
    requires within { index < 1 + length (yesterdays closure.now.formula) }
    ensures { literals result ≡ row_at layout.now (links_part closure.now.formula 0) index }
{
    let here = layout.negative(0, Part::Here);
    if index == 0 {
        return Found::Two(here, layout.entry(0, closure.root()));
    }
    let request = yesterday_at(closure, (index - 1) as usize);
    let value = layout.entry(0, request.number);
    if request.weak {
        return Found::Two(here, value);
    }
    Found::Two(here, value.opposite())
}

fn next_link(closure: &Closure<'_>, layout: &Layout, step: u32, index: u64) -> Found
    requires own { layout.now ≡ layout_of closure.now }
    requires few { step ≤ 1000 }
    requires later { 0 < step }
    requires fits { Fits layout.now step }
    requires within { index < length (nexts closure.now.formula) * 2 }
    ensures { literals result ≡ row_at layout.now (flat_map (next_clauses closure.now.formula (step - 1))
        (nexts closure.now.formula)) index }
{
    let request = next_at(closure, (index / 2) as usize);
    let here = layout.positive(step, Part::Here);
    let asked = layout.entry(step - 1, request.number);
    let argument = layout.entry(step, request.argument);
    link(here, asked, argument, index % 2)
}

fn yesterday_link(closure: &Closure<'_>, layout: &Layout, step: u32, index: u64) -> Found
    requires own { layout.now ≡ layout_of closure.now }
    requires few { step ≤ 1000 }
    requires later { 0 < step }
    requires fits { Fits layout.now step }
    requires within { index < length (yesterdays closure.now.formula) * 2 }
    ensures { literals result ≡ row_at layout.now (flat_map (before_clauses closure.now.formula (step - 1))
        (yesterdays closure.now.formula)) index }
{
    let request = yesterday_at(closure, (index / 2) as usize);
    let here = layout.positive(step, Part::Here);
    let asked = layout.entry(step, request.number);
    let argument = layout.entry(step - 1, request.argument);
    link(here, asked, argument, index % 2)
}

/// A clause of the links of the step to the one before it, or of the first step.
pub fn links(closure: &Closure<'_>, layout: &Layout, step: u32, index: u64) -> Found
    requires own { layout.now ≡ layout_of closure.now }
    requires few { step ≤ 1000 }
    requires fits { Fits layout.now step }
    requires within { index < length (links_part closure.now.formula step) }
    ensures { literals result ≡ row_at layout.now (links_part closure.now.formula step) index }
{
    if step == 0 {
        return first(closure, layout, index);
    }
    let nexts = 2 * closure.nexts().len() as u64;
    if index < nexts {
        return next_link(closure, layout, step, index);
    }
    yesterday_link(closure, layout, step, index - nexts)
}
