// What the letters of a pair of states mean: whether the carries are equal, which eventualities are
// fulfilled between them, and whether a run may loop from the later to the earlier one. Each pair has as
// many clauses as any other but for the last of a step.
ghost use Rattle.std.specs.Prelude.{◌≡◌, suc, ◌+◌, ◌-◌, ◌*◌, ◌<◌, ◌≤◌, [], ◌∷◌, length, map, slice_index_or};
ghost use Rattle.ltl_syntax.specs.declared.node.Kind.TheVariants as Kinds;
ghost use Rattle.ltl_closure.specs.Closure.{eventualities};
ghost use Rattle.ltl_closure.specs.Entries.{IsNumber};
ghost use Rattle.enc_layout.specs.Letters.{Equal, Differs, Fits, below};
ghost use Rattle.enc_layout.specs.Clauses.{Plus, layout_of, literal_in, carried, place_clauses};
ghost use Rattle.enc_layout.specs.Clauses.{fulfilled_clauses, loop_clause, closing_clauses, pair_clauses};
ghost use Rattle.enc_layout.specs.Clauses.{pairs_part};
ghost use Rattle.clause_index.specs.Literals.{literals};
ghost use Rattle.clause_index.specs.Rows.{row_at, comparison_rows, same_rows, either_rows};
ghost use Rattle.clause_index.specs.Counts.{sizes_of, fulfilled_size};
ghost use Rattle.clause_index.specs.ByNumber.{place_by, fulfilled_by};

use crate::found::Found;
use crate::request::{carried_at, eventuality_at};
use crate::run::Run;
use crate::sizes::Sizes;
use cnf_base::Literal;
use enc_layout::{Layout, Part};
use ltl_closure::Closure;

#[tactic(auto, using(crate::proofs::Picks::last_of_four))]
fn comparison(
    differs: Literal,
    equal: Literal,
    first: Literal,
    second: Literal,
    index: u64,
) -> Found
    requires { index < 4 }
    ensures { literals result ≡ slice_index_or (comparison_rows differs equal first second) index [] }
{
    if index == 0 {
        return Found::Three(differs.opposite(), first, second);
    }
    if index == 1 {
        return Found::Three(differs.opposite(), first.opposite(), second.opposite());
    }
    if index == 2 {
        return Found::Three(equal.opposite(), first.opposite(), second);
    }
    Found::Three(equal.opposite(), first, second.opposite())
}

#[tactic(auto, using(enc_layout::proofs::ByKind::letters_less))]
fn place_clause(
    layout: &Layout,
    step: u32,
    earlier: u32,
    place: u32,
    entry: u32,
    index: u64,
) -> Found
    requires few { step ≤ 1000 }
    requires fits { Fits layout.now step }
    requires earlier { earlier < step }
    requires place { (0 < place) × (place ≤ layout.now.counts.places) }
    requires number { IsNumber layout.now.counts.entries entry }
    requires within { index < 4 }
    ensures { literals result ≡ row_at layout.now (place_by step earlier place entry) index }
{
    let differs = layout.positive(step, Part::Differs(earlier, place));
    let equal = layout.positive(step, Part::Equal(earlier));
    let first = layout.entry(earlier, entry);
    comparison(differs, equal, first, layout.entry(step, entry), index)
}

/// A clause that compares the carries at one of their places.
fn place(closure: &Closure<'_>, layout: &Layout, step: u32, earlier: u32, index: u64) -> Found
    requires own { layout.now ≡ layout_of closure.now }
    requires few { step ≤ 1000 }
    requires fits { Fits layout.now step }
    requires earlier { earlier < step }
    requires within { index < length (carried closure.now.formula) * 4 }
    ensures { literals result ≡ row_at layout.now (below (length (carried closure.now.formula))
        (place_clauses closure.now.formula step earlier)) index }
{
    let before = index / 4;
    let entry = carried_at(closure, before as usize);
    place_clause(layout, step, earlier, before as u32 + 1, entry, index % 4)
}

/// The carries are equal, or differ at some of their places.
fn equal(layout: &Layout, step: u32, earlier: u32, places: u32) -> Found
    requires few { step ≤ 1000 }
    requires fits { Fits layout.now step }
    requires earlier { earlier < step }
    requires all { places ≡ layout.now.counts.places }
    ensures { literals result ≡ map (literal_in layout.now.kind layout.now.counts)
        (Plus (Equal earlier step) ∷ below places (λ q. Plus (Differs earlier step (suc q)) ∷ [])) }
{
    let equal = layout.positive(step, Part::Equal(earlier));
    if places == 0 {
        return Found::One(equal);
    }
    let first = layout.letter(step, Part::Differs(earlier, 1));
    Found::OneAnd(equal, Run::of(first, 1, places))
}

#[tactic(auto, using(crate::proofs::Picks::last_of_two))]
fn same(letter: Literal, value: Literal, index: u64) -> Found
    requires { index < 2 }
    ensures { literals result ≡ slice_index_or (same_rows letter value) index [] }
{
    if index == 0 {
        return Found::Two(letter.opposite(), value);
    }
    Found::Two(letter, value.opposite())
}

#[tactic(auto, using(crate::proofs::Picks::last_of_three))]
fn either(letter: Literal, value: Literal, before: Literal, index: u64) -> Found
    requires { index < 3 }
    ensures { literals result ≡ slice_index_or (either_rows letter value before) index [] }
{
    if index == 0 {
        return Found::Two(letter, value.opposite());
    }
    if index == 1 {
        return Found::Two(letter, before.opposite());
    }
    Found::Three(letter.opposite(), value, before)
}

#[tactic(auto, using(enc_layout::proofs::ByKind::letters_less))]
fn fulfilled_clause(
    layout: &Layout,
    step: u32,
    earlier: u32,
    number: u32,
    right: u32,
    index: u64,
) -> Found
    requires infinite { layout.now.kind ≡ Kinds.Infinite }
    requires few { step ≤ 1000 }
    requires fits { Fits layout.now step }
    requires earlier { earlier < step }
    requires number { (0 < number) × (number ≤ layout.now.counts.eventualities) }
    requires right { IsNumber layout.now.counts.entries right }
    requires within { index < fulfilled_size step earlier }
    ensures { literals result ≡ row_at layout.now (fulfilled_by step earlier number right) index }
{
    let fulfilled = layout.positive(step, Part::Fulfilled(earlier, number));
    let value = layout.entry(step, right);
    if earlier + 1 < step {
        let before = layout.positive(step - 1, Part::Fulfilled(earlier, number));
        return either(fulfilled, value, before, index);
    }
    same(fulfilled, value, index)
}

/// How many clauses say of an eventuality whether it is fulfilled.
pub fn fulfilled_size(step: u32, earlier: u32) -> u64
    requires few { step ≤ 1000 }
    requires earlier { earlier < step }
    ensures size { result ≡ fulfilled_size step earlier }
    ensures some { 0 < result }
    ensures small { result ≤ 3 }
{
    if earlier + 1 < step { 3 } else { 2 }
}

/// A clause of those that say which eventualities are fulfilled after the earlier state.
fn fulfilled(closure: &Closure<'_>, layout: &Layout, step: u32, earlier: u32, index: u64) -> Found
    requires own { layout.now ≡ layout_of closure.now }
    requires infinite { layout.now.kind ≡ Kinds.Infinite }
    requires few { step ≤ 1000 }
    requires fits { Fits layout.now step }
    requires earlier { earlier < step }
    requires within { index < length (eventualities closure.now.formula) * fulfilled_size step earlier }
    ensures { literals result ≡ row_at layout.now (below (length (eventualities closure.now.formula))
        (fulfilled_clauses closure.now.formula step earlier)) index }
{
    let size = fulfilled_size(step, earlier);
    let before = index / size;
    let right = eventuality_at(closure, before as usize).right;
    fulfilled_clause(
        layout,
        step,
        earlier,
        before as u32 + 1,
        right,
        index % size,
    )
}

/// A loop fulfills each eventuality that is asked for at its end.
fn asked(closure: &Closure<'_>, layout: &Layout, step: u32, earlier: u32, index: u64) -> Found
    requires own { layout.now ≡ layout_of closure.now }
    requires infinite { layout.now.kind ≡ Kinds.Infinite }
    requires few { step ≤ 1000 }
    requires fits { Fits layout.now step }
    requires earlier { earlier < step }
    requires within { index < length (eventualities closure.now.formula) }
    ensures { literals result ≡ row_at layout.now (below (length (eventualities closure.now.formula))
        (λ m. loop_clause closure.now.formula step earlier m ∷ [])) index }
{
    let request = eventuality_at(closure, index as usize).request;
    let closes = layout.negative(step, Part::Loop(earlier));
    let asked = layout.entry(step, request);
    let fulfilled = layout.positive(step, Part::Fulfilled(earlier, index as u32 + 1));
    Found::Three(closes, asked.opposite(), fulfilled)
}

/// A clause of what is fulfilled between the states and of when a run may loop, on infinite traces.
fn looping(closure: &Closure<'_>, layout: &Layout, step: u32, earlier: u32, index: u64) -> Found
    requires own { layout.now ≡ layout_of closure.now }
    requires infinite { layout.now.kind ≡ Kinds.Infinite }
    requires few { step ≤ 1000 }
    requires fits { Fits layout.now step }
    requires earlier { earlier < step }
    requires within { index < length (closing_clauses closure.now.formula Kinds.Infinite step earlier) }
    ensures { literals result ≡ row_at layout.now (closing_clauses closure.now.formula Kinds.Infinite step
        earlier) index }
{
    let count = closure.eventualities().len() as u64;
    let fulfilments = count * fulfilled_size(step, earlier);
    if index < fulfilments {
        return fulfilled(closure, layout, step, earlier, index);
    }
    if index == fulfilments {
        let closes = layout.negative(step, Part::Loop(earlier));
        return Found::Two(closes, layout.positive(step, Part::Equal(earlier)));
    }
    asked(closure, layout, step, earlier, index - fulfilments - 1)
}

/// A clause of the pair that the step makes with an earlier one.
fn pair(closure: &Closure<'_>, layout: &Layout, step: u32, earlier: u32, index: u64) -> Found
    requires own { layout.now ≡ layout_of closure.now }
    requires few { step ≤ 1000 }
    requires fits { Fits layout.now step }
    requires earlier { earlier < step }
    requires within { index < length (pair_clauses closure.now.formula closure.now.kind step earlier) }
    ensures { literals result ≡ row_at layout.now (pair_clauses closure.now.formula closure.now.kind step
        earlier) index }
{
    let places = (closure.nexts().len() + closure.yesterdays().len()) as u32;
    let compared = 4 * places as u64;
    if index < compared {
        return place(closure, layout, step, earlier, index);
    }
    if index == compared {
        return equal(layout, step, earlier, places);
    }
    looping(closure, layout, step, earlier, index - compared - 1)
}

/// A clause of the pairs of the step.
pub fn pairs(closure: &Closure<'_>, layout: &Layout, sizes: Sizes, step: u32, index: u64) -> Found
    requires own { layout.now ≡ layout_of closure.now }
    requires sizes { sizes ≡ sizes_of closure.now.formula closure.now.kind }
    requires few { step ≤ 1000 }
    requires fits { Fits layout.now step }
    requires within { index < length (pairs_part closure.now.formula closure.now.kind step) }
    ensures { literals result
        ≡ row_at layout.now (pairs_part closure.now.formula closure.now.kind step) index }
{
    let size = sizes.pair();
    let earlier = (index / size) as u32;
    pair(closure, layout, step, earlier, index % size)
}
