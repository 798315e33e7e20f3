// Which pairs prune. On infinite traces a carry that comes a third time must bring something new: an
// eventuality that is pending, and that is fulfilled since the second time and was not seen then. On finite
// traces a carry that comes a second time is enough.
ghost use Rattle.std.specs.Prelude.{◌≡◌, ◌+◌, ◌*◌, ◌<◌, ◌≤◌, [], ◌∷◌, ◌++◌, length, map, slice_index_or};
ghost use Rattle.ltl_syntax.specs.declared.node.Kind.TheVariants as Kinds;
ghost use Rattle.ltl_closure.specs.Closure.{eventualities};
ghost use Rattle.ltl_closure.specs.Entries.{IsNumber};
ghost use Rattle.enc_layout.specs.Letters.{Unpruned, Equal, Fits, below};
ghost use Rattle.enc_layout.specs.Clauses.{Minus, layout_of, literal_in, new_clauses, pruned_clause};
ghost use Rattle.enc_layout.specs.Clauses.{pruning_part};
ghost use Rattle.clause_index.specs.Literals.{literals};
ghost use Rattle.clause_index.specs.Rows.{row_at, new_rows};
ghost use Rattle.clause_index.specs.ByNumber.{seen_pair, new_by, pruned_row};

use crate::found::Found;
use crate::request::eventuality_at;
use crate::run::Run;
use cnf_base::Literal;
use enc_layout::{Layout, Part};
use ltl_closure::Closure;
use ltl_syntax::Kind;

/// A clause of what equal carries say of the later state: it repeats, and what is fulfilled between the two
/// is seen there.
fn seen(layout: &Layout, step: u32, earlier: u32, index: u64) -> Found
    requires infinite { layout.now.kind ≡ Kinds.Infinite }
    requires few { step ≤ 1000 }
    requires fits { Fits layout.now step }
    requires earlier { earlier < step }
    requires small { index < 1000000 }
    requires within { index < 1 + layout.now.counts.eventualities }
    ensures { literals result ≡ row_at layout.now (seen_pair layout.now.counts.eventualities step earlier)
        index }
{
    let unequal = layout.negative(step, Part::Equal(earlier));
    if index == 0 {
        return Found::Two(unequal, layout.positive(step, Part::Repeated));
    }
    let number = index as u32;
    let unfulfilled = layout.negative(step, Part::Fulfilled(earlier, number));
    Found::Three(
        unequal,
        unfulfilled,
        layout.positive(step, Part::Seen(number)),
    )
}

/// What is new is pending, fulfilled and not seen.
#[tactic(auto, using(crate::proofs::Picks::last_of_three))]
fn new(new: Literal, request: Literal, fulfilled: Literal, seen: Literal, index: u64) -> Found
    requires { index < 3 }
    ensures { literals result ≡ slice_index_or (new_rows new request fulfilled seen) index [] }
{
    if index == 0 {
        return Found::Two(new.opposite(), request);
    }
    if index == 1 {
        return Found::Two(new.opposite(), fulfilled);
    }
    Found::Two(new.opposite(), seen.opposite())
}

#[tactic(auto, using(enc_layout::proofs::ByKind::letters_less))]
fn new_clause(
    layout: &Layout,
    step: u32,
    earlier: u32,
    number: u32,
    request: u32,
    index: u64,
) -> Found
    requires infinite { layout.now.kind ≡ Kinds.Infinite }
    requires few { step ≤ 1000 }
    requires fits { Fits layout.now step }
    requires earlier { earlier < step }
    requires number { (0 < number) × (number ≤ layout.now.counts.eventualities) }
    requires request { IsNumber layout.now.counts.entries request }
    requires within { index < 3 }
    ensures { literals result ≡ row_at layout.now (new_by step earlier number request) index }
{
    let letter = layout.positive(step, Part::New(earlier, number));
    let asked = layout.entry(step, request);
    let fulfilled = layout.positive(step, Part::Fulfilled(earlier, number));
    let seen = layout.positive(earlier, Part::Seen(number));
    new(letter, asked, fulfilled, seen, index)
}

fn new_at(closure: &Closure<'_>, layout: &Layout, step: u32, earlier: u32, index: u64) -> Found
    requires own { layout.now ≡ layout_of closure.now }
    requires infinite { layout.now.kind ≡ Kinds.Infinite }
    requires few { step ≤ 1000 }
    requires fits { Fits layout.now step }
    requires earlier { earlier < step }
    requires within { index < length (eventualities closure.now.formula) * 3 }
    ensures { literals result ≡ row_at layout.now (below (length (eventualities closure.now.formula))
        (new_clauses closure.now.formula step earlier)) index }
{
    let before = index / 3;
    let request = eventuality_at(closure, before as usize).request;
    new_clause(layout, step, earlier, before as u32 + 1, request, index % 3)
}

/// Where no state is pruned, a carry that comes a third time has something new.
#[tactic(auto, using(enc_layout::proofs::ByKind::letters_less))]
fn pruned(layout: &Layout, step: u32, earlier: u32, count: u32) -> Found
    requires infinite { layout.now.kind ≡ Kinds.Infinite }
    requires few { step ≤ 1000 }
    requires fits { Fits layout.now step }
    requires earlier { earlier < step }
    requires all { count ≡ layout.now.counts.eventualities }
    ensures { literals result ≡ map (literal_in layout.now.kind layout.now.counts)
        (pruned_row count step earlier) }
{
    let any = layout.may_prune();
    let unequal = layout.negative(step, Part::Equal(earlier));
    let single = layout.negative(earlier, Part::Repeated);
    if count == 0 {
        return Found::Three(any, unequal, single);
    }
    let first = layout.letter(step, Part::New(earlier, 1));
    Found::ThreeAnd(any, unequal, single, Run::of(first, 1, count))
}

/// A clause of what is new between the states of a pair, and of where they prune.
fn news(closure: &Closure<'_>, layout: &Layout, step: u32, earlier: u32, index: u64) -> Found
    requires own { layout.now ≡ layout_of closure.now }
    requires infinite { layout.now.kind ≡ Kinds.Infinite }
    requires few { step ≤ 1000 }
    requires fits { Fits layout.now step }
    requires earlier { earlier < step }
    requires within { index < 1 + 3 * length (eventualities closure.now.formula) }
    ensures { literals result ≡ row_at layout.now (below (length (eventualities closure.now.formula))
        (new_clauses closure.now.formula step earlier) ++ pruned_clause closure.now.formula step earlier
        ∷ []) index }
{
    let count = closure.eventualities().len();
    if index < 3 * count as u64 {
        return new_at(closure, layout, step, earlier, index);
    }
    pruned(layout, step, earlier, count as u32)
}

fn infinite(closure: &Closure<'_>, layout: &Layout, step: u32, index: u64) -> Found
    requires own { layout.now ≡ layout_of closure.now }
    requires infinite { layout.now.kind ≡ Kinds.Infinite }
    requires few { step ≤ 1000 }
    requires fits { Fits layout.now step }
    requires few_eventualities { length (eventualities closure.now.formula) ≤ 98306 }
    requires within { index < length (pruning_part closure.now.formula Kinds.Infinite step) }
    ensures { literals result
        ≡ row_at layout.now (pruning_part closure.now.formula Kinds.Infinite step) index }
{
    let count = closure.eventualities().len() as u64;
    let one = 1 + count;
    let all = step as u64 * one;
    if index < all {
        let earlier = (index / one) as u32;
        return seen(layout, step, earlier, index % one);
    }
    let rest = index - all;
    let pair = 1 + 3 * count;
    let earlier = (rest / pair) as u32;
    news(closure, layout, step, earlier, rest % pair)
}

fn finite(layout: &Layout, step: u32, earlier: u32) -> Found
    requires few { step ≤ 1000 }
    requires fits { Fits layout.now step }
    requires earlier { earlier < step }
    ensures { literals result ≡ map (literal_in layout.now.kind layout.now.counts)
        (Minus Unpruned ∷ Minus (Equal earlier step) ∷ []) }
{
    Found::Two(
        layout.may_prune(),
        layout.negative(step, Part::Equal(earlier)),
    )
}

/// A clause of those that say which pairs of the step and an earlier one prune a run.
pub fn pruning(closure: &Closure<'_>, layout: &Layout, step: u32, index: u64) -> Found
    requires own { layout.now ≡ layout_of closure.now }
    requires few { step ≤ 1000 }
    requires fits { Fits layout.now step }
    requires few_eventualities { length (eventualities closure.now.formula) ≤ 98306 }
    requires within { index < length (pruning_part closure.now.formula closure.now.kind step) }
    ensures { literals result
        ≡ row_at layout.now (pruning_part closure.now.formula closure.now.kind step) index }
{
    match closure.kind() {
        Kind::Infinite => infinite(closure, layout, step, index),
        Kind::Finite => finite(layout, step, index as u32),
    }
}
