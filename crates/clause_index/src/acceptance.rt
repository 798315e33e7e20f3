// When a run is accepted. On infinite traces its last state asks for nothing more, or the run loops back to
// an earlier state; on finite traces no strong next request is true at its last state.
ghost use Rattle.std.specs.Prelude.{◌≡◌, ◌+◌, ◌<◌, ◌≤◌, [], ◌∷◌, false, length, map, cond};
ghost use Rattle.ltl_syntax.specs.declared.node.Kind.TheVariants as Kinds;
ghost use Rattle.ltl_closure.specs.Closure.{nexts};
ghost use Rattle.enc_layout.specs.Letters.{LoopTo, EmptyAt, Fits, below};
ghost use Rattle.enc_layout.specs.Clauses.{Plus, Minus, letter_of, layout_of, literal_in, accepted_clause};
ghost use Rattle.enc_layout.specs.Clauses.{acceptance_part};
ghost use Rattle.clause_index.specs.Literals.{literals};
ghost use Rattle.clause_index.specs.Rows.{row_at};
ghost use Rattle.clause_index.specs.ByNumber.{weak_at, strong_before};

use crate::found::Found;
use crate::request::next_at;
use crate::run::Run;
use enc_layout::{Layout, Part};
use ltl_closure::Closure;
use ltl_syntax::Kind;

/// The run loops to some earlier state.
fn loops(layout: &Layout, step: u32) -> Run
    requires infinite { layout.now.kind ≡ Kinds.Infinite }
    requires few { step ≤ 1000 }
    requires later { 0 < step }
    requires fits { Fits layout.now step }
    ensures { result ≡ map (literal_in layout.now.kind layout.now.counts)
        (below step (λ l. Plus (LoopTo l step) ∷ [])) }
{
    let first = layout.letter(step, Part::Loop(0));
    if step == 1 {
        return Run::of(first, 0, 1);
    }
    let second = layout.letter(step, Part::Loop(1));
    Run::of(first, second.0 - first.0, step)
}

/// An accepted run asks for nothing more, or loops to some earlier state.
fn accepted(layout: &Layout, step: u32) -> Found
    requires infinite { layout.now.kind ≡ Kinds.Infinite }
    requires few { step ≤ 1000 }
    requires fits { Fits layout.now step }
    ensures { literals result ≡ map (literal_in layout.now.kind layout.now.counts) (accepted_clause step) }
{
    let accepted = layout.negative(step, Part::Accepted);
    let empty = layout.positive(step, Part::Empty);
    if step == 0 {
        return Found::Two(accepted, empty);
    }
    Found::TwoAnd(accepted, empty, loops(layout, step))
}

/// Where nothing more is asked, no next request is true.
fn empty(closure: &Closure<'_>, layout: &Layout, step: u32, index: u64) -> Found
    requires own { layout.now ≡ layout_of closure.now }
    requires infinite { layout.now.kind ≡ Kinds.Infinite }
    requires few { step ≤ 1000 }
    requires fits { Fits layout.now step }
    requires within { index < length (nexts closure.now.formula) }
    ensures { literals result ≡ row_at layout.now (map
        (λ t. Minus (EmptyAt step) ∷ Minus (letter_of closure.now.formula step t) ∷ [])
        (nexts closure.now.formula)) index }
{
    let request = next_at(closure, index as usize);
    let empty = layout.negative(step, Part::Empty);
    Found::Two(empty, layout.entry(step, request.number).opposite())
}

fn infinite(closure: &Closure<'_>, layout: &Layout, step: u32, index: u64) -> Found
    requires own { layout.now ≡ layout_of closure.now }
    requires infinite { layout.now.kind ≡ Kinds.Infinite }
    requires few { step ≤ 1000 }
    requires fits { Fits layout.now step }
    requires within { index < 1 + length (nexts closure.now.formula) }
    ensures { literals result
        ≡ row_at layout.now (acceptance_part closure.now.formula Kinds.Infinite step) index }
{
    if index == 0 {
        return accepted(layout, step);
    }
    empty(closure, layout, step, index - 1)
}

/// 1 where the next request of this index is strong, and else 0.
fn strong_size(closure: &Closure<'_>, index: usize) -> u64
    requires { index < length (nexts closure.now.formula) }
    ensures size { result ≡ cond (weak_at closure.now.formula (nexts closure.now.formula) index) 0 1 }
    ensures small { result ≤ 1 }
{
    if next_at(closure, index).weak { 0 } else { 1 }
}

/// How many next requests are strong.
pub fn strong_count(closure: &Closure<'_>) -> u32
    requires { length (nexts closure.now.formula) ≤ 98306 }
    ensures { result ≡ strong_before (nexts closure.now.formula) (length (nexts closure.now.formula)) }
{
    let mut count = 0;
    for k in 0..closure.nexts().len() {
        count += strong_size(closure, k) as u32;
    }
    count
}

/// The index, among all next requests, of the strong one that has this index among the strong ones.
fn strong_spot(closure: &Closure<'_>, index: u64) -> usize
    requires few { length (nexts closure.now.formula) ≤ 98306 }
    requires within { index < strong_before (nexts closure.now.formula) (length (nexts closure.now.formula)) }
    ensures known { result < length (nexts closure.now.formula) }
    ensures place { strong_before (nexts closure.now.formula) result ≡ index }
    ensures strong { weak_at closure.now.formula (nexts closure.now.formula) result ≡ false }
{
    let mut before = 0;
    let mut left = index;
    'walk: while left >= strong_size(closure, before) {
        left -= strong_size(closure, before);
        before += 1;
    }
    before
}

/// An accepted run on a finite trace ends where no strong next request is true.
fn finite(closure: &Closure<'_>, layout: &Layout, step: u32, index: u64) -> Found
    requires own { layout.now ≡ layout_of closure.now }
    requires few { step ≤ 1000 }
    requires fits { Fits layout.now step }
    requires few_nexts { length (nexts closure.now.formula) ≤ 98306 }
    requires within { index < strong_before (nexts closure.now.formula) (length (nexts closure.now.formula)) }
    ensures { literals result
        ≡ row_at layout.now (acceptance_part closure.now.formula Kinds.Finite step) index }
{
    let request = next_at(closure, strong_spot(closure, index));
    let accepted = layout.negative(step, Part::Accepted);
    Found::Two(accepted, layout.entry(step, request.number).opposite())
}

/// A clause of those that say by what rule the run up to the step is accepted.
pub fn acceptance(closure: &Closure<'_>, layout: &Layout, step: u32, index: u64) -> Found
    requires own { layout.now ≡ layout_of closure.now }
    requires few { step ≤ 1000 }
    requires fits { Fits layout.now step }
    requires few_nexts { length (nexts closure.now.formula) ≤ 98306 }
    requires within { index < length (acceptance_part closure.now.formula closure.now.kind step) }
    ensures { literals result
        ≡ row_at layout.now (acceptance_part closure.now.formula closure.now.kind step) index }
{
    match closure.kind() {
        Kind::Infinite => infinite(closure, layout, step, index),
        Kind::Finite => finite(closure, layout, step, index),
    }
}
