// What the claims of a layer rest on at its base.
ghost use Rattle.std.specs.Prelude.{◌≡◌, ◌<◌, MatchOption, Some, length};
ghost use Rattle.ltl_syntax.specs.declared.node.Kind.TheVariants as Kinds;
ghost use Rattle.ltl_closure.specs.Closure.{eventualities};
ghost use Rattle.ltl_closure.specs.Entries.{IsNumber};
ghost use Rattle.claims.specs.Between.{width};
ghost use Rattle.claim_check.specs.Bases.{right_by, request_by, right_number, request_number, HasBase};
ghost use Rattle.claim_check.specs.Bases.{IsBaseOf};

use cnf_base::{Letter, Literal};
use ltl_closure::{Closure, Entry};
use ltl_syntax::Kind;

/// What the claims of a layer rest on.
#[derive(Clone, Copy, Drop)]
pub enum Base {
    /// They hold at a last state.
    Last,
    /// They hold everywhere.
    Everywhere,
    /// They hold before a state that meets the eventuality: one that does not have its request, or has its
    /// right operand. These are the literals of the next state.
    Meeting(Literal, Literal),
}

/// The numbers of the entries that fulfill an eventuality and ask for it.
#[derive(Clone, Copy, Drop)]
struct Operands {
    right: u32,
    request: u32,
}

fn operands_of(number: u32, entry: Entry) -> Operands
    ensures right { result.right ≡ right_by number entry }
    ensures request { result.request ≡ request_by number entry }
{
    match entry {
        Entry::Until { right, request, .. } => Operands { right, request },
        _ => Operands {
            right: number,
            request: number,
        },
    }
}

/// Those of the eventuality of this index, from 0.
fn operands_at(closure: &Closure<'_>, index: usize) -> Operands
    requires { index < length (eventualities closure.now.formula) }
    ensures right { result.right ≡ right_number closure.now.formula index }
    ensures request { result.request ≡ request_number closure.now.formula index }
    ensures right_known { IsNumber (width closure.now.formula) result.right }
    ensures request_known { IsNumber (width closure.now.formula) result.request }
{
    let number = closure.eventualities()[index];
    operands_of(number, closure.entry(number))
}

/// The base before a state that meets the eventuality of this index, where there is one.
fn meeting(closure: &Closure<'_>, index: u32) -> Option<Base>
    ensures { MatchOption result (¬ HasBase closure.now.formula Kinds.Infinite (Some index))
        (IsBaseOf closure.now.formula Kinds.Infinite (Some index)) }
{
    if index as usize >= closure.eventualities().len() {
        return None;
    }
    let width = closure.entries().len() as u32;
    let operands = operands_at(closure, index as usize);
    let pending = Literal {
        letter: Letter(width + operands.request),
        negated: false,
    };
    let not_fulfilled = Literal {
        letter: Letter(width + operands.right),
        negated: true,
    };
    Some(Base::Meeting(pending, not_fulfilled))
}

/// The base of a layer, unless its eventuality is none of the formula's or it has one for finite traces.
pub fn base_of(closure: &Closure<'_>, kind: Kind, eventuality: Option<u32>) -> Option<Base>
    ensures { MatchOption result (¬ HasBase closure.now.formula kind eventuality)
        (IsBaseOf closure.now.formula kind eventuality) }
{
    match eventuality {
        None => match kind {
            Kind::Finite => Some(Base::Last),
            Kind::Infinite => Some(Base::Everywhere),
        },
        Some(index) => match kind {
            Kind::Finite => None,
            Kind::Infinite => meeting(closure, index),
        },
    }
}
