// The requests and eventualities of a closure by their indexes, with the numbers that clauses take from
// their entries.
ghost use Rattle.std.specs.Prelude.{◌≡◌, ◌<◌, length};
ghost use Rattle.ltl_closure.specs.Closure.{nexts, yesterdays, eventualities};
ghost use Rattle.ltl_closure.specs.Entries.{IsNumber};
ghost use Rattle.enc_layout.specs.Clauses.{carried};
ghost use Rattle.clause_index.specs.ByNumber.{entry_count, argument_by, weak_by, number_at, argument_at};
ghost use Rattle.clause_index.specs.ByNumber.{right_number, request_number, weak_at};

use crate::operands::operands_of;
use ltl_closure::{Closure, Entry};

/// A request's own number and that of its argument.
#[derive(Clone, Copy, Drop)]
pub struct Request {
    pub number: u32,
    pub argument: u32,
    pub weak: bool,
}

/// The numbers of the entries that fulfill an eventuality and ask for it.
#[derive(Clone, Copy, Drop)]
pub struct Eventuality {
    pub right: u32,
    pub request: u32,
}

fn request_of(number: u32, entry: Entry) -> Request
    ensures number { result.number ≡ number }
    ensures argument { result.argument ≡ argument_by number entry }
    ensures weak { result.weak ≡ weak_by entry }
{
    match entry {
        Entry::Next { argument, weak } | Entry::Yesterday { argument, weak } => Request {
            number,
            argument,
            weak,
        },
        _ => Request {
            number,
            argument: number,
            weak: false,
        },
    }
}

/// The next request of this index, from 0.
pub fn next_at(closure: &Closure<'_>, index: usize) -> Request
    requires { index < length (nexts closure.now.formula) }
    ensures number { result.number ≡ number_at closure.now.formula (nexts closure.now.formula) index }
    ensures argument { result.argument ≡ argument_at closure.now.formula (nexts closure.now.formula) index }
    ensures weak { result.weak ≡ weak_at closure.now.formula (nexts closure.now.formula) index }
    ensures known { IsNumber (entry_count closure.now.formula) result.number }
    ensures argument_known { IsNumber (entry_count closure.now.formula) result.argument }
{
    let number = closure.nexts()[index];
    request_of(number, closure.entry(number))
}

/// The yesterday request of this index, from 0.
pub fn yesterday_at(closure: &Closure<'_>, index: usize) -> Request
    requires { index < length (yesterdays closure.now.formula) }
    ensures number { result.number ≡ number_at closure.now.formula (yesterdays closure.now.formula) index }
    ensures argument { result.argument ≡ argument_at closure.now.formula
        (yesterdays closure.now.formula) index }
    ensures weak { result.weak ≡ weak_at closure.now.formula (yesterdays closure.now.formula) index }
    ensures known { IsNumber (entry_count closure.now.formula) result.number }
    ensures argument_known { IsNumber (entry_count closure.now.formula) result.argument }
{
    let number = closure.yesterdays()[index];
    request_of(number, closure.entry(number))
}

/// The number of the entry whose value stands at a place of the carry, by its index from 0.
pub fn carried_at(closure: &Closure<'_>, index: usize) -> u32
    requires { index < length (carried closure.now.formula) }
    ensures number { result ≡ number_at closure.now.formula (carried closure.now.formula) index }
    ensures known { IsNumber (entry_count closure.now.formula) result }
{
    let nexts = closure.nexts().len();
    if index < nexts {
        next_at(closure, index).number
    } else {
        yesterday_at(closure, index - nexts).argument
    }
}

/// The eventuality of this index, from 0.
pub fn eventuality_at(closure: &Closure<'_>, index: usize) -> Eventuality
    requires { index < length (eventualities closure.now.formula) }
    ensures right { result.right ≡ right_number closure.now.formula index }
    ensures request { result.request ≡ request_number closure.now.formula index }
    ensures right_known { IsNumber (entry_count closure.now.formula) result.right }
    ensures request_known { IsNumber (entry_count closure.now.formula) result.request }
{
    let number = closure.eventualities()[index];
    let of = operands_of(number, closure.entry(number));
    Eventuality {
        right: of.right,
        request: of.request,
    }
}
