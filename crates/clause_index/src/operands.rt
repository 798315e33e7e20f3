// The numbers of what a gate speaks of beside its own entry: the operands and the request.
ghost use Rattle.std.specs.Prelude.{◌≡◌};
ghost use Rattle.clause_index.specs.ByNumber.{left_by, right_by, request_by};

use ltl_closure::Entry;

/// The numbers of an entry's operands and of its request. One that it does not have is its own.
#[derive(Clone, Copy, Drop)]
pub struct Operands {
    pub left: u32,
    pub right: u32,
    pub request: u32,
}

/// Those of the entry of this number.
pub fn operands_of(number: u32, entry: Entry) -> Operands
    ensures left { result.left ≡ left_by number entry }
    ensures right { result.right ≡ right_by number entry }
    ensures request { result.request ≡ request_by number entry }
{
    match entry {
        Entry::NotLetter(left) => Operands {
            left,
            right: number,
            request: number,
        },
        Entry::And(left, right) | Entry::Or(left, right) => Operands {
            left,
            right,
            request: number,
        },
        Entry::Until {
            left,
            right,
            request,
        }
        | Entry::Since {
            left,
            right,
            request,
        }
        | Entry::Release {
            left,
            right,
            request,
        }
        | Entry::Trigger {
            left,
            right,
            request,
        } => Operands {
            left,
            right,
            request,
        },
        _ => Operands {
            left: number,
            right: number,
            request: number,
        },
    }
}
