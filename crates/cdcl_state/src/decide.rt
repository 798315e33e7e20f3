// The next decision: of the letters that inputs name and that have no value the most active one is held
// ready. Nothing is promised of it but safety: who asks for a letter tests whether it has a value.
ghost use Rattle.std.specs.Prelude.{◌≡◌, ◌≢◌, ◌<◌, ◌↔◌, IsTrue, None, length};
ghost use Rattle.cdcl_trail.specs.Trail.{literals_of, IsUnset};
ghost use Rattle.cdcl_state.specs.StateValue.{positive};

use crate::named::Named;
use cdcl_activity::Choices;
use cdcl_trail::Assigned;
use cnf_base::{Hint, Letter, Literal};

/// Holds the most active letter without a value ready, if there is one. The one that was held before goes
/// back, if it has no value; if it has one, it waits again once it loses that. A letter that lost its value
/// and that no input names waits no longer. After a conflict nothing is decided, and so nothing is done.
pub fn offer(choices: &mut Choices, assigned: &Assigned, named: &Named, conflict: Option<Hint>)
    ensures { conflict ≢ None → choices.new ≡ choices.old }
{
    if conflict.is_some() {
        return;
    }
    if is_open(assigned, choices.held()) {
        choices.put_back();
    }
    for _ in 0..choices.waiting() {
        match choices.pop() {
            None => return,
            Some(letter) => {
                if named.has(letter) && is_open(assigned, letter) {
                    choices.hold(letter);
                    return;
                }
            }
        }
    }
}

/// Whether the letter has no value.
fn is_open(assigned: &Assigned, letter: u32) -> bool
    ensures { IsTrue result ↔ ((letter < length assigned.now.values)
        × IsUnset (literals_of assigned.now.trail) (positive letter)) }
{
    if letter as usize >= assigned.letters() {
        return false;
    }
    let literal = Literal {
        letter: Letter(letter),
        negated: false,
    };
    if assigned.holds(literal) {
        return false;
    }
    !assigned.holds(literal.opposite())
}
