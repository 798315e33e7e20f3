// The clause of a log that a hint names, which is what a reason on the trail is read by.
ghost use Rattle.std.specs.Prelude.{◌≡◌, IsSome, Some};
ghost use Rattle.cnf_base.specs.Step.{named};

use clause_log::LogView;
use cnf_base::{Hint, Literal};

/// The clause that the hint names.
#[inline(always)]
pub fn clause_of<'a>(view: &LogView<'a>, hint: Hint) -> &'a [Literal]
    requires { IsSome (named view.now.inputs view.now.lines hint) }
    ensures { named view.now.inputs view.now.lines hint ≡ Some result.now }
{
    match hint {
        Hint::Clause(number) => view.input(number),
        Hint::Line(number) => view.literals(number),
    }
}
