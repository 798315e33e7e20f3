// The words of the second program, which are options alone. Those with `--check` among them ask for a
// certificate to be judged, and all others for a formula to be refuted. Without `--check`, all that may stand
// beside it is offered to refute as well: so words that are taken, but not to refute, have it among them.
ghost use Rattle.std.specs.Prelude.{map, string_bytes, MatchOption, IfOk};
ghost use Rattle.command_words.specs.Refutation.{RefutationAsked, AsksRefutation, IsRefutationAsked};

use crate::options::{Options, said_options};
use crate::table::Offering;
use std::alloc::{AllocError, Global};

/// What is asked of the second program.
#[derive(Clone, Copy)]
pub enum Refutation {
    /// To refute a formula.
    Refute(Options),
    /// To judge a formula and a certificate.
    Check(Options),
}

/// What the words ask of the second program. None where they are not taken.
pub fn asked_refutation(alloc: Global, words: &[String]) -> Result<Option<Refutation>, AllocError>
    ensures { IfOk result (λ asked. MatchOption asked
        ((c : RefutationAsked) → ¬ (AsksRefutation (map string_bytes words.now) c))
        (IsRefutationAsked (map string_bytes words.now))) }
{
    match said_options(alloc, Offering::Refute, words)? {
        Some(options) => Ok(Some(Refutation::Refute(options))),
        None => Ok(said_options(alloc, Offering::Verify, words)?.map(Refutation::Check)),
    }
}
