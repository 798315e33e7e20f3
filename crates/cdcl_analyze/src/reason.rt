// The clause that forced a letter, as an analysis reads it. Propagation came by it just before, so it is read
// out of the buffer of watched clauses where it is noted there: a literal has four bytes in that, and eight
// in the log, which is far larger than a cache. What the buffer does not note is read from the log.
ghost use Rattle.std.specs.Prelude.{◌≡◌, ◌<◌, length, slice_index_or};
ghost use Rattle.cdcl_watches.specs.Watching.{blank};
ghost use Rattle.cdcl_analyze.specs.Reason.{read_literals};

use cdcl_watches::Clause;
use cnf_base::Literal;

/// A clause that is read from one place or the other.
#[derive(Drop)]
pub(crate) enum Reason<'a> {
    Watched(Clause<'a>),
    Logged(&'a [Literal]),
}

impl<'a> Reason<'a> {
    /// The number of literals.
    #[inline(always)]
    pub(crate) fn len(&self) -> usize
        ensures { result ≡ length (read_literals self.now) }
    {
        match self {
            Reason::Watched(clause) => clause.len(),
            Reason::Logged(literals) => literals.len(),
        }
    }

    /// The letter of the literal at a place.
    #[inline(always)]
    pub(crate) fn letter(&self, place: usize) -> u32
        requires { place < length (read_literals self.now) }
        ensures { result ≡ (slice_index_or (read_literals self.now) place blank).letter.0 }
    {
        match self {
            Reason::Watched(clause) => clause.get(place).letter.0,
            Reason::Logged(literals) => {
                let literals = *literals;
                literals[place].letter.0
            }
        }
    }
}
