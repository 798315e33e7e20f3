// Literals and hints that are given one by one: those of a text, and those that lie there as slices.
ghost use Rattle.std.specs.Prelude.{◌≡◌};

use cert_text::{Hints, Literals};
use cnf_base::{Hint, Literal};

/// Items that are given one by one.
pub trait Listed<T> {
    ghost use Rattle.std.specs.Prelude.{◌≡◌, List, [], ◌∷◌, MatchOption};

    ghost items: { Self → List T };

    /// The next item, which is none of those that are left then.
    fn take(&mut self) -> Option<T>
        ensures { MatchOption result ((items self.old ≡ []) × (items self.new ≡ []))
            (λ item. items self.old ≡ item ∷ items self.new) };
}

impl<'t> Listed<Literal> for Literals<'t> {
    ghost items = { λ rest. rest };

    #[inline(always)]
    fn take(&mut self) -> Option<Literal> {
        self.next()
    }
}

impl<'t> Listed<Hint> for Hints<'t> {
    ghost items = { λ rest. rest };

    #[inline(always)]
    fn take(&mut self) -> Option<Hint> {
        self.next()
    }
}

/// What is left of a slice.
#[derive(Drop)]
pub struct Rest<'s, T> {
    items: &'s [T],
}

impl<'s, T> Rest<'s, T> {
    pub fn new(items: &'s [T]) -> Rest<'s, T>
        ensures { result.items.now ≡ items.now }
    {
        Rest { items }
    }
}

impl<'s, T: Copy> Listed<T> for Rest<'s, T> {
    ghost items = { λ rest. rest.items.now };

    #[inline(always)]
    fn take(&mut self) -> Option<T> {
        match self.items.split_first() {
            None => None,
            Some((first, rest)) => {
                self.items = rest;
                Some(*first)
            }
        }
    }
}
