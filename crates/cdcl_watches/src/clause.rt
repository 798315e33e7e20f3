// A clause that is lent out of the buffer: its literals stand there by their codes, four bytes each, the
// first two and then the others from the last down. Callers see the clause in its own order.
ghost use Rattle.std.specs.Prelude.{◌≡◌, ◌<◌, length, map, slice_index_or};
ghost use Rattle.cdcl_watches.specs.Watching.{literal_of, blank};
ghost use Rattle.cdcl_watches.specs.Turned.{turned, turned_place};

use crate::coded::{Code, decode};
use cnf_base::Literal;
use std::marker::Model;

/// The literals of a clause, from place 0 on.
#[derive(Drop)]
pub struct Clause<'a> {
    codes: &'a [u32],
}

impl<'a> Model for Clause<'a> {
    ghost use Rattle.std.specs.Prelude.{List, map};
    ghost use Rattle.cnf_base.specs.declared.literal.Literal.{Literal};
    ghost use Rattle.cdcl_watches.specs.Watching.{literal_of};
    ghost use Rattle.cdcl_watches.specs.Turned.{turned};

    ghost Value = { List Literal };

    ghost view = { λ a. turned (map literal_of a.codes.now) };
}

impl<'a> Clause<'a> {
    /// The clause of these codes, which stand as in the buffer.
    pub fn new(codes: &'a [u32]) -> Self
        ensures { result ≡ turned (map literal_of codes.now) }
    {
        Clause { codes }
    }

    /// The number of literals.
    pub fn len(&self) -> usize
        ensures { result ≡ length self.now }
    {
        let codes = self.codes;
        codes.len()
    }

    /// The literal at a place.
    #[inline(always)]
    pub fn get(&self, place: usize) -> Literal
        requires { place < length self.now }
        ensures { result ≡ slice_index_or self.now place blank }
    {
        let codes = self.codes;
        let place = place_of(codes.len(), place);
        decode(Code(codes[place]))
    }
}

/// Where the literal at a place stands among the codes of a clause of `len` literals.
#[inline(always)]
pub fn place_of(len: usize, place: usize) -> usize
    requires { place < len }
    ensures { result ≡ turned_place len place }
{
    if place < 2 { place } else { len - place + 1 }
}
