// Literals of letters that stand evenly apart: the longest clauses have hundreds of these.
ghost use Rattle.std.specs.Prelude.{◌≡◌, ◌+◌, ◌-◌, ◌*◌, ◌<◌, ◌≤◌, length, slice_get};
ghost use Rattle.clause_index.specs.Runs.{evenly};

use cnf_base::{Letter, Literal};
use std::marker::Model;

/// Literals that are not negated, of letters evenly apart.
#[derive(Drop)]
pub struct Run {
    first: u32,
    apart: u32,
    count: u32,
}

impl Model for Run {
    ghost use Rattle.std.specs.Prelude.{◌+◌, ◌-◌, ◌*◌, ◌≤◌, List};
    ghost use Rattle.cnf_base.specs.declared.literal.Literal.{Literal};
    ghost use Rattle.clause_index.specs.Runs.{evenly};

    ghost Value = { List Literal };

    ghost view = { λ r. evenly r.first r.apart r.count };

    ghost invariant = { λ r. (r.count ≤ 16777216) × (r.first + (r.count - 1) * r.apart ≤ 16777216) };
}

impl Run {
    /// This number of literals, the first one of this letter. The last letter is at most 16,777,216.
    pub fn of(first: Letter, apart: u32, count: u32) -> Run
        requires few { count ≤ 16777216 }
        requires last { first.0 + (count - 1) * apart ≤ 16777216 }
        ensures { result ≡ evenly first.0 apart count }
    {
        Run {
            first: first.0,
            apart,
            count,
        }
    }

    /// The number of literals.
    pub fn len(&self) -> u32
        ensures count { result ≡ length self.now }
        ensures few { result ≤ 16777216 }
    {
        self.count
    }

    /// The literal at a place, from 0.
    pub fn literal(&self, place: u32) -> Literal
        requires { place < length self.now }
        ensures { slice_get self.now place ≡ Some result }
    {
        Literal {
            letter: Letter(self.first + place * self.apart),
            negated: false,
        }
    }
}
