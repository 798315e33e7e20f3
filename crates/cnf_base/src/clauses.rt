// What a reader of clauses may ask, whether they are stored or made on demand.

use crate::Literal;

/// A numbered list of clauses. Numbers run from 1 to `count`, places in a clause from 0.
pub trait Clauses {
    ghost use Rattle.std.specs.Prelude.{◌≡◌, ◌<◌, ◌≤◌, List, length, slice_get};
    ghost use Rattle.cnf_base.specs.declared.literal.Literal.{Literal};
    ghost use Rattle.cnf_base.specs.Step.{clause_at};

    ghost clauses: { Self → List (List Literal) };

    /// The number of clauses.
    fn count(&self) -> u64
        ensures { result ≡ length (clauses self.now) };

    /// The number of literals of a clause, repeats counted.
    fn len(&self, number: u64) -> u32
        requires from_one { 1 ≤ number }
        requires in_list { number ≤ length (clauses self.now) }
        ensures { result ≡ length (clause_at (clauses self.now) number) };

    /// The literal at a place of a clause.
    fn literal(&self, number: u64, place: u32) -> Literal
        requires from_one { 1 ≤ number }
        requires in_list { number ≤ length (clauses self.now) }
        requires in_clause { place < length (clause_at (clauses self.now) number) }
        ensures { slice_get (clause_at (clauses self.now) number) place ≡ Some result };
}
