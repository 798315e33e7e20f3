// Clauses that are not stored: each is worked out where a hint names it, once for all of its literals.
ghost use Rattle.std.specs.Prelude.{◌≡◌, All};
ghost use Rattle.cnf_base.specs.Known.{IsKnown};
ghost use Rattle.log_checker.specs.Values.{letters_in, falses_in};
ghost use Rattle.log_checker.specs.Judging.{IsOutcome};
ghost use Rattle.clause_index.specs.Literals.{literals};

use clause_index::{Found, Indexed};
use cnf_base::Clauses;
use log_checker::{Assignment, ClauseStatus, NamedClauses, with_literal};

/// The clauses of a formula by their numbers, as a judge asks for them.
#[derive(Drop)]
pub struct OnDemand<'i, 'c> {
    indexed: &'i Indexed<'c>,
}

impl<'i, 'c> OnDemand<'i, 'c> {
    pub fn of(indexed: &'i Indexed<'c>) -> OnDemand<'i, 'c>
        ensures { result.indexed.now ≡ indexed.now }
    {
        OnDemand { indexed }
    }
}

/// What a clause that was found is under these values.
fn of_found(assignment: &Assignment, clause: &Found) -> ClauseStatus
    requires { All (IsKnown (letters_in assignment.now)) (literals clause.now) }
    ensures { IsOutcome (falses_in assignment.now) (literals clause.now) result }
{
    let mut outcome = ClauseStatus::AllFalse;
    'places: for place in 0..clause.len() {
        outcome = with_literal(assignment, outcome, clause.literal(place));
        if let ClauseStatus::Neither = outcome {
            return ClauseStatus::Neither;
        }
    }
    outcome
}

impl<'i, 'c> NamedClauses for OnDemand<'i, 'c> {
    ghost use Rattle.enc_layout.specs.Clauses.{clause_list};

    ghost clauses = { λ x. clause_list x.indexed.now.formula x.indexed.now.kind x.indexed.now.depth };

    fn last_number(&self) -> u64 {
        self.indexed.count()
    }

    fn outcome(&self, assignment: &Assignment, number: u64) -> ClauseStatus {
        of_found(assignment, &self.indexed.clause(number))
    }
}
