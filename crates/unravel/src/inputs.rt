// What the solver was given of the clause list. Each input stands beside its number in the list, so that what
// follows from the inputs is told of the list, which nobody stores.
ghost use Rattle.std.specs.Prelude.{◌≡◌, ◌≤◌, Contains, OnOk};
ghost use Rattle.cnf_base.specs.Step.{clause_at};
ghost use Rattle.clause_index.specs.Literals.{literals};
ghost use Rattle.unravel.specs.Putting.{list_of, IsNumberIn, IsPartOf, HasMore};
ghost use Rattle.unravel.specs.Depths.{IsEmpty};

use crate::listed::Listed;
use cdcl::Solver;
use clause_index::Found;
use cnf_base::Literal;
use indexmap::IndexSet;
use std::alloc::{AllocError, Global};

/// A solver with clauses of the list, and their numbers there. It is not gone on with after a refusal.
#[derive(Drop)]
pub struct Inputs {
    pub solver: Solver,
    /// The number of each input in the list.
    pub names: Vec<u64>,
    /// The numbers of those that runs asked for.
    asked: IndexSet<u64>,
    /// Room for the clause that is put in.
    clause: Vec<Literal>,
}

/// Spells the clause out in place of what was there.
fn spell(found: &Found, clause: &mut Vec<Literal>) -> Result<(), AllocError>
    ensures { OnOk result (clause.new.items ≡ literals found.now) }
{
    clause.truncate(0);
    'places: for place in 0..found.len() {
        clause.push(found.literal(place))?;
    }
    Ok(())
}

impl Inputs {
    /// No letters and no clauses.
    pub fn new(alloc: Global) -> Inputs
        ensures { IsEmpty result }
    {
        Inputs {
            solver: Solver::new(alloc),
            names: Vec::new(alloc),
            asked: IndexSet::new(alloc),
            clause: Vec::new(alloc),
        }
    }

    /// Makes the letters from 1 to the count known.
    pub fn letters(&mut self, count: u32) -> Result<(), AllocError>
        requires { self.old.solver.letters ≤ count }
        ensures letters { OnOk result (self.new.solver.letters ≡ count) }
        ensures log { OnOk result (self.new.solver.log ≡ self.old.solver.log) }
        ensures names { OnOk result (self.new.names.items ≡ self.old.names.items) }
    {
        self.solver.letters(count)?;
        Ok(())
    }

    /// Puts the clause of this number in.
    pub fn add(&mut self, listed: &Listed<'_>, number: u64) -> Result<(), AllocError>
        requires number { IsNumberIn listed.now number }
        requires part { IsPartOf listed.now self.old }
        ensures more { OnOk result (HasMore listed.now self.old self.new) }
        ensures there { OnOk result (Contains self.new.solver.log.inputs
            (clause_at (list_of listed.now) number)) }
    {
        let found = listed.clause(number);
        spell(&found, &mut self.clause)?;
        self.solver.add(&self.clause)?;
        self.names.push(number)?;
        Ok(())
    }

    /// Puts the clause of this number in, where no run has asked for it yet.
    pub fn add_once(&mut self, listed: &Listed<'_>, number: u64) -> Result<(), AllocError>
        requires number { IsNumberIn listed.now number }
        requires part { IsPartOf listed.now self.old }
        ensures { OnOk result (HasMore listed.now self.old self.new) }
    {
        let (_, is_new) = self.asked.insert_full(number)?;
        if is_new {
            self.add(listed, number)?;
        }
        Ok(())
    }
}
