// What a conflict, or a false assumption, is explained by: the first unique implication point, or decisions
// alone. After Marques-Silva and Sakallah, GRASP (1999), and Een and Sorensson, Temporal induction by
// incremental SAT solving (2003).
ghost use Rattle.std.specs.Prelude.{◌≡◌, ◌≢◌, ℕ, [], ◌⊎◌, All, None, MatchOption, IfOk, Contains};
ghost use Rattle.cnf_base.specs.Known.{IsKnown};
ghost use Rattle.cdcl_trail.specs.Trail.{IsConflict, literals_of, literal_at, IsDecision};
ghost use Rattle.cdcl_analyze.specs.Learnt.{IsLearnt};
ghost use Rattle.cdcl_state.specs.Turns.{IsAsserting, IsTop, IsRefuted};
ghost use Rattle.cnf_base.specs.Literal.{opposite};
ghost use Rattle.cdcl_analyze.specs.declared.analyze.Cut.TheVariants.{Decisions};

use crate::state::State;
use cdcl_analyze::{Cut, ImplicationGraph, Learnt, explain, explain_forced};
use cnf_base::{Hint, Literal};
use std::alloc::{AllocError, Global};

impl State {
    /// Explains a conflict by literals that the cut keeps.
    pub fn explain(&mut self, alloc: Global, conflict: Hint, cut: Cut) -> Result<Learnt, AllocError>
        requires { IsConflict self.old.log.inputs self.old.log.lines (literals_of self.old.trail) conflict }
        ensures same { self.new ≡ self.old }
        ensures learnt { IfOk result (IsLearnt self.old.log self.old.trail) }
        ensures known { IfOk result (λ learnt. All (IsKnown self.old.letters) learnt.clause.items) }
        ensures decided { IfOk result (λ learnt. cut ≡ Decisions
            → All (IsDecision self.old.trail) learnt.places.items) }
    {
        let graph = ImplicationGraph::of(&self.assigned, self.watches.arena(), self.log.log());
        let learnt = explain(
            alloc,
            &graph,
            cut,
            &mut self.marks,
            &mut self.choices,
            conflict,
        )?;
        self.choices.decay();
        Ok(learnt)
    }

    /// Explains a conflict by a clause that forces a literal after a way back, or by the empty clause: by the
    /// first unique implication point, and where that clause would force nothing after a way back, by
    /// decisions.
    pub fn analyze(&mut self, alloc: Global, conflict: Hint) -> Result<Learnt, AllocError>
        requires { IsConflict self.old.log.inputs self.old.log.lines (literals_of self.old.trail) conflict }
        ensures same { self.new ≡ self.old }
        ensures learnt { IfOk result (IsLearnt self.old.log self.old.trail) }
        ensures known { IfOk result (λ learnt. All (IsKnown self.old.letters) learnt.clause.items) }
        ensures asserting { IfOk result (λ learnt. (learnt.clause.items ≡ [])
            ⊎ IsAsserting self.old.trail learnt.places.items) }
    {
        let _ = &self.assigned;
        let level = self.level();
        let learnt = self.explain(alloc, conflict, Cut::FirstUnique(level))?;
        if self.is_asserting(&learnt.places) {
            return Ok(learnt);
        }
        self.explain(alloc, conflict, Cut::Decisions)
    }

    /// The level of the last entry; 0 for an empty trail.
    fn level(&self) -> usize {
        if self.assigned.len() == 0 {
            return 0;
        }
        self.assigned.level()
    }

    /// The last decision, if there is one.
    pub fn top(&self) -> Option<Literal>
        ensures { MatchOption result (All (λ e. e.reason ≢ None) self.now.trail) (IsTop self.now.trail) }
    {
        let mut end = self.assigned.len();
        'down: while end > 0 {
            let entry = self.assigned.entry(end - 1);
            if entry.reason.is_none() {
                return Some(entry.literal);
            }
            end -= 1;
        }
        None
    }

    /// Explains by decisions why the literal is false, as a conflict with the decision that it is true.
    pub fn explain_false(&mut self, alloc: Global, literal: Literal) -> Result<Learnt, AllocError>
        requires there { Contains (literals_of self.old.trail) (opposite literal) }
        requires forced { (place : ℕ) → IsDecision self.old.trail place
            → literal_at self.old.trail place ≢ opposite literal }
        ensures same { self.new ≡ self.old }
        ensures learnt { IfOk result (IsRefuted self.old literal) }
        ensures known { IfOk result (λ learnt. All (IsKnown self.old.letters) learnt.clause.items) }
    {
        let place = self.assigned.place(literal.opposite());
        match self.assigned.entry(place).reason {
            Some(hint) => {
                let graph = ImplicationGraph::of(
                    &self.assigned,
                    self.watches.arena(),
                    self.log.log(),
                );
                let learnt = explain_forced(
                    alloc,
                    &graph,
                    &mut self.marks,
                    &mut self.choices,
                    place,
                    hint,
                )?;
                self.choices.decay();
                return Ok(learnt);
            }
            None => unreachable!(),
        }
    }
}
