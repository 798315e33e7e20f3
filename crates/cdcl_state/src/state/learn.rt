// A learnt clause is put behind the lines and watched, the trail is cut to the second highest of its levels,
// and its first literal is forced there, without a new visit of what stays below `lasting`. After
// Marques-Silva and Sakallah, GRASP (1999).
ghost use Rattle.std.specs.Prelude.{◌≡◌, ◌<◌, ◌≤◌, ◌↔◌, [], ◌∷◌, ◌++◌, All, length, Some, OnErr, OnOk};
ghost use Rattle.std.specs.Prelude.{IsTrue};
ghost use Rattle.cnf_base.specs.Known.{IsKnown};
ghost use Rattle.cdcl_state.specs.StateValue.{MayStand, with_log, with_trail};
ghost use Rattle.clause_log.specs.LogValue.{with_line};
ghost use Rattle.cdcl_trail.specs.Trail.{IsInside};
ghost use Rattle.cdcl_analyze.specs.Learnt.{IsLearnt};
ghost use Rattle.cdcl_state.specs.Turns.{IsAsserting, IsTarget, IsTurn, IsUnturned};
ghost use Rattle.cnf_base.specs.declared.literal.Hint.TheVariants.{Line};

use crate::state::State;
use crate::state::backjump::{loosen, release};
use crate::store::store;
use cdcl_analyze::Learnt;
use cdcl_trail::TrailEntry;
use cnf_base::{Hint, Literal};
use std::alloc::AllocError;

impl State {
    fn learn_long(&mut self, learnt: &Learnt, level: usize) -> Result<(), AllocError>
        requires learnt { IsLearnt self.old.log self.old.trail learnt.now }
        requires known { All (IsKnown self.old.letters) learnt.now.clause.items }
        requires asserting { IsAsserting self.old.trail learnt.now.places.items }
        requires level { IsTarget self.old.trail learnt.now.places.items level }
        requires long { 2 ≤ length learnt.now.clause.items }
        ensures turned { OnOk result (IsTurn (with_log self.old
            (with_line self.old.log learnt.now.clause.items learnt.now.hints.items)) self.new) }
        ensures refused { OnErr result (IsUnturned self.old self.new learnt.now) }
    {
        self.assigned.invariant();
        let line = self.log.derive(&learnt.clause, &learnt.hints)?;
        match store(&learnt.clause, Hint::Line(line), &mut self.watches) {
            Ok(()) => {}
            Err(_) => {
                self.log.take_back_line();
                return Err(AllocError);
            }
        }
        let front = self.assigned.front(level);
        release(&self.assigned, &mut self.choices, front);
        self.assigned.cut(front);
        let lasting = self.lasting.min(front);
        loosen(front, &mut self.units_done, &mut self.units_trail);
        self.propagated = 0;
        self.lasting = 0;
        self.assigned.assign(TrailEntry {
            literal: learnt.clause[0],
            level,
            reason: Some(Hint::Line(line)),
        })?;
        self.assigned.invariant();
        self.propagated = lasting;
        self.lasting = lasting;
        Ok(())
    }

    /// Puts the literal behind the trail on level 0, since the line forces it.
    fn force(&mut self, literal: Literal, line: u64) -> Result<(), AllocError>
        requires stands { MayStand self.old (record {
          literal = literal;
          level = 0;
          reason = Some (Line line);
        }) }
        requires known { IsKnown self.old.letters literal }
        ensures forced { OnOk result (self.new ≡ with_trail self.old
            (self.old.trail ++ record { literal = literal; level = 0; reason = Some (Line line) } ∷ [])) }
        ensures refused { OnErr result (self.new ≡ self.old) }
    {
        self.assigned.assign(TrailEntry {
            literal,
            level: 0,
            reason: Some(Hint::Line(line)),
        })
    }

    fn learn_short(&mut self, learnt: &Learnt) -> Result<(), AllocError>
        requires learnt { IsLearnt self.old.log self.old.trail learnt.now }
        requires known { All (IsKnown self.old.letters) learnt.now.clause.items }
        requires asserting { IsAsserting self.old.trail learnt.now.places.items }
        requires short { length learnt.now.clause.items < 2 }
        ensures turned { OnOk result (IsTurn (with_log self.old
            (with_line self.old.log learnt.now.clause.items learnt.now.hints.items)) self.new) }
        ensures refused { OnErr result (IsUnturned self.old self.new learnt.now) }
    {
        self.assigned.invariant();
        let line = self.derive_short(&learnt.clause, &learnt.hints, &learnt.clause)?;
        self.backjump(0);
        self.force(learnt.clause[0], line)?;
        Ok(())
    }

    /// Puts the learnt clause behind the lines, goes back to where its first literal is forced, and assigns
    /// it.
    pub fn learn(&mut self, learnt: &Learnt) -> Result<(), AllocError>
        requires learnt { IsLearnt self.old.log self.old.trail learnt.now }
        requires known { All (IsKnown self.old.letters) learnt.now.clause.items }
        requires asserting { IsAsserting self.old.trail learnt.now.places.items }
        ensures turned { OnOk result (IsTurn (with_log self.old
            (with_line self.old.log learnt.now.clause.items learnt.now.hints.items)) self.new) }
        ensures refused { OnErr result (IsUnturned self.old self.new learnt.now) }
    {
        if learnt.clause.len() < 2 {
            return self.learn_short(learnt);
        }
        let level = self.target(&learnt.places);
        self.learn_long(learnt, level)
    }

    /// The level on which a learnt clause forces its first literal.
    fn target(&self, places: &[usize]) -> usize
        requires { All (IsInside self.now.trail) places.now }
        ensures { IsTarget self.now.trail places.now result }
    {
        if places.len() < 2 {
            return 0;
        }
        self.assigned.entry(places[1]).level
    }

    /// Whether only the first of the places is on the highest level, and that is not 0.
    pub fn is_asserting(&self, places: &[usize]) -> bool
        requires { All (IsInside self.now.trail) places.now }
        ensures { IsTrue result ↔ IsAsserting self.now.trail places.now }
    {
        if places.len() == 0 {
            return false;
        }
        let below = self.target(places);
        below < self.assigned.entry(places[0]).level
    }
}
