// The state of the solver: the trail, the log, and the log's clauses in the order in which they are watched.
ghost use Rattle.std.specs.Prelude.{◌≡◌, ◌≢◌, ◌↔◌, ◌⊎◌, ℕ, ◌+◌, ◌<◌, ◌≤◌, [], true, false, All, IsTrue};
ghost use Rattle.std.specs.Prelude.{AllPairs, length, slice_index_or, MatchOption, IfSome, IfOk, OnErr, OnOk};
ghost use Rattle.cnf_base.specs.Known.{IsKnown, AreKnown};
ghost use Rattle.cdcl_state.specs.StateValue.{IsSettled, Propagated, AreSet, IsSet, IsModel, positive};
ghost use Rattle.cdcl_state.specs.StateValue.{with_log, with_letters};
ghost use Rattle.cdcl_trail.specs.Trail.{IsConflict, literals_of, IsUnset, HasValue, place_level};
ghost use Rattle.cnf_base.specs.Step.{IsHintedStep};
ghost use Rattle.clause_log.specs.LogValue.{IsLog, greatest_u32, with_line, with_input};
ghost use Rattle.cdcl_watches.specs.Watching.{AreApart};
ghost use Rattle.cdcl_propagate.specs.Visit.{HaveSame};
ghost use Rattle.cdcl_state.specs.Turns.{IsDecided};

use crate::decide::offer;
use crate::lettered::LetteredLog;
use crate::state::backjump::settle;
use crate::store::{distinct, is_ready, lead, rewind, store};
use crate::widen::widen;
use cdcl_activity::Choices;
use cdcl_analyze::Marks;
use cdcl_propagate::propagate::propagate;
use cdcl_propagate::visit_units;
use cdcl_trail::{Assigned, TrailEntry};
use cdcl_watches::Watches;
use clause_log::Log;
use cnf_base::{Hint, Literal};
use std::alloc::{AllocError, Global};
use std::marker::Model;

mod backjump;
mod explain;
mod forget;
mod learn;

/// The literals that are true, in order, and the log that they follow from.
#[derive(Drop)]
pub struct State {
    /// The known letters run from 1 to this number.
    letters: usize,
    /// The trail, and the value, the place and the reason of each letter.
    assigned: Assigned,
    /// The inputs and the lines, with the letters that the inputs name.
    log: LetteredLog,
    /// The clauses of at least two literals, but for forgotten lines, each by the name that says which of the
    /// log's it is.
    watches: Watches,
    /// The number of the trail's first entries whose opposites' lists were visited.
    propagated: usize,
    /// The number of those whose visits last: a way back goes on from there.
    lasting: usize,
    /// The clauses of one literal or none, which nobody watches.
    units: Vec<Hint>,
    /// The number of these that are true by the first `units_trail` entries.
    units_done: usize,
    /// The number of the trail's first entries that make them true. A way back below it visits all of them
    /// again.
    units_trail: usize,
    /// What an analysis marks and finds out of letters.
    marks: Marks,
    /// The order in which letters are decided, and the values that they had last.
    choices: Choices,
    /// Whether each line is among the watched clauses or the units. The inputs always are.
    all_lines: bool,
}

impl Model for State {
    ghost use Rattle.cdcl_state.specs.StateValue.{StateValue};

    ghost Value = { StateValue };

    ghost use Rattle.cdcl_state.specs.State.{IsState, parts};

    ghost view = { λ a. record {
      letters = a.letters;
      trail = a.assigned.trail;
      log = a.log;
      all_lines = a.all_lines;
    } };

    ghost invariant = { λ a. IsState (parts a) };
}

impl State {
    /// No letters, no trail and an empty log.
    pub fn new(alloc: Global) -> Self
        ensures { result ≡ record {
          letters = 0;
          trail = [];
          log = record { inputs = []; lines = []; hints = [] };
          all_lines = true;
        } }
    {
        State {
            letters: 0,
            assigned: Assigned::new(alloc),
            log: LetteredLog::new(alloc),
            watches: Watches::new(alloc),
            propagated: 0,
            lasting: 0,
            units: Vec::new(alloc),
            units_done: 0,
            units_trail: 0,
            marks: Marks::new(alloc),
            choices: Choices::new(alloc),
            all_lines: true,
        }
    }

    /// Assigns what unit clauses force, until some clause is false or none is unit.
    pub fn propagate(&mut self) -> Result<Option<Hint>, AllocError>
        ensures grown { Propagated self.old self.new }
        ensures found { IfOk result (λ found. MatchOption found (IsSettled self.new)
            (IsConflict self.new.log.inputs self.new.log.lines (literals_of self.new.trail))) }
    {
        match visit_units(
            &mut self.assigned,
            self.log.log(),
            &self.units,
            self.units_done,
        )? {
            Some(hint) => return Ok(Some(hint)),
            None => {}
        }
        settle(
            self.units.len(),
            self.assigned.len(),
            &mut self.units_done,
            &mut self.units_trail,
        );
        let found = propagate(
            &mut self.assigned,
            &mut self.watches,
            self.log.log(),
            &mut self.propagated,
            &mut self.lasting,
        )?;
        offer(&mut self.choices, &self.assigned, self.log.named(), found);
        self.watches.invariant();
        self.assigned.invariant();
        Ok(found)
    }

    /// Whether the literal is true, if it has a value.
    pub fn value(&self, literal: Literal) -> Option<bool>
        requires { IsKnown self.now.letters literal }
        ensures { MatchOption result (IsUnset (literals_of self.now.trail) literal)
            (HasValue (literals_of self.now.trail) literal) }
    {
        if self.assigned.holds(literal) {
            return Some(true);
        }
        if self.assigned.holds(literal.opposite()) {
            return Some(false);
        }
        None
    }

    /// The level of the entry at a place of the trail, which are numbered from 0; 0 where there is none.
    pub fn level_at(&self, place: usize) -> usize
        ensures { result ≡ place_level self.now.trail place }
    {
        self.assigned.level_at(place)
    }

    /// A known literal without a value, if a literal of an input has none: first of a letter that may be
    /// decided, and where none is left, of any letter that an input names.
    pub fn free(&self) -> Option<Literal>
        ensures { MatchOption result (AreSet self.now)
            (λ l. IsUnset (literals_of self.now.trail) l × IsKnown self.now.letters l) }
    {
        let _ = &self.assigned;
        match self.ready() {
            Some(literal) => return Some(literal),
            None => {}
        }
        let named = self.log.named().letters();
        for letter in named {
            let literal = self.choices.literal(*letter);
            if self.is_open(literal) {
                return Some(literal);
            }
        }
        None
    }

    /// The literal that is held ready for a decision, if it has no value.
    fn ready(&self) -> Option<Literal>
        ensures { IfSome result (λ l. IsUnset (literals_of self.now.trail) l × IsKnown self.now.letters l) }
    {
        let literal = self.choices.literal(self.choices.held());
        if self.is_open(literal) {
            return Some(literal);
        }
        None
    }

    /// Whether the literal is known and has no value.
    fn is_open(&self, literal: Literal) -> bool
        ensures yes { IsTrue result
            → IsUnset (literals_of self.now.trail) literal × IsKnown self.now.letters literal }
        ensures no { ¬ IsTrue result → IsKnown self.now.letters literal → IsSet self.now.trail literal }
    {
        if literal.letter.0 < 1 {
            return false;
        }
        if self.letters < literal.letter.0 as usize {
            return false;
        }
        self.value(literal).is_none()
    }

    /// The letters' values, each under its number; that of number 0 means nothing.
    pub fn model(&self, alloc: Global) -> Result<Vec<bool>, AllocError>
        ensures { IfOk result (λ model. IsModel self.now model.items) }
    {
        let mut model: Vec<bool> = vec![in alloc; false; self.letters + 1]?;
        for place in 0..self.assigned.len() {
            set_true(&mut model, self.assigned.entry(place).literal);
        }
        Ok(model)
    }

    /// The trail has at most one entry a letter, the clauses' letters are known, and the lines follow.
    pub fn invariant(&self)
        ensures short { length self.now.trail ≤ self.now.letters + 1 }
        ensures apart { AllPairs (λ e f. e.literal.letter.0 ≢ f.literal.letter.0) self.now.trail }
        ensures steps { IsLog self.now.log }
        ensures known_inputs { AreKnown self.now.letters self.now.log.inputs }
        ensures known_lines { AreKnown self.now.letters self.now.log.lines }
    {
        self.assigned.invariant();
        self.log.invariant();
    }

    /// Puts the clause behind the inputs, and answers its number there.
    pub fn add(&mut self, alloc: Global, clause: &[Literal]) -> Result<u64, AllocError>
        requires { All (IsKnown self.old.letters) clause.now }
        ensures added { IfOk result (λ number. (self.new
            ≡ with_log self.old (with_input self.old.log clause.now))
            × (number ≡ length self.new.log.inputs)) }
        ensures refused { OnErr result (self.new ≡ self.old) }
    {
        if is_ready(&self.assigned, &mut self.marks, clause) {
            return self.add_stored(clause, clause);
        }
        let mut stored: Vec<Literal> = Vec::new(alloc);
        distinct(clause, &mut stored)?;
        lead(&self.assigned, &mut stored);
        self.add_stored(clause, &stored)
    }

    fn add_stored(&mut self, clause: &[Literal], stored: &[Literal]) -> Result<u64, AllocError>
        requires known { All (IsKnown self.old.letters) clause.now }
        requires same { HaveSame clause.now stored.now }
        requires apart { AreApart stored.now }
        ensures added { IfOk result (λ number. (self.new
            ≡ with_log self.old (with_input self.old.log clause.now))
            × (number ≡ length self.new.log.inputs)) }
        ensures refused { OnErr result (self.new ≡ self.old) }
    {
        if stored.len() < 2 {
            return self.add_short(clause, stored);
        }
        self.add_long(clause, stored)
    }

    fn add_short(&mut self, clause: &[Literal], stored: &[Literal]) -> Result<u64, AllocError>
        requires known { All (IsKnown self.old.letters) clause.now }
        requires same { HaveSame clause.now stored.now }
        requires short { length stored.now < 2 }
        ensures added { IfOk result (λ number. (self.new
            ≡ with_log self.old (with_input self.old.log clause.now))
            × (number ≡ length self.new.log.inputs)) }
        ensures refused { OnErr result (self.new ≡ self.old) }
    {
        self.log.invariant();
        let number = self.log.add_input(clause, &mut self.choices)?;
        match self.units.push(Hint::Clause(number)) {
            Ok(()) => {
                return Ok(number);
            }
            Err(_) => {
                self.log.take_back_input();
                return Err(AllocError);
            }
        }
    }

    fn add_long(&mut self, clause: &[Literal], stored: &[Literal]) -> Result<u64, AllocError>
        requires known { All (IsKnown self.old.letters) clause.now }
        requires same { HaveSame clause.now stored.now }
        requires long { 2 ≤ length stored.now }
        requires apart { AreApart stored.now }
        ensures added { IfOk result (λ number. (self.new
            ≡ with_log self.old (with_input self.old.log clause.now))
            × (number ≡ length self.new.log.inputs)) }
        ensures refused { OnErr result (self.new ≡ self.old) }
    {
        self.log.invariant();
        let number = self.log.add_input(clause, &mut self.choices)?;
        match store(stored, Hint::Clause(number), &mut self.watches) {
            Ok(()) => {
                rewind(
                    &self.assigned,
                    stored,
                    &mut self.propagated,
                    &mut self.lasting,
                );
                return Ok(number);
            }
            Err(_) => {
                self.log.take_back_input();
                return Err(AllocError);
            }
        }
    }

    /// Puts the hinted step behind the lines, and answers its number there. Nothing is assigned.
    pub fn derive(
        &mut self,
        alloc: Global,
        clause: &[Literal],
        hints: &[Hint],
    ) -> Result<u64, AllocError>
        requires step { IsHintedStep self.old.log.inputs self.old.log.lines greatest_u32 clause.now
            hints.now }
        requires known { All (IsKnown self.old.letters) clause.now }
        ensures added { IfOk result (λ number. (self.new
            ≡ with_log self.old (with_line self.old.log clause.now hints.now))
            × (number ≡ length self.new.log.lines)) }
        ensures refused { OnErr result (self.new ≡ self.old) }
    {
        let mut stored: Vec<Literal> = Vec::new(alloc);
        distinct(clause, &mut stored)?;
        if stored.len() < 2 {
            return self.derive_short(clause, hints, &stored);
        }
        self.derive_long(clause, hints, &stored)
    }

    fn derive_short(
        &mut self,
        clause: &[Literal],
        hints: &[Hint],
        stored: &[Literal],
    ) -> Result<u64, AllocError>
        requires step { IsHintedStep self.old.log.inputs self.old.log.lines greatest_u32 clause.now
            hints.now }
        requires known { All (IsKnown self.old.letters) clause.now }
        requires same { HaveSame clause.now stored.now }
        requires short { length stored.now < 2 }
        ensures added { IfOk result (λ number. (self.new
            ≡ with_log self.old (with_line self.old.log clause.now hints.now))
            × (number ≡ length self.new.log.lines)) }
        ensures refused { OnErr result (self.new ≡ self.old) }
    {
        let number = self.log.derive(clause, hints)?;
        match self.units.push(Hint::Line(number)) {
            Ok(()) => {
                return Ok(number);
            }
            Err(_) => {
                self.log.take_back_line();
                return Err(AllocError);
            }
        }
    }

    fn derive_long(
        &mut self,
        clause: &[Literal],
        hints: &[Hint],
        stored: &[Literal],
    ) -> Result<u64, AllocError>
        requires step { IsHintedStep self.old.log.inputs self.old.log.lines greatest_u32 clause.now
            hints.now }
        requires known { All (IsKnown self.old.letters) clause.now }
        requires same { HaveSame clause.now stored.now }
        requires long { 2 ≤ length stored.now }
        requires apart { AreApart stored.now }
        ensures added { IfOk result (λ number. (self.new
            ≡ with_log self.old (with_line self.old.log clause.now hints.now))
            × (number ≡ length self.new.log.lines)) }
        ensures refused { OnErr result (self.new ≡ self.old) }
    {
        let number = self.log.derive(clause, hints)?;
        match store(stored, Hint::Line(number), &mut self.watches) {
            Ok(()) => {
                rewind(
                    &self.assigned,
                    stored,
                    &mut self.propagated,
                    &mut self.lasting,
                );
                return Ok(number);
            }
            Err(_) => {
                self.log.take_back_line();
                return Err(AllocError);
            }
        }
    }

    /// Makes the letters up to the count known.
    pub fn letters(&mut self, count: u32) -> Result<(), AllocError>
        requires { self.old.letters ≤ count }
        ensures known { OnOk result (self.new ≡ with_letters self.old count) }
        ensures refused { OnErr result (self.new ≡ self.old) }
    {
        widen(
            &mut self.assigned,
            &mut self.watches,
            &mut self.marks,
            &mut self.choices,
            count,
        )?;
        self.letters = count as usize;
        Ok(())
    }

    /// The log.
    pub fn log(&self) -> &Log
        ensures { result.now ≡ self.now.log }
    {
        self.log.log()
    }

    /// The log, and nothing else of the state.
    pub fn into_log(self) -> Log
        ensures { result ≡ self.log }
    {
        self.log.into_log()
    }

    /// Decides the literal on a level of its own.
    pub fn decide(&mut self, literal: Literal) -> Result<(), AllocError>
        requires unset { IsUnset (literals_of self.old.trail) literal }
        requires known { IsKnown self.old.letters literal }
        ensures decided { OnOk result (IsDecided self.old self.new literal) }
        ensures refused { OnErr result (self.new ≡ self.old) }
    {
        self.assigned.invariant();
        let level = self.assigned.len() + 1;
        self.assigned.assign(TrailEntry {
            literal,
            level,
            reason: None,
        })
    }
}

/// The letter of a literal that is true has the value that makes it so, if it is below the length.
fn set_true(model: &mut Vec<bool>, literal: Literal)
    ensures size { length model.new.items ≡ length model.old.items }
    ensures told { (x : ℕ) → x < length model.old.items → (slice_index_or model.new.items x false ≡ true)
        ↔ ((slice_index_or model.old.items x false ≡ true) ⊎ (literal ≡ positive x)) }
{
    let letter = literal.letter.0 as usize;
    if !literal.negated && letter < model.len() {
        model[letter] = true;
    }
}
