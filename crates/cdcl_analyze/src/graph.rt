// The implication graph. Its nodes are the literals of the trail; one that was forced has an edge from each
// other literal of the clause that forced it, for these are false by what stands on the trail before it. An
// analysis goes from a conflict back along the edges. After Marques-Silva and Sakallah, GRASP (1999).
ghost use Rattle.std.specs.Prelude.{◌≡◌, ◌<◌, List, length, All, IsSome, Some, ℕ, slice_index_or};
ghost use Rattle.cnf_base.specs.declared.literal.Literal.{Literal};
ghost use Rattle.cnf_base.specs.Step.{named};
ghost use Rattle.cdcl_trail.specs.Trail.{literal_at, place_level};
ghost use Rattle.cdcl_trail.specs.Values.{IsBelow};
ghost use Rattle.cdcl_propagate.specs.Visit.{HaveSame};
ghost use Rattle.cdcl_analyze.specs.Graph.{IsGraph};
ghost use Rattle.cdcl_analyze.specs.Reason.{IsAnalyzable, read_literals};

use crate::reason::Reason;
use cdcl_trail::{Assigned, TrailEntry, clause_of, encode_hint};
use cdcl_watches::Arena;
use clause_log::{Log, LogView};
use cnf_base::Hint;
use std::marker::Model;

/// What an analysis reads: the trail, and the clauses of the log that the trail's reasons name. Many of these
/// stand in the buffer of watched clauses once more, and are read there first.
#[derive(Drop)]
pub struct ImplicationGraph<'a> {
    assigned: &'a Assigned,
    arena: &'a Arena,
    view: LogView<'a>,
}

impl<'a> Model for ImplicationGraph<'a> {
    ghost use Rattle.std.specs.Prelude.{map};
    ghost use Rattle.cdcl_trail.specs.Entries.{hint_of};
    ghost use Rattle.cdcl_propagate.specs.Visit.{IsStored};
    ghost use Rattle.cdcl_analyze.specs.Graph.{GraphValue, IsGraph};

    ghost Value = { GraphValue };

    ghost view = { λ g. record {
      log = g.view;
      values = g.assigned.now.values;
      trail = g.assigned.now.trail;
    } };

    ghost invariant = { λ g. IsGraph (record {
      log = g.view;
      values = g.assigned.now.values;
      trail = g.assigned.now.trail;
    }) × IsStored g.view.inputs g.view.lines g.arena.now.clauses (map hint_of g.arena.now.names) };
}

impl<'a> ImplicationGraph<'a> {
    /// The graph of a trail over a log.
    #[inline(always)]
    pub fn of(assigned: &'a Assigned, arena: &'a Arena, log: &'a Log) -> ImplicationGraph<'a>
        requires { IsAnalyzable log.now assigned.now arena.now }
        ensures log { result.log ≡ log.now }
        ensures values { result.values ≡ assigned.now.values }
        ensures trail { result.trail ≡ assigned.now.trail }
    {
        assigned.invariant();
        ImplicationGraph {
            assigned,
            arena,
            view: log.view(),
        }
    }

    /// The trail's reasons are clauses of the log, and its values are told.
    #[inline(always)]
    pub(crate) fn invariant(&self)
        ensures { IsGraph self.now }
    {
        let _ = &self.assigned;
    }

    /// The number of entries of the trail.
    #[inline(always)]
    pub(crate) fn len(&self) -> usize
        ensures { result ≡ length self.now.trail }
    {
        self.assigned.len()
    }

    /// The entry of the trail at a place.
    #[inline(always)]
    pub(crate) fn entry(&self, place: usize) -> TrailEntry
        requires { place < length self.now.trail }
        ensures { result ≡ slice_index_or self.now.trail place result }
    {
        self.assigned.entry(place)
    }

    /// The place of the trail at which the letter stands, if it stands there.
    #[inline(always)]
    pub(crate) fn place_of(&self, letter: usize) -> usize
        requires { letter < length self.now.values }
        ensures { (k : ℕ) → k < length self.now.trail → (literal_at self.now.trail k).letter.0 ≡ letter
            → result ≡ k }
    {
        self.assigned.place_of(letter)
    }

    /// The level of the entry at a place; 0 where there is none.
    #[inline(always)]
    pub(crate) fn level_at(&self, place: usize) -> usize
        ensures { result ≡ place_level self.now.trail place }
    {
        self.assigned.level_at(place)
    }

    /// The clause that the hint names, as the log has it.
    #[inline(always)]
    pub(crate) fn clause(&self, hint: Hint) -> Reason<'a>
        requires { IsSome (named self.now.log.inputs self.now.log.lines hint) }
        ensures is { named self.now.log.inputs self.now.log.lines hint ≡ Some (read_literals result) }
        ensures known { All (IsBelow (length self.now.values)) (read_literals result) }
    {
        Reason::Logged(clause_of(&self.view, hint))
    }

    /// The clause that the hint names, by which the letter was forced if the buffer notes it so.
    #[inline(always)]
    pub(crate) fn reason(&self, letter: u32, hint: Hint) -> Reason<'a>
        requires { IsSome (named self.now.log.inputs self.now.log.lines hint) }
        ensures same { (clause : List Literal) → named self.now.log.inputs self.now.log.lines hint
            ≡ Some clause → HaveSame clause (read_literals result) }
        ensures known { All (IsBelow (length self.now.values)) (read_literals result) }
    {
        if let Some(name) = encode_hint(hint) {
            if let Some(clause) = self.arena.reason(letter, name) {
                return Reason::Watched(clause);
            }
        }
        self.clause(hint)
    }
}
