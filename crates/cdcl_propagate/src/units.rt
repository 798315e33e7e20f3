// Clauses of one literal or none have nobody to watch them: they are visited in order, each once,
// as long as the entries that make them true stay on the trail.
ghost use Rattle.std.specs.Prelude.{◌≡◌, ◌-◌, List, ◌<◌, ◌⊎◌, length, Some, MatchOption, IfOk};
ghost use Rattle.cnf_base.specs.Step.{named};
ghost use Rattle.cnf_base.specs.declared.literal.Literal.{Literal};
ghost use Rattle.cdcl_trail.specs.Trail.{place_level, IsTrail, IsConflict, literals_of};
ghost use Rattle.cdcl_propagate.specs.Visit.{HasTrue, IsGrown};
ghost use Rattle.cdcl_propagate.specs.Units.{AreShort, AreFirm, IsOne};
ghost use Rattle.cdcl_trail.specs.Values.{AreBelow};

use cdcl_trail::{Assigned, TrailEntry, clause_of};
use clause_log::Log;
use cnf_base::Hint;
use std::alloc::AllocError;

/// Makes the short clauses from the place `units_done` on true.
pub fn visit_units(
    assigned: &mut Assigned,
    log: &Log,
    units: &[Hint],
    units_done: usize,
) -> Result<Option<Hint>, AllocError>
    requires is_trail { IsTrail log.now.inputs log.now.lines assigned.old.trail }
    requires known_inputs { AreBelow (length assigned.old.values) log.now.inputs }
    requires known_lines { AreBelow (length assigned.old.values) log.now.lines }
    requires short { AreShort log.now.inputs log.now.lines units.now }
    requires firm { AreFirm log.now.inputs log.now.lines units.now units_done
        (literals_of assigned.old.trail) }
    ensures grown { IsGrown assigned.old.trail assigned.new.trail }
    ensures letters { length assigned.new.values ≡ length assigned.old.values }
    ensures is_trail { IsTrail log.now.inputs log.now.lines assigned.new.trail }
    ensures found { IfOk result (λ found. MatchOption found
        (AreFirm log.now.inputs log.now.lines units.now (length units.now) (literals_of assigned.new.trail))
        (IsConflict log.now.inputs log.now.lines (literals_of assigned.new.trail))) }
{
    'up: for index in units_done..units.len() {
        match visit_unit(assigned, log, units[index])? {
            Some(hint) => return Ok(Some(hint)),
            None => {}
        }
    }
    Ok(None)
}

/// The level of the last entry; 0 before the first.
fn last_level(assigned: &Assigned) -> usize
    ensures { ((length assigned.now.trail ≡ 0) × (result ≡ 0))
        ⊎ ((0 < length assigned.now.trail) × (result ≡ place_level assigned.now.trail
        (length assigned.now.trail - 1))) }
{
    if assigned.len() == 0 {
        return 0;
    }
    assigned.level()
}

/// Makes a short clause true, if it is not false.
fn visit_unit(assigned: &mut Assigned, log: &Log, hint: Hint) -> Result<Option<Hint>, AllocError>
    requires is_trail { IsTrail log.now.inputs log.now.lines assigned.old.trail }
    requires known_inputs { AreBelow (length assigned.old.values) log.now.inputs }
    requires known_lines { AreBelow (length assigned.old.values) log.now.lines }
    requires short { (clause : List Literal) × (named log.now.inputs log.now.lines hint ≡ Some clause)
        × IsOne clause }
    ensures grown { IsGrown assigned.old.trail assigned.new.trail }
    ensures letters { length assigned.new.values ≡ length assigned.old.values }
    ensures is_trail { IsTrail log.now.inputs log.now.lines assigned.new.trail }
    ensures found { IfOk result (λ found. MatchOption found
        ((clause : List Literal) → named log.now.inputs log.now.lines hint ≡ Some clause
        → HasTrue (literals_of assigned.new.trail) clause)
        (IsConflict log.now.inputs log.now.lines (literals_of assigned.new.trail))) }
{
    assigned.invariant();
    let view = log.view();
    let clause = clause_of(&view, hint);
    if clause.len() == 0 {
        return Ok(Some(hint));
    }
    let literal = clause[0];
    if assigned.holds(literal) {
        return Ok(None);
    }
    if assigned.holds(literal.opposite()) {
        return Ok(Some(hint));
    }
    let level = last_level(assigned);
    assigned.assign(TrailEntry {
        literal,
        level,
        reason: Some(hint),
    })?;
    Ok(None)
}
