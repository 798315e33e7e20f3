// Clauses of the list, put behind others: each is found by its number and spelled out. Where memory runs out,
// the list is cut back to what it was.
ghost use Rattle.std.specs.Prelude.{◌≡◌, ◌≤◌, [], ◌∷◌, ◌++◌, take, length, OnOk, OnErr};
ghost use Rattle.enc_layout.specs.Clauses.{signed_clauses};
ghost use Rattle.enc_layout.specs.Numbered.{Extends};
ghost use Rattle.clause_index.specs.Literals.{literals};
ghost use Rattle.clause_index.specs.Sections.{section_clauses};

use crate::found::Found;
use crate::indexed::Indexed;
use crate::place::StepSection;
use cnf_base::{ClauseList, Clauses};
use std::alloc::AllocError;

/// Puts the clause behind those of the list.
pub fn push(clause: &Found, list: &mut ClauseList) -> Result<(), AllocError>
    ensures ok { OnOk result (list.new ≡ list.old ++ literals clause.now ∷ []) }
    ensures err { OnErr result (Extends list.old list.new) }
{
    list.push(&[])?;
    'places: for place in 0..clause.len() {
        list.lengthen(clause.literal(place))?;
    }
    Ok(())
}

/// Puts the clauses of the section behind those of the list, of which some may stay after want of memory.
fn push_section(
    indexed: &Indexed<'_>,
    step: u32,
    section: StepSection,
    list: &mut ClauseList,
) -> Result<(), AllocError>
    requires { step ≤ indexed.now.depth }
    ensures ok { OnOk result (list.new ≡ list.old ++ signed_clauses indexed.now.formula indexed.now.kind
        (section_clauses indexed.now.formula indexed.now.kind step section)) }
    ensures err { OnErr result (Extends list.old list.new) }
{
    let numbers = indexed.numbers(step, section);
    'clauses: for index in 0..numbers.count {
        push(&indexed.clause(numbers.first + index), list)?;
    }
    Ok(())
}

impl<'c> Indexed<'c> {
    /// Puts the clauses of the section of the step behind those of the list. Where memory runs out, the list
    /// is as before.
    pub fn append(
        &self,
        step: u32,
        section: StepSection,
        list: &mut ClauseList,
    ) -> Result<(), AllocError>
        requires { step ≤ self.now.depth }
        ensures ok { OnOk result (list.new ≡ list.old ++ signed_clauses self.now.formula self.now.kind
            (section_clauses self.now.formula self.now.kind step section)) }
        ensures err { OnErr result (list.new ≡ list.old) }
    {
        let count = list.count();
        match push_section(self, step, section, list) {
            Ok(()) => Ok(()),
            Err(_) => {
                list.truncate(count);
                Err(AllocError)
            }
        }
    }
}
