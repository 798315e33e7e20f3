// The clauses of the list, stored. Who asks for many clauses many times finds each by two reads then, in
// place of working it out.
ghost use Rattle.std.specs.Prelude.{◌≡◌, IfOk};
ghost use Rattle.enc_layout.specs.Clauses.{clause_list};

use crate::Indexed;
use crate::appending::push;
use cnf_base::{ClauseList, Clauses};
use std::alloc::{AllocError, Global};

/// All clauses, in their order.
pub fn stored(alloc: Global, indexed: &Indexed<'_>) -> Result<ClauseList, AllocError>
    ensures { IfOk result (λ list. list
        ≡ clause_list indexed.now.formula indexed.now.kind indexed.now.depth) }
{
    let mut list = ClauseList::new(alloc);
    'clauses: for index in 0..indexed.count() {
        push(&indexed.clause(index + 1), &mut list)?;
    }
    Ok(list)
}
