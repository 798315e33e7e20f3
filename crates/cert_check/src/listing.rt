// The clauses of a formula as a check asks for them. Where the text is long beside them, most are asked for
// many times, and are worked out once for all; elsewhere each is worked out when it is asked for.
ghost use Rattle.std.specs.Prelude.{◌≡◌, IfSome};
ghost use Rattle.enc_layout.specs.Clauses.{clause_list};

use clause_index::{Indexed, stored};
use cnf_base::Clauses;
use log_checker::StoredClauses;
use std::alloc::Global;

/// The most clauses that are stored.
const MOST: u64 = 1_048_576;

/// The number of bytes of text that pay for a clause: some three hints.
const PAYS: u64 = 16;

/// The clauses, stored, where a text of this number of bytes pays for that and there is memory.
pub fn stored_for(alloc: Global, clauses: &Indexed<'_>, bytes: usize) -> Option<StoredClauses>
    ensures { IfSome result (λ list. list
        ≡ clause_list clauses.now.formula clauses.now.kind clauses.now.depth) }
{
    let count = clauses.count();
    if count > MOST || count > bytes as u64 / PAYS {
        return None;
    }
    let list = stored(alloc, clauses).ok()?;
    StoredClauses::of(alloc, list).ok()
}
