// A watcher of a literal: where a clause stands that watches it, and some literal of that clause, the
// blocker. Where the blocker is true the clause need not be looked at, which saves most reads of clauses.
// After Sorensson and Een, MiniSat 2.1 (2008).
ghost use Rattle.std.specs.Prelude.{◌≡◌, ◌<◌, ◌^◌};
ghost use Rattle.cdcl_watches.specs.Watching.{code};
ghost use Rattle.cdcl_watches.specs.Watchers.{blocker_of};

use crate::coded::{Code, encode};
use cnf_base::Literal;

/// The head of a clause that watches a literal, and some literal of that clause.
#[derive(Clone, Copy, Drop)]
pub struct Watcher {
    pub head: u32,
    pub blocker: Code,
}

/// The clause of this head with this literal of it.
pub fn watch(head: u32, blocker: Literal) -> Watcher
    requires { code blocker < 2 ^ 32 }
    ensures head { result.head ≡ head }
    ensures blocker { blocker_of result ≡ blocker }
{
    Watcher {
        head,
        blocker: encode(blocker),
    }
}
