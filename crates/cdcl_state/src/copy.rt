// The watched clauses that are kept come over as they are: each is copied as one block, with its literals in
// the order in which it is watched. A search that went on for long has moved the watches to literals that
// serve, and the log's order would throw that away.
ghost use Rattle.std.specs.Prelude.{◌≡◌, suc, [], length, All, Contains, OnOk};
ghost use Rattle.cdcl_watches.specs.Heads.{number_of};
ghost use Rattle.cdcl_state.specs.Gathered.{MayCome, IsCopied};

use crate::kept::stays;
use cdcl_watches::{Arena, Watches};
use std::alloc::AllocError;

/// Puts the clause of the head among the watched ones, if it is kept.
fn copy_clause(
    old: &Arena,
    head: u32,
    kept: &[bool],
    watches: &mut Watches,
) -> Result<(), AllocError>
    requires head { Contains old.now.heads head }
    requires come { All (MayCome (length watches.old.lists)) old.now.clauses }
    requires begun { IsCopied old.now.clauses old.now.names (number_of old.now.heads head) watches.old }
    ensures lists { OnOk result (length watches.new.lists ≡ length watches.old.lists) }
    ensures copied { OnOk result (IsCopied old.now.clauses old.now.names
        (suc (number_of old.now.heads head)) watches.new) }
{
    old.invariant();
    let name = old.name(head);
    if !stays(kept, name) {
        return Ok(());
    }
    watches.add_from(old, head)?;
    Ok(())
}

/// Puts the clauses that are kept among the watched ones, which are none yet.
pub fn copy(old: &Arena, kept: &[bool], watches: &mut Watches) -> Result<(), AllocError>
    requires come { All (MayCome (length watches.old.lists)) old.now.clauses }
    requires clauses { watches.old.clauses ≡ [] }
    requires names { watches.old.names ≡ [] }
    ensures lists { OnOk result (length watches.new.lists ≡ length watches.old.lists) }
    ensures copied { OnOk result (IsCopied old.now.clauses old.now.names (length old.now.clauses)
        watches.new) }
{
    old.invariant();
    let mut next = old.first();
    'heads: while let Some(head) = next {
        copy_clause(old, head, kept, watches)?;
        next = old.after(head);
    }
    Ok(())
}
