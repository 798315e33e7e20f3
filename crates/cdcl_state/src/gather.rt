// Which clauses of a log are watched changes in two ways. What is to stay is gathered anew: of the clauses
// that are watched now, those that are kept come over as they are watched, each copied as one block. And the
// lines that are missing come from the log, behind those that are watched, which stay where they stand.
// Clauses of one literal or none are left out, since nobody watches them.
ghost use Rattle.std.specs.Prelude.{◌≡◌, ℕ, ◌⊎◌, ◌<◌, ◌≤◌, List, true, false, length, map, All, IfOk, OnErr};
ghost use Rattle.std.specs.Prelude.{OnOk, slice_index_or};
ghost use Rattle.cnf_base.specs.declared.literal.Hint.TheVariants.{Line};
ghost use Rattle.cdcl_trail.specs.Entries.{hint_of};
ghost use Rattle.cdcl_watches.specs.Watching.{code, AreApart};
ghost use Rattle.cdcl_propagate.specs.Visit.{IsStored, names_of};
ghost use Rattle.cdcl_state.specs.State.{AreLong};
ghost use Rattle.cdcl_state.specs.Gathered.{HasRoom, IsPut, IsCopied, AreThere, IsMet, IsCarried, IsGathered};

use crate::copy::copy;
use crate::kept::is_marked;
use crate::repeats::repeats;
use crate::store::{distinct, store};
use cdcl_analyze::Marks;
use cdcl_trail::decode_hint;
use cdcl_watches::{Arena, Watches};
use clause_log::LogView;
use cnf_base::{Hint, Literal};
use std::alloc::{AllocError, Global};

/// Puts a clause whose literals stand there once among the watched ones, if it has two.
fn put_apart(clause: &[Literal], hint: Hint, watches: &mut Watches) -> Result<(), AllocError>
    requires apart { AreApart clause.now }
    requires fits { All (λ l. code l < length watches.old.lists) clause.now }
    ensures added { OnOk result (IsPut watches.old watches.new clause.now hint) }
    ensures refused { OnErr result (watches.new ≡ watches.old) }
{
    if clause.len() < 2 {
        return Ok(());
    }
    store(clause, hint, watches)
}

/// Puts the clause among the watched ones, each of its literals once, if it has two.
fn put(
    alloc: Global,
    marks: &mut Marks,
    clause: &[Literal],
    hint: Hint,
    watches: &mut Watches,
) -> Result<(), AllocError>
    requires { All (HasRoom (length marks.old.stamps) (length watches.old.lists)) clause.now }
    ensures size { length marks.new.stamps ≡ length marks.old.stamps }
    ensures added { OnOk result (IsPut watches.old watches.new clause.now hint) }
    ensures refused { OnErr result (watches.new ≡ watches.old) }
{
    if !repeats(marks, clause) {
        return put_apart(clause, hint, watches);
    }
    let mut apart: Vec<Literal> = Vec::new(alloc);
    distinct(clause, &mut apart)?;
    put_apart(&apart, hint, watches)
}

/// Marks for lines that are numbered from 1 to the count, and none of them set.
fn unmarked(alloc: Global, count: u64) -> Result<Vec<bool>, AllocError>
    ensures { IfOk result (λ there. All (λ mark. mark ≡ false) there.items) }
{
    let mut there: Vec<bool> = Vec::new(alloc);
    there.push(false)?;
    for _ in 0..count {
        there.push(false)?;
    }
    Ok(there)
}

/// Marks the line of this name as one that is there. An input has no mark.
fn mark(name: u32, there: &mut Vec<bool>)
    ensures { (n : ℕ) → slice_index_or there.new.items n false ≡ true
        → (slice_index_or there.old.items n false ≡ true) ⊎ (hint_of name ≡ Line n) }
{
    match decode_hint(name) {
        Hint::Clause(_) => {}
        Hint::Line(line) => {
            if (line as usize) < there.len() {
                there[line as usize] = true;
            }
        }
    }
}

/// Marks the lines that are watched.
fn mark_watched(arena: &Arena, there: &mut Vec<bool>)
    requires { All (λ mark. mark ≡ false) there.old.items }
    ensures { AreThere (map hint_of arena.now.names) there.new.items }
{
    arena.invariant();
    let mut next = arena.first();
    'heads: while let Some(head) = next {
        let name = arena.name(head);
        mark(name, there);
        next = arena.after(head);
    }
}

/// Puts the lines that are not marked among the watched ones.
fn put_missing(
    alloc: Global,
    log: &LogView<'_>,
    there: &Vec<bool>,
    marks: &mut Marks,
    watches: &mut Watches,
) -> Result<(), AllocError>
    requires { All (All (HasRoom (length marks.old.stamps) (length watches.old.lists))) log.now.lines }
    ensures size { length marks.new.stamps ≡ length marks.old.stamps }
    ensures lists { length watches.new.lists ≡ length watches.old.lists }
    ensures kept { (names : List Hint)
        → IsGathered (IsMet names there.now.items 0) log.now watches.old
        → IsGathered (IsMet names there.now.items 0) log.now watches.new }
    ensures gathered { OnOk result ((names : List Hint)
        → IsGathered (IsMet names there.now.items 0) log.now watches.old
        → IsGathered (IsMet names there.now.items (length log.now.lines)) log.now watches.new) }
{
    for index in 0..log.lines() {
        let line = index + 1;
        if !is_marked(there, line) {
            put(alloc, marks, log.literals(line), Hint::Line(line), watches)?;
        }
    }
    Ok(())
}

/// Puts the lines that are not watched behind the watched clauses. For want of memory some may come and some
/// not.
pub fn complete(
    alloc: Global,
    log: &LogView<'_>,
    marks: &mut Marks,
    watches: &mut Watches,
) -> Result<(), AllocError>
    requires stored { IsStored log.now.inputs log.now.lines watches.old.clauses (names_of watches.old) }
    requires long { AreLong log.now.inputs log.now.lines (names_of watches.old) }
    requires lines { All (All (HasRoom (length marks.old.stamps) (length watches.old.lists))) log.now.lines }
    ensures size { length marks.new.stamps ≡ length marks.old.stamps }
    ensures lists { length watches.new.lists ≡ length watches.old.lists }
    ensures kept { IsGathered (IsCarried false (names_of watches.old)) log.now watches.new }
    ensures all_lines { OnOk result (IsGathered (IsCarried true (names_of watches.old)) log.now watches.new) }
{
    let mut there = unmarked(alloc, log.lines())?;
    mark_watched(&watches.arena, &mut there);
    put_missing(alloc, log, &there, marks, watches)
}

/// The clauses that are watched now and are kept: the inputs, and the lines whose numbers are marked.
pub fn gather(alloc: Global, old: &Watches, kept: &[bool]) -> Result<Watches, AllocError>
    requires { All (λ clause. 2 ≤ length clause) old.now.clauses }
    ensures lists { IfOk result (λ watches. length watches.lists ≡ length old.now.lists) }
    ensures copied { IfOk result (IsCopied old.now.clauses old.now.names (length old.now.clauses)) }
{
    old.invariant();
    let mut watches = old.emptied(alloc)?;
    copy(&old.arena, kept, &mut watches)?;
    Ok(watches)
}
