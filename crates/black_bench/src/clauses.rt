// The clause list of a formula through a depth, counted or printed.
ghost use Rattle.std.specs.Prelude.{◌≤◌};
ghost use Rattle.enc_layout.specs.Letters.{Fits};
ghost use Rattle.enc_layout.specs.Clauses.{layout_of};

use crate::status;
use cnf_base::{ClauseList, Clauses, Literal};
use enc_layout::{Layout, Part};
use ltl_closure::Closure;
use std::alloc::{AllocError, Global};
use unravel::limit_in_force;

/// The clauses through a depth.
#[tactic(auto, using(enc_layout::proofs::Fitting::lower_fits))]
pub(crate) fn clause_list(
    alloc: Global,
    closure: &Closure<'_>,
    depth: u32,
) -> Result<ClauseList, AllocError>
    requires few { depth ≤ 1000 }
    requires fits { Fits (layout_of closure.now) depth }
{
    let mut list = ClauseList::new(alloc);
    for step in 0..depth + 1 {
        encode::append(closure, step, &mut list)?;
    }
    Ok(list)
}

/// Prints how many clauses there are through the depth, or through the greatest one whose letters are few
/// enough.
pub(crate) fn count_clauses(
    rt: &HostRuntime,
    alloc: Global,
    closure: &Closure<'_>,
    depth: u32,
) -> u8
    requires { depth ≤ 1000 }
{
    let depth = limit_in_force(closure, depth);
    let Ok(list) = clause_list(alloc, closure, depth) else {
        return 7;
    };
    status(println!(rt; "{}", list.count()).is_ok())
}

/// Prints a line of the number of letters, that of clauses, and the last state's letters for 'here' and
/// 'accepted', and then the clauses, one a line.
pub(crate) fn print_clauses(
    rt: &HostRuntime,
    alloc: Global,
    closure: &Closure<'_>,
    depth: u32,
) -> u8
    requires { depth ≤ 1000 }
{
    let layout = Layout::of(closure);
    let depth = layout.greatest_depth(depth);
    let Ok(list) = clause_list(alloc, closure, depth) else {
        return 7;
    };
    let letters = layout.letters_through(depth);
    let here = layout.positive(depth, Part::Here).letter.0;
    let accepted = layout.positive(depth, Part::Accepted).letter.0;
    let Ok(()) = println!(rt; "{} {} {} {}", letters, list.count(), here, accepted) else {
        return 6;
    };
    status(print_all(rt, &list))
}

fn print_all(rt: &HostRuntime, list: &ClauseList) -> bool {
    for index in 0..list.count() {
        if !print_clause(rt, list.clause(index + 1)) {
            return false;
        }
    }
    true
}

fn print_clause(rt: &HostRuntime, clause: &[Literal]) -> bool {
    for literal in clause {
        if !print_literal(rt, *literal) {
            return false;
        }
    }
    println!(rt; "0").is_ok()
}

fn print_literal(rt: &HostRuntime, literal: Literal) -> bool {
    if literal.negated {
        return print!(rt; "-{} ", literal.letter.0).is_ok();
    }
    print!(rt; "{} ", literal.letter.0).is_ok()
}
