// Whole lists, appended step by step.
use crate::formulas::{closure_of, formula};
use crate::lists::{LISTS, List};
use cnf_base::{ClauseList, Clauses};
use enc_layout::Layout;
use encode::append;
use ltl_closure::Closure;
use std::alloc::Global;
use std::process::Abort;

/// The clauses of steps 0 to `last`.
fn list_through(rt: &impl Abort, alloc: Global, closure: &Closure<'_>, last: u32) -> ClauseList {
    let layout = Layout::of(closure);
    let mut list = ClauseList::new(alloc);
    assert!(rt; last < 1000);
    for step in 0..last + 1 {
        assert!(rt; step <= 1000);
        assert!(rt; layout.fits(step));
        append(closure, step, &mut list).expect(rt, "memory");
    }
    list
}

/// Whether the clause has these letters, a negated one with a minus sign.
fn is_row(rt: &impl Abort, list: &ClauseList, number: u64, row: &[i64]) -> bool {
    assert!(rt; 1 <= number && number <= list.count());
    let clause = list.clause(number);
    if clause.len() != row.len() {
        return false;
    }
    for (literal, wanted) in clause.iter().zip(row.iter()) {
        let letter = literal.letter.0 as i64;
        let signed = if literal.negated { -letter } else { letter };
        if signed != *wanted {
            return false;
        }
    }
    true
}

fn are_rows(rt: &impl Abort, list: &ClauseList, rows: &[&[i64]]) -> bool {
    if list.count() != rows.len() as u64 {
        return false;
    }
    for (k, row) in rows.iter().enumerate() {
        if !is_row(rt, list, k as u64 + 1, row) {
            return false;
        }
    }
    true
}

/// Whether the steps up to the last one append these clauses for the formula.
fn check(rt: &impl Abort, alloc: Global, list: &List) {
    let (table, root) = formula(rt, alloc, list.0);
    let closure = closure_of(rt, alloc, &table, root, list.1);
    let clauses = list_through(rt, alloc, &closure, list.2);
    assert!(rt; are_rows(rt, &clauses, list.3));
}

#[test]
fn lists_by_steps(rt: HostRuntime) {
    for list in LISTS {
        check(&rt, rt.alloc(), list);
    }
}
