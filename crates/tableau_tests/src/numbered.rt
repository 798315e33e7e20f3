// Whole lists, each clause by its number.
use crate::formulas::{closure_of, formula};
use crate::lists::{LISTS, List};
use clause_index::Indexed;
use cnf_base::Clauses;
use enc_layout::Layout;
use std::alloc::Global;
use std::process::Abort;

/// Whether the clause has these letters, a negated one with a minus sign, by the list and by the clause
/// itself.
fn is_row(rt: &impl Abort, indexed: &Indexed<'_>, number: u64, row: &[i64]) -> bool {
    assert!(rt; 1 <= number && number <= indexed.count());
    let clause = indexed.clause(number);
    let len = indexed.len(number);
    if len != clause.len() || len as usize != row.len() {
        return false;
    }
    for (place, wanted) in row.iter().enumerate() {
        assert!(rt; place < len as usize);
        let literal = indexed.literal(number, place as u32);
        let letter = literal.letter.0 as i64;
        let signed = if literal.negated { -letter } else { letter };
        if signed != *wanted || clause.literal(place as u32) != literal {
            return false;
        }
    }
    true
}

/// Whether these are the clauses through the depth for the formula.
fn check(rt: &impl Abort, alloc: Global, list: &List) {
    let (table, root) = formula(rt, alloc, list.0);
    let closure = closure_of(rt, alloc, &table, root, list.1);
    assert!(rt; list.2 <= 1000);
    assert!(rt; Layout::of(&closure).fits(list.2));
    let indexed = Indexed::of(&closure, list.2);
    assert!(rt; indexed.count() == list.3.len() as u64);
    for (k, row) in list.3.iter().enumerate() {
        assert!(rt; is_row(rt, &indexed, k as u64 + 1, row));
    }
}

#[test]
fn lists_by_numbers(rt: HostRuntime) {
    for list in LISTS {
        check(&rt, rt.alloc(), list);
    }
}
