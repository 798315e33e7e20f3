// Lists of clauses and of hints, by what was pushed.
use crate::literals::{minus, plus};
use cnf_base::{ClauseList, Clauses, Hint, Literal, Rows, laws};
use std::test::Fail;

/// The number, the length and the last literal of the last clause, unless this is empty.
fn last<C: Clauses>(clauses: &C) -> Option<(u64, u32, Literal)> {
    let count = clauses.count();
    if count == 0 {
        return None;
    }
    let len = clauses.len(count);
    if len == 0 {
        return None;
    }
    Some((count, len, clauses.literal(count, len - 1)))
}

#[test]
fn keeps_clauses(rt: HostRuntime) -> Result<(), Fail> {
    let mut list = ClauseList::new(rt.alloc());
    assert_eq!(rt; last(&list), None);
    list.push(&[minus(6)])?;
    list.push(&[minus(2), plus(6)])?;
    list.push(&[])?;
    assert_eq!(rt; list.count(), 3);
    assert_eq!(rt; last(&list), None);
    list.truncate(7);
    assert_eq!(rt; list.count(), 3);
    list.truncate(2);
    assert_eq!(rt; last(&list), Some((2, 2, plus(6))));
    list.push(&[minus(3), plus(4), minus(3)])?;
    list.lengthen(plus(5))?;
    assert_eq!(rt;
        list.clause(3),
        [minus(3), plus(4), minus(3), plus(5)].as_slice()
    );
    list.truncate(1);
    assert_eq!(rt; last(&list), Some((1, 1, minus(6))));
    Ok(())
}

#[test]
fn lends_rows(rt: HostRuntime) -> Result<(), Fail> {
    let mut rows = Rows::new(rt.alloc());
    rows.push(&[Hint::Clause(2), Hint::Line(1), Hint::Clause(5)])?;
    rows.push(&[])?;
    rows.push(&[Hint::Line(7)])?;
    assert_eq!(rt; rows.len(), 3);
    assert_eq!(rt; rows.row(0).len(), 3);
    assert_eq!(rt;
        rows.row(0),
        [Hint::Clause(2), Hint::Line(1), Hint::Clause(5)].as_slice()
    );
    assert_eq!(rt; rows.row(1).len(), 0);
    assert_eq!(rt; rows.row(2), [Hint::Line(7)].as_slice());
    rows.lengthen(Hint::Clause(4))?;
    assert_eq!(rt; rows.row(2), [Hint::Line(7), Hint::Clause(4)].as_slice());
    rows.truncate(1);
    assert_eq!(rt; rows.len(), 1);
    Ok(())
}

#[test]
fn states_laws() {
    laws::hinted_steps_follow();
    laws::worked_steps();
}
