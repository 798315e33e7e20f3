// Which line is the first bad one, by one worker and by several.
ghost use Rattle.std.specs.Prelude.{◌≡◌, ◌≤◌, IfOk};
ghost use Rattle.cnf_base.specs.Known.{AreKnown};
ghost use Rattle.cert_text.specs.Text.{Certificate, IsTextOf};

use cert_text::{CertItem, CertView, Items, form};
use cnf_base::{ClauseList, Letter, Literal};
use log_checker::{Lines, LiveChecker, Scratch, check_lines, laws};
use ltl_io::NoGate;
use std::alloc::{AllocError, Global};
use std::test::Fail;
use std::thread::Threads;

// Two lines that refute `false`: the second is the first again, which is deleted then.
const TWO_LINES: &[u8] = b"ltlcert 2 infinite 0\n-2 0 2 1 0\n-2 0 -1 0\nd 1\nclose 2 2\n";

fn literal(letter: u32, negated: bool) -> Literal
    ensures { result ≡ record { letter = record { 0 = letter }; negated = negated } }
{
    Literal {
        letter: Letter(letter),
        negated,
    }
}

/// The clauses that refute the formula `false`: (-6), (-2 6) and (-3 4).
fn clauses_of_false(alloc: Global) -> Result<ClauseList, AllocError>
    ensures { IfOk result (λ list. AreKnown 6 list) }
{
    let mut list = ClauseList::new(alloc);
    list.push(&[literal(6, true)])?;
    list.push(&[literal(2, true), literal(6, false)])?;
    list.push(&[literal(3, true), literal(4, false)])?;
    Ok(list)
}

/// What the checker says that goes through the text once, and the checker as it is then.
fn by_items<'t>(
    alloc: Global,
    bytes: &'t [u8],
    clauses: &ClauseList,
) -> Result<(Lines, LiveChecker<'t>), Fail>
    requires { AreKnown 6 clauses.now }
{
    match form(bytes) {
        Ok(_) => take_all(alloc, bytes, clauses),
        Err(_) => Err(Fail::new("no certificate text")),
    }
}

fn take_all<'t>(
    alloc: Global,
    bytes: &'t [u8],
    clauses: &ClauseList,
) -> Result<(Lines, LiveChecker<'t>), Fail>
    requires known { AreKnown 6 clauses.now }
    requires text { (c : Certificate) × IsTextOf bytes.now c }
{
    let mut checker = LiveChecker::new(alloc, 6)?;
    let mut line: u64 = 0;
    'items: for item in Items::new(bytes) {
        if matches!(item, CertItem::Line { .. }) {
            line = line.wrapping_add(1);
        }
        if !checker.take(item, clauses)? {
            return Ok((Lines::FirstBad(line), checker));
        }
    }
    Ok((Lines::AllGood, checker))
}

/// What this number of workers say.
fn by_workers<R: Threads + Sync>(
    rt: &R,
    alloc: Global,
    bytes: &[u8],
    clauses: &ClauseList,
    workers: u32,
) -> Result<Lines, Fail>
    requires known { AreKnown 6 clauses.now }
    requires some { 1 ≤ workers }
    requires few { workers ≤ 16 }
{
    match CertView::read(alloc, bytes) {
        Ok(view) => {
            let mut scratch = Scratch::new(alloc, workers, 6)?;
            Ok(check_lines(rt, &view, clauses, &mut scratch, &NoGate))
        }
        Err(_) => Err(Fail::new("no certificate text")),
    }
}

#[test]
fn finds_the_first_bad_line(rt: HostRuntime) -> Result<(), Fail> {
    let clauses = clauses_of_false(rt.alloc())?;
    let rows: [(&[u8], Lines); 11] = [
        (
            b"ltlcert 1 infinite 0\n-2 0 2 1 0\nclose 1 1\n",
            Lines::AllGood,
        ),
        (
            b"ltlcert 1 infinite 0\n-2 0 1 2 0\nclose 1 1\n",
            Lines::AllGood,
        ),
        (
            b"ltlcert 1 infinite 0\n-2 0 2 1 1 0\nclose 1 1\n",
            Lines::FirstBad(1),
        ),
        (
            b"ltlcert 1 infinite 0\n-2 0 0\nclose 1 1\n",
            Lines::FirstBad(1),
        ),
        (
            b"ltlcert 1 infinite 0\n-2 0 2 0\nclose 1 1\n",
            Lines::FirstBad(1),
        ),
        (
            b"ltlcert 1 infinite 0\n2 -2 0 2 1 0\nclose 1 1\n",
            Lines::FirstBad(1),
        ),
        (
            b"ltlcert 1 infinite 0\n-2 7 0 2 1 0\nclose 1 1\n",
            Lines::FirstBad(1),
        ),
        // What the first line made false is not false at the second.
        (
            b"ltlcert 1 infinite 0\n-2 0 2 1 0\n-3 0 2 1 0\nclose 1 1\n",
            Lines::FirstBad(2),
        ),
        // Lines 3 and 4 are bad.
        (
            b"ltlcert 1 infinite 0\n-2 0 2 1 0\n-2 -2 0 -1 0\n-2 0 0\n-2 0 -5 0\n-2 0 -2 0\nclose 1 1\n",
            Lines::FirstBad(3),
        ),
        (TWO_LINES, Lines::AllGood),
        (
            b"ltlcert 2 infinite 0\n-2 0 2 1 0\nd 1\n-2 0 -1 0\nclose 2 2\n",
            Lines::FirstBad(2),
        ),
    ];
    for (bytes, expected) in rows {
        let (lines, _checker) = by_items(rt.alloc(), bytes, &clauses)?;
        assert_eq!(rt; lines, expected);
        for workers in [1, 2, 3, 16] {
            assert_eq!(rt;
                by_workers(&rt, rt.alloc(), bytes, &clauses, workers)?,
                expected
            );
        }
    }
    laws::judging();
    laws::hint_by_hint();
    Ok(())
}

#[test]
fn keeps_the_live_lines(rt: HostRuntime) -> Result<(), Fail> {
    let clauses = clauses_of_false(rt.alloc())?;
    let (_lines, checker) = by_items(rt.alloc(), TWO_LINES, &clauses)?;
    assert_eq!(rt; checker.live(), 1);
    if checker.live() == 1 {
        assert_eq!(rt; checker.live_line(0), 2);
        let mut literals = checker.literals(0);
        assert_eq!(rt; literals.next(), Some(literal(2, true)));
        assert_eq!(rt; literals.next(), None);
    }
    assert!(rt; checker.find(1).is_none());
    assert!(rt; checker.find(2).is_some());
    Ok(())
}
