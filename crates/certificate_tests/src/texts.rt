// The text of a certificate in both directions.
ghost use Rattle.std.specs.Prelude.{◌≡◌, length, IfOk};

use crate::worked::{log_of_false, minus};
use cert_text::{
    CertItem, CertRefused, CertView, Hints, Items, LineNumbers, Literals, form, laws, write,
};
use cnf_base::Hint;
use derivation::NamedLog;
use log_trim::trim;
use ltl_syntax::Kind;
use std::alloc::{AllocError, Global};
use std::test::Fail;

// Two lines that refute `false`: the second is the first again, which is deleted then.
const TWO_LINES: &[u8] = b"ltlcert 2 infinite 0\n-2 0 2 1 0\n-2 0 -1 0\nd 1\nclose 2 2\n";

// The numbers of a list behind others; what is negated, and a line, is 1,000 more.
fn push_literals(literals: Literals<'_>, out: &mut Vec<u64>) -> Result<(), AllocError> {
    for literal in literals {
        let sign = if literal.negated { 1000 } else { 0 };
        out.push((literal.letter.0 as u64).wrapping_add(sign))?;
    }
    Ok(())
}

fn push_hints(hints: Hints<'_>, out: &mut Vec<u64>) -> Result<(), AllocError> {
    for hint in hints {
        match hint {
            Hint::Clause(number) => out.push(number)?,
            Hint::Line(number) => out.push(number.wrapping_add(1000))?,
        }
    }
    Ok(())
}

fn push_targets(targets: LineNumbers<'_>, out: &mut Vec<u64>) -> Result<(), AllocError> {
    for target in targets {
        out.push(target)?;
    }
    Ok(())
}

fn view_of(alloc: Global, bytes: &'static [u8]) -> Result<CertView<'static>, Fail> {
    match CertView::read(alloc, bytes) {
        Ok(view) => Ok(view),
        Err(CertRefused::Form(_)) => Err(Fail::new("no certificate text")),
        Err(CertRefused::NoMemory) => Err(Fail::new("no memory")),
    }
}

#[test]
fn tells_of_each_line(rt: HostRuntime) -> Result<(), Fail> {
    let view = view_of(rt.alloc(), TWO_LINES)?;
    let mut told = Vec::new(rt.alloc());
    for line in 1..=view.lines() {
        let live = view.live_at_close(line);
        told.push(view.place(line) as u64)?;
        told.push(view.last_user(line))?;
        told.push(if live { 1 } else { 0 })?;
        push_literals(view.literals(line), &mut told)?;
        push_hints(view.hints(line).again(), &mut told)?;
    }
    view.invariant();
    for number in 1..=view.depth() + 2 {
        told.push(view.target(number))?;
    }
    assert_eq!(rt;
        told.as_slice(),
        [21, 2, 0, 1002, 2, 1, 32, 2, 1, 1002, 1001, 2, 2].as_slice()
    );
    assert_eq!(rt; (view.version(), view.depth(), view.lines()), (2, 0, 2));
    assert!(rt; view.kind() == Kind::Infinite);
    laws::texts();
    laws::scanning();
    laws::live_lines();
    laws::standing();
    Ok(())
}

#[test]
fn reads_item_by_item(rt: HostRuntime) -> Result<(), Fail> {
    let mut told = Vec::new(rt.alloc());
    match form(TWO_LINES) {
        Ok(said) => {
            assert_eq!(rt; (said.version, said.depth, said.lines), (2, 0, 2));
            for item in Items::new(TWO_LINES) {
                match item {
                    CertItem::Line { literals, hints } => {
                        push_literals(literals.again(), &mut told)?;
                        push_hints(hints, &mut told)?;
                    }
                    CertItem::Delete { lines } => push_targets(lines.again(), &mut told)?,
                    CertItem::Close { targets } => push_targets(targets, &mut told)?,
                }
            }
        }
        Err(_) => return Err(Fail::new("no certificate text")),
    }
    assert_eq!(rt;
        told.as_slice(),
        [1002, 2, 1, 1002, 1001, 1, 2, 2].as_slice()
    );
    Ok(())
}

#[test]
fn tells_the_first_fault(rt: HostRuntime) -> Result<(), Fail> {
    let rows: [(&[u8], u64); 7] = [
        (b"", 0),
        (b"ltlcert 3 infinite 0\n", 8),
        (b"ltlcert 1 infinite 01\n", 20),
        (b"ltlcert 1 infinite 1001\n", 22),
        (b"ltlcert 1 infinite 1\r\n", 20),
        (b"ltlcert 1 infinite 1\n-16777217 -3 0 2 3 4 0\n", 29),
        (
            b"ltlcert 1 infinite 0\n-2 0 2 1 0\n-2 0 -1 0\nd 1\nclose 2 2\n",
            42,
        ),
    ];
    for (bytes, fault) in rows {
        let refused = match CertView::read(rt.alloc(), bytes) {
            Ok(_) => None,
            Err(refused) => Some(refused),
        };
        assert!(rt; refused == Some(CertRefused::Form(fault)));
    }
    laws::worked();
    Ok(())
}

/// These two lines.
fn two_lines(alloc: Global) -> Result<NamedLog, AllocError>
    ensures { IfOk result (λ log. length log.lines ≡ 2) }
{
    let mut log = log_of_false(alloc)?;
    log.derive(&[minus(2)], &[Hint::Clause(2), Hint::Clause(1)])?;
    log.derive(&[minus(2)], &[Hint::Line(1)])?;
    let names = vec![in alloc; 1, 2, 3]?;
    Ok(NamedLog::of(log, names))
}

#[test]
fn writes_with_deletes(rt: HostRuntime) -> Result<(), Fail> {
    let log = two_lines(rt.alloc())?;
    let (lines, targets) = trim(rt.alloc(), log, &[2, 2])?;
    let text = write(rt.alloc(), Kind::Infinite, 0, &lines, &targets)?;
    assert!(rt; text.as_slice() == TWO_LINES);
    laws::writing();
    laws::deleting();
    Ok(())
}
