// What a derivation can do without.
ghost use Rattle.std.specs.Prelude.{◌≡◌, IfOk, length};

use crate::worked::{log_of_false, minus};
use cnf_base::Hint;
use derivation::{NamedLog, laws as derivations};
use log_trim::{laws, trim};
use std::alloc::{AllocError, Global};
use std::test::Fail;

/// Three lines, of which the last one stands on the second alone. The inputs are clauses 3, 1 and 5 of a
/// list.
fn three_lines(alloc: Global) -> Result<NamedLog, AllocError>
    ensures { IfOk result (λ log. length log.lines ≡ 3) }
{
    let mut log = log_of_false(alloc)?;
    let first = log.derive(&[minus(2)], &[Hint::Clause(2), Hint::Clause(1)])?;
    let second = log.derive(&[minus(2)], &[Hint::Clause(1), Hint::Clause(2)])?;
    let third = log.derive(&[minus(2), minus(3)], &[Hint::Line(2)])?;
    let _ = (first, second, third);
    let names = vec![in alloc; 3, 1, 5]?;
    Ok(NamedLog::of(log, names))
}

#[test]
fn leaves_out_what_no_target_needs(rt: HostRuntime) -> Result<(), Fail> {
    let log = three_lines(rt.alloc())?;
    let (new, numbers) = trim(rt.alloc(), log, &[3, 2])?;
    assert_eq!(rt; numbers.as_slice(), [2, 1].as_slice());
    assert_eq!(rt; new.lines(), 2);
    assert_eq!(rt; new.literals(1), [minus(2)].as_slice());
    assert_eq!(rt; new.hints(1), [Hint::Clause(3), Hint::Clause(1)].as_slice());
    assert_eq!(rt; new.literals(2), [minus(2), minus(3)].as_slice());
    assert_eq!(rt; new.hints(2), [Hint::Line(1)].as_slice());
    Ok(())
}

#[test]
fn states_laws() {
    laws::trimming();
    laws::pushing();
    laws::numbering();
    laws::marking();
    laws::earlier();
    derivations::following();
    derivations::naming();
}
