ghost use Rattle.std.specs.Prelude.{◌≡◌, [], IfOk};
ghost use Rattle.cnf_base.specs.Worked.{clauses_of_false};

use crate::literals::{minus, plus};
use clause_log::{Log, laws};
use cnf_base::Hint;
use std::alloc::{AllocError, Global};
use std::test::Fail;

/// The clauses that refute the formula `false`.
fn log_of_false(alloc: Global) -> Result<Log, AllocError>
    ensures { IfOk result (λ log. log ≡ record { inputs = clauses_of_false; lines = []; hints = [] }) }
{
    let mut log = Log::new(alloc);
    log.add_input(&[minus(6)])?;
    log.add_input(&[minus(2), plus(6)])?;
    log.add_input(&[minus(3), plus(4)])?;
    Ok(log)
}

#[test]
fn refutes_false(rt: HostRuntime) -> Result<(), Fail> {
    let mut log = log_of_false(rt.alloc())?;
    let first = log.derive(&[minus(2)], &[Hint::Clause(2), Hint::Clause(1)])?;
    let second = log.derive(&[minus(2)], &[Hint::Clause(1), Hint::Clause(2)])?;
    let view = log.view();
    assert_eq!(rt; (first, second), (1, 2));
    assert_eq!(rt; (view.inputs(), view.lines()), (3, 2));
    assert_eq!(rt; view.input(2), [minus(2), plus(6)].as_slice());
    assert_eq!(rt; view.literals(2), [minus(2)].as_slice());
    assert_eq!(rt;
        view.hints(1),
        [Hint::Clause(2), Hint::Clause(1)].as_slice()
    );
    assert_eq!(rt;
        view.hints(2),
        [Hint::Clause(1), Hint::Clause(2)].as_slice()
    );
    laws::lines_follow();
    Ok(())
}
