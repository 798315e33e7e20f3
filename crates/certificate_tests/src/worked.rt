// The clauses of the formula `false`, as the inputs of a log.
ghost use Rattle.std.specs.Prelude.{◌≡◌, [], IfOk};
ghost use Rattle.cnf_base.specs.Worked.{plus as plus_of, minus as minus_of, clauses_of_false};

use clause_log::Log;
use cnf_base::{Letter, Literal};
use std::alloc::{AllocError, Global};

/// A letter as a literal.
pub fn plus(letter: u32) -> Literal
    ensures { result ≡ plus_of letter }
{
    Literal {
        letter: Letter(letter),
        negated: false,
    }
}

/// A negated letter.
pub fn minus(letter: u32) -> Literal
    ensures { result ≡ minus_of letter }
{
    Literal {
        letter: Letter(letter),
        negated: true,
    }
}

/// The clauses that refute the formula `false`.
pub fn log_of_false(alloc: Global) -> Result<Log, AllocError>
    ensures { IfOk result (λ log. log ≡ record { inputs = clauses_of_false; lines = []; hints = [] }) }
{
    let mut log = Log::new(alloc);
    log.add_input(&[minus(6)])?;
    log.add_input(&[minus(2), plus(6)])?;
    log.add_input(&[minus(3), plus(4)])?;
    Ok(log)
}
