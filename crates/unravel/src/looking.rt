// A solver's values looked at as a run: its rows.
ghost use Rattle.std.specs.Prelude.{◌≡◌, ◌+◌, ◌≤◌, length, IfOk};
ghost use Rattle.cdcl.specs.SolverValue.{value_of};
ghost use Rattle.enc_layout.specs.Letters.{Fits, letters_through};
ghost use Rattle.enc_layout.specs.Clauses.{layout_of};
ghost use Rattle.demand.specs.Rows.{rows_in};
ghost use Rattle.demand.specs.Reading.{HasRoom, AreRead};

use cdcl::Solver;
use cnf_base::Letter;
use demand::{Row, Values, read_rows};
use ltl_closure::Closure;
use std::alloc::{AllocError, Global};

/// The values that a solver has found.
#[derive(Drop)]
struct Found<'s> {
    solver: &'s Solver,
}

impl<'s> Values for Found<'s> {
    ghost use Rattle.std.specs.Prelude.{length};
    ghost use Rattle.cdcl.specs.SolverValue.{value_of};

    ghost room = { λ f. length f.solver.now.model };

    ghost values = { λ f. value_of f.solver.now };

    fn value(&self, letter: Letter) -> bool {
        self.solver.value(letter)
    }
}

/// The rows of the run of depth + 1 states that the solver's values give.
pub fn found_rows(
    alloc: Global,
    closure: &Closure<'_>,
    solver: &Solver,
    depth: u32,
) -> Result<Vec<Row>, AllocError>
    requires few { depth ≤ 1000 }
    requires fits { Fits (layout_of closure.now) depth }
    requires room { HasRoom (layout_of closure.now) depth (length solver.now.model) }
    ensures count { IfOk result (λ rows. length rows.items ≡ depth + 1) }
    ensures rows { IfOk result (λ rows. AreRead closure.now.formula closure.now.kind
        (value_of solver.now) depth (rows_in rows.items)) }
{
    read_rows(alloc, closure, &Found { solver }, depth)
}
