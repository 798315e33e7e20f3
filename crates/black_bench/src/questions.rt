// The solver alone: a text gives the number of letters, clauses and questions, and the answers are counted.
ghost use Rattle.std.specs.Prelude.{◌≡◌};

use crate::reading::Reading;
use crate::status;
use cdcl::{Answer, Solver, are_consistent, are_known};
use cnf_base::Literal;
use ltl_io::{Source, read_whole};
use std::alloc::{AllocError, Global};

/// How many questions were answered each way.
#[derive(Drop)]
struct Counts {
    sat: u64,
    unsat: u64,
}

/// Prints how many questions of the source's text were answered each way, and how many lines were learnt.
pub(crate) fn answer_questions<S: Source>(rt: &HostRuntime, alloc: Global, source: &mut S) -> u8 {
    let Ok(text) = read_whole(alloc, source, 1_000_000_000) else {
        return 5;
    };
    let mut counts = Counts { sat: 0, unsat: 0 };
    let Ok(lines) = answer_all(alloc, &text, &mut counts) else {
        return 7;
    };
    status(println!(rt; "{} SAT {} UNSAT {} lines", counts.sat, counts.unsat, lines).is_ok())
}

/// Answers all questions of the text, and gives the number of lines that were learnt.
fn answer_all(alloc: Global, text: &[u8], counts: &mut Counts) -> Result<u64, AllocError> {
    let letters = first_number(text);
    let mut solver = Solver::new(alloc);
    solver.letters(letters)?;
    read_lists(alloc, &mut solver, letters, rest(text), counts)?;
    Ok(solver.log().view().lines())
}

fn read_lists(
    alloc: Global,
    solver: &mut Solver,
    letters: u32,
    text: &[u8],
    counts: &mut Counts,
) -> Result<(), AllocError>
    requires { solver.old.letters ≡ letters }
    ensures { solver.new.letters ≡ letters }
{
    let mut reading = Reading::new(alloc);
    'bytes: for byte in text {
        if reading.take(*byte)? {
            take_list(solver, letters, &reading.literals, reading.question, counts)?;
            reading.begin();
        }
    }
    Ok(())
}

/// Adds a clause, or asks.
fn take_list(
    solver: &mut Solver,
    letters: u32,
    literals: &[Literal],
    question: bool,
    counts: &mut Counts,
) -> Result<(), AllocError>
    requires { solver.old.letters ≡ letters }
    ensures { solver.new.letters ≡ letters }
{
    if !are_known(letters, literals) {
        return Err(AllocError);
    }
    if !question {
        solver.add(literals)?;
        return Ok(());
    }
    if !are_consistent(literals) {
        return Err(AllocError);
    }
    match solver.solve(literals)? {
        Answer::Sat => counts.sat = counts.sat.saturating_add(1),
        Answer::Unsat(_) => counts.unsat = counts.unsat.saturating_add(1),
    }
    Ok(())
}

/// The number that the text begins with.
fn first_number(text: &[u8]) -> u32 {
    let mut number: u32 = 0;
    for byte in text {
        if *byte < b'0' || *byte > b'9' {
            return number;
        }
        number = number
            .saturating_mul(10)
            .saturating_add((*byte - b'0') as u32);
    }
    number
}

/// What stands behind the text's first line.
fn rest(text: &[u8]) -> &[u8] {
    for index in 0..text.len() {
        if text[index] == b'\n' {
            return &text[index..];
        }
    }
    text
}
