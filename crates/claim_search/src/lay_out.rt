// The certificate of a proof: the lines that are needed, cut into layers. Their numbers change, those of
// clauses do not.

use crate::cube::push_claim;
use crate::fixed_point::Claims;
use crate::prove::{Part, Proof};
use crate::trim::needed_lines;
use claim_check::{Certificate, HintedLines, Layer};
use clause_log::LogView;
use cnf_base::{ClauseList, Hint, Literal, Rows};
use ltl_syntax::Kind;
use std::alloc::{AllocError, Global};

/// The greatest number of literals of a clause.
const MAX_LENGTH: usize = 4294967295;

/// The new numbers of the lines that are needed, by their old ones.
fn new_numbers(alloc: Global, needed: &Vec<bool>) -> Result<Vec<u64>, AllocError> {
    let mut numbers = Vec::new(alloc);
    let mut count = 0u64;
    for is_needed in needed {
        if *is_needed {
            count = count.saturating_add(1);
            numbers.push(count)?;
        } else {
            numbers.push(0)?;
        }
    }
    Ok(numbers)
}

/// The new number of a line, or 0.
fn new_number(numbers: &Vec<u64>, line: u64) -> u64 {
    let index = line as usize;
    if index < numbers.len() {
        return numbers[index];
    }
    0
}

/// Puts the line with its hints behind the others.
fn push_line(
    numbers: &Vec<u64>,
    literals: &[Literal],
    hints: &[Hint],
    row: &mut Vec<Hint>,
    out: &mut HintedLines,
) -> Result<(), AllocError> {
    if literals.len() > MAX_LENGTH {
        return Err(AllocError);
    }
    row.clear();
    for hint in hints {
        row.push(match *hint {
            Hint::Clause(number) => Hint::Clause(number),
            Hint::Line(line) => Hint::Line(new_number(numbers, line)),
        })?;
    }
    out.literals.push(literals)?;
    out.hints.push(row)
}

/// Puts the line of this number behind the others, if there is one and it is needed.
fn push_needed(
    view: &LogView<'_>,
    numbers: &Vec<u64>,
    line: u64,
    row: &mut Vec<Hint>,
    out: &mut HintedLines,
) -> Result<(), AllocError> {
    if line == 0 || line > view.lines() || new_number(numbers, line) == 0 {
        return Ok(());
    }
    push_line(numbers, view.literals(line), view.hints(line), row, out)
}

/// The needed lines behind one number and up to another.
fn lines_between(
    alloc: Global,
    view: &LogView<'_>,
    numbers: &Vec<u64>,
    from: u64,
    to: u64,
) -> Result<HintedLines, AllocError> {
    let mut out = HintedLines {
        literals: ClauseList::new(alloc),
        hints: Rows::new(alloc),
    };
    let mut row = Vec::new(alloc);
    for before in from..to {
        push_needed(view, numbers, before.saturating_add(1), &mut row, &mut out)?;
    }
    Ok(out)
}

/// The claims from one index to before another, as clauses.
fn clauses_of(
    alloc: Global,
    claims: &Claims,
    from: usize,
    to: usize,
) -> Result<ClauseList, AllocError> {
    let mut clauses = ClauseList::new(alloc);
    let mut clause = Vec::new(alloc);
    for index in from..to {
        clause.clear();
        push_claim(claims.cube(index), &mut clause)?;
        if clause.len() > MAX_LENGTH {
            return Err(AllocError);
        }
        clauses.push(&clause)?;
    }
    Ok(clauses)
}

/// The targets of a layer's claims at the base, two of each where it has an eventuality.
fn base_targets(
    alloc: Global,
    proof: &Proof,
    numbers: &Vec<u64>,
    part: Part,
) -> Result<Vec<u64>, AllocError> {
    let mut targets = Vec::new(alloc);
    for index in part.from..part.to {
        if index < proof.bases.len() {
            let pair = proof.bases[index];
            targets.push(new_number(numbers, pair[0]))?;
            if part.eventuality.is_some() {
                targets.push(new_number(numbers, pair[1]))?;
            }
        }
    }
    Ok(targets)
}

/// The targets of a layer's claims at the step.
fn step_targets(
    alloc: Global,
    proof: &Proof,
    numbers: &Vec<u64>,
    part: Part,
) -> Result<Vec<u64>, AllocError> {
    let mut targets = Vec::new(alloc);
    for index in part.from..part.to {
        if index < proof.steps.len() {
            targets.push(new_number(numbers, proof.steps[index]))?;
        }
    }
    Ok(targets)
}

/// The layer of a part whose lines begin behind this number.
fn layer_of(
    alloc: Global,
    proof: &Proof,
    numbers: &Vec<u64>,
    part: Part,
    from: u64,
) -> Result<Layer, AllocError> {
    let view = proof.log.view();
    let clauses = clauses_of(alloc, &proof.claims, part.from, part.to)?;
    let base_lines = lines_between(alloc, &view, numbers, from, part.base_end)?;
    let base_targets = base_targets(alloc, proof, numbers, part)?;
    let step_lines = lines_between(alloc, &view, numbers, part.base_end, part.step_end)?;
    let step_targets = step_targets(alloc, proof, numbers, part)?;
    Ok(Layer {
        eventuality: part.eventuality,
        claims: clauses,
        base_lines,
        base_targets,
        step_lines,
        step_targets,
    })
}

/// The layers of all parts.
fn layers_of(alloc: Global, proof: &Proof, numbers: &Vec<u64>) -> Result<Vec<Layer>, AllocError> {
    let mut layers = Vec::new(alloc);
    let mut from = 0;
    for part in &proof.parts {
        layers.push(layer_of(alloc, proof, numbers, *part, from)?)?;
        from = part.step_end;
    }
    Ok(layers)
}

/// The needed lines behind those of all parts.
fn last_lines(alloc: Global, proof: &Proof, numbers: &Vec<u64>) -> Result<HintedLines, AllocError> {
    let from = match proof.parts.last() {
        Some(part) => part.step_end,
        None => 0,
    };
    let view = proof.log.view();
    lines_between(alloc, &view, numbers, from, view.lines())
}

/// The certificate of the proof.
pub fn lay_out(alloc: Global, kind: Kind, proof: &Proof) -> Result<Certificate, AllocError> {
    let needed = needed_lines(alloc, proof)?;
    let numbers = new_numbers(alloc, &needed)?;
    Ok(Certificate {
        kind,
        layers: layers_of(alloc, proof, &numbers)?,
        lines: last_lines(alloc, proof, &numbers)?,
        target: new_number(&numbers, proof.close),
    })
}
