// The lines of a proof that are needed: its targets, and the lines that the hints of these name.

use crate::prove::Proof;
use cnf_base::Hint;
use std::alloc::{AllocError, Global};

/// Marks the line, if there is one. Lines are numbered from 1.
fn need(marks: &mut Vec<bool>, line: u64) {
    let index = line as usize;
    if 0 < line && index < marks.len() {
        marks[index] = true;
    }
}

fn is_needed(marks: &Vec<bool>, line: u64) -> bool {
    let index = line as usize;
    index < marks.len() && marks[index]
}

/// Marks the lines that the hints name.
fn need_hints(marks: &mut Vec<bool>, hints: &[Hint]) {
    for hint in hints {
        if let Hint::Line(line) = *hint {
            need(marks, line);
        }
    }
}

/// Marks the targets.
fn need_targets(marks: &mut Vec<bool>, proof: &Proof) {
    for base in &proof.bases {
        need(marks, base[0]);
        need(marks, base[1]);
    }
    for step in &proof.steps {
        need(marks, *step);
    }
    need(marks, proof.close);
}

/// Which lines are needed, by their numbers.
pub fn needed_lines(alloc: Global, proof: &Proof) -> Result<Vec<bool>, AllocError> {
    let view = proof.log.view();
    let count = view.lines();
    let mut marks = Vec::new(alloc);
    marks.push(false)?;
    for _ in 0..count {
        marks.push(false)?;
    }
    need_targets(&mut marks, proof);
    for later in 0..count {
        let line = count - later;
        if is_needed(&marks, line) {
            need_hints(&mut marks, view.hints(line));
        }
    }
    Ok(marks)
}
