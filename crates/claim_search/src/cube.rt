// Cubes: some literals of entries at one state, by which the search names all states that have them. They
// stand in the order of their letters, each letter once. A claim is the clause that no state of a cube
// meets.

use cnf_base::{Letter, Literal};
use std::alloc::{AllocError, Global};

/// The count as a number of 32 bits, or the greatest of these.
pub fn as_number(count: usize) -> u32 {
    if count > 4294967295 {
        return u32::MAX;
    }
    count as u32
}

/// The literal that is true where the letter is not, or where it is.
pub fn signed(letter: u32, negated: bool) -> Literal {
    Literal {
        letter: Letter(letter),
        negated,
    }
}

/// The literal of the same entry at the next state, where there are `width` entries.
pub fn at_next(of: Literal, width: u32) -> Literal {
    signed(of.letter.0.saturating_add(width), of.negated)
}

/// Whether all literals of the one cube are in the other, so that it names all states of the other.
pub fn is_within(fewer: &[Literal], more: &[Literal]) -> bool {
    let mut found = 0;
    for own in more {
        if found < fewer.len() && fewer[found] == *own {
            found += 1;
        }
    }
    found == fewer.len()
}

/// The cube without the literal at this place.
pub fn without(alloc: Global, cube: &[Literal], place: usize) -> Result<Vec<Literal>, AllocError> {
    let mut rest = Vec::new(alloc);
    for (index, own) in cube.iter().enumerate() {
        if index != place {
            rest.push(*own)?;
        }
    }
    Ok(rest)
}

/// The literals of the cube whose places are marked.
pub fn marked(
    alloc: Global,
    cube: &[Literal],
    marks: &Vec<bool>,
) -> Result<Vec<Literal>, AllocError> {
    let mut kept = Vec::new(alloc);
    for (index, own) in cube.iter().enumerate() {
        if index < marks.len() && marks[index] {
            kept.push(*own)?;
        }
    }
    Ok(kept)
}

/// Puts the claim behind the literals: the opposites of the cube's.
pub fn push_claim(cube: &[Literal], out: &mut Vec<Literal>) -> Result<(), AllocError> {
    for own in cube {
        out.push(own.opposite())?;
    }
    Ok(())
}

/// Puts the claim at the next state behind the literals.
pub fn push_next_claim(
    cube: &[Literal],
    width: u32,
    out: &mut Vec<Literal>,
) -> Result<(), AllocError> {
    for own in cube {
        out.push(at_next(own.opposite(), width))?;
    }
    Ok(())
}
