// The cut of an input at its first two separator lines. The parts are lent from the input.
ghost use Rattle.std.specs.Prelude.{MatchOption};
ghost use Rattle.black_top.specs.System.{HasFewSeparators};
ghost use Rattle.black_top.specs.SystemInner.{AreCut};

use program_input::cut;

/// The parts of an input with two separator lines, and the places at which the second and the third begin.
#[derive(Clone, Copy)]
pub struct ThreeParts<'a> {
    pub start: &'a [u8],
    pub step: &'a [u8],
    pub step_place: usize,
    pub goal: &'a [u8],
    pub goal_place: usize,
}

/// The three parts of an input with two separator lines: what stands behind the first one is cut once more.
pub fn cut_twice(bytes: &[u8]) -> Option<ThreeParts<'_>>
    ensures { MatchOption result (HasFewSeparators bytes.now) (AreCut bytes.now) }
{
    let Some(first) = cut(bytes) else {
        return None;
    };
    let Some(second) = cut(first.second) else {
        return None;
    };
    Some(ThreeParts {
        start: first.formula,
        step: second.formula,
        step_place: bytes.len() - first.second.len(),
        goal: second.second,
        goal_place: bytes.len() - second.second.len(),
    })
}
