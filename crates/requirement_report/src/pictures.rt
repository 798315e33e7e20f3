// The picture of a trace as text: a row for each letter, `#` where it is true and `.` where it is false. The
// page has the same as a drawing: `requirement_page/src/pictures.rt`.
ghost use Rattle.std.specs.Prelude.{◌≡◌, ◌++◌, IfOk, OnOk};
ghost use Rattle.requirement_report.specs.Pictures.{picture, picture_with, marked_picture, letters_in};

use crate::lines::{put_indented, put_inner};
use crate::marking::{marked, put_mark, put_names};
use ltl_word::{Name, StateSet, Trace};
use std::alloc::{AllocError, Global};
use trace_view::{Grid, GridRefused, letters_of, text};

/// The columns at which a picture is wrapped. The four blanks before it are not counted.
const WIDTH: usize = 76;

/// Adds the picture of a trace with the letters that are true in some state, or a line in its place where it
/// would be too large.
pub fn put_picture(alloc: Global, trace: &Trace, out: &mut Vec<u8>) -> Result<(), AllocError>
    ensures { OnOk result (out.new.items ≡ out.old.items ++ picture trace.now) }
{
    let letters = letters(alloc, trace)?;
    put_rows(alloc, trace, letters.names(), out)
}

/// The same, with a last row that is filled in the columns of some positions.
pub fn put_marked_picture(
    alloc: Global,
    trace: &Trace,
    positions: &[u32],
    out: &mut Vec<u8>,
) -> Result<(), AllocError>
    ensures { OnOk result (out.new.items ≡ out.old.items ++ marked_picture trace.now positions.now) }
{
    let letters = letters(alloc, trace)?;
    let mut names = Vec::new(alloc);
    put_names(alloc, letters.names(), &mut names)?;
    put_mark(alloc, true, &mut names)?;
    let marked = marked(alloc, trace, positions)?;
    put_rows(alloc, &marked, &names, out)
}

/// Adds the rows of these letters, in their order, or the line that tells the limit of cells.
fn put_rows(
    alloc: Global,
    trace: &Trace,
    letters: &[Name],
    out: &mut Vec<u8>,
) -> Result<(), AllocError>
    ensures { OnOk result (out.new.items ≡ out.old.items ++ picture_with trace.now letters.now) }
{
    match Grid::of(alloc, trace, letters) {
        Ok(grid) => {
            let lines = text(alloc, &grid, WIDTH)?;
            put_indented(&lines, out)
        }
        Err(GridRefused::TooLarge) => put_inner(b"limit cells 16777216", out),
        Err(GridRefused::NoMemory) => Err(AllocError),
    }
}

/// The letters that are true in some state.
fn letters(alloc: Global, trace: &Trace) -> Result<StateSet, AllocError>
    ensures { IfOk result (λ letters. letters ≡ letters_in trace.now) }
{
    letters_of(alloc, trace)
}
