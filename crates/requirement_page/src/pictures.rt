// The picture of a trace within the page, drawn in SVG. The text has it in characters:
// `requirement_report/src/pictures.rt`.
ghost use Rattle.std.specs.Prelude.{◌≡◌, ◌==◌, ◌||◌, ◌∷◌, ◌++◌};
ghost use Rattle.std.specs.Prelude.{ℕ, List, false, IfOk, OnOk};
ghost use Rattle.requirement_report.specs.Pictures.{letters_in};
ghost use Rattle.requirement_page.specs.Pictures.{later_lines, framed, picture};

use crate::marks::put_paragraph;
use ltl_word::{StateSet, Trace};
use std::alloc::{AllocError, Global};
use trace_view::{Grid, GridRefused, letters_of, svg};

/// Adds the timing diagram of a trace with the letters that are true in some state, or a line in its place
/// where it would be too large.
pub fn put_picture(alloc: Global, trace: &Trace, out: &mut Vec<u8>) -> Result<(), AllocError>
    ensures { OnOk result (out.new.items ≡ out.old.items ++ picture trace.now) }
{
    let letters = letters(alloc, trace)?;
    match Grid::of(alloc, trace, letters.names()) {
        Ok(grid) => {
            let drawing = svg(alloc, &grid)?;
            put_framed(&drawing, out)
        }
        Err(GridRefused::TooLarge) => put_paragraph(b"limit cells 16777216", out),
        Err(GridRefused::NoMemory) => Err(AllocError),
    }
}

/// The letters that are true in some state.
fn letters(alloc: Global, trace: &Trace) -> Result<StateSet, AllocError>
    ensures { IfOk result (λ letters. letters ≡ letters_in trace.now) }
{
    letters_of(alloc, trace)
}

/// Adds a drawing in SVG without its first line, which is for a file of XML and may not stand in a page.
fn put_framed(drawing: &[u8], out: &mut Vec<u8>) -> Result<(), AllocError>
    ensures { OnOk result (out.new.items ≡ out.old.items ++ framed drawing.now) }
{
    out.extend_from_slice(b"<div class=\"picture\">\n")?;
    put_later_lines(drawing, out)?;
    out.extend_from_slice(b"</div>\n")
}

/// Adds a text without its first line.
fn put_later_lines(text: &[u8], out: &mut Vec<u8>) -> Result<(), AllocError>
    ensures { OnOk result (out.new.items ≡ out.old.items ++ later_lines false text.now) }
{
    let mut ended = false;
    for byte in text {
        put_later_byte(*byte, ended, out)?;
        ended = ended || *byte == b'\n';
    }
    Ok(())
}

/// Adds a byte if the first line has ended before it.
fn put_later_byte(byte: u8, ended: bool, out: &mut Vec<u8>) -> Result<(), AllocError>
    ensures { OnOk result ((rest : List ℕ)
        → out.new.items ++ later_lines (ended || byte == 10) rest
        ≡ out.old.items ++ later_lines ended (byte ∷ rest)) }
{
    if ended {
        out.push(byte)?;
    }
    Ok(())
}
