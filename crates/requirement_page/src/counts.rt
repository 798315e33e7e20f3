// The table of counts. It has a row for each line of counts in the text: `requirement_report/src/ending.rt`.
ghost use Rattle.std.specs.Prelude.{◌≡◌, ◌++◌, OnOk};
ghost use Rattle.requirement_page.specs.Counts.{row, row_if, rows, later_rows, table};

use requirement_answers::{Counts, Tally};
use requirement_report::put_of_all;
use std::alloc::AllocError;

/// Adds the table. The counts end the text; here they stand above the answers.
pub fn put_table(counts: Counts, out: &mut Vec<u8>) -> Result<(), AllocError>
    ensures { OnOk result (out.new.items ≡ out.old.items ++ table counts) }
{
    out.extend_from_slice(b"<table class=\"counts\">\n")?;
    put_rows(counts, out)?;
    out.extend_from_slice(b"</table>\n")
}

/// Adds the rows in the order in which the questions are asked. What is met together is asked in each report,
/// so its row is always there.
fn put_rows(counts: Counts, out: &mut Vec<u8>) -> Result<(), AllocError>
    ensures { OnOk result (out.new.items ≡ out.old.items ++ rows counts) }
{
    put_row(b"met together", counts.met, out)?;
    put_row_if(b"triggered", counts.triggered, out)?;
    put_row_if(b"says something new", counts.new, out)?;
    put_later_rows(counts, out)
}

/// Adds the rows of what the document itself asks: what may happen, what should follow, and what its
/// behaviours keep.
fn put_later_rows(counts: Counts, out: &mut Vec<u8>) -> Result<(), AllocError>
    ensures { OnOk result (out.new.items ≡ out.old.items ++ later_rows counts) }
{
    put_row_if(b"possible", counts.possible, out)?;
    put_row_if(b"follows", counts.follows, out)?;
    put_row_if(b"keeps all", counts.keeps, out)
}

/// Adds the row of a question, where it was asked of any item.
fn put_row_if(words: &[u8], tally: Tally, out: &mut Vec<u8>) -> Result<(), AllocError>
    ensures { OnOk result (out.new.items ≡ out.old.items ++ row_if words.now tally) }
{
    if tally.all == 0 {
        return Ok(());
    }
    put_row(words, tally, out)
}

/// Adds a row: how many questions of a sort have the answer that one hopes for, of how many.
fn put_row(words: &[u8], tally: Tally, out: &mut Vec<u8>) -> Result<(), AllocError>
    ensures { OnOk result (out.new.items ≡ out.old.items ++ row words.now tally) }
{
    out.extend_from_slice(b"<tr><td>")?;
    out.extend_from_slice(words)?;
    out.extend_from_slice(b"</td><td>")?;
    put_of_all(tally.good as u128, tally.all as u128, out)?;
    out.extend_from_slice(b"</td></tr>\n")
}
