// Where the lines of a text stand, and up to where each may be used.
ghost use Rattle.std.specs.Prelude.{◌≡◌, ◌+◌, ◌-◌, ◌<◌, ◌≤◌, ◌^◌, [], ◌∷◌, ◌++◌, length, slice_range, IfOk};
ghost use Rattle.std.specs.Prelude.{OnOk};
ghost use Rattle.std.specs.List.{flat_map};
ghost use Rattle.cert_text.specs.Text.{Part, IsTextOf, part_text, header_text};
ghost use Rattle.cert_text.specs.Reading.{certificate_in, AreNumbers, numbers_in};
ghost use Rattle.cert_text.specs.Items.{item_of, item_line, IsItem};
ghost use Rattle.cert_text.specs.View.{AreMarks, IsShut, IsMarked, IsPartLine};

use crate::finding::{find, literals_end};
use crate::spelled::LineNumbers;
use std::alloc::{AllocError, Global};

/// The bytes of a line's literals: from `start` up to `end`, where the 0 behind them stands.
#[derive(Clone, Copy, Drop)]
pub struct Span {
    pub start: usize,
    pub end: usize,
}

/// Shuts a line at this count of lines, if it stands there and is open.
fn shut(ends: &mut Vec<u64>, number: u64, count: u64)
    ensures { IsShut (number ∷ []) count ends.old.items ends.new.items }
{
    if number == 0 || number > ends.len() as u64 {
        return;
    }
    let index = (number - 1) as usize;
    if ends[index] == u64::MAX {
        ends[index] = count;
    }
}

/// Shuts the lines that a delete names, at this count of lines.
pub(crate) fn shut_all(ends: &mut Vec<u64>, numbers: LineNumbers<'_>, count: u64)
    ensures { IsShut numbers.entry count ends.old.items ends.new.items }
{
    let mut numbers = numbers;
    while let Some(number) = numbers.next() {
        shut(ends, number, count);
    }
}

/// Notes the part that a line of the text spells; the line begins at `at`.
fn mark_part(
    line: &[u8],
    at: usize,
    spans: &mut Vec<Span>,
    ends: &mut Vec<u64>,
) -> Result<(), AllocError>
    requires part { IsPartLine line.now }
    requires fits { at + length line.now < 2 ^ 64 }
    ensures { OnOk result ((part : Part) → IsItem (item_of part) → line.now ≡ item_line (item_of part)
        → IsMarked part at spans.old.items ends.old.items spans.new.items ends.new.items) }
{
    if line[0] == b'd' {
        let count = ends.len() as u64;
        shut_all(ends, LineNumbers::new(&line[1..]), count);
        return Ok(());
    }
    let end = at + literals_end(line);
    spans.push(Span { start: at, end })?;
    ends.push(u64::MAX)?;
    Ok(())
}

/// Notes all parts, and answers where the close begins.
pub(crate) fn mark_parts(
    bytes: &[u8],
    spans: &mut Vec<Span>,
    ends: &mut Vec<u64>,
) -> Result<usize, AllocError>
    requires text { IsTextOf bytes.now (certificate_in bytes.now) }
    requires no_spans { spans.old.items ≡ [] }
    requires no_ends { ends.old.items ≡ [] }
    ensures close { IfOk result (λ close. close ≡ length
        (header_text (certificate_in bytes.now) ++ flat_map part_text (certificate_in bytes.now).parts)) }
    ensures marks { OnOk result (AreMarks (certificate_in bytes.now)
        (certificate_in bytes.now).parts spans.new.items ends.new.items) }
{
    let mut at = find(bytes, 0, b'\n') + 1;
    while bytes[at] != b'c' {
        let end = find(bytes, at, b'\n');
        mark_part(&bytes[at..end], at, spans, ends)?;
        at = end + 1;
    }
    Ok(at)
}

/// The targets, where the close begins at `close` and ends the bytes.
pub(crate) fn targets_at(alloc: Global, bytes: &[u8], close: usize) -> Result<Vec<u64>, AllocError>
    requires within { close + 6 ≤ length bytes.now }
    requires numbers { AreNumbers (slice_range bytes.now (close + 5) (length bytes.now - 1)) }
    ensures { IfOk result (λ targets. targets.items
        ≡ numbers_in (slice_range bytes.now (close + 5) (length bytes.now - 1))) }
{
    let targets = LineNumbers::new(&bytes[close + 5..bytes.len() - 1]);
    targets.collect(alloc)
}
