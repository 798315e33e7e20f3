// The cut of an input at the first line that is `---`, perhaps with a carriage return. The parts are lent
// from the input.
ghost use Rattle.std.specs.Prelude.{◌≤◌, List, ℕ, length, MatchOption};
ghost use Rattle.program_input.specs.Parts.{BeginsLine, IsCut, HasNoSeparator};
ghost use Rattle.program_input.specs.Inner.{OpensSecond, OpensNothing};

/// What stands before the separator line, without the one newline right before it, and what stands behind its
/// newline.
#[derive(Clone, Copy)]
pub struct Parts<'a> {
    pub formula: &'a [u8],
    pub second: &'a [u8],
}

/// The parts of an input, where it has a separator line.
pub fn cut(bytes: &[u8]) -> Option<Parts<'_>>
    ensures { MatchOption result (HasNoSeparator bytes.now)
        (λ parts. IsCut bytes.now parts.formula.now parts.second.now) }
{
    for start in 0..bytes.len() {
        if let Some(second) = second_part(bytes, start) {
            return Some(Parts {
                formula: &bytes[..start.saturating_sub(1)],
                second,
            });
        }
    }
    None
}

/// What stands behind the separator line that begins at this byte, where one does.
fn second_part(bytes: &[u8], start: usize) -> Option<&[u8]>
    requires { start ≤ length bytes.now }
    ensures { MatchOption result (OpensNothing bytes.now start)
        (λ second. OpensSecond bytes.now start second.now) }
{
    if start > 0 && bytes[start - 1] != b'\n' {
        return None;
    }
    let behind = bytes[start..].strip_prefix(b"---")?;
    match behind.strip_prefix(b"\r") {
        Some(behind) => next_line(behind),
        None => next_line(behind),
    }
}

/// What stands in the next line and behind it, where a line ends here.
fn next_line(bytes: &[u8]) -> Option<&[u8]>
    ensures { MatchOption result ((text : List ℕ) → ¬ (BeginsLine bytes.now text))
        (λ text. BeginsLine bytes.now text.now) }
{
    if bytes.is_empty() {
        return Some(bytes);
    }
    bytes.strip_prefix(b"\n")
}
