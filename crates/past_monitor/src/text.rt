// The answers to a text: a state on each line, and lines of white space alone, which are passed over.
ghost use Rattle.std.specs.Prelude.{◌≡◌, ℕ, ◌+◌, ◌<◌, ◌≤◌, ◌∷◌, length, IfOk, IfErr, Ok, Err};
ghost use Rattle.std.specs.Option.{option_copied};
ghost use Rattle.ltl_syntax.specs.Table.{tree_at};
ghost use Rattle.past_monitor.specs.declared.refused.WatchRefused.TheVariants as refusals;
ghost use Rattle.past_monitor.specs.Text.{IsWatched, IsBad, is_blank, lines_of, lines_left, bytes_left};
ghost use Rattle.past_monitor.specs.Text.{TakesLine};

use crate::{Monitor, MonitorRefused, WatchRefused, state_of};
use ltl_syntax::FormulaTable;
use memchr::memchr;
use std::alloc::{AllocError, Global};

/// For each state of the text, in its order, whether the formula under the root holds at the last position of
/// the finite trace of the states up to it. A state is a line that is a JSON array of strings. Lines of white
/// space alone, which is space, tab and carriage return, are passed over.
pub fn watch(
    alloc: Global,
    table: &FormulaTable,
    root: u32,
    text: &[u8],
) -> Result<Vec<bool>, WatchRefused>
    requires { root < length table.now.nodes }
    ensures answers { IfOk result (λ answers.
        IsWatched (tree_at table.now root) text.now (Ok answers.items)) }
    ensures refused { IfErr result (λ refused.
        IsWatched (tree_at table.now root) text.now (Err refused)) }
{
    let mut monitor = match Monitor::new(alloc, table, root) {
        Ok(monitor) => monitor,
        Err(MonitorRefused::Future) => return Err(WatchRefused::Future),
        Err(MonitorRefused::NoMemory) => return Err(WatchRefused::NoMemory),
    };
    let mut answers = Vec::new(alloc);
    let mut number = 0;
    let mut rest = Some(text);
    while let Some(text) = rest {
        let front = first_line(text);
        number += 1;
        if let Some(answer) = take_line(alloc, &mut monitor, front.line, number)? {
            answers.push(answer)?;
        }
        rest = front.rest;
    }
    Ok(answers)
}

// The answer to a line with this number, and none to a blank one.
fn take_line(
    alloc: Global,
    monitor: &mut Monitor<'_>,
    line: &[u8],
    number: u64,
) -> Result<Option<bool>, WatchRefused>
    ensures ok { IfOk result (TakesLine monitor.old line.now monitor.new) }
    ensures future { result ≡ Err refusals.Future → ⊥ }
    ensures state { (n : ℕ) → result ≡ Err (refusals.State n) → (n ≡ number) × IsBad line.now }
{
    if is_blank(line) {
        return Ok(None);
    }
    match state_of(alloc, line)? {
        Some(state) => Ok(Some(monitor.step(&state))),
        None => Err(WatchRefused::State(number)),
    }
}

// Whether the line has white space alone.
fn is_blank(line: &[u8]) -> bool
    ensures { result ≡ is_blank line.now }
{
    line.iter()
        .all(|byte| matches!(*byte, b' ' | b'\t' | b'\n' | b'\r'))
}

// The first line of a text, and what stands behind its newline, if there is one.
#[derive(Clone, Copy)]
struct Front<'t> {
    line: &'t [u8],
    rest: Option<&'t [u8]>,
}

fn first_line<'t>(text: &'t [u8]) -> Front<'t>
    ensures lines { lines_of text.now ≡ result.line.now ∷ lines_left (option_copied result.rest) }
    ensures shorter { bytes_left (option_copied result.rest) ≤ length text.now }
{
    match memchr(b'\n', text) {
        Some(end) => Front {
            line: &text[..end],
            rest: Some(&text[end + 1..]),
        },
        None => Front {
            line: text,
            rest: None,
        },
    }
}
