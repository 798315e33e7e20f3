// The words of `black`. The command and its number are read here, its options by `options`.
ghost use Rattle.std.specs.Prelude.{◌≡◌, map, string_bytes, MatchOption, IfOk};
ghost use Rattle.command_words.specs.Table.{demo_command};
ghost use Rattle.command_words.specs.Words.{Command, Asks, SayNumber};
ghost use Rattle.command_words.specs.Asked.{IsAsked, stop_after};
ghost use Rattle.command_words.specs.Said.{Follows, FollowsNothing, SayNoNumber};

use crate::decimal::decimal_number;
use crate::options::{Options, said_options};
use crate::table::{CommandName, DEMO_NUMBERS, MAX_BATCH, MAX_TEXT, Offering, command_named};
use std::alloc::{AllocError, Global};

/// A command that is asked for.
#[derive(Clone, Copy)]
pub enum Asked {
    Solve(Options),
    Check(Options),
    Trace,
    /// The number of the demo, from 2 to 64.
    Demo(u32),
    Batch(Options),
    System(Options),
    Monitor,
    Depast,
}

impl Asked {
    /// After how many bytes the source is read no further. None where it is not read.
    pub fn stop(self) -> Option<usize>
        ensures { result ≡ stop_after self }
    {
        match self {
            Asked::Solve(_) => Some(MAX_TEXT),
            Asked::Batch(_) => Some(MAX_BATCH),
            Asked::Demo(_) => None,
            Asked::Check(_) | Asked::Trace | Asked::System(_) => Some(usize::MAX),
            Asked::Monitor | Asked::Depast => Some(usize::MAX),
        }
    }
}

/// The command that the words ask for. None where they are not taken.
pub fn asked_command(alloc: Global, words: &[String]) -> Result<Option<Asked>, AllocError>
    ensures { IfOk result (λ asked. MatchOption asked
        ((c : Command) → ¬ (Asks (map string_bytes words.now) c))
        (IsAsked (map string_bytes words.now))) }
{
    let [word, more @ ..] = words else {
        return Ok(None);
    };
    match command_named(word.as_str()) {
        Some(command) => asked_further(alloc, command, more),
        None => Ok(None),
    }
}

/// What the words behind the command's own ask for.
fn asked_further(
    alloc: Global,
    command: CommandName,
    words: &[String],
) -> Result<Option<Asked>, AllocError>
    ensures { IfOk result (λ asked. MatchOption asked (FollowsNothing command (map string_bytes words.now))
        (Follows command (map string_bytes words.now))) }
{
    let asked = match command {
        CommandName::Solve => said_options(alloc, Offering::Command(command), words)?.map(
            Asked::Solve,
        ),
        CommandName::Check => said_options(alloc, Offering::Command(command), words)?.map(
            Asked::Check,
        ),
        CommandName::Trace => words.is_empty().then_some(Asked::Trace),
        CommandName::Demo => demo_number(words).map(Asked::Demo),
        CommandName::Batch => said_options(alloc, Offering::Command(command), words)?.map(
            Asked::Batch,
        ),
        CommandName::System => said_options(alloc, Offering::Command(command), words)?.map(
            Asked::System,
        ),
        CommandName::Monitor => words.is_empty().then_some(Asked::Monitor),
        CommandName::Depast => words.is_empty().then_some(Asked::Depast),
    };
    Ok(asked)
}

/// The number of the demo, where the words are that number alone.
fn demo_number(words: &[String]) -> Option<u32>
    ensures { MatchOption result (SayNoNumber demo_command (map string_bytes words.now))
        (λ n. SayNumber demo_command n (map string_bytes words.now)) }
{
    let [digits] = words else {
        return None;
    };
    decimal_number(digits.as_bytes(), DEMO_NUMBERS)
}
