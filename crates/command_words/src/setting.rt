// The option that the first words say. Its number is a word of its own, or stands behind `=` in the same
// word.
ghost use Rattle.std.specs.Prelude.{ℕ, List, map, string_bytes, MatchOption};
ghost use Rattle.command_words.specs.declared.table.OptionName.{OptionName};
ghost use Rattle.command_words.specs.Said.{SaysNothing, SaysFirst, AreRoundEquals, IsApart};

use crate::decimal::decimal_number;
use crate::table::{OptionName, option_named, option_range};

/// The option that the first words say, and the words behind it.
pub fn first_option(words: &[String]) -> Option<(OptionName, &[String])>
    ensures { MatchOption result (SaysNothing (map string_bytes words.now))
        (λ said. SaysFirst (map string_bytes words.now) said.0 (map string_bytes said.1.now)) }
{
    let [word, more @ ..] = words else {
        return None;
    };
    let word = word.as_str();
    match word.split_once('=') {
        Some((word, digits)) => Some((joined_option(word, digits)?, more)),
        None => option_apart(word, more),
    }
}

/// The option whose word and whose number these texts are.
fn joined_option(word: &str, digits: &str) -> Option<OptionName>
    ensures { MatchOption result ((option : OptionName) → ¬ (AreRoundEquals word.now digits.now option))
        (AreRoundEquals word.now digits.now) }
{
    let option = option_named(word)?;
    decimal_number(digits.as_bytes(), option_range(option)?)?;
    Some(option)
}

/// The option of the word, whose number the next word is where it has one, and the words behind them.
fn option_apart<'a>(word: &str, more: &'a [String]) -> Option<(OptionName, &'a [String])>
    ensures { MatchOption result
        ((option : OptionName) (behind : List (List ℕ))
        → ¬ (IsApart word.now (map string_bytes more.now) option behind))
        (λ said. IsApart word.now (map string_bytes more.now) said.0 (map string_bytes said.1.now)) }
{
    let option = option_named(word)?;
    let Some(range) = option_range(option) else {
        return Some((option, more));
    };
    let [digits, behind @ ..] = more else {
        return None;
    };
    decimal_number(digits.as_bytes(), range)?;
    Some((option, behind))
}
