// The option words as `clap` reads them. On words that are taken, it is refused for want of memory alone.
ghost use Rattle.std.specs.Prelude.{◌≡◌, true, false, List, map, string_bytes, IfOk, IfErr};
ghost use Rattle.clap.specs.Words.{kind_of, takes, found_of, rows_of, rule_of, matches_of};
ghost use Rattle.command_words.specs.Words.{Setting};
ghost use Rattle.command_words.specs.Said.{SayOnce};
ghost use Rattle.command_words.specs.Matching.{options_app, flag_rule, value_rule, AreMatched};

use clap::error::ErrorKind;
use clap::{Arg, ArgAction, ArgMatches, Command, Error};
use std::alloc::{AllocError, Global};

/// The options that stand in words that are taken, with their texts.
pub fn option_matches(alloc: Global, words: &[String]) -> Result<ArgMatches<'_>, AllocError>
    requires { (settings : List Setting) × SayOnce settings (map string_bytes words.now) }
    ensures { IfOk result (AreMatched (map string_bytes words.now)) }
{
    match parsed(alloc, words) {
        Ok(matches) => Ok(matches),
        Err(error) => {
            let no_memory = error.kind() == ErrorKind::OutOfMemory;
            prove!(no_memory);
            Err(AllocError)
        }
    }
}

/// `clap`'s matches of option words.
fn parsed(alloc: Global, words: &[String]) -> Result<ArgMatches<'_>, Error>
    ensures matches { IfOk result (λ m. rows_of (found_of m)
        ≡ matches_of options_app (map string_bytes words.now)) }
    ensures refused { IfErr result (λ e. takes options_app (map string_bytes words.now) ≡ true
        → kind_of e ≡ ErrorKind.OutOfMemory) }
{
    let options = Command::new(alloc, "black")
        .no_binary_name(true)
        .disable_help_flag(true)
        .disable_version_flag(true)
        .arg(flag(alloc, "finite"))?
        .arg(valued(alloc, "depth"))?
        .arg(flag(alloc, "cert"))?
        .arg(flag(alloc, "core"))?
        .arg(valued(alloc, "workers"))?
        .arg(flag(alloc, "check"))?
        .arg(valued(alloc, "steps"))?
        .arg(flag(alloc, "progress"))?;
    options.try_get_matches_from(words)
}

/// An option without a text.
pub fn flag<'a>(alloc: Global, name: &'a str) -> Arg<'a>
    ensures rule { rule_of result ≡ flag_rule name.now }
    ensures own { result.global ≡ false }
{
    Arg::new(alloc, name).long(name).action(ArgAction::SetTrue)
}

/// An option with a text.
pub fn valued<'a>(alloc: Global, name: &'a str) -> Arg<'a>
    ensures rule { rule_of result ≡ value_rule name.now }
    ensures own { result.global ≡ false }
{
    Arg::new(alloc, name).long(name).action(ArgAction::Set)
}
