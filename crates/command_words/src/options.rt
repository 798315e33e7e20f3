// The options of what has some: each at most once, in any order. Whether words are taken is found here; which
// options stand there, and with which texts, is then what `clap` matches.
ghost use Rattle.std.specs.Prelude.{◌≡◌, ◌≤◌, ℕ, List, Option, map, string_bytes};
ghost use Rattle.std.specs.Prelude.{MatchOption, MatchBool, IfOk};
ghost use Rattle.std.specs.Option.{option_copied};
ghost use Rattle.command_words.specs.Table.{offers_of};
ghost use Rattle.command_words.specs.Words.{Setting};
ghost use Rattle.command_words.specs.Said.{SayOnce, SomeAreSaid, NoneAreSaid, AreTold, AreSaid};
ghost use Rattle.command_words.specs.Said.{is_seen, with_seen};
ghost use Rattle.command_words.specs.Matching.{IsNumberText};

use crate::decimal::decimal_number;
use crate::matching::option_matches;
use crate::setting::first_option;
use crate::table::{DEPTHS, Offering, OptionName, Range, STEPS, WORKERS, offers_option};
use ltl_syntax::Kind;
use std::alloc::{AllocError, Global};

/// What options say.
#[derive(Clone, Copy)]
pub struct Options {
    pub kind: Kind,
    /// The depth that was asked for, at most 1,000.
    pub depth: Option<u32>,
    /// Whether a certificate was asked for.
    pub cert: bool,
    /// Whether a core was asked for.
    pub core: bool,
    /// How many workers were asked for, from 1 to 16.
    pub workers: Option<u32>,
    /// Whether a certificate is to be judged.
    pub check: bool,
    /// How many steps were asked for, from 1 to 999,999,999.
    pub steps: Option<u32>,
    /// Whether notes of what is done were asked for.
    pub progress: bool,
}

/// Which options stood in front.
#[derive(Clone, Copy)]
struct Seen {
    finite: bool,
    depth: bool,
    cert: bool,
    core: bool,
    workers: bool,
    check: bool,
    steps: bool,
    progress: bool,
}

/// What the words say as options that are offered there. None where they are not taken.
pub fn said_options(
    alloc: Global,
    offering: Offering,
    words: &[String],
) -> Result<Option<Options>, AllocError>
    ensures { IfOk result (λ said. MatchOption said
        (NoneAreSaid (offers_of offering) (map string_bytes words.now))
        (AreSaid (offers_of offering) (map string_bytes words.now))) }
{
    if !are_taken(offering, words) {
        return Ok(None);
    }
    Ok(Some(matched_options(alloc, words)?))
}

/// Whether the words are options that are offered there, each at most once.
fn are_taken(offering: Offering, words: &[String]) -> bool
    ensures { MatchBool result (SomeAreSaid (offers_of offering) (map string_bytes words.now))
        (NoneAreSaid (offers_of offering) (map string_bytes words.now)) }
{
    let mut seen = Seen {
        finite: false,
        depth: false,
        cert: false,
        core: false,
        workers: false,
        check: false,
        steps: false,
        progress: false,
    };
    let mut rest = words;
    'words: while !rest.is_empty() {
        let Some((option, behind)) = first_option(rest) else {
            return false;
        };
        if !offers_option(offering, option) || is_seen(seen, option) {
            return false;
        }
        seen = with_seen(seen, option);
        rest = behind;
    }
    true
}

/// Whether the option stood in front.
fn is_seen(seen: Seen, option: OptionName) -> bool
    ensures { result ≡ is_seen seen option }
{
    match option {
        OptionName::Finite => seen.finite,
        OptionName::Depth => seen.depth,
        OptionName::Cert => seen.cert,
        OptionName::Core => seen.core,
        OptionName::Workers => seen.workers,
        OptionName::Check => seen.check,
        OptionName::Steps => seen.steps,
        OptionName::Progress => seen.progress,
    }
}

/// With the option too.
fn with_seen(seen: Seen, option: OptionName) -> Seen
    ensures { result ≡ with_seen seen option }
{
    match option {
        OptionName::Finite => Seen {
            finite: true,
            ..seen
        },
        OptionName::Depth => Seen {
            depth: true,
            ..seen
        },
        OptionName::Cert => Seen { cert: true, ..seen },
        OptionName::Core => Seen { core: true, ..seen },
        OptionName::Workers => Seen {
            workers: true,
            ..seen
        },
        OptionName::Check => Seen {
            check: true,
            ..seen
        },
        OptionName::Steps => Seen {
            steps: true,
            ..seen
        },
        OptionName::Progress => Seen {
            progress: true,
            ..seen
        },
    }
}

/// What `clap` matches of words that are taken.
fn matched_options(alloc: Global, words: &[String]) -> Result<Options, AllocError>
    requires { (settings : List Setting) × SayOnce settings (map string_bytes words.now) }
    ensures { IfOk result (AreTold (map string_bytes words.now)) }
{
    let matches = option_matches(alloc, words)?;
    let kind = if matches.get_flag("finite") {
        Kind::Finite
    } else {
        Kind::Infinite
    };
    let depth = number_in(matches.get_str("depth"), DEPTHS);
    let cert = matches.get_flag("cert");
    let core = matches.get_flag("core");
    let workers = number_in(matches.get_str("workers"), WORKERS);
    let check = matches.get_flag("check");
    let steps = number_in(matches.get_str("steps"), STEPS);
    let progress = matches.get_flag("progress");
    Ok(Options {
        kind,
        depth,
        cert,
        core,
        workers,
        check,
        steps,
        progress,
    })
}

/// The number of the range that the text is, where it is one.
fn number_in(text: Option<&str>, range: Range) -> Option<u32>
    requires { range.digits ≤ 9 }
    ensures { (number : Option ℕ) → IsNumberText range (option_copied text.entry) number → result ≡ number }
{
    decimal_number(text?.as_bytes(), range)
}
