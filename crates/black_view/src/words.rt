// The words behind the program's name, one after the other, and what they ask for.
ghost use Rattle.std.specs.Prelude.{◌≡◌, ◌++◌, true, false, Some, map, string_bytes, option_map, IfOk, OnOk};
ghost use Rattle.std.specs.Prelude.{MatchOption};
ghost use Rattle.black_view.specs.declared.words.TextOption.TheVariants as options;
ghost use Rattle.black_view.specs.Words.{wanted, finished, with_word, with_option, with_text, option_named};
ghost use Rattle.black_view.specs.Words.{is_dashed, letters_in, number_of};
ghost use Rattle.black_view.specs.Words.{has_equals, before_equals, behind_equals};
ghost use Rattle.black_view.specs.Asked.{IsAsked, wanted_of, said_of};

use ltl_word::Name;
use std::alloc::{AllocError, Global};

/// How a trace is drawn.
#[derive(Drop)]
pub struct Request {
    /// As a picture in SVG, and else as text.
    pub svg: bool,
    /// The columns of a line of text.
    pub width: usize,
    /// The letters, and else all that are true in some state.
    pub only: Option<Vec<Name>>,
}

/// What the words ask for.
#[derive(Drop)]
pub enum Asked {
    Picture(Request),
    Help,
    Version,
    /// The words are not taken.
    Nothing,
}

/// An option with a text.
#[derive(Clone, Copy)]
pub enum TextOption {
    Width,
    Only,
}

/// What the words said so far, and the option whose text is the next word.
#[derive(Drop)]
pub struct Reading {
    svg: bool,
    width: Option<u32>,
    only: Option<Vec<Name>>,
    waiting: Option<TextOption>,
}

/// The columns where the words say none.
const WIDTH: u32 = 80;

/// What the words behind the program's name ask for.
pub fn request_in(alloc: Global, words: &[String]) -> Result<Asked, AllocError>
    ensures { IfOk result (IsAsked (map string_bytes words.now)) }
{
    if let [word] = words {
        match word.as_str() {
            "--help" => return Ok(Asked::Help),
            "--version" => return Ok(Asked::Version),
            _ => {}
        }
    }
    match requested(alloc, words)? {
        Some(request) => Ok(Asked::Picture(request)),
        None => Ok(Asked::Nothing),
    }
}

/// The picture that the words ask for.
fn requested(alloc: Global, words: &[String]) -> Result<Option<Request>, AllocError>
    ensures { IfOk result (λ request. option_map wanted_of request ≡ wanted (map string_bytes words.now)) }
{
    let mut reading = Reading {
        svg: false,
        width: None,
        only: None,
        waiting: None,
    };
    for word in words {
        match read_word(alloc, reading, word.as_str())? {
            Some(next) => reading = next,
            None => return Ok(None),
        }
    }
    Ok(request_of(reading))
}

/// The request that was read, where no text is to come.
fn request_of(reading: Reading) -> Option<Request>
    ensures { option_map wanted_of result ≡ finished (said_of reading) }
{
    match reading.waiting {
        Some(_) => None,
        None => Some(Request {
            svg: reading.svg,
            width: reading.width.unwrap_or(WIDTH) as usize,
            only: reading.only,
        }),
    }
}

/// What is said with one word more.
fn read_word(alloc: Global, reading: Reading, word: &str) -> Result<Option<Reading>, AllocError>
    ensures { IfOk result (λ next. option_map said_of next ≡ with_word (said_of reading) word.now) }
{
    match reading.waiting {
        None => read_option(alloc, reading, word),
        Some(_) if is_dashed(word) => Ok(None),
        Some(option) => read_text(alloc, reading, option, word),
    }
}

/// The word where no text is to come: an option, or an option with its text behind `=`.
fn read_option(alloc: Global, reading: Reading, word: &str) -> Result<Option<Reading>, AllocError>
    ensures { IfOk result (λ next. option_map said_of next ≡ with_option (said_of reading) word.now) }
{
    if let Some((name, text)) = sides_of_equals(word) {
        return match option_named(name) {
            Some(option) => read_text(alloc, reading, option, text),
            None => Ok(None),
        };
    }
    if word == "--svg" {
        if reading.svg {
            return Ok(None);
        }
        return Ok(Some(Reading {
            svg: true,
            ..reading
        }));
    }
    match option_named(word) {
        Some(option) => Ok(Some(Reading {
            waiting: Some(option),
            ..reading
        })),
        None => Ok(None),
    }
}

/// What stands before the first `=` of the word and behind it.
fn sides_of_equals(word: &str) -> Option<(&str, &str)>
    ensures { MatchOption result (has_equals word.now ≡ false) (λ sides. (has_equals word.now ≡ true)
        × (sides.0.now ≡ before_equals word.now) × (sides.1.now ≡ behind_equals word.now)) }
{
    word.split_once('=')
}

/// The option with a text whose word it is.
fn option_named(word: &str) -> Option<TextOption>
    ensures { result ≡ option_named word.now }
{
    match word {
        "--width" => Some(TextOption::Width),
        "--only" => Some(TextOption::Only),
        _ => None,
    }
}

/// Whether the word begins with a hyphen.
fn is_dashed(word: &str) -> bool
    ensures { result ≡ is_dashed word.now }
{
    match word.as_bytes() {
        [first, ..] => *first == b'-',
        [] => false,
    }
}

/// What is said with the text of the option.
fn read_text(
    alloc: Global,
    reading: Reading,
    option: TextOption,
    text: &str,
) -> Result<Option<Reading>, AllocError>
    ensures { IfOk result (λ next. option_map said_of next ≡ with_text (said_of reading) option text.now) }
{
    match option {
        TextOption::Width => Ok(read_width(reading, text)),
        TextOption::Only => Ok(Some(read_letters(alloc, reading, text)?)),
    }
}

/// With the number of columns, which is said once.
fn read_width(reading: Reading, text: &str) -> Option<Reading>
    ensures { option_map said_of result ≡ with_text (said_of reading) options.Width text.now }
{
    if reading.width.is_some() {
        return None;
    }
    match number_of(text.as_bytes()) {
        Some(number) => Some(Reading {
            width: Some(number),
            waiting: None,
            ..reading
        }),
        None => None,
    }
}

/// With the letters behind those that were said before.
fn read_letters(alloc: Global, reading: Reading, text: &str) -> Result<Reading, AllocError>
    ensures { IfOk result (λ next. Some (said_of next) ≡ with_text (said_of reading) options.Only text.now) }
{
    let mut names = reading.only.unwrap_or(Vec::new(alloc));
    push_letters(alloc, text, &mut names)?;
    Ok(Reading {
        svg: reading.svg,
        width: reading.width,
        only: Some(names),
        waiting: None,
    })
}

/// The texts between the commas.
fn push_letters(alloc: Global, text: &str, names: &mut Vec<Name>) -> Result<(), AllocError>
    ensures { OnOk result (names.new.items ≡ names.old.items ++ letters_in text.now) }
{
    let mut rest = text;
    while let Some((letter, behind)) = rest.split_once(',') {
        names.push(Name::new(alloc, letter)?)?;
        rest = behind;
    }
    names.push(Name::new(alloc, rest)?)?;
    Ok(())
}

/// The number that the digits write.
fn number_of(digits: &[u8]) -> Option<u32>
    ensures { result ≡ number_of digits.now }
{
    if digits.is_empty() {
        return None;
    }
    let mut number = 0;
    for digit in digits {
        if !digit.is_ascii_digit() || number >= 100_000_000 {
            return None;
        }
        number = 10 * number + (*digit - b'0') as u32;
    }
    Some(number)
}
