// The lines of a refused document: what is wrong, and where. What comes of the document is put on one line.
ghost use Rattle.std.specs.Prelude.{◌≡◌, ◌++◌, take, drop, codes, IfOk, OnOk};
ghost use Rattle.std.specs.Fmt.{decimal};
ghost use Rattle.report.specs.Texts.{line};
ghost use Rattle.requirement_document.specs.Keys.{section_word};
ghost use Rattle.requirement_report.specs.Flat.{flat};
ghost use Rattle.requirements_top.specs.Refusing.{in_parentheses, name_text, place_text, wrong_text};
ghost use Rattle.requirements_top.specs.Refusing.{wanted_text, long_text, place_lines, formula_place};
ghost use Rattle.requirements_top.specs.Refusing.{formula_text, cause_text};
ghost use Rattle.requirements_top.specs.Refusing.{refusal_text, cause_status, refusal_status};

use crate::Status;
use crate::hints::put_hint;
use crate::pointing::put_pointing;
use requirement_document::{Cause, DocumentFault, Key, Place, Section, key_word, section_word};
use requirement_report::put_flat;
use std::alloc::{AllocError, Global};

/// The status of a refused document.
pub fn refusal_status(fault: &DocumentFault) -> Status
    ensures { result ≡ refusal_status fault.now }
{
    cause_status(&fault.cause)
}

fn cause_status(cause: &Cause) -> Status
    ensures { result ≡ cause_status cause.now }
{
    match cause {
        Cause::TooLong | Cause::TooMany(_) | Cause::Size(_) => Status::Limit,
        Cause::NotText(_) | Cause::NotToml { .. } | Cause::UnknownKey(_) | Cause::Unfit(_) =>
            Status::Text,
        Cause::NotTable | Cause::Missing(_) | Cause::EmptyName | Cause::NameTwice => Status::Text,
        Cause::NoLetter | Cause::Lexical(_) | Cause::Grammar(_) => Status::Text,
        Cause::Form | Cause::NoState | Cause::EmptyLoop => Status::Text,
    }
}

/// The lines of a refused document.
pub fn refusal_text(alloc: Global, fault: &DocumentFault) -> Result<Vec<u8>, AllocError>
    ensures { IfOk result (λ text. text.items ≡ refusal_text fault.now) }
{
    cause_text(alloc, &fault.place, &fault.cause)
}

fn cause_text(alloc: Global, place: &Place, cause: &Cause) -> Result<Vec<u8>, AllocError>
    ensures { IfOk result (λ text. text.items ≡ cause_text place.now cause.now) }
{
    match cause {
        Cause::TooLong => long_text(alloc, place),
        Cause::NotText(byte) => not_text(alloc, *byte),
        Cause::NotToml {
            line,
            column,
            message,
        } => not_toml(alloc, *line, *column, message.as_str()),
        Cause::UnknownKey(key) => unknown_key(alloc, place, key.as_str()),
        Cause::Unfit(key) => wrong(
            alloc,
            place,
            key_word(*key).as_bytes(),
            wanted_text(*key).as_bytes(),
        ),
        Cause::TooMany(section) => many_text(alloc, *section),
        Cause::NotTable => wrong(alloc, place, b"it is no table", b""),
        Cause::Missing(key) => wrong(alloc, place, b"no key ", key_word(*key).as_bytes()),
        Cause::EmptyName => wrong(alloc, place, b"the name is empty", b""),
        Cause::NameTwice => wrong(alloc, place, b"the name stands twice", b""),
        Cause::NoLetter => wrong(alloc, place, b"the name is no letter", b""),
        Cause::Lexical(byte) => formula_text(alloc, b"lexical", place, *byte),
        Cause::Grammar(byte) => formula_text(alloc, b"grammar", place, *byte),
        Cause::Size(count) => size_text(alloc, place, *count),
        Cause::Form => wrong(alloc, place, b"it has either states, or stem and loop", b""),
        Cause::NoState => wrong(alloc, place, b"states is empty", b""),
        Cause::EmptyLoop => wrong(alloc, place, b"loop is empty", b""),
    }
}

/// The line of what is wrong at the place, which is said by two texts.
fn wrong(alloc: Global, place: &Place, what: &[u8], more: &[u8]) -> Result<Vec<u8>, AllocError>
    ensures { IfOk result (λ text. text.items ≡ wrong_text place.now (what.now ++ more.now)) }
{
    let mut text = Vec::from_slice(alloc, b"document fault in ")?;
    put_place(alloc, place, &mut text)?;
    text.extend_from_slice(b": ")?;
    text.extend_from_slice(what)?;
    text.extend_from_slice(more)?;
    text.push(b'\n')?;
    Ok(text)
}

fn unknown_key(alloc: Global, place: &Place, key: &str) -> Result<Vec<u8>, AllocError>
    ensures { IfOk result (λ text. text.items ≡ wrong_text place.now (codes "unknown key " ++ flat key.now)) }
{
    let mut word = Vec::new(alloc);
    put_flat(alloc, key, &mut word)?;
    wrong(alloc, place, b"unknown key ", &word)
}

/// What the value of a key should be.
fn wanted_text(key: Key) -> &'static str
    ensures { result.now ≡ wanted_text key }
{
    match key {
        Key::Traces => " wants \"infinite\" or \"finite\"",
        Key::Section(_) => " wants an array of tables",
        Key::Name | Key::Text | Key::Formula => " wants a text",
        Key::States | Key::Stem | Key::Loop =>
            " wants an array of states, each an array of letters",
    }
}

/// The line of a document or a formula that is too long.
fn long_text(alloc: Global, place: &Place) -> Result<Vec<u8>, AllocError>
    ensures { IfOk result (λ text. text.items ≡ long_text place.now) }
{
    match place {
        Place::Document => Vec::from_slice(alloc, b"limit document 4194304\n"),
        Place::Entry { .. } => {
            let mut text = Vec::from_slice(alloc, b"limit text 1048576 in ")?;
            put_place(alloc, place, &mut text)?;
            text.push(b'\n')?;
            Ok(text)
        }
    }
}

fn not_text(alloc: Global, byte: u64) -> Result<Vec<u8>, AllocError>
    ensures { IfOk result (λ text. text.items
        ≡ line (codes "document fault at byte " ++ (decimal byte ++ codes ": not UTF-8"))) }
{
    let mut text = Vec::from_slice(alloc, b"document fault at byte ")?;
    text.extend_from_slice(byte.to_string(alloc)?.as_bytes())?;
    text.extend_from_slice(b": not UTF-8\n")?;
    Ok(text)
}

fn not_toml(alloc: Global, row: u64, column: u64, message: &str) -> Result<Vec<u8>, AllocError>
    ensures { IfOk result (λ text. text.items
        ≡ line (codes "document fault at line " ++ (decimal row ++ (codes ", column " ++ (decimal column
        ++ (codes ": " ++ flat message.now)))))) }
{
    let mut text = Vec::from_slice(alloc, b"document fault at line ")?;
    text.extend_from_slice(row.to_string(alloc)?.as_bytes())?;
    text.extend_from_slice(b", column ")?;
    text.extend_from_slice(column.to_string(alloc)?.as_bytes())?;
    text.extend_from_slice(b": ")?;
    put_flat(alloc, message, &mut text)?;
    text.push(b'\n')?;
    Ok(text)
}

/// The lines of a fault of a formula.
fn formula_text(alloc: Global, word: &[u8], place: &Place, byte: u32) -> Result<Vec<u8>, AllocError>
    ensures { IfOk result (λ text. text.items ≡ formula_text word.now place.now byte) }
{
    let mut text = Vec::from_slice(alloc, word)?;
    text.extend_from_slice(b" fault in ")?;
    put_place(alloc, place, &mut text)?;
    text.extend_from_slice(b" at byte ")?;
    text.extend_from_slice(byte.to_string(alloc)?.as_bytes())?;
    text.push(b'\n')?;
    put_place_lines(alloc, place, byte, &mut text)?;
    Ok(text)
}

/// Adds where in the formula it is.
fn put_place_lines(
    alloc: Global,
    place: &Place,
    byte: u32,
    out: &mut Vec<u8>,
) -> Result<(), AllocError>
    ensures { OnOk result (out.new.items ≡ out.old.items ++ place_lines place.now byte) }
{
    match place {
        Place::Document => Ok(()),
        Place::Entry { formula, .. } => match formula {
            Some(formula) => put_formula_place(alloc, formula.as_str().as_bytes(), byte, out),
            None => Ok(()),
        },
    }
}

/// Adds the lines of the place, and what may have been meant.
fn put_formula_place(
    alloc: Global,
    text: &[u8],
    byte: u32,
    out: &mut Vec<u8>,
) -> Result<(), AllocError>
    ensures { OnOk result (out.new.items ≡ out.old.items ++ formula_place text.now byte) }
{
    let (front, back) = cut(text, byte as usize);
    put_pointing(alloc, front, back, out)?;
    put_hint(alloc, front, back, out)
}

/// The text in front of a byte, and from it on.
fn cut(text: &[u8], byte: usize) -> (&[u8], &[u8])
    ensures front { result.0.now ≡ take byte text.now }
    ensures back { result.1.now ≡ drop byte text.now }
{
    if byte >= text.len() {
        return text.split_at(text.len());
    }
    text.split_at(byte)
}

fn size_text(alloc: Global, place: &Place, count: u64) -> Result<Vec<u8>, AllocError>
    ensures { IfOk result (λ text. text.items
        ≡ line (codes "limit nodes 16384 have "
        ++ (decimal count ++ (codes " in " ++ place_text place.now)))) }
{
    let mut text = Vec::from_slice(alloc, b"limit nodes 16384 have ")?;
    text.extend_from_slice(count.to_string(alloc)?.as_bytes())?;
    text.extend_from_slice(b" in ")?;
    put_place(alloc, place, &mut text)?;
    text.push(b'\n')?;
    Ok(text)
}

fn many_text(alloc: Global, section: Section) -> Result<Vec<u8>, AllocError>
    ensures { IfOk result (λ text.
        text.items ≡ line (codes "limit entries 1024 in " ++ section_word section)) }
{
    let mut text = Vec::from_slice(alloc, b"limit entries 1024 in ")?;
    text.extend_from_slice(section_word(section).as_bytes())?;
    text.push(b'\n')?;
    Ok(text)
}

/// Adds where it is.
fn put_place(alloc: Global, place: &Place, out: &mut Vec<u8>) -> Result<(), AllocError>
    ensures { OnOk result (out.new.items ≡ out.old.items ++ place_text place.now) }
{
    match place {
        Place::Document => out.extend_from_slice(b"the document"),
        Place::Entry {
            section,
            number,
            name,
            ..
        } => {
            out.extend_from_slice(section_word(*section).as_bytes())?;
            out.extend_from_slice(b" ")?;
            out.extend_from_slice(number.to_string(alloc)?.as_bytes())?;
            match name {
                Some(name) => put_name(alloc, name.as_str(), out),
                None => Ok(()),
            }
        }
    }
}

/// Adds a name in parentheses, and nothing for the empty one.
pub fn put_name(alloc: Global, name: &str, out: &mut Vec<u8>) -> Result<(), AllocError>
    ensures { OnOk result (out.new.items ≡ out.old.items ++ in_parentheses name.now) }
{
    if name.is_empty() {
        return Ok(());
    }
    out.extend_from_slice(b" (")?;
    put_flat(alloc, name, out)?;
    out.extend_from_slice(b")")
}
