// What to write where a formula is written as other tools have it. An empty text says that nothing is known.
ghost use Rattle.std.specs.Prelude.{◌≡◌, ◌∷◌, ◌++◌, ℕ, List, codes, bytes_eq, IfOk, OnOk};
ghost use Rattle.std.specs.List.{flat_map, list_all};
ghost use Rattle.requirements_top.specs.Hints.{begins, sign_hint, is_digit, is_letter, is_in_word};
ghost use Rattle.requirements_top.specs.Hints.{is_white, first_word};
ghost use Rattle.requirements_top.specs.Hints.{word_with, word_so_far, last_word, has_numbers};
ghost use Rattle.requirements_top.specs.Hints.{opens_numbers, number_hint};
ghost use Rattle.requirements_top.specs.Hints.{future_word, other_word, is_operator, behind_blank};
ghost use Rattle.requirements_top.specs.Hints.{with_blanks, are_operators, parted, in_place};
ghost use Rattle.requirements_top.specs.Hints.{or_else, word_hint, hint, hint_line};

use crate::pointing::put_inner;
use std::alloc::{AllocError, Global};

/// Adds the line with the hint, where there is one, of a fault between these two parts of a formula.
pub fn put_hint(
    alloc: Global,
    front: &[u8],
    back: &[u8],
    out: &mut Vec<u8>,
) -> Result<(), AllocError>
    ensures { OnOk result (out.new.items ≡ out.old.items ++ hint_line (hint front.now back.now)) }
{
    let hint = hint(alloc, front, back)?;
    put_hint_line(alloc, &hint, out)
}

fn put_hint_line(alloc: Global, hint: &[u8], out: &mut Vec<u8>) -> Result<(), AllocError>
    ensures { OnOk result (out.new.items ≡ out.old.items ++ hint_line hint.now) }
{
    if hint.is_empty() {
        return Ok(());
    }
    let mut text = Vec::from_slice(alloc, b"hint: ")?;
    text.extend_from_slice(hint)?;
    put_inner(&text, out)
}

fn hint(alloc: Global, front: &[u8], back: &[u8]) -> Result<Vec<u8>, AllocError>
    ensures { IfOk result (λ text. text.items ≡ hint front.now back.now) }
{
    let sign = sign_hint(back);
    if !sign.is_empty() {
        return Vec::from_slice(alloc, sign);
    }
    hint_by_words(alloc, front, back)
}

fn hint_by_words(alloc: Global, front: &[u8], back: &[u8]) -> Result<Vec<u8>, AllocError>
    ensures { IfOk result (λ text. text.items ≡ or_else (number_hint (last_word front.now) back.now)
        (or_else (word_hint (first_word back.now)) (word_hint (last_word front.now)))) }
{
    let before = last_word(alloc, front)?;
    let numbers = number_hint(&before, back);
    if !numbers.is_empty() {
        return Vec::from_slice(alloc, numbers);
    }
    hint_of_words(alloc, &before, back)
}

fn hint_of_words(alloc: Global, before: &[u8], back: &[u8]) -> Result<Vec<u8>, AllocError>
    ensures { IfOk result (λ text.
        text.items ≡ or_else (word_hint (first_word back.now)) (word_hint before.now)) }
{
    let word = first_word(alloc, back)?;
    let at = word_hint(alloc, &word)?;
    if !at.is_empty() {
        return Ok(at);
    }
    word_hint(alloc, before)
}

/// A sign of another tool at the front.
fn sign_hint(text: &[u8]) -> &'static [u8]
    ensures { result.now ≡ sign_hint text.now }
{
    if text.starts_with(b"[]") {
        return b"G in place of []";
    }
    if text.starts_with(b"<>") {
        return b"F in place of <>";
    }
    if text.starts_with(b"==") {
        return b"<-> in place of ==";
    }
    if text.starts_with(b"=") {
        return b"<-> in place of =";
    }
    if text.starts_with(b"^") {
        return b"!(p <-> q) in place of p ^ q";
    }
    if text.starts_with(b"/\\") {
        return b"& in place of /\\";
    }
    if text.starts_with(b"\\/") {
        return b"| in place of \\/";
    }
    b""
}

/// Numbers that are not written as they are here.
fn number_hint(word: &[u8], behind: &[u8]) -> &'static [u8]
    ensures { result.now ≡ number_hint word.now behind.now }
{
    if has_numbers(word) && opens_numbers(behind) {
        return b"numbers from 0 to 255 without a blank, as in F[0,3] and X[3]";
    }
    b""
}

fn has_numbers(word: &[u8]) -> bool
    ensures { result ≡ has_numbers word.now }
{
    same(word, b"X")
        || same(word, b"Y")
        || same(word, b"F")
        || same(word, b"G")
        || same(word, b"O")
        || same(word, b"H")
}

fn opens_numbers(text: &[u8]) -> bool
    ensures { result ≡ opens_numbers text.now }
{
    text.starts_with(b"[") || text.starts_with(b"<")
}

/// What to write in place of a word.
fn word_hint(alloc: Global, word: &[u8]) -> Result<Vec<u8>, AllocError>
    ensures { IfOk result (λ text. text.items ≡ word_hint word.now) }
{
    let here = meant(alloc, word)?;
    in_place(alloc, &here, word)
}

fn in_place(alloc: Global, here: &[u8], word: &[u8]) -> Result<Vec<u8>, AllocError>
    ensures { IfOk result (λ text. text.items ≡ in_place here.now word.now) }
{
    if here.is_empty() {
        return Ok(Vec::new(alloc));
    }
    joined(alloc, here, word)
}

fn joined(alloc: Global, here: &[u8], word: &[u8]) -> Result<Vec<u8>, AllocError>
    ensures { IfOk result (λ text. text.items ≡ here.now ++ (codes " in place of " ++ word.now)) }
{
    let mut text = Vec::from_slice(alloc, here)?;
    text.extend_from_slice(b" in place of ")?;
    text.extend_from_slice(word)?;
    Ok(text)
}

/// What a word of another tool is here.
fn meant(alloc: Global, word: &[u8]) -> Result<Vec<u8>, AllocError>
    ensures { IfOk result (λ text. text.items
        ≡ or_else (future_word word.now) (or_else (other_word word.now) (parted word.now))) }
{
    let future = future_word(word);
    if !future.is_empty() {
        return Vec::from_slice(alloc, future);
    }
    let other = other_word(word);
    if !other.is_empty() {
        return Vec::from_slice(alloc, other);
    }
    parted(alloc, word)
}

fn future_word(word: &[u8]) -> &'static [u8]
    ensures { result.now ≡ future_word word.now }
{
    if same(word, b"always") {
        return b"G";
    }
    if same(word, b"globally") {
        return b"G";
    }
    if same(word, b"eventually") {
        return b"F";
    }
    if same(word, b"finally") {
        return b"F";
    }
    if same(word, b"next") {
        return b"X";
    }
    if same(word, b"until") {
        return b"U";
    }
    if same(word, b"weakuntil") {
        return b"W";
    }
    if same(word, b"release") {
        return b"R";
    }
    if same(word, b"V") {
        return b"R";
    }
    b""
}

fn other_word(word: &[u8]) -> &'static [u8]
    ensures { result.now ≡ other_word word.now }
{
    if same(word, b"since") {
        return b"S";
    }
    if same(word, b"once") {
        return b"O";
    }
    if same(word, b"historically") {
        return b"H";
    }
    if same(word, b"yesterday") {
        return b"Y";
    }
    if same(word, b"and") {
        return b"&";
    }
    if same(word, b"or") {
        return b"|";
    }
    if same(word, b"not") {
        return b"!";
    }
    if same(word, b"implies") {
        return b"->";
    }
    if same(word, b"iff") {
        return b"<->";
    }
    b""
}

fn same(word: &[u8], other: &[u8]) -> bool
    ensures { result ≡ bytes_eq word.now other.now }
{
    word == other
}

/// Operators without blanks between them, with blanks.
fn parted(alloc: Global, word: &[u8]) -> Result<Vec<u8>, AllocError>
    ensures { IfOk result (λ text. text.items ≡ parted word.now) }
{
    if are_operators(word) {
        return with_blanks(alloc, word);
    }
    Ok(Vec::new(alloc))
}

fn are_operators(word: &[u8]) -> bool
    ensures { result ≡ are_operators word.now }
{
    if word.len() < 2 {
        return false;
    }
    all_operators(word)
}

fn all_operators(word: &[u8]) -> bool
    ensures { result ≡ list_all is_operator word.now }
{
    'bytes: for k in 0..word.len() {
        if !is_operator(word[k]) {
            return false;
        }
    }
    true
}

fn with_blanks(alloc: Global, word: &[u8]) -> Result<Vec<u8>, AllocError>
    ensures { IfOk result (λ text. text.items ≡ with_blanks word.now) }
{
    let mut text = Vec::new(alloc);
    if word.is_empty() {
        return Ok(text);
    }
    text.push(word[0])?;
    put_behind_blanks(&word[1..], &mut text)?;
    Ok(text)
}

fn put_behind_blanks(word: &[u8], out: &mut Vec<u8>) -> Result<(), AllocError>
    ensures { OnOk result (out.new.items ≡ out.old.items ++ flat_map behind_blank word.now) }
{
    for byte in word {
        out.push(b' ')?;
        out.push(*byte)?;
    }
    Ok(())
}

fn is_operator(byte: u8) -> bool
    ensures { result ≡ is_operator byte }
{
    byte == b'X'
        || byte == b'F'
        || byte == b'G'
        || byte == b'Y'
        || byte == b'Z'
        || byte == b'O'
        || byte == b'H'
}

/// The word at the front.
fn first_word(alloc: Global, text: &[u8]) -> Result<Vec<u8>, AllocError>
    ensures { IfOk result (λ word. word.items ≡ first_word text.now) }
{
    let mut word = Vec::new(alloc);
    for byte in text {
        if !is_in_word(*byte) {
            return Ok(word);
        }
        word.push(*byte)?;
    }
    Ok(word)
}

/// The word at the end, white space behind it aside.
fn last_word(alloc: Global, text: &[u8]) -> Result<Vec<u8>, AllocError>
    ensures { IfOk result (λ word. word.items ≡ last_word text.now) }
{
    let mut word = Vec::new(alloc);
    let mut ended = true;
    for byte in text {
        ended = put_word_byte(*byte, ended, &mut word)?;
    }
    Ok(word)
}

/// Whether the word has ended behind the byte.
fn put_word_byte(byte: u8, ended: bool, word: &mut Vec<u8>) -> Result<bool, AllocError>
    ensures { IfOk result (λ next. (rest : List ℕ) → word_so_far next word.new.items rest
        ≡ word_so_far ended word.old.items (byte ∷ rest)) }
{
    if is_in_word(byte) {
        put_with(ended, byte, word)?;
        return Ok(false);
    }
    if is_white(byte) {
        return Ok(true);
    }
    word.clear();
    Ok(true)
}

fn put_with(ended: bool, byte: u8, word: &mut Vec<u8>) -> Result<(), AllocError>
    ensures { OnOk result (word.new.items ≡ word_with ended word.old.items byte) }
{
    if ended {
        word.clear();
        word.push(byte)?;
        return Ok(());
    }
    word.push(byte)?;
    Ok(())
}

fn is_in_word(byte: u8) -> bool
    ensures { result ≡ is_in_word byte }
{
    is_digit(byte) || is_letter(byte) || byte == b'_' || byte >= 128
}

fn is_digit(byte: u8) -> bool
    ensures { result ≡ is_digit byte }
{
    byte >= b'0' && byte <= b'9'
}

fn is_letter(byte: u8) -> bool
    ensures { result ≡ is_letter byte }
{
    (byte >= b'A' && byte <= b'Z') || (byte >= b'a' && byte <= b'z')
}

fn is_white(byte: u8) -> bool
    ensures { result ≡ is_white byte }
{
    byte == b' ' || byte == b'\t' || byte == b'\n' || byte == b'\r'
}
