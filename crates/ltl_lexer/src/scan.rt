// What stands at the front of a text: white space, a sign, a bounded operator, or a word. No sign begins as a
// word does, and a bounded operator goes on behind its word, so the longest token is the longest sign where
// there is one, else the bounded operator where there is one, and else the longest word.
ghost use Rattle.std.specs.Prelude.{◌≡◌, ◌<◌, ◌≤◌, ◌||◌, ◌==◌, length, take, slice_index, Some, None, false};
ghost use Rattle.std.specs.Prelude.{drop, IfSome, IfNone};
ghost use Rattle.unicode_ident.specs.Ident.{is_xid_start, is_xid_continue};
ghost use Rattle.ltl_lexer.specs.Tokens.{is_white, AreWhite, word_kind, IsLongest, BeginsNone};
ghost use Rattle.ltl_lexer.specs.Scanning.{begins, begins_second, front_sign, passes, FrontChar, FrontWord};
ghost use Rattle.ltl_lexer.specs.Scanning.{digit_at, front_number, front_times, front_range, front_bounded};

use crate::token::{BinaryWord, TokenKind, UnaryWord};

fn is_white(byte: u8) -> bool
    ensures { result ≡ is_white byte }
{
    byte == b' ' || byte == b'\t' || byte == b'\n' || byte == b'\r'
}

/// How many bytes of white space stand at the front.
pub fn white_len(text: &[u8]) -> usize
    ensures within { result ≤ length text.now }
    ensures white { AreWhite (take result text.now) }
    ensures behind { result < length text.now → is_white (slice_index text.now result) ≡ false }
{
    let mut len = 0;
    while len < text.len() && is_white(text[len]) {
        len += 1;
    }
    len
}

fn begins(text: &[u8], byte: u8) -> bool
    ensures { result ≡ begins text.now byte }
{
    text.len() > 0 && text[0] == byte
}

fn begins_second(text: &[u8], byte: u8) -> bool
    ensures { result ≡ begins_second text.now byte }
{
    text.len() > 1 && text[1] == byte
}

/// The longest sign at the front, and its length.
pub fn front_sign(text: &[u8]) -> Option<(TokenKind, usize)>
    ensures { result ≡ front_sign text.now }
{
    if text.is_empty() {
        return None;
    }
    let rest = &text[1..];
    match text[0] {
        b'!' | b'~' => Some((TokenKind::Not, 1)),
        b'&' => Some((TokenKind::And, if begins(rest, b'&') { 2 } else { 1 })),
        b'|' => Some((TokenKind::Or, if begins(rest, b'|') { 2 } else { 1 })),
        b'(' => Some((TokenKind::OpenParen, 1)),
        b')' => Some((TokenKind::CloseParen, 1)),
        b'-' | b'=' if begins(rest, b'>') => Some((TokenKind::Implies, 2)),
        b'<' if (begins(rest, b'-') || begins(rest, b'=')) && begins_second(rest, b'>') => {
            Some((TokenKind::Iff, 3))
        }
        _ => None,
    }
}

fn passes(first: bool, ch: char) -> bool
    ensures { result ≡ passes first ch }
{
    if first {
        unicode_ident::is_xid_start(ch) || ch == '_'
    } else {
        unicode_ident::is_xid_continue(ch)
    }
}

/// The length of the character of a word that stands at the front, or 0.
fn front_char(first: bool, text: &[u8]) -> usize
    ensures { FrontChar first text.now result }
{
    let (found, size) = bstr::decode_utf8(text);
    match found {
        Some(ch) if passes(first, ch) => size,
        _ => 0,
    }
}

/// The length of the longest word at the front, or 0.
pub fn front_word(text: &[u8]) -> usize
    ensures { FrontWord text.now result }
{
    let mut len = front_char(true, text);
    if len == 0 {
        return 0;
    }
    let mut size = front_char(false, &text[len..]);
    while size > 0 {
        len += size;
        size = front_char(false, &text[len..]);
    }
    len
}

/// What a word is.
pub fn word_kind(word: &[u8]) -> TokenKind
    ensures { result ≡ word_kind word.now }
{
    match word {
        b"true" | b"True" => TokenKind::True,
        b"false" | b"False" => TokenKind::False,
        b"X" => TokenKind::Unary(UnaryWord::X),
        b"wX" => TokenKind::Unary(UnaryWord::WX),
        b"F" => TokenKind::Unary(UnaryWord::F),
        b"G" => TokenKind::Unary(UnaryWord::G),
        b"Y" => TokenKind::Unary(UnaryWord::Y),
        b"Z" => TokenKind::Unary(UnaryWord::Z),
        b"O" => TokenKind::Unary(UnaryWord::O),
        b"H" => TokenKind::Unary(UnaryWord::H),
        b"U" => TokenKind::Binary(BinaryWord::U),
        b"R" => TokenKind::Binary(BinaryWord::R),
        b"W" => TokenKind::Binary(BinaryWord::W),
        b"M" => TokenKind::Binary(BinaryWord::M),
        b"S" => TokenKind::Binary(BinaryWord::S),
        b"T" => TokenKind::Binary(BinaryWord::T),
        _ => TokenKind::Identifier,
    }
}

fn digit_at(text: &[u8], place: usize) -> Option<u8>
    ensures value { result ≡ digit_at text.now place }
    ensures digit { IfSome result (λ x. (x ≤ 9) × (place < length text.now)) }
{
    if place >= text.len() {
        return None;
    }
    if !text[place].is_ascii_digit() {
        return None;
    }
    Some(text[place] - b'0')
}

/// The number from 0 to 255 at the front, without leading zeros, and its length.
fn front_number(text: &[u8]) -> Option<(u8, usize)>
    ensures number { result ≡ front_number text.now }
    ensures within { IfSome result (λ r. r.1 ≤ length text.now) }
{
    let first = digit_at(text, 0)?;
    let Some(second) = digit_at(text, 1) else {
        return Some((first, 1));
    };
    if first == 0 {
        return None;
    }
    let Some(third) = digit_at(text, 2) else {
        return Some((10 * first + second, 2));
    };
    let number = 100 * first as u32 + 10 * second as u32 + third as u32;
    if number <= 255 {
        Some((number as u8, 3))
    } else {
        None
    }
}

/// The number between brackets at the front, as `[2]`, and the length of it all.
fn front_times(text: &[u8]) -> Option<(u8, usize)>
    ensures times { result ≡ front_times text.now }
    ensures within { IfSome result (λ r. r.1 ≤ length text.now) }
{
    if !begins(text, b'[') {
        return None;
    }
    let inner = &text[1..];
    let (n, len) = front_number(inner)?;
    if begins(&inner[len..], b']') {
        Some((n, len + 2))
    } else {
        None
    }
}

/// The two numbers between brackets at the front, as `[1,3]`, and the length of it all.
fn front_range(text: &[u8]) -> Option<(u8, u8, usize)>
    ensures range { result ≡ front_range text.now }
    ensures within { IfSome result (λ r. r.2 ≤ length text.now) }
{
    if !begins(text, b'[') {
        return None;
    }
    let inner = &text[1..];
    let (a, first) = front_number(inner)?;
    if !begins(&inner[first..], b',') {
        return None;
    }
    let (b, second) = front_number(&inner[first + 1..])?;
    if a <= b && begins(&inner[first + 1 + second..], b']') {
        Some((a, b, first + second + 3))
    } else {
        None
    }
}

/// The bounded operator at the front, and its length.
fn front_bounded(text: &[u8]) -> Option<(UnaryWord, usize)>
    ensures { result ≡ front_bounded text.now }
{
    if text.is_empty() {
        return None;
    }
    let rest = &text[1..];
    match text[0] {
        b'X' => {
            let (n, len) = front_times(rest)?;
            Some((UnaryWord::XTimes(n), len + 1))
        }
        b'Y' => {
            let (n, len) = front_times(rest)?;
            Some((UnaryWord::YTimes(n), len + 1))
        }
        b'F' => {
            let (a, b, len) = front_range(rest)?;
            Some((UnaryWord::FIn(a, b), len + 1))
        }
        b'G' => {
            let (a, b, len) = front_range(rest)?;
            Some((UnaryWord::GIn(a, b), len + 1))
        }
        b'O' => {
            let (a, b, len) = front_range(rest)?;
            Some((UnaryWord::OIn(a, b), len + 1))
        }
        b'H' => {
            let (a, b, len) = front_range(rest)?;
            Some((UnaryWord::HIn(a, b), len + 1))
        }
        _ => None,
    }
}

/// The longest token at the front: its kind and its length.
pub fn front_token(text: &[u8]) -> Option<(TokenKind, usize)>
    ensures some { IfSome result (λ r. (r.1 ≤ length text.now)
        × IsLongest r.0 (take r.1 text.now) (drop r.1 text.now)) }
    ensures none { IfNone result (BeginsNone text.now) }
{
    if let Some((kind, len)) = front_sign(text) {
        return Some((kind, len));
    }
    if let Some((word, len)) = front_bounded(text) {
        return Some((TokenKind::Unary(word), len));
    }
    let len = front_word(text);
    if len == 0 {
        return None;
    }
    Some((word_kind(&text[..len]), len))
}
