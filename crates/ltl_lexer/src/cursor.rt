// A cursor goes over a text token by token: it passes the white space, takes the longest token that begins
// behind it, and stops for good at a byte that begins none. All tokens of a text are what it gives from the
// first byte on.
ghost use Rattle.std.specs.Prelude.{◌≡◌, ◌↔◌, ◌≤◌, length, Some, None, IfOk, IfErr, IsNone};
ghost use Rattle.ltl_lexer.specs.Tokens.{Remaining, Advances, AreWhite, AreTokens, IsLexRefusal};
ghost use Rattle.ltl_lexer.specs.declared.cursor.LexRefused.TheVariants.{NoMemory};

use crate::scan::{front_token, white_len};
use crate::token::Token;
use std::alloc::{AllocFailed, Global};
use std::marker::Model;

/// The byte, counted from 0, at which neither white space nor a token begins.
#[derive(Clone, Copy, PartialEq, Eq, Debug, Drop)]
pub struct LexFault {
    pub byte: u32,
}

/// Why a text has no tokens: the byte of its first fault, or want of memory.
#[derive(Clone, Copy, PartialEq, Eq, Debug, Drop)]
pub enum LexRefused {
    Lexical(u32),
    NoMemory,
}

impl<T: Drop> From<AllocFailed<T>> for LexRefused {
    ghost from_gives = { λ _ e. e ≡ NoMemory };

    fn from(_: AllocFailed<T>) -> Self {
        LexRefused::NoMemory
    }
}

/// A place in a text of at most 1,048,576 bytes. It takes no memory.
#[derive(Drop)]
pub struct Cursor<'t> {
    text: &'t [u8],
    place: usize,
}

impl<'t> Model for Cursor<'t> {
    ghost use Rattle.std.specs.Prelude.{drop, length, ◌≤◌};
    ghost use Rattle.ltl_lexer.specs.Tokens.{Remaining};

    ghost Value = { Remaining };

    ghost view = { λ c. record { place = c.place; rest = drop c.place c.text.now } };

    ghost invariant = { λ c. (c.place ≤ length c.text.now) × (length c.text.now ≤ 1048576) };
}

impl<'t> Cursor<'t> {
    /// A cursor before the first byte.
    pub fn new(text: &'t [u8]) -> Cursor<'t>
        requires { length text.now ≤ 1048576 }
        ensures { result ≡ record { place = 0; rest = text.now } }
    {
        Cursor { text, place: 0 }
    }

    /// The next token, or the byte of the fault; nothing where only white space is left, and behind a fault.
    pub fn next(&mut self) -> Option<Result<Token, LexFault>>
        ensures moves { Advances self.old result self.new }
        ensures ends { IsNone result ↔ AreWhite self.old.rest }
    {
        let start = self.place + white_len(&self.text[self.place..]);
        if start == self.text.len() {
            self.place = start;
            return None;
        }
        let Some((kind, len)) = front_token(&self.text[start..]) else {
            self.place = self.text.len();
            return Some(Err(LexFault { byte: start as u32 }));
        };
        self.place = start + len;
        Some(Ok(Token {
            kind,
            start: start as u32,
            end: (start + len) as u32,
        }))
    }
}

/// All tokens of the text, in order, or the byte of its first fault.
pub fn tokens(alloc: Global, text: &[u8]) -> Result<Vec<Token>, LexRefused>
    requires { length text.now ≤ 1048576 }
    ensures ok { IfOk result (λ v. AreTokens 0 text.now v.items None) }
    ensures err { IfErr result (IsLexRefusal text.now) }
{
    let mut cursor = Cursor::new(text);
    let mut found = Vec::new(alloc);
    while let Some(next) = cursor.next() {
        match next {
            Ok(token) => found.push(token)?,
            Err(fault) => return Err(LexRefused::Lexical(fault.byte)),
        }
    }
    Ok(found)
}
