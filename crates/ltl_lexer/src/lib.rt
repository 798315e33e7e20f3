//! The tokens of a formula text, by longest match and in one pass over its bytes.
#![tactic(auto)]

mod cursor;
pub mod laws;
mod scan;
mod token;

pub use cursor::{Cursor, LexFault, LexRefused, tokens};
pub use token::{BinaryWord, Token, TokenKind, UnaryWord};
