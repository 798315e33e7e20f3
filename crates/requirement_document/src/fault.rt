// Why a text is no document, and where.
ghost use Rattle.std.specs.Prelude.{◌≡◌};
ghost use Rattle.requirement_document.specs.declared.fault.Refused.TheVariants.{NoMemory};
ghost use Rattle.requirement_document.specs.declared.fault.Refusal.TheVariants as refusals;

use std::alloc::{AllocError, AllocFailed};

/// A key of the document whose value is an array of entries.
#[derive(Clone, Copy, Debug, PartialEq, Eq)]
pub enum Section {
    Define,
    Assume,
    Require,
    Allow,
    Ensure,
    Behaviour,
}

/// A key that a document or an entry may have.
#[derive(Clone, Copy, Debug, PartialEq, Eq)]
pub enum Key {
    Traces,
    Section(Section),
    Name,
    Text,
    Formula,
    States,
    Stem,
    Loop,
}

/// What is wrong.
#[derive(Debug, Drop)]
pub enum Cause {
    /// The document has more than 4,194,304 bytes, or the formula of the entry more than 1,048,576.
    TooLong,
    /// The document is no UTF-8 from this byte on, counted from 0.
    NotText(u64),
    /// The document is no TOML. Line and column count from 1.
    NotToml {
        line: u64,
        column: u64,
        message: String,
    },
    /// The document or the entry has a key that it may not have.
    UnknownKey(String),
    /// The value of the key is not of the form that the key wants.
    Unfit(Key),
    /// The section has more than 1,024 entries. A short entry may be a large formula by what is defined, so
    /// without this limit a document could take all memory.
    TooMany(Section),
    /// The entry is no table.
    NotTable,
    /// The entry has not the key.
    Missing(Key),
    /// The name is empty.
    EmptyName,
    /// An entry before has the name: a definition for a definition, an item or a behaviour for the others.
    NameTwice,
    /// The name of the definition is no letter of formulas.
    NoLetter,
    /// No token begins at this byte of the formula, counted from 0.
    Lexical(u32),
    /// The token at this byte of the formula may not stand there; the length of the formula where it ends too
    /// early.
    Grammar(u32),
    /// The size of the formula, as it is written or with what is defined put in, which is above 16,384.
    Size(u64),
    /// The behaviour has neither `states` alone, nor `stem` and `loop` alone.
    Form,
    /// The finite trace has no state.
    NoState,
    /// The loop has no state.
    EmptyLoop,
}

/// The whole document, or an entry of a section: its number from 1, and its name and its formula as they are
/// written, each where the entry has a text for it. The bytes of `Lexical` and `Grammar` count in that
/// formula.
#[derive(Debug, Drop)]
pub enum Place {
    Document,
    Entry {
        section: Section,
        number: u64,
        name: Option<String>,
        formula: Option<String>,
    },
}

/// A fault of a document: where it stands, and what it is. Of several the first is told.
#[derive(Debug, Drop)]
pub struct DocumentFault {
    pub place: Place,
    pub cause: Cause,
}

/// Why there is no document: a fault of the text, or want of memory, which says nothing of the text.
#[derive(Debug, Drop)]
pub enum Refused {
    Fault(DocumentFault),
    NoMemory,
}

impl From<AllocError> for Refused {
    ghost from_gives = { λ _ e. e ≡ NoMemory };

    fn from(_: AllocError) -> Refused {
        Refused::NoMemory
    }
}

impl<T: Drop> From<AllocFailed<T>> for Refused {
    ghost from_gives = { λ _ e. e ≡ NoMemory };

    fn from(_: AllocFailed<T>) -> Refused {
        Refused::NoMemory
    }
}

/// Why an entry is not read: what is wrong with it, or want of memory.
#[derive(Drop)]
pub enum Refusal {
    Cause(Cause),
    NoMemory,
}

impl From<AllocError> for Refusal {
    ghost from_gives = { λ _ e. e ≡ refusals.NoMemory };

    fn from(_: AllocError) -> Refusal {
        Refusal::NoMemory
    }
}

impl<T: Drop> From<AllocFailed<T>> for Refusal {
    ghost from_gives = { λ _ e. e ≡ refusals.NoMemory };

    fn from(_: AllocFailed<T>) -> Refusal {
        Refusal::NoMemory
    }
}
