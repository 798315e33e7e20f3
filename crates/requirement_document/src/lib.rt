//! A document of named requirements, read from its TOML text.
#![tactic(auto)]

mod accepting;
mod behaviours;
mod defining;
mod document;
mod entries;
mod fault;
mod formulas;
mod items;
mod keys;
pub mod laws;
mod names;
mod place;
mod putting;
mod reading;
mod sizes;
mod states;
mod values;
mod whole;
mod words;

pub use document::{Behaviour, Document, Item, Role};
pub use fault::{Cause, DocumentFault, Key, Place, Refused, Section};
pub use reading::read;
pub use words::{key_word, section_word};
