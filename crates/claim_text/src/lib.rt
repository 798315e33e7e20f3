//! The text of a certificate of claims, read and written.
#![tactic(auto)]

mod draft;
pub mod laws;
mod place;
mod reading;
mod refused;
mod scanning;
mod writing;

pub use reading::read;
pub use refused::TextRefused;
pub use writing::append;
