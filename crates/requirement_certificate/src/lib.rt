//! The certificate of an answer that says that there is no trace, with the formula that it refutes: a text
//! that can be checked elsewhere.
#![tactic(auto)]

mod choosing;
pub mod laws;
mod verifying;
mod writing;

pub use verifying::is_verified;
pub use writing::certificate;
