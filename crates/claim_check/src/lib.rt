//! Judges certificates of claims: whether one is lawful for a formula and a kind of trace.
#![tactic(auto)]

mod base;
mod certificate;
mod checking;
mod judging;
pub mod laws;
mod layer;
mod opening;
mod reason;
mod step_list;
mod taking;
mod targets;

pub use certificate::{Certificate, HintedLines, Layer};
pub use checking::check;
pub use reason::{CertificateFault, ClaimVerdict, LayerFault};
pub use step_list::push_step_list;
