//! The text of a certificate: reading it whole or item by item, writing it, and which of its lines are live
//! where.
#![tactic(auto)]

mod blocks;
mod finding;
pub mod glance;
pub mod item;
mod joining;
pub mod laws;
mod marks;
mod passing;
pub mod printing;
pub mod reader;
pub mod refused;
mod scanning;
mod shared;
mod skipping;
pub mod spelled;
mod uses;
pub mod view;
pub mod writing;

pub use glance::Form;
pub use item::CertItem;
pub use reader::Items;
pub use refused::CertRefused;
pub use scanning::form;
pub use spelled::{Hints, LineNumbers, Literals};
pub use view::CertView;
pub use writing::{append, write};
