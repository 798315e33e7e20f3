//! All that is asked of a document of requirements: which of its items cannot be met together, what the
//! others say, and which items the recorded behaviours keep.
#![tactic(auto)]

mod asking;
mod checking;
mod conflicts;
mod cores;
mod counting;
mod effort;
mod findings;
mod judging;
pub mod laws;
mod numbers;
mod planning;
mod renumbering;
mod replying;
mod reporting;
mod sharing;

pub use asking::{Asking, Reply};
pub use counting::{Counts, Tally, counts_of};
pub use effort::{Effort, NoWatch, Watch};
pub use findings::{Break, Check, Report, ReportRefused, Scope};
pub use judging::{ReportVerdict, verdict_of};
pub use numbers::{given_numbers, without};
pub use reporting::report_on;
