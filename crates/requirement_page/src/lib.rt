//! A report about a document of requirements as one page of HTML that stands alone: the answers with their
//! pictures, letters that may be slips, and the items with links between them. It tells the same report as
//! the text of `requirement_report`: where the text has a block, the page has an article.
#![tactic(auto)]

mod answers;
mod checks;
mod counts;
mod items;
pub mod laws;
mod marks;
mod notes;
mod pictures;
mod places;
mod reasons;
mod slips;
mod style;
mod whole;

pub use whole::page;
