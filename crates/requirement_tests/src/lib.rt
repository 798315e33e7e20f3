//! Tests of documents of requirements: what a text is read as and how it is refused, questions about several
//! formulas, what is answered about a document, the text, the JSON and the page of a report, and
//! certificates.
#![tactic(auto)]

#[cfg(test)]
mod answers;
#[cfg(test)]
mod certificates;
#[cfg(test)]
mod cores;
#[cfg(test)]
mod documents;
#[cfg(test)]
mod faces;
#[cfg(test)]
mod failures;
#[cfg(test)]
mod pages;
#[cfg(test)]
mod questions;
#[cfg(test)]
mod reading;
#[cfg(test)]
mod refusals;
#[cfg(test)]
mod reporting;
#[cfg(test)]
mod telling;
#[cfg(test)]
mod texts;
#[cfg(test)]
mod workers;
