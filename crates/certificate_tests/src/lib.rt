//! Tests of certificates: their text, their lines, what a log can do without, and whole certificates.
#![tactic(auto)]

#[cfg(test)]
mod checks;
#[cfg(test)]
mod lines;
#[cfg(test)]
mod texts;
#[cfg(test)]
mod trimming;
#[cfg(test)]
mod worked;
