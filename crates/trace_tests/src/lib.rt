//! Tests of traces: their text, and their pictures.
#![tactic(auto)]

#[cfg(test)]
mod pictures;
#[cfg(test)]
mod traces;
