//! Tests of the reading: bytes, formulas, tokens, and the formula that they read as.
#![tactic(auto)]

#[cfg(test)]
mod formulas;
#[cfg(test)]
mod outside;
#[cfg(test)]
mod readings;
#[cfg(test)]
mod tokens;
