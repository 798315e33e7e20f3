//! Tests of what is said of formulas on traces: where they hold, monitors, and formulas without past
//! operators.
#![tactic(auto)]

#[cfg(test)]
mod evaluation;
#[cfg(test)]
mod formulas;
#[cfg(test)]
mod monitors;
#[cfg(test)]
mod past_removed;
