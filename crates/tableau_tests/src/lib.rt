//! Tests of the tableau: closures, runs, clauses by lists and by numbers, depths, searches, cores and
//! systems.
#![tactic(auto)]

#[cfg(test)]
mod closures;
#[cfg(test)]
mod cores;
#[cfg(test)]
mod depths;
#[cfg(test)]
mod formulas;
#[cfg(test)]
mod lists;
#[cfg(test)]
mod looks;
#[cfg(test)]
mod numbered;
#[cfg(test)]
mod runs;
#[cfg(test)]
mod searches;
#[cfg(test)]
mod steps;
#[cfg(test)]
mod systems;
