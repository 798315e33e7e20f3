//! Tests of certificates of claims: worked ones, lawful and spoiled, and those that the search finds.
#![tactic(auto)]

#[cfg(test)]
mod building;
#[cfg(test)]
mod searching;
#[cfg(test)]
mod worked;
