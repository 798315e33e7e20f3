//! Tests of the programs: command words, output texts, batches, and what each shows for words and bytes.
#![tactic(auto)]

#[cfg(test)]
mod batches;
#[cfg(test)]
mod calls;
#[cfg(test)]
mod devices;
#[cfg(test)]
mod documents;
#[cfg(test)]
mod gates;
#[cfg(test)]
mod refuter;
#[cfg(test)]
mod reports;
#[cfg(test)]
mod rings;
#[cfg(test)]
mod shown;
#[cfg(test)]
mod words;
