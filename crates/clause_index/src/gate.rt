// The gates of entries: an entry's letter is true exactly where its operator says so of the letters of its
// operands and its request.
ghost use Rattle.std.specs.Prelude.{◌≡◌, ◌+◌, ◌-◌, ◌<◌, ◌≤◌, [], ◌++◌, length, slice_index_or, OnOk, OnErr};
ghost use Rattle.ltl_closure.specs.Entries.{IsNumber, entry_at};
ghost use Rattle.enc_layout.specs.Letters.{Fits};
ghost use Rattle.enc_layout.specs.Clauses.{layout_of, gates_part};
ghost use Rattle.enc_layout.specs.Numbered.{IsInside, Extends};
ghost use Rattle.clause_index.specs.Literals.{literals};
ghost use Rattle.clause_index.specs.Rows.{row_at, negation_rows, and_rows, strong_rows, gate_rows};
ghost use Rattle.clause_index.specs.Samples.{AreSamples};
ghost use Rattle.clause_index.specs.ByNumber.{entry_gate, gate_size, gates_before};

use crate::appending::push;
use crate::found::Found;
use crate::operands::operands_of;
use crate::samples::{Samples, sample_start};
use cnf_base::{ClauseList, Literal};
use enc_layout::Layout;
use ltl_closure::{Closure, Entry};
use std::alloc::AllocError;

#[tactic(auto, using(crate::proofs::Picks::last_of_two))]
fn negation(gate: Literal, letter: Literal, index: u64) -> Found
    requires { index < 2 }
    ensures { literals result ≡ slice_index_or (negation_rows gate letter) index [] }
{
    if index == 0 {
        return Found::Two(gate, letter);
    }
    Found::Two(gate.opposite(), letter.opposite())
}

/// The gate is: the left operand and the right one. With opposites it is that of "or".
#[tactic(auto, using(crate::proofs::Picks::last_of_three))]
fn conjunction(gate: Literal, left: Literal, right: Literal, index: u64) -> Found
    requires { index < 3 }
    ensures { literals result ≡ slice_index_or (and_rows gate left right) index [] }
{
    if index == 0 {
        return Found::Two(gate.opposite(), left);
    }
    if index == 1 {
        return Found::Two(gate.opposite(), right);
    }
    Found::Three(gate, left.opposite(), right.opposite())
}

/// The gate is: the right operand, or the left one and the request. With opposites it is: the right operand,
/// and the left one or the request.
#[tactic(auto, using(crate::proofs::Picks::last_of_four))]
fn strong(gate: Literal, left: Literal, right: Literal, request: Literal, index: u64) -> Found
    requires { index < 4 }
    ensures { literals result ≡ slice_index_or (strong_rows gate left right request) index [] }
{
    if index == 0 {
        return Found::Two(gate, right.opposite());
    }
    if index == 1 {
        return Found::Three(gate, left.opposite(), request.opposite());
    }
    if index == 2 {
        return Found::Three(gate.opposite(), right, left);
    }
    Found::Three(gate.opposite(), right, request)
}

/// The literals of an entry, of its operands and of its request. One that it does not have is its own.
#[derive(Clone, Copy, Drop)]
pub struct GateLiterals {
    pub gate: Literal,
    pub left: Literal,
    pub right: Literal,
    pub request: Literal,
}

/// A clause of the gate of the entry over these literals, by its index there.
#[tactic(auto, using(crate::proofs::Picks::only))]
fn gate_clause(entry: Entry, of: GateLiterals, index: u64) -> Found
    requires { index < gate_size entry }
    ensures { literals result ≡ slice_index_or (gate_rows entry of) index [] }
{
    match entry {
        Entry::True => Found::One(of.gate),
        Entry::NotLetter(_) => negation(of.gate, of.left, index),
        Entry::And(..) => conjunction(of.gate, of.left, of.right, index),
        Entry::Or(..) => conjunction(
            of.gate.opposite(),
            of.left.opposite(),
            of.right.opposite(),
            index,
        ),
        Entry::Until { .. } | Entry::Since { .. } => {
            strong(of.gate, of.left, of.right, of.request, index)
        }
        Entry::Release { .. } | Entry::Trigger { .. } => strong(
            of.gate.opposite(),
            of.left.opposite(),
            of.right.opposite(),
            of.request.opposite(),
            index,
        ),
        // Letters and requests have no clauses.
        _ => Found::One(of.gate.opposite()),
    }
}

/// Puts the gate of the entry over these literals behind the clauses of the list, of which some may stay
/// after want of memory.
pub fn push_gate(entry: Entry, of: GateLiterals, list: &mut ClauseList) -> Result<(), AllocError>
    ensures ok { OnOk result (list.new ≡ list.old ++ gate_rows entry of) }
    ensures err { OnErr result (Extends list.old list.new) }
{
    'clauses: for index in 0..gate_size(entry) {
        push(&gate_clause(entry, of, index), list)?;
    }
    Ok(())
}

/// A clause of the gate of the entry of a step, by its index there.
fn gate_at(layout: &Layout, step: u32, number: u32, entry: Entry, index: u64) -> Found
    requires few { step ≤ 1000 }
    requires fits { Fits layout.now step }
    requires number { IsNumber layout.now.counts.entries number }
    requires inside { IsInside layout.now.counts.entries entry }
    requires within { index < gate_size entry }
    ensures { literals result ≡ row_at layout.now (entry_gate step number entry) index }
{
    let of = operands_of(number, entry);
    let literals = GateLiterals {
        gate: layout.entry(step, number),
        left: layout.entry(step, of.left),
        right: layout.entry(step, of.right),
        request: layout.entry(step, of.request),
    };
    gate_clause(entry, literals, index)
}

/// How many clauses the gate of an entry has.
pub fn gate_size(entry: Entry) -> u64
    ensures size { result ≡ gate_size entry }
    ensures small { result ≤ 4 }
{
    match entry {
        Entry::True | Entry::False => 1,
        Entry::NotLetter(_) => 2,
        Entry::And(..) | Entry::Or(..) => 3,
        Entry::Until { .. } | Entry::Since { .. } | Entry::Release { .. } | Entry::Trigger { .. } =>
            4,
        Entry::Letter(_) | Entry::Fresh(_) | Entry::Next { .. } | Entry::Yesterday { .. } => 0,
    }
}

/// How many clauses the gates of all entries have.
pub fn gates_count(entries: &[Entry]) -> u32
    requires { length entries.now ≤ 98306 }
    ensures { result ≡ gates_before entries.now (length entries.now) }
{
    let mut count = 0;
    for (k, entry) in entries.iter().enumerate() {
        count += gate_size(*entry) as u32;
    }
    count
}

/// The number of an entry, and the index of a clause of its gate.
#[derive(Clone, Copy, Drop)]
struct GateSpot {
    number: u32,
    index: u64,
}

fn gate_spot(entries: &[Entry], samples: &Samples, index: u64) -> GateSpot
    requires few { length entries.now ≤ 98306 }
    requires samples { AreSamples entries.now samples.now }
    requires within { index < gates_before entries.now (length entries.now) }
    ensures from { gates_before entries.now (result.number - 1) + result.index ≡ index }
    ensures known { IsNumber (length entries.now) result.number }
    ensures within { result.index < gate_size (entry_at entries.now result.number) }
{
    let sample = samples.sample_of(index);
    let mut before = sample_start(samples.apart, sample, entries.len());
    let mut left = index - samples.before[sample] as u64;
    'walk: while left >= gate_size(entries[before]) {
        left -= gate_size(entries[before]);
        before += 1;
    }
    GateSpot {
        number: before as u32 + 1,
        index: left,
    }
}

/// A clause of the gates of all entries, by its index among them.
#[tactic(auto, using(crate::proofs::Gates::gate_row))]
pub fn gates(
    closure: &Closure<'_>,
    layout: &Layout,
    samples: &Samples,
    step: u32,
    index: u64,
) -> Found
    requires samples { AreSamples closure.now.entries samples.now }
    requires own { layout.now ≡ layout_of closure.now }
    requires few { step ≤ 1000 }
    requires fits { Fits layout.now step }
    requires within { index < length (gates_part closure.now.formula step) }
    ensures { literals result ≡ row_at layout.now (gates_part closure.now.formula step) index }
{
    let spot = gate_spot(closure.entries(), samples, index);
    gate_at(
        layout,
        step,
        spot.number,
        closure.entry(spot.number),
        spot.index,
    )
}
