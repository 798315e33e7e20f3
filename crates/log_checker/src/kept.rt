// The live lines, ascending by number. What is deleted is only marked, and goes once half of all is marked:
// so a delete costs a binary search for each number at most, and room is kept for no more than twice the
// lines that are live.
ghost use Rattle.std.specs.Prelude.{◌≡◌, ℕ, ◌<◌, ◌≤◌, ◌==◌, not, [], ◌∷◌, length, filter};
ghost use Rattle.std.specs.Prelude.{slice_index_or, OnOk, OnErr, MatchOption, Some, None};
ghost use Rattle.log_checker.specs.Judging.{found, line_number, line_literals, no_line};
ghost use Rattle.log_checker.specs.Kept.{KeptValue, with_line, without, Ascends, number_at, live_of};
ghost use Rattle.log_checker.specs.Kept.{line_of, blank, AreOthers, IsAt};

use crate::judge::NamedLines;
use cert_text::{LineNumbers, Literals};
use std::alloc::{AllocError, Global};
use std::marker::Model;

/// A line that was taken.
#[derive(Drop)]
struct Entry<'t> {
    number: u64,
    literals: Literals<'t>,
    live: bool,
}

/// How many lines were taken, and those that are live.
#[derive(Drop)]
pub struct Kept<'t> {
    lines: u64,
    entries: Vec<Entry<'t>>,
    dead: usize,
}

impl<'t> Model for Kept<'t> {
    ghost use Rattle.log_checker.specs.Kept.{KeptValue, live_of, IsKept};

    ghost Value = { KeptValue };

    ghost view = { λ a. record { lines = a.lines; live = live_of a.entries.items } };

    ghost invariant = { λ a. IsKept a.lines a.entries.items a.dead };
}

/// Where the first place is whose number is not less: from the first of these to the second. Numbers are
/// distinct, so how far this one is from the first and from the last tells how many can stand between. Where
/// little was deleted that is one place.
fn bounds(entries: &Vec<Entry<'_>>, number: u64) -> (usize, usize)
    requires { Ascends 0 entries.now.items }
    ensures order { result.0 ≤ result.1 }
    ensures within { result.1 ≤ length entries.now.items }
    ensures less { (i : ℕ) → i < result.0 → number_at entries.now.items i < number }
    ensures more { (i : ℕ) → result.1 ≤ i → i < length entries.now.items →
        number ≤ number_at entries.now.items i }
{
    let count = entries.len();
    if count == 0 {
        return (0, 0);
    }
    let first = entries[0].number;
    let last = entries[count - 1].number;
    if number <= first {
        return (0, 0);
    }
    if number > last {
        return (count, count);
    }
    let behind = last - number;
    let ahead = number - first;
    let low = ((count - 1) as u64).saturating_sub(behind);
    let high = ahead.min(count as u64);
    (low as usize, high as usize)
}

/// The first place whose number is not less.
fn place_of(entries: &Vec<Entry<'_>>, number: u64) -> usize
    requires { Ascends 0 entries.now.items }
    ensures within { result ≤ length entries.now.items }
    ensures less { (i : ℕ) → i < result → number_at entries.now.items i < number }
    ensures more { (i : ℕ) → result ≤ i → i < length entries.now.items →
        number ≤ number_at entries.now.items i }
{
    let (mut low, mut high) = bounds(entries, number);
    'halves: while low < high {
        let middle = low + (high - low) / 2;
        if entries[middle].number < number {
            low = middle + 1;
        } else {
            high = middle;
        }
    }
    low
}

/// Where the live line of this number stands, if there is one.
fn index_of(entries: &Vec<Entry<'_>>, number: u64) -> Option<usize>
    requires { Ascends 0 entries.now.items }
    ensures { MatchOption result (AreOthers entries.now.items number) (IsAt entries.now.items number) }
{
    let place = place_of(entries, number);
    if place == entries.len() {
        return None;
    }
    if entries[place].number != number {
        return None;
    }
    if !entries[place].live {
        return None;
    }
    Some(place)
}

/// Where the live line stands that has this number of live ones before it.
fn live_place(entries: &Vec<Entry<'_>>, place: u64) -> usize
    requires { place < length (live_of entries.now.items) }
    ensures within { result < length entries.now.items }
    ensures same { line_of (slice_index_or entries.now.items result blank)
        ≡ slice_index_or (live_of entries.now.items) place no_line }
{
    let mut left = place;
    let mut index = 0;
    'entries: while !entries[index].live || left > 0 {
        if entries[index].live {
            left -= 1;
        }
        index += 1;
    }
    index
}

/// Lets go the entries that are marked.
fn drop_marked(entries: &mut Vec<Entry<'_>>)
    ensures { entries.new.items ≡ filter (λ e. e.live) entries.old.items }
{
    entries.retain(|entry| entry.live);
}

impl<'t> Kept<'t> {
    /// No lines.
    pub fn new(alloc: Global) -> Kept<'t>
        ensures { result ≡ record { lines = 0; live = [] } }
    {
        Kept {
            lines: 0,
            entries: Vec::new(alloc),
            dead: 0,
        }
    }

    /// The number of live lines.
    pub fn live(&self) -> u64
        ensures { result ≡ length self.now.live }
    {
        (self.entries.len() - self.dead) as u64
    }

    /// The number of the live line at a place.
    pub fn number(&self, place: u64) -> u64
        requires { place < length self.now.live }
        ensures { result ≡ line_number self.now.live place }
    {
        let index = live_place(&self.entries, place);
        self.entries[index].number
    }

    /// The literals of the live line at a place.
    pub fn literals(&self, place: u64) -> Literals<'t>
        requires { place < length self.now.live }
        ensures { result ≡ line_literals self.now.live place }
    {
        let index = live_place(&self.entries, place);
        self.entries[index].literals.again()
    }

    /// The literals of the line of this number, where it is live.
    pub fn line(&self, number: u64) -> Option<Literals<'t>>
        ensures { MatchOption result (found self.now.live number ≡ None)
            (λ literals. found self.now.live number ≡ Some literals) }
    {
        match index_of(&self.entries, number) {
            None => None,
            Some(index) => Some(self.entries[index].literals.again()),
        }
    }

    /// Takes a line, with the next number. After want of memory, or of numbers, nothing has changed.
    pub fn push(&mut self, literals: Literals<'t>) -> Result<(), AllocError>
        ensures taken { OnOk result (self.new ≡ with_line self.old literals.entry) }
        ensures refused { OnErr result (self.new ≡ self.old) }
    {
        if self.lines == u64::MAX {
            return Err(AllocError);
        }
        let number = self.lines + 1;
        self.entries.push(Entry {
            number,
            literals,
            live: true,
        })?;
        self.lines = number;
        Ok(())
    }

    /// Lets the lines of these numbers go, where they are live.
    pub fn delete(&mut self, lines: LineNumbers<'t>)
        ensures { self.new ≡ without self.old lines.entry }
    {
        let mut rest = lines;
        'numbers: while let Some(number) = rest.next() {
            self.mark(number);
        }
        self.compact();
    }

    /// Marks the line of this number, where it is live.
    fn mark(&mut self, number: u64)
        ensures { self.new ≡ without self.old (number ∷ []) }
    {
        if let Some(index) = index_of(&self.entries, number) {
            self.entries[index].live = false;
            self.dead += 1;
        }
    }

    /// Lets go what is marked, where this is half of all or more.
    fn compact(&mut self)
        ensures { self.new ≡ self.old }
    {
        if self.dead < self.entries.len() - self.dead {
            return;
        }
        drop_marked(&mut self.entries);
        self.dead = 0;
    }
}

impl<'t> NamedLines for Kept<'t> {
    ghost use Rattle.log_checker.specs.Judging.{found};

    type Found = Literals<'t>;

    ghost lines = { λ kept number. found kept.live number };

    fn find(&self, number: u64) -> Option<Literals<'t>> {
        self.line(number)
    }
}
