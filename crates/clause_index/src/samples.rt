// How many clauses stand before the gates of some entries, evenly chosen, so that a clause among the gates is
// found by halves and a short walk. The table has one size for all formulas, and takes no memory.
ghost use Rattle.std.specs.Prelude.{◌≡◌, ◌+◌, ◌*◌, ◌<◌, ◌≤◌, length, min, slice_index_or};
ghost use Rattle.clause_index.specs.ByNumber.{gates_before};
ghost use Rattle.clause_index.specs.Samples.{sample_start, AreSamples};

use crate::gate::gate_size;
use ltl_closure::Entry;

/// The clauses before the gate of every entry that is a multiple of `apart` behind the first.
#[derive(Drop)]
pub struct Samples {
    pub apart: u32,
    pub before: [u32; 256],
}

/// How many entries there are before a sample.
pub fn sample_start(apart: u32, sample: usize, entries: usize) -> usize
    requires apart { apart ≤ 98307 }
    requires sample { sample ≤ 256 }
    ensures { result ≡ min (sample * apart) entries }
{
    let start = sample * apart as usize;
    if start < entries { start } else { entries }
}

/// The clauses of the gates before the entry of index `to`, where `count` are before the one of index `from`.
fn gates_between(entries: &[Entry], from: usize, to: usize, count: u32) -> u32
    requires few { length entries.now ≤ 98306 }
    requires order { from ≤ to }
    requires within { to ≤ length entries.now }
    requires count { count ≡ gates_before entries.now from }
    ensures { result ≡ gates_before entries.now to }
{
    let mut total = count;
    for k in from..to {
        total += gate_size(entries[k]) as u32;
    }
    total
}

impl Samples {
    pub fn of(entries: &[Entry]) -> Samples
        requires { length entries.now ≤ 98306 }
        ensures { AreSamples entries.now result }
    {
        let apart = entries.len() as u32 / 256 + 1;
        let mut before = [0; 256];
        let mut count = 0;
        for sample in 0..256usize {
            before[sample] = count;
            let from = sample_start(apart, sample, entries.len());
            let to = sample_start(apart, sample + 1, entries.len());
            count = gates_between(entries, from, to, count);
        }
        Samples { apart, before }
    }

    /// The last sample that has no more clauses before it than the index says, by halves.
    pub fn sample_of(&self, index: u64) -> usize
        requires { slice_index_or self.now.before 0 0 ≤ index }
        ensures known { result < 256 }
        ensures from { slice_index_or self.now.before result 0 ≤ index }
    {
        let mut low = 0;
        let mut high = 256usize;
        'halve: while low + 1 < high {
            let middle = (low + high) / 2;
            if self.before[middle] as u64 <= index {
                low = middle;
            } else {
                high = middle;
            }
        }
        low
    }
}
