// Which lines are forgotten, and when. Once enough were learnt since some were forgotten last, the better
// half of those that are left stays. A line is the better the fewer levels its literals had when it was
// learnt, and then the shorter it is; but all that the hints of these new lines name are better than the
// others, and a line of two levels or two literals stays for good. Each time more lines have to come first,
// so a search that needs many at once has them in the end. A question begins with all lines, and if it is a
// long one, forgets again what was forgotten before. After Audemard and Simon, Predicting learnt clauses
// quality in modern SAT solvers (2009); that what hints name goes last is ours.
ghost use Rattle.std.specs.Prelude.{◌≡◌, ◌⊎◌, false};
ghost use Rattle.cdcl_state.specs.StateValue.{with_all_lines};

use cdcl_state::{State, is_marked};
use clause_log::LogView;
use cnf_base::Hint;
use std::alloc::{AllocError, Global};

/// The number of lines that are learnt before the first are forgotten, in all questions together.
const FIRST: u64 = 2500;

/// The number of lines by which that grows each time.
const MORE: u64 = 300;

/// Levels and literals are told apart below this number.
const MANY: usize = 256;

/// What is known of the lines, as far as it decides which are forgotten, and when.
#[derive(Drop)]
pub struct Retention {
    /// The number of lines that were there when some were forgotten last.
    reduced_at: u64,
    /// The number of further lines after which some are forgotten again.
    interval: u64,
    /// Whether the lines that were forgotten before this question are heeded in it.
    heeds_all: bool,
    /// Under the number of a line, how many levels it had. None is known of a line that is not learnt in a
    /// search, and of one behind the last.
    levels: Vec<u32>,
    /// Under the number of a line, whether it stayed when some were forgotten last.
    kept: Vec<bool>,
}

impl Retention {
    /// No line is known.
    pub fn new(alloc: Global) -> Self {
        Retention {
            reduced_at: 0,
            interval: FIRST,
            heeds_all: true,
            levels: Vec::new(alloc),
            kept: Vec::new(alloc),
        }
    }

    /// A question begins, which heeds all lines. Answers whether lines were forgotten in the one before.
    pub fn begin(&mut self) -> bool {
        let forgot = !self.heeds_all;
        self.heeds_all = true;
        forgot
    }

    /// Notes of how many levels the line is that is learnt next. The places of the trail are those of its
    /// literals' opposites, the last first.
    pub fn note(&mut self, state: &State, places: &[usize]) -> Result<(), AllocError> {
        let line = state.log().view().lines().saturating_add(1);
        self.levels.resize(line as usize, 0)?;
        self.levels.push(count_levels(state, places))?;
        Ok(())
    }

    /// Forgets lines where it is time, and else those again that were forgotten before this question.
    pub fn reduce(&mut self, state: &mut State, alloc: Global) -> Result<(), AllocError>
        ensures { (state.new ≡ state.old) ⊎ (state.new ≡ with_all_lines state.old false) }
    {
        let lines = state.log().view().lines();
        self.kept.resize((lines as usize).saturating_add(1), true)?;
        if lines.saturating_sub(self.reduced_at) >= self.interval {
            self.choose(alloc, &state.log().view())?;
            self.reduced_at = lines;
            self.interval = self.interval.saturating_add(MORE);
        } else if self.reduced_at == 0 || !self.heeds_all {
            return Ok(());
        }
        self.heeds_all = false;
        state.forget(alloc, &self.kept)
    }

    /// Keeps the better half of the lines that are kept.
    fn choose(&mut self, alloc: Global, log: &LogView<'_>) -> Result<(), AllocError> {
        let named = named_since(alloc, log, self.reduced_at)?;
        let counts = self.count(alloc, log, &named)?;
        let last = middle(&counts);
        for place in 0..log.lines() {
            let line = place + 1;
            if self.rank(line, log.literals(line).len(), &named) > last {
                set_mark(&mut self.kept, line, false);
            }
        }
        Ok(())
    }

    /// How many lines that are kept have each rank.
    fn count(
        &self,
        alloc: Global,
        log: &LogView<'_>,
        named: &[bool],
    ) -> Result<Vec<u64>, AllocError> {
        let mut counts: Vec<u64> = vec![in alloc; 0; 2 * MANY * MANY]?;
        for place in 0..log.lines() {
            let line = place + 1;
            let rank = self.rank(line, log.literals(line).len(), named);
            if is_marked(&self.kept, line) && rank < counts.len() {
                counts[rank] = counts[rank].saturating_add(1);
            }
        }
        Ok(counts)
    }

    /// The rank of a line with this number of literals: the less, the better it is.
    fn rank(&self, line: u64, literals: usize, named: &[bool]) -> usize {
        let levels = match self.levels.get(line as usize) {
            Some(levels) => *levels as usize,
            None => 0,
        };
        if levels <= 2 || literals <= 2 {
            return 0;
        }
        let rank = levels.min(MANY - 1) * MANY + literals.min(MANY - 1);
        if is_marked(named, line) {
            return rank;
        }
        MANY * MANY + rank
    }
}

/// How many levels the entries at these places of the trail have. The places fall.
fn count_levels(state: &State, places: &[usize]) -> u32 {
    let mut count: u32 = 0;
    let mut last: usize = 0;
    for place in places {
        let level = state.level_at(*place);
        if count == 0 || level != last {
            count = count.saturating_add(1);
        }
        last = level;
    }
    count
}

/// How many lines there are.
fn total(counts: &[u64]) -> u64 {
    let mut total: u64 = 0;
    for count in counts {
        total = total.saturating_add(*count);
    }
    total
}

/// The least rank up to which there are at least half of the lines.
fn middle(counts: &[u64]) -> usize {
    let half = total(counts).div_ceil(2);
    let mut before: u64 = 0;
    for rank in 0..counts.len() {
        before = before.saturating_add(counts[rank]);
        if before >= half {
            return rank;
        }
    }
    counts.len()
}

/// Sets the line's mark, where there is one for it.
fn set_mark(marks: &mut [bool], line: u64, value: bool) {
    if (line as usize) < marks.len() {
        marks[line as usize] = value;
    }
}

/// Marks the lines that the hints name.
fn mark_hints(marks: &mut [bool], hints: &[Hint]) {
    for hint in hints {
        match *hint {
            Hint::Clause(_) => {}
            Hint::Line(line) => set_mark(marks, line, true),
        }
    }
}

/// Marks under the lines' numbers: of those that are named by hints of the lines behind the first `from`.
fn named_since(alloc: Global, log: &LogView<'_>, from: u64) -> Result<Vec<bool>, AllocError> {
    let lines = log.lines();
    let mut named = vec![in alloc; false; (lines as usize).saturating_add(1)]?;
    for place in from..lines {
        mark_hints(&mut named, log.hints(place + 1));
    }
    Ok(named)
}
