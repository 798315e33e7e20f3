// Forgetting: the inputs and some of the lines are watched, and the other lines rest in the log, where the
// trail and the hints of later lines still name them. The lists of watchers grow with all that was ever
// learnt, most of which is of no use any more, so a long search is faster without it. `forget` gathers what
// stays anew. `restore` puts the lines that are missing among the watched ones, after the others, which stay
// where they are. After either each list has to be visited again, since the first two literals of a clause
// may be false. After Een and Sorensson, An extensible SAT-solver (2003).
ghost use Rattle.std.specs.Prelude.{◌≡◌, OnErr, OnOk, true, false};
ghost use Rattle.cdcl_state.specs.StateValue.{with_all_lines};

use crate::gather::{complete, gather};
use crate::state::State;
use std::alloc::{AllocError, Global};

impl State {
    /// Watches the inputs, and of the lines that are watched now those alone that are marked. Lines are
    /// numbered from 1: the first mark says nothing, and a line behind the last mark is forgotten.
    pub fn forget(&mut self, alloc: Global, kept: &[bool]) -> Result<(), AllocError>
        ensures forgot { OnOk result (self.new ≡ with_all_lines self.old false) }
        ensures refused { OnErr result (self.new ≡ self.old) }
    {
        let watches = gather(alloc, &self.watches, kept)?;
        self.watches = watches;
        self.propagated = 0;
        self.lasting = 0;
        self.all_lines = false;
        Ok(())
    }

    /// Watches all lines again, if some were forgotten.
    pub fn restore(&mut self, alloc: Global) -> Result<(), AllocError>
        ensures all_lines { OnOk result (self.new ≡ with_all_lines self.old true) }
        ensures refused { OnErr result (self.new ≡ self.old) }
    {
        if self.all_lines {
            return Ok(());
        }
        // First, since some lines may have come where memory is wanting for the others.
        self.propagated = 0;
        self.lasting = 0;
        complete(alloc, &self.log.view(), &mut self.marks, &mut self.watches)?;
        self.all_lines = true;
        Ok(())
    }
}
