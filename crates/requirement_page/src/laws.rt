//! Laws of pages: contracts of functions without an effect, which a proof cites by a call.
ghost use Rattle.requirement_page.specs.Laws.{NothingRuns};

/// What somebody wrote opens no mark on the page and closes none. A page has no marks but its own, of which
/// none is a script, and it begins with the policy that no script is to run.
pub fn nothing_runs()
    ensures { NothingRuns }
{}
