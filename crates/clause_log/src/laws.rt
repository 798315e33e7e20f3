// What holds of every log, for the crates above: each law is a call that does nothing.
ghost use Rattle.clause_log.specs.LogValue.{LinesFollow};

/// What satisfies the inputs of a log satisfies each of its lines.
pub fn lines_follow()
    ensures { LinesFollow }
{}
