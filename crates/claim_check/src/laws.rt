//! Laws of verdicts. The function is empty: its contract is the law.
ghost use Rattle.claim_check.specs.Laws.{VerdictIsThere, VerdictIsOne};

/// There is one verdict on each certificate.
pub fn verdicts()
    ensures there { VerdictIsThere }
    ensures one { VerdictIsOne }
{}
