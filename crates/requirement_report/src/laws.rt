//! Laws of what can be shown: contracts of functions without an effect, which a proof cites by a call.
ghost use Rattle.requirement_report.specs.Shown.{LawfulCanBeShown, ReportsCanBeShown};

use claim_reading::laws::nevers_hold;

/// Whatever has a lawful certificate can be shown.
pub fn lawful_can_be_shown()
    ensures { LawfulCanBeShown }
{
    nevers_hold();
}

/// Each answer of a right report can be shown.
pub fn reports_can_be_shown()
    ensures { ReportsCanBeShown }
{
    lawful_can_be_shown();
}
