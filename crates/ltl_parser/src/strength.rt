// How strongly the binary operators bind, and on which side a chain of one is grouped.
ghost use Rattle.std.specs.Prelude.{◌≡◌};
ghost use Rattle.ltl_parser.specs.Grammar.{strength, groups_left};
ghost use Rattle.ltl_parser.specs.Standing.{left_bound};

use ltl_syntax::BinaryOp;

/// From 0 for the weakest.
pub fn strength(op: BinaryOp) -> u8
    ensures { result ≡ strength op }
{
    match op {
        BinaryOp::Iff => 0,
        BinaryOp::Implies => 1,
        BinaryOp::Or => 2,
        BinaryOp::And => 3,
        BinaryOp::Until
        | BinaryOp::Release
        | BinaryOp::WeakUntil
        | BinaryOp::StrongRelease
        | BinaryOp::Since
        | BinaryOp::Trigger => 4,
    }
}

fn groups_left(op: BinaryOp) -> bool
    ensures { result ≡ groups_left (strength op) }
{
    matches!(op, BinaryOp::Iff | BinaryOp::Or | BinaryOp::And)
}

/// The least strength of what may stand on the left of the operator without parentheses.
pub fn left_bound(op: BinaryOp) -> u8
    ensures { result ≡ left_bound op }
{
    if groups_left(op) {
        strength(op)
    } else {
        strength(op) + 1
    }
}
