// An entry of a closure as a node of a formula. Its children are entries before it, by their numbers, and not
// nodes of a table: entries share their parts, and a table's trees do not.
ghost use Rattle.std.specs.Prelude.{◌≡◌, length};
ghost use Rattle.ltl_closure.specs.Entries.{IsNumber, entry_at};
ghost use Rattle.claims.specs.Between.{width};
ghost use Rattle.claim_reading.specs.Shown.{is_true_entry, is_false_entry, node_by, HasLeft, IsNodeOf};

use ltl_closure::{Closure, Entry};
use ltl_syntax::{BinaryOp, Node, UnaryOp};

/// The node of an entry. `true U a` is `F a`, and so on.
pub fn node_of(closure: &Closure<'_>, number: u32) -> Node
    requires { IsNumber (width closure.now.formula) number }
    ensures { IsNodeOf closure.now.names closure.now.formula number result }
{
    let entries = closure.entries();
    form_of(entries, entries[number as usize - 1])
}

fn form_of(entries: &[Entry], entry: Entry) -> Node
    requires { HasLeft (length entries.now) entry }
    ensures { result ≡ node_by entries.now entry }
{
    match entry {
        Entry::True => Node::Const(true),
        Entry::False => Node::Const(false),
        Entry::Letter(letter) => Node::Letter(letter),
        Entry::Fresh(letter) => Node::Fresh(letter),
        Entry::NotLetter(letter) => Node::Unary(UnaryOp::Not, letter),
        Entry::And(left, right) => Node::Binary(BinaryOp::And, left, right),
        Entry::Or(left, right) => Node::Binary(BinaryOp::Or, left, right),
        Entry::Until { left, right, .. } if is_true(entries, left) => {
            Node::Unary(UnaryOp::Eventually, right)
        }
        Entry::Until { left, right, .. } => Node::Binary(BinaryOp::Until, left, right),
        Entry::Release { left, right, .. } if is_false(entries, left) => {
            Node::Unary(UnaryOp::Always, right)
        }
        Entry::Release { left, right, .. } => Node::Binary(BinaryOp::Release, left, right),
        Entry::Since { left, right, .. } if is_true(entries, left) => {
            Node::Unary(UnaryOp::Once, right)
        }
        Entry::Since { left, right, .. } => Node::Binary(BinaryOp::Since, left, right),
        Entry::Trigger { left, right, .. } if is_false(entries, left) => {
            Node::Unary(UnaryOp::Historically, right)
        }
        Entry::Trigger { left, right, .. } => Node::Binary(BinaryOp::Trigger, left, right),
        Entry::Next {
            argument,
            weak: true,
        } => Node::Unary(UnaryOp::WeakNext, argument),
        Entry::Next {
            argument,
            weak: false,
        } => Node::Unary(UnaryOp::Next, argument),
        Entry::Yesterday {
            argument,
            weak: true,
        } => Node::Unary(UnaryOp::WeakYesterday, argument),
        Entry::Yesterday {
            argument,
            weak: false,
        } => Node::Unary(UnaryOp::Yesterday, argument),
    }
}

fn is_true(entries: &[Entry], number: u32) -> bool
    requires { IsNumber (length entries.now) number }
    ensures { result ≡ is_true_entry (entry_at entries.now number) }
{
    matches!(entries[number as usize - 1], Entry::True)
}

fn is_false(entries: &[Entry], number: u32) -> bool
    requires { IsNumber (length entries.now) number }
    ensures { result ≡ is_false_entry (entry_at entries.now number) }
{
    matches!(entries[number as usize - 1], Entry::False)
}
