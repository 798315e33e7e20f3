ghost use Rattle.std.specs.Prelude.{IsTrue};
ghost use Rattle.ltl_syntax.specs.Table.{IsPlain};

use ltl_syntax::{
    BinaryOp, FormulaTable, Node, PushRefused, UnaryOp, has_no_fresh, nodes_under, print, replace,
};
use std::process::Abort;

fn is_plain(text: &str) -> bool
    ensures { IsTrue result → IsPlain text.now }
{
    match text.as_bytes() {
        [first, ..] => *first != b'{',
        [] => true,
    }
}

fn name(rt: &impl Abort, table: &mut FormulaTable, text: &str) -> u32 {
    assert!(rt; table.letters() < u32::MAX && is_plain(text));
    table.name(text).expect(rt, "memory")
}

fn push(rt: &impl Abort, table: &mut FormulaTable, node: Node) -> u32 {
    assert!(rt; table.may_push(node));
    table.push(node).expect(rt, "a place")
}

#[test]
fn tells_what_may_be_pushed(rt: HostRuntime) {
    let mut table = FormulaTable::new(rt.alloc());
    let p = name(&rt, &mut table, "p");
    let leaf = push(&rt, &mut table, Node::Letter(p));
    let next = push(&rt, &mut table, Node::Unary(UnaryOp::Next, leaf));
    let other = push(&rt, &mut table, Node::Fresh(7));
    for (node, wanted) in [
        (Node::Const(false), true),
        (Node::Letter(p), true),
        (Node::Letter(1), false),
        (Node::Fresh(u32::MAX), true),
        (Node::Unary(UnaryOp::Not, next), true),
        (Node::Unary(UnaryOp::Not, leaf), false),
        (Node::Unary(UnaryOp::Not, 3), false),
        (Node::Unary(UnaryOp::AlwaysIn(5, 5), next), true),
        (Node::Unary(UnaryOp::AlwaysIn(5, 4), next), false),
        (Node::Binary(BinaryOp::And, next, other), true),
        (Node::Binary(BinaryOp::And, next, next), false),
        (Node::Binary(BinaryOp::And, next, leaf), false),
    ] {
        assert_eq!(rt; table.may_push(node), wanted, "{node:?}");
    }
}

#[test]
fn prints_every_operator(rt: HostRuntime) {
    let mut table = FormulaTable::new(rt.alloc());
    let p = name(&rt, &mut table, "p");
    let q = name(&rt, &mut table, "q");
    let mut root = push(&rt, &mut table, Node::Letter(p));
    for op in [
        UnaryOp::Not,
        UnaryOp::Next,
        UnaryOp::WeakNext,
        UnaryOp::Eventually,
        UnaryOp::Always,
        UnaryOp::Yesterday,
        UnaryOp::WeakYesterday,
        UnaryOp::Once,
        UnaryOp::Historically,
    ] {
        root = push(&rt, &mut table, Node::Unary(op, root));
    }
    for (op, leaf) in [
        (BinaryOp::And, Node::Letter(q)),
        (BinaryOp::Or, Node::Const(true)),
        (BinaryOp::Implies, Node::Const(false)),
        (BinaryOp::Iff, Node::Fresh(70)),
        (BinaryOp::Until, Node::Letter(p)),
        (BinaryOp::Release, Node::Letter(q)),
        (BinaryOp::WeakUntil, Node::Letter(p)),
        (BinaryOp::StrongRelease, Node::Letter(q)),
        (BinaryOp::Since, Node::Letter(p)),
        (BinaryOp::Trigger, Node::Letter(q)),
    ] {
        let right = push(&rt, &mut table, leaf);
        root = push(&rt, &mut table, Node::Binary(op, root, right));
    }
    assert!(rt; root < table.len());
    let text = print(rt.alloc(), &table, root).expect(&rt, "memory");
    let wanted =
        b"((((((((((H O Z Y G F wX X !p & q) | true) -> false) <-> {70}) U p) R q) W p) M q) S p) T q)";
    assert!(rt; text.as_slice() == wanted.as_slice());
}

#[test]
fn prints_numbers_of_bounded_operators(rt: HostRuntime) {
    let mut table = FormulaTable::new(rt.alloc());
    let p = name(&rt, &mut table, "p");
    let mut root = push(&rt, &mut table, Node::Letter(p));
    for op in [
        UnaryOp::NextTimes(0),
        UnaryOp::YesterdayTimes(7),
        UnaryOp::EventuallyIn(2, 255),
        UnaryOp::AlwaysIn(0, 5),
        UnaryOp::OnceIn(0, 0),
        UnaryOp::HistoricallyIn(1, 3),
    ] {
        root = push(&rt, &mut table, Node::Unary(op, root));
    }
    assert!(rt; root < table.len());
    let text = print(rt.alloc(), &table, root).expect(&rt, "memory");
    assert!(rt; text.as_slice() == b"H[1,3] O[0,0] G[0,5] F[2,255] Y[7] X[0] p".as_slice());
    assert_eq!(rt; table.size(), 273);
}

#[test]
fn counts_how_far_operators_look(rt: HostRuntime) {
    let mut table = FormulaTable::new(rt.alloc());
    let mut root = push(&rt, &mut table, Node::Const(true));
    for _ in 0..64 {
        root = push(&rt, &mut table, Node::Unary(UnaryOp::NextTimes(255), root));
    }
    assert_eq!(rt; table.size(), 16_321);
    let node = Node::Unary(UnaryOp::NextTimes(255), root);
    assert!(rt; table.may_push(node));
    assert!(rt; table.push(node) == Err(PushRefused::Nodes));
    push(&rt, &mut table, Node::Unary(UnaryOp::OnceIn(0, 63), root));
    assert_eq!(rt; table.size(), 16_384);
}

#[test]
fn takes_as_many_nodes_as_the_limit(rt: HostRuntime) {
    let mut table = FormulaTable::new(rt.alloc());
    let mut root = push(&rt, &mut table, Node::Const(true));
    for _ in 1..16_384 {
        root = push(&rt, &mut table, Node::Unary(UnaryOp::Not, root));
    }
    assert_eq!(rt; table.len(), 16_384);
    assert!(rt; table.is_root(16_383) && !table.is_root(16_382) && !table.is_root(16_384));
    assert!(rt; table.push(Node::Const(true)) == Err(PushRefused::Nodes));
    assert_eq!(rt; table.len(), 16_384);
    assert!(rt; table.node(16_383) == Node::Unary(UnaryOp::Not, 16_382));
}

#[test]
fn numbers_many_names_at_once(rt: HostRuntime) {
    let mut table = FormulaTable::new(rt.alloc());
    for round in 0..2 {
        for i in 0..16_384u32 {
            let text = format!(in rt.alloc(); "p{i}").expect(&rt, "memory");
            assert_eq!(rt; name(&rt, &mut table, text.as_str()), i, "in round {round}");
        }
    }
    assert_eq!(rt; table.letters(), 16_384);
    assert!(rt; table.name_of(16_383) == "p16383");
}

#[test]
fn replaces_nothing(rt: HostRuntime) {
    let mut table = FormulaTable::new(rt.alloc());
    let p = name(&rt, &mut table, "p");
    let right = push(&rt, &mut table, Node::Letter(p));
    let left = push(&rt, &mut table, Node::Const(true));
    let root = push(&rt, &mut table, Node::Binary(BinaryOp::Until, left, right));
    assert!(rt; root < table.len());
    let order = nodes_under(rt.alloc(), &table, root).expect(&rt, "memory");
    assert!(rt; order.as_slice() == [root, left, right].as_slice());
    let given = has_no_fresh(rt.alloc(), &table, root).expect(&rt, "memory");
    assert!(rt; given);
    let (copy, same) = replace(rt.alloc(), &table, root, &[]).expect(&rt, "memory");
    let text = print(rt.alloc(), &copy, same).expect(&rt, "memory");
    assert!(rt; text.as_slice() == b"(true U p)".as_slice());
}

#[test]
fn prints_fresh_letters(rt: HostRuntime) {
    let mut table = FormulaTable::new(rt.alloc());
    let fresh = push(&rt, &mut table, Node::Fresh(3));
    let root = push(&rt, &mut table, Node::Unary(UnaryOp::Not, fresh));
    assert!(rt; root < table.len());
    let given = has_no_fresh(rt.alloc(), &table, root).expect(&rt, "memory");
    assert!(rt; !given);
    let text = print(rt.alloc(), &table, root).expect(&rt, "memory");
    assert!(rt; text.as_slice() == b"!{3}".as_slice());
}
