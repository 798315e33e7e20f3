// Letters by their numbers. What is expected was worked by hand from the order of the letters.
ghost use Rattle.std.specs.Prelude.{IsTrue};
ghost use Rattle.ltl_syntax.specs.Table.{IsPlain};
ghost use Rattle.enc_layout.specs.Letters.{IsLetter};
ghost use Rattle.enc_layout.specs.Parts.{meaning_of};

use super::{Layout, Part};
use ltl_closure::Closure;
use ltl_syntax::{BinaryOp, FormulaTable, Kind, Node, UnaryOp};
use std::alloc::Global;
use std::process::Abort;

fn is_plain(text: &str) -> bool
    ensures { IsTrue result → IsPlain text.now }
{
    match text.as_bytes() {
        [first, ..] => *first != b'{',
        [] => true,
    }
}

fn name(rt: &impl Abort, table: &mut FormulaTable, text: &str) -> u32 {
    assert!(rt; table.letters() < u32::MAX && is_plain(text));
    table.name(text).expect(rt, "memory")
}

fn push(rt: &impl Abort, table: &mut FormulaTable, node: Node) -> u32 {
    assert!(rt; table.may_push(node));
    table.push(node).expect(rt, "a place")
}

fn closure_of<'t>(
    rt: &impl Abort,
    alloc: Global,
    table: &'t FormulaTable,
    root: u32,
    kind: Kind,
) -> Closure<'t> {
    assert!(rt; root < table.len());
    Closure::of(alloc, table, root, kind).expect(rt, "memory")
}

fn layout_of_nodes(rt: &impl Abort, alloc: Global, nodes: &[Node], kind: Kind) -> Layout {
    let mut table = FormulaTable::new(alloc);
    let mut root = 0;
    for node in nodes {
        root = push(rt, &mut table, *node);
    }
    Layout::of(&closure_of(rt, alloc, &table, root, kind))
}

/// `G F a & G F b & .. & G F i`, and the number of its last node.
fn nine_promises(rt: &impl Abort, alloc: Global) -> (FormulaTable, u32) {
    let mut table = FormulaTable::new(alloc);
    let mut root = None;
    for text in ["a", "b", "c", "d", "e", "f", "g", "h", "i"] {
        let letter = name(rt, &mut table, text);
        let leaf = push(rt, &mut table, Node::Letter(letter));
        let some_time = push(rt, &mut table, Node::Unary(UnaryOp::Eventually, leaf));
        let promise = push(rt, &mut table, Node::Unary(UnaryOp::Always, some_time));
        root = Some(match root {
            None => promise,
            Some(left) => push(rt, &mut table, Node::Binary(BinaryOp::And, left, promise)),
        });
    }
    (table, root.unwrap_or(0))
}

/// Whether the kind has this letter at the step.
fn is_letter(layout: &Layout, step: u32, part: Part) -> bool
    ensures { IsTrue result → IsLetter layout.now.kind layout.now.counts step (meaning_of step part) }
{
    let infinite = layout.kind == Kind::Infinite;
    let is_eventuality = |number: u32| 0 < number && number <= layout.eventualities;
    match part {
        Part::Here | Part::Accepted => true,
        Part::Empty | Part::Repeated => infinite,
        Part::Entry(entry) => 0 < entry && entry <= layout.entries,
        Part::Seen(eventuality) => infinite && is_eventuality(eventuality),
        Part::Equal(earlier) => earlier < step,
        Part::Loop(earlier) => infinite && earlier < step,
        Part::Differs(earlier, place) => earlier < step && 0 < place && place <= layout.places,
        Part::Fulfilled(earlier, eventuality) | Part::New(earlier, eventuality) => {
            infinite && earlier < step && is_eventuality(eventuality)
        }
    }
}

fn number_of(rt: &impl Abort, layout: &Layout, step: u32, part: Part) -> u32 {
    assert!(rt; step <= 1000);
    assert!(rt; layout.fits(step) && is_letter(layout, step, part));
    let letter = layout.letter(step, part);
    assert!(rt;
        layout.positive(step, part).letter == letter && !layout.positive(step, part).negated
    );
    assert!(rt;
        layout.negative(step, part).letter == letter && layout.negative(step, part).negated
    );
    letter.0
}

fn check_letters(rt: &impl Abort, layout: &Layout, rows: &[(u32, Part, u32)]) {
    for (step, part, number) in rows {
        assert!(rt; number_of(rt, layout, *step, *part) == *number);
    }
}

#[test]
fn letters_of_next_false(rt: HostRuntime) {
    let alloc = rt.alloc();
    let weak = [Node::Const(false), Node::Unary(UnaryOp::WeakNext, 0)];
    let infinite = layout_of_nodes(&rt, alloc, &weak, Kind::Infinite);
    check_letters(
        &rt,
        &infinite,
        &[
            (0, Part::Here, 2),
            (0, Part::Accepted, 3),
            (0, Part::Empty, 4),
            (0, Part::Repeated, 5),
            (0, Part::Entry(1), 6),
            (0, Part::Entry(2), 7),
            (1, Part::Here, 8),
            (1, Part::Equal(0), 14),
            (1, Part::Loop(0), 15),
            (1, Part::Differs(0, 1), 16),
        ],
    );
    let strong = [Node::Const(false), Node::Unary(UnaryOp::Next, 0)];
    let finite = layout_of_nodes(&rt, alloc, &strong, Kind::Finite);
    check_letters(
        &rt,
        &finite,
        &[
            (0, Part::Entry(2), 5),
            (1, Part::Accepted, 7),
            (1, Part::Equal(0), 10),
            (1, Part::Differs(0, 1), 11),
        ],
    );
    assert!(&rt; infinite.may_prune().letter.0 == 1 && infinite.may_prune().negated);
}

#[test]
fn letters_of_two_requests(rt: HostRuntime) {
    let layout = Layout {
        kind: Kind::Infinite,
        entries: 30,
        places: 9,
        eventualities: 2,
    };
    check_letters(
        &rt,
        &layout,
        &[
            (0, Part::Seen(1), 36),
            (0, Part::Seen(2), 37),
            (2, Part::Equal(1), 140),
            (2, Part::Differs(1, 9), 150),
            (2, Part::Fulfilled(1, 1), 151),
            (2, Part::New(1, 1), 153),
            (2, Part::New(1, 2), 154),
        ],
    );
}

#[test]
fn how_many_letters(rt: HostRuntime) {
    let alloc = rt.alloc();
    let falsehood = layout_of_nodes(&rt, alloc, &[Node::Const(false)], Kind::Infinite);
    assert!(&rt; falsehood.letters_through(0) == 6);
    let weak = [Node::Const(false), Node::Unary(UnaryOp::WeakNext, 0)];
    assert!(&rt; layout_of_nodes(&rt, alloc, &weak, Kind::Infinite).letters_through(1) == 16);
    let strong = [Node::Const(false), Node::Unary(UnaryOp::Next, 0)];
    assert!(&rt; layout_of_nodes(&rt, alloc, &strong, Kind::Finite).letters_through(1) == 11);
    let four_requests = Layout {
        kind: Kind::Infinite,
        entries: 74,
        places: 22,
        eventualities: 4,
    };
    assert!(&rt; four_requests.letters_through(4) == 731);
    let two_requests = Layout {
        kind: Kind::Infinite,
        entries: 30,
        places: 9,
        eventualities: 2,
    };
    assert!(&rt; two_requests.letters_through(2) == 154);
}

#[test]
fn greatest_depth_of_nine_promises(rt: HostRuntime) {
    let alloc = rt.alloc();
    let (table, root) = nine_promises(&rt, alloc);
    let layout = Layout::of(&closure_of(&rt, alloc, &table, root, Kind::Infinite));
    assert!(&rt; layout.greatest_depth(1000) == 937);
    assert!(&rt; layout.greatest_depth(64) == 64);
    assert!(&rt; layout.letters_through(937) == 16_762_999);
}
