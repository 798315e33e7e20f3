// Where formulas fail first, by hand.
use crate::reading::{formula, trace};
use requirement_questions::first_failure;

/// A trace, a formula, and the position at which it fails first.
type Row = (&'static str, &'static str, Option<u32>);

const FINITE: &str = "{\"kind\":\"finite\",\"states\":[[\"p\"],[\"p\"],[]]}";

const INFINITE: &str = "{\"kind\":\"infinite\",\"stem\":[[\"p\"]],\"loop\":[[\"p\"],[]]}";

const ROWS: &[Row] = &[
    (FINITE, "G p", Some(2)),
    (FINITE, "G (p | !p)", None),
    (FINITE, "G X true", Some(2)),
    (FINITE, "p", None),
    (FINITE, "!p", Some(0)),
    (FINITE, "F G p", Some(0)),
    (INFINITE, "G p", Some(2)),
    (INFINITE, "G F p", None),
    (INFINITE, "F G p", Some(0)),
    // Three positions after the first state without p, which is behind the stem and one loop.
    (INFINITE, "G !Y[3] !p", Some(5)),
];

#[test]
fn failures(rt: HostRuntime) {
    let alloc = rt.alloc();
    for (text, asked, wanted) in ROWS {
        let (table, root) = formula(&rt, alloc, asked);
        let trace = trace(&rt, alloc, text);
        let found = first_failure(alloc, &table, root, &trace).expect(&rt, "room");
        assert!(rt; found == *wanted, "{asked}");
    }
}
