// Certificates that were worked by hand, by every way of checking them.
use cert_check::{CheckRefused, Reason, Verdict, check, laws};
use formula_reading::{Reading, read_formula};
use ltl_io::NoGate;
use ltl_syntax::{FormulaTable, Kind};
use std::alloc::Global;
use std::process::Abort;
use std::thread::Threads;

type Answer = Result<Verdict, CheckRefused>;

/// A certificate text, and what is answered.
type Case = (&'static [u8], Answer);

const VERIFIED: Answer = Ok(Verdict::Verified);

const KIND: Answer = Ok(Verdict::Rejected(Reason::Kind));

const LINE_ONE: Answer = Ok(Verdict::Rejected(Reason::Line(1)));

const LINE_TWO: Answer = Ok(Verdict::Rejected(Reason::Line(2)));

const TARGET_ONE: Answer = Ok(Verdict::Rejected(Reason::Target(1)));

const TARGET_TWO: Answer = Ok(Verdict::Rejected(Reason::Target(2)));

const TARGET_THREE: Answer = Ok(Verdict::Rejected(Reason::Target(3)));

const ON_FALSE: &[Case] = &[
    (b"ltlcert 1 infinite 0\n-2 0 2 1 0\nclose 1 1\n", VERIFIED),
    (b"ltlcert 1 infinite 0\n-2 0 1 2 0\nclose 1 1\n", VERIFIED),
    (b"ltlcert 1 infinite 0\n-2 0 2 0\nclose 1 1\n", LINE_ONE),
    (b"ltlcert 1 infinite 0\n-2 0 2 1 1 0\nclose 1 1\n", LINE_ONE),
    (b"ltlcert 1 infinite 0\n-2 0 2 3 1 0\nclose 1 1\n", LINE_ONE),
    (b"ltlcert 1 infinite 0\n2 -2 0 2 1 0\nclose 1 1\n", LINE_ONE),
    (b"ltlcert 1 infinite 0\n-2 0 2 1 0\nclose 1 2\n", TARGET_TWO),
    (b"ltlcert 1 infinite 0\nclose 1 1\n", TARGET_ONE),
    (b"ltlcert 1 finite 0\n-2 0 2 1 0\nclose 1 1\n", KIND),
    (
        b"ltlcert 1 infinite 0\n-2 0 2 1 0\n",
        Err(CheckRefused::Form(32)),
    ),
    (b"ltlcert 2 infinite 0\n-2 0 2 1 0\nclose 1 1\n", VERIFIED),
    (
        b"ltlcert 3 infinite 0\n-2 0 2 1 0\nclose 1 1\n",
        Err(CheckRefused::Form(8)),
    ),
    (
        b"ltlcert 1 infinite 1001\n-2 0 2 1 0\nclose 1 1\n",
        Err(CheckRefused::Form(22)),
    ),
    (
        b"ltlcert 2 infinite 0\n-2 0 2 1 0\n-2 0 -1 0\nd 1\nclose 2 2\n",
        VERIFIED,
    ),
    (
        b"ltlcert 2 infinite 0\n-2 0 2 1 0\n-2 0 -1 0\nd 1\nclose 1 2\n",
        TARGET_ONE,
    ),
    (
        b"ltlcert 2 infinite 0\n-2 0 2 1 0\nd 1\n-2 0 -1 0\nclose 2 2\n",
        LINE_TWO,
    ),
    (
        b"ltlcert 2 infinite 0\n-2 0 2 1 0\n-2 0 -1 0\nd 7\nclose 2 2\n",
        VERIFIED,
    ),
    (
        b"ltlcert 1 infinite 0\n-2 0 2 1 0\n-2 0 -1 0\nd 1\nclose 2 2\n",
        Err(CheckRefused::Form(42)),
    ),
];

const ON_FALSE_FINITE: &[Case] = &[(b"ltlcert 1 finite 0\n-2 0 2 1 0\nclose 1 1\n", VERIFIED)];

const ON_LAST: &[Case] = &[
    (
        b"ltlcert 1 infinite 1\n-2 -3 0 2 3 4 0\n-8 0 5 2 7 6 0\nclose 1 2 2\n",
        VERIFIED,
    ),
    (
        b"ltlcert 1 infinite 1\n-2 -3 0 2 3 4 0\n-8 0 5 2 7 6 0\nclose 2 2 2\n",
        TARGET_ONE,
    ),
    (
        b"ltlcert 1 infinite 1\n-2 -3 0 2 3 4 0\n-8 0 5 2 6 7 0\nclose 1 2 2\n",
        VERIFIED,
    ),
    (
        b"ltlcert 1 infinite 1\n-2 -3 0 2 3 4 0\n-8 0 5 7 2 6 0\nclose 1 2 2\n",
        LINE_TWO,
    ),
    (
        b"ltlcert 1 infinite 1\n-2 -3 0 2 3 4 0\n-8 0 5 2 7 6 0\nclose 1 2 1\n",
        TARGET_THREE,
    ),
    (
        b"ltlcert 1 infinite 1\n-2 -3 0 2 3 4 0\n-8 0 5 2 7 6 0\nclose 1 2 3\n",
        TARGET_THREE,
    ),
    (b"", Err(CheckRefused::Form(0))),
    (
        b"ltlcert 1 infinite 01\n-2 -3 0 2 3 4 0\n-8 0 5 2 7 6 0\nclose 1 2 2\n",
        Err(CheckRefused::Form(20)),
    ),
    (
        b"ltlcert 1 infinite 1\r\n-2 -3 0 2 3 4 0\n-8 0 5 2 7 6 0\nclose 1 2 2\n",
        Err(CheckRefused::Form(20)),
    ),
    (
        b"ltlcert 1 infinite 1\n-16777217 -3 0 2 3 4 0\n-8 0 5 2 7 6 0\nclose 1 2 2\n",
        Err(CheckRefused::Form(29)),
    ),
    (
        b"ltlcert 1 infinite 1\n-2 -3 0 2 3 4 0\n-8 0 5 2 7 6 0\nclose 1 2\n",
        Err(CheckRefused::Form(61)),
    ),
    (
        b"ltlcert 1 infinite 1\n-2 -3 0 2 3 4 0\n-8 0 5 2 7 6 0\nclose 1 2 2",
        Err(CheckRefused::Form(63)),
    ),
    (
        b"ltlcert 1 infinite 1\n-2 -3 0 2 3 4 0\n-8 0 5 2 7 6 0\nclose 1 2 2\n\n",
        Err(CheckRefused::Form(64)),
    ),
    (
        b"ltlcert 1 infinite 1\n-2 -3 0 2 3 19 0\n-8 0 5 2 7 6 0\nclose 1 2 2\n",
        LINE_ONE,
    ),
    (
        b"ltlcert 1 infinite 1\n-2 -3 0 2 3 -1 0\n-8 0 5 2 7 6 0\nclose 1 2 2\n",
        LINE_ONE,
    ),
    (
        b"ltlcert 1 infinite 1\n-2 -3 0 2 3 -2 0\n-8 0 5 2 7 6 0\nclose 1 2 2\n",
        LINE_ONE,
    ),
    (
        b"ltlcert 1 infinite 1\n-2 -3 0 0\n-8 0 5 2 7 6 0\nclose 1 2 2\n",
        LINE_ONE,
    ),
    (
        b"ltlcert 1 infinite 1\n-2 -3 0 2 3 4 0\n-8 17 0 5 2 7 6 0\nclose 1 2 2\n",
        LINE_TWO,
    ),
];

const ON_NEXT: &[Case] = &[
    (
        b"ltlcert 1 finite 1\n-2 -3 0 2 3 0\n-6 0 4 2 6 5 0\nclose 1 2 2\n",
        VERIFIED,
    ),
    (
        b"ltlcert 1 infinite 1\n-2 -3 0 2 3 0\n-6 0 4 2 6 5 0\nclose 1 2 2\n",
        KIND,
    ),
];

/// A formula, its kind, and its certificates.
const ROWS: &[(&str, Kind, &[Case])] = &[
    ("false", Kind::Infinite, ON_FALSE),
    ("false", Kind::Finite, ON_FALSE_FINITE),
    ("wX false", Kind::Infinite, ON_LAST),
    ("X false", Kind::Finite, ON_NEXT),
];

/// The formula that the text reads as: its table, and the number of its root.
fn formula(rt: &impl Abort, alloc: Global, text: &str) -> (FormulaTable, u32) {
    match read_formula(alloc, text.as_bytes()).expect(rt, "memory") {
        Reading::Formula { table, root } => (table, root),
        Reading::Refused(_) => panic!(rt; "no formula: {text}"),
    }
}

/// Each certificate is answered so for the formula, by each number of workers.
fn answers<R: Abort + Threads + Sync>(
    rt: &R,
    alloc: Global,
    text: &str,
    kind: Kind,
    cases: &[Case],
) {
    let (table, root) = formula(rt, alloc, text);
    assert!(rt; root < table.len());
    for workers in [1, 2, 3, 16] {
        for case in cases {
            let answer = check(rt, alloc, &table, root, kind, case.0, workers, &NoGate);
            assert!(rt; answer == case.1);
        }
    }
}

#[test]
fn checks(rt: HostRuntime) {
    for (text, kind, cases) in ROWS {
        answers(&rt, rt.alloc(), text, *kind, cases);
    }
}

// The letters of its clauses are too many at depth 938.
const NINE: &str = "G F a & G F b & G F c & G F d & G F e & G F f & G F g & G F h & G F i";

/// A certificate of depth 1000 without lines.
fn deep(rt: &impl Abort, alloc: Global) -> Vec<u8> {
    let mut text = Vec::new(alloc);
    text.extend_from_slice(b"ltlcert 1 infinite 1000\nclose")
        .expect(rt, "memory");
    for _ in 0..1002 {
        text.extend_from_slice(b" 1").expect(rt, "memory");
    }
    text.push(b'\n').expect(rt, "memory");
    text
}

#[test]
fn tells_the_limit_in_force(rt: HostRuntime) {
    let alloc = rt.alloc();
    let (table, root) = formula(&rt, alloc, NINE);
    let text = deep(&rt, alloc);
    assert!(&rt; root < table.len());
    for workers in [1, 2] {
        let answer = check(
            &rt,
            alloc,
            &table,
            root,
            Kind::Infinite,
            &text,
            workers,
            &NoGate,
        );
        assert!(&rt; answer == Err(CheckRefused::Letters(937)));
    }
}

#[test]
fn states_laws() {
    laws::certified();
    laws::trimmed();
    laws::answers();
    laws::nothing_satisfies();
}
