// What `black` shows, over memory. The expected lines are those of the documents, by hand.
use crate::calls::{Program, Row, called, joined, list, show_rows, shows};
use black_top::{Status, run};
use ltl_io::{Gate, MemorySink, MemorySource, NoGate, read_whole};
use std::alloc::{AllocError, Global};
use std::process::Abort;
use std::test::Fail;
use std::thread::Threads;

mod batches;
mod certificates;
mod cores;
mod depasts;
mod monitors;
mod systems;

pub(crate) const USAGE: &[u8] =
    b"usage: black solve [--finite] [--depth N] [--cert] [--core] [--workers N]\nusage: black check [--finite] [--workers N]\nusage: black trace\nusage: black demo N\nusage: black batch [--finite] [--depth N] [--workers N]\nusage: black system [--depth N] [--cert]\nusage: black monitor\nusage: black depast\n";

const RECURRING: &[u8] = b"G F p & G !p";

const NINE: &[u8] = b"G F a & G F b & G F c & G F d & G F e & G F f & G F g & G F h & G F i";

const WINDOWS: &[u8] = b"G[0,2] p & F[1,2] !p";

const NO_OPERATOR: &[u8] = b"lexical fault at byte 1\n";

const SAT_P: &[u8] = b"SAT 0\n{\"kind\":\"infinite\",\"loop\":[[]],\"stem\":[[\"p\"]]}\n";

const SAT_Q: &[u8] = b"SAT 0\n{\"kind\":\"infinite\",\"loop\":[[]],\"stem\":[[\"q\"]]}\n";

const RING_OF_FOUR: &[u8] = b"demo 4\nnodes 77\nentries 74\nletters 731\nSAT 4\n";

const WITHOUT_OPERATORS: &[Row] = &[
    ("solve", b"p", SAT_P, Status::Sat),
    ("solve", b"p & !p", b"UNSAT 0\n", Status::Unsat),
    ("solve", b"p & !q", SAT_P, Status::Sat),
    ("solve", b"(p | q) & !p", SAT_Q, Status::Sat),
    (
        "solve",
        b"\xc3\xa9 && ~\xc3\xa9",
        b"UNSAT 0\n",
        Status::Unsat,
    ),
    (
        "solve",
        b"!(a&b&c&d&e&f&g&h&i&j&k&l&m&n&o&p)&a&b&c&d&e&f&g&h&i&j&k&l&m&n&o&p",
        b"UNSAT 0\n",
        Status::Unsat,
    ),
];

const INFINITE_TRACES: &[Row] = &[
    (
        "solve",
        b"G p",
        b"SAT 1\n{\"kind\":\"infinite\",\"loop\":[[\"p\"]],\"stem\":[[\"p\"]]}\n",
        Status::Sat,
    ),
    (
        "solve",
        b"p & G(p -> X !p) & G(!p -> X p)",
        b"SAT 2\n{\"kind\":\"infinite\",\"loop\":[[],[\"p\"]],\"stem\":[[\"p\"]]}\n",
        Status::Sat,
    ),
    ("solve", RECURRING, b"UNSAT 2\n", Status::Unsat),
    ("solve", b"wX false", b"UNSAT 1\n", Status::Unsat),
    (
        "solve",
        b"G X true",
        b"SAT 1\n{\"kind\":\"infinite\",\"loop\":[[]],\"stem\":[[]]}\n",
        Status::Sat,
    ),
    ("solve", b"Y p", b"UNSAT 0\n", Status::Unsat),
    (
        "solve",
        b"Z false",
        b"SAT 0\n{\"kind\":\"infinite\",\"loop\":[[]],\"stem\":[[]]}\n",
        Status::Sat,
    ),
    (
        "solve",
        b"F(p & !q & Y(q & !p))",
        b"SAT 1\n{\"kind\":\"infinite\",\"loop\":[[]],\"stem\":[[\"q\"],[\"p\"]]}\n",
        Status::Sat,
    ),
    (
        "solve",
        b"G(req -> F grant) & G(grant -> Y O req) & G F req",
        b"SAT 1\n{\"kind\":\"infinite\",\"loop\":[[\"grant\",\"req\"]],\"stem\":[[\"req\"]]}\n",
        Status::Sat,
    ),
    (
        "solve",
        b"G(p <-> Y !p)",
        b"SAT 2\n{\"kind\":\"infinite\",\"loop\":[[\"p\"],[]],\"stem\":[[]]}\n",
        Status::Sat,
    ),
];

const OPTIONS: &[Row] = &[
    (
        "solve --finite",
        b"G p",
        b"SAT 0\n{\"kind\":\"finite\",\"states\":[[\"p\"]]}\n",
        Status::Sat,
    ),
    (
        "solve --finite",
        b"wX false",
        b"SAT 0\n{\"kind\":\"finite\",\"states\":[[]]}\n",
        Status::Sat,
    ),
    (
        "solve --finite",
        b"!p & X p",
        b"SAT 1\n{\"kind\":\"finite\",\"states\":[[],[\"p\"]]}\n",
        Status::Sat,
    ),
    ("solve --finite", b"G X true", b"UNSAT 1\n", Status::Unsat),
    ("solve --finite", RECURRING, b"UNSAT 1\n", Status::Unsat),
    (
        "solve --depth 1",
        RECURRING,
        b"UNDECIDED 1\n",
        Status::Undecided,
    ),
    (
        "solve --depth=1",
        RECURRING,
        b"UNDECIDED 1\n",
        Status::Undecided,
    ),
    ("solve --depth 16", RECURRING, b"UNSAT 2\n", Status::Unsat),
    (
        "solve --depth=1 --finite",
        RECURRING,
        b"UNSAT 1\n",
        Status::Unsat,
    ),
    (
        "solve --finite --depth 0000",
        RECURRING,
        b"UNDECIDED 0\n",
        Status::Undecided,
    ),
    (
        "solve --depth 1000",
        NINE,
        b"limit letters 16777216 greatest depth 937\n",
        Status::Limit,
    ),
    (
        "solve --depth 1000",
        b"p",
        b"SAT 0\n{\"kind\":\"infinite\",\"loop\":[[]],\"stem\":[[\"p\"]]}\n",
        Status::Sat,
    ),
    (
        "solve --depth 1000",
        b"p &",
        b"grammar fault at byte 3\n",
        Status::Text,
    ),
];

/// The token rings of 2 and of 4 places.
const DEMOS: &[Row] = &[
    (
        "demo 2",
        b"p",
        b"demo 2\nnodes 27\nentries 30\nletters 154\nSAT 2\n",
        Status::Sat,
    ),
    ("demo 4", b"p", RING_OF_FOUR, Status::Sat),
    ("demo 04", b"p", RING_OF_FOUR, Status::Sat),
];

const REFUSED_TEXTS: &[Row] = &[
    ("solve", b"", b"grammar fault at byte 0\n", Status::Text),
    ("solve", b"p &", b"grammar fault at byte 3\n", Status::Text),
    ("solve", b"(p", b"grammar fault at byte 2\n", Status::Text),
    ("solve", b"p)", b"grammar fault at byte 1\n", Status::Text),
    ("solve", b"p) q", b"grammar fault at byte 1\n", Status::Text),
    (
        "solve",
        b"p $ q",
        b"lexical fault at byte 2\n",
        Status::Text,
    ),
    ("solve", b"p) $", b"lexical fault at byte 3\n", Status::Text),
    (
        "solve",
        b"p\xff",
        b"lexical fault at byte 1\n",
        Status::Text,
    ),
];

const TRACES: &[Row] = &[
    (
        "trace",
        b"F(p & Y Y Y Y p)\n---\n{\"kind\":\"infinite\",\"stem\":[],\"loop\":[[\"p\"],[]]}",
        b"HOLDS\n",
        Status::Good,
    ),
    (
        "trace",
        b"F(p & Y p)\n---\n{\"kind\":\"infinite\",\"stem\":[],\"loop\":[[\"p\"],[]]}",
        b"FAILS\n",
        Status::Negative,
    ),
    (
        "trace",
        b"F(p & wX false)\n---\n{\"kind\":\"finite\",\"states\":[[\"q\"],[\"p\"]]}",
        b"HOLDS\n",
        Status::Good,
    ),
    (
        "trace",
        b"G X true\n---\n{\"kind\":\"finite\",\"states\":[[\"q\"],[\"p\"]]}",
        b"FAILS\n",
        Status::Negative,
    ),
    (
        "trace",
        b"F(p & Y q)\n---\n{\"kind\":\"finite\",\"states\":[[\"q\"],[\"p\"]]}",
        b"HOLDS\n",
        Status::Good,
    ),
    (
        "trace",
        b"p\n---\n{\"kind\":\"finite\",\"states\":[[\"zz\",\"p\",\"p\"]]}",
        b"HOLDS\n",
        Status::Good,
    ),
    (
        "trace",
        b"p\r\n---\r\n{\"kind\":\"finite\",\"states\":[[\"p\"]]}\r\n",
        b"HOLDS\n",
        Status::Good,
    ),
    (
        "trace",
        b"p\n---\n{\"kind\":\"finite\",\n---\n\"states\":[[]]}",
        b"trace fault: not JSON\n",
        Status::Text,
    ),
    (
        "trace",
        b"p\n---\n[",
        b"trace fault: not JSON\n",
        Status::Text,
    ),
    (
        "trace",
        b"p\n---\n",
        b"trace fault: not JSON\n",
        Status::Text,
    ),
    ("trace", b"p\n---", b"trace fault: not JSON\n", Status::Text),
    (
        "trace",
        b"p\n---\n{}",
        b"trace fault: not a trace\n",
        Status::Text,
    ),
    (
        "trace",
        b"p\n---\n{\"kind\":\"infinite\",\"loop\":[[\"p\"]]}",
        b"trace fault: not a trace\n",
        Status::Text,
    ),
    (
        "trace",
        b"p\n---\n{\"kind\":\"finite\",\"states\":[[\"p\"]],\"x\":1}",
        b"trace fault: not a trace\n",
        Status::Text,
    ),
    (
        "trace",
        b"p\n---\n{\"kind\":\"finite\",\"states\":[\"p\"]}",
        b"trace fault: not a trace\n",
        Status::Text,
    ),
    (
        "trace",
        b"p\n---\n{\"kind\":\"finite\",\"states\":[[1]]}",
        b"trace fault: not a trace\n",
        Status::Text,
    ),
    (
        "trace",
        b"p\n---\n{\"kind\":\"infinite\",\"stem\":[],\"loop\":[]}",
        b"trace fault: loop is empty\n",
        Status::Text,
    ),
    (
        "trace",
        b"p\n---\n{\"kind\":\"finite\",\"states\":[]}",
        b"trace fault: states is empty\n",
        Status::Text,
    ),
    ("trace", b"p", b"no separator line\n", Status::Text),
    ("trace", b"", b"no separator line\n", Status::Text),
    ("trace", b"p\n ---\n[", b"no separator line\n", Status::Text),
    ("trace", b"p\n--- \n[", b"no separator line\n", Status::Text),
    ("trace", b"p\n----\n[", b"no separator line\n", Status::Text),
    (
        "trace",
        b"p\n---\r\r\n[",
        b"no separator line\n",
        Status::Text,
    ),
    ("trace", b"---", b"grammar fault at byte 0\n", Status::Text),
    (
        "trace",
        b"p &\n---\n[",
        b"grammar fault at byte 3\n",
        Status::Text,
    ),
    (
        "trace",
        b"\np &\n\n---\n[",
        b"grammar fault at byte 5\n",
        Status::Text,
    ),
    (
        "trace",
        b"p $ q\n---\n[",
        b"lexical fault at byte 2\n",
        Status::Text,
    ),
];

/// Each bounded operator as a solver and as an evaluator sees it, and what is none.
const BOUNDED_OPERATORS: &[Row] = &[
    ("solve", b"X[2] false", b"UNSAT 2\n", Status::Unsat),
    ("solve --finite", b"X[2] false", b"UNSAT 2\n", Status::Unsat),
    ("solve", WINDOWS, b"UNSAT 2\n", Status::Unsat),
    ("solve --finite", WINDOWS, b"UNSAT 2\n", Status::Unsat),
    (
        "solve --finite",
        b"!p & X[1] p",
        b"SAT 1\n{\"kind\":\"finite\",\"states\":[[],[\"p\"]]}\n",
        Status::Sat,
    ),
    (
        "solve",
        b"X[0] p",
        b"SAT 0\n{\"kind\":\"infinite\",\"loop\":[[]],\"stem\":[[\"p\"]]}\n",
        Status::Sat,
    ),
    (
        "trace",
        b"G[0,5] p\n---\n{\"kind\":\"finite\",\"states\":[[\"p\"],[\"p\"]]}",
        b"HOLDS\n",
        Status::Good,
    ),
    (
        "trace",
        b"F[2,5] p\n---\n{\"kind\":\"finite\",\"states\":[[\"p\"],[\"p\"]]}",
        b"FAILS\n",
        Status::Negative,
    ),
    (
        "trace",
        b"X[1] H[1,3] p\n---\n{\"kind\":\"finite\",\"states\":[[\"p\"],[\"p\"]]}",
        b"HOLDS\n",
        Status::Good,
    ),
    ("solve", b"X[256] p", NO_OPERATOR, Status::Text),
    ("solve", b"F[3,2] p", NO_OPERATOR, Status::Text),
    ("solve", b"X[01] p", NO_OPERATOR, Status::Text),
    ("solve", b"F[1, 2] p", NO_OPERATOR, Status::Text),
    ("solve", b"X[] p", NO_OPERATOR, Status::Text),
    (
        "solve",
        b"X [2] p",
        b"lexical fault at byte 2\n",
        Status::Text,
    ),
];

const REFUSED_WORDS: &[&str] = &[
    "solve --",
    "solve --depth",
    "solve --depth=",
    "solve --depth -1",
    "solve --depth 1001",
    "solve --depth 00001",
    "solve --depth=1 --depth 2",
    "solve --finite --finite",
    "solve --dep 3",
    "solve --core --core",
    "solve --workers 17",
    "solve --cert --cert",
    "solve p",
    "trace --finite",
    "check --cert",
    "check --workers",
    "check --workers 0",
    "check --workers 17",
    "check --workers=001",
    "batch --cert",
    "monitor --finite",
    "demo",
    "demo 1",
    "demo 65",
    "demo 004",
    "demo 4 4",
    "",
];

/// Command words, a piece and how often it comes, what stands behind it, and what is shown.
type LongRow = (
    &'static str,
    &'static [u8],
    u32,
    &'static [u8],
    &'static [u8],
    Status,
);

/// Inputs at the limits and past them.
const LONG: &[LongRow] = &[
    (
        "solve",
        b"!",
        16_383,
        b"p",
        b"SAT 0\n{\"kind\":\"infinite\",\"loop\":[[]],\"stem\":[[]]}\n",
        Status::Sat,
    ),
    (
        "solve",
        b"!",
        16_384,
        b"p",
        b"limit nodes 16384 have 16385\n",
        Status::Limit,
    ),
    (
        "solve",
        b" ",
        1_048_576,
        b"",
        b"grammar fault at byte 1048576\n",
        Status::Text,
    ),
    (
        "solve",
        b" ",
        1_048_577,
        b"",
        b"limit text 1048576\n",
        Status::Limit,
    ),
    (
        "solve",
        b"X[255] ",
        65,
        b"p",
        b"limit nodes 16384 have 16576\n",
        Status::Limit,
    ),
    (
        "trace",
        b" ",
        1_048_577,
        b"\n---\n[",
        b"limit text 1048576\n",
        Status::Limit,
    ),
    (
        "trace",
        b"Y ",
        16_383,
        b"p\n---\n{\"kind\":\"infinite\",\"stem\":[],\"loop\":[[\"p\"]]}",
        b"limit cells 67108864 have 268435456\n",
        Status::Limit,
    ),
    (
        "system",
        b" ",
        1_048_574,
        b"p\n---\np\n---\np",
        b"limit text 1048576\n",
        Status::Limit,
    ),
    (
        "depast",
        b"Y ",
        1_024,
        b"p",
        b"limit depast nodes 16384 have 16385\n",
        Status::Limit,
    ),
    (
        "batch",
        b"\n",
        16_777_217,
        b"",
        b"limit batch 16777216\n",
        Status::Limit,
    ),
];

/// `black` shows just this before the gate, with this status.
fn watched<R: Threads + Abort + Sync, G: Gate + Sync>(
    rt: &R,
    alloc: Global,
    words: &str,
    input: &[u8],
    output: &[u8],
    gate: &G,
) -> Result<Status, Fail> {
    let words = list(alloc, words)?;
    let mut source = MemorySource::new(input.to_vec(alloc)?, 65_536, Vec::new(alloc));
    let mut sink = MemorySink::new(alloc, 64, 64, Vec::new(alloc))?;
    let status = run(rt, alloc, &words, &mut source, &mut sink, gate);
    assert!(rt; *sink.content() == *output);
    Ok(status)
}

/// A piece `count` times, and what stands behind.
fn repeated(alloc: Global, piece: &[u8], count: u32, last: &[u8]) -> Result<Vec<u8>, AllocError> {
    let mut text = Vec::new(alloc);
    for _ in 0..count {
        text.extend_from_slice(piece)?;
    }
    text.extend_from_slice(last)?;
    Ok(text)
}

#[test]
fn worked_rows(rt: HostRuntime) -> Result<(), Fail> {
    let tables = [
        WITHOUT_OPERATORS,
        INFINITE_TRACES,
        OPTIONS,
        DEMOS,
        REFUSED_TEXTS,
        TRACES,
        BOUNDED_OPERATORS,
    ];
    for rows in tables {
        show_rows(&rt, rt.alloc(), Program::Black, rows)?;
    }
    Ok(())
}

#[test]
fn refused_words(rt: HostRuntime) -> Result<(), Fail> {
    for words in REFUSED_WORDS {
        shows(
            &rt,
            rt.alloc(),
            Program::Black,
            words,
            b"p",
            USAGE,
            Status::Usage,
        )?;
    }
    Ok(())
}

#[test]
fn long_inputs(rt: HostRuntime) -> Result<(), Fail> {
    let alloc = rt.alloc();
    for (words, piece, count, last, output, status) in LONG {
        let input = repeated(alloc, piece, *count, last)?;
        shows(&rt, alloc, Program::Black, words, &input, output, *status)?;
    }
    Ok(())
}

/// `solve` prints the first line and a trace on which `trace` says that the formula holds.
fn shows_model<R: Threads + Abort + Sync>(
    rt: &R,
    alloc: Global,
    formula: &[u8],
    first_line: &[u8],
) -> Result<(), Fail> {
    let call = called(rt, alloc, Program::Black, "solve", formula)?;
    let Some(trace) = call.text.strip_prefix(first_line) else {
        return Err(Fail::new("another first line"));
    };
    assert!(rt; call.status == Status::Sat);
    let input = joined(alloc, formula, trace)?;
    shows(
        rt,
        alloc,
        Program::Black,
        "trace",
        &input,
        b"HOLDS\n",
        Status::Good,
    )
}

/// Formulas whose traces are not forced.
#[test]
fn printed_traces_hold(rt: HostRuntime) -> Result<(), Fail> {
    let alloc = rt.alloc();
    shows_model(&rt, alloc, b"X p", b"SAT 1\n")?;
    shows_model(&rt, alloc, b"G X F p & G X F !p", b"SAT 2\n")
}

/// How many bytes a command leaves in the source.
#[test]
fn leaves_the_rest(rt: HostRuntime) -> Result<(), Fail> {
    let alloc = rt.alloc();
    let table: [(&str, usize); 4] = [
        ("solve", 7_328),
        ("trace", 0),
        ("demo 2", 1_060_000),
        ("check", 0),
    ];
    for (words, left) in &table {
        let content = repeated(alloc, b" ", 1_060_000, b"")?;
        let mut source = MemorySource::new(content, 4096, Vec::new(alloc));
        let mut sink = MemorySink::new(alloc, 1024, 1024, Vec::new(alloc))?;
        let words = list(alloc, words)?;
        run(&rt, alloc, &words, &mut source, &mut sink, &NoGate);
        let Ok(rest) = read_whole(alloc, &mut source, usize::MAX) else {
            return Err(Fail::new("the rest is not read"));
        };
        assert_eq!(rt; rest.len(), *left);
    }
    Ok(())
}
