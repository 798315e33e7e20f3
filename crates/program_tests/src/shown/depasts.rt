// `depast` on formulas and traces that were worked by hand.
use crate::calls::{Program, Row, called, show_rows};
use black_top::Status;
use std::process::Abort;
use std::test::Fail;

const TURNS: &[u8] =
    b"G(p <-> Y !p)\n---\n{\"kind\":\"infinite\",\"stem\":[[]],\"loop\":[[\"p\"],[]]}";

const LIFTED: &[u8] =
    b"(G (p <-> _p0) & (!_p0 & G ((!p & wX _p0) | (!!p & wX !_p0))))\n{\"kind\":\"infinite\",\"loop\":[[\"_p0\",\"p\"],[]],\"stem\":[[],[\"_p0\",\"p\"],[]]}\n";

const YESTERDAY: &[u8] = b"(_p0 & (!_p0 & G ((p & wX _p0) | (!p & wX !_p0))))\n";

const DEPASTS: &[Row] = &[
    ("depast", b"Y p", YESTERDAY, Status::Good),
    ("depast", TURNS, LIFTED, Status::Good),
    (
        "depast",
        b"O p\n---\n{\"kind\":\"finite\",\"states\":[[\"_p0\"],[\"p\"]]}",
        b"(_p0 & ((_p0 <-> p) & G ((_p0 & wX (_p0 <-> (p | true))) | (!_p0 & wX (_p0 <-> p)))))\n{\"kind\":\"finite\",\"states\":[[],[\"_p0\",\"p\"]]}\n",
        Status::Good,
    ),
    (
        "depast",
        b"Y\n---\n[",
        b"grammar fault at byte 1\n",
        Status::Text,
    ),
    (
        "depast",
        b"p\n---\n[",
        b"trace fault: not JSON\n",
        Status::Text,
    ),
    ("solve", YESTERDAY, b"UNSAT 0\n", Status::Unsat),
];

#[test]
fn depasts(rt: HostRuntime) -> Result<(), Fail> {
    let alloc = rt.alloc();
    show_rows(&rt, alloc, Program::Black, DEPASTS)?;
    let call = called(&rt, alloc, Program::Black, "solve", &LIFTED[..63])?;
    assert!(rt; call.status == Status::Sat);
    Ok(())
}
