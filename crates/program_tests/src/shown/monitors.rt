// `monitor` on rows that were worked by hand.
use crate::calls::{Program, Row, show_rows};
use black_top::Status;
use std::test::Fail;

const MONITORS: &[Row] = &[
    (
        "monitor",
        b"H(grant -> Y O req)\n---\n[\"req\"]\n[\"grant\"]\n[\"grant\",\"req\"]",
        b"true\ntrue\ntrue\n",
        Status::Good,
    ),
    (
        "monitor",
        b"H(grant -> Y O req)\n---\n[\"grant\"]\n[\"req\"]",
        b"false\nfalse\n",
        Status::Negative,
    ),
    (
        "monitor",
        b"Y[2] p\n---\n[\"p\"]\n[]\n[]\n[]\n",
        b"false\nfalse\ntrue\nfalse\n",
        Status::Negative,
    ),
    (
        "monitor",
        b"p\r\n---\r\n[\"p\"]\r\n \t\r\n\n[ \"q\", \"p\" ]\n",
        b"true\ntrue\n",
        Status::Good,
    ),
    ("monitor", b"p\n---\n", b"", Status::Good),
    (
        "monitor",
        b"F p\n---\n",
        b"monitor fault: future operator\n",
        Status::Text,
    ),
    (
        "monitor",
        b"F p\n---\n{}",
        b"monitor fault: future operator\n",
        Status::Text,
    ),
    (
        "monitor",
        b"p\n---\n[\"p\"]\n{}",
        b"state fault at line 2\n",
        Status::Text,
    ),
    (
        "monitor",
        b"p\n---\n\n[\"p\"]\n\n[1]\n{}",
        b"state fault at line 4\n",
        Status::Text,
    ),
    (
        "monitor",
        b"p &\n---\n{}",
        b"grammar fault at byte 3\n",
        Status::Text,
    ),
    ("monitor", b"F p", b"no separator line\n", Status::Text),
];

#[test]
fn monitor_rows(rt: HostRuntime) -> Result<(), Fail> {
    show_rows(&rt, rt.alloc(), Program::Black, MONITORS)
}
