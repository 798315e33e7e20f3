// What `black_requirements` prints, over memory. The expected texts were written by hand.
use crate::calls::{Call, Program, Row, called, show_rows, shows};
use requirements_top::Status;
use std::alloc::Global;
use std::process::Abort;
use std::test::Fail;
use std::thread::Threads;

const USAGE: &[u8] =
    b"usage: black_requirements [--json | --html] [--only NAME] [--steps N] [--workers N] [--progress]\n\
    usage: black_requirements --cert NAME [--steps N] [--workers N] [--progress]\n\
    usage: black_requirements --letters\nusage: black_requirements --help\n";

const REFUSED_WORDS: &[&str] = &[
    "--only a --only b",
    "--only",
    "--cert",
    "--cert a --only a",
    "--cert a --json",
    "--html --cert a",
    "--cert a --letters",
    "--workers 0",
    "--workers=17",
    "--help --progress",
    "--letters --workers 2",
    "--progress --progress",
    "--help --steps 3",
    "--help --help",
    "--json --html",
    "--letters --only a",
    "--letters --help",
    "--steps 0",
    "--steps=1000000000",
    "solve",
];

#[test]
fn refused_words(rt: HostRuntime) -> Result<(), Fail> {
    for words in REFUSED_WORDS {
        shows(
            &rt,
            rt.alloc(),
            Program::Documents,
            words,
            b"",
            USAGE,
            Status::Usage,
        )?;
    }
    Ok(())
}

/// Nothing is answered of a document with a fault, nor of a name that nothing has.
const REFUSED_DOCUMENTS: &[Row] = &[
    (
        "",
        b"traces = 1",
        b"document fault in the document: traces wants \"infinite\" or \"finite\"\n",
        Status::Text,
    ),
    (
        "--steps 5",
        b"ensures = []",
        b"document fault in the document: unknown key ensures\n",
        Status::Text,
    ),
    (
        "",
        b"[require]\nname = \"a\"",
        b"document fault in the document: require wants an array of tables\n",
        Status::Text,
    ),
    (
        "",
        b"require = [1]",
        b"document fault in require 1: it is no table\n",
        Status::Text,
    ),
    (
        "--only a",
        b"[[require]]\nname = \"a\"\nformulas = \"p\"",
        b"document fault in require 1 (a): unknown key formulas\n",
        Status::Text,
    ),
    (
        "",
        b"[[require]]\nname = \" one \\t <two>\\n\"",
        b"document fault in require 1 (one <two>): no key formula\n",
        Status::Text,
    ),
    (
        "",
        b"[[require]]\nname = \"\"\nformula = \"p\"",
        b"document fault in require 1: the name is empty\n",
        Status::Text,
    ),
    (
        "",
        b"[[assume]]\nname = \"a\"\nformula = \"p\"\n[[ensure]]\nname = \"a\"\nformula = \"p\"",
        b"document fault in ensure 1 (a): the name stands twice\n",
        Status::Text,
    ),
    (
        "",
        b"[[allow]]\nname = \"a\"\ntext = 7\nformula = \"p\"",
        b"document fault in allow 1 (a): text wants a text\n",
        Status::Text,
    ),
    (
        "",
        b"[[define]]\nname = \"F\"\nformula = \"p\"",
        b"document fault in define 1 (F): the name is no letter\n",
        Status::Text,
    ),
    (
        "",
        b"[[require]]\nname = \"a\"\nformula = \"p $\"",
        b"lexical fault in require 1 (a) at byte 2\n    line 1, column 3\n    p $\n      ^\n",
        Status::Text,
    ),
    (
        "--only a",
        b"[[require]]\nname = \"a\"\nformula = \"p &\"",
        b"grammar fault in require 1 (a) at byte 3\n    line 1, column 4\n    p &\n       ^\n",
        Status::Text,
    ),
    (
        "",
        b"[[behaviour]]\nname = \"log\"",
        b"document fault in behaviour 1 (log): it has either states, or stem and loop\n",
        Status::Text,
    ),
    (
        "",
        b"[[behaviour]]\nname = \"log\"\nstates = []",
        b"document fault in behaviour 1 (log): states is empty\n",
        Status::Text,
    ),
    (
        "",
        b"[[behaviour]]\nname = \"log\"\nstem = []\nloop = []",
        b"document fault in behaviour 1 (log): loop is empty\n",
        Status::Text,
    ),
    (
        "",
        b"[[behaviour]]\nname = \"log\"\nstates = [\"p\"]",
        b"document fault in behaviour 1 (log): states wants an array of states, each an array of letters\n",
        Status::Text,
    ),
    (
        "--only b",
        b"[[require]]\nname = \"a\"\nformula = \"p\"",
        b"no item b\n",
        Status::Usage,
    ),
    (
        "--cert=b --workers 16 --steps 9 --progress",
        b"[[require]]\nname = \"a\"\nformula = \"p\"",
        b"no item b\n",
        Status::Usage,
    ),
    (
        "",
        b"traces = \"\xFF\"",
        b"document fault at byte 10: not UTF-8\n",
        Status::Text,
    ),
];

#[test]
fn refused_documents(rt: HostRuntime) -> Result<(), Fail> {
    show_rows(&rt, rt.alloc(), Program::Documents, REFUSED_DOCUMENTS)
}

/// A formula, and how what is said of its fault ends: the place, and what other tools write.
const PLACES: &[(&str, &str)] = &[
    (
        "G (busy => F[0, 3] lamp)",
        "at byte 12\n    line 1, column 13\n    G (busy => F[0, 3] lamp)\n                ^\n    \
        hint: numbers from 0 to 255 without a blank, as in F[0,3] and X[3]\n",
    ),
    (
        "p & (\n\té == q)\n",
        "at byte 10\n    line 2, column 4\n     é == q)\n       ^\n    hint: <-> in place of ==\n",
    ),
    (
        "G (always p)",
        "at byte 10\n    line 1, column 11\n    G (always p)\n              ^\n    hint: G in place of always\n",
    ),
    (
        "p and q",
        "at byte 2\n    line 1, column 3\n    p and q\n      ^\n    hint: & in place of and\n",
    ),
    (
        "GF p",
        "at byte 3\n    line 1, column 4\n    GF p\n       ^\n    hint: G F in place of GF\n",
    ),
    ("", "at byte 0\n    line 1, column 1\n    \n    ^\n"),
];

#[test]
fn places_of_faults(rt: HostRuntime) -> Result<(), Fail> {
    let alloc = rt.alloc();
    for (formula, wanted) in PLACES {
        let mut input = Vec::from_slice(alloc, b"[[require]]\nname = \"a\"\nformula = \"\"\"")?;
        input.extend_from_slice(formula.as_bytes())?;
        input.extend_from_slice(b"\"\"\"\n")?;
        let call = called(&rt, alloc, Program::Documents, "", &input)?;
        assert!(rt;
            call.status == Status::Text && call.text.ends_with(wanted.as_bytes()),
            "{formula}"
        );
    }
    Ok(())
}

const ONE: &[u8] = b"traces = \"finite\"\n[[require]]\nname = \"a\"\nformula = \"p\"\n";

/// A document whose items conflict.
const CONFLICT: &[u8] = b"traces = \"finite\"\n[[assume]]\nname = \"a\"\nformula = \"p\"\n\
    [[require]]\nname = \"b\"\nformula = \"!p\"\n[[require]]\nname = \"c\"\nformula = \"q\"\n";

/// One of which one item follows from the other.
const FOLLOWING: &[u8] = b"traces = \"finite\"\n[[require]]\nname = \"both\"\nformula = \"p & q\"\n\
    [[require]]\nname = \"one\"\nformula = \"p\"\n[[ensure]]\nname = \"other\"\nformula = \"q\"\n\
    [[behaviour]]\nname = \"log\"\nstates = [[\"p\", \"q\"]]\n";

/// Words, a document, and how what is printed begins: answers that are settled by the formulas, and the help,
/// which reads nothing.
const FRONTS: &[Row] = &[
    (
        "",
        ONE,
        b"consistent: 1 of 1\n      0\n    p #\n\nperhaps a slip\n    p: in a alone\n\n\
            as wished\n    met together: 1 of 1\n    says something new: 1 of 1\n",
        Status::Good,
    ),
    (
        "",
        CONFLICT,
        b"conflict: a, b\n    a\n        p\n    b\n        !p\n    no first state meets them\n\n\
            consistent: 1 of 3\n    without: a, b\n      0\n    q #\n\nperhaps a slip\n    q: in c alone\n\n\
            not as wished\n    met together: 1 of 3\n    says something new: 1 of 1\n",
        Status::Negative,
    ),
    (
        "--only a --steps 100",
        ONE,
        b"consistent: 1 of 1\n",
        Status::Good,
    ),
    ("", b"", b"consistent: 0 of 0\n", Status::Good),
    (
        "--json --only a",
        ONE,
        b"{\"answers\":[{\"answer\":\"consistent\",",
        Status::Good,
    ),
    (
        "--html --steps 9",
        CONFLICT,
        b"<!DOCTYPE html>\n<html lang=\"en\">\n",
        Status::Negative,
    ),
    ("--letters", CONFLICT, b"p: a, b\nq: c\n", Status::Good),
    (
        "--only c --workers 16",
        CONFLICT,
        b"conflict: a, b\n",
        Status::Negative,
    ),
    (
        "",
        b"[[require]]\nname = \"a\" \"b\"\n",
        b"document fault at line 2, column ",
        Status::Text,
    ),
    (
        "--help",
        b"= no document",
        b"usage: black_requirements [--json | --html] [--only NAME] ",
        Status::Good,
    ),
];

/// What the program prints begins as the row says, and nothing is noted.
fn begins<R: Threads + Abort + Sync>(rt: &R, alloc: Global, row: &Row) -> Result<Call, Fail> {
    let (words, input, front, status) = *row;
    let call = called(rt, alloc, Program::Documents, words, input)?;
    assert!(rt;
        call.status == status && call.text.starts_with(front),
        "{words}"
    );
    assert!(rt; call.notes.is_empty());
    Ok(call)
}

#[test]
fn answers(rt: HostRuntime) -> Result<(), Fail> {
    for row in FRONTS {
        begins(&rt, rt.alloc(), row)?;
    }
    Ok(())
}

#[test]
fn help_is_short(rt: HostRuntime) -> Result<(), Fail> {
    let call = called(&rt, rt.alloc(), Program::Documents, "--help", b"")?;
    assert!(rt; call.text.iter().filter(|byte| **byte == b'\n').count() <= 30);
    Ok(())
}

const CERTIFICATES: &[Row] = &[
    ("--cert a", CONFLICT, b"(p & !p)\n---\n", Status::Good),
    (
        "--cert b --workers 4",
        CONFLICT,
        b"(p & !p)\n---\n",
        Status::Good,
    ),
    (
        "--cert c",
        CONFLICT,
        b"no certificate: nothing about c is impossible\n",
        Status::Negative,
    ),
    (
        "--cert one",
        FOLLOWING,
        b"((p & q) & !p)\n---\n",
        Status::Good,
    ),
    (
        "--steps 1000 --cert=other",
        FOLLOWING,
        b"((p & q) & !q)\n---\n",
        Status::Good,
    ),
    (
        "--cert both",
        FOLLOWING,
        b"no certificate: nothing about both is impossible\n",
        Status::Negative,
    ),
    (
        "--cert log",
        FOLLOWING,
        b"no certificate: nothing about log is impossible\n",
        Status::Negative,
    ),
    ("--cert none", FOLLOWING, b"no item none\n", Status::Usage),
];

/// A certificate is printed with its formula in front, and `black_refute --check` verifies it; where nothing
/// is impossible, it is said.
#[test]
fn certificates(rt: HostRuntime) -> Result<(), Fail> {
    let alloc = rt.alloc();
    for row in CERTIFICATES {
        let call = begins(&rt, alloc, row)?;
        let verdict = called(&rt, alloc, Program::Refuter, "--check --finite", &call.text)?;
        assert!(rt;
            (verdict.status == Status::Good) == (call.status == Status::Good),
            "{}",
            row.0
        );
    }
    Ok(())
}

const TOGETHER: &[u8] = b"can all of them be met together?\n";

const ONLY_OTHER: &[u8] = b"can all of them be met together?\ndoes it follow? other\n";

/// Lines on the progress stand in the notes, and the answer is the same, whoever answers the questions.
#[test]
fn lines_on_progress(rt: HostRuntime) -> Result<(), Fail> {
    let alloc = rt.alloc();
    let table: [(&str, &[u8]); 3] = [
        ("", FOLLOWING),
        ("--json", CONFLICT),
        ("--cert one", FOLLOWING),
    ];
    for (words, input) in table {
        let plain = called(&rt, alloc, Program::Documents, words, input)?;
        let told = called(
            &rt,
            alloc,
            Program::Documents,
            &format!(in alloc; "{words} --progress --workers 3")?,
            input,
        )?;
        assert!(rt;
            plain.status == told.status && plain.text == told.text,
            "{words}"
        );
        assert!(rt;
            plain.notes.is_empty() && told.notes.starts_with(TOGETHER),
            "{words}"
        );
    }
    let call = called(
        &rt,
        alloc,
        Program::Documents,
        "--progress --only other",
        FOLLOWING,
    )?;
    assert!(rt; *call.notes == *ONLY_OTHER);
    Ok(())
}
