// What the program shows, over memory. The expected pictures were drawn by hand.
use crate::status::Status;
use crate::view::run;
use ltl_io::{MemorySink, MemorySource};
use std::alloc::{AllocError, Global};
use std::test::Fail;

fn list(alloc: Global, words: &str) -> Result<Vec<String>, AllocError> {
    let mut all = Vec::new(alloc);
    for word in words.split_whitespace() {
        all.push(String::from_str(alloc, word)?)?;
    }
    Ok(all)
}

/// The status and the output.
fn shown(alloc: Global, words: &str, input: &[u8]) -> Result<(Status, Vec<u8>), Fail> {
    let words = list(alloc, words)?;
    let mut source = MemorySource::new(input.to_vec(alloc)?, 1000, Vec::new(alloc));
    let mut sink = MemorySink::new(alloc, 65_536, 7, Vec::new(alloc))?;
    let status = run(alloc, &words, &mut source, &mut sink);
    Ok((status, sink.content().to_vec(alloc)?))
}

#[test]
fn pictures(rt: HostRuntime) -> Result<(), Fail> {
    let alloc = rt.alloc();
    let table: [(&str, &str, &str, Status); 11] = [
        (
            "",
            "SAT 2\n{\"kind\":\"infinite\",\"loop\":[[],[\"p\"]],\"stem\":[[\"p\"]]}\n",
            "SAT 2\n  0|1 2\np #|. #\n   ^--<\n",
            Status::Good,
        ),
        (
            "--only q,p,r",
            "{\"kind\":\"finite\",\"states\":[[\"p\"],[\"q\"]]}",
            "  0 1\nq . #\np # .\nr . .\n",
            Status::Good,
        ),
        (
            "--width=3",
            "{\"kind\":\"finite\",\"states\":[[\"p\"],[]]}",
            "  0\np #\n\n  1\np .\n",
            Status::Good,
        ),
        ("", "UNSAT 2\n", "UNSAT 2\n", Status::NoTrace),
        ("", "", "", Status::NoTrace),
        // a core has a brace, and begins no line with it
        (
            "",
            "UNSAT 2\ncore ((G F p & G !p) & {0})\n",
            "UNSAT 2\ncore ((G F p & G !p) & {0})\n",
            Status::NoTrace,
        ),
        (
            "",
            "SAT 1\n{\"kind\":\"infinite\",\"loop\":[],\"stem\":[]}\n",
            "SAT 1\ntrace fault: loop is empty\n",
            Status::Text,
        ),
        ("", "{\n", "trace fault: not JSON\n", Status::Text),
        ("", "{}", "trace fault: not a trace\n", Status::Text),
        (
            "",
            "{\"kind\":\"finite\",\"states\":[]}",
            "trace fault: states is empty\n",
            Status::Text,
        ),
        // letters that are named by several words
        (
            "--only p --only=q",
            "X p\n{\"kind\":\"finite\",\"states\":[[\"p\"]]}",
            "X p\n  0\np #\nq .\n",
            Status::Good,
        ),
    ];
    for (words, input, wanted, status) in table {
        let (given, text) = shown(alloc, words, input.as_bytes())?;
        assert!(rt; given == status && *text == *wanted.as_bytes(), "{wanted}");
    }
    Ok(())
}

// A picture in SVG stands alone.
#[test]
fn diagrams(rt: HostRuntime) -> Result<(), Fail> {
    let alloc = rt.alloc();
    let input = b"SAT 0\n{\"kind\":\"infinite\",\"loop\":[[]],\"stem\":[[\"p\"]]}\n";
    let (status, text) = shown(alloc, "--svg", input)?;
    assert_eq!(rt; status, Status::Good);
    let (head, _rest) = text.split_at(text.len().min(5));
    assert_eq!(rt; head, b"<?xml".as_slice());
    Ok(())
}

#[test]
fn words(rt: HostRuntime) -> Result<(), Fail> {
    let alloc = rt.alloc();
    let usage = "usage: black_view [--svg] [--width N] [--only LETTERS]\n";
    let table: [(&str, &str, Status); 11] = [
        ("--version", "black_view 1.0\n", Status::Good),
        ("--help --svg", usage, Status::Usage),
        ("trace", usage, Status::Usage),
        ("--width wide", usage, Status::Usage),
        ("--width=", usage, Status::Usage),
        ("--width", usage, Status::Usage),
        ("--width 1000000000", usage, Status::Usage),
        ("--width 3 --width 3", usage, Status::Usage),
        ("--svg --svg", usage, Status::Usage),
        ("--only --svg", usage, Status::Usage),
        ("--svg=p", usage, Status::Usage),
    ];
    for (words, wanted, status) in table {
        let (given, text) = shown(alloc, words, b"{}")?;
        assert!(rt; given == status && *text == *wanted.as_bytes(), "{words}");
    }
    let (given, text) = shown(alloc, "--help", b"")?;
    assert!(rt; given == Status::Good && text.starts_with(b"Draws the trace"));
    Ok(())
}

/// Words of one option, whose value is the name `p`, `count` times.
fn asked(alloc: Global, count: usize) -> Result<Vec<String>, AllocError> {
    let mut only = String::from_str(alloc, "--only=p")?;
    for _letter in 1..count {
        only.push_str(",p")?;
    }
    let mut words = list(alloc, "")?;
    words.push(only)?;
    Ok(words)
}

/// A finite trace of this number of states in which nothing is true, behind a line.
fn silent(alloc: Global, states: usize) -> Result<Vec<u8>, AllocError> {
    let mut text = b"SAT 9\n{\"kind\":\"finite\",\"states\":[[]".to_vec(alloc)?;
    for _state in 1..states {
        text.extend_from_slice(b",[]")?;
    }
    text.extend_from_slice(b"]}\n")?;
    Ok(text)
}

// One byte too many, and one letter too many: a row of numbers and 4,096 letters over 4,096 states.
#[test]
fn limits(rt: HostRuntime) -> Result<(), Fail> {
    let alloc = rt.alloc();
    let spaces = vec![in alloc; b' '; 16_777_217]?;
    let table = [
        (
            list(alloc, "")?,
            spaces,
            b"limit text 16777216\n".as_slice(),
        ),
        (
            asked(alloc, 4096)?,
            silent(alloc, 4096)?,
            b"SAT 9\nlimit cells 16777216\n",
        ),
    ];
    for (words, input, wanted) in table {
        let mut source = MemorySource::new(input, 65_536, Vec::new(alloc));
        let mut sink = MemorySink::new(alloc, 64, 64, Vec::new(alloc))?;
        let status = run(alloc, &words, &mut source, &mut sink);
        assert!(rt; status == Status::Limit && sink.content() == wanted);
    }
    Ok(())
}

// A read that fails leaves nothing written, and a write that fails a front.
#[test]
fn failing_devices(rt: HostRuntime) -> Result<(), Fail> {
    let alloc = rt.alloc();
    let table: [(&[u64], &[u64], Status, &[u8]); 2] = [
        (&[2], &[], Status::ReadFault, b""),
        (&[], &[2], Status::WriteFault, b"UNS"),
    ];
    for (reads, writes, wanted, front) in table {
        let words = list(alloc, "")?;
        let input = b"UNSAT 2\n".to_vec(alloc)?;
        let mut source = MemorySource::new(input, 3, reads.to_vec(alloc)?);
        let mut sink = MemorySink::new(alloc, 64, 3, writes.to_vec(alloc)?)?;
        let status = run(alloc, &words, &mut source, &mut sink);
        assert!(rt; status == wanted && sink.content() == front);
    }
    Ok(())
}

#[test]
fn codes(rt: HostRuntime) {
    let table = [
        (Status::Good, 0),
        (Status::NoTrace, 1),
        (Status::Usage, 2),
        (Status::Text, 3),
        (Status::Limit, 4),
        (Status::ReadFault, 5),
        (Status::WriteFault, 6),
        (Status::NoMemory, 7),
    ];
    for (status, code) in table {
        assert_eq!(rt; status.code(), code);
    }
}
