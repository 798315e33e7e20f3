// The programs over memory, as each `main` has its own over the standard streams.
use black_top::Status;
use ltl_io::{MemorySink, MemorySource, NoGate};
use std::alloc::{AllocError, Global};
use std::process::Abort;
use std::test::Fail;
use std::thread::Threads;

/// Which program is called.
#[derive(Clone, Copy)]
pub enum Program {
    Black,
    Refuter,
    Documents,
}

/// What a call comes to.
#[derive(Drop)]
pub struct Call {
    pub status: Status,
    pub text: Vec<u8>,
    pub notes: Vec<u8>,
}

/// Command words, an input, and what is shown.
pub type Row = (&'static str, &'static [u8], &'static [u8], Status);

pub(crate) fn list(alloc: Global, words: &str) -> Result<Vec<String>, AllocError> {
    let mut all = Vec::new(alloc);
    for word in words.split_whitespace() {
        all.push(String::from_str(alloc, word)?)?;
    }
    Ok(all)
}

/// A formula, a separator line and a second part.
pub(crate) fn joined(alloc: Global, formula: &[u8], second: &[u8]) -> Result<Vec<u8>, AllocError> {
    let mut input = formula.to_vec(alloc)?;
    input.extend_from_slice(b"\n---\n")?;
    input.extend_from_slice(second)?;
    Ok(input)
}

/// The program's status over these streams. `black` has no notes.
pub(crate) fn run<R: Threads + Sync>(
    rt: &R,
    alloc: Global,
    program: Program,
    words: &str,
    source: &mut MemorySource,
    sink: &mut MemorySink,
    notes: &mut MemorySink,
) -> Result<Status, AllocError> {
    let words = list(alloc, words)?;
    let status = match program {
        Program::Black => black_top::run(rt, alloc, &words, source, sink, &NoGate),
        Program::Refuter => refute_top::run(alloc, &words, source, sink, notes),
        Program::Documents => requirements_top::run(rt, alloc, &words, source, sink, notes),
    };
    Ok(status)
}

/// The call over a source that gives a thousand bytes a read and sinks that take seven bytes a write.
pub(crate) fn called<R: Threads + Sync>(
    rt: &R,
    alloc: Global,
    program: Program,
    words: &str,
    input: &[u8],
) -> Result<Call, AllocError> {
    let mut source = MemorySource::new(input.to_vec(alloc)?, 1000, Vec::new(alloc));
    let mut sink = MemorySink::new(alloc, 65_536, 7, Vec::new(alloc))?;
    let mut notes = MemorySink::new(alloc, 65_536, 7, Vec::new(alloc))?;
    let status = run(
        rt,
        alloc,
        program,
        words,
        &mut source,
        &mut sink,
        &mut notes,
    )?;
    Ok(Call {
        status,
        text: sink.content().to_vec(alloc)?,
        notes: notes.content().to_vec(alloc)?,
    })
}

/// Just this is shown, and nothing is noted.
pub(crate) fn shows<R: Threads + Abort + Sync>(
    rt: &R,
    alloc: Global,
    program: Program,
    words: &str,
    input: &[u8],
    output: &[u8],
    status: Status,
) -> Result<(), Fail> {
    let call = called(rt, alloc, program, words, input)?;
    assert!(rt; call.status == status && *call.text == *output, "{words}");
    assert!(rt; call.notes.is_empty());
    Ok(())
}

pub(crate) fn show_rows<R: Threads + Abort + Sync>(
    rt: &R,
    alloc: Global,
    program: Program,
    rows: &[Row],
) -> Result<(), Fail> {
    for (words, input, output, status) in rows {
        shows(rt, alloc, program, words, input, output, *status)?;
    }
    Ok(())
}
