// Devices that fail: a read that fails leaves nothing written, and a write that fails a front. Notes that
// fail change nothing.
use crate::calls::{Program, run};
use black_top::Status;
use ltl_io::{MemorySink, MemorySource};
use std::test::Fail;

/// A program, its words and its input, how many bytes a read gives and a write takes, and what is written
/// where nothing fails.
type Asked = (
    Program,
    &'static str,
    &'static [u8],
    usize,
    usize,
    &'static [u8],
);

const SOLVED: Asked = (
    Program::Black,
    "solve",
    b"p",
    1,
    10,
    b"SAT 0\n{\"kind\":\"infinite\",\"loop\":[[]],\"stem\":[[\"p\"]]}\n",
);

const REFUTED: Asked = (Program::Refuter, "--progress", b"Y p", 2, 3, b"UNSAT\n");

const REFUSED: Asked = (
    Program::Documents,
    "",
    b"no = 1",
    2,
    3,
    b"document fault in the document: unknown key no\n",
);

/// Lines on the progress are written before the answer, which begins so.
const REPORTED: Asked = (
    Program::Documents,
    "--progress --only a",
    b"[[require]]\nname = \"a\"\nformula = \"p\"\n",
    1000,
    10,
    b"consistent",
);

/// What is asked, the calls of `read` that fail, those of `write`, the room of the sink, the status, and how
/// many bytes are written.
type Row = (Asked, &'static [u64], &'static [u64], usize, Status, usize);

const ROWS: &[Row] = &[
    (SOLVED, &[1], &[], 64, Status::ReadFault, 0),
    (SOLVED, &[2], &[], 64, Status::ReadFault, 0),
    (SOLVED, &[3], &[], 64, Status::Sat, 53),
    (SOLVED, &[], &[1], 64, Status::WriteFault, 0),
    (SOLVED, &[], &[6], 64, Status::WriteFault, 50),
    (SOLVED, &[], &[7], 64, Status::Sat, 53),
    (SOLVED, &[], &[], 20, Status::WriteFault, 20),
    (REFUTED, &[2], &[], 64, Status::ReadFault, 0),
    (REFUTED, &[], &[2], 64, Status::WriteFault, 3),
    (REFUTED, &[], &[], 64, Status::Unsat, 6),
    (REFUSED, &[2], &[], 64, Status::ReadFault, 0),
    (REFUSED, &[], &[2], 64, Status::WriteFault, 3),
    (REFUSED, &[], &[], 64, Status::Text, 47),
    (REPORTED, &[], &[2], 64, Status::WriteFault, 10),
];

#[test]
fn devices_that_fail(rt: HostRuntime) -> Result<(), Fail> {
    let alloc = rt.alloc();
    for (asked, reads, writes, room, wanted, count) in ROWS {
        let (program, words, input, given, taken, whole) = *asked;
        assert!(rt; 0 < given && 0 < taken && *count <= whole.len());
        let mut source = MemorySource::new(input.to_vec(alloc)?, given, reads.to_vec(alloc)?);
        let mut sink = MemorySink::new(alloc, *room, taken, writes.to_vec(alloc)?)?;
        let mut notes = MemorySink::new(alloc, 64, 64, [1].to_vec(alloc)?)?;
        let status = run(
            &rt,
            alloc,
            program,
            words,
            &mut source,
            &mut sink,
            &mut notes,
        )?;
        assert!(rt;
            status == *wanted && sink.content() == &whole[..*count],
            "{words}"
        );
    }
    Ok(())
}
