// The texts of the refusals.
ghost use Rattle.std.specs.Prelude.{◌≡◌, ◌++◌, OnOk};
ghost use Rattle.report.specs.Texts.{refused_text};

use crate::fault::Fault;
use crate::lines::{line, numbered};
use command_words::usage;
use std::alloc::AllocError;

/// Adds the line of the refusal, or the lines of the usage.
pub fn refused(fault: &Fault, out: &mut Vec<u8>) -> Result<(), AllocError>
    ensures { OnOk result (out.new.items ≡ out.old.items ++ refused_text fault.now) }
{
    match *fault {
        Fault::Usage => out.extend_from_slice(usage()),
        Fault::NoSeparator => line(b"no separator line", out),
        Fault::Text => line(b"limit text 1048576", out),
        Fault::Batch => line(b"limit batch 16777216", out),
        Fault::Lexical(byte) => numbered(b"lexical fault at byte ", byte.into(), out),
        Fault::Grammar(byte) => numbered(b"grammar fault at byte ", byte.into(), out),
        Fault::Nodes(count) => numbered(b"limit nodes 16384 have ", count.into(), out),
        Fault::PastNodes(count) => numbered(b"limit depast nodes 16384 have ", count.into(), out),
        Fault::Letters(depth) => numbered(
            b"limit letters 16777216 greatest depth ",
            depth.into(),
            out,
        ),
        Fault::Cells(count) => numbered(b"limit cells 67108864 have ", count, out),
        Fault::Certificate(byte) => numbered(b"certificate fault at byte ", byte.into(), out),
        Fault::NotJson => line(b"trace fault: not JSON", out),
        Fault::NotTrace => line(b"trace fault: not a trace", out),
        Fault::EmptyLoop => line(b"trace fault: loop is empty", out),
        Fault::EmptyStates => line(b"trace fault: states is empty", out),
        Fault::SystemStart => line(b"system fault in start", out),
        Fault::SystemStep => line(b"system fault in step", out),
        Fault::LooksAhead => line(b"monitor fault: future operator", out),
        Fault::State(number) => numbered(b"state fault at line ", number.into(), out),
    }
}
