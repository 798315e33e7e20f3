// The one call of the program, behind its name.
ghost use Rattle.std.specs.Prelude.{◌≡◌, ◌⊎◌, ◌<◌, map, string_bytes, IsTrue, IfOk, OnOk, IsErrOf};
ghost use Rattle.ltl_io.specs.Count.{Rose, Counts};
ghost use Rattle.ltl_io.specs.Outside.{LosesAtMost};
ghost use Rattle.ltl_io.specs.declared.source.ReadRefused.TheVariants as read_refused;
ghost use Rattle.black_view.specs.declared.status.Status.TheVariants as statuses;
ghost use Rattle.black_view.specs.Status.{is_answer};
ghost use Rattle.black_view.specs.Output.{max_bytes};
ghost use Rattle.black_view.specs.View.{IsAnswer, IsAnswered, IsCutOff, help_text, version_text, usage_text};

use crate::output::{INPUT_LIMIT, Output, answer};
use crate::status::Status;
use crate::words::{Asked, request_in};
use ltl_io::{ReadRefused, Sink, Source, read_whole, write_whole};
use std::alloc::{AllocError, Global};

const VERSION: &[u8] = b"black_view 1.0\n";

const USAGE: &[u8] = b"usage: black_view [--svg] [--width N] [--only LETTERS]\n";

const HELP: &[u8] =
    b"Draws the trace in what `black solve`, `black system` or `black depast` prints.\nusage: black_view [--svg] [--width N] [--only LETTERS]\n  --svg           a timing diagram in SVG, in place of text\n  --width N       wrap the text at so many columns, 80 where none are given\n  --only LETTERS  these letters in this order, as in a,b,c\n  --help          this text, where it stands alone\n  --version       the version, where it stands alone\n";

/// Takes the words, reads the source where they ask for a picture, and writes what was before the trace and
/// the picture of the trace.
pub fn run<S: Source, K: Sink>(
    alloc: Global,
    words: &[String],
    source: &mut S,
    sink: &mut K,
) -> Status
    // With every status but those of faults and of want of memory, the answer is printed in full.
    ensures answered { IsTrue (is_answer result)
        → IsAnswered (map string_bytes words.now) (S.rest source.old) (S.rest source.new)
        (K.content sink.old) (K.content sink.new) result }
    // Where neither count rose, it is answered, or there was no memory.
    ensures complete { ¬ (Rose (S.faults source.old) (S.faults source.new))
        → ¬ (Rose (K.faults sink.old) (K.faults sink.new))
        → (result ≡ statuses.NoMemory)
        ⊎ IsAnswered (map string_bytes words.now) (S.rest source.old) (S.rest source.new)
        (K.content sink.old) (K.content sink.new) result }
    ensures read_fault { result ≡ statuses.ReadFault
        → Rose (S.faults source.old) (S.faults source.new) × (sink.new ≡ sink.old)
        × LosesAtMost max_bytes (S.rest source.old) (S.rest source.new) }
    ensures read_count { S.faults source.old < S.faults source.new → result ≡ statuses.ReadFault }
    ensures write_fault { result ≡ statuses.WriteFault
        → Rose (K.faults sink.old) (K.faults sink.new)
        × IsCutOff (map string_bytes words.now) (S.rest source.old) (S.rest source.new)
        (K.content sink.old) (K.content sink.new) }
    ensures write_count { K.faults sink.old < K.faults sink.new → result ≡ statuses.WriteFault }
    ensures no_memory { result ≡ statuses.NoMemory → sink.new ≡ sink.old }
{
    let output = match output(alloc, words, source) {
        Ok(output) => output,
        Err(ReadRefused::Fault) => return Status::ReadFault,
        Err(ReadRefused::NoMemory) => return Status::NoMemory,
    };
    match write_whole(sink, &output.text) {
        Ok(()) => output.status,
        Err(_) => Status::WriteFault,
    }
}

/// What is to be printed, and the status with it.
fn output<S: Source>(alloc: Global, words: &[String], source: &mut S) -> Result<Output, ReadRefused>
    ensures answer { IfOk result (λ out. IsAnswer (map string_bytes words.now) (S.rest source.old)
        (S.rest source.new) out.status out.text.items) }
    ensures fault { IsErrOf result read_refused.Fault → Rose (S.faults source.old) (S.faults source.new)
        × LosesAtMost max_bytes (S.rest source.old) (S.rest source.new) }
    ensures no_memory { IsErrOf result read_refused.NoMemory → S.faults source.new ≡ S.faults source.old }
    ensures count { OnOk result (S.faults source.new ≡ S.faults source.old) }
    ensures counts { Counts (S.faults source.old) (S.faults source.new) }
{
    match request_in(alloc, words)? {
        Asked::Help => Ok(told(alloc, Status::Good, HELP)?),
        Asked::Version => Ok(told(alloc, Status::Good, VERSION)?),
        Asked::Nothing => Ok(told(alloc, Status::Usage, USAGE)?),
        Asked::Picture(request) => {
            let bytes = read_whole(alloc, source, INPUT_LIMIT)?;
            let output = answer(alloc, &request, &bytes)?;
            Ok(output)
        }
    }
}

/// A text of the program's own.
fn told(alloc: Global, status: Status, text: &[u8]) -> Result<Output, AllocError>
    ensures { IfOk result (λ out. (out.status ≡ status) × (out.text.items ≡ text.now)) }
{
    let text = Vec::from_slice(alloc, text)?;
    Ok(Output { status, text })
}
