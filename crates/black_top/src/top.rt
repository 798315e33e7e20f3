// The top call. What it ensures is all that a user is promised: first of every call, then command by command.
ghost use Rattle.std.specs.Prelude.{◌≡◌, ◌⊎◌, ◌<◌, ℕ, List, map, string_bytes, IsTrue};
ghost use Rattle.ltl_io.specs.Count.{Rose};
ghost use Rattle.report.specs.declared.status.Status.TheVariants as statuses;
ghost use Rattle.report.specs.Status.{is_answer};
ghost use Rattle.command_words.specs.Words.{Setting, Solve, Check, Trace as TraceWord, Demo, Batch};
ghost use Rattle.command_words.specs.Words.{System, Monitor, Depast, Asks};
ghost use Rattle.black_top.specs.Run.{IsAnswered, IsCutOff, NeedsNothing};
ghost use Rattle.black_top.specs.Solve.{SolvePromise};
ghost use Rattle.black_top.specs.Check.{CheckPromise};
ghost use Rattle.black_top.specs.Trace.{TracePromise};
ghost use Rattle.black_top.specs.Demo.{DemoPromise};
ghost use Rattle.black_top.specs.Batch.{BatchPromise};
ghost use Rattle.black_top.specs.System.{SystemPromise};
ghost use Rattle.black_top.specs.Monitor.{MonitorPromise};
ghost use Rattle.black_top.specs.Depast.{DepastPromise};

use crate::Status;
use crate::answer::answer;
use ltl_io::{Gate, ReadRefused, Sink, Source, write_whole};
use std::alloc::Global;
use std::thread::Threads;

/// Does all that the program does: takes the words, reads the source, writes the whole answer and gives its
/// status.
pub fn run<R: Threads + Sync, S: Source, K: Sink, G: Gate + Sync>(
    rt: &R,
    alloc: Global,
    words: &[String],
    source: &mut S,
    sink: &mut K,
    gate: &G,
) -> Status
    // With every status but those of faults and of want of memory, the answer is printed in full.
    ensures answered { IsTrue (is_answer result)
        → IsAnswered (map string_bytes words.now) (S.rest source.old)
        (K.content sink.old) (K.content sink.new) result }
    // Where neither count rose, it is answered, or there was no memory.
    ensures complete { ¬ (Rose (S.faults source.old) (S.faults source.new))
        → ¬ (Rose (K.faults sink.old) (K.faults sink.new))
        → (result ≡ statuses.NoMemory)
        ⊎ IsAnswered (map string_bytes words.now) (S.rest source.old)
        (K.content sink.old) (K.content sink.new) result }
    ensures read_fault { result ≡ statuses.ReadFault
        → Rose (S.faults source.old) (S.faults source.new) × (sink.new ≡ sink.old) }
    ensures read_count { S.faults source.old < S.faults source.new → result ≡ statuses.ReadFault }
    ensures write_fault { result ≡ statuses.WriteFault
        → Rose (K.faults sink.old) (K.faults sink.new)
        × IsCutOff (map string_bytes words.now) (S.rest source.old)
        (K.content sink.old) (K.content sink.new) }
    ensures write_count { K.faults sink.old < K.faults sink.new → result ≡ statuses.WriteFault }
    ensures no_memory { result ≡ statuses.NoMemory → sink.new ≡ sink.old }
    ensures unread { NeedsNothing (map string_bytes words.now) → source.new ≡ source.old }
    // What each command promises. A call is quiet where neither count rose.
    ensures solve { (settings : List Setting) → Asks (map string_bytes words.now) (Solve settings)
        → SolvePromise settings
        (¬ (Rose (S.faults source.old) (S.faults source.new))
        × ¬ (Rose (K.faults sink.old) (K.faults sink.new)))
        (S.rest source.old) (S.rest source.new) (K.content sink.old) (K.content sink.new) result }
    ensures check { (settings : List Setting) → Asks (map string_bytes words.now) (Check settings)
        → CheckPromise settings
        (¬ (Rose (S.faults source.old) (S.faults source.new))
        × ¬ (Rose (K.faults sink.old) (K.faults sink.new)))
        (S.rest source.old) (S.rest source.new) (K.content sink.old) (K.content sink.new) result }
    ensures trace { Asks (map string_bytes words.now) TraceWord
        → TracePromise (S.rest source.old) (S.rest source.new)
        (K.content sink.old) (K.content sink.new) result }
    ensures system { (settings : List Setting) → Asks (map string_bytes words.now) (System settings)
        → SystemPromise settings
        (¬ (Rose (S.faults source.old) (S.faults source.new))
        × ¬ (Rose (K.faults sink.old) (K.faults sink.new)))
        (S.rest source.old) (S.rest source.new) (K.content sink.old) (K.content sink.new) result }
    ensures demo { (number : ℕ) → Asks (map string_bytes words.now) (Demo number)
        → DemoPromise number
        (¬ (Rose (S.faults source.old) (S.faults source.new))
        × ¬ (Rose (K.faults sink.old) (K.faults sink.new)))
        (S.rest source.old) (S.rest source.new) (K.content sink.old) (K.content sink.new) result }
    ensures batch { (settings : List Setting) → Asks (map string_bytes words.now) (Batch settings)
        → BatchPromise settings
        (¬ (Rose (S.faults source.old) (S.faults source.new))
        × ¬ (Rose (K.faults sink.old) (K.faults sink.new)))
        (S.rest source.old) (S.rest source.new) (K.content sink.old) (K.content sink.new) result }
    ensures monitor { Asks (map string_bytes words.now) Monitor
        → MonitorPromise (S.rest source.old) (S.rest source.new)
        (K.content sink.old) (K.content sink.new) result }
    ensures depast { Asks (map string_bytes words.now) Depast
        → DepastPromise (S.rest source.old) (S.rest source.new)
        (K.content sink.old) (K.content sink.new) result }
{
    ltl_parser::laws::one_outcome();
    ltl_run::laws::run_satisfies();
    ltl_run::laws::unsatisfiable();
    ltl_run::laws::bounded();
    core_extract::laws::core_is_least();
    cert_check::laws::certified();
    cert_check::laws::answers();
    crate::laws::past_removed();
    match answer(rt, alloc, words, source, gate) {
        Err(ReadRefused::Fault) => Status::ReadFault,
        Err(ReadRefused::NoMemory) => Status::NoMemory,
        Ok(output) => match write_whole(sink, &output.text) {
            Ok(()) => output.status,
            Err(_) => Status::WriteFault,
        },
    }
}
