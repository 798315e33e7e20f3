// The top call. What it ensures is all that a user is promised.
ghost use Rattle.std.specs.Prelude.{◌≡◌, ◌⊎◌, ◌<◌, List, map, string_bytes, IsTrue};
ghost use Rattle.ltl_io.specs.Count.{Rose};
ghost use Rattle.report.specs.declared.status.Status.TheVariants as statuses;
ghost use Rattle.report.specs.Status.{is_answer};
ghost use Rattle.command_words.specs.Words.{Setting};
ghost use Rattle.command_words.specs.Refutation.{Refute, Verify, AsksRefutation};
ghost use Rattle.refute_top.specs.Refuting.{RefutePromise};
ghost use Rattle.refute_top.specs.Checking.{CheckPromise};
ghost use Rattle.refute_top.specs.Run.{IsAnswered, IsCutOff, AsksNothing, AsksNoProgress};

use crate::Status;
use crate::answer::answer;
use ltl_io::{ReadRefused, Sink, Source, write_whole};
use std::alloc::Global;

/// Does all that the program does: takes the words, reads the source, writes the whole answer and gives its
/// status. Lines on the progress go into the notes where they are asked for, and what comes of writing them
/// is not looked at.
pub fn run<S: Source, K: Sink, N: Sink>(
    alloc: Global,
    words: &[String],
    source: &mut S,
    sink: &mut K,
    notes: &mut N,
) -> Status
    // With every status but those of faults and of want of memory, the answer is printed in full.
    ensures answered { IsTrue (is_answer result)
        → IsAnswered (map string_bytes words.now) (S.rest source.old)
        (K.content sink.old) (K.content sink.new) result }
    // Where neither count rose, it is answered, or there was no memory.
    ensures complete { ¬ (Rose (S.faults source.old) (S.faults source.new))
        → ¬ (Rose (K.faults sink.old) (K.faults sink.new))
        → (result ≡ statuses.NoMemory)
        ⊎ IsAnswered (map string_bytes words.now) (S.rest source.old)
        (K.content sink.old) (K.content sink.new) result }
    ensures read_fault { result ≡ statuses.ReadFault
        → Rose (S.faults source.old) (S.faults source.new) × (sink.new ≡ sink.old) }
    ensures read_count { S.faults source.old < S.faults source.new → result ≡ statuses.ReadFault }
    ensures write_fault { result ≡ statuses.WriteFault
        → Rose (K.faults sink.old) (K.faults sink.new)
        × IsCutOff (map string_bytes words.now) (S.rest source.old)
        (K.content sink.old) (K.content sink.new) }
    ensures write_count { K.faults sink.old < K.faults sink.new → result ≡ statuses.WriteFault }
    ensures no_memory { result ≡ statuses.NoMemory → sink.new ≡ sink.old }
    ensures unread { AsksNothing (map string_bytes words.now) → source.new ≡ source.old }
    ensures silent { AsksNoProgress (map string_bytes words.now) → notes.new ≡ notes.old }
    // What is promised where a formula is to be refuted, and where a certificate is to be judged. A call is
    // quiet where neither count rose.
    ensures refute { (settings : List Setting)
        → AsksRefutation (map string_bytes words.now) (Refute settings)
        → RefutePromise settings
        (¬ (Rose (S.faults source.old) (S.faults source.new))
        × ¬ (Rose (K.faults sink.old) (K.faults sink.new)))
        (S.rest source.old) (S.rest source.new) (K.content sink.old) (K.content sink.new) result }
    ensures check { (settings : List Setting)
        → AsksRefutation (map string_bytes words.now) (Verify settings)
        → CheckPromise settings
        (¬ (Rose (S.faults source.old) (S.faults source.new))
        × ¬ (Rose (K.faults sink.old) (K.faults sink.new)))
        (S.rest source.old) (S.rest source.new) (K.content sink.old) (K.content sink.new) result }
{
    command_words::laws::one_refutation();
    ltl_parser::laws::one_outcome();
    claims::laws::nothing_satisfies();
    claim_check::laws::verdicts();
    claim_text::laws::texts();
    match answer(alloc, words, source, notes) {
        Err(ReadRefused::Fault) => Status::ReadFault,
        Err(ReadRefused::NoMemory) => Status::NoMemory,
        Ok(output) => match write_whole(sink, &output.text) {
            Ok(()) => output.status,
            Err(_) => Status::WriteFault,
        },
    }
}
