// The top call. What it ensures is all that a user is promised.
ghost use Rattle.std.specs.Prelude.{◌≡◌, ◌⊎◌, ◌<◌, ℕ, List, map, string_bytes, IsTrue};
ghost use Rattle.ltl_io.specs.Count.{Rose};
ghost use Rattle.ltl_io.specs.Outside.{LosesAtMost};
ghost use Rattle.report.specs.declared.status.Status.TheVariants as statuses;
ghost use Rattle.report.specs.Status.{is_answer, has_read};
ghost use Rattle.program_input.specs.Taking.{IsTakenUpTo};
ghost use Rattle.requirements_top.specs.Words.{Query, Of, Asks, ReadNothing, AsksNoProgress};
ghost use Rattle.requirements_top.specs.Run.{IsAnswered, IsCutOff};
ghost use Rattle.requirements_top.specs.Wished.{AskAboutAll, WasAsWished, AskForCertificate, WasCertified};

use crate::Status;
use crate::answer::answer;
use ltl_io::{ReadRefused, Sink, Source, write_whole};
use requirement_answers::laws::verdict_is_right;
use requirement_certificate::laws::certificates_are_taken;
use std::alloc::Global;
use std::thread::Threads;

/// Does all that the program does: takes the words, reads the source, writes the whole answer and gives its
/// status. Lines on the progress go into the notes where they are asked for, and what comes of writing them
/// is not looked at.
pub fn run<R: Threads + Sync, S: Source, K: Sink, N: Sink>(
    rt: &R,
    alloc: Global,
    words: &[String],
    source: &mut S,
    sink: &mut K,
    notes: &mut N,
) -> Status
    // With every status but those of faults and of want of memory, the answer is printed in full.
    ensures answered { IsTrue (is_answer result)
        → IsAnswered (map string_bytes words.now) (S.rest source.old)
        (K.content sink.old) (K.content sink.new) result }
    // Where neither count rose, it is answered, or there was no memory.
    ensures complete { ¬ (Rose (S.faults source.old) (S.faults source.new))
        → ¬ (Rose (K.faults sink.old) (K.faults sink.new))
        → (result ≡ statuses.NoMemory)
        ⊎ IsAnswered (map string_bytes words.now) (S.rest source.old)
        (K.content sink.old) (K.content sink.new) result }
    ensures read_fault { result ≡ statuses.ReadFault
        → Rose (S.faults source.old) (S.faults source.new) × (sink.new ≡ sink.old) }
    ensures read_count { S.faults source.old < S.faults source.new → result ≡ statuses.ReadFault }
    ensures write_fault { result ≡ statuses.WriteFault
        → Rose (K.faults sink.old) (K.faults sink.new)
        × IsCutOff (map string_bytes words.now) (S.rest source.old)
        (K.content sink.old) (K.content sink.new) }
    ensures write_count { K.faults sink.old < K.faults sink.new → result ≡ statuses.WriteFault }
    ensures no_memory { result ≡ statuses.NoMemory → sink.new ≡ sink.old }
    // The source is not read where nothing is asked of a document. It is untouched past the first read that
    // brings what was taken above the limit of a document; where a read failed, no more than that limit was
    // taken before; and it is read until then, or to its end.
    ensures unread { ReadNothing (map string_bytes words.now) → source.new ≡ source.old }
    ensures most { LosesAtMost 4259840 (S.rest source.old) (S.rest source.new) }
    ensures before_fault { result ≡ statuses.ReadFault
        → LosesAtMost 4194304 (S.rest source.old) (S.rest source.new) }
    ensures taken { (query : Query) → Asks (map string_bytes words.now) (Of query)
        → IsTrue (has_read result) → IsTakenUpTo 4194304 (S.rest source.old) (S.rest source.new) }
    ensures silent { AsksNoProgress (map string_bytes words.now) → notes.new ≡ notes.old }
    // Where a report on the whole document ends well, the document is as it wishes.
    ensures wished { result ≡ statuses.Good → AskAboutAll (map string_bytes words.now)
        → WasAsWished (S.rest source.old) }
    // Where a certificate ends well, its text was printed, and no trace satisfies the formula in front.
    ensures certified { (name : List ℕ) → result ≡ statuses.Good
        → AskForCertificate (map string_bytes words.now) name
        → WasCertified name (S.rest source.old) (K.content sink.old) (K.content sink.new) }
{
    verdict_is_right();
    certificates_are_taken();
    claims::laws::nothing_satisfies();
    ltl_parser::laws::one_outcome();
    match answer(rt, alloc, words, source, notes) {
        Err(ReadRefused::Fault) => Status::ReadFault,
        Err(ReadRefused::NoMemory) => Status::NoMemory,
        Ok(output) => match write_whole(sink, &output.text) {
            Ok(()) => output.status,
            Err(_) => Status::WriteFault,
        },
    }
}
