// Where bytes go.
ghost use Rattle.std.specs.Prelude.{◌≡◌, ◌<◌, ◌≤◌, Option, List, ℕ, [], length, take, IfOk, OnOk, OnErr};
ghost use Rattle.std.specs.Prelude.{IsOk};
ghost use Rattle.ltl_io.specs.Count.{Rose, Counts};
ghost use Rattle.ltl_io.specs.Outside.{Grows, GrowsByFront};

use crate::Failed;

/// A write failed before all bytes were taken.
#[derive(Clone, Copy, Debug, PartialEq, Eq)]
pub struct WriteFault;

/// Something that takes bytes.
pub trait Sink {
    /// The bytes taken so far, where they are told.
    ghost content: { Self → Option (List ℕ) };

    /// How often it has failed.
    ghost faults: { Self → ℕ };

    /// Takes bytes from the front of `piece`, at least one, and answers how many. A call that
    /// fails may have taken some too, as where what was written is not flushed.
    fn write(&mut self, piece: &[u8]) -> Result<usize, Failed>
        requires { 0 < length piece.now }
        ensures length { IfOk result (λ n. n ≤ length piece.now) }
        ensures progress { IfOk result (λ n. 1 ≤ n) }
        ensures taken { IfOk result (λ n. Grows (take n piece.now) (content self.old) (content self.new)) }
        ensures err { OnErr result (GrowsByFront piece.now (content self.old) (content self.new)) }
        ensures cause { OnErr result (Rose (faults self.old) (faults self.new)) }
        ensures count { OnOk result (faults self.new ≡ faults self.old) }
        ensures counts { Counts (faults self.old) (faults self.new) };
}

/// Writes all bytes, in as many writes as the sink needs; for no bytes it makes none. It takes no
/// memory.
pub fn write_whole<K: Sink>(sink: &mut K, bytes: &[u8]) -> Result<(), WriteFault>
    ensures ok { OnOk result (Grows bytes.now (K.content sink.old) (K.content sink.new)) }
    ensures err { OnErr result (GrowsByFront bytes.now (K.content sink.old) (K.content sink.new)) }
    ensures cause { OnErr result (Rose (K.faults sink.old) (K.faults sink.new)) }
    ensures count { OnOk result (K.faults sink.new ≡ K.faults sink.old) }
    ensures counts { Counts (K.faults sink.old) (K.faults sink.new) }
    ensures nothing { bytes.now ≡ [] → IsOk result }
    ensures untouched { bytes.now ≡ [] → sink.new ≡ sink.old }
{
    let mut written = 0;
    while written < bytes.len() {
        match sink.write(&bytes[written..]) {
            Err(Failed) => return Err(WriteFault),
            Ok(n) => written += n,
        }
    }
    Ok(())
}
