// The adapters over readers and writers. They tell the bytes that the reader or the writer tells. A
// file, a pipe and a terminal tell none, since no contract can say what those give or take: of them
// contracts see the count of faults alone.
ghost use Rattle.std.specs.Prelude.{◌≡◌, ◌≤◌, length, take, IfOk, OnErr};
ghost use Rattle.ltl_io.specs.Adapted.{Adapted};
ghost use Rattle.ltl_io.specs.Outside.{Grows, GrowsByFront};

use crate::{Failed, Sink, Source};
use std::io::{Read, Write};
use std::marker::Model;

/// A source over a reader. Every error of the reader is a fault, an interrupted read too.
#[derive(Drop)]
pub struct StdSource<R> {
    inner: R,
    faults: u64,
}

impl<R> Model for StdSource<R> {
    ghost use Rattle.ltl_io.specs.Adapted.{Adapted};

    ghost Value = { Adapted R };

    ghost view = { λ s. record { inner = s.inner; faults = s.faults } };
}

impl<R: Read> StdSource<R> {
    pub fn new(inner: R) -> StdSource<R>
        ensures { result ≡ record { inner = inner; faults = 0 } }
    {
        StdSource { inner, faults: 0 }
    }
}

impl<R: Read> Source for StdSource<R> {
    ghost rest = { λ s. R.remaining s.inner };

    ghost faults = { λ s. s.faults };

    #[tactic(auto, using(crate::proofs::Adapters::consumed_gives, crate::proofs::Adapters::kept_stays))]
    fn read(&mut self, into: &mut [u8]) -> Result<usize, Failed> {
        match self.inner.read(into) {
            Ok(n) => Ok(n),
            Err(_) => {
                self.faults = self.faults.saturating_add(1);
                Err(Failed)
            }
        }
    }
}

/// A sink over a writer. Each call writes once and then flushes, so that nothing waits in a
/// buffer when the program ends. An error of either, or a write of no byte, is a fault; after a
/// failed flush the bytes may have been written all the same.
#[derive(Drop)]
pub struct StdSink<W> {
    inner: W,
    faults: u64,
}

impl<W> Model for StdSink<W> {
    ghost use Rattle.ltl_io.specs.Adapted.{Adapted};

    ghost Value = { Adapted W };

    ghost view = { λ s. record { inner = s.inner; faults = s.faults } };
}

impl<W: Write> StdSink<W> {
    pub fn new(inner: W) -> StdSink<W>
        ensures { result ≡ record { inner = inner; faults = 0 } }
    {
        StdSink { inner, faults: 0 }
    }
}

impl<W: Write> Sink for StdSink<W> {
    ghost content = { λ s. W.contents s.inner };

    ghost faults = { λ s. s.faults };

    fn write(&mut self, piece: &[u8]) -> Result<usize, Failed> {
        let written = write_out(&mut self.inner, piece);
        if written.is_err() {
            self.faults = self.faults.saturating_add(1);
        }
        written
    }
}

// Writes once, and flushes where some byte was taken.
#[tactic(auto, using(crate::proofs::Adapters::flushed_grows, crate::proofs::Adapters::unflushed_front, crate::proofs::Adapters::written_front, crate::proofs::Adapters::kept_front))]
fn write_out<W: Write>(inner: &mut W, piece: &[u8]) -> Result<usize, Failed>
    ensures length { IfOk result (λ n. n ≤ length piece.now) }
    ensures progress { IfOk result (λ n. 1 ≤ n) }
    ensures taken { IfOk result (λ n. Grows (take n piece.now) (W.contents inner.old)
        (W.contents inner.new)) }
    ensures err { OnErr result (GrowsByFront piece.now (W.contents inner.old) (W.contents inner.new)) }
{
    let Ok(n) = inner.write(piece) else {
        return Err(Failed);
    };
    if n == 0 {
        return Err(Failed);
    }
    match inner.flush() {
        Ok(()) => Ok(n),
        Err(_) => Err(Failed),
    }
}
