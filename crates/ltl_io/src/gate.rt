// What a test may watch of a parallel phase.

/// Is told of each piece before its work begins, on the thread that works on it. It answers
/// nothing, so it can change no answer; a test holds a piece here until another one has begun.
pub trait Gate {
    /// `piece` counts from 0 within the phase.
    fn begin(&self, piece: u32);
}

/// The gate of the program: it does nothing.
#[derive(Clone, Copy, Debug, PartialEq, Eq)]
pub struct NoGate;

impl Gate for NoGate {
    fn begin(&self, _piece: u32) {}
}
