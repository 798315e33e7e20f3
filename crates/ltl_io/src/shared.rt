// The program's gate may be lent to several workers at once: the check of this call is the proof.
use crate::NoGate;

fn shares<T: Send + Sync>(_: &T) {}

fn gate_is_shared(gate: &NoGate) {
    shares(gate);
}
