//! The outside as the program sees it: a source of bytes, a sink for bytes, and a gate for tests.
//! Each counts its faults, so that a contract can tell a fault of the outside from one of the
//! program. Over memory the bytes are told too, and a call can be made to fail.
#![tactic(auto)]

mod edge;
mod gate;
mod memory_sink;
mod memory_source;
mod shared;
mod sink;
mod source;
mod sure_source;

pub use edge::{StdSink, StdSource};
pub use gate::{Gate, NoGate};
pub use memory_sink::MemorySink;
pub use memory_source::MemorySource;
pub use sink::{Sink, WriteFault, write_whole};
pub use source::{Failed, ReadRefused, Source, read_whole};
pub use sure_source::SureSource;
