//! The outside of the style engine: where its input comes from, where its output goes, and who is told
//! of its computations.
//!
//! What is outside can fail at any call. Each end counts its own faults, so that a failure is told
//! only where the count rose, and an end that knows its bytes tells them.
#![tactic(auto)]

mod gate;
mod memory_sink;
mod memory_source;
mod sink;
mod source;
mod std_sink;
mod std_source;

pub use gate::{Gate, OpenGate};
pub use memory_sink::MemorySink;
pub use memory_source::MemorySource;
pub use sink::{Sink, SinkRefused};
pub use source::{Failed, Source};
pub use std_sink::StdSink;
pub use std_source::StdSource;
