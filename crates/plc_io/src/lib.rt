//! The edge to the outside: sources that bytes are read from and sinks that bytes are written to.
//!
//! A source or a sink may fail at any call, and counts it. One in memory tells its bytes, so that a
//! contract can name them; one over std's readers and writers tells none.
#![tactic(auto)]

mod calls;
mod memory;
mod reading;
mod sink;
mod source;
mod standard;
mod writing;

pub use memory::{MemSink, MemSource};
pub use reading::{ReadError, read_all};
pub use sink::{Sink, Took};
pub use source::{Got, Source};
pub use standard::{StdSink, StdSource};
pub use writing::{WriteFault, write_all};
