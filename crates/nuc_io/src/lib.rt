//! Sources and sinks of bytes that count their faults, and reading and writing over them.
#![tactic(auto)]

mod calls;
mod line;
mod mem_sink;
mod mem_source;
mod sink;
mod source;
mod std_sink;
mod std_source;
mod write;

pub use calls::Calls;
pub use line::{Line, LineBuf, read_line};
pub use mem_sink::MemSink;
pub use mem_source::MemSource;
pub use sink::{Sink, Wrote};
pub use source::{Got, Source};
pub use std_sink::StdSink;
pub use std_source::StdSource;
pub use write::{WriteFault, write_all};

#[cfg(test)]
mod tests;
