//! What the program reads from and writes to, and the lines of what it reads.
#![tactic(auto)]

mod chunk;
mod host;
mod lines;
mod memory;
mod sink;
mod source;
mod store;

pub use host::{FileStore, ReadSource, WriteSink};
pub use lines::{LineErr, Lines};
pub use memory::{MemSink, MemSource, MemStore};
pub use sink::{Sink, write_all};
pub use source::{Failed, Source};
pub use store::{LoadErr, SaveErr, Store};
