//! A source, a sink and a store in memory, with calls that fail as their maker says.
mod calls;
mod sink;
mod source;
mod store;

pub use sink::MemSink;
pub use source::MemSource;
pub use store::MemStore;
