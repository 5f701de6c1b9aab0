//! A source, a sink and a store over what the system gives. They tell no content.
mod files;
mod reader;
mod writer;

/// How many times a read or a write is tried again that a signal cut short.
const RETRIES: usize = 64;

pub use files::FileStore;
pub use reader::ReadSource;
pub use writer::WriteSink;
