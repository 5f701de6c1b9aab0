//! The session and its calls.
use crate::commands::import::import;
use crate::commands::write_portable::write_portable;
use crate::held::{Held, replace};
use crate::line::{Line, answer_line};
use crate::step::Step;
use gft_core::{NoMemory, Shared, Text};
use gft_io::Store;
use std::alloc::Global;

/// A session: the grammar that it holds, if it holds one, with the tables that its commands work
/// over. What it holds is made aside and put in place at the end of a call, so a call that wants
/// memory leaves it as it was.
#[derive(Drop)]
pub struct Session {
    held: Option<Shared<Held>>,
}

impl Session {
    /// A session without a grammar. It takes no memory.
    pub fn new() -> Session {
        Session { held: None }
    }

    /// Holds what a line leaves, and gives its answer.
    fn end(&mut self, line: Line) -> Step {
        let Line { held, reply, quit } = line;
        replace(&mut self.held, held);
        reply.into_step(quit)
    }

    /// The answer to a line, whose newline is not part of it. A pipe that is refused leaves the
    /// session as it was before that pipe; after NoMemory the session is as it was before the line.
    pub fn step<F: Store>(
        &mut self,
        alloc: Global,
        line: &Vec<u8>,
        store: &mut F,
    ) -> Result<Step, NoMemory> {
        let mut answered = Line::new(alloc, &self.held)?;
        answer_line(alloc, &mut answered, line.as_slice(), store)?;
        Ok(self.end(answered))
    }

    /// The answer to the one command `import` with these file names, one or more. After NoMemory
    /// the session is unchanged.
    pub fn import<F: Store>(
        &mut self,
        alloc: Global,
        files: &Vec<Text>,
        store: &mut F,
    ) -> Result<Step, NoMemory> {
        let mut answered = Line::new(alloc, &self.held)?;
        import(alloc, &mut answered, files, store)?;
        Ok(self.end(answered))
    }

    /// The answer to the one command `write_portable` with this file name. After NoMemory the
    /// session is unchanged.
    pub fn save_as<F: Store>(
        &mut self,
        alloc: Global,
        file: &Text,
        store: &mut F,
    ) -> Result<Step, NoMemory> {
        let mut answered = Line::new(alloc, &self.held)?;
        write_portable(alloc, &mut answered, file, store)?;
        Ok(self.end(answered))
    }
}
