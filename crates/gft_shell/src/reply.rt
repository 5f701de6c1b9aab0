//! The reply to a line, as far as it is made.
use crate::step::Step;
use gft_core::{NoMemory, Text};
use gft_rules::Refusal;
use std::alloc::Global;

/// The bytes of a reply, where those of the last pipe begin, and whether a refusal is among them.
#[derive(Drop)]
pub struct Reply {
    bytes: Vec<u8>,
    from: usize,
    refused: bool,
}

/// The line of a refusal, without its newline.
fn refusal_line(alloc: Global, refusal: &Refusal, files: &Vec<Text>) -> Result<Text, NoMemory> {
    match refusal.place {
        None => refusal.show(alloc, files),
        Some(place) => {
            if (place.file as usize) < files.len() {
                refusal.show(alloc, files)
            } else {
                // excluded by loading: a place is in a file that is loaded
                Text::from_str(alloc, refusal.rule.text())
            }
        }
    }
}

impl Reply {
    /// The empty reply. It takes no memory.
    pub fn new(alloc: Global) -> Reply {
        Reply {
            bytes: Vec::new(alloc),
            from: 0,
            refused: false,
        }
    }

    /// Begins the reply of the next pipe.
    pub fn begin(&mut self) {
        self.from = self.bytes.len();
    }

    /// Adds a line.
    pub fn add(&mut self, text: &str) -> Result<(), NoMemory> {
        self.bytes.extend_from_slice(text.as_bytes())?;
        self.bytes.push(b'\n')?;
        Ok(())
    }

    /// Puts the line of a refusal in the place of the reply of the pipe. `files` has the names of
    /// the loaded files.
    pub fn refuse(
        &mut self,
        alloc: Global,
        refusal: &Refusal,
        files: &Vec<Text>,
    ) -> Result<(), NoMemory> {
        let line = refusal_line(alloc, refusal, files)?;
        self.bytes.truncate(self.from);
        self.refused = true;
        self.add(line.as_str())
    }

    /// The answer with this reply.
    pub fn into_step(self, quit: bool) -> Step {
        let Reply {
            bytes,
            from: _,
            refused,
        } = self;
        Step {
            reply: bytes,
            refused,
            quit,
        }
    }

    /// Refuses the pipe where nothing is loaded.
    pub fn refuse_line(&mut self, alloc: Global, refusal: &Refusal) -> Result<(), NoMemory> {
        let files = Vec::new(alloc);
        self.refuse(alloc, refusal, &files)
    }
}
