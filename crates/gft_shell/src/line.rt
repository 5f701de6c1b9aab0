//! A line as it is answered.
use crate::held::Held;
use crate::pipe::answer_pipe;
use crate::refusing::plain;
use crate::reply::Reply;
use gft_command::{Read, read_line};
use gft_core::{NoMemory, Shared};
use gft_io::Store;
use gft_rules::Rule;
use std::alloc::Global;

/// The most bytes of a line.
const MOST_BYTES: usize = 65_536;

/// What is held after the pipes so far, their reply, and whether the session ends.
#[derive(Drop)]
pub struct Line {
    pub held: Option<Shared<Held>>,
    pub reply: Reply,
    pub quit: bool,
}

impl Line {
    /// A line of which nothing is answered.
    pub fn new(alloc: Global, held: &Option<Shared<Held>>) -> Result<Line, NoMemory> {
        let held = match held {
            None => None,
            Some(held) => Some(held.share()?),
        };
        Ok(Line {
            held,
            reply: Reply::new(alloc),
            quit: false,
        })
    }

    /// What is held.
    pub fn held(&self) -> Option<&Held> {
        match &self.held {
            None => None,
            Some(held) => Some(held.get()),
        }
    }

    fn refuse(&mut self, alloc: Global, rule: Rule) -> Result<(), NoMemory> {
        self.reply.refuse_line(alloc, &plain(alloc, rule))
    }
}

/// Answers a pipe, or its refusal.
fn answer_read<F: Store>(
    alloc: Global,
    line: &mut Line,
    read: &Read,
    store: &mut F,
) -> Result<(), NoMemory> {
    line.reply.begin();
    match read {
        Read::Pipe(commands) => answer_pipe(alloc, line, commands, store),
        Read::Refused(refusal) => line.reply.refuse_line(alloc, refusal),
    }
}

/// Answers the pipes of a text in order, none after a `quit`.
fn answer_text<F: Store>(
    alloc: Global,
    line: &mut Line,
    text: &str,
    store: &mut F,
) -> Result<(), NoMemory> {
    let reads = read_line(alloc, text)?;
    'pipes: for read in reads.as_slice() {
        answer_read(alloc, line, read, store)?;
        if line.quit {
            return Ok(());
        }
    }
    Ok(())
}

/// Answers a line. One over its limit, and another that is not UTF-8, has one refusal.
pub fn answer_line<F: Store>(
    alloc: Global,
    line: &mut Line,
    bytes: &[u8],
    store: &mut F,
) -> Result<(), NoMemory> {
    if bytes.len() > MOST_BYTES {
        return line.refuse(alloc, Rule::LineTooLong);
    }
    match std::str::from_utf8(bytes) {
        Ok(text) => answer_text(alloc, line, text, store),
        Err(_) => line.refuse(alloc, Rule::LineNotUtf8),
    }
}
