//! `write_portable`: the grammar as a file.
use crate::line::Line;
use crate::refusing::stop_at;
use gft_core::{NoMemory, Text};
use gft_io::{SaveErr, Store};
use gft_pmcfg::Grammar;
use gft_portable::write;
use gft_rules::{Rule, Stop};
use std::alloc::Global;

/// The bytes of the file that the grammar is.
fn bytes_of(alloc: Global, grammar: &Grammar, file: &Text) -> Result<Vec<u8>, Stop> {
    match write(alloc, grammar)? {
        Some(bytes) => Ok(bytes),
        None => Err(stop_at(alloc, Rule::PortableTooLong, &[file.as_str()])),
    }
}

/// Writes a file.
fn save<F: Store>(alloc: Global, file: &Text, bytes: &[u8], store: &mut F) -> Result<(), Stop> {
    match store.save(alloc, file.as_str(), bytes) {
        Ok(()) => Ok(()),
        Err(SaveErr::Failed) => Err(stop_at(alloc, Rule::CannotWrite, &[file.as_str()])),
        Err(SaveErr::NoMemory) => Err(Stop::NoMemory),
    }
}

/// Writes the grammar, and gives the number of bytes.
fn saved<F: Store>(alloc: Global, line: &Line, file: &Text, store: &mut F) -> Result<usize, Stop> {
    if !file.as_str().ends_with(".gft") {
        return Err(stop_at(alloc, Rule::BadArgument, &[]));
    }
    let Some(held) = line.held() else {
        return Err(stop_at(alloc, Rule::NoGrammar, &[]));
    };
    let bytes = bytes_of(alloc, &held.grammar, file)?;
    save(alloc, file, bytes.as_slice(), store)?;
    Ok(bytes.len())
}

/// Writes the grammar that is held to the file, or refuses to.
pub fn write_portable<F: Store>(
    alloc: Global,
    line: &mut Line,
    file: &Text,
    store: &mut F,
) -> Result<(), NoMemory> {
    match saved(alloc, line, file, store) {
        Ok(count) => {
            let mut text = String::new(alloc);
            write!(text, "wrote {} {} bytes", file.as_str(), count)?;
            line.reply.add(text.as_str())
        }
        Err(Stop::Refused(refusal)) => line.reply.refuse_line(alloc, &refusal),
        Err(Stop::NoMemory) => Err(NoMemory),
    }
}
