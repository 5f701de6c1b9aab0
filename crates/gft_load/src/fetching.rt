//! Files of a store, and the modules in them.
use crate::refusing::stop_at;
use gft_core::NoMemory;
use gft_io::{LoadErr, Store};
use gft_lex::lex;
use gft_parse::parse_module;
use gft_rules::{Rule, Stop};
use gft_syntax::Module;
use std::alloc::Global;

/// The most bytes of a source.
pub const SOURCE_LIMIT: u64 = 4_194_304;

/// The most bytes of a portable file.
pub const PORTABLE_LIMIT: u64 = 67_108_864;

/// What ends the name of a source.
const ENDING: &str = ".gf";

/// The folder of a source's name, without its slash, and its base name, which is the rest without
/// the ending.
pub fn source_name(name: &str) -> (Option<&str>, &str) {
    let (folder, rest) = match name.rsplit_once('/') {
        None => (None, name),
        Some((folder, rest)) => (Some(folder), rest),
    };
    (folder, rest.strip_suffix(ENDING).unwrap_or(rest))
}

/// The file of the module of that name in the folder.
pub fn file_of(alloc: Global, folder: Option<&str>, module: &str) -> Result<String, NoMemory> {
    let mut file = String::new(alloc);
    if let Some(folder) = folder {
        file.push_str(folder)?;
        file.push('/')?;
    }
    file.push_str(module)?;
    file.push_str(ENDING)?;
    Ok(file)
}

/// The bytes of a file of at most so many.
pub fn fetch<F: Store>(
    alloc: Global,
    store: &mut F,
    file: &str,
    limit: u64,
) -> Result<Vec<u8>, Stop> {
    match store.load(alloc, file, limit) {
        Ok(bytes) => Ok(bytes),
        Err(LoadErr::Missing) => Err(stop_at(alloc, Rule::MissingFile, &[file])),
        Err(LoadErr::TooLong) => Err(stop_at(alloc, Rule::FileTooLong, &[file])),
        Err(LoadErr::Failed) => Err(stop_at(alloc, Rule::CannotRead, &[file])),
        Err(LoadErr::NoMemory) => Err(Stop::NoMemory),
    }
}

/// The module of the source of that number.
pub fn module_of(alloc: Global, file: u32, bytes: &Vec<u8>) -> Result<Module, Stop> {
    if bytes.len() >= 4_294_967_296 {
        return Err(Stop::NoMemory); // excluded by the limit of a source
    }
    let tokens = lex(alloc, file, bytes)?;
    parse_module(alloc, file, &tokens)
}
