//! A store over the files of the system.
ghost use Rattle.std.specs.Prelude.{◌≡◌, ◌<◌, ◌≤◌, ◌+◌, ℕ, List, [], Option, None, Some, length, IfOk, IfSome, IsErrOf, ◌⊎◌};
ghost use Rattle.gft_io.specs.Outside.{raised, Rose};

use super::reader::ReadSource;
use super::writer::WriteSink;
use crate::chunk::{CHUNK, Chunk};
use crate::sink::write_all;
use crate::source::{Failed, Source};
use crate::store::{LoadErr, SaveErr, Store};
use std::alloc::Global;
use std::fs::OpenOptions;
use std::io::{self, ErrorKind};
use std::marker::Model;
use std::rt::Files;

/// A store over the files of the system, by their paths; contracts see how often it failed.
#[derive(Drop)]
pub struct FileStore<F: Files> {
    files: F,
    faults: u64,
}

impl<F: Files> Model for FileStore<F> {
    ghost use Rattle.std.specs.Prelude.{ℕ};

    ghost Value = { ℕ };

    ghost view = { λ a. a.faults };
}

impl<F: Files> FileStore<F> {
    /// No load and no save failed.
    pub fn new(files: F) -> FileStore<F>
        ensures { result ≡ 0 }
    {
        FileStore { files, faults: 0 }
    }
}

/// The bytes that a source has left, if these are at most `limit`. It takes at most one byte more.
pub(crate) fn read_whole<S: Source>(
    alloc: Global,
    source: &mut S,
    limit: u64,
) -> Result<Vec<u8>, LoadErr>
    ensures whole { IfOk result (λ bytes. IfSome (S.left source.old) (λ left. left ≡ bytes.items)) }
    ensures bound { IfOk result (λ bytes. length bytes.items ≤ limit) }
    ensures long { IsErrOf result LoadErr.TooLong
        → IfSome (S.left source.old) (λ left. limit < length left) }
    ensures failed { IsErrOf result LoadErr.Failed → Rose (S.faults source.old) (S.faults source.new) }
    ensures found { IsErrOf result LoadErr.Missing → ⊥ }
    ensures takes { (n : ℕ) × (n ≤ limit + 1) × (S.taken source.new ≡ raised (S.taken source.old) n) }
{
    let mut chunk = Chunk::new(alloc)?;
    let mut bytes = Vec::new(alloc);
    'reads: loop {
        let room = limit - bytes.len() as u64;
        let most = room.min(CHUNK as u64 - 1) as usize + 1;
        match chunk.fill(source, most) {
            Ok(()) => {}
            Err(Failed) => return Err(LoadErr::Failed),
        }
        let given = chunk.bytes();
        if given.is_empty() {
            return Ok(bytes);
        }
        if given.len() as u64 > room {
            return Err(LoadErr::TooLong);
        }
        bytes.extend_from_slice(given)?;
    }
}

impl<F: Files> FileStore<F> {
    /// Counts a fault.
    fn fail(&mut self)
        ensures counts { self.new ≡ raised self.old 1 }
        ensures rose { Rose self.old self.new }
    {
        self.faults = self.faults.saturating_add(1);
    }

    fn open_to_read(&self, name: &str) -> io::Result<F::File> {
        let mut how = OpenOptions::new();
        how.read(true);
        self.files.open_file(&how, name)
    }

    fn open_to_write(&self, name: &str) -> io::Result<F::File> {
        let mut how = OpenOptions::new();
        how.write(true).create(true).truncate(true);
        self.files.open_file(&how, name)
    }
}

impl<F: Files> Store for FileStore<F> {
    ghost files = { λ _. None };

    ghost faults = { λ s. s };

    fn load(&mut self, alloc: Global, name: &str, limit: u64) -> Result<Vec<u8>, LoadErr>
        ensures bound { IfOk result (λ bytes. length bytes.items ≤ limit) }
        ensures failed { IsErrOf result LoadErr.Failed → Rose self.old self.new }
        ensures faults { self.old ≤ self.new }
        ensures counts { (self.new ≡ self.old)
            ⊎ (IsErrOf result LoadErr.Failed × (self.new ≡ raised self.old 1)) }
    {
        let file = match self.open_to_read(name) {
            Ok(file) => file,
            Err(error) if error.kind() == ErrorKind::NotFound => return Err(LoadErr::Missing),
            Err(_) => {
                self.fail();
                return Err(LoadErr::Failed);
            }
        };
        let answer = read_whole(alloc, &mut ReadSource::new(file), limit);
        if let Err(LoadErr::Failed) = answer {
            self.fail();
        }
        answer
    }

    fn save(&mut self, _alloc: Global, name: &str, bytes: &[u8]) -> Result<(), SaveErr>
        ensures failed { IsErrOf result SaveErr.Failed → Rose self.old self.new }
        ensures faults { self.old ≤ self.new }
        ensures counts { (self.new ≡ self.old)
            ⊎ (IsErrOf result SaveErr.Failed × (self.new ≡ raised self.old 1)) }
    {
        let written = match self.open_to_write(name) {
            Ok(file) => write_all(&mut WriteSink::new(file), bytes).is_ok(),
            Err(_) => false,
        };
        if !written {
            self.fail();
            return Err(SaveErr::Failed);
        }
        Ok(())
    }
}
