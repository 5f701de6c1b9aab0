//! A store whose files are in memory.
ghost use Rattle.std.specs.Prelude.{◌≡◌, ◌<◌, ◌≤◌, ◌↔◌, ◌≢◌, ℕ, List, [], Option, Some, length, IfOk, IfSome, OnOk, IsErrOf, true, false, MatchOption, OnErr, Contains, ◌⊎◌};
ghost use Rattle.std.specs.Option.{option_map};
ghost use Rattle.std.specs.FinMap.{get, insert};
ghost use Rattle.gft_io.specs.Outside.{Rose, Told, Same, Files};
ghost use Rattle.gft_io.specs.Stores.{Loads, Saves, KeepsOthers};
ghost use Rattle.gft_io.specs.Memory.{uncalled, after_call, files_of, IsUnnamed, IsFirstNamed};

use super::calls::Calls;
use crate::store::{LoadErr, SaveErr, Store};
use gft_core::{NoMemory, Text};
use std::alloc::Global;
use std::marker::Model;

/// A store that tells its files. Of two files of one name the first counts.
#[derive(Drop)]
pub struct MemStore {
    files: Vec<(Text, Vec<u8>)>,
    calls: Calls,
}

impl Model for MemStore {
    ghost use Rattle.gft_io.specs.Memory.{StoreState, store_code, files_of};

    ghost Value = { StoreState };

    ghost coded = { store_code };

    ghost view = { λ a. record { files = files_of a.files.items; calls = a.calls } };
}

/// Where the first file of this name stands.
fn find(files: &[(Text, Vec<u8>)], name: &str) -> Option<usize>
    ensures { MatchOption result (IsUnnamed name.now files.now) (IsFirstNamed name.now files.now) }
{
    for (at, file) in files.iter().enumerate() {
        if file.0.as_str() == name {
            return Some(at);
        }
    }
    None
}

impl MemStore {
    /// A store of these files. `failing` has the numbers of the loads and saves that fail, counted
    /// together from 1.
    pub fn new(files: Vec<(Text, Vec<u8>)>, failing: Vec<u64>) -> MemStore
        ensures { result ≡ record { files = files_of files.items; calls = uncalled failing.items } }
    {
        MemStore {
            files,
            calls: Calls::new(failing),
        }
    }

    /// The content of the file of this name. None where there is no such file.
    fn content(&self, name: &str) -> Option<&Vec<u8>>
        ensures { get self.now.files name.now ≡ option_map (λ content. content.now.items) result }
    {
        match find(&self.files, name) {
            Some(at) => Some(&self.files[at].1),
            None => None,
        }
    }

    /// Gives the file of this name this content.
    fn put(&mut self, name: Text, content: Vec<u8>) -> Result<(), NoMemory>
        ensures ok { OnOk result (self.new.files ≡ insert self.old.files name content.items) }
        ensures err { OnErr result (self.new ≡ self.old) }
        ensures calls { self.new.calls ≡ self.old.calls }
    {
        match find(&self.files, name.as_str()) {
            Some(at) => self.files[at].1 = content,
            None => self.files.push((name, content))?,
        }
        Ok(())
    }
}

impl Store for MemStore {
    ghost files = { λ s. Some s.files };

    ghost faults = { λ s. s.calls.faults };

    fn load(&mut self, alloc: Global, name: &str, limit: u64) -> Result<Vec<u8>, LoadErr>
        ensures content { Loads self.old.files name.now limit result }
        ensures bound { IfOk result (λ bytes. length bytes.items ≤ limit) }
        ensures keeps { self.new.files ≡ self.old.files }
        ensures failed { IsErrOf result LoadErr.Failed
            → Rose self.old.calls.faults self.new.calls.faults }
        ensures faults { self.old.calls.faults ≤ self.new.calls.faults }

        // What a store need not promise.
        ensures fails { IsErrOf result LoadErr.Failed
            ↔ Contains self.old.calls.failing self.new.calls.made }
        ensures calls { (self.new.calls ≡ after_call self.old.calls false)
            ⊎ (IsErrOf result LoadErr.Failed × (self.new.calls ≡ after_call self.old.calls true)) }
        ensures unfailing { self.old.calls.failing ≡ []
            → self.new.calls.faults ≡ self.old.calls.faults }
    {
        if self.calls.call(false) {
            return Err(LoadErr::Failed);
        }
        let Some(content) = self.content(name) else {
            return Err(LoadErr::Missing);
        };
        if content.len() as u64 > limit {
            return Err(LoadErr::TooLong);
        }
        Ok(Vec::from_slice(alloc, content)?)
    }

    fn save(&mut self, alloc: Global, name: &str, bytes: &[u8]) -> Result<(), SaveErr>
        ensures saved { OnOk result (Saves name.now bytes.now self.old.files self.new.files) }
        ensures others { IsErrOf result SaveErr.Failed → self.new.files ≡ self.old.files }
        ensures keeps { IsErrOf result SaveErr.NoMemory → self.new.files ≡ self.old.files }
        ensures failed { IsErrOf result SaveErr.Failed
            → Rose self.old.calls.faults self.new.calls.faults }
        ensures faults { self.old.calls.faults ≤ self.new.calls.faults }

        // What a store need not promise.
        ensures fails { IsErrOf result SaveErr.Failed
            ↔ Contains self.old.calls.failing self.new.calls.made }
        ensures calls { (self.new.calls ≡ after_call self.old.calls false)
            ⊎ (IsErrOf result SaveErr.Failed × (self.new.calls ≡ after_call self.old.calls true)) }
        ensures unfailing { self.old.calls.failing ≡ []
            → self.new.calls.faults ≡ self.old.calls.faults }
    {
        if self.calls.call(false) {
            return Err(SaveErr::Failed);
        }
        let name = Text::from_str(alloc, name)?;
        let content = Vec::from_slice(alloc, bytes)?;
        self.put(name, content)?;
        Ok(())
    }
}
