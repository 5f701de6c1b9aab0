//! Where files are kept.
ghost use Rattle.std.specs.Prelude.{◌≡◌, ◌<◌, ◌≤◌, ℕ, List, Option, length, IfOk, IfSome, IsErrOf, OnOk};
ghost use Rattle.gft_io.specs.Outside.{Rose, Told, Same, Files};
ghost use Rattle.gft_io.specs.Stores.{Loads, Saves, KeepsOthers};

use gft_core::NoMemory;
use std::alloc::{AllocError, Global};

/// Why a file was not loaded. `TooLong`: it has more bytes than the limit. `Failed`: the store's
/// faults rose.
#[derive(Clone, Copy, Debug, PartialEq, Eq)]
pub enum LoadErr {
    Missing,
    TooLong,
    Failed,
    NoMemory,
}

/// Why a file was not saved. `Failed`: the store's faults rose, and what the file holds is open.
#[derive(Clone, Copy, Debug, PartialEq, Eq)]
pub enum SaveErr {
    Failed,
    NoMemory,
}

impl From<NoMemory> for LoadErr {
    ghost use Rattle.std.specs.Prelude.{◌≡◌};
    ghost use Rattle.gft_io.specs.declared.store.LoadErr.TheVariants.{NoMemory};

    ghost from_gives = { λ _ e. e ≡ NoMemory };

    fn from(_error: NoMemory) -> LoadErr {
        LoadErr::NoMemory
    }
}

impl From<AllocError> for LoadErr {
    ghost use Rattle.std.specs.Prelude.{◌≡◌};
    ghost use Rattle.gft_io.specs.declared.store.LoadErr.TheVariants.{NoMemory};

    ghost from_gives = { λ _ e. e ≡ NoMemory };

    fn from(_error: AllocError) -> LoadErr {
        LoadErr::NoMemory
    }
}

impl From<NoMemory> for SaveErr {
    ghost use Rattle.std.specs.Prelude.{◌≡◌};
    ghost use Rattle.gft_io.specs.declared.store.SaveErr.TheVariants.{NoMemory};

    ghost from_gives = { λ _ e. e ≡ NoMemory };

    fn from(_error: NoMemory) -> SaveErr {
        SaveErr::NoMemory
    }
}

impl From<AllocError> for SaveErr {
    ghost use Rattle.std.specs.Prelude.{◌≡◌};
    ghost use Rattle.gft_io.specs.declared.store.SaveErr.TheVariants.{NoMemory};

    ghost from_gives = { λ _ e. e ≡ NoMemory };

    fn from(_error: AllocError) -> SaveErr {
        SaveErr::NoMemory
    }
}

/// Files by their names.
pub trait Store {
    /// The contents of the files by the bytes of their names, where the store tells them.
    ghost files: { Self → Option Files };

    /// How often it failed; an adapter's stands at 2^64 - 1 once it is there.
    ghost faults: { Self → ℕ };

    /// The content of the file of this name, if it has at most `limit` bytes. It changes no file.
    fn load(&mut self, alloc: Global, name: &str, limit: u64) -> Result<Vec<u8>, LoadErr>
        ensures content { IfSome (files self.old) (λ told. Loads told name.now limit result) }
        ensures bound { IfOk result (λ bytes. length bytes.items ≤ limit) }
        ensures keeps { Told Same (files self.old) (files self.new) }
        ensures failed { IsErrOf result LoadErr.Failed → Rose (faults self.old) (faults self.new) }
        ensures faults { faults self.old ≤ faults self.new };

    /// Makes these bytes the content of the file of this name. Every other file keeps its content.
    fn save(&mut self, alloc: Global, name: &str, bytes: &[u8]) -> Result<(), SaveErr>
        ensures saved { OnOk result
            (Told (Saves name.now bytes.now) (files self.old) (files self.new)) }
        ensures others { IsErrOf result SaveErr.Failed
            → Told (KeepsOthers name.now) (files self.old) (files self.new) }
        ensures keeps { IsErrOf result SaveErr.NoMemory
            → Told Same (files self.old) (files self.new) }
        ensures failed { IsErrOf result SaveErr.Failed → Rose (faults self.old) (faults self.new) }
        ensures faults { faults self.old ≤ faults self.new };
}
