//! Numbers of names.
use gft_core::{Name, NoMemory, Shared};
use indexmap::IndexSet;
use std::alloc::Global;

/// Names, each by the number of names that were met before it.
#[derive(Drop)]
pub struct Names {
    met: IndexSet<String>,
    kept: Vec<Shared<Name>>,
}

impl Names {
    /// No name. It takes no memory.
    pub fn new(alloc: Global) -> Names {
        Names {
            met: IndexSet::new(alloc),
            kept: Vec::new(alloc),
        }
    }

    /// The number of a name that was met. One look-up.
    pub fn find(&self, name: &Name) -> Option<u32> {
        match self.met.get_index_of(name.as_str()) {
            None => None,
            Some(number) => u32::try_from(number).ok(),
        }
    }

    /// The number of a name, which is met from now on.
    pub fn number(&mut self, alloc: Global, name: &Name) -> Result<u32, NoMemory> {
        if let Some(number) = self.find(name) {
            return Ok(number);
        }
        let Ok(number) = u32::try_from(self.met.len()) else {
            return Err(NoMemory);
        };
        self.keep(alloc, name)?;
        Ok(number)
    }

    fn keep(&mut self, alloc: Global, name: &Name) -> Result<(), NoMemory> {
        self.kept.push(Shared::new(alloc, name.copy(alloc)?)?)?;
        self.met.insert(String::from_str(alloc, name.as_str())?)?;
        Ok(())
    }

    /// The name of that number. None where there is no such number.
    pub fn name(&self, number: u32) -> Option<&Name> {
        match self.kept.get(number as usize) {
            None => None,
            Some(name) => Some(name.get()),
        }
    }

    /// One more owner of the name of that number. None where there is no such number.
    pub fn shared(&self, number: u32) -> Result<Option<Shared<Name>>, NoMemory> {
        match self.kept.get(number as usize) {
            None => Ok(None),
            Some(name) => Ok(Some(name.share()?)),
        }
    }

    /// The text of the name of that number, the empty one where there is no such number.
    pub fn text(&self, number: u32) -> &str {
        match self.kept.get(number as usize) {
            None => "",
            Some(name) => name.get().as_str(),
        }
    }
}
