//! Numbers of names.
use gft_core::NoMemory;
use indexmap::IndexSet;
use std::alloc::Global;

/// Names, each by the number of names that were met before it.
#[derive(Drop)]
pub struct Names {
    met: IndexSet<String>,
}

impl Names {
    /// No name. It takes no memory.
    pub fn new(alloc: Global) -> Names {
        Names {
            met: IndexSet::new(alloc),
        }
    }

    /// The number of a name that was met. One look-up.
    pub fn find(&self, name: &str) -> Option<u32> {
        match self.met.get_index_of(name) {
            None => None,
            Some(number) => u32::try_from(number).ok(),
        }
    }

    /// The number of a name, which is met from now on.
    pub fn number(&mut self, alloc: Global, name: &str) -> Result<u32, NoMemory> {
        if let Some(number) = self.find(name) {
            return Ok(number);
        }
        let Ok(number) = u32::try_from(self.met.len()) else {
            return Err(NoMemory);
        };
        let owned = String::from_str(alloc, name)?;
        self.met.insert(owned)?;
        Ok(number)
    }

    /// The name of that number.
    pub fn text(&self, number: u32) -> &str {
        match self.met.get_index(number as usize) {
            // excluded by number: only met names have numbers
            None => "",
            Some(name) => name.as_str(),
        }
    }
}
