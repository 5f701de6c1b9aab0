//! Numbers of whole names.
use crate::names::Names;
use gft_core::{NoMemory, Shared};
use gft_syntax::Whole;
use indexmap::IndexSet;
use std::alloc::Global;

/// The numbers of the module and of the name in it.
#[derive(Clone, Copy, PartialEq, Eq, Hash)]
struct Parts {
    module: u32,
    name: u32,
}

/// Whole names, each by the number of those that were met before it.
#[derive(Drop)]
pub struct Wholes {
    met: IndexSet<Parts>,
    kept: Vec<Shared<Whole>>,
}

impl Wholes {
    /// No name. It takes no memory.
    pub fn new(alloc: Global) -> Wholes {
        Wholes {
            met: IndexSet::new(alloc),
            kept: Vec::new(alloc),
        }
    }

    /// The number of a whole name, which is met from now on. Three look-ups.
    pub fn number(
        &mut self,
        alloc: Global,
        names: &mut Names,
        whole: &Whole,
    ) -> Result<u32, NoMemory> {
        let module = names.number(alloc, &whole.module)?;
        let name = names.number(alloc, &whole.name)?;
        let (number, is_new) = self.met.insert_full(Parts { module, name })?;
        if is_new {
            self.keep(alloc, whole)?;
        }
        match u32::try_from(number) {
            Ok(number) => Ok(number),
            Err(_) => Err(NoMemory),
        }
    }

    fn keep(&mut self, alloc: Global, whole: &Whole) -> Result<(), NoMemory> {
        let module = whole.module.copy(alloc)?;
        let name = whole.name.copy(alloc)?;
        self.kept.push(Shared::new(alloc, Whole { module, name })?)?;
        Ok(())
    }

    /// The whole name of that number. None where there is no such number.
    pub fn whole(&self, number: u32) -> Option<&Whole> {
        match self.kept.get(number as usize) {
            None => None,
            Some(whole) => Some(whole.get()),
        }
    }

    /// One more owner of the whole name of that number. None where there is no such number.
    pub fn shared(&self, number: u32) -> Result<Option<Shared<Whole>>, NoMemory> {
        match self.kept.get(number as usize) {
            None => Ok(None),
            Some(whole) => Ok(Some(whole.share()?)),
        }
    }

    /// The text of the name in its module, the empty one where there is no such number.
    pub fn text(&self, number: u32) -> &str {
        match self.kept.get(number as usize) {
            None => "",
            Some(whole) => whole.get().name.as_str(),
        }
    }
}
