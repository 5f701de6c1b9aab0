//! What a module has is gathered, and the first name that comes in two ways.
use crate::clashes::{Clash, Key, Standing};
use crate::declared::Space;
use crate::first::is_before;
use crate::names::Names;
use gft_core::{Name, NoMemory, Place};
use gft_syntax::Origin;
use indexmap::IndexMap;
use std::alloc::Global;
use std::cmp::Ordering;

/// The number of what the module itself gives, and of the module of a copy that is still to be
/// made.
pub const OWN: u32 = u32::MAX;

/// What is gathered: what stands under each name, the first clash, and the origins in order.
#[derive(Drop)]
pub struct Gathering {
    pub names: Names,
    standing: IndexMap<Key, Standing>,
    pub clash: Option<Clash>,
    origins: Vec<Origin>,
}

impl Gathering {
    /// Nothing gathered yet.
    pub fn new(alloc: Global) -> Gathering {
        Gathering {
            names: Names::new(alloc),
            standing: IndexMap::new(alloc),
            clash: None,
            origins: Vec::new(alloc),
        }
    }

    /// Whether the one clash comes before the other: by place, then by name, then by the earlier
    /// module.
    fn comes_first(&self, a: Clash, b: Clash) -> bool {
        if a.place != b.place {
            return is_before(a.place, b.place);
        }
        match self.names.text(a.name).cmp(self.names.text(b.name)) {
            Ordering::Less => true,
            Ordering::Equal => a.earlier < b.earlier,
            Ordering::Greater => false,
        }
    }

    /// One more clash.
    fn see(&mut self, clash: Clash) {
        let is_first = match self.clash {
            None => true,
            Some(before) => self.comes_first(clash, before),
        };
        if is_first {
            self.clash = Some(clash);
        }
    }

    /// A name that a module of the header gives. Whether nothing stood under it before.
    pub fn give(&mut self, key: Key, standing: Standing, place: Place) -> Result<bool, NoMemory> {
        let Some(before) = self.standing.get(&key).copied() else {
            self.standing.insert(key, standing)?;
            return Ok(true);
        };
        if before.module != standing.module || before.judgement != standing.judgement {
            let (earlier, later) = (before.given, standing.given);
            self.see(Clash {
                place,
                name: key.name,
                earlier,
                later,
            });
        }
        Ok(false)
    }

    /// A name that the module itself declares. Whether nothing stood under it before.
    pub fn declare(
        &mut self,
        key: Key,
        standing: Standing,
        place: Place,
    ) -> Result<bool, NoMemory> {
        let Some(before) = self.standing.get(&key).copied() else {
            self.standing.insert(key, standing)?;
            return Ok(true);
        };
        if before.given != OWN {
            let earlier = before.given;
            self.see(Clash {
                place,
                name: key.name,
                earlier,
                later: OWN,
            });
        }
        Ok(false)
    }

    /// The origins, in the order in which they were added.
    pub fn into_origins(self) -> Vec<Origin> {
        let Gathering {
            names: _,
            standing: _,
            clash: _,
            origins,
        } = self;
        origins
    }

    /// The key of a name in a space. A name that is new gets the next number.
    pub fn key(&mut self, alloc: Global, space: Space, name: &Name) -> Result<Key, NoMemory> {
        let name = self.names.number(alloc, name.as_str())?;
        Ok(Key { space, name })
    }

    /// Adds an origin behind the others: a name, and the judgement of the module that it stands for,
    /// both numbered from 0.
    pub fn add(
        &mut self,
        alloc: Global,
        name: &Name,
        module: u32,
        judgement: u32,
    ) -> Result<(), NoMemory> {
        let name = name.copy(alloc)?;
        self.origins.push(Origin {
            name,
            module,
            judgement,
        })?;
        Ok(())
    }
}
