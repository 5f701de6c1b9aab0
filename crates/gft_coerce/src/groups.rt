//! Groups of nonterminals, each once.
use gft_core::NoMemory;
use indexmap::IndexSet;
use sqlite_items::Items;
use std::alloc::Global;

/// The first code of a group: codes below it are nonterminals.
const FIRST: u64 = 4_294_967_296;

/// A group as it stands in the order of groups: the number of members, then the members.
#[derive(PartialEq, Eq, PartialOrd, Ord, Drop)]
struct Ordered {
    count: usize,
    members: Vec<u32>,
    number: usize,
}

/// The groups that were met, by number.
#[derive(Drop)]
pub struct Groups {
    met: IndexSet<Vec<u32>>,
}

/// Where each group stands in the order of groups, by its number.
#[derive(Drop)]
pub struct Places {
    places: Vec<u64>,
}

impl Groups {
    /// No group yet.
    pub fn new(alloc: Global) -> Groups {
        Groups {
            met: IndexSet::new(alloc),
        }
    }

    /// The code of what stands for these nonterminals: one of them alone, or their group.
    pub fn code(&mut self, members: Vec<u32>) -> Result<u64, NoMemory> {
        let mut members = members;
        if let [only] = members.as_slice() {
            return Ok(*only as u64);
        }
        members.sort_unstable();
        let (number, _) = self.met.insert_full(members)?;
        Ok(FIRST.saturating_add(number as u64))
    }

    /// The groups in order, each with its number.
    fn ordered(self, alloc: Global) -> Result<Vec<Ordered>, NoMemory> {
        let mut all = Vec::new(alloc);
        let mut number = 0usize;
        for members in self.met {
            all.push(Ordered {
                count: members.len(),
                members,
                number,
            })?;
            number = number.saturating_add(1);
        }
        all.sort()?;
        Ok(all)
    }

    /// The groups in order, and where each of them stands.
    pub fn placed(self, alloc: Global) -> Result<(Items<Items<u32>>, Places), NoMemory> {
        let mut places = Vec::new(alloc);
        for _ in 0..self.met.len() {
            places.push(0)?;
        }
        let mut groups = Items::new(alloc);
        let mut at = 0u64;
        for one in self.ordered(alloc)? {
            if let Some(place) = places.get_mut(one.number) {
                *place = at;
            }
            at = at.saturating_add(1);
            groups.push(Items::from_vec(one.members))?;
        }
        Ok((groups, Places { places }))
    }
}

impl Places {
    /// Whether the code is that of a group, and where that stands.
    pub fn place(&self, code: u64) -> Option<u64> {
        if code < FIRST {
            return None;
        }
        match self.places.get((code - FIRST) as usize) {
            None => None, // codes are those of groups
            Some(place) => Some(*place),
        }
    }
}
