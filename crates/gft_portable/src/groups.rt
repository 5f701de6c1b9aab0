//! Groups of nonterminals, read.
use crate::cases::Cases;
use crate::fault::ReadErr;
use crate::field::{Reader, bad};
use crate::items::Ascending;
use crate::output::{count, part_of};
use crate::terms::push;
use gft_rules::Rule;
use std::alloc::Global;

/// A group: where it begins in the file, its category, where its members stand among those of all
/// groups, and whether something names it.
#[derive(Clone, Copy)]
struct Group {
    at: u32,
    cat: u32,
    from: u32,
    to: u32,
    is_used: bool,
}

/// The groups of a language, by number from 0.
#[derive(Drop)]
pub struct Groups {
    members: Vec<u32>,
    all: Vec<Group>,
}

impl Groups {
    /// No group yet.
    pub fn new(alloc: Global) -> Groups {
        Groups {
            members: Vec::new(alloc),
            all: Vec::new(alloc),
        }
    }

    /// How many groups there are.
    pub fn len(&self) -> u32 {
        count(self.all.len())
    }

    /// The members of a group, the least first.
    pub fn members(&self, number: u32) -> &[u32] {
        match self.all.get(number as usize) {
            None => &[],
            Some(group) => part_of(self.members.as_slice(), group.from, group.to),
        }
    }

    /// The category of a group's members, where there is such a group.
    pub fn category(&self, number: u32) -> Option<u32> {
        match self.all.get(number as usize) {
            None => None,
            Some(group) => Some(group.cat),
        }
    }

    /// Something names the group.
    pub fn use_one(&mut self, number: u32) {
        if let Some(group) = self.all.get_mut(number as usize) {
            group.is_used = true;
        }
    }

    /// Where the first group stands that nothing names.
    pub fn unused(&self) -> Option<u32> {
        for group in self.all.as_slice() {
            if !group.is_used {
                return Some(group.at);
            }
        }
        None
    }

    /// One more member, after the others of its group, with its category.
    fn read_member(
        &mut self,
        reader: &mut Reader,
        cases: &Cases,
        first: Option<u32>,
    ) -> Result<u32, ReadErr> {
        let at = reader.at();
        let member = reader.number()?;
        let Some(cat) = cases.category(member) else {
            return Err(bad(Rule::BadNumber, at));
        };
        if let Some(first) = first {
            if cat != first {
                return Err(bad(Rule::BadNumber, at));
            }
            if self.members.last().is_some_and(|last| member <= *last) {
                return Err(bad(Rule::BadOrder, at));
            }
        }
        push(&mut self.members, member)?;
        Ok(cat)
    }

    fn read(&mut self, reader: &mut Reader, cases: &Cases) -> Result<(), ReadErr> {
        let (at, from) = (reader.at(), count(self.members.len()));
        let many = reader.number()?;
        if many < 2 {
            return Err(bad(Rule::BadNumber, at));
        }
        let cat = self.read_member(reader, cases, None)?;
        for _ in 1..many {
            self.read_member(reader, cases, Some(cat))?;
        }
        let group = Group {
            at,
            cat,
            from,
            to: count(self.members.len()),
            is_used: false,
        };
        push(&mut self.all, group)
    }

    /// Reads the groups of a language, which are in order.
    pub fn read_all(&mut self, reader: &mut Reader, cases: &Cases) -> Result<(), ReadErr> {
        let many = reader.number()?;
        let mut order = Ascending::new();
        for _ in 0..many {
            let at = reader.at();
            self.read(reader, cases)?;
            order.add_whole(reader, at)?;
        }
        Ok(())
    }
}
