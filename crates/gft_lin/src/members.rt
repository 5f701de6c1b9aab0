//! Shared productions of a function whose arguments may have these nonterminals.
use gft_core::NoMemory;
use gft_pmcfg::{CArg, CProd};
use sqlite_items::Items;
use std::alloc::Global;

/// The productions from one place to another.
#[derive(Clone, Copy)]
pub struct Range {
    pub from: usize,
    pub to: usize,
}

/// Where an argument stands in the order of productions: a nonterminal before each group.
#[derive(Clone, Copy, PartialEq, Eq, PartialOrd, Ord)]
enum Key {
    Absent,
    One(u32),
    Group(u64),
}

fn key_at(shared: &[CProd], at: usize, place: usize) -> Key {
    match shared.get(at) {
        None => Key::Absent,
        Some(prod) => match prod.args.get(place) {
            None => Key::Absent,
            Some(CArg::One(nonterminal)) => Key::One(*nonterminal),
            Some(CArg::Group(group)) => Key::Group(*group),
        },
    }
}

/// The first place of the range whose argument is not before the key, by halving; the end where
/// there is none.
fn first_from(shared: &[CProd], range: Range, place: usize, key: Key) -> usize {
    let mut from = range.from;
    let mut to = range.to;
    for _ in 0..64u32 {
        if from >= to {
            return from;
        }
        let middle = from + (to - from) / 2;
        if key_at(shared, middle, place) < key {
            from = middle + 1;
        } else {
            to = middle;
        }
    }
    from
}

/// Whether the nonterminal is a member of the group, by halving.
pub fn is_member(groups: &[Items<u32>], group: u64, nonterminal: u32) -> bool {
    match groups.get(group as usize) {
        None => false, // a group is in range
        Some(members) => {
            let members = members.as_slice();
            let at = members.partition_point(|member| *member < nonterminal);
            match members.get(at) {
                None => false,
                Some(member) => *member == nonterminal,
            }
        }
    }
}

/// Adds the part of the range whose argument at the place is the nonterminal itself, and answers
/// where the groups begin.
fn add_one(
    shared: &[CProd],
    range: Range,
    place: usize,
    nonterminal: u32,
    found: &mut Vec<Range>,
) -> Result<usize, NoMemory> {
    let from = first_from(shared, range, place, Key::One(nonterminal));
    let to = match nonterminal.checked_add(1) {
        None => range.to,
        Some(next) => first_from(shared, range, place, Key::One(next)),
    };
    if from < to {
        found.push(Range { from, to })?;
    }
    Ok(first_from(shared, range, place, Key::Group(0)))
}

/// Adds the parts of the range whose argument at the place may be the nonterminal.
fn narrow(
    shared: &[CProd],
    groups: &[Items<u32>],
    range: Range,
    place: usize,
    nonterminal: u32,
    found: &mut Vec<Range>,
) -> Result<(), NoMemory> {
    let mut from = add_one(shared, range, place, nonterminal, found)?;
    for _ in range.from..range.to {
        let group = match key_at(shared, from, place) {
            Key::Group(group) if from < range.to => group,
            _ => return Ok(()),
        };
        let left = Range { from, to: range.to };
        let to = first_from(shared, left, place, Key::Group(group.saturating_add(1)));
        if is_member(groups, group, nonterminal) {
            found.push(Range { from, to })?;
        }
        from = to;
    }
    Ok(())
}

/// The parts of the range whose arguments may be these nonterminals.
pub fn ranges_in(
    alloc: Global,
    shared: &[CProd],
    groups: &[Items<u32>],
    range: Range,
    args: &[u32],
) -> Result<Vec<Range>, NoMemory> {
    let mut all = Vec::new(alloc);
    all.push(range)?;
    let mut place = 0usize;
    for nonterminal in args {
        let mut narrower = Vec::new(alloc);
        for range in all.as_slice() {
            narrow(shared, groups, *range, place, *nonterminal, &mut narrower)?;
        }
        all = narrower;
        place = place.saturating_add(1);
    }
    Ok(all)
}

/// The productions of a function.
fn range_of(shared: &[CProd], fun: u32) -> Range {
    Range {
        from: shared.partition_point(|prod| prod.fun < fun),
        to: shared.partition_point(|prod| prod.fun <= fun),
    }
}

/// The places of the productions of the function whose arguments may be these nonterminals.
pub fn matching(
    alloc: Global,
    shared: &[CProd],
    groups: &[Items<u32>],
    fun: u32,
    args: &[u32],
) -> Result<Vec<usize>, NoMemory> {
    let mut places = Vec::new(alloc);
    if shared.is_empty() {
        return Ok(places);
    }
    let range = range_of(shared, fun);
    for range in ranges_in(alloc, shared, groups, range, args)?.as_slice() {
        for at in range.from..range.to {
            places.push(at)?;
        }
    }
    Ok(places)
}
