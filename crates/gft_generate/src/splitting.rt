//! Goals of one node become one, and goals that share no variable are parted.
use crate::goals::Goals;
use crate::keys::variables_of;
use gft_abs::{NONE, Terms, at, put};
use gft_core::NoMemory;
use indexmap::IndexMap;
use std::alloc::Global;

/// The first two goals of one node, by their places. None where each node has one goal.
fn twins(
    terms: &Terms<'_>,
    goals: &Goals,
    list: &[u32],
) -> Result<Option<(usize, usize)>, NoMemory> {
    let mut seen: IndexMap<u32, usize> = IndexMap::new(terms.alloc());
    let mut place = 0usize;
    'goals: for number in list {
        if let Some(goal) = goals.goal(*number) {
            let root = terms.root(goal.node);
            if let Some(first) = seen.get(&root) {
                return Ok(Some((*first, place)));
            }
            seen.insert(root, place)?;
        }
        place = place.saturating_add(1);
    }
    Ok(None)
}

/// The list with one goal in place of two.
fn replaced(
    alloc: Global,
    list: &[u32],
    first: usize,
    second: usize,
    goal: u32,
) -> Result<Vec<u32>, NoMemory> {
    let mut all: Vec<u32> = Vec::new(alloc);
    let mut place = 0usize;
    'goals: for number in list {
        if place != first && place != second {
            all.push(*number)?;
        }
        place = place.saturating_add(1);
    }
    all.push(goal)?;
    Ok(all)
}

/// Makes one goal of two of one node: a tree has one type, and the less deep goal counts. None
/// where the types clash.
fn joined(
    terms: &mut Terms<'_>,
    goals: &mut Goals,
    list: &[u32],
    first: usize,
    second: usize,
) -> Result<Option<Vec<u32>>, NoMemory> {
    let alloc = terms.alloc();
    let one = list.get(first).copied().unwrap_or(NONE);
    let other = list.get(second).copied().unwrap_or(NONE);
    let Some(one) = goals.goal(one) else {
        return Ok(None);
    };
    let Some(other) = goals.goal(other) else {
        return Ok(None);
    };
    if one.cat != other.cat {
        return Ok(None);
    }
    let wanted = goals.wanted(alloc, one)?;
    if !terms.unify_all(wanted.as_slice(), goals.indices(other))? {
        return Ok(None);
    }
    let goal = goals.add_like(one, one.depth.min(other.depth))?;
    Ok(Some(replaced(alloc, list, first, second, goal)?))
}

/// The goals, with one for each node. None where the types of a node's goals clash. Each turn takes
/// a goal away.
pub fn join_twins(
    terms: &mut Terms<'_>,
    goals: &mut Goals,
    list: Vec<u32>,
) -> Result<Option<Vec<u32>>, NoMemory> {
    let mut list = list;
    'turns: for _ in 0..list.len() {
        let Some((first, second)) = twins(terms, goals, list.as_slice())? else {
            return Ok(Some(list));
        };
        match joined(terms, goals, list.as_slice(), first, second)? {
            None => return Ok(None),
            Some(less) => list = less,
        }
    }
    Ok(Some(list))
}

/// Gives all goals of one label another one.
fn relabel(labels: &mut Vec<u32>, from: u32, to: u32) {
    'labels: for label in labels.iter_mut() {
        if *label == from {
            *label = to;
        }
    }
}

/// Gives a goal's place the label of those that share a variable with it.
fn label(
    terms: &Terms<'_>,
    goals: &Goals,
    number: u32,
    place: u32,
    owners: &mut IndexMap<u32, u32>,
    labels: &mut Vec<u32>,
) -> Result<(), NoMemory> {
    let Some(goal) = goals.goal(number) else {
        return Ok(());
    };
    let variables = variables_of(terms, goals, goal)?;
    'variables: for variable in variables.iter() {
        match owners.get(variable).copied() {
            None => {
                owners.insert(*variable, place)?;
            }
            Some(owner) => {
                let from = at(labels.as_slice(), place);
                let to = at(labels.as_slice(), owner);
                if from != to {
                    relabel(labels, from, to);
                }
            }
        }
    }
    Ok(())
}

/// A label for each goal of a list: goals have one label where they share variables, or others
/// between them do.
fn labels_of(terms: &Terms<'_>, goals: &Goals, list: &[u32]) -> Result<Vec<u32>, NoMemory> {
    let alloc = terms.alloc();
    let mut owners: IndexMap<u32, u32> = IndexMap::new(alloc);
    let mut labels: Vec<u32> = Vec::new(alloc);
    let mut place = 0u32;
    'goals: for number in list {
        labels.push(place)?;
        label(terms, goals, *number, place, &mut owners, &mut labels)?;
        place = place.saturating_add(1);
    }
    Ok(labels)
}

/// The goals by their labels, those of one label in their order.
fn sorted(alloc: Global, list: &[u32], labels: &[u32]) -> Result<Vec<(u32, u32)>, NoMemory> {
    let mut pairs: Vec<(u32, u32)> = Vec::new(alloc);
    let mut place = 0u32;
    'goals: for number in list {
        pairs.push((at(labels, place), *number))?;
        place = place.saturating_add(1);
    }
    pairs.sort_unstable();
    Ok(pairs)
}

/// Adds a part for each label.
fn add_parts(alloc: Global, goals: &mut Goals, pairs: &[(u32, u32)]) -> Result<(), NoMemory> {
    let mut part: Vec<u32> = Vec::new(alloc);
    let mut before = NONE;
    'pairs: for pair in pairs {
        if pair.0 != before && !part.is_empty() {
            goals.add_part(part.as_slice())?;
            part.clear();
        }
        before = pair.0;
        part.push(pair.1)?;
    }
    if !part.is_empty() {
        goals.add_part(part.as_slice())?;
    }
    Ok(())
}

/// Adds the parts that goals fall into: goals of different parts share no variable.
pub fn split(terms: &Terms<'_>, goals: &mut Goals, list: &[u32]) -> Result<(), NoMemory> {
    let alloc = terms.alloc();
    if list.len() == 1 {
        return goals.add_part(list);
    }
    let labels = labels_of(terms, goals, list)?;
    let pairs = sorted(alloc, list, labels.as_slice())?;
    add_parts(alloc, goals, pairs.as_slice())
}
