//! The nodes under goals: which variables stand there, and what is alike whatever the variables are
//! called.
use crate::goals::{Goal, Goals};
use gft_abs::{Node, Terms};
use gft_core::NoMemory;
use indexmap::IndexSet;
use std::alloc::Global;

/// Adds the arguments of a node to what is still to be seen, the first last.
fn push_arguments(
    terms: &Terms<'_>,
    pending: &mut Vec<u32>,
    first: u32,
    count: u32,
) -> Result<(), NoMemory> {
    'arguments: for k in (0..count).rev() {
        pending.push(terms.argument(first.saturating_add(k)))?;
    }
    Ok(())
}

/// The nodes that goals speak of.
fn push_goal(goals: &Goals, pending: &mut Vec<u32>, goal: Goal) -> Result<(), NoMemory> {
    'indices: for index in goals.indices(goal) {
        pending.push(*index)?;
    }
    pending.push(goal.node)?;
    Ok(())
}

/// Adds the variables under a goal to a set.
pub fn add_variables(
    terms: &Terms<'_>,
    goals: &Goals,
    goal: Goal,
    variables: &mut IndexSet<u32>,
) -> Result<(), NoMemory> {
    let mut seen: IndexSet<u32> = IndexSet::new(terms.alloc());
    let mut pending: Vec<u32> = Vec::new(terms.alloc());
    push_goal(goals, &mut pending, goal)?;
    'nodes: for _ in 0..u64::MAX {
        let Some(next) = pending.pop() else {
            break;
        };
        let node = terms.root(next);
        if seen.insert(node)? {
            add_node(terms, &mut pending, variables, node)?;
        }
    }
    Ok(())
}

fn add_node(
    terms: &Terms<'_>,
    pending: &mut Vec<u32>,
    variables: &mut IndexSet<u32>,
    node: u32,
) -> Result<(), NoMemory> {
    match terms.node(node) {
        Node::App(_, first, count) => push_arguments(terms, pending, first, count),
        Node::Var => {
            variables.insert(node)?;
            Ok(())
        }
        _ => Ok(()),
    }
}

/// Adds a number in four parts of a key: numbers of the key are small.
fn push_long(key: &mut Vec<u32>, value: u128) -> Result<(), NoMemory> {
    let mut rest = value;
    'parts: for _ in 0..4 {
        let part = rest & 0xffff_ffff;
        key.push(u32::try_from(part).unwrap_or(0))?;
        rest = rest >> 32;
    }
    Ok(())
}

/// Adds the bytes of a word.
fn push_word(key: &mut Vec<u32>, word: &str) -> Result<(), NoMemory> {
    key.push(u32::try_from(word.len()).unwrap_or(0))?;
    'bytes: for byte in word.as_bytes() {
        key.push(u32::from(*byte))?;
    }
    Ok(())
}

/// Adds what a node that was not met yet is.
fn push_new(
    terms: &Terms<'_>,
    key: &mut Vec<u32>,
    pending: &mut Vec<u32>,
    node: u32,
) -> Result<(), NoMemory> {
    match terms.node(node) {
        Node::App(fun, first, count) => {
            key.push(1)?;
            key.push(fun)?;
            key.push(count)?;
            push_arguments(terms, pending, first, count)
        }
        Node::Int(value) => {
            key.push(2)?;
            push_long(key, value)
        }
        Node::Str(word) => {
            key.push(3)?;
            match terms.word_at(word) {
                Some(word) => push_word(key, word.as_str()),
                None => Ok(()),
            }
        }
        Node::Var => {
            key.push(4)?;
            Ok(())
        }
    }
}

/// Adds a goal to a key: its nonterminal and depth, and its nodes, each that was met before by its
/// number.
fn push_key(
    terms: &Terms<'_>,
    goals: &Goals,
    goal: Goal,
    seen: &mut IndexSet<u32>,
    key: &mut Vec<u32>,
) -> Result<(), NoMemory> {
    key.push(goal.nonterminal)?;
    key.push(goal.depth)?;
    let mut pending: Vec<u32> = Vec::new(terms.alloc());
    push_goal(goals, &mut pending, goal)?;
    'nodes: for _ in 0..u64::MAX {
        let Some(next) = pending.pop() else {
            break;
        };
        let node = terms.root(next);
        let (place, is_new) = seen.insert_full(node)?;
        if is_new {
            push_new(terms, key, &mut pending, node)?;
        } else {
            key.push(0)?;
            key.push(u32::try_from(place).unwrap_or(0))?;
        }
    }
    Ok(())
}

/// The key of goals: goals of one key can be filled or cannot, all alike.
pub fn key_of(
    alloc: Global,
    terms: &Terms<'_>,
    goals: &Goals,
    list: &[u32],
) -> Result<Vec<u32>, NoMemory> {
    let mut key: Vec<u32> = Vec::new(alloc);
    let mut seen: IndexSet<u32> = IndexSet::new(alloc);
    'goals: for number in list {
        if let Some(goal) = goals.goal(*number) {
            push_key(terms, goals, goal, &mut seen, &mut key)?;
        }
    }
    Ok(key)
}
