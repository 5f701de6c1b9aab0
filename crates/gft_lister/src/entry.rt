//! What is listed: a pattern with its text.
use gft_core::{NoMemory, Text, Tree};
use gft_pmcfg::Abstract;
use sqlite_items::Items;
use std::alloc::Global;

/// A pattern: the numbers of its functions, each after those of its arguments, where it has no
/// literals and holes and no category takes indices; else a tree.
#[derive(Drop)]
pub enum Form {
    Functions(Vec<u32>),
    Tree(Tree),
}

/// A listed pattern with its text.
#[derive(Drop)]
pub struct Entry {
    pub text: Text,
    pub form: Form,
}

/// Puts a function on what is built, applied to the last trees there.
fn put(
    alloc: Global,
    abs: &Abstract,
    built: &mut Vec<Tree>,
    function: u32,
) -> Result<(), NoMemory> {
    let Some(fun) = abs.funs.get(function as usize) else {
        return Ok(()); // excluded by the caller: functions are in range
    };
    let name = fun.name.copy(alloc)?;
    let arguments = built.split_off(built.len().saturating_sub(fun.args.len()))?;
    built.push(Tree::App(name, Items::from_vec(arguments)))?;
    Ok(())
}

/// The tree with these functions, each after those of its arguments.
pub fn tree_of(alloc: Global, abs: &Abstract, functions: &[u32]) -> Result<Tree, NoMemory> {
    let mut built: Vec<Tree> = Vec::new(alloc);
    'functions: for function in functions {
        put(alloc, abs, &mut built, *function)?;
    }
    match built.pop() {
        Some(tree) => Ok(tree),
        // excluded by the caller: a tree has a function
        None => Ok(Tree::Hole(1)),
    }
}

fn tree_of_form(alloc: Global, abs: &Abstract, form: Form) -> Result<Tree, NoMemory> {
    match form {
        Form::Functions(functions) => tree_of(alloc, abs, functions.as_slice()),
        Form::Tree(tree) => Ok(tree),
    }
}

/// The trees of entries.
pub fn trees_of(alloc: Global, abs: &Abstract, entries: Vec<Entry>) -> Result<Vec<Tree>, NoMemory> {
    let mut trees: Vec<Tree> = Vec::new(alloc);
    'entries: for entry in entries {
        let Entry { text: _, form } = entry;
        trees.push(tree_of_form(alloc, abs, form)?)?;
    }
    Ok(trees)
}
