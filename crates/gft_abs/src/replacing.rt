//! Trees and types with arguments put in for their variables.
use crate::equality::standing;
use gft_core::{NoMemory, Tree};
use gft_pmcfg::AType;
use sqlite_items::Items;
use std::alloc::Global;

/// The tree with each variable replaced by its argument; one without argument stays.
#[cycle(replaced)]
pub fn replaced(alloc: Global, tree: &Tree, arguments: &[Tree]) -> Result<Tree, NoMemory> {
    match tree {
        Tree::App(f, xs) => {
            let xs = all_replaced(alloc, xs.as_slice(), arguments)?;
            Ok(Tree::App(f.copy(alloc)?, xs))
        }
        Tree::Int(value) => Ok(Tree::Int(*value)),
        Tree::Str(word) => Ok(Tree::Str(word.copy(alloc)?)),
        Tree::Hole(k) => match standing(arguments, *k) {
            Some(argument) => argument.copy(alloc),
            None => Ok(Tree::Hole(*k)),
        },
    }
}

/// Each tree with its variables replaced by the arguments, in order; linear in what is copied.
#[cycle(replaced)]
pub fn all_replaced(
    alloc: Global,
    trees: &[Tree],
    arguments: &[Tree],
) -> Result<Items<Tree>, NoMemory> {
    let mut made = Items::new(alloc);
    'each: for tree in trees {
        made.push(replaced(alloc, tree, arguments)?)?;
    }
    Ok(made)
}

/// The type with each variable replaced by its argument.
pub fn type_replaced(alloc: Global, t: &AType, arguments: &[Tree]) -> Result<AType, NoMemory> {
    Ok(AType {
        cat: t.cat,
        args: all_replaced(alloc, t.args.as_slice(), arguments)?,
    })
}

/// An equal type, in memory of its own.
pub fn type_copy(alloc: Global, t: &AType) -> Result<AType, NoMemory> {
    type_replaced(alloc, t, &[])
}
