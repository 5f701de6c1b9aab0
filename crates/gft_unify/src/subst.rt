//! Substitutions of trees for holes.
ghost use Rattle.std.specs.Prelude.{◌≡◌, IfOk, nat_eq};
ghost use Rattle.std.specs.Option.{option_copied};
ghost use Rattle.std.specs.Map.{lookup};
ghost use Rattle.gft_unify.specs.Instances.{inst, IsFixed};
ghost use Rattle.gft_unify.specs.Substitutions.{tree_at, IsSettled};
ghost use Rattle.gft_unify.specs.Bindings.{IsAcyclic, HasSolved, trees_of};
ghost use Rattle.gft_unify.specs.Building.{Builds};

use crate::build::{arguments_of, build, push_all};
use crate::resolve::resolve;
use crate::store::Store;
use gft_core::{NoMemory, Tree};
use indexmap::IndexMap;
use std::alloc::Global;
use std::marker::Model;

/// A finite map from holes to trees, with no hole of its domain in its trees. Contracts see its
/// bindings in the order in which they were found, each hole with its tree.
#[derive(Drop)]
pub struct Subst {
    trees: IndexMap<u32, Tree>,
}

impl Model for Subst {
    ghost use Rattle.std.specs.Prelude.{ℕ, List};
    ghost use Rattle.gft_core.specs.declared.tree.Tree.{Tree};
    ghost use Rattle.gft_core.specs.contracts.tree.Tree as tree;
    ghost use Rattle.gft_unify.specs.Substitutions.{IsSettled};
    ghost use Rattle.std.specs.Coded.{codes};

    ghost Value = { List (ℕ × Tree) };

    ghost coded = { Prim.hlevel (codes, tree.the_row.coded) };

    ghost view = { λ s. s.trees.entries };

    ghost invariant = { λ s. IsSettled s.trees.entries };
}

impl Subst {
    /// The tree of a bound hole, None where the hole is not bound. One look-up.
    pub fn get(&self, hole: u32) -> Option<&Tree>
        ensures value { option_copied result ≡ lookup (nat_eq hole) self.now }
        ensures settled { IsSettled self.now }
    {
        self.trees.get(&hole)
    }

    /// The tree, or where it is a bound hole, what that is bound to.
    fn follow<'a>(&'a self, tree: &'a Tree) -> &'a Tree
        ensures same { inst (tree_at self.now) result.now ≡ inst (tree_at self.now) tree.now }
        ensures end { IsFixed (tree_at self.now) result.now }
    {
        match tree {
            Tree::App(_, _) => tree,
            Tree::Int(_) => tree,
            Tree::Str(_) => tree,
            Tree::Hole(hole) => match self.get(*hole) {
                Some(bound) => bound,
                None => tree,
            },
        }
    }

    /// The nodes of the tree with each bound hole replaced, each before its arguments.
    fn nodes<'a>(&'a self, alloc: Global, tree: &'a Tree) -> Result<Vec<&'a Tree>, NoMemory>
        ensures { IfOk result
            (λ found. Builds (inst (tree_at self.now) tree.now) (trees_of found.items)) }
    {
        let mut found = Vec::new(alloc);
        let mut pending = Vec::new(alloc);
        pending.push(tree)?;
        'nodes: while let Some(next) = pending.pop() {
            let node = self.follow(next);
            found.push(node)?;
            push_all(&mut pending, arguments_of(node))?;
        }
        Ok(found)
    }

    /// The tree with each bound hole replaced by a copy of its tree. Time and memory are those of
    /// what it gives; the stack does not grow with the depth of either tree.
    pub fn apply(&self, alloc: Global, tree: &Tree) -> Result<Tree, NoMemory>
        ensures { IfOk result (λ replaced. replaced ≡ inst (tree_at self.now) tree.now) }
    {
        let nodes = self.nodes(alloc, tree)?;
        build(alloc, nodes)
    }

    /// The bindings of the store, each followed to its end.
    pub(crate) fn settle(alloc: Global, store: &Store<'_>) -> Result<Subst, NoMemory>
        requires { IsAcyclic store.now }
        ensures { IfOk result (λ s. HasSolved s store.now) }
    {
        let mut trees = IndexMap::new(alloc);
        'each: for index in 0..store.len() {
            let (hole, tree) = store.at(index);
            trees.insert(hole, resolve(alloc, store, tree)?)?;
        }
        Ok(Subst { trees })
    }
}
