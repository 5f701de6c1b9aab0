//! Bindings of holes, in the order in which they were made.
ghost use Rattle.std.specs.Prelude.{◌≡◌, ◌≢◌, ◌∷◌, ◌++◌, ◌<◌, ℕ, [], IfSome, OnOk, length, nat_eq, slice_get};
ghost use Rattle.std.specs.Option.{option_copied};
ghost use Rattle.std.specs.Map.{lookup};
ghost use Rattle.gft_core.specs.declared.tree.Tree.{Tree};
ghost use Rattle.gft_unify.specs.Instances.{inst};
ghost use Rattle.gft_unify.specs.Bindings.{IsEnd, IsLater, Respects};
ghost use Rattle.gft_unify.specs.Comparison.{MayBind};
ghost use Rattle.gft_unify.specs.Parts.{IsAmongParts};

use gft_core::{NoMemory, Tree};
use indexmap::IndexMap;
use std::alloc::Global;
use std::marker::Model;

/// A hole with the tree that it has to equal.
pub type Binding<'a> = (u32, &'a Tree);

/// Bindings of holes to trees that others own, the oldest first.
///
/// `heights` has how many links the longest chain of holes to a hole has, where there is one. Of
/// two holes the one with the shorter chains is bound, so that no chain among n holes has more than
/// log2 n links. No clause says so: heights decide what a look-up costs, and nothing else.
#[derive(Drop)]
pub struct Store<'a> {
    bound: IndexMap<u32, &'a Tree>,
    heights: IndexMap<u32, u32>,
}

impl<'a> Model for Store<'a> {
    ghost use Rattle.std.specs.Prelude.{ℕ, List};
    ghost use Rattle.gft_core.specs.declared.tree.Tree.{Tree};
    ghost use Rattle.gft_unify.specs.Bindings.{LinksOn, seen};
    ghost use Rattle.gft_core.specs.contracts.tree.Tree as tree;
    ghost use Rattle.std.specs.Coded.{codes};

    ghost Value = { List (ℕ × Tree) };

    ghost coded = { Prim.hlevel (codes, tree.the_row.coded) };

    ghost view = { λ s. seen s.bound.entries };

    ghost invariant = { λ s. LinksOn (seen s.bound.entries) };
}

impl<'a> Store<'a> {
    /// No binding. It takes no memory.
    pub fn new(alloc: Global) -> Store<'a>
        ensures { result ≡ [] }
    {
        Store {
            bound: IndexMap::new(alloc),
            heights: IndexMap::new(alloc),
        }
    }

    /// What the hole is bound to, None where it is loose. One look-up.
    pub fn get(&self, hole: u32) -> Option<&'a Tree>
        ensures value { option_copied result ≡ lookup (nat_eq hole) self.now }
        ensures later { IfSome result (λ t. IsLater self.now hole t.now) }
    {
        self.bound.get(&hole).copied()
    }

    /// How many holes are bound.
    pub fn len(&self) -> usize
        ensures { result ≡ length self.now }
    {
        self.bound.len()
    }

    /// The binding that was made after `index` others.
    pub fn at(&self, index: usize) -> (u32, &'a Tree)
        requires { index < length self.now }
        ensures { slice_get self.now index ≡ Some (result.0, result.1.now) }
    {
        match self.bound.get_index(index) {
            Some((hole, tree)) => (*hole, *tree),
            None => unreachable!(),
        }
    }

    /// How many links the longest chain to the hole has.
    fn height(&self, hole: u32) -> u32 {
        self.heights.get(&hole).copied().unwrap_or(0)
    }

    /// Of two holes, the one to bind and the tree of the other: the hole with the shorter chains is
    /// bound, or where these are as long, the one of the greater number.
    pub fn direct(&self, left: &'a Tree, hole: u32, right: &'a Tree, other: u32) -> Binding<'a>
        requires left { left.now ≡ Tree.Hole hole }
        requires right { right.now ≡ Tree.Hole other }
        requires apart { hole ≢ other }
        ensures { MayBind left.now right.now result.0 result.1.now }
    {
        let height = self.height(hole);
        let other_height = self.height(other);
        if height < other_height || (height == other_height && other < hole) {
            return (hole, right);
        }
        (other, left)
    }

    /// Keeps that the longest chain to the hole has as many links, where it had fewer.
    fn raise(&mut self, hole: u32, height: u32) -> Result<(), NoMemory>
        ensures { self.new ≡ self.old }
    {
        if self.height(hole) < height {
            self.heights.insert(hole, height)?;
        }
        Ok(())
    }

    /// Keeps how long the chains to the tree are once the hole is bound to it.
    fn lengthen(&mut self, hole: u32, tree: &Tree) -> Result<(), NoMemory>
        ensures { self.new ≡ self.old }
    {
        match tree {
            Tree::App(_, _) => Ok(()),
            Tree::Int(_) => Ok(()),
            Tree::Str(_) => Ok(()),
            Tree::Hole(end) => self.raise(*end, self.height(hole).saturating_add(1)),
        }
    }

    /// Binds a loose hole to another tree, which is no bound hole.
    pub fn bind(&mut self, hole: u32, tree: &'a Tree) -> Result<(), NoMemory>
        requires loose { lookup (nat_eq hole) self.old ≡ None }
        requires other { tree.now ≢ Tree.Hole hole }
        requires end { IsEnd self.old tree.now }
        ensures ok { OnOk result (self.new ≡ self.old ++ (hole, tree.now) ∷ []) }
    {
        self.lengthen(hole, tree)?;
        self.bound.insert(hole, tree)?;
        Ok(())
    }

    /// The tree itself, or where it is a bound hole, the end of its chain of bindings. One look-up
    /// for each link; it takes no memory.
    pub fn walk(&self, start: &'a Tree) -> &'a Tree
        ensures same { (θ : ℕ → Tree) → Respects θ self.now → inst θ result.now ≡ inst θ start.now }
        ensures end { IsEnd self.now result.now }
        ensures part { IsAmongParts self.now start.now result.now }
    {
        let mut tree = start;
        'chain: while let Tree::Hole(hole) = tree {
            match self.get(*hole) {
                Some(bound) => tree = bound,
                None => return tree,
            }
        }
        tree
    }
}
