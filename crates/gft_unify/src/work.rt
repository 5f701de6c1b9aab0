//! Pairs of trees that are still to be made equal.
ghost use Rattle.std.specs.Prelude.{◌≡◌, ◌++◌, OnOk, length, zip};
ghost use Rattle.gft_unify.specs.Bindings.{IsAcyclic};
ghost use Rattle.gft_unify.specs.Work.{pairs_of, FindsBinding, IsMadeOfParts, IsRefusal};

use crate::compare::{Comparison, compare};
use crate::error::UnifyErr;
use crate::store::{Binding, Store};
use gft_core::{NoMemory, Tree};
use std::alloc::Global;

/// Pairs whose sides have to become equal; the last is taken first.
pub type Work<'a> = Vec<(&'a Tree, &'a Tree)>;

/// Adds each tree on the left with its partner on the right.
pub fn push_zipped<'a>(
    work: &mut Work<'a>,
    left: &'a [Tree],
    right: &'a [Tree],
) -> Result<(), NoMemory>
    requires { length left.now ≡ length right.now }
    ensures { OnOk result
        (pairs_of work.new.items ≡ pairs_of work.old.items ++ zip left.now right.now) }
{
    'each: for index in 0..left.len() {
        work.push((&left[index], &right[index]))?;
    }
    Ok(())
}

/// The refusal of two parts whose heads differ.
fn clash(alloc: Global, left: &Tree, right: &Tree) -> UnifyErr
    ensures { IsRefusal left.now right.now result }
{
    match (left.copy(alloc), right.copy(alloc)) {
        (Ok(left), Ok(right)) => UnifyErr::Clash(left, right),
        _ => UnifyErr::NoMemory,
    }
}

/// Takes pairs apart up to the first hole that has to be bound. None: no pair is left.
pub fn next_binding<'a>(
    alloc: Global,
    store: &Store<'a>,
    work: &mut Work<'a>,
) -> Result<Option<Binding<'a>>, UnifyErr>
    requires { IsAcyclic store.now }
    ensures found { FindsBinding store.now (pairs_of work.old.items) (pairs_of work.new.items) result }
    ensures parts { IsMadeOfParts store.now (pairs_of work.old.items) (pairs_of work.new.items) result }
{
    'pairs: while let Some((left, right)) = work.pop() {
        let left = store.walk(left);
        let right = store.walk(right);
        match compare(left, right) {
            Comparison::Same => {}
            Comparison::Bind(hole, tree) => return Ok(Some((hole, tree))),
            Comparison::Join(hole, other) => {
                return Ok(Some(store.direct(left, hole, right, other)));
            }
            Comparison::Descend(lefts, rights) => push_zipped(work, lefts, rights)?,
            Comparison::Clash => return Err(clash(alloc, left, right)),
        }
    }
    Ok(None)
}
