//! Substitutions that make pairs of trees equal.
ghost use Rattle.std.specs.Prelude.{◌≡◌, ◌++◌, IfOk, IfErr, OnOk};
ghost use Rattle.gft_unify.specs.Substitutions.{tree_at, MakesEqual, IsMostGeneral, IsSettled, KeepsTo};
ghost use Rattle.gft_unify.specs.Refusals.{IsRefused};
ghost use Rattle.gft_unify.specs.Work.{pairs_of};

use crate::error::UnifyErr;
use crate::occurs::reaches;
use crate::resolve::resolve;
use crate::store::Store;
use crate::subst::Subst;
use crate::work::{Work, next_binding};
use gft_core::{NoMemory, Tree};
use std::alloc::Global;

/// Adds each pair as it lies.
fn push_pairs<'a>(work: &mut Work<'a>, pairs: &'a [(Tree, Tree)]) -> Result<(), NoMemory>
    ensures { OnOk result (pairs_of work.new.items ≡ pairs_of work.old.items ++ pairs.now) }
{
    'each: for pair in pairs {
        work.push((&pair.0, &pair.1))?;
    }
    Ok(())
}

/// The most general substitution that makes both sides of each pair equal, or why there is none.
///
/// The last pair is taken apart first. Of two holes that have to be equal, the one is bound that
/// ends the shorter chains of holes bound to holes, or where these are as long, the one of the
/// greater number. So a look-up follows about log2 n links at most, for n holes.
///
/// Bindings refer to parts of the pairs, and nothing of the pairs is copied before the end. Time is
/// about the size of the pairs with the answer put in, times the links of a look-up. Memory is that
/// of the answer and of the pairs that are pending. An answer can be exponentially larger than the
/// pairs, as for `?1 = f ?2 ?2`, `?2 = f ?3 ?3` and so on.
///
/// The stack does not grow with the pairs or the answer, but for `Clash`, which copies its two
/// trees by recursion on their depth, as dropping a tree is: 201 levels, which readers give at the
/// most, are safe.
pub fn unify(alloc: Global, pairs: &Vec<(Tree, Tree)>) -> Result<Subst, UnifyErr>
    ensures equal { IfOk result (λ s. MakesEqual (tree_at s) pairs.now.items) }
    ensures general { IfOk result (λ s. IsMostGeneral s pairs.now.items) }
    ensures settled { IfOk result IsSettled }
    ensures kept { IfOk result (KeepsTo pairs.now.items) }
    ensures refused { IfErr result (IsRefused pairs.now.items) }
{
    let mut store = Store::new(alloc);
    let mut work = Vec::new(alloc);
    push_pairs(&mut work, pairs.as_slice())?;
    'bindings: while let Some((hole, tree)) = next_binding(alloc, &store, &mut work)? {
        if reaches(alloc, &store, hole, tree)? {
            return Err(UnifyErr::Occurs(hole, resolve(alloc, &store, tree)?));
        }
        store.bind(hole, tree)?;
    }
    Ok(Subst::settle(alloc, &store)?)
}
