//! Whether a hole stands in a tree under bindings.
ghost use Rattle.std.specs.Prelude.{◌↔◌, IfOk, IsTrue};
ghost use Rattle.gft_unify.specs.Instances.{StandsIn};
ghost use Rattle.gft_unify.specs.Bindings.{IsAcyclic};
ghost use Rattle.gft_unify.specs.Resolution.{resolved};

use crate::build::push_all;
use crate::store::Store;
use gft_core::{NoMemory, Tree};
use std::alloc::Global;

/// Whether the hole stands in the tree once its bindings are followed to their ends. Time is the
/// size of the tree as it then is; each bound tree is read where it lies.
pub fn reaches<'a>(
    alloc: Global,
    store: &Store<'a>,
    hole: u32,
    tree: &'a Tree,
) -> Result<bool, NoMemory>
    requires { IsAcyclic store.now }
    ensures { IfOk result (λ found. IsTrue found ↔ StandsIn hole (resolved store.now tree.now)) }
{
    let mut pending = Vec::new(alloc);
    pending.push(tree)?;
    'search: while let Some(next) = pending.pop() {
        match store.walk(next) {
            Tree::Int(_) => {}
            Tree::Str(_) => {}
            Tree::Hole(found) => {
                if *found == hole {
                    return Ok(true);
                }
            }
            Tree::App(_, arguments) => push_all(&mut pending, arguments.as_slice())?,
        }
    }
    Ok(false)
}
