//! Why no substitution makes pairs of trees equal.
use gft_core::{NoMemory, Tree};

/// Why `unify` gives no substitution.
#[derive(Drop)]
pub enum UnifyErr {
    /// Two parts of the pairs that would have to be equal, with different heads or different
    /// numbers of arguments.
    Clash(Tree, Tree),
    /// A hole of the pairs, and the tree that it would have to equal, in which it stands.
    Occurs(u32, Tree),
    /// The allocator refused a growth.
    NoMemory,
}

impl From<NoMemory> for UnifyErr {
    ghost use Rattle.std.specs.Prelude.{◌≡◌};
    ghost use Rattle.gft_unify.specs.declared.error.UnifyErr.{UnifyErr};
    ghost use Rattle.gft_unify.specs.declared.error.UnifyErr.TheVariants.{NoMemory};

    ghost from_gives = { λ _ e. e ≡ NoMemory };

    fn from(_error: NoMemory) -> UnifyErr {
        UnifyErr::NoMemory
    }
}
