//! Most general substitutions that make trees equal.
#![tactic(auto)]

mod build;
mod compare;
mod error;
mod occurs;
mod resolve;
mod store;
mod subst;
mod unifier;
mod work;

pub use error::UnifyErr;
pub use subst::Subst;
pub use unifier::unify;
