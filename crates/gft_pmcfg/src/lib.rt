//! Abstract and concrete syntax of a compiled grammar, its runs, and packed forests of runs.
#![tactic(auto)]

mod coerced;
mod concrete;
mod copied;
mod forest;
mod grammar;
mod ranges;
mod run;
mod signature;

pub use coerced::{CArg, CProd, Coerced};
pub use concrete::{Concrete, Def, Info, Prod, Ref};
pub use forest::{Alt, Forest, Node};
pub use grammar::Grammar;
pub use run::Run;
pub use signature::{AType, Abstract, Cat, Fun};
