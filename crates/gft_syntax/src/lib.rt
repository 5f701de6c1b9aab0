//! The forms of the source language with their places, and the types, values and terms of a
//! resolved grammar.
#![tactic(auto)]

mod bind;
mod ctype;
mod flat;
mod judgement;
mod linear;
mod module;
mod pattern;
mod reference;
mod resolved;
mod term;
mod token;
mod typed;
mod value;

pub use bind::Bind;
pub use ctype::CType;
pub use flat::{Flat as NamedFlat, FlatConcrete as NamedConcrete, FlatJudgement as NamedJudgement};
pub use judgement::{Alternative, Constructor, Context, Definition, Judgement, Keyword, Setting};
pub use linear::{Branches as NamedBranches, LinTerm as NamedTerm, Predef, Typed as NamedTyped};
pub use module::{Body, Header, Inherited, Module, Opened, Rest, Substitution};
pub use pattern::{Pattern, PatternField};
pub use reference::{Origin, PlacedName, Reference, Whole};
pub use resolved::{Declaration, Flat, FlatConcrete, FlatJudgement};
pub use term::{Case, Local, Sort, Term, place_of};
pub use token::{Reserved, SourceToken, Symbol, TokenForm};
pub use typed::{Branches, LinTerm, Typed};
pub use value::{Param, Path, PathStep, Value};
