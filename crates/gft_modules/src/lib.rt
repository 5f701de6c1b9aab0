//! The order of modules, the rules of their headers, and what each module has by inheritance and by
//! itself.
#![tactic(auto)]

mod clashes;
mod declared;
mod first;
mod gathering;
mod giving;
mod headers;
mod hidden;
mod inheriting;
mod kinds;
mod known;
mod names;
mod numbers;
mod ordering;
mod restrictions;
mod visible;

pub use declared::{Declared, Space, declared_of, is_copied, is_undefined, main_name, sort_of};
pub use first::{First, first_place, is_before, refuse};
pub use headers::{
    body_of, functor_of, header_mentions, header_name, inherited_at, inherited_of, is_abstract,
    is_concrete, is_incomplete, is_interface, judgement_at, judgements_of, mentions, opened_at,
    opened_of, substitutions_of,
};
pub use inheriting::{inherit, inherit_from};
pub use names::Names;
pub use numbers::{number_of, numbers_of};
pub use ordering::{order, order_from};
pub use restrictions::Restriction;
pub use visible::Places;
