//! Modules: headers, what they inherit and open, and their judgements.
use crate::judgement::Judgement;
use crate::reference::PlacedName;
use gft_core::Shared;
use sqlite_items::Items;

/// A module's kind and names. The second name of an instance is its interface, that of a concrete
/// module its abstract module.
#[derive(Drop)]
pub enum Header {
    Abstract(PlacedName),
    Resource(PlacedName),
    Interface(PlacedName),
    Instance(PlacedName, PlacedName),
    Concrete(PlacedName, PlacedName),
    Incomplete(PlacedName, PlacedName),
}

/// A module that is inherited: whole, only the names listed, or all but those.
#[derive(Drop)]
pub enum Inherited {
    Whole(PlacedName),
    Only(PlacedName, Items<PlacedName>),
    Except(PlacedName, Items<PlacedName>),
}

/// A module that is opened: plainly, or under an alias, which comes first.
#[derive(Drop)]
pub enum Opened {
    Plain(PlacedName),
    Qualified(PlacedName, PlacedName),
}

/// `(I = J)` after `with`.
#[derive(Drop)]
pub struct Substitution {
    pub interface: PlacedName,
    pub instance: PlacedName,
}

/// What a module opens, and its own judgements in order.
#[derive(Drop)]
pub struct Body {
    pub opened: Items<Opened>,
    pub judgements: Items<Shared<Judgement>>,
}

/// What follows `=`.
#[derive(Drop)]
pub enum Rest {
    /// `M, N ** open R in {..}`
    Own(Items<Inherited>, Body),
    /// `M, N`
    Inherits(Items<Inherited>),
    /// `M, N ** F with (I = J) ** {..}`
    With(Items<Inherited>, Inherited, Items<Substitution>, Option<Body>),
}

/// A module.
#[derive(Drop)]
pub struct Module {
    pub header: Header,
    pub rest: Rest,
}
