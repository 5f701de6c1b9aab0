//! Judgements of modules.
use crate::bind::Bind;
use crate::reference::{PlacedName, Reference};
use crate::term::Term;
use gft_core::{Name, Place, Text};
use sqlite_items::Items;

/// The keywords of judgements.
#[derive(Clone, Copy, Debug, PartialEq, Eq)]
pub enum Keyword {
    Cat,
    Fun,
    Flags,
    Lincat,
    Lin,
    Lindef,
    Linref,
    Param,
    Oper,
}

/// `(x, y : A)`, or `A` without variables.
#[derive(Drop)]
pub struct Context {
    pub binds: Items<Bind>,
    pub of_type: Term,
}

/// A constructor of a parameter type with the types of its arguments.
#[derive(Drop)]
pub struct Constructor {
    pub name: PlacedName,
    pub arguments: Items<Context>,
}

/// `f, g : T = e` in an overload. Its names mean nothing.
#[derive(Drop)]
pub struct Alternative {
    pub names: Items<Name>,
    pub of_type: Term,
    pub value: Term,
}

/// What an oper is defined as.
#[derive(Drop)]
pub enum Definition {
    Term(Term),
    Overload(Items<Alternative>),
}

/// The value of a flag.
#[derive(Drop)]
pub enum Setting {
    Name(Name),
    Number(u128),
    Text(Text),
}

/// A judgement. Its names carry their places; the name `[C]` is `ListC` at the place of the
/// bracket.
#[derive(Drop)]
pub enum Judgement {
    /// `cat C (x : A) B`
    Cat(PlacedName, Items<Context>),
    /// `cat [C]{n}`: C at its own place, the number, which is 0 where none is written, and the
    /// place of the bracket. After names are resolved the reference is where C comes from.
    ListCat(PlacedName, Reference, u128, Place),
    /// `fun f, g : A`
    Fun(Items<PlacedName>, Term),
    /// `flags x = v`
    Flag(PlacedName, Setting),
    /// `lincat C, D = T`
    Lincat(Items<PlacedName>, Term),
    /// `lin f, g x y = e`
    Lin(Items<PlacedName>, Items<Bind>, Term),
    /// `lindef C x = e`
    Lindef(Items<PlacedName>, Items<Bind>, Term),
    /// `linref C x = e`
    Linref(Items<PlacedName>, Items<Bind>, Term),
    /// `param P`
    ParamName(PlacedName),
    /// `param P = C | D Q`
    Param(PlacedName, Items<Constructor>),
    /// `oper f, g : T`
    OperType(Items<PlacedName>, Term),
    /// `oper f, g : T = d`
    OperTyped(Items<PlacedName>, Term, Definition),
    /// `oper f, g x y = d`
    Oper(Items<PlacedName>, Items<Bind>, Definition),
}
