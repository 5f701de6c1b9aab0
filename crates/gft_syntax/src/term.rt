//! Terms of the source language.
ghost use Rattle.std.specs.Prelude.{◌≡◌};
ghost use Rattle.gft_syntax.specs.Terms.{place_of};

use crate::bind::Bind;
use crate::pattern::Pattern;
use crate::reference::Reference;
use gft_core::{Name, Place, Text};
use sqlite_items::{Boxed, Items};

/// The sorts of concrete syntax. `TypeSort` is `Type`, `ParamSort` is `PType`.
#[derive(Clone, Copy, Debug, PartialEq, Eq)]
pub enum Sort {
    Str,
    TypeSort,
    ParamSort,
    Ints,
    Predef,
}

/// A local definition of `let` and `where`, or a field of a record or of a record type.
#[derive(Drop)]
pub enum Local<T> {
    /// `x, y = e`
    Value(Items<Name>, T),
    /// `x, y : T`
    Label(Items<Name>, T),
    /// `x, y : T = e`
    TypedValue(Items<Name>, T, T),
}

/// A branch: `p => e`.
#[derive(Drop)]
pub struct Case<T> {
    pub pattern: Pattern,
    pub body: T,
}

/// A term. Each form ends with the place of its first token, an opening parenthesis counted where
/// the form begins with one; otherwise parentheses leave no trace.
#[derive(Drop)]
pub enum Term {
    /// `a | b`
    Alt(Boxed<Term>, Boxed<Term>, Place),
    /// `\x, y -> e`
    Fun(Items<Bind>, Boxed<Term>, Place),
    /// `\\x, y => e`
    TabFun(Items<Bind>, Boxed<Term>, Place),
    /// `(x, y : A) -> B`, and `A -> B` without variables.
    Arrow(Items<Bind>, Boxed<Term>, Boxed<Term>, Place),
    /// `P => T`
    TabType(Boxed<Term>, Boxed<Term>, Place),
    /// `let x = a ; .. in e`, and `e where {x = a ; ..}`
    Let(Items<Local<Term>>, Boxed<Term>, Place),
    /// `a ++ b`
    Concat(Boxed<Term>, Boxed<Term>, Place),
    /// `a + b`
    Glue(Boxed<Term>, Boxed<Term>, Place),
    /// `t ! v`
    Select(Boxed<Term>, Boxed<Term>, Place),
    /// `r ** s`
    Extend(Boxed<Term>, Boxed<Term>, Place),
    /// `A * B`
    Pair(Boxed<Term>, Boxed<Term>, Place),
    /// `table P {p => e ; ..}`, or without P.
    TableOf(Option<Boxed<Term>>, Items<Case<Term>>, Place),
    /// `table P [e ; ..]`
    TableList(Boxed<Term>, Items<Term>, Place),
    /// `f a`
    App(Boxed<Term>, Boxed<Term>, Place),
    /// `case e of {p => e ; ..}`
    CaseOf(Boxed<Term>, Items<Case<Term>>, Place),
    /// `variants {a ; ..}`
    Variants(Items<Term>, Place),
    /// `r.x`
    Proj(Boxed<Term>, Name, Place),
    Var(Reference, Place),
    /// A text in quotes, its escapes read.
    Lit(Text, Place),
    Num(u128, Place),
    /// `[]`
    Empty(Place),
    /// `[C]`
    ListCat(Reference, Place),
    Sort(Sort, Place),
    /// A record, a record type, or `{}`.
    Fields(Items<Local<Term>>, Place),
    /// `<a, b>`
    Tuple(Items<Term>, Place),
    /// `<e : T>`
    Typed(Boxed<Term>, Boxed<Term>, Place),
}

/// The place of the term's first token. It takes no memory.
pub fn place_of(term: &Term) -> Place
    ensures { result ≡ place_of term.now }
{
    match term {
        Term::Alt(_, _, place) => *place,
        Term::Fun(_, _, place) => *place,
        Term::TabFun(_, _, place) => *place,
        Term::Arrow(_, _, _, place) => *place,
        Term::TabType(_, _, place) => *place,
        Term::Let(_, _, place) => *place,
        Term::Concat(_, _, place) => *place,
        Term::Glue(_, _, place) => *place,
        Term::Select(_, _, place) => *place,
        Term::Extend(_, _, place) => *place,
        Term::Pair(_, _, place) => *place,
        Term::TableOf(_, _, place) => *place,
        Term::TableList(_, _, place) => *place,
        Term::App(_, _, place) => *place,
        Term::CaseOf(_, _, place) => *place,
        Term::Variants(_, place) => *place,
        Term::Proj(_, _, place) => *place,
        Term::Var(_, place) => *place,
        Term::Lit(_, place) => *place,
        Term::Num(_, place) => *place,
        Term::Empty(place) => *place,
        Term::ListCat(_, place) => *place,
        Term::Sort(_, place) => *place,
        Term::Fields(_, place) => *place,
        Term::Tuple(_, place) => *place,
        Term::Typed(_, _, place) => *place,
    }
}
