//! Terms after typing: overloads chosen, subtypes marked, variables by number.
ghost use Rattle.std.specs.Prelude.{◌≡◌, IfOk};

use crate::ctype::CType;
use crate::linear::Predef;
use crate::pattern::Pattern;
use crate::reference::Whole;
use gft_core::{Name, NoMemory, Place, Shared, Token};
use sqlite_items::Items;

/// The branches of a table: the first whose pattern matches is taken, or one item for each value of
/// the type in order.
#[derive(Drop)]
pub enum Branches<T> {
    Matched(Items<(Shared<Pattern>, T)>),
    Listed(CType, Items<T>),
}

/// A typed term. `Var(k)` is the variable that was bound k binders ago, the innermost 0. A pattern
/// binds its variables in the order in which they first stand in it, an `Or` those of its left
/// side; of several that are bound at once the last is the innermost. Places stand where evaluation
/// may be stuck. `Oper`, `Lambda` and `App` stand only in what typing gives; a term without them is
/// normal. Parts are shared, so a copy takes no memory.
#[derive(Drop)]
pub enum LinTerm {
    Var(u32),
    /// The value of an argument of the whole judgement, from 0.
    Arg(u32),
    /// The words of a literal.
    Words(Shared<Items<Token>>),
    Num(u128),
    /// A constructor with all its arguments.
    Con(Shared<Whole>, Shared<Items<LinTerm>>),
    Concat(Shared<LinTerm>, Shared<LinTerm>),
    Glue(Shared<LinTerm>, Shared<LinTerm>, Place),
    /// The number, then the string.
    Predef(Predef, Shared<LinTerm>, Shared<LinTerm>, Place),
    /// Fields as written, each label once.
    Record(Shared<Items<(Shared<Name>, LinTerm)>>),
    Extend(Shared<LinTerm>, Shared<LinTerm>),
    Proj(Shared<LinTerm>, Shared<Name>),
    /// A table over the type.
    Table(CType, Shared<Branches<LinTerm>>),
    Select(Shared<LinTerm>, Shared<LinTerm>),
    /// A selection directly from a table expression: the selector, then its branches.
    Case(Shared<LinTerm>, Shared<Branches<LinTerm>>, Place),
    Variants(Shared<Items<LinTerm>>),
    /// Terms that are evaluated once each, from left to right, outside of what they bind, and the
    /// term that sees them all, the last one innermost.
    Let(Shared<Items<LinTerm>>, Shared<LinTerm>),
    /// A term of the first type where its supertype, the second, stands: cut to the labels of that.
    Cut(Shared<LinTerm>, CType, CType),
    /// The number of an oper's judgement or alternative.
    Oper(u32),
    /// A function of so many arguments, the last one innermost.
    Lambda(u32, Shared<LinTerm>),
    App(Shared<LinTerm>, Shared<Items<LinTerm>>),
}

/// What typing gives for a judgement: its term and the type of that term. For a judgement that
/// gives a type this is that type, and the term is the empty record.
#[derive(Drop)]
pub struct Typed {
    pub term: LinTerm,
    pub ctype: CType,
}

impl LinTerm {
    /// An equal term, which shares its parts with this one.
    pub fn copy(&self) -> Result<LinTerm, NoMemory>
        ensures { IfOk result (λ copied. copied ≡ self.now) }
    {
        match self {
            LinTerm::Var(back) => Ok(LinTerm::Var(*back)),
            LinTerm::Arg(number) => Ok(LinTerm::Arg(*number)),
            LinTerm::Words(words) => Ok(LinTerm::Words(words.share()?)),
            LinTerm::Num(number) => Ok(LinTerm::Num(*number)),
            LinTerm::Con(name, arguments) => Ok(LinTerm::Con(name.share()?, arguments.share()?)),
            LinTerm::Concat(left, right) => Ok(LinTerm::Concat(left.share()?, right.share()?)),
            LinTerm::Glue(left, right, place) => {
                Ok(LinTerm::Glue(left.share()?, right.share()?, *place))
            }
            LinTerm::Predef(which, number, string, place) => {
                Ok(LinTerm::Predef(*which, number.share()?, string.share()?, *place))
            }
            LinTerm::Record(fields) => Ok(LinTerm::Record(fields.share()?)),
            LinTerm::Extend(left, right) => Ok(LinTerm::Extend(left.share()?, right.share()?)),
            LinTerm::Proj(record, label) => Ok(LinTerm::Proj(record.share()?, label.share()?)),
            LinTerm::Table(over, branches) => Ok(LinTerm::Table(over.copy()?, branches.share()?)),
            LinTerm::Select(table, at) => Ok(LinTerm::Select(table.share()?, at.share()?)),
            LinTerm::Case(at, branches, place) => {
                Ok(LinTerm::Case(at.share()?, branches.share()?, *place))
            }
            LinTerm::Variants(members) => Ok(LinTerm::Variants(members.share()?)),
            LinTerm::Let(terms, body) => Ok(LinTerm::Let(terms.share()?, body.share()?)),
            LinTerm::Cut(term, from, to) => {
                Ok(LinTerm::Cut(term.share()?, from.copy()?, to.copy()?))
            }
            LinTerm::Oper(number) => Ok(LinTerm::Oper(*number)),
            LinTerm::Lambda(count, body) => Ok(LinTerm::Lambda(*count, body.share()?)),
            LinTerm::App(head, arguments) => Ok(LinTerm::App(head.share()?, arguments.share()?)),
        }
    }
}
