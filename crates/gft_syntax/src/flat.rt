//! A grammar after names are resolved: all judgements that count, under their whole names. In the
//! form of which the definitions speak until they follow `resolved`.
use crate::judgement::Judgement;
use crate::linear::Typed;
use crate::reference::Whole;
use gft_core::Name;
use sqlite_items::Items;

/// One name of a judgement. One with several names before its `:` or `=` has an entry for each.
#[derive(Drop)]
pub struct FlatJudgement {
    pub whole: Whole,
    pub judgement: Judgement,
}

/// The judgements of a concrete module, inherited and copied ones among them.
#[derive(Drop)]
pub struct FlatConcrete {
    pub name: Name,
    pub judgements: Items<FlatJudgement>,
}

/// A resolved grammar. Judgements are numbered through `params`, `opers` and `concretes`, each
/// alternative of an overload by itself; `typed` holds for each number what typing gave, where it
/// was typed. `name` and `start` are those of the abstract module, None where there is none.
#[derive(Drop)]
pub struct Flat {
    pub name: Option<Name>,
    pub start: Option<Name>,
    pub cats: Items<FlatJudgement>,
    pub funs: Items<FlatJudgement>,
    pub params: Items<FlatJudgement>,
    pub opers: Items<FlatJudgement>,
    pub concretes: Items<FlatConcrete>,
    pub typed: Items<Option<Typed>>,
}
