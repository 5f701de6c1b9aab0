//! A grammar after names are resolved: all judgements that count, under their whole names.
use crate::judgement::Judgement;
use crate::reference::Whole;
use crate::typed::Typed;
use gft_core::{Name, Place, Shared};
use sqlite_items::Items;

/// What an interface declares for a constant that an instance gives: the instance, and the
/// interface's judgement with each constant in it replaced by that of the instance, its places in
/// the interface.
#[derive(Drop)]
pub struct Declaration {
    pub instance: Name,
    pub judgement: Shared<Judgement>,
}

/// One name of a judgement, with its place there. A judgement with several names before its `:` or
/// `=` has an entry for each, which share it.
#[derive(Drop)]
pub struct FlatJudgement {
    pub whole: Whole,
    pub place: Place,
    pub judgement: Shared<Judgement>,
    pub declared: Items<Declaration>,
}

/// The judgements of a concrete module, inherited and copied ones among them.
#[derive(Drop)]
pub struct FlatConcrete {
    pub name: Name,
    pub judgements: Items<FlatJudgement>,
}

/// A resolved grammar. Judgements are numbered through `params`, `opers` and `concretes`, each
/// alternative of an overload by itself; `typed` holds for each number what typing gave, where it
/// was typed. `name` and `start` are those of the abstract module, None where there is none.
#[derive(Drop)]
pub struct Flat {
    pub name: Option<Name>,
    pub start: Option<Name>,
    pub cats: Items<FlatJudgement>,
    pub funs: Items<FlatJudgement>,
    pub params: Items<FlatJudgement>,
    pub opers: Items<FlatJudgement>,
    pub concretes: Items<FlatConcrete>,
    pub typed: Items<Option<Typed>>,
}
