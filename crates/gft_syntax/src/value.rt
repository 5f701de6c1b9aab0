//! Values of concrete types, and paths to their leaves.
use crate::reference::Whole;
use gft_core::{Name, Sym};
use sqlite_items::Items;

/// A parameter value. The labels of a record are in byte order.
#[derive(Drop)]
pub enum Param {
    Con(Whole, Items<Param>),
    Ints(u128),
    Record(Items<(Name, Param)>),
}

/// A value. The labels of a record are in byte order, and the entries of a table in the order of
/// its parameter values. In a string, `Arg(i, l)` is a closed part: string leaf l of argument i.
#[derive(Drop)]
pub enum Value {
    Str(Items<Sym>),
    Param(Param),
    Record(Items<(Name, Value)>),
    Table(Items<(Param, Value)>),
}

/// A step from a value to one of its parts.
#[derive(Drop)]
pub enum PathStep {
    Label(Name),
    Cell(Param),
}

/// The way from a value to one of its leaves.
#[derive(Drop)]
pub struct Path {
    pub steps: Items<PathStep>,
}
