//! Names and numbers.
use crate::meaning::Meaning;
use crate::refusing::Said;
use crate::state::Typing;
use crate::stopped::Stopped;
use gft_nodes::Node;
use gft_rules::Rule;
use gft_syntax::Predef;
use gft_types::{TYPE_SORT, TypeId};
use std::alloc::Global;

impl Typing {
    pub(crate) fn number(&mut self, number: u128) -> Result<(), Stopped> {
        let of = self.types.ints(number)?;
        self.answer(Node::Num(number), of)
    }

    /// A name that is as it was written: a variable, or else it means nothing.
    pub(crate) fn variable_term(&mut self, e: u32, name: u32) -> Result<(), Stopped> {
        match self.variable(name) {
            None => Err(self.broken_at(Rule::Unknown, e, Said::Name(name))),
            Some(variable) => {
                let back = self.back(variable);
                self.answer(Node::Var(back), variable.of)
            }
        }
    }

    /// A whole name means nothing here.
    pub(crate) fn unknown(&mut self, e: u32, name: u32) -> Stopped {
        self.broken_at(Rule::Unknown, e, Said::Whole(name))
    }

    /// A constructor, as a function of its arguments.
    fn constructor(&mut self, constructor: u32, of: TypeId) -> Result<(), Stopped> {
        let arity = self.types.arity(of);
        self.answer(Node::Maker(constructor, arity), of)
    }

    /// A whole name.
    pub(crate) fn global(&mut self, alloc: Global, e: u32, name: u32) -> Result<(), Stopped> {
        match self.meaning(name) {
            Meaning::Nothing => Err(self.unknown(e, name)),
            Meaning::Param(of) => self.answer(Node::Type(of), TYPE_SORT),
            Meaning::Constructor(constructor, of) => self.constructor(constructor, of),
            Meaning::Oper(number, of) => self.answer(Node::Oper(number), of),
            Meaning::Overload(_, _) => self.overload_end(alloc, e, name, 0),
            Meaning::Named(of, sort) => self.answer(Node::Type(of), sort),
        }
    }

    /// A function of `Predef`.
    pub(crate) fn predef_function(&mut self, e: u32, which: Predef) -> Result<(), Stopped> {
        let place = self.forms.place(e);
        let of = self.predef;
        self.answer(Node::Function(which, place), of)
    }
}
