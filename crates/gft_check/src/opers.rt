//! The typing of opers.
use crate::checking::Checking;
use gft_core::{NoMemory, Place};
use gft_rules::Rule;
use gft_syntax::{Alternative, Bind, Definition, FlatJudgement, Judgement, Term};
use gft_types::{PARAM_SORT, TYPE_SORT, TypeId};
use gft_typing::{Defined, Meaning, Role, Stopped};
use std::alloc::Global;

/// Where what is bound stands.
fn place_of(bind: &Bind) -> Place {
    match bind {
        Bind::Variable(_, place) => *place,
        Bind::Nothing(place) => *place,
    }
}

impl Checking {
    pub(crate) fn oper(
        &mut self,
        alloc: Global,
        entry: &FlatJudgement,
        node: u32,
    ) -> Result<(), Stopped> {
        match entry.judgement.get() {
            Judgement::OperType(_, of_type) => self.undefined(alloc, of_type, node),
            Judgement::OperTyped(_, of_type, Definition::Term(term)) => {
                self.typed_oper(alloc, of_type, term, node)
            }
            Judgement::OperTyped(_, of_type, Definition::Overload(all)) => {
                self.typing.written_type(alloc, of_type, Role::Any)?;
                self.overload(alloc, all.as_slice(), node)
            }
            Judgement::Oper(_, binds, Definition::Term(term)) => {
                self.untyped_oper(alloc, binds.as_slice(), term, node)
            }
            Judgement::Oper(_, binds, Definition::Overload(all)) => {
                self.bare_overload(alloc, binds.as_slice(), all.as_slice(), node)
            }
            _ => Ok(()), // excluded by judge: nothing else is an oper
        }
    }

    /// What the name of a node means from now on.
    fn mean(&mut self, node: u32, meaning: Meaning) -> Result<(), NoMemory> {
        let name = self.plan.named.number(node);
        self.typing.set_meaning(name, meaning)
    }

    /// An oper without definition has its type and no outcome.
    fn undefined(&mut self, alloc: Global, of_type: &Term, node: u32) -> Result<(), Stopped> {
        let of = self.typing.written_type(alloc, of_type, Role::Any)?;
        let number = self.number(node);
        self.mean(node, Meaning::Oper(number, of))?;
        self.keep_nothing(alloc, number, of)
    }

    fn typed_oper(
        &mut self,
        alloc: Global,
        of_type: &Term,
        term: &Term,
        node: u32,
    ) -> Result<(), Stopped> {
        let of = self.typing.written_type(alloc, of_type, Role::Any)?;
        if of == TYPE_SORT || of == PARAM_SORT {
            let named = self.typing.named_type(alloc, term, of)?;
            return self.names(alloc, node, named, of);
        }
        let term = self.typing.check(alloc, &[], term, of)?;
        self.means(alloc, node, term, of)
    }

    /// An oper that is a type.
    fn names(
        &mut self,
        alloc: Global,
        node: u32,
        named: TypeId,
        sort: TypeId,
    ) -> Result<(), Stopped> {
        self.mean(node, Meaning::Named(named, sort))?;
        self.keep_type(alloc, self.number(node), named)
    }

    /// An oper that is a term of that number and type.
    fn means(&mut self, alloc: Global, node: u32, term: u32, of: TypeId) -> Result<(), Stopped> {
        let number = self.number(node);
        self.mean(node, Meaning::Oper(number, of))?;
        self.keep_term(alloc, number, term, of)
    }

    fn untyped_oper(
        &mut self,
        alloc: Global,
        binds: &[Bind],
        term: &Term,
        node: u32,
    ) -> Result<(), Stopped> {
        match self.typing.definition(alloc, binds, term)? {
            Defined::Term(term, of) => self.means(alloc, node, term, of),
            Defined::Names(named, sort) => self.names(alloc, node, named, sort),
        }
    }

    /// An overload without a type of its own; arguments before it are a lambda whose type is not
    /// given.
    fn bare_overload(
        &mut self,
        alloc: Global,
        binds: &[Bind],
        all: &[Alternative],
        node: u32,
    ) -> Result<(), Stopped> {
        match binds.first() {
            Some(bind) => Err(self.typing.refuse(Rule::NoType, place_of(bind))),
            None => self.overload(alloc, all, node),
        }
    }

    /// The alternatives, which have the numbers from that of the node on.
    fn overload(&mut self, alloc: Global, all: &[Alternative], node: u32) -> Result<(), Stopped> {
        let first = self.number(node);
        let mut number = first;
        let mut types: Vec<TypeId> = Vec::new(alloc);
        'alternatives: for one in all {
            let of = self.alternative(alloc, one, number)?;
            add_type(&mut types, of)?;
            number = number.saturating_add(1);
        }
        let name = self.plan.named.number(node);
        self.typing.overload(name, first, types.as_slice())?;
        Ok(())
    }

    fn alternative(
        &mut self,
        alloc: Global,
        one: &Alternative,
        number: u32,
    ) -> Result<TypeId, Stopped> {
        self.typing.begin();
        let of = self.typing.written_type(alloc, &one.of_type, Role::Any)?;
        let term = self.typing.check(alloc, &[], &one.value, of)?;
        self.keep_term(alloc, number, term, of)?;
        Ok(of)
    }
}

/// Adds a type.
pub fn add_type(types: &mut Vec<TypeId>, of: TypeId) -> Result<(), NoMemory> {
    types.push(of)?;
    Ok(())
}
