//! What a judgement asks for, and what is answered.
use crate::state::{Found, Typing};
use crate::stopped::Stopped;
use crate::task::{Role, Task};
use gft_core::{NoMemory, Place};
use gft_forms::Form;
use gft_nodes::Nodes;
use gft_syntax::{Bind, Term, Typed};
use gft_types::{PARAM_SORT, TYPE_SORT, TypeId};
use std::alloc::Global;

/// What an oper without a written type is: a term by its number with its type, or a type with its
/// sort.
#[derive(Clone, Copy)]
pub enum Defined {
    Term(u32, TypeId),
    Names(TypeId, TypeId),
}

/// The place of what is bound.
fn place_of_bind(bind: &Bind) -> Place {
    match bind {
        Bind::Variable(_, place) => *place,
        Bind::Nothing(place) => *place,
    }
}

impl Typing {
    /// The type that is written where a type must stand.
    pub fn written_type(
        &mut self,
        alloc: Global,
        term: &Term,
        role: Role,
    ) -> Result<TypeId, Stopped> {
        let e = self.forms.lay(alloc, &mut self.types, term)?;
        self.type_at(alloc, e, role, TYPE_SORT)
    }

    /// The type that the definition of an oper of that sort, `Type` or `PType`, names.
    pub fn named_type(
        &mut self,
        alloc: Global,
        term: &Term,
        sort: TypeId,
    ) -> Result<TypeId, Stopped> {
        let e = self.forms.lay(alloc, &mut self.types, term)?;
        self.type_at(alloc, e, Role::Any, sort)
    }

    fn type_at(
        &mut self,
        alloc: Global,
        e: u32,
        role: Role,
        sort: TypeId,
    ) -> Result<TypeId, Stopped> {
        self.push(Task::Written(e, role, sort))?;
        self.run(alloc)?;
        Ok(self.pop_written())
    }

    fn term_at(&mut self, alloc: Global, e: u32, given: Option<TypeId>) -> Result<Found, Stopped> {
        self.push(Task::Term(e, given))?;
        self.run(alloc)?;
        Ok(self.pop_found())
    }

    /// The definition, what stands before its `=` as a lambda at the first of it.
    fn lay_definition(
        &mut self,
        alloc: Global,
        binds: &[Bind],
        term: &Term,
    ) -> Result<u32, NoMemory> {
        let body = self.forms.lay(alloc, &mut self.types, term)?;
        match binds.first() {
            None => Ok(body),
            Some(first) => {
                let place = place_of_bind(first);
                let binds = self
                    .forms
                    .add_bindings(alloc, &mut self.types, binds, false)?;
                self.forms.add(Form::Fun(binds, body), place)
            }
        }
    }

    /// A definition that is given a type: the number of its term.
    pub fn check(
        &mut self,
        alloc: Global,
        binds: &[Bind],
        term: &Term,
        given: TypeId,
    ) -> Result<u32, Stopped> {
        let e = self.lay_definition(alloc, binds, term)?;
        let found = self.term_at(alloc, e, Some(given))?;
        Ok(found.node)
    }

    /// Whether the form is one of types; `{}` is a record.
    fn is_type_form(&self, e: u32) -> bool {
        match self.forms.form(e) {
            Form::Variable(_) => true,
            Form::Global(_) => true,
            Form::Sort(_) => true,
            Form::Numbers(_) => true,
            Form::Arrow(_, _, _) => true,
            Form::TabType(_, _) => true,
            Form::Pair(_, _) => true,
            Form::RecordType(_) => true,
            _ => false,
        }
    }

    /// A definition whose type is found.
    pub fn definition(
        &mut self,
        alloc: Global,
        binds: &[Bind],
        term: &Term,
    ) -> Result<Defined, Stopped> {
        let e = self.lay_definition(alloc, binds, term)?;
        let found = self.term_at(alloc, e, None)?;
        if found.of != TYPE_SORT && found.of != PARAM_SORT {
            return Ok(Defined::Term(found.node, found.of));
        }
        if !self.is_type_form(e) {
            return Err(self.no_type(e));
        }
        let of = self.type_at(alloc, e, Role::Any, TYPE_SORT)?;
        Ok(Defined::Names(of, found.of))
    }

    /// A typed term, and its type.
    pub fn built(&mut self, alloc: Global, term: u32, of: TypeId) -> Result<Typed, NoMemory> {
        let term = self.nodes.build(alloc, &self.forms, &mut self.types, term)?;
        let ctype = self.types.owned(alloc, of)?;
        Ok(Typed { term, ctype })
    }

    /// What is answered for a judgement that gives a type: the empty record, and this type.
    pub fn built_type(&mut self, alloc: Global, of: TypeId) -> Result<Typed, NoMemory> {
        let term = Nodes::unit(alloc)?;
        let ctype = self.types.owned(alloc, of)?;
        Ok(Typed { term, ctype })
    }
}
