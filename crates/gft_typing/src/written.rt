//! Terms that stand where a type must.
use crate::refusing::Said;
use crate::state::{Found, Typing};
use crate::stopped::Stopped;
use crate::task::{Role, Task};
use gft_forms::Form;
use gft_nodes::Node;
use gft_rules::Rule;
use gft_syntax::Sort;
use gft_types::{PARAM_SORT, TYPE_SORT, Type, TypeId};
use std::alloc::Global;

impl Typing {
    /// A term that must be a type of that sort.
    pub(crate) fn written(
        &mut self,
        alloc: Global,
        e: u32,
        role: Role,
        sort: TypeId,
    ) -> Result<(), Stopped> {
        match self.forms.form(e) {
            Form::Variable(_) => self.written_name(alloc, e, role, sort),
            Form::Global(_) => self.written_name(alloc, e, role, sort),
            Form::Record(fields) => {
                if fields.count == 0 && sort == TYPE_SORT {
                    return self.written_empty(alloc);
                }
                self.written_name(alloc, e, role, sort)
            }
            Form::Sort(_) => self.written_form(e, role, sort),
            Form::Numbers(_) => self.written_form(e, role, sort),
            Form::Arrow(_, _, _) => self.written_form(e, role, sort),
            Form::TabType(_, _) => self.written_form(e, role, sort),
            Form::Pair(_, _) => self.written_form(e, role, sort),
            Form::RecordType(_) => self.written_form(e, role, sort),
            _ => self.written_other(alloc, e, sort),
        }
    }

    /// The record type without labels.
    fn written_empty(&mut self, alloc: Global) -> Result<(), Stopped> {
        let empty = self.types.record(alloc, &[])?;
        self.push_written(empty)
    }

    /// A name, whose type is found; so is that of a record, which then is no type.
    fn written_name(
        &mut self,
        alloc: Global,
        e: u32,
        role: Role,
        sort: TypeId,
    ) -> Result<(), Stopped> {
        self.push(Task::NameWritten(e, role, sort))?;
        self.find(alloc, e)
    }

    /// A form of types.
    fn written_form(&mut self, e: u32, role: Role, sort: TypeId) -> Result<(), Stopped> {
        self.push(Task::FormWritten(e, role, sort))?;
        self.type_form(e, role)
    }

    /// A form that no type has: it is given the sort first.
    fn written_other(&mut self, alloc: Global, e: u32, sort: TypeId) -> Result<(), Stopped> {
        self.push(Task::NoTypeHere(e))?;
        self.check_term(alloc, e, sort)
    }

    pub(crate) fn no_type_here(&mut self, e: u32) -> Result<(), Stopped> {
        Err(self.no_type(e))
    }

    /// What is named where the name is no type there.
    fn said_of(&self, e: u32) -> Said {
        match self.forms.form(e) {
            Form::Variable(name) => Said::Name(name),
            Form::Global(name) => Said::Whole(name),
            _ => Said::Nothing, // excluded by name_written: only names are no types
        }
    }

    /// The type that the term names. An oper without definition and a parameter type without
    /// constructors name none.
    fn type_named(&mut self, found: Found, e: u32) -> Result<TypeId, Stopped> {
        match self.nodes.node(found.node) {
            Node::Type(of) if !self.types.is_open(of) => Ok(of),
            _ => {
                let said = self.said_of(e);
                Err(self.broken_at(Rule::Unknown, e, said))
            }
        }
    }

    /// The name that was found is a type of that sort.
    pub(crate) fn name_written(
        &mut self,
        alloc: Global,
        e: u32,
        role: Role,
        sort: TypeId,
    ) -> Result<(), Stopped> {
        let found = self.pop_found();
        let place = self.forms.place(e);
        if found.of != TYPE_SORT && found.of != PARAM_SORT {
            return Err(self.mismatch(place, sort, found.of));
        }
        let of = self.type_named(found, e)?;
        let _sorted = self.fit(alloc, found, sort, place)?;
        self.placed(e, role, of)
    }

    /// The type that was written is of that sort.
    pub(crate) fn form_written(&mut self, e: u32, role: Role, sort: TypeId) -> Result<(), Stopped> {
        let of = self.pop_written();
        if sort != TYPE_SORT {
            let place = self.forms.place(e);
            return Err(self.mismatch(place, sort, TYPE_SORT));
        }
        self.placed(e, role, of)
    }

    /// Whether a function type may stand there.
    fn may_stand(&self, of: TypeId, role: Role) -> bool {
        match role {
            Role::Any => true,
            Role::Parameter => !self.types.takes_function(of),
            Role::Inner => false,
            Role::Data => false,
        }
    }

    /// The type may stand there.
    fn placed(&mut self, e: u32, role: Role, of: TypeId) -> Result<(), Stopped> {
        match self.types.kind(of) {
            Type::Fun(_, _) => {
                if !self.may_stand(of, role) {
                    return Err(self.broken_at(Rule::FunctionHere, e, Said::Nothing));
                }
            }
            Type::Param(_) => self.few_values(of, e)?,
            Type::Ints(_) => self.few_values(of, e)?,
            _ => {}
        }
        self.push_written(of)
    }

    /// `Ints` and `Predef` where they stand alone.
    pub(crate) fn unknown_sort(&mut self, e: u32, sort: Sort) -> Stopped {
        self.broken_at(Rule::Unknown, e, Said::Sort(sort))
    }
}
