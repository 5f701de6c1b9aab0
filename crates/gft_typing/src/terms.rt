//! Terms whose type is given or found.
use crate::state::Typing;
use crate::stopped::Stopped;
use crate::task::{Role, Task};
use gft_forms::{Form, Span};
use gft_nodes::Node;
use gft_types::{STR, TYPE_SORT, TypeId};
use std::alloc::Global;

impl Typing {
    /// A term, given a type or none.
    pub(crate) fn term(
        &mut self,
        alloc: Global,
        e: u32,
        given: Option<TypeId>,
    ) -> Result<(), Stopped> {
        match given {
            None => self.find(alloc, e),
            Some(given) => self.check_term(alloc, e, given),
        }
    }

    /// A term is given the type that was written.
    pub(crate) fn checked(&mut self, alloc: Global, e: u32) -> Result<(), Stopped> {
        let given = self.pop_written();
        self.check_term(alloc, e, given)
    }

    /// A term whose type is found.
    pub(crate) fn find(&mut self, alloc: Global, e: u32) -> Result<(), Stopped> {
        match self.forms.form(e) {
            Form::Fun(_, _) => Err(self.no_type(e)),
            Form::TabFun(_, _) => Err(self.no_type(e)),
            Form::Table(_) => Err(self.no_type(e)),
            Form::TableOver(over, _) => self.table_over(e, over, None),
            Form::TableList(over, _) => self.table_list(e, over, None),
            Form::Case(at, _) => self.case_of(e, at, None),
            Form::Let(locals, body) => self.let_in(locals, body, None),
            Form::Variants(members) => self.variants(e, members, None),
            Form::Record(fields) => self.record(e, fields, None),
            _ => self.found_form(alloc, e),
        }
    }

    /// A term that is given a type.
    pub(crate) fn check_term(
        &mut self,
        alloc: Global,
        e: u32,
        given: TypeId,
    ) -> Result<(), Stopped> {
        match self.forms.form(e) {
            Form::Fun(binds, body) => self.lambda(e, binds, body, given),
            Form::TabFun(binds, body) => self.table_lambda(e, binds, body, given),
            Form::Table(cases) => self.table(e, cases, given),
            Form::TableOver(over, _) => self.table_over(e, over, Some(given)),
            Form::TableList(over, _) => self.table_list(e, over, Some(given)),
            Form::Case(at, _) => self.case_of(e, at, Some(given)),
            Form::Let(locals, body) => self.let_in(locals, body, Some(given)),
            Form::Variants(members) => self.variants(e, members, Some(given)),
            Form::Record(fields) => self.check_record(alloc, e, fields, given),
            _ => self.check_found(alloc, e, given),
        }
    }

    /// A term whose type is found, and then fits the given one.
    fn check_found(&mut self, alloc: Global, e: u32, given: TypeId) -> Result<(), Stopped> {
        self.push(Task::Fit(e, given))?;
        self.find(alloc, e)
    }

    /// A record that is given a type; `{}` is a type where `Type` is given.
    fn check_record(
        &mut self,
        alloc: Global,
        e: u32,
        fields: Span,
        given: TypeId,
    ) -> Result<(), Stopped> {
        if fields.count == 0 && given == TYPE_SORT {
            return self.empty_type(alloc);
        }
        if self.types.record_of(given).is_some() {
            return self.record(e, fields, Some(given));
        }
        self.check_found(alloc, e, given)
    }

    /// The record type without labels, as a term.
    fn empty_type(&mut self, alloc: Global) -> Result<(), Stopped> {
        let empty = self.types.record(alloc, &[])?;
        self.answer(Node::Type(empty), TYPE_SORT)
    }

    /// A term of a form whose type is always found.
    fn found_form(&mut self, alloc: Global, e: u32) -> Result<(), Stopped> {
        match self.forms.form(e) {
            Form::Words(literal) => self.answer(Node::Words(literal), STR),
            Form::Num(number) => self.number(number),
            Form::Variable(name) => self.variable_term(e, name),
            Form::Global(name) => self.global(alloc, e, name),
            Form::Predef(which) => self.predef_function(e, which),
            Form::Sort(_) => self.type_as_term(e),
            Form::Numbers(_) => self.type_as_term(e),
            Form::Arrow(_, _, _) => self.type_as_term(e),
            Form::TabType(_, _) => self.type_as_term(e),
            Form::Pair(_, _) => self.type_as_term(e),
            Form::RecordType(_) => self.type_as_term(e),
            Form::Concat(left, right) => self.strings(e, left, right),
            Form::Glue(left, right) => self.strings(e, left, right),
            Form::App(_, _) => self.application(e),
            Form::Select(table, at) => self.select(e, table, at),
            Form::Extend(left, right) => self.extend(e, left, right),
            Form::Proj(record, label) => self.proj(e, record, label),
            Form::Typed(term, of) => self.typed(term, of),
            // excluded by find and check: each other form is theirs
            _ => Err(self.no_type(e)),
        }
    }

    /// A type, as a term of the sort `Type`.
    fn type_as_term(&mut self, e: u32) -> Result<(), Stopped> {
        self.push(Task::TypeTerm)?;
        self.type_form(e, Role::Any)
    }

    /// The type that was written, as a term.
    pub(crate) fn type_term(&mut self) -> Result<(), Stopped> {
        let of = self.pop_written();
        self.answer(Node::Type(of), TYPE_SORT)
    }

    /// `<e : T>`: the type comes first.
    fn typed(&mut self, term: u32, of: u32) -> Result<(), Stopped> {
        self.push(Task::Checked(term))?;
        self.push(Task::Written(of, Role::Any, TYPE_SORT))
    }
}
