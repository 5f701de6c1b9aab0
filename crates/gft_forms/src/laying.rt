//! Terms are laid out into the table.
use crate::form::{Form, Span};
use crate::lists::{ints_form, predef_form};
use crate::table::Forms;
use gft_core::NoMemory;
use gft_syntax::{Case, Local, Term};
use gft_types::Types;
use std::alloc::Global;

impl Forms {
    /// A term of a form that has no terms within.
    fn lay_leaf(&mut self, alloc: Global, types: &mut Types, term: &Term) -> Result<u32, NoMemory> {
        match term {
            Term::Var(name, place) => self.add_name(alloc, types, name, *place),
            Term::ListCat(name, place) => self.add_name(alloc, types, name, *place),
            Term::Lit(text, place) => self.add_literal(alloc, text, *place),
            Term::Num(number, place) => self.add(Form::Num(*number), *place),
            Term::Empty(place) => self.add_words(alloc, "", *place),
            Term::Sort(sort, place) => self.add(Form::Sort(*sort), *place),
            // excluded by lay: each other form has terms within
            _ => self.add_words(alloc, "", gft_syntax::place_of(term)),
        }
    }

    /// Lays out a term, and says its number.
    #[cycle(lay)]
    pub fn lay(&mut self, alloc: Global, types: &mut Types, term: &Term) -> Result<u32, NoMemory> {
        match term {
            Term::Alt(left, right, place) => {
                let mark = self.pending_parts.len();
                let left = self.lay(alloc, types, left.get())?;
                self.push_part(left)?;
                let right = self.lay(alloc, types, right.get())?;
                self.push_part(right)?;
                let members = self.gather_parts(mark)?;
                self.add(Form::Variants(members), *place)
            }
            Term::Fun(binds, body, place) => {
                let body = self.lay(alloc, types, body.get())?;
                let binds = self.add_bindings(alloc, types, binds.as_slice(), false)?;
                self.add(Form::Fun(binds, body), *place)
            }
            Term::TabFun(binds, body, place) => {
                let body = self.lay(alloc, types, body.get())?;
                let binds = self.add_bindings(alloc, types, binds.as_slice(), true)?;
                self.add(Form::TabFun(binds, body), *place)
            }
            Term::Arrow(binds, from, to, place) => {
                let from = self.lay(alloc, types, from.get())?;
                let to = self.lay(alloc, types, to.get())?;
                let binds = self.add_bindings(alloc, types, binds.as_slice(), false)?;
                self.add(Form::Arrow(binds, from, to), *place)
            }
            Term::TabType(over, values, place) => {
                let over = self.lay(alloc, types, over.get())?;
                let values = self.lay(alloc, types, values.get())?;
                self.add(Form::TabType(over, values), *place)
            }
            Term::Let(locals, body, place) => {
                let locals = self.lay_locals(alloc, types, locals.as_slice())?;
                let body = self.lay(alloc, types, body.get())?;
                self.add(Form::Let(locals, body), *place)
            }
            Term::Concat(left, right, place) => {
                let left = self.lay(alloc, types, left.get())?;
                let right = self.lay(alloc, types, right.get())?;
                self.add(Form::Concat(left, right), *place)
            }
            Term::Glue(left, right, place) => {
                let left = self.lay(alloc, types, left.get())?;
                let right = self.lay(alloc, types, right.get())?;
                self.add(Form::Glue(left, right), *place)
            }
            Term::Select(table, at, place) => {
                let table = self.lay(alloc, types, table.get())?;
                let at = self.lay(alloc, types, at.get())?;
                self.add(Form::Select(table, at), *place)
            }
            Term::Extend(left, right, place) => {
                let left = self.lay(alloc, types, left.get())?;
                let right = self.lay(alloc, types, right.get())?;
                self.add(Form::Extend(left, right), *place)
            }
            Term::Pair(left, right, place) => {
                let left = self.lay(alloc, types, left.get())?;
                let right = self.lay(alloc, types, right.get())?;
                self.add(Form::Pair(left, right), *place)
            }
            Term::TableOf(None, cases, place) => {
                let cases = self.lay_cases(alloc, types, cases.as_slice())?;
                self.add(Form::Table(cases), *place)
            }
            Term::TableOf(Some(over), cases, place) => {
                let over = self.lay(alloc, types, over.get())?;
                let cases = self.lay_cases(alloc, types, cases.as_slice())?;
                self.add(Form::TableOver(over, cases), *place)
            }
            Term::TableList(over, items, place) => {
                let over = self.lay(alloc, types, over.get())?;
                let items = self.lay_all(alloc, types, items.as_slice())?;
                self.add(Form::TableList(over, items), *place)
            }
            Term::App(head, argument, place) => {
                if let Some(form) = ints_form(head.get(), argument.get()) {
                    return self.add(form, *place);
                }
                let head = self.lay(alloc, types, head.get())?;
                let argument = self.lay(alloc, types, argument.get())?;
                self.add(Form::App(head, argument), *place)
            }
            Term::CaseOf(at, cases, place) => {
                let at = self.lay(alloc, types, at.get())?;
                let cases = self.lay_cases(alloc, types, cases.as_slice())?;
                self.add(Form::Case(at, cases), *place)
            }
            Term::Variants(members, place) => {
                let members = self.lay_all(alloc, types, members.as_slice())?;
                self.add(Form::Variants(members), *place)
            }
            Term::Proj(of, label, place) => {
                if let Some(form) = predef_form(of.get(), label) {
                    return self.add(form, *place);
                }
                let of = self.lay(alloc, types, of.get())?;
                let label = types.names.number(alloc, label)?;
                self.add(Form::Proj(of, label), *place)
            }
            Term::Fields(fields, place) => {
                let fields = self.lay_locals(alloc, types, fields.as_slice())?;
                self.add_fields(fields, *place)
            }
            Term::Tuple(items, place) => {
                let items = self.lay_all(alloc, types, items.as_slice())?;
                self.add_tuple(alloc, types, items, *place)
            }
            Term::Typed(of, of_type, place) => {
                let of = self.lay(alloc, types, of.get())?;
                let of_type = self.lay(alloc, types, of_type.get())?;
                self.add(Form::Typed(of, of_type), *place)
            }
            _ => self.lay_leaf(alloc, types, term),
        }
    }

    #[cycle(lay)]
    fn lay_all(
        &mut self,
        alloc: Global,
        types: &mut Types,
        terms: &[Term],
    ) -> Result<Span, NoMemory> {
        let mark = self.pending_parts.len();
        'each: for term in terms {
            let part = self.lay(alloc, types, term)?;
            self.push_part(part)?;
        }
        self.gather_parts(mark)
    }

    #[cycle(lay)]
    fn lay_cases(
        &mut self,
        alloc: Global,
        types: &mut Types,
        cases: &[Case<Term>],
    ) -> Result<Span, NoMemory> {
        let mark = self.pending_branches.len();
        'each: for case in cases {
            let body = self.lay(alloc, types, &case.body)?;
            let pattern = self.add_pattern(alloc, &case.pattern)?;
            self.push_branch(pattern, body)?;
        }
        self.gather_branches(mark)
    }

    #[cycle(lay)]
    fn lay_locals(
        &mut self,
        alloc: Global,
        types: &mut Types,
        locals: &[Local<Term>],
    ) -> Result<Span, NoMemory> {
        let mark = self.pending_items.len();
        'each: for local in locals {
            match local {
                Local::Value(names, value) => {
                    let value = Some(self.lay(alloc, types, value)?);
                    self.push_items(alloc, types, names.as_slice(), None, value)?;
                }
                Local::Label(names, of) => {
                    let of = Some(self.lay(alloc, types, of)?);
                    self.push_items(alloc, types, names.as_slice(), of, None)?;
                }
                Local::TypedValue(names, of, value) => {
                    let of = Some(self.lay(alloc, types, of)?);
                    let value = Some(self.lay(alloc, types, value)?);
                    self.push_items(alloc, types, names.as_slice(), of, value)?;
                }
            }
        }
        self.gather_items(mark)
    }
}
