//! `++` and `+`, extension and projection.
use crate::refusing::Said;
use crate::state::{Found, Typing};
use crate::stopped::Stopped;
use crate::task::Task;
use gft_core::NoMemory;
use gft_forms::Form;
use gft_nodes::Node;
use gft_rules::Rule;
use gft_types::{Labelled, STR, TypeId};
use std::alloc::Global;

impl Typing {
    /// `a ++ b` and `a + b`: both sides are given `Str`.
    pub(crate) fn strings(&mut self, e: u32, left: u32, right: u32) -> Result<(), Stopped> {
        self.push(Task::Operands(e))?;
        self.push(Task::Term(right, Some(STR)))?;
        self.push(Task::Term(left, Some(STR)))
    }

    /// Both sides were typed.
    pub(crate) fn operands(&mut self, e: u32) -> Result<(), Stopped> {
        let right = self.pop_found().node;
        let left = self.pop_found().node;
        match self.forms.form(e) {
            Form::Glue(_, _) => {
                let place = self.forms.place(e);
                self.answer(Node::Glue(left, right, place), STR)
            }
            _ => self.answer(Node::Concat(left, right), STR),
        }
    }

    /// `r ** s`: both sides are found.
    pub(crate) fn extend(&mut self, e: u32, left: u32, right: u32) -> Result<(), Stopped> {
        self.push(Task::ExtendEnd(e))?;
        self.push(Task::Term(right, None))?;
        self.push(Task::Term(left, None))
    }

    /// The first field of a record type.
    pub(crate) fn fields_of(&mut self, of: TypeId, e: u32) -> Result<u32, Stopped> {
        match self.types.record_of(of) {
            None => Err(self.broken_at(Rule::NotRecord, e, Said::Type(of))),
            Some(first) => Ok(first),
        }
    }

    /// The record type of both fields; where a label is in both, that of the others counts.
    fn extended(&mut self, alloc: Global, first: u32, others: u32) -> Result<TypeId, NoMemory> {
        let mut fields: Vec<Labelled> = Vec::new(alloc);
        self.types.push_fields(first, &mut fields)?;
        self.types.push_fields(others, &mut fields)?;
        self.types.record(alloc, fields.as_slice())
    }

    /// Both sides of an extension were found.
    pub(crate) fn extend_end(&mut self, alloc: Global, e: u32) -> Result<(), Stopped> {
        let right: Found = self.pop_found();
        let left: Found = self.pop_found();
        let first = self.fields_of(left.of, e)?;
        let others = self.fields_of(right.of, e)?;
        let of = self.extended(alloc, first, others)?;
        self.answer(Node::Extend(left.node, right.node), of)
    }

    /// `r.l`
    pub(crate) fn proj(&mut self, e: u32, record: u32, label: u32) -> Result<(), Stopped> {
        self.push(Task::ProjEnd(e, label))?;
        self.push(Task::Term(record, None))
    }

    /// The record of a projection was found.
    pub(crate) fn proj_end(&mut self, e: u32, label: u32) -> Result<(), Stopped> {
        let record: Found = self.pop_found();
        let first = self.fields_of(record.of, e)?;
        match self.types.label_type(first, label) {
            None => Err(self.broken_at(Rule::NoField, e, Said::Name(label))),
            Some(of) => self.answer(Node::Proj(record.node, label), of),
        }
    }
}
