//! Records and tuples.
use crate::refusing::Said;
use crate::state::{Found, Typing, add_part};
use crate::stopped::Stopped;
use crate::task::{Role, Task};
use gft_core::NoMemory;
use gft_forms::{Item, Span};
use gft_nodes::{Node, Part};
use gft_rules::Rule;
use gft_types::{Labelled, TYPE_SORT, TypeId};
use std::alloc::Global;

/// Adds a field.
fn add_field(fields: &mut Vec<Labelled>, label: u32, of: TypeId) -> Result<(), NoMemory> {
    fields.push(Labelled { label, of })?;
    Ok(())
}

impl Typing {
    /// A record: its fields are given the types of their labels where a record type is given.
    pub(crate) fn record(
        &mut self,
        e: u32,
        fields: Span,
        given: Option<TypeId>,
    ) -> Result<(), Stopped> {
        self.push(Task::RecordEnd(e, fields, given))?;
        let wanted = self.given_fields(given);
        for left in 0..fields.count {
            if let Some(item) = self.forms.item(fields, fields.count - 1 - left) {
                let want = self.types.label_type(wanted, item.name);
                self.field(item, want)?;
            }
        }
        Ok(())
    }

    /// The first field of the given record type, 0 where none is given.
    fn given_fields(&self, given: Option<TypeId>) -> u32 {
        match given {
            None => 0,
            Some(given) => self.types.record_of(given).unwrap_or(0),
        }
    }

    /// A field: a type of its own is given to it, and is then a subtype of the label's.
    fn field(&mut self, item: Item, want: Option<TypeId>) -> Result<(), Stopped> {
        let Some(value) = item.value else {
            return Ok(()); // excluded by the reader: a record's fields have values
        };
        self.push(Task::Data(value))?;
        match item.of {
            None => self.push(Task::Term(value, want)),
            Some(of) => {
                if let Some(want) = want {
                    self.push(Task::FieldFit(value, want))?;
                }
                self.push(Task::Checked(value))?;
                self.push(Task::Written(of, Role::Data, TYPE_SORT))
            }
        }
    }

    /// The record type of the fields, which were found last.
    fn own_type(&mut self, alloc: Global, fields: Span) -> Result<TypeId, NoMemory> {
        let mut own: Vec<Labelled> = Vec::new(alloc);
        for at in 0..fields.count {
            if let Some(item) = self.forms.item(fields, at) {
                add_field(&mut own, item.name, self.found_at(fields.count, at).of)?;
            }
        }
        self.types.record(alloc, own.as_slice())
    }

    /// The record of the fields, which were found last and are taken away.
    fn own_term(&mut self, alloc: Global, fields: Span) -> Result<u32, NoMemory> {
        let mut parts: Vec<Part> = Vec::new(alloc);
        for at in 0..fields.count {
            if let Some(item) = self.forms.item(fields, at) {
                let part = Part {
                    key: item.name,
                    node: self.found_at(fields.count, at).node,
                };
                add_part(&mut parts, part)?;
            }
        }
        self.drop_found(fields.count);
        let list = self.nodes.add_parts(parts.as_slice())?;
        self.nodes.add(Node::Record(list))
    }

    /// The record has each label of the given type.
    fn has_labels(&mut self, e: u32, of: TypeId, given: Option<TypeId>) -> Result<(), Stopped> {
        let first = self.given_fields(Some(of));
        let wanted = self.given_fields(given);
        match self.types.lacking(first, wanted) {
            None => Ok(()),
            Some(label) => Err(self.broken_at(Rule::NoField, e, Said::Name(label))),
        }
    }

    pub(crate) fn record_end(
        &mut self,
        alloc: Global,
        e: u32,
        fields: Span,
        given: Option<TypeId>,
    ) -> Result<(), Stopped> {
        let of = self.own_type(alloc, fields)?;
        let node = self.own_term(alloc, fields)?;
        self.has_labels(e, of, given)?;
        let place = self.forms.place(e);
        let found = self.fit_given(alloc, Found { node, of }, given, place)?;
        self.push_found(found)
    }
}
