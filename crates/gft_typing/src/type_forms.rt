//! The forms of types.
use crate::state::Typing;
use crate::stopped::Stopped;
use crate::task::{Role, Task};
use gft_core::NoMemory;
use gft_forms::{Form, Item, Span};
use gft_syntax::Sort;
use gft_types::{Labelled, PARAM_SORT, STR, TYPE_SORT, TypeId};
use std::alloc::Global;

/// The role of what a function type takes, where the function type has that role.
fn inner(role: Role) -> Role {
    match role {
        Role::Any => Role::Parameter,
        Role::Data => Role::Parameter,
        Role::Parameter => Role::Inner,
        Role::Inner => Role::Inner,
    }
}

/// The role of what a function type gives.
fn outer(role: Role) -> Role {
    match role {
        Role::Any => Role::Any,
        Role::Data => Role::Any,
        Role::Parameter => Role::Parameter,
        Role::Inner => Role::Parameter,
    }
}

/// Adds a field.
fn add_label(fields: &mut Vec<Labelled>, label: u32, of: TypeId) -> Result<(), NoMemory> {
    fields.push(Labelled { label, of })?;
    Ok(())
}

impl Typing {
    /// A type that is not a name.
    pub(crate) fn type_form(&mut self, e: u32, role: Role) -> Result<(), Stopped> {
        match self.forms.form(e) {
            Form::Sort(sort) => self.sort(e, sort),
            Form::Numbers(last) => self.numbers(last),
            Form::Arrow(_, from, _) => self.arrow(e, from, role),
            Form::TabType(over, values) => self.tab_type(e, over, values),
            Form::Pair(left, right) => self.pair(e, left, right),
            Form::RecordType(labels) => self.record_type(labels),
            // excluded by the callers, which hand on forms of types
            _ => Err(self.no_type(e)),
        }
    }

    fn sort(&mut self, e: u32, sort: Sort) -> Result<(), Stopped> {
        match sort {
            Sort::Str => self.push_written(STR),
            Sort::TypeSort => self.push_written(TYPE_SORT),
            Sort::ParamSort => self.push_written(PARAM_SORT),
            Sort::Ints => Err(self.unknown_sort(e, sort)),
            Sort::Predef => Err(self.unknown_sort(e, sort)),
        }
    }

    /// `Ints n`
    fn numbers(&mut self, last: u128) -> Result<(), Stopped> {
        let of = self.types.ints(last)?;
        self.push_written(of)
    }

    /// `(x : A) -> B`: A, and then B, which sees x.
    fn arrow(&mut self, e: u32, from: u32, role: Role) -> Result<(), Stopped> {
        self.push(Task::ArrowTo(e, role))?;
        self.push(Task::Written(from, inner(role), TYPE_SORT))
    }

    /// What the function type takes was written.
    pub(crate) fn arrow_to(&mut self, e: u32, role: Role) -> Result<(), Stopped> {
        let from = match self.written.last() {
            None => STR, // excluded by arrow
            Some(from) => *from,
        };
        let mark = self.mark()?;
        self.push(Task::Leave(mark))?;
        self.push(Task::ArrowEnd(e))?;
        if let Form::Arrow(binds, _, to) = self.forms.form(e) {
            self.bind_all(binds, from)?;
            self.push(Task::Written(to, outer(role), TYPE_SORT))?;
        }
        Ok(())
    }

    /// A function type that takes the same so many times, at least once.
    fn functions(&mut self, from: TypeId, to: TypeId, count: u32) -> Result<TypeId, NoMemory> {
        let mut of = to;
        for _ in 0..count.max(1) {
            of = self.types.function(from, of)?;
        }
        Ok(of)
    }

    /// Both sides were written.
    pub(crate) fn arrow_end(&mut self, e: u32) -> Result<(), Stopped> {
        let to = self.pop_written();
        let from = self.pop_written();
        let count = match self.forms.form(e) {
            Form::Arrow(binds, _, _) => binds.count,
            _ => 0, // excluded by arrow
        };
        let of = self.functions(from, to, count)?;
        self.push_written(of)
    }

    /// `P => T`
    fn tab_type(&mut self, e: u32, over: u32, values: u32) -> Result<(), Stopped> {
        self.push(Task::TabTypeEnd(e))?;
        self.push(Task::Written(values, Role::Data, TYPE_SORT))?;
        self.push(Task::Written(over, Role::Any, TYPE_SORT))
    }

    pub(crate) fn tab_type_end(&mut self, e: u32) -> Result<(), Stopped> {
        let values = self.pop_written();
        let over = self.pop_written();
        self.finite(over, e)?;
        let of = self.types.table(over, values)?;
        self.push_written(of)
    }

    /// `A * B`
    fn pair(&mut self, e: u32, left: u32, right: u32) -> Result<(), Stopped> {
        self.push(Task::PairEnd(e))?;
        self.push(Task::Written(right, Role::Data, TYPE_SORT))?;
        self.push(Task::Written(left, Role::Data, TYPE_SORT))
    }

    /// The fields of the left side: those of a pair, or the first one.
    fn left_fields(
        &mut self,
        alloc: Global,
        e: u32,
        left: TypeId,
    ) -> Result<Vec<Labelled>, NoMemory> {
        let is_pair = match self.forms.form(e) {
            Form::Pair(left, _) => matches!(self.forms.form(left), Form::Pair(_, _)),
            _ => false, // excluded by pair
        };
        let mut fields: Vec<Labelled> = Vec::new(alloc);
        match self.types.record_of(left) {
            Some(first) if is_pair => self.types.push_fields(first, &mut fields)?,
            _ => {
                let label = self.types.tuple_label(alloc, 0)?;
                add_label(&mut fields, label, left)?;
            }
        }
        Ok(fields)
    }

    fn pair_type(
        &mut self,
        alloc: Global,
        e: u32,
        left: TypeId,
        right: TypeId,
    ) -> Result<TypeId, NoMemory> {
        let mut fields = self.left_fields(alloc, e, left)?;
        let count = u32::try_from(fields.len()).unwrap_or(u32::MAX);
        let label = self.types.tuple_label(alloc, count)?;
        add_label(&mut fields, label, right)?;
        self.types.record(alloc, fields.as_slice())
    }

    pub(crate) fn pair_end(&mut self, alloc: Global, e: u32) -> Result<(), Stopped> {
        let right = self.pop_written();
        let left = self.pop_written();
        let of = self.pair_type(alloc, e, left, right)?;
        self.push_written(of)
    }

    /// `{x : T ; ..}`
    fn record_type(&mut self, labels: Span) -> Result<(), Stopped> {
        self.push(Task::LabelsEnd(labels))?;
        for at in 0..labels.count {
            if let Some(item) = self.forms.item(labels, labels.count - 1 - at) {
                self.label(item)?;
            }
        }
        Ok(())
    }

    fn label(&mut self, item: Item) -> Result<(), Stopped> {
        match item.of {
            None => Ok(()), // excluded by the form: labels have types
            Some(of) => self.push(Task::Written(of, Role::Data, TYPE_SORT)),
        }
    }

    /// The record type of the labels, whose types were written last.
    fn labelled(&mut self, alloc: Global, labels: Span) -> Result<TypeId, NoMemory> {
        let first = self.written.len().saturating_sub(labels.count as usize);
        let mut fields: Vec<Labelled> = Vec::new(alloc);
        for at in 0..labels.count {
            if let Some(item) = self.forms.item(labels, at) {
                if let Some(of) = self.written.get(first.saturating_add(at as usize)) {
                    add_label(&mut fields, item.name, *of)?;
                }
            }
        }
        self.written.truncate(first);
        self.types.record(alloc, fields.as_slice())
    }

    pub(crate) fn labels_end(&mut self, alloc: Global, labels: Span) -> Result<(), Stopped> {
        let of = self.labelled(alloc, labels)?;
        self.push_written(of)
    }
}
