//! Record types: fields in chains, in byte order of their labels.
use crate::types::{Field, Size, Type, TypeId, Types, number_at};
use gft_core::NoMemory;
use std::alloc::Global;

/// A label by its number, and its type.
#[derive(Clone, Copy)]
pub struct Labelled {
    pub label: u32,
    pub of: TypeId,
}

/// The size of fields before which one more stands.
fn both(one: Size, others: Size) -> Size {
    Size {
        values: one.values.saturating_mul(others.values),
        is_finite: one.is_finite && others.is_finite,
    }
}

/// The size of no fields.
const NO_FIELDS: Size = Size {
    values: 1,
    is_finite: true,
};

impl Types {
    /// The field of that number, None where there is none. The numbers are from 1.
    pub(crate) fn field(&self, number: u32) -> Option<Field> {
        match self.fields.get_index(number.checked_sub(1)? as usize) {
            None => None,
            Some(field) => Some(*field),
        }
    }

    fn fields_size(&self, number: u32) -> Size {
        match number.checked_sub(1) {
            None => NO_FIELDS,
            Some(at) => match self.field_sizes.get(at as usize) {
                None => NO_FIELDS, // excluded by intern_field
                Some(size) => *size,
            },
        }
    }

    /// How many choices of values the fields from that one on have, or the greatest number.
    pub(crate) fn fields_product(&self, number: u32) -> u64 {
        self.fields_size(number).values
    }

    fn intern_field(&mut self, field: Field) -> Result<u32, NoMemory> {
        let size = both(self.size(field.of), self.fields_size(field.rest));
        let (at, is_new) = self.fields.insert_full(field)?;
        if is_new {
            self.field_sizes.push(size)?;
        }
        match number_at(at)?.checked_add(1) {
            Some(number) => Ok(number),
            None => Err(NoMemory),
        }
    }

    /// The fields in byte order of their labels, of those of one label the last one.
    fn in_order(&self, alloc: Global, fields: &[Labelled]) -> Result<Vec<Labelled>, NoMemory> {
        let mut keys: Vec<(&str, usize)> = Vec::new(alloc);
        'keys: for at in 0..fields.len() {
            keys.push((self.names.text(fields[at].label), at))?;
        }
        keys.sort()?;
        let mut ordered: Vec<Labelled> = Vec::new(alloc);
        'fields: for (_, at) in keys.as_slice() {
            if let Some(field) = fields.get(*at) {
                let is_again = match ordered.last() {
                    None => false,
                    Some(last) => last.label == field.label,
                };
                if is_again {
                    let _earlier = ordered.pop();
                }
                ordered.push(*field)?;
            }
        }
        Ok(ordered)
    }

    /// The record type of these fields, in any order; of those of one label the last one counts.
    pub fn record(&mut self, alloc: Global, fields: &[Labelled]) -> Result<TypeId, NoMemory> {
        let ordered = self.in_order(alloc, fields)?;
        let mut first = 0u32;
        'fields: for at in 0..ordered.len() {
            if let Some(field) = ordered.get(ordered.len() - 1 - at) {
                first = self.intern_field(Field {
                    label: field.label,
                    of: field.of,
                    rest: first,
                })?;
            }
        }
        let size = self.fields_size(first);
        self.intern(Type::Record(first), size)
    }

    /// The number of a record type's first field, 0 where it has none. None for other types.
    pub fn record_of(&self, of: TypeId) -> Option<u32> {
        match self.kind(of) {
            Type::Record(first) => Some(first),
            _ => None,
        }
    }

    /// Adds the fields from that one on.
    pub fn push_fields(&self, first: u32, fields: &mut Vec<Labelled>) -> Result<(), NoMemory> {
        let mut next = first;
        for _ in 0..self.fields.len() {
            match self.field(next) {
                None => break,
                Some(field) => {
                    next = field.rest;
                    fields.push(Labelled {
                        label: field.label,
                        of: field.of,
                    })?;
                }
            }
        }
        Ok(())
    }

    /// The type of the label among the fields from that one on.
    pub fn label_type(&self, first: u32, label: u32) -> Option<TypeId> {
        let mut next = first;
        for _ in 0..self.fields.len() {
            let field = self.field(next)?;
            if field.label == label {
                return Some(field.of);
            }
            next = field.rest;
        }
        None
    }

    /// The first label, in byte order, of the wanted fields that the others lack.
    pub fn lacking(&self, first: u32, wanted: u32) -> Option<u32> {
        let mut next = wanted;
        for _ in 0..self.fields.len() {
            let want = self.field(next)?;
            if self.label_type(first, want.label).is_none() {
                return Some(want.label);
            }
            next = want.rest;
        }
        None
    }

    /// How many fields there are from that one on.
    pub fn field_count(&self, first: u32) -> u32 {
        let mut next = first;
        let mut count = 0u32;
        for _ in 0..self.fields.len() {
            match self.field(next) {
                None => break,
                Some(field) => {
                    next = field.rest;
                    count = count.saturating_add(1);
                }
            }
        }
        count
    }

    /// The type `{s : T}` for the label of that number.
    pub fn single(&mut self, alloc: Global, label: u32, of: TypeId) -> Result<TypeId, NoMemory> {
        let mut fields = Vec::new(alloc);
        fields.push(Labelled { label, of })?;
        self.record(alloc, fields.as_slice())
    }
}
