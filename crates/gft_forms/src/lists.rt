//! Lists of parts, and what terms have that is no term.
use crate::copies::{bound_pattern, copy_pattern};
use crate::form::{Binding, Branch, Form, Item, Span};
use crate::table::{Forms, number_at};
use gft_core::{Name, NoMemory, Place, Shared, Text, words};
use gft_syntax::{Bind, Pattern, Predef, Reference, Sort, Term};
use gft_types::Types;
use sqlite_items::Items;
use std::alloc::Global;

/// Moves what is pending from one place on to the end of a table.
fn gather<T: Copy>(
    pending: &mut Vec<T>,
    mark: usize,
    table: &mut Vec<T>,
) -> Result<Span, NoMemory> {
    let first = number_at(table.len())?;
    let count = number_at(pending.len().saturating_sub(mark))?;
    'each: for at in mark..pending.len() {
        if let Some(one) = pending.get(at) {
            table.push(*one)?;
        }
    }
    pending.truncate(mark);
    Ok(Span { first, count })
}

/// The function of `Predef` that the label names.
fn predefined(label: &Name) -> Option<Predef> {
    match label.as_str() {
        "take" => Some(Predef::Take),
        "drop" => Some(Predef::Drop),
        "tk" => Some(Predef::Tk),
        "dp" => Some(Predef::Dp),
        _ => None,
    }
}

/// What `Predef.l` is, None for a projection from another term.
pub(crate) fn predef_form(of: &Term, label: &Name) -> Option<Form> {
    match of {
        Term::Sort(Sort::Predef, _) => match predefined(label) {
            Some(which) => Some(Form::Predef(which)),
            None => Some(Form::Sort(Sort::Predef)),
        },
        _ => None,
    }
}

/// The number of `Ints n`, None for another application.
pub(crate) fn ints_form(head: &Term, argument: &Term) -> Option<Form> {
    match head {
        Term::Sort(Sort::Ints, _) => match argument {
            Term::Num(last, _) => Some(Form::Numbers(*last)),
            _ => None,
        },
        _ => None,
    }
}

/// What a name is.
fn name_form(alloc: Global, types: &mut Types, name: &Reference) -> Result<Form, NoMemory> {
    match name {
        Reference::Written(name) => Ok(Form::Variable(types.names.number(alloc, name)?)),
        // excluded by resolution: names that are found are whole
        Reference::Found(origin) => Ok(Form::Variable(types.names.number(alloc, &origin.name)?)),
        Reference::Whole(whole) => Ok(Form::Global(types.whole_number(alloc, whole)?)),
    }
}

impl Forms {
    pub(crate) fn gather_parts(&mut self, mark: usize) -> Result<Span, NoMemory> {
        gather(&mut self.pending_parts, mark, &mut self.parts)
    }

    pub(crate) fn gather_items(&mut self, mark: usize) -> Result<Span, NoMemory> {
        gather(&mut self.pending_items, mark, &mut self.items)
    }

    pub(crate) fn gather_branches(&mut self, mark: usize) -> Result<Span, NoMemory> {
        gather(&mut self.pending_branches, mark, &mut self.branches)
    }

    /// One part more of a list that is begun.
    pub(crate) fn push_part(&mut self, part: u32) -> Result<(), NoMemory> {
        self.pending_parts.push(part)?;
        Ok(())
    }

    /// One field or local more for each of the names.
    pub(crate) fn push_items(
        &mut self,
        alloc: Global,
        types: &mut Types,
        names: &[Name],
        of: Option<u32>,
        value: Option<u32>,
    ) -> Result<(), NoMemory> {
        let mut is_first = true;
        'each: for name in names {
            let name = types.names.number(alloc, name)?;
            self.pending_items.push(Item {
                name,
                of,
                value,
                is_first,
            })?;
            is_first = false;
        }
        Ok(())
    }

    /// One branch more of a list that is begun.
    pub(crate) fn push_branch(&mut self, pattern: u32, body: u32) -> Result<(), NoMemory> {
        self.pending_branches.push(Branch { pattern, body })?;
        Ok(())
    }

    fn keep(&mut self, alloc: Global, pattern: Pattern) -> Result<u32, NoMemory> {
        let number = number_at(self.patterns.len())?;
        let pattern = Shared::new(alloc, pattern)?;
        self.patterns.push(pattern)?;
        Ok(number)
    }

    /// The number of a pattern, which is copied.
    pub(crate) fn add_pattern(
        &mut self,
        alloc: Global,
        pattern: &Pattern,
    ) -> Result<u32, NoMemory> {
        let copied = copy_pattern(alloc, pattern)?;
        self.keep(alloc, copied)
    }

    fn bound_name(alloc: Global, types: &mut Types, bind: &Bind) -> Result<Option<u32>, NoMemory> {
        match bind {
            Bind::Variable(name, _) => Ok(Some(types.names.number(alloc, name)?)),
            Bind::Nothing(_) => Ok(None),
        }
    }

    fn bound_number(
        &mut self,
        alloc: Global,
        bind: &Bind,
        has_pattern: bool,
    ) -> Result<u32, NoMemory> {
        if !has_pattern {
            return Ok(0);
        }
        let pattern = bound_pattern(alloc, bind)?;
        self.keep(alloc, pattern)
    }

    /// What is bound, with the patterns that bind it where there are to be some.
    pub fn add_bindings(
        &mut self,
        alloc: Global,
        types: &mut Types,
        binds: &[Bind],
        has_pattern: bool,
    ) -> Result<Span, NoMemory> {
        let first = number_at(self.bindings.len())?;
        let count = number_at(binds.len())?;
        'each: for bind in binds {
            let name = Forms::bound_name(alloc, types, bind)?;
            let pattern = self.bound_number(alloc, bind, has_pattern)?;
            self.bindings.push(Binding { name, pattern })?;
        }
        Ok(Span { first, count })
    }

    /// A name.
    pub(crate) fn add_name(
        &mut self,
        alloc: Global,
        types: &mut Types,
        name: &Reference,
        place: Place,
    ) -> Result<u32, NoMemory> {
        let form = name_form(alloc, types, name)?;
        self.add(form, place)
    }

    /// A literal with the words of the text.
    pub(crate) fn add_words(
        &mut self,
        alloc: Global,
        text: &str,
        place: Place,
    ) -> Result<u32, NoMemory> {
        let number = number_at(self.literals.len())?;
        let found = words(alloc, text)?;
        let literal = Shared::new(alloc, Items::from_vec(found))?;
        self.literals.push(literal)?;
        self.add(Form::Words(number), place)
    }

    /// A literal as it is written.
    pub(crate) fn add_literal(
        &mut self,
        alloc: Global,
        text: &Text,
        place: Place,
    ) -> Result<u32, NoMemory> {
        self.add_words(alloc, text.as_str(), place)
    }

    /// The items of a tuple, which is a record with the labels p1, p2, ..
    pub(crate) fn add_tuple(
        &mut self,
        alloc: Global,
        types: &mut Types,
        parts: Span,
        place: Place,
    ) -> Result<u32, NoMemory> {
        let first = number_at(self.items.len())?;
        for at in 0..parts.count {
            let value = Some(self.part(parts, at));
            let name = types.tuple_label(alloc, at)?;
            self.items.push(Item {
                name,
                of: None,
                value,
                is_first: true,
            })?;
        }
        let count = parts.count;
        self.add(Form::Record(Span { first, count }), place)
    }

    /// Fields: a record type where there are labels alone, else a record.
    pub(crate) fn add_fields(&mut self, items: Span, place: Place) -> Result<u32, NoMemory> {
        let is_type = match self.item(items, 0) {
            Some(item) => item.value.is_none() && items.count > 0,
            None => false,
        };
        let form = if is_type {
            Form::RecordType(items)
        } else {
            Form::Record(items)
        };
        self.add(form, place)
    }
}
