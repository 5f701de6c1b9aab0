//! Patterns that are given a type.
use crate::meaning::Meaning;
use crate::refusing::Said;
use crate::scope::Variable;
use crate::state::Typing;
use crate::stopped::Stopped;
use gft_core::{Name, Place};
use gft_rules::Rule;
use gft_syntax::{Pattern, PatternField, Reference, Whole};
use gft_types::{STR, TypeId};
use std::alloc::Global;

impl Typing {
    /// The variables of a pattern that is given a type are bound, in the order in which they stand.
    pub(crate) fn bind_pattern(
        &mut self,
        alloc: Global,
        pattern: u32,
        given: TypeId,
    ) -> Result<(), Stopped> {
        match self.forms.pattern(pattern)? {
            None => Ok(()), // excluded by the form: a branch has a pattern
            Some(pattern) => self.pattern(alloc, pattern.get(), given),
        }
    }

    /// The pattern's own type is a subtype of the given one.
    fn pattern_fits(
        &mut self,
        alloc: Global,
        of: TypeId,
        given: TypeId,
        place: Place,
    ) -> Result<(), Stopped> {
        if self.types.is_subtype(alloc, of, given)? {
            return Ok(());
        }
        Err(self.mismatch(place, given, of))
    }

    fn pattern_number(
        &mut self,
        alloc: Global,
        number: u128,
        given: TypeId,
        place: Place,
    ) -> Result<(), Stopped> {
        let of = self.types.ints(number)?;
        self.pattern_fits(alloc, of, given, place)
    }

    fn bind_name(&mut self, alloc: Global, name: &Name, given: TypeId) -> Result<(), Stopped> {
        let name = self.types.names.number(alloc, name)?;
        self.bind(name, given)
    }

    /// A pattern of a form that has no patterns within.
    fn pattern_leaf(
        &mut self,
        alloc: Global,
        pattern: &Pattern,
        given: TypeId,
    ) -> Result<(), Stopped> {
        match pattern {
            Pattern::Name(name, place) => self.pattern_name(alloc, name, given, *place),
            Pattern::One(place) => self.pattern_fits(alloc, STR, given, *place),
            Pattern::Text(_, place) => self.pattern_fits(alloc, STR, given, *place),
            Pattern::Num(number, place) => self.pattern_number(alloc, *number, given, *place),
            // any value; each other form has patterns within
            _ => Ok(()),
        }
    }

    /// A variable, or a constructor without arguments.
    fn pattern_name(
        &mut self,
        alloc: Global,
        name: &Reference,
        given: TypeId,
        place: Place,
    ) -> Result<(), Stopped> {
        match name {
            Reference::Written(name) => self.bind_name(alloc, name, given),
            Reference::Found(origin) => self.bind_name(alloc, &origin.name, given),
            Reference::Whole(whole) => {
                let of = self.constructor_type(alloc, whole, place)?;
                self.pattern_fits(alloc, of, given, place)
            }
        }
    }

    /// The type of the constructor of that name.
    fn constructor_type(
        &mut self,
        alloc: Global,
        whole: &Whole,
        place: Place,
    ) -> Result<TypeId, Stopped> {
        let name = self.types.whole_number(alloc, whole)?;
        match self.meaning(name) {
            Meaning::Constructor(_, of) => Ok(of),
            // excluded by resolution: the name is that of a constructor
            _ => Err(self.broken(Rule::Unknown, place, Said::Whole(name))),
        }
    }

    /// The type of the head of a pattern with so many arguments.
    fn head_type(
        &mut self,
        alloc: Global,
        name: &Reference,
        count: usize,
        place: Place,
    ) -> Result<TypeId, Stopped> {
        let of = match name {
            Reference::Whole(whole) => self.constructor_type(alloc, whole, place)?,
            // excluded by resolution
            Reference::Written(name) => {
                return Err(self.refuse_name(alloc, Rule::Unknown, place, name));
            }
            Reference::Found(origin) => {
                return Err(self.refuse_name(alloc, Rule::Unknown, place, &origin.name));
            }
        };
        if count > self.types.arity(of) as usize {
            let result_type = self.types.result_of(of);
            return Err(self.broken(Rule::NotFunction, place, Said::Type(result_type)));
        }
        Ok(of)
    }

    /// The type of what the constructor takes at that place.
    fn parameter_at(&self, of: TypeId, at: usize) -> TypeId {
        let mut rest = of;
        for _ in 0..at {
            if let Some((_, to)) = self.types.function_of(rest) {
                rest = to;
            }
        }
        match self.types.function_of(rest) {
            None => STR, // excluded by head_type
            Some((from, _)) => from,
        }
    }

    /// What is left of the constructor's type after so many arguments.
    fn rest_after(&self, of: TypeId, count: usize) -> TypeId {
        let mut rest = of;
        for _ in 0..count {
            if let Some((_, to)) = self.types.function_of(rest) {
                rest = to;
            }
        }
        rest
    }

    /// The first field of the record type that a pattern is given.
    fn pattern_record(&mut self, given: TypeId, place: Place) -> Result<u32, Stopped> {
        match self.types.record_of(given) {
            None => Err(self.broken(Rule::NotRecord, place, Said::Type(given))),
            Some(first) => Ok(first),
        }
    }

    /// The type of a label among the fields.
    fn label_of(&mut self, first: u32, label: u32, place: Place) -> Result<TypeId, Stopped> {
        match self.types.label_type(first, label) {
            None => Err(self.broken(Rule::NoField, place, Said::Name(label))),
            Some(of) => Ok(of),
        }
    }

    /// The type of a label that was seen to be there.
    fn seen_label(&mut self, alloc: Global, first: u32, label: &Name) -> Result<TypeId, Stopped> {
        let label = self.types.names.number(alloc, label)?;
        Ok(self.types.label_type(first, label).unwrap_or(STR))
    }

    /// The given record type has each label of the pattern.
    fn labels_there(
        &mut self,
        alloc: Global,
        fields: &[PatternField<Pattern>],
        first: u32,
        place: Place,
    ) -> Result<(), Stopped> {
        'fields: for field in fields {
            'labels: for label in field.labels.as_slice() {
                let label = self.types.names.number(alloc, label)?;
                self.label_of(first, label, place)?;
            }
        }
        Ok(())
    }

    /// The given record type has the label of each item of the pattern.
    fn items_there(
        &mut self,
        alloc: Global,
        count: usize,
        first: u32,
        place: Place,
    ) -> Result<(), Stopped> {
        'items: for at in 0..count {
            let of = self.tuple_label_at(alloc, at)?;
            self.label_of(first, of, place)?;
        }
        Ok(())
    }

    fn tuple_label_at(&mut self, alloc: Global, at: usize) -> Result<u32, Stopped> {
        match u32::try_from(at) {
            Err(_) => Err(Stopped::NoMemory),
            Ok(at) => Ok(self.types.tuple_label(alloc, at)?),
        }
    }

    /// The type of a tuple's item that was seen to be there.
    fn seen_item(&mut self, alloc: Global, first: u32, at: usize) -> Result<TypeId, Stopped> {
        let label = self.tuple_label_at(alloc, at)?;
        Ok(self.types.label_type(first, label).unwrap_or(STR))
    }

    /// The variable of that name among those that the right side of an alternative binds.
    fn on_the_right(&self, middle: usize, name: u32) -> Option<Variable> {
        'right: for at in middle..self.scope.len() {
            if let Some(variable) = self.scope.get(at) {
                if variable.name == name {
                    return Some(*variable);
                }
            }
        }
        None
    }

    /// Both sides of an alternative give a variable the same type.
    fn same_variables(&mut self, start: usize, middle: usize, place: Place) -> Result<(), Stopped> {
        'left: for at in start..middle {
            let left = match self.scope.get(at) {
                None => continue, // excluded by the bounds
                Some(variable) => *variable,
            };
            if let Some(right) = self.on_the_right(middle, left.name) {
                if left.of != right.of {
                    return Err(self.mismatch(place, left.of, right.of));
                }
            }
        }
        Ok(())
    }

    /// The variables of the left side of an alternative stay.
    fn join_sides(
        &mut self,
        start: usize,
        middle: usize,
        depth: u32,
        place: Place,
    ) -> Result<(), Stopped> {
        self.same_variables(start, middle, place)?;
        self.scope.truncate(middle);
        self.depth = depth;
        Ok(())
    }

    /// A pattern, given a type.
    #[cycle(pattern)]
    fn pattern(&mut self, alloc: Global, pattern: &Pattern, given: TypeId) -> Result<(), Stopped> {
        match pattern {
            Pattern::Or(left, right, place) => {
                let start = self.scope.len();
                self.pattern(alloc, left.get(), given)?;
                let middle = self.scope.len();
                let depth = self.depth;
                self.pattern(alloc, right.get(), given)?;
                self.join_sides(start, middle, depth, *place)
            }
            Pattern::Seq(left, right, place) => {
                self.pattern(alloc, left.get(), STR)?;
                self.pattern(alloc, right.get(), STR)?;
                self.pattern_fits(alloc, STR, given, *place)
            }
            Pattern::Star(inner, place) => {
                self.pattern(alloc, inner.get(), STR)?;
                self.pattern_fits(alloc, STR, given, *place)
            }
            Pattern::As(name, inner, _) => {
                self.bind_name(alloc, name, given)?;
                self.pattern(alloc, inner.get(), given)
            }
            Pattern::Con(_, name, parts, place) => {
                let parts = parts.as_slice();
                let of = self.head_type(alloc, name, parts.len(), *place)?;
                self.arguments(alloc, parts, of)?;
                let rest = self.rest_after(of, parts.len());
                self.pattern_fits(alloc, rest, given, *place)
            }
            Pattern::Fields(fields, place) => {
                let first = self.pattern_record(given, *place)?;
                self.labels_there(alloc, fields.as_slice(), first, *place)?;
                self.fields(alloc, fields.as_slice(), first)
            }
            Pattern::Tuple(parts, place) => {
                let first = self.pattern_record(given, *place)?;
                self.items_there(alloc, parts.len(), first, *place)?;
                self.items(alloc, parts.as_slice(), first)
            }
            _ => self.pattern_leaf(alloc, pattern, given),
        }
    }

    #[cycle(pattern)]
    fn arguments(&mut self, alloc: Global, parts: &[Pattern], of: TypeId) -> Result<(), Stopped> {
        'parts: for at in 0..parts.len() {
            let given = self.parameter_at(of, at);
            self.pattern(alloc, &parts[at], given)?;
        }
        Ok(())
    }

    #[cycle(pattern)]
    fn fields(
        &mut self,
        alloc: Global,
        fields: &[PatternField<Pattern>],
        first: u32,
    ) -> Result<(), Stopped> {
        'fields: for field in fields {
            'labels: for label in field.labels.as_slice() {
                let given = self.seen_label(alloc, first, label)?;
                self.pattern(alloc, &field.pattern, given)?;
            }
        }
        Ok(())
    }

    #[cycle(pattern)]
    fn items(&mut self, alloc: Global, parts: &[Pattern], first: u32) -> Result<(), Stopped> {
        'items: for at in 0..parts.len() {
            let given = self.seen_item(alloc, first, at)?;
            self.pattern(alloc, &parts[at], given)?;
        }
        Ok(())
    }
}
