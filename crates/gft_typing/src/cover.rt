//! Which values the branches of a table leave out.
use crate::state::Typing;
use crate::stopped::Stopped;
use gft_core::{NoMemory, Text};
use gft_forms::Span;
use gft_rules::Rule;
use gft_syntax::{CType, Pattern, Reference};
use gft_types::{STR, TypeId};
use gft_value::{param_text, uncovered, value_at};
use std::alloc::Global;

/// Whether the pattern matches each value by its form alone.
fn matches_all(pattern: &Pattern) -> bool {
    match pattern {
        Pattern::Any(_) => true,
        Pattern::Name(Reference::Written(_), _) => true,
        _ => false,
    }
}

/// The text of a value of a type that has that number.
fn text_at(alloc: Global, of: &CType, number: u64) -> Result<Option<Text>, NoMemory> {
    match value_at(alloc, of, number)? {
        None => Ok(None),
        Some(value) => Ok(Some(param_text(alloc, &value)?)),
    }
}

/// The text of the first value of the type that no pattern matches.
fn left_out(alloc: Global, patterns: &Vec<&Pattern>, of: &CType) -> Result<Option<Text>, NoMemory> {
    match uncovered(alloc, patterns, of)? {
        None => Ok(None),
        Some(value) => Ok(Some(param_text(alloc, &value)?)),
    }
}

impl Typing {
    /// The pattern of a branch.
    fn pattern_at(&self, cases: Span, at: u32) -> Option<&Pattern> {
        let branch = self.forms.branch(cases, at)?;
        self.forms.pattern_ref(branch.pattern)
    }

    /// Whether a branch matches each value by its form alone.
    fn has_default(&self, cases: Span) -> bool {
        for at in 0..cases.count {
            if let Some(pattern) = self.pattern_at(cases, at) {
                if matches_all(pattern) {
                    return true;
                }
            }
        }
        false
    }

    /// The text of the first value that the branches leave out.
    fn first_left_out(
        &self,
        alloc: Global,
        cases: Span,
        of: &CType,
    ) -> Result<Option<Text>, NoMemory> {
        let mut patterns: Vec<&Pattern> = Vec::new(alloc);
        for at in 0..cases.count {
            if let Some(pattern) = self.pattern_at(cases, at) {
                patterns.push(pattern)?;
            }
        }
        left_out(alloc, &patterns, of)
    }

    /// A value is left out, if there is one.
    fn refuse_value(&mut self, e: u32, value: Option<Text>) -> Result<(), Stopped> {
        match value {
            None => Ok(()),
            Some(text) => Err(self.broken_by(Rule::NotExhaustive, e, text)),
        }
    }

    /// The branches of a table leave out no value of a finite type. Where it is selected from
    /// directly, it may be over `Str`.
    pub(crate) fn covered(
        &mut self,
        alloc: Global,
        e: u32,
        over: TypeId,
        is_direct: bool,
    ) -> Result<(), Stopped> {
        if is_direct && over == STR {
            return Ok(());
        }
        self.finite(over, e)?;
        let cases = self.cases_of(e);
        if self.has_default(cases) {
            return Ok(());
        }
        let of = self.types.owned(alloc, over)?;
        let value = self.first_left_out(alloc, cases, &of)?;
        self.refuse_value(e, value)
    }

    /// A table has an item for each value of a finite type.
    pub(crate) fn all_listed(
        &mut self,
        alloc: Global,
        e: u32,
        over: TypeId,
        count: u32,
    ) -> Result<(), Stopped> {
        self.finite(over, e)?;
        if u64::from(count) >= self.types.count_of(over) {
            return Ok(());
        }
        let of = self.types.owned(alloc, over)?;
        let value = text_at(alloc, &of, u64::from(count))?;
        self.refuse_value(e, value)
    }
}
