//! Patterns out of the patterns built last.
use super::lists::last;
use super::spans::{name, names, place};
use crate::plan::{PatternStep, Span};
use gft_core::{NoMemory, Place};
use gft_syntax::{Pattern, PatternField, Reference, SourceToken, Symbol, TokenForm};
use sqlite_items::Boxed;
use std::alloc::Global;

/// Patterns and fields that are part of no pattern yet, the last on top.
#[derive(Drop)]
pub(crate) struct Patterns {
    alloc: Global,
    patterns: Vec<Pattern>,
    fields: Vec<PatternField<Pattern>>,
}

impl Patterns {
    /// No patterns and no fields.
    pub fn new(alloc: Global) -> Patterns {
        Patterns {
            alloc,
            patterns: Vec::new(alloc),
            fields: Vec::new(alloc),
        }
    }

    /// The last pattern.
    pub fn pop(&mut self) -> Pattern {
        match self.patterns.pop() {
            Some(pattern) => pattern,
            // excluded by the reader, whose steps come after those of their parts
            None => Pattern::Any(Place {
                file: 0,
                line: 1,
                col: 1,
            }),
        }
    }

    fn pop_boxed(&mut self) -> Result<Boxed<Pattern>, NoMemory> {
        let pattern = self.pop();
        Ok(Boxed::new(self.alloc, pattern)?)
    }

    fn push(&mut self, pattern: Pattern) -> Result<(), NoMemory> {
        self.patterns.push(pattern)?;
        Ok(())
    }

    /// A field out of the last pattern.
    pub fn label(
        &mut self,
        alloc: Global,
        tokens: &[SourceToken],
        span: Span,
    ) -> Result<(), NoMemory> {
        let labels = names(alloc, tokens, span)?;
        let pattern = self.pop();
        self.fields.push(PatternField { labels, pattern })?;
        Ok(())
    }
}

/// The pattern that one token is.
fn token_pattern(alloc: Global, token: &SourceToken) -> Result<Pattern, NoMemory> {
    let place = token.place;
    match &token.form {
        TokenForm::Identifier(name) => {
            Ok(Pattern::Name(Reference::Written(name.copy(alloc)?), place))
        }
        TokenForm::Number(value, _) => Ok(Pattern::Num(*value, place)),
        TokenForm::Quoted(text, _) => Ok(Pattern::Text(text.copy(alloc)?, place)),
        TokenForm::Symbol(Symbol::Question) => Ok(Pattern::One(place)),
        TokenForm::Symbol(_) => Ok(Pattern::Any(place)),
        // excluded by the reader
        TokenForm::Reserved(_) => Ok(Pattern::Any(place)),
    }
}

/// A pattern of one token.
fn token(
    alloc: Global,
    tokens: &[SourceToken],
    patterns: &mut Patterns,
    start: u32,
) -> Result<(), NoMemory> {
    match tokens.get(start as usize) {
        Some(token) => patterns.push(token_pattern(alloc, token)?),
        // excluded by the reader
        None => Ok(()),
    }
}

fn either(patterns: &mut Patterns, place: Place) -> Result<(), NoMemory> {
    let right = patterns.pop_boxed()?;
    let left = patterns.pop_boxed()?;
    patterns.push(Pattern::Or(left, right, place))
}

fn sequence(patterns: &mut Patterns, place: Place) -> Result<(), NoMemory> {
    let right = patterns.pop_boxed()?;
    let left = patterns.pop_boxed()?;
    patterns.push(Pattern::Seq(left, right, place))
}

fn repeated(patterns: &mut Patterns, place: Place) -> Result<(), NoMemory> {
    let part = patterns.pop_boxed()?;
    patterns.push(Pattern::Star(part, place))
}

fn constructor(
    alloc: Global,
    tokens: &[SourceToken],
    patterns: &mut Patterns,
    start: u32,
    count: u32,
) -> Result<(), NoMemory> {
    let arguments = last(&mut patterns.patterns, count)?;
    // excluded by the reader, where the token is no name
    let Some(constructor) = name(alloc, tokens, start)? else {
        return Ok(());
    };
    let constructor = Reference::Written(constructor);
    patterns.push(Pattern::Con(None, constructor, arguments, place(tokens, start)))
}

fn qualified(
    alloc: Global,
    tokens: &[SourceToken],
    patterns: &mut Patterns,
    start: u32,
    count: u32,
) -> Result<(), NoMemory> {
    let arguments = last(&mut patterns.patterns, count)?;
    let module = name(alloc, tokens, start)?;
    // excluded by the reader, where the token is no name
    let Some(constructor) = name(alloc, tokens, start.saturating_add(2))? else {
        return Ok(());
    };
    let constructor = Reference::Written(constructor);
    patterns.push(Pattern::Con(module, constructor, arguments, place(tokens, start)))
}

fn named(
    alloc: Global,
    tokens: &[SourceToken],
    patterns: &mut Patterns,
    start: u32,
) -> Result<(), NoMemory> {
    // excluded by the reader, where the token is no name
    let Some(variable) = name(alloc, tokens, start)? else {
        return Ok(());
    };
    let part = patterns.pop_boxed()?;
    patterns.push(Pattern::As(variable, part, place(tokens, start)))
}

fn fields(patterns: &mut Patterns, count: u32, place: Place) -> Result<(), NoMemory> {
    let fields = last(&mut patterns.fields, count)?;
    patterns.push(Pattern::Fields(fields, place))
}

fn tuple(patterns: &mut Patterns, count: u32, place: Place) -> Result<(), NoMemory> {
    let parts = last(&mut patterns.patterns, count)?;
    patterns.push(Pattern::Tuple(parts, place))
}

/// The pattern of the step.
pub(crate) fn pattern_step(
    alloc: Global,
    tokens: &[SourceToken],
    patterns: &mut Patterns,
    step: PatternStep,
    start: u32,
) -> Result<(), NoMemory> {
    let place = place(tokens, start);
    match step {
        PatternStep::Token => token(alloc, tokens, patterns, start),
        PatternStep::Or => either(patterns, place),
        PatternStep::Seq => sequence(patterns, place),
        PatternStep::Constructor(count) => constructor(alloc, tokens, patterns, start, count),
        PatternStep::Qualified(count) => qualified(alloc, tokens, patterns, start, count),
        PatternStep::Star => repeated(patterns, place),
        PatternStep::As => named(alloc, tokens, patterns, start),
        PatternStep::Fields(count) => fields(patterns, count, place),
        PatternStep::Tuple(count) => tuple(patterns, count, place),
    }
}
