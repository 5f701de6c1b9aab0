//! The labels of the records that are open. In one record no label stands twice.
use crate::halt::Halt;
use crate::plan::Span;
use crate::reader::Reader;
use gft_core::NoMemory;
use gft_syntax::{SourceToken, Symbol, TokenForm};
use indexmap::IndexSet;
use std::alloc::Global;

/// The text of the name that the token is.
fn label_text(tokens: &[SourceToken], at: u32) -> &str {
    match tokens.get(at as usize) {
        None => "",
        Some(token) => match &token.form {
            TokenForm::Identifier(name) => name.as_str(),
            _ => "",
        },
    }
}

/// Whether one of the labels stands twice. A look-up does not walk through them.
fn has_repeat(alloc: Global, tokens: &[SourceToken], labels: &[u32]) -> Result<bool, NoMemory> {
    if labels.len() < 2 {
        return Ok(false);
    }
    let mut seen: IndexSet<String> = IndexSet::new(alloc);
    for label in labels {
        let text = String::from_str(alloc, label_text(tokens, *label))?;
        if !seen.insert(text)? {
            return Ok(true);
        }
    }
    Ok(false)
}

/// A record begins.
pub(crate) fn open_record(reader: &mut Reader<'_>) -> Result<(), Halt> {
    let before = u32::try_from(reader.labels.len()).unwrap_or(u32::MAX);
    reader.records.push(before)?;
    Ok(())
}

/// The innermost record ends; whether one of its labels stands twice.
fn pop_record(reader: &mut Reader<'_>) -> Result<bool, NoMemory> {
    let Some(before) = reader.records.pop() else {
        return Ok(false);
    };
    let before = (before as usize).min(reader.labels.len());
    let repeat = has_repeat(reader.alloc, reader.tokens, &reader.labels[before..])?;
    reader.labels.truncate(before);
    Ok(repeat)
}

/// The innermost record ends.
pub(crate) fn close_record(reader: &mut Reader<'_>) -> Result<(), Halt> {
    if pop_record(reader)? {
        Err(Halt::Underivable)
    } else {
        Ok(())
    }
}

/// Whether a label stands twice in one of the records that are open.
pub(crate) fn repeats_open(reader: &mut Reader<'_>) -> Result<bool, NoMemory> {
    for _ in 0..reader.records.len() {
        if pop_record(reader)? {
            return Ok(true);
        }
    }
    Ok(false)
}

/// The labels I, of the innermost record.
pub(crate) fn labels(reader: &mut Reader<'_>) -> Result<Span, Halt> {
    let first = reader.name()?;
    reader.labels.push(first)?;
    for _ in 0..u64::MAX {
        if !reader.accept(Symbol::Comma) {
            break;
        }
        let label = reader.name()?;
        reader.labels.push(label)?;
    }
    Ok(reader.since(first))
}
