//! `import`: the grammar of files is held.
use crate::held::{Held, replace};
use crate::joining::held_after;
use crate::line::Line;
use crate::refusing::plain;
use gft_core::{NoMemory, Shared, Text};
use gft_io::Store;
use gft_load::{ImportErr, load_grammar};
use gft_pmcfg::Grammar;
use gft_rules::Rule;
use std::alloc::Global;

/// The line of the grammar: its name, and all its languages by name.
fn grammar_line(alloc: Global, grammar: &Grammar) -> Result<String, NoMemory> {
    let mut line = String::from_str(alloc, "grammar ")?;
    line.push_str(grammar.abs.name.as_str())?;
    line.push_str(" languages")?;
    'languages: for concrete in grammar.concretes.as_slice() {
        line.push(' ')?;
        line.push_str(concrete.name.as_str())?;
    }
    Ok(line)
}

/// What is held after an import of the grammar.
fn held_with(alloc: Global, line: &Line, grammar: Grammar) -> Result<Shared<Held>, NoMemory> {
    let held = held_after(alloc, line.held(), grammar)?;
    Shared::new(alloc, held)
}

/// Holds the grammar, beside the languages of equal abstract syntax.
fn accept(alloc: Global, line: &mut Line, grammar: Grammar) -> Result<(), NoMemory> {
    let held = held_with(alloc, line, grammar)?;
    let text = grammar_line(alloc, &held.get().grammar)?;
    line.reply.add(text.as_str())?;
    replace(&mut line.held, Some(held));
    Ok(())
}

/// Whether a file of this name can be imported: a source or a portable file.
fn is_importable(name: &Text) -> bool {
    name.as_str().ends_with(".gf") || name.as_str().ends_with(".gft")
}

fn are_importable(names: &[Text]) -> bool {
    'names: for name in names {
        if !is_importable(name) {
            return false;
        }
    }
    true
}

/// Holds the grammar of the files, or refuses them.
pub fn import<F: Store>(
    alloc: Global,
    line: &mut Line,
    names: &Vec<Text>,
    store: &mut F,
) -> Result<(), NoMemory> {
    if !are_importable(names.as_slice()) {
        return line
            .reply
            .refuse_line(alloc, &plain(alloc, Rule::BadArgument));
    }
    match load_grammar(alloc, names, store) {
        Ok(grammar) => accept(alloc, line, grammar),
        Err(ImportErr::Refused(refusal, files)) => line.reply.refuse(alloc, &refusal, &files),
        Err(ImportErr::NoMemory) => Err(NoMemory),
    }
}
