//! The whole way from a resolved grammar to a concrete syntax.
use crate::fault::{Halt, refused};
use crate::judgements::Judgements;
use crate::keeping::Keeping;
use crate::language::Language;
use crate::layout::{Sizes, nonterminals};
use crate::limits::{Layouts, check_cells, check_functions};
use crate::signature::Signature;
use crate::source::Source;
use crate::writing::{Sequences, infos};
use gft_abs::at;
use gft_core::{Name, NoMemory, Shared};
use gft_eval::Machine;
use gft_pmcfg::{Abstract, Concrete};
use gft_rules::Stop;
use gft_syntax::{CType, Flat, LinTerm};
use sqlite_items::Items;
use std::alloc::Global;

/// The type of `Int` and `String`: `{s : Str}`.
fn literal(alloc: Global) -> Result<CType, NoMemory> {
    let Some(label) = Name::new(alloc, "s")? else {
        return Ok(CType::Str); // excluded: the label is a name
    };
    let mut fields = Items::new(alloc);
    fields.push((label, CType::Str))?;
    Ok(CType::Record(Shared::new(alloc, fields)?))
}

/// All that the language has, as numbers.
fn explored(alloc: Global, source: &Source<'_>, sizes: Sizes) -> Result<Language, Halt> {
    let mut language = Language::new(alloc, sizes);
    let mut machine = Machine::new(alloc);
    language.fill(alloc, &mut machine, source)?;
    Ok(language)
}

/// Adds the rows of all functions.
fn keep_rows(
    alloc: Global,
    source: &Source<'_>,
    language: &Language,
    keeping: &mut Keeping,
) -> Result<(), NoMemory> {
    let mut from = 0u32;
    for (fun, end) in source.abs.funs.as_slice().iter().zip(language.ends.iter()) {
        let signature = Signature::of(alloc, source.layouts, fun.args.as_slice())?;
        for row in from..*end {
            if let Some(row) = language.rows.get(row as usize) {
                keeping.add(&signature, *row)?;
            }
        }
        from = *end;
    }
    Ok(())
}

/// Which rows a tree uses.
fn kept(alloc: Global, source: &Source<'_>, language: &Language) -> Result<Keeping, NoMemory> {
    let mut keeping = Keeping::new(alloc, nonterminals(source.layouts))?;
    for def in language.defs.iter() {
        keeping.reach(def.row.result)?;
    }
    keep_rows(alloc, source, language, &mut keeping)?;
    keeping.close(language.rows.as_slice())?;
    Ok(keeping)
}

/// The concrete syntax with the productions that are kept, or with all.
fn written(
    alloc: Global,
    source: &Source<'_>,
    language: &Language,
    name: &Name,
    keeping: Option<&Keeping>,
) -> Result<Concrete, NoMemory> {
    let mut sequences = Sequences::new(alloc, &language.tables)?;
    let prods = language.productions(alloc, source, keeping, &mut sequences)?;
    let defs = language.written_defs(alloc, &mut sequences)?;
    let refs = language.written_refs(alloc, &mut sequences)?;
    Ok(Concrete {
        name: name.copy(alloc)?,
        infos: infos(alloc, source.layouts)?,
        prods,
        defs,
        refs,
    })
}

fn written_or_used(
    alloc: Global,
    source: &Source<'_>,
    language: &Language,
    name: &Name,
    used: bool,
) -> Result<Concrete, NoMemory> {
    if !used {
        return written(alloc, source, language, name, None);
    }
    let keeping = kept(alloc, source, language)?;
    written(alloc, source, language, name, Some(&keeping))
}

/// What is compiled: a concrete module of a grammar, with the normal forms of its judgements.
#[derive(Clone, Copy)]
pub struct Task<'a> {
    pub flat: &'a Flat,
    pub abs: &'a Abstract,
    pub c: u32,
    pub terms: &'a [LinTerm],
    pub name: &'a Name,
}

fn from_layouts(
    alloc: Global,
    task: &Task<'_>,
    judgements: &Judgements,
    layouts: Layouts,
    used: bool,
) -> Result<Concrete, Halt> {
    let Layouts { all, sizes } = layouts;
    let literal = literal(alloc)?;
    let token = CType::Str;
    let source = Source {
        flat: task.flat,
        abs: task.abs,
        c: task.c,
        judgements,
        layouts: all.as_slice(),
        terms: task.terms,
        literal: &literal,
        token: &token,
    };
    let language = explored(alloc, &source, sizes)?;
    Ok(written_or_used(alloc, &source, &language, task.name, used)?)
}

fn checked(alloc: Global, task: &Task<'_>, used: bool) -> Result<Concrete, Halt> {
    let judgements = Judgements::of(alloc, task.flat, task.abs, task.c)?;
    check_cells(task.flat, task.abs, task.c, &judgements)?;
    check_functions(task.abs, &judgements)?;
    let layouts = Layouts::of(alloc, task.flat, task.abs, task.c, &judgements)?;
    from_layouts(alloc, task, &judgements, layouts, used)
}

/// The name of concrete c.
fn name_of<'a>(flat: &'a Flat, abs: &'a Abstract, c: u32) -> &'a Name {
    match flat.concretes.as_slice().get(c as usize) {
        None => &abs.name, // a concrete is in range
        Some(concrete) => &concrete.name,
    }
}

/// The concrete syntax of concrete c, with the productions that a tree uses, or with all.
pub fn compiled(
    alloc: Global,
    flat: &Flat,
    abs: &Abstract,
    c: u32,
    terms: &[LinTerm],
    used: bool,
) -> Result<Concrete, Stop> {
    let name = name_of(flat, abs, c);
    let task = Task {
        flat,
        abs,
        c,
        terms,
        name,
    };
    match checked(alloc, &task, used) {
        Ok(concrete) => Ok(concrete),
        Err(halt) => Err(refused(alloc, name, abs, halt)),
    }
}
