//! What a module leaves out of what it inherits, though a judgement that it keeps names it.
use crate::names::{Meaning, Names};
use crate::refused::named;
use crate::signing::is_inherited;
use gft_core::{NoMemory, Place};
use gft_rules::{Rule, Stop};
use gft_syntax::{Context, Flat, FlatJudgement, Judgement, PlacedName, Reference, Term, Whole};
use indexmap::IndexSet;
use std::alloc::Global;

/// A name that is left out: that of a category or not, its place, and itself.
type Lack<'a> = (Rule, Place, &'a str);

/// Whether a name is left out, at the head of a type or of an index.
fn lack_at<'a>(
    names: &Names<'_>,
    whole: &'a Whole,
    place: Place,
    is_type: bool,
) -> Option<Lack<'a>> {
    if names.meaning(whole) != Meaning::Other {
        return None;
    }
    if is_type {
        return Some((Rule::UnknownCat, place, whole.name.as_str()));
    }
    Some((Rule::Unknown, place, whole.name.as_str()))
}

/// The first name in a type or an index that is left out, parts before the whole.
fn lack_in<'a>(names: &Names<'_>, term: &'a Term, is_type: bool) -> Option<Lack<'a>> {
    match term {
        Term::Arrow(_, a, b, _) => {
            lack_in(names, a.get(), true).or(lack_in(names, b.get(), true))
        }
        Term::App(a, b, _) => {
            lack_in(names, a.get(), is_type).or(lack_in(names, b.get(), false))
        }
        Term::Var(Reference::Whole(whole), place) => lack_at(names, whole, *place, is_type),
        Term::ListCat(Reference::Whole(whole), place) => lack_at(names, whole, *place, is_type),
        _ => None,
    }
}

fn lack_in_contexts<'a>(names: &Names<'_>, contexts: &'a [Context]) -> Option<Lack<'a>> {
    'contexts: for context in contexts {
        let found = lack_in(names, &context.of_type, true);
        if found.is_some() {
            return found;
        }
    }
    None
}

/// The element of a list that is left out.
fn lack_of_element<'a>(
    names: &Names<'_>,
    element: &'a PlacedName,
    reference: &Reference,
) -> Option<Lack<'a>> {
    match reference {
        Reference::Whole(whole) => {
            if names.meaning(whole) == Meaning::Other {
                return Some((Rule::UnknownCat, element.place, element.name.as_str()));
            }
            None
        }
        _ => None,
    }
}

/// The refusal of the first name that an entry lacks.
fn refused(
    alloc: Global,
    names: &Names<'_>,
    entry: &FlatJudgement,
) -> Result<Option<Stop>, NoMemory> {
    let found = match entry.judgement.get() {
        Judgement::Cat(_, contexts) => lack_in_contexts(names, contexts.as_slice()),
        Judgement::Fun(_, term) => lack_in(names, term, true),
        Judgement::ListCat(element, reference, _, _) => {
            match lack_of_element(names, element, reference) {
                Some(lack) => Some(lack),
                None => return list_refused(alloc, names, entry, element),
            }
        }
        _ => None,
    };
    match found {
        Some((rule, place, name)) => Ok(Some(named(alloc, rule, place, name))),
        None => Ok(None),
    }
}

/// The refusal of a list whose category is left out.
fn list_refused(
    alloc: Global,
    names: &Names<'_>,
    entry: &FlatJudgement,
    element: &PlacedName,
) -> Result<Option<Stop>, NoMemory> {
    let mut name = String::from_str(alloc, "List")?;
    name.push_str(element.name.as_str())?;
    if names.category_named(name.as_str()).is_some() {
        return Ok(None);
    }
    Ok(Some(named(alloc, Rule::UnknownCat, entry.place, name.as_str())))
}

/// A key of an entry: the place of its module among those inherited from, its place in the source,
/// whether it is a function, and its place among the categories or the functions.
type Key = (u32, (u32, u32), bool, u32);

/// The modules of inherited entries, in order of first occurrence.
fn add_modules<'a>(
    modules: &mut IndexSet<&'a str>,
    entries: &'a [FlatJudgement],
) -> Result<(), NoMemory> {
    'entries: for entry in entries {
        modules.insert(entry.whole.module.as_str())?;
    }
    Ok(())
}

fn push_keys(
    keys: &mut Vec<Key>,
    flat: &Flat,
    modules: &IndexSet<&str>,
    entries: &[FlatJudgement],
    is_function: bool,
) -> Result<(), NoMemory> {
    let mut number = 0u32;
    'entries: for entry in entries {
        if is_inherited(flat, entry) {
            let module = modules
                .get_index_of(entry.whole.module.as_str())
                .and_then(|at| u32::try_from(at).ok())
                .unwrap_or(0);
            keys.push((
                module,
                (entry.place.line, entry.place.col),
                is_function,
                number,
            ))?;
        }
        number = number.saturating_add(1);
    }
    Ok(())
}

/// The first name that an inherited judgement lacks: judgements module by module in the order of
/// inheritance, each module's in source order.
pub fn first_lack(alloc: Global, flat: &Flat, names: &Names<'_>) -> Result<Option<Stop>, NoMemory> {
    let mut modules: IndexSet<&str> = IndexSet::new(alloc);
    add_modules(&mut modules, flat.cats.as_slice())?;
    add_modules(&mut modules, flat.funs.as_slice())?;
    let mut keys: Vec<Key> = Vec::new(alloc);
    push_keys(&mut keys, flat, &modules, flat.cats.as_slice(), false)?;
    push_keys(&mut keys, flat, &modules, flat.funs.as_slice(), true)?;
    keys.sort()?;
    'keys: for (_, _, is_function, number) in keys.as_slice() {
        let entry = if *is_function {
            flat.funs.get(*number as usize)
        } else {
            flat.cats.get(*number as usize)
        };
        if let Some(entry) = entry {
            let found = refused(alloc, names, entry)?;
            if found.is_some() {
                return Ok(found);
            }
        }
    }
    Ok(None)
}
