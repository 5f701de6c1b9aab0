//! What a session holds after an import: the languages of equal abstract syntax stay.
use crate::held::{Held, Language, add_language, held_alone, held_of};
use gft_core::{NoMemory, Shared};
use gft_load::is_same_abstract;
use gft_pmcfg::{Concrete, Grammar};
use sqlite_items::Items;
use std::alloc::Global;
use std::cmp::Ordering;

/// Languages with the greatest name first, and for each its number among those that were held, if
/// it was.
#[derive(Drop)]
struct Joined {
    concretes: Vec<Concrete>,
    kept: Vec<Option<u32>>,
}

/// How the names of the last languages stand to each other. One that is not there is least.
fn order_of_last(old: &Items<Concrete>, new: &Items<Concrete>) -> Ordering {
    let Some(a) = old.as_slice().last() else {
        return Ordering::Less;
    };
    let Some(b) = new.as_slice().last() else {
        return Ordering::Greater;
    };
    a.name.as_str().cmp(b.name.as_str())
}

impl Joined {
    /// Takes the last of the languages that were held.
    fn keep(&mut self, old: &mut Items<Concrete>) -> Result<(), NoMemory> {
        let Some(concrete) = old.pop() else {
            return Ok(());
        };
        self.concretes.push(concrete)?;
        self.kept.push(u32::try_from(old.len()).ok())?;
        Ok(())
    }

    /// Takes the last of the new languages.
    fn add(&mut self, new: &mut Items<Concrete>) -> Result<(), NoMemory> {
        let Some(concrete) = new.pop() else {
            return Ok(());
        };
        self.concretes.push(concrete)?;
        self.kept.push(None)?;
        Ok(())
    }

    /// Takes the language with the greatest name that is left. Of two with one name the new one
    /// counts.
    fn step(
        &mut self,
        old: &mut Items<Concrete>,
        new: &mut Items<Concrete>,
    ) -> Result<(), NoMemory> {
        match order_of_last(old, new) {
            Ordering::Greater => self.keep(old),
            Ordering::Less => self.add(new),
            Ordering::Equal => {
                let _ = old.pop();
                self.add(new)
            }
        }
    }
}

/// The languages of both lists, each of which is in the order of names.
fn join(alloc: Global, old: Items<Concrete>, new: Items<Concrete>) -> Result<Joined, NoMemory> {
    let mut old = old;
    let mut new = new;
    let mut joined = Joined {
        concretes: Vec::new(alloc),
        kept: Vec::new(alloc),
    };
    'languages: for _ in 0..old.len().saturating_add(new.len()) {
        joined.step(&mut old, &mut new)?;
    }
    joined.concretes.reverse();
    joined.kept.reverse();
    Ok(joined)
}

/// Adds a language of the grammar: that which was held under the number, if it is given one.
fn add_kept(
    alloc: Global,
    before: &Held,
    grammar: &Grammar,
    lang: u32,
    kept: Option<u32>,
    languages: &mut Vec<Shared<Language>>,
) -> Result<(), NoMemory> {
    if let Some(number) = kept {
        if let Some(language) = before.languages.get(number as usize) {
            languages.push(language.share()?)?;
            return Ok(());
        }
    }
    add_language(alloc, grammar, lang, languages)
}

/// What is made of the languages of a joined grammar.
fn languages_of(
    alloc: Global,
    before: &Held,
    grammar: &Grammar,
    kept: &[Option<u32>],
) -> Result<Vec<Shared<Language>>, NoMemory> {
    let mut languages = Vec::new(alloc);
    let mut lang = 0u32;
    'languages: for kept in kept {
        add_kept(alloc, before, grammar, lang, *kept, &mut languages)?;
        lang = lang.saturating_add(1);
    }
    Ok(languages)
}

/// The grammar of both, and which of its languages were held.
fn joined_grammar(
    alloc: Global,
    before: &Held,
    grammar: Grammar,
) -> Result<(Grammar, Vec<Option<u32>>), NoMemory> {
    let Grammar { abs, concretes } = grammar;
    let Grammar {
        abs: _,
        concretes: old,
    } = before.grammar.copy(alloc)?;
    let Joined { concretes, kept } = join(alloc, old, concretes)?;
    match Grammar::checked(alloc, abs, Items::from_vec(concretes))? {
        Some(grammar) => Ok((grammar, kept)),
        None => Err(NoMemory), // excluded by both grammars: their numbers are in range
    }
}

/// The new grammar beside the languages that were held, which it replaces where a name is equal.
fn held_beside(alloc: Global, before: &Held, grammar: Grammar) -> Result<Held, NoMemory> {
    let (grammar, kept) = joined_grammar(alloc, before, grammar)?;
    let languages = languages_of(alloc, before, &grammar, kept.as_slice())?;
    Ok(held_of(grammar, languages))
}

/// What is held after an import of the grammar: with the languages that were held where the
/// abstract syntax is equal, else alone. What was held is as it was.
pub fn held_after(
    alloc: Global,
    before: Option<&Held>,
    grammar: Grammar,
) -> Result<Held, NoMemory> {
    match before {
        None => held_alone(alloc, grammar),
        Some(held) => {
            if is_same_abstract(&held.grammar.abs, &grammar.abs) {
                held_beside(alloc, held, grammar)
            } else {
                held_alone(alloc, grammar)
            }
        }
    }
}
