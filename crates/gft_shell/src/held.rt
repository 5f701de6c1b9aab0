//! The grammar that a session holds, with the tables of its languages.
use gft_coerce::coerce;
use gft_core::{NoMemory, Shared};
use gft_lin::Index;
use gft_lister::Tables;
use gft_pmcfg::{Cat, Coerced, Grammar};
use std::alloc::Global;

/// What the commands of a language work over, made once: its shared productions with their index,
/// and the tables of parsing.
#[derive(Drop)]
pub struct Language {
    pub coerced: Coerced,
    pub index: Index,
    pub tables: Tables,
}

/// A grammar, whether none of its categories takes indices, and for each of its languages, by its
/// number, what commands work over.
#[derive(Drop)]
pub struct Held {
    pub grammar: Grammar,
    pub is_plain: bool,
    pub languages: Vec<Shared<Language>>,
}

/// Whether no category takes indices.
fn is_plain(cats: &[Cat]) -> bool {
    'categories: for cat in cats {
        if !cat.context.is_empty() {
            return false;
        }
    }
    true
}

/// A grammar with what is made of its languages.
pub fn held_of(grammar: Grammar, languages: Vec<Shared<Language>>) -> Held {
    let is_plain = is_plain(grammar.abs.cats.as_slice());
    Held {
        grammar,
        is_plain,
        languages,
    }
}

impl Held {
    /// What the commands of a language work over.
    pub fn language(&self, lang: u32) -> Option<&Language> {
        match self.languages.get(lang as usize) {
            Some(language) => Some(language.get()),
            None => None,
        }
    }
}

/// Puts a value in the place of another, which is let go of.
pub fn replace<T: Drop>(place: &mut T, value: T) {
    *place = value;
}

/// Adds what is made of a language of the grammar. Linear in it but for sorting.
pub fn add_language(
    alloc: Global,
    grammar: &Grammar,
    lang: u32,
    languages: &mut Vec<Shared<Language>>,
) -> Result<(), NoMemory> {
    let Some(concrete) = grammar.concretes.get(lang as usize) else {
        return Ok(()); // excluded by the caller: the language is one of the grammar
    };
    let Some(tables) = Tables::new(alloc, grammar, lang)? else {
        return Ok(()); // excluded likewise
    };
    let coerced = coerce(alloc, concrete)?;
    let index = Index::new(alloc, &grammar.abs, &coerced)?;
    let language = Language {
        coerced,
        index,
        tables,
    };
    languages.push(Shared::new(alloc, language)?)?;
    Ok(())
}

/// A grammar that is held by itself.
pub fn held_alone(alloc: Global, grammar: Grammar) -> Result<Held, NoMemory> {
    let mut languages = Vec::new(alloc);
    let mut lang = 0u32;
    'languages: for _ in 0..grammar.concretes.len() {
        add_language(alloc, &grammar, lang, &mut languages)?;
        lang = lang.saturating_add(1);
    }
    Ok(held_of(grammar, languages))
}
