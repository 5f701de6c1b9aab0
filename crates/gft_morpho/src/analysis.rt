//! Words are looked up among the cells of functions without arguments.
use gft_core::{NoMemory, Sym, Token};
use gft_pmcfg::{Concrete, Grammar, Info, Prod};
use indexmap::IndexMap;
use std::alloc::Global;

/// What a word can be: a function without arguments, the case of its value among those of its
/// category, and the string cell of that value, each by number from 0. The order is by function,
/// case and cell.
#[derive(Clone, Copy, Debug, PartialEq, Eq, PartialOrd, Ord)]
pub struct Analysis {
    pub fun: u32,
    pub case: u32,
    pub cell: u32,
}

/// What the words of a text can be.
#[derive(Drop)]
pub struct TextAnalyses {
    /// For each word of the text the number of its list.
    numbers: Vec<u32>,
    lists: Vec<Vec<Analysis>>,
}

/// The words of a text, each once, with the list of what was found for it.
#[derive(Drop)]
struct Search<'a> {
    words: IndexMap<&'a str, u32>,
    found: TextAnalyses,
}

fn count(len: usize) -> u32 {
    u32::try_from(len).unwrap_or(u32::MAX)
}

/// The word that a cell is, if it is one.
fn only_word(seq: &[Sym]) -> Option<&str> {
    match seq {
        [Sym::Tok(token)] => Some(token.as_str()),
        _ => None,
    }
}

/// The number of the case that the nonterminal is of its category.
fn case_of(infos: &[Info], nonterminal: u32) -> u32 {
    let after = infos.partition_point(|info| info.first <= nonterminal);
    match infos.get(after.saturating_sub(1)) {
        None => 0, // excluded by the ranges of a grammar: no category
        Some(info) => nonterminal.saturating_sub(info.first),
    }
}

impl<'a> Search<'a> {
    fn new(alloc: Global) -> Search<'a> {
        Search {
            words: IndexMap::new(alloc),
            found: TextAnalyses {
                numbers: Vec::new(alloc),
                lists: Vec::new(alloc),
            },
        }
    }

    /// One more word of the text.
    fn add_word(&mut self, alloc: Global, word: &'a str) -> Result<(), NoMemory> {
        let next = count(self.found.lists.len());
        let number = match self.words.get(word) {
            None => next,
            Some(number) => *number,
        };
        if number == next {
            self.words.insert(word, next)?;
            self.found.lists.push(Vec::new(alloc))?;
        }
        self.found.numbers.push(number)?;
        Ok(())
    }

    /// The word can be this.
    fn add(&mut self, word: &str, one: Analysis) -> Result<(), NoMemory> {
        let Some(number) = self.words.get(word) else {
            return Ok(());
        };
        if let Some(list) = self.found.lists.get_mut(*number as usize) {
            list.push(one)?;
        }
        Ok(())
    }

    /// The cells of a production without arguments.
    fn add_cells(&mut self, infos: &[Info], prod: &Prod) -> Result<(), NoMemory> {
        let case = case_of(infos, prod.result);
        let mut cell = 0u32;
        for seq in prod.seqs.as_slice() {
            if let Some(word) = only_word(seq.get().as_slice()) {
                let fun = prod.fun;
                self.add(word, Analysis { fun, case, cell })?;
            }
            cell = cell.saturating_add(1);
        }
        Ok(())
    }

    /// What was found, without the words.
    fn into_found(self) -> TextAnalyses {
        let Search { words: _, found } = self;
        found
    }

    fn add_language(&mut self, c: &Concrete) -> Result<(), NoMemory> {
        for prod in c.prods.as_slice() {
            if prod.args.is_empty() {
                self.add_cells(c.infos.as_slice(), prod)?;
            }
        }
        Ok(())
    }
}

impl TextAnalyses {
    /// What the word at a place of the text, from 0, can be, in order.
    pub fn of(&self, place: usize) -> &[Analysis] {
        match self.numbers.get(place) {
            None => &[],
            Some(number) => match self.lists.get(*number as usize) {
                None => &[], // each number is that of a list
                Some(list) => list.as_slice(),
            },
        }
    }
}

/// The analyses in order, each once.
fn each_once(alloc: Global, list: Vec<Analysis>) -> Result<Vec<Analysis>, NoMemory> {
    let mut list = list;
    list.sort_unstable();
    let mut once = Vec::new(alloc);
    let mut last = None;
    for one in list.as_slice() {
        if last != Some(*one) {
            once.push(*one)?;
        }
        last = Some(*one);
    }
    Ok(once)
}

/// What each word of the text can be in a language: one walk over its productions for all words. A
/// language out of range has no words.
pub fn analyses(
    alloc: Global,
    g: &Grammar,
    lang: u32,
    words: &[Token],
) -> Result<TextAnalyses, NoMemory> {
    let mut search = Search::new(alloc);
    for word in words {
        search.add_word(alloc, word.as_str())?;
    }
    if let Some(c) = g.concretes.get(lang as usize) {
        search.add_language(c)?;
    }
    let TextAnalyses { numbers, lists } = search.into_found();
    let mut sorted = Vec::new(alloc);
    for list in lists {
        sorted.push(each_once(alloc, list)?)?;
    }
    Ok(TextAnalyses {
        numbers,
        lists: sorted,
    })
}

/// What the word can be in a language, each once, ascending: one walk over its productions.
pub fn analyse(
    alloc: Global,
    g: &Grammar,
    lang: u32,
    word: &Token,
) -> Result<Vec<Analysis>, NoMemory> {
    let mut found = Vec::new(alloc);
    let Some(c) = g.concretes.get(lang as usize) else {
        return Ok(found);
    };
    let mut search = Search::new(alloc);
    search.add_word(alloc, word.as_str())?;
    search.add_language(c)?;
    let TextAnalyses { numbers: _, lists } = search.into_found();
    for list in lists.as_slice() {
        for one in list.as_slice() {
            found.push(*one)?;
        }
    }
    each_once(alloc, found)
}
