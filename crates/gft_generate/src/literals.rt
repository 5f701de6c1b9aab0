//! The literals of generated trees: 0, "x", and those that stand in types.
use gft_core::{NoMemory, Token, Tree};
use gft_pmcfg::{AType, Abstract};
use indexmap::{IndexMap, IndexSet};
use std::alloc::Global;

/// Literals, each once.
#[derive(Drop)]
pub struct Literals {
    ints: IndexSet<u128>,
    words: IndexMap<String, Token>,
}

impl Literals {
    /// The literals for an abstract syntax.
    pub fn of(alloc: Global, abs: &Abstract) -> Result<Literals, NoMemory> {
        let mut literals = Literals {
            ints: IndexSet::new(alloc),
            words: IndexMap::new(alloc),
        };
        literals.ints.insert(0)?;
        if let Some(word) = Token::new(alloc, "x")? {
            literals.add_word(alloc, &word)?;
        }
        for cat in abs.cats.as_slice() {
            literals.add_types(alloc, cat.context.as_slice())?;
        }
        for fun in abs.funs.as_slice() {
            literals.add_types(alloc, fun.args.as_slice())?;
            literals.add_terms(alloc, fun.result.args.as_slice())?;
        }
        Ok(literals)
    }

    fn add_word(&mut self, alloc: Global, word: &Token) -> Result<(), NoMemory> {
        let text = String::from_str(alloc, word.as_str())?;
        self.words.insert(text, word.copy(alloc)?)?;
        Ok(())
    }

    fn add_types(&mut self, alloc: Global, types: &[AType]) -> Result<(), NoMemory> {
        for one in types {
            self.add_terms(alloc, one.args.as_slice())?;
        }
        Ok(())
    }

    #[cycle(term)]
    fn add_terms(&mut self, alloc: Global, terms: &[Tree]) -> Result<(), NoMemory> {
        for term in terms {
            self.add_term(alloc, term)?;
        }
        Ok(())
    }

    #[cycle(term)]
    fn add_term(&mut self, alloc: Global, term: &Tree) -> Result<(), NoMemory> {
        match term {
            Tree::App(_, parts) => self.add_terms(alloc, parts.as_slice()),
            Tree::Hole(_) => Ok(()),
            Tree::Int(number) => {
                self.ints.insert(*number)?;
                Ok(())
            }
            Tree::Str(word) => self.add_word(alloc, word),
        }
    }

    /// How many integers there are.
    pub fn int_count(&self) -> u32 {
        u32::try_from(self.ints.len()).unwrap_or(u32::MAX)
    }

    /// How many words there are.
    pub fn word_count(&self) -> u32 {
        u32::try_from(self.words.len()).unwrap_or(u32::MAX)
    }

    /// The integer at a place, from 0. 0 past the end.
    pub fn int(&self, place: u32) -> u128 {
        match self.ints.get_index(place as usize) {
            None => 0, // places are below their number
            Some(number) => *number,
        }
    }

    /// The word at a place, from 0.
    pub fn word(&self, place: u32) -> Option<&Token> {
        match self.words.get_index(place as usize) {
            None => None,
            Some((_, word)) => Some(word),
        }
    }
}
