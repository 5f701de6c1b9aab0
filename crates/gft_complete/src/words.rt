//! Words and literals that may stand next.
use crate::places::Places;
use gft_chart::Await;
use gft_core::{NoMemory, Token};
use std::alloc::Global;

/// What may stand right after the words: words of the grammar in byte order, and whether a literal
/// of `Int` or `String`.
#[derive(Drop)]
pub struct Next {
    pub tokens: Vec<Token>,
    pub any_int: bool,
    pub any_string: bool,
}

/// What was seen to stand next, words in any order and with repeats.
#[derive(Drop)]
pub struct Seen {
    texts: Vec<String>,
    pub any_int: bool,
    pub any_string: bool,
}

impl Seen {
    /// Nothing seen yet.
    pub fn new(alloc: Global) -> Seen {
        Seen {
            texts: Vec::new(alloc),
            any_int: false,
            any_string: false,
        }
    }

    /// One more word.
    pub fn add_word(&mut self, alloc: Global, word: &Token) -> Result<(), NoMemory> {
        self.texts.push(String::from_str(alloc, word.as_str())?)?;
        Ok(())
    }

    /// One more item of what a chart awaits; one that comes again is asked for.
    pub fn add_item(
        &mut self,
        alloc: Global,
        item: &Await,
        places: &mut Places,
    ) -> Result<(), NoMemory> {
        match item {
            Await::Word(word) => self.add_word(alloc, word)?,
            Await::AnyInt => self.any_int = true,
            Await::AnyString => self.any_string = true,
            Await::Again(node, component, place) => places.ask(*node, *component, *place)?,
        }
        Ok(())
    }

    /// The words in byte order, each once.
    pub fn tokens(&mut self, alloc: Global) -> Result<Vec<Token>, NoMemory> {
        self.texts.sort_unstable();
        self.texts.dedup();
        let mut tokens = Vec::new(alloc);
        for text in self.texts.iter() {
            if let Some(token) = Token::new(alloc, text.as_str())? {
                tokens.push(token)?;
            }
        }
        Ok(tokens)
    }
}
