//! Reading one more word.
use crate::count::{NONE, count, read};
use crate::integer::integer;
use crate::items::{Again, Item, Items, Mark};
use crate::tables::{Symbol, Tables};
use gft_core::{NoMemory, Token, same};
use std::alloc::Global;

/// A word that is read: its number in the grammar, or `NONE`, and whether it is a literal of `Int`.
#[derive(Clone, Copy)]
pub struct Sight {
    number: u32,
    is_int: bool,
}

/// What a word is to the grammar.
pub fn sight_of(tables: &Tables, word: &Token) -> Sight {
    let text = word.as_str();
    Sight {
        number: tables.number_of(text),
        is_int: integer(text).is_some(),
    }
}

/// Whether the word may stand where the symbol stands.
fn stands_for(symbol: Symbol, word: Sight) -> bool {
    match symbol {
        Symbol::Word(number) => number == word.number,
        Symbol::AnyInt => word.is_int,
        Symbol::AnyString => true,
        Symbol::Part(_, _) | Symbol::End(_) => false,
    }
}

impl Items {
    /// The item, if it goes on with the word.
    fn reads(&self, tables: &Tables, number: u32, word: Sight) -> Option<Item> {
        let item = *self.items.get(number as usize)?;
        let symbol = tables.symbol(item.dot)?;
        if stands_for(symbol, word) {
            Some(item)
        } else {
            None
        }
    }

    fn scan_items(&mut self, tables: &Tables, word: Sight, mark: Mark) -> Result<(), NoMemory> {
        let from = mark.last.scanning as usize;
        for at in from..mark.scanning {
            let number = read(&self.scanning, at);
            if let Some(item) = self.reads(tables, number, word) {
                self.add_item(item.dot.saturating_add(1), item.group, item.arguments)?;
            }
        }
        Ok(())
    }

    /// The slot of a group of a nonterminal.
    fn group_slot(&self, tables: &Tables, group: u32) -> Option<usize> {
        let group = self.groups.get(group as usize)?;
        if group.of < tables.categories {
            Some(tables.slot(group.of, group.component))
        } else {
            None
        }
    }

    fn scan_group(&mut self, tables: &Tables, word: Sight, group: u32) -> Result<(), NoMemory> {
        let Some(slot) = self.group_slot(tables, group) else {
            return Ok(());
        };
        let (from, to) = tables.starting_with(slot, word.number);
        'openings: for at in from..to {
            match tables.starting_at(at) {
                Some(opening) if opening.word == word.number => {
                    self.add_item(opening.dot, group, opening.arguments)?
                }
                _ => break 'openings,
            }
        }
        Ok(())
    }

    fn scan_groups(&mut self, tables: &Tables, word: Sight, mark: Mark) -> Result<(), NoMemory> {
        if word.number == NONE {
            return Ok(());
        }
        let to = count(mark.groups)?;
        for group in mark.last.group..to {
            self.scan_group(tables, word, group)?;
        }
        Ok(())
    }

    /// Whether the words that come again go on with the word.
    fn repeats(&self, again: Again, word: &Token) -> bool {
        match self.words.get(again.at as usize) {
            Some(before) => same(before, word),
            None => false,
        }
    }

    fn go_on(&mut self, again: Again) -> Result<(), NoMemory> {
        let at = again.at.saturating_add(1);
        if at < again.end {
            self.again.push(Again {
                item: again.item,
                at,
                end: again.end,
            })?;
            return Ok(());
        }
        match self.items.get(again.item as usize) {
            Some(&item) => self.add_item(item.dot.saturating_add(1), item.group, item.arguments),
            None => Ok(()),
        }
    }

    fn scan_again(&mut self, word: &Token, mark: Mark) -> Result<(), NoMemory> {
        let from = mark.last.again as usize;
        for at in from..mark.again {
            if let Some(&again) = self.again.get(at) {
                if self.repeats(again, word) {
                    self.go_on(again)?;
                }
            }
        }
        Ok(())
    }

    fn begin_word(&mut self, alloc: Global, word: &Token, mark: Mark) -> Result<(), NoMemory> {
        self.last.position = count(mark.words.saturating_add(1))?;
        self.last.group = count(mark.groups)?;
        self.last.node = count(mark.nodes)?;
        self.last.scanning = count(mark.scanning)?;
        self.last.again = count(mark.again)?;
        self.last.root = NONE;
        self.words.push(word.copy(alloc)?)?;
        Ok(())
    }

    fn read_word(
        &mut self,
        alloc: Global,
        tables: &Tables,
        word: &Token,
        mark: Mark,
    ) -> Result<bool, NoMemory> {
        let sight = sight_of(tables, word);
        self.begin_word(alloc, word, mark)?;
        self.scan_items(tables, sight, mark)?;
        self.scan_groups(tables, sight, mark)?;
        self.scan_again(word, mark)?;
        if self.items.len() == mark.items && self.again.len() == mark.again {
            return Ok(false);
        }
        self.saturate(tables)?;
        Ok(true)
    }

    /// Reads one more word; false, with nothing changed, where no sentence begins so.
    pub fn feed(&mut self, alloc: Global, tables: &Tables, word: &Token) -> Result<bool, NoMemory> {
        let mark = self.mark();
        let read = self.read_word(alloc, tables, word, mark);
        match read {
            Ok(true) => Ok(true),
            Ok(false) => {
                self.restore(mark);
                Ok(false)
            }
            Err(error) => {
                self.restore(mark);
                Err(error)
            }
        }
    }

    fn allows_scan(&self, tables: &Tables, word: Sight) -> bool {
        for at in self.last.scanning as usize..self.scanning.len() {
            let number = read(&self.scanning, at);
            if self.reads(tables, number, word).is_some() {
                return true;
            }
        }
        false
    }

    fn group_allows(&self, tables: &Tables, word: Sight, group: u32) -> bool {
        let Some(slot) = self.group_slot(tables, group) else {
            return false;
        };
        let (from, to) = tables.starting_with(slot, word.number);
        match tables.starting_at(from) {
            Some(opening) => from < to && opening.word == word.number,
            None => false,
        }
    }

    fn allows_group(&self, tables: &Tables, word: Sight) -> bool {
        if word.number == NONE {
            return false;
        }
        let Ok(to) = count(self.groups.len()) else {
            return false;
        };
        for group in self.last.group..to {
            if self.group_allows(tables, word, group) {
                return true;
            }
        }
        false
    }

    fn allows_again(&self, word: &Token) -> bool {
        for at in self.last.again as usize..self.again.len() {
            if let Some(&again) = self.again.get(at) {
                if self.repeats(again, word) {
                    return true;
                }
            }
        }
        false
    }

    /// Whether some sentence begins with the words and this one. It takes no memory.
    pub fn allows(&self, tables: &Tables, word: &Token) -> bool {
        let sight = sight_of(tables, word);
        self.allows_scan(tables, sight)
            || self.allows_group(tables, sight)
            || self.allows_again(word)
    }
}
