//! What stands right after the words that a chart read.
use crate::count::read;
use crate::items::Items;
use crate::packing::Packing;
use crate::tables::{Symbol, Tables};
use gft_core::{NoMemory, Token};
use gft_pmcfg::Forest;
use sqlite_items::Items as List;
use std::alloc::Global;

/// What may stand next.
#[derive(Drop)]
pub enum Await {
    Word(Token),
    AnyInt,
    AnyString,
    /// The item at a place, from 0, of a component of each run that a node of the forest holds:
    /// node, component, place.
    Again(u32, u32, u32),
}

/// All that stands right after the words, each word and each literal once, with the forest of the
/// nodes whose components come again.
#[derive(Drop)]
pub struct Awaited {
    pub items: List<Await>,
    pub forest: Forest,
}

/// What is awaited, but for components that come again.
#[derive(Drop)]
struct Heads {
    /// For each word of the grammar whether it is awaited.
    words: Vec<bool>,
    any_int: bool,
    any_string: bool,
}

impl Heads {
    fn mark_word(&mut self, number: u32) {
        if let Some(awaited) = self.words.get_mut(number as usize) {
            *awaited = true;
        }
    }

    fn mark_symbol(&mut self, symbol: Symbol) {
        match symbol {
            Symbol::Word(number) => self.mark_word(number),
            Symbol::AnyInt => self.any_int = true,
            Symbol::AnyString => self.any_string = true,
            Symbol::Part(_, _) | Symbol::End(_) => {}
        }
    }

    fn mark_items(&mut self, tables: &Tables, items: &Items) {
        for at in items.last.scanning as usize..items.scanning.len() {
            let number = read(&items.scanning, at);
            if let Some(&item) = items.items.get(number as usize) {
                if let Some(symbol) = tables.symbol(item.dot) {
                    self.mark_symbol(symbol);
                }
            }
        }
    }

    fn mark_slot(&mut self, tables: &Tables, slot: usize) {
        let (from, to) = tables.starting_words(slot);
        for at in from..to {
            if let Some(opening) = tables.starting_at(at) {
                self.mark_word(opening.word);
            }
        }
    }

    fn mark_groups(&mut self, tables: &Tables, items: &Items) {
        for at in items.last.group as usize..items.groups.len() {
            if let Some(&group) = items.groups.get(at) {
                if group.of < tables.categories {
                    self.mark_slot(tables, tables.slot(group.of, group.component));
                }
            }
        }
    }

    fn push_words(
        &self,
        alloc: Global,
        tables: &Tables,
        list: &mut List<Await>,
    ) -> Result<(), NoMemory> {
        let mut number = 0u32;
        for awaited in self.words.iter() {
            if *awaited {
                if let Some(word) = word_of(alloc, tables, number)? {
                    list.push(Await::Word(word))?;
                }
            }
            number = number.saturating_add(1);
        }
        Ok(())
    }

    fn push_all(
        &self,
        alloc: Global,
        tables: &Tables,
        list: &mut List<Await>,
    ) -> Result<(), NoMemory> {
        self.push_words(alloc, tables, list)?;
        if self.any_int {
            list.push(Await::AnyInt)?;
        }
        if self.any_string {
            list.push(Await::AnyString)?;
        }
        Ok(())
    }
}

fn word_of(alloc: Global, tables: &Tables, number: u32) -> Result<Option<Token>, NoMemory> {
    match tables.word(number) {
        Some(text) => Token::new(alloc, text),
        None => Ok(None),
    }
}

fn heads_of(alloc: Global, tables: &Tables, items: &Items) -> Result<Heads, NoMemory> {
    let mut heads = Heads {
        words: Vec::new(alloc),
        any_int: false,
        any_string: false,
    };
    heads.words.resize(tables.words.len(), false)?;
    heads.mark_items(tables, items);
    heads.mark_groups(tables, items);
    Ok(heads)
}

/// A place of a component of a node of the chart, as a value among nonterminals and nodes.
#[derive(Clone, Copy, PartialEq, Eq, PartialOrd, Ord)]
struct Repeated {
    value: u32,
    component: u32,
    place: u32,
}

/// What the item reads again.
fn repeated_at(tables: &Tables, items: &Items, at: usize) -> Option<Repeated> {
    let Some(&again) = items.again.get(at) else {
        return None;
    };
    let Some(&item) = items.items.get(again.item as usize) else {
        return None;
    };
    let Some(Symbol::Part(argument, component)) = tables.symbol(item.dot) else {
        return None;
    };
    let value = items.argument(tables, item, argument);
    if value < tables.categories {
        return None;
    }
    let span = items.pin(tables, value - tables.categories, component)?;
    Some(Repeated {
        value,
        component,
        place: again.at.saturating_sub(span.0),
    })
}

/// What is read again after the last word, each place once, in order.
fn all_repeated(alloc: Global, tables: &Tables, items: &Items) -> Result<Vec<Repeated>, NoMemory> {
    let mut all = Vec::new(alloc);
    for at in items.last.again as usize..items.again.len() {
        if let Some(one) = repeated_at(tables, items, at) {
            all.push(one)?;
        }
    }
    all.sort_unstable();
    all.dedup();
    Ok(all)
}

fn values_of(alloc: Global, all: &Vec<Repeated>) -> Result<Vec<u32>, NoMemory> {
    let mut values = Vec::new(alloc);
    for one in all.iter() {
        values.push(one.value)?;
    }
    values.dedup();
    Ok(values)
}

/// The places that come again by nodes of the forest, each once, in order.
fn places(
    alloc: Global,
    tables: &Tables,
    items: &Items,
    packing: &mut Packing,
    all: &Vec<Repeated>,
) -> Result<Vec<Repeated>, NoMemory> {
    let mut places = Vec::new(alloc);
    for one in all.iter() {
        let number = packing.root_number(tables, items, one.value)?;
        places.push(Repeated {
            value: number,
            component: one.component,
            place: one.place,
        })?;
    }
    places.sort_unstable();
    places.dedup();
    Ok(places)
}

fn push_places(list: &mut List<Await>, places: &Vec<Repeated>) -> Result<(), NoMemory> {
    for one in places.iter() {
        list.push(Await::Again(one.value, one.component, one.place))?;
    }
    Ok(())
}

/// The nodes whose components come again, packed, and the places there.
fn push_again(
    alloc: Global,
    tables: &Tables,
    items: &Items,
    list: &mut List<Await>,
) -> Result<Forest, NoMemory> {
    let all = all_repeated(alloc, tables, items)?;
    let values = values_of(alloc, &all)?;
    let mut packing = Packing::new(alloc, items)?;
    let roots = packing.add_roots(tables, items, &values)?;
    let places = places(alloc, tables, items, &mut packing, &all)?;
    push_places(list, &places)?;
    packing.forest(tables, items, roots)
}

/// All that stands right after the words.
pub fn awaited_after(alloc: Global, tables: &Tables, items: &Items) -> Result<Awaited, NoMemory> {
    let mut list = List::new(alloc);
    let heads = heads_of(alloc, tables, items)?;
    heads.push_all(alloc, tables, &mut list)?;
    let forest = push_again(alloc, tables, items, &mut list)?;
    Ok(Awaited {
        items: list,
        forest,
    })
}
