//! The chart as its callers see it.
use crate::awaiting::{Awaited, awaited_after};
use crate::count::{NONE, count, place};
use crate::items::Items;
use crate::packing::sentence_forest;
use crate::tables::Tables;
use gft_core::{NoMemory, Shared, Token};
use gft_pmcfg::{Abstract, Concrete, Forest};
use std::alloc::Global;

/// The sentences of a category, read word by word.
#[derive(Drop)]
pub struct Chart<'g> {
    concrete: &'g Concrete,
    tables: Shared<Tables>,
    items: Items,
    alloc: Global,
}

impl<'g> Chart<'g> {
    /// A chart for the category that has read no words. It makes the tables of the concrete syntax.
    pub fn start(
        alloc: Global,
        c: &'g Concrete,
        abs: &'g Abstract,
        cat: u32,
    ) -> Result<Chart<'g>, NoMemory> {
        let tables = Tables::new(alloc, c, abs)?;
        let tables = Shared::new(alloc, tables)?;
        begin(alloc, tables, c, cat)
    }

    /// A chart for the category that has read no words, over tables of this concrete syntax.
    pub fn start_over(
        alloc: Global,
        tables: &Shared<Tables>,
        c: &'g Concrete,
        cat: u32,
    ) -> Result<Chart<'g>, NoMemory> {
        begin(alloc, tables.share()?, c, cat)
    }

    /// Reads one more word; false where no sentence begins so. Then, and after want of memory, the
    /// chart is unchanged.
    pub fn feed(&mut self, word: &Token) -> Result<bool, NoMemory> {
        self.items.feed(self.alloc, self.tables.get(), word)
    }

    /// Whether the words are a sentence of the category. It takes no memory.
    pub fn is_sentence(&self) -> bool {
        self.items.last.root != NONE
    }

    /// The number of words read. It takes no memory.
    pub fn len(&self) -> u32 {
        self.items.last.position
    }

    /// What `feed` would answer. It takes no memory.
    pub fn allows(&self, word: &Token) -> bool {
        self.items.allows(self.tables.get(), word)
    }

    /// The concrete syntax that the chart was started with. It takes no memory.
    pub fn concrete(&self) -> &'g Concrete {
        self.concrete
    }

    /// The allocator that the chart was started with.
    pub fn allocator(&self) -> Global {
        self.alloc
    }

    /// All runs for the words in the category.
    pub fn forest(&self) -> Result<Forest, NoMemory> {
        sentence_forest(self.alloc, self.tables.get(), &self.items)
    }

    /// What stands right after the words.
    pub fn awaited(&self) -> Result<Awaited, NoMemory> {
        awaited_after(self.alloc, self.tables.get(), &self.items)
    }
}

/// The items over no words.
fn first_items(alloc: Global, tables: &Tables, cat: u32) -> Result<Items, NoMemory> {
    let mut items = Items::new(alloc, tables.slot_count)?;
    let root = count(place(tables.nonterminals, cat))?;
    let _group = items.await_group(tables, root, 0)?;
    items.saturate(tables)?;
    Ok(items)
}

fn begin<'g>(
    alloc: Global,
    tables: Shared<Tables>,
    c: &'g Concrete,
    cat: u32,
) -> Result<Chart<'g>, NoMemory> {
    let items = first_items(alloc, tables.get(), cat)?;
    Ok(Chart {
        concrete: c,
        tables,
        items,
        alloc,
    })
}
