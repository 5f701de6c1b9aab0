//! Reading the tables of a concrete syntax. No call takes memory.
use crate::count::{NONE, place, read};
use crate::tables::{Opening, Rule, Symbol, Tables};

impl Tables {
    pub(crate) fn symbol(&self, dot: u32) -> Option<Symbol> {
        self.symbols.get(dot as usize).copied()
    }

    /// The number of arguments of the rule that a symbol belongs to.
    pub(crate) fn arity_at(&self, dot: u32) -> u32 {
        match self.arities.get(dot as usize) {
            Some(&arity) => arity,
            None => 0,
        }
    }

    pub(crate) fn rule(&self, number: u32) -> Option<Rule> {
        self.rules.get(number as usize).copied()
    }

    /// Where a component of the rule begins.
    pub(crate) fn start(&self, rule: Rule, component: u32) -> u32 {
        read(&self.starts, place(rule.components, component))
    }

    /// The slot of a component of a nonterminal or root.
    pub(crate) fn slot(&self, of: u32, component: u32) -> usize {
        place(read(&self.slots, of as usize), component)
    }
}

impl Tables {
    /// The openings of a slot without a first word: from the first up to, and without, the second.
    pub(crate) fn predicted_range(&self, slot: usize) -> (u32, u32) {
        let from = read(&self.predicted_from, slot);
        let to = read(&self.predicted_from, slot.saturating_add(1));
        if to == NONE { (0, 0) } else { (from, to) }
    }

    fn starting_range(&self, slot: usize) -> (u32, u32) {
        let from = read(&self.starting_from, slot);
        let to = read(&self.starting_from, slot.saturating_add(1));
        if to == NONE { (0, 0) } else { (from, to) }
    }

    fn starting_word(&self, at: u32) -> u32 {
        match self.starting.get(at as usize) {
            Some(opening) => opening.word,
            None => NONE,
        }
    }

    /// The first opening of a slot whose word is not less, and the end of the slot's openings.
    pub(crate) fn starting_with(&self, slot: usize, word: u32) -> (u32, u32) {
        let (mut low, mut high) = self.starting_range(slot);
        let end = high;
        'halves: for _ in 0..33 {
            if low >= high {
                break 'halves;
            }
            let middle = low + (high - low) / 2;
            if self.starting_word(middle) < word {
                low = middle + 1;
            } else {
                high = middle;
            }
        }
        (low, end)
    }

    pub(crate) fn starting_words(&self, slot: usize) -> (u32, u32) {
        self.starting_range(slot)
    }

    pub(crate) fn starting_at(&self, at: u32) -> Option<Opening> {
        self.starting.get(at as usize).copied()
    }

    pub(crate) fn predicted_at(&self, at: u32) -> Option<Opening> {
        self.predicted.get(at as usize).copied()
    }

    /// The number of a word, or `NONE`.
    pub(crate) fn number_of(&self, text: &str) -> u32 {
        match self.words.get_index_of(text) {
            Some(number) => match u32::try_from(number) {
                Ok(number) => number,
                Err(_) => NONE,
            },
            None => NONE,
        }
    }

    /// The text of a word.
    pub(crate) fn word(&self, number: u32) -> Option<&str> {
        match self.words.get_index(number as usize) {
            Some(text) => Some(text.as_str()),
            None => None,
        }
    }
}
