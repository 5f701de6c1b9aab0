//! The lines of rules.
use crate::rule::{CfName, CfRule, CfSym, Cfg};
use gft_core::{NoMemory, Text};
use gft_pmcfg::{Abstract, Cat, Grammar, Info};
use std::alloc::Global;

/// What the numbers of rules mean: the categories, the cases of their nonterminals, and the
/// category of the start symbol.
#[derive(Clone, Copy)]
pub struct Meaning<'a> {
    cats: &'a [Cat],
    infos: &'a [Info],
    start: u32,
}

impl<'a> Meaning<'a> {
    /// The meaning of numbers in a language, for a category.
    pub fn new(abs: &'a Abstract, infos: &'a [Info], start: u32) -> Meaning<'a> {
        Meaning {
            cats: abs.cats.as_slice(),
            infos,
            start,
        }
    }

    fn name(&self, cat: usize) -> &'a str {
        match self.cats.get(cat) {
            None => "", // excluded by the ranges of a grammar
            Some(cat) => cat.name.as_str(),
        }
    }

    /// The name of the start symbol.
    fn push_start(&self, line: &mut String) -> Result<(), NoMemory> {
        line.push_str(self.name(self.start as usize))?;
        Ok(())
    }

    /// A component of a nonterminal: the category's name, the case and the component, with dots
    /// between.
    fn push_part(
        &self,
        line: &mut String,
        nonterminal: u32,
        component: u32,
    ) -> Result<(), NoMemory> {
        let after = self.infos.partition_point(|info| info.first <= nonterminal);
        let cat = after.saturating_sub(1);
        let first = match self.infos.get(cat) {
            None => 0, // excluded by the ranges of a grammar
            Some(info) => info.first,
        };
        line.push_str(self.name(cat))?;
        write!(line, ".{}.{}", nonterminal.saturating_sub(first), component)?;
        Ok(())
    }

    fn push_symbol(&self, line: &mut String, symbol: &CfSym) -> Result<(), NoMemory> {
        match symbol {
            CfSym::Word(word) => push_quoted(line, word.as_str()),
            CfSym::Part(nonterminal, component) => self.push_part(line, *nonterminal, *component),
            CfSym::AnyInt => push_text(line, "<Int>"),
            CfSym::AnyString => push_text(line, "<String>"),
        }
    }

    /// Adds the line of a rule, without a newline.
    pub fn push_rule(&self, line: &mut String, rule: &CfRule) -> Result<(), NoMemory> {
        match rule.left {
            CfName::Start => self.push_start(line)?,
            CfName::Part(nonterminal, component) => self.push_part(line, nonterminal, component)?,
        }
        push_text(line, " ->")?;
        for symbol in rule.right.as_slice() {
            push_text(line, " ")?;
            self.push_symbol(line, symbol)?;
        }
        Ok(())
    }
}

fn push_text(line: &mut String, text: &str) -> Result<(), NoMemory> {
    line.push_str(text)?;
    Ok(())
}

/// Adds a word in quotes, with a backslash before a quote and a backslash.
fn push_quoted(line: &mut String, word: &str) -> Result<(), NoMemory> {
    line.push('"')?;
    for c in word.chars() {
        if c == '"' || c == '\\' {
            line.push('\\')?;
        }
        line.push(c)?;
    }
    line.push('"')?;
    Ok(())
}

/// The rules, each on a line that ends in a newline. They are those of a category of a language.
pub fn show_cfg(
    alloc: Global,
    cfg: &Cfg,
    g: &Grammar,
    lang: u32,
    cat: u32,
) -> Result<Text, NoMemory> {
    let infos = match g.concretes.get(lang as usize) {
        None => &[], // the language is in range
        Some(c) => c.infos.as_slice(),
    };
    let meaning = Meaning::new(&g.abs, infos, cat);
    let mut lines = String::new(alloc);
    for rule in cfg.rules.as_slice() {
        meaning.push_rule(&mut lines, rule)?;
        push_text(&mut lines, "\n")?;
    }
    Text::from_str(alloc, lines.as_str())
}
