//! What `parse` lists.
use crate::entry::{Entry, Form, trees_of};
use crate::found::{Found, text_of};
use crate::patterns::{Pattern, Source, pattern_of};
use crate::spelling::{Spelled, Speller};
use gft_abs::{SolveErr, solve};
use gft_chart::Chart;
use gft_core::{NoMemory, Shared, Token, Tree};
use gft_forest::{PackedRuns, packed_within};
use gft_inhabit::can_fill;
use gft_pmcfg::{Concrete, Forest, Grammar};
use std::alloc::Global;

/// What `parse` lists, or its notice: the number of the first word, from 1, after which no sentence
/// goes on; that the words are no sentence yet; that no pattern is listed.
#[derive(Drop)]
pub enum Listing {
    Trees(Vec<Tree>),
    FailedAt(u32),
    NotComplete,
    NoTree,
}

/// What `Listing` says, with the texts of the patterns, which are made for their order.
#[derive(Drop)]
pub enum Entries {
    Patterns(Vec<Entry>),
    FailedAt(u32),
    NotComplete,
    NoTree,
}

/// Tables of a language, made once for many texts. They share their parts, so that a copy takes no
/// memory.
#[derive(Drop)]
pub struct Tables {
    chart: Shared<gft_chart::Tables>,
    filling: Shared<gft_inhabit::Tables>,
}

impl Tables {
    /// The tables of a concrete syntax, in time that is all but linear.
    pub fn new(alloc: Global, g: &Grammar, lang: u32) -> Result<Option<Tables>, NoMemory> {
        let Some(c) = g.concretes.get(lang as usize) else {
            return Ok(None);
        };
        Ok(Some(Tables {
            chart: Shared::new(alloc, gft_chart::Tables::new(alloc, c, &g.abs)?)?,
            filling: Shared::new(alloc, gft_inhabit::Tables::new(alloc, c, &g.abs)?)?,
        }))
    }

    /// The tables of the chart.
    pub fn chart(&self) -> &Shared<gft_chart::Tables> {
        &self.chart
    }
}

/// Reads words, and gives the number of the first that no sentence allows, from 1; 0 where all are
/// allowed.
fn read_all(chart: &mut Chart<'_>, words: &[Token]) -> Result<u32, NoMemory> {
    let mut number = 0u32;
    'words: for word in words {
        number = number.saturating_add(1);
        if !chart.feed(word)? {
            return Ok(number);
        }
    }
    Ok(0)
}

/// The most general typed instance of a pattern, None where it has none.
fn solved(
    alloc: Global,
    g: &Grammar,
    pattern: &Pattern,
    cat: u32,
) -> Result<Option<Tree>, NoMemory> {
    match solve(alloc, &g.abs, &pattern.tree, cat) {
        Ok(solved) => Ok(Some(solved.pattern)),
        Err(SolveErr::NoMemory) => Err(NoMemory),
        Err(_) => Ok(None),
    }
}

/// What a listing is made over.
#[derive(Clone, Copy)]
struct Given<'a> {
    g: &'a Grammar,
    c: &'a Concrete,
    tables: &'a Tables,
    cat: u32,
    depth: u32,
}

/// Whether the holes of a pattern can be filled.
fn is_filled(alloc: Global, given: Given<'_>, pattern: &Pattern) -> Result<bool, NoMemory> {
    if pattern.holes.is_empty() {
        return Ok(true);
    }
    can_fill(
        alloc,
        given.tables.filling.get(),
        &given.g.abs,
        given.c,
        &pattern.tree,
        pattern.holes.as_slice(),
        given.depth,
    )
}

/// Adds a pattern that needs no solving.
fn add_pattern(
    alloc: Global,
    given: Given<'_>,
    found: &mut Found,
    pattern: Pattern,
) -> Result<(), NoMemory> {
    let text = text_of(alloc, &pattern.tree)?;
    if found.has(text.as_str()) {
        return Ok(());
    }
    if is_filled(alloc, given, &pattern)? {
        let Pattern { tree, holes: _ } = pattern;
        found.add(text, Form::Tree(tree))?;
    }
    Ok(())
}

/// Adds the pattern of a run that needs no solving: no category of the grammar takes indices.
fn add_plain(
    alloc: Global,
    given: Given<'_>,
    source: Source<'_>,
    speller: &mut Speller,
    found: &mut Found,
    run: u32,
) -> Result<(), NoMemory> {
    match speller.spelled(alloc, source, run)? {
        Some(Spelled { functions, text }) => found.add(text, Form::Functions(functions)),
        None => add_pattern(alloc, given, found, pattern_of(alloc, source, run)?),
    }
}

/// Adds the pattern of a run, if it has a type and can be filled. One pattern may come of several
/// runs, of which one that can be filled is enough.
fn add_solved(
    alloc: Global,
    given: Given<'_>,
    found: &mut Found,
    pattern: &Pattern,
) -> Result<(), NoMemory> {
    let Some(tree) = solved(alloc, given.g, pattern, given.cat)? else {
        return Ok(());
    };
    let text = text_of(alloc, &tree)?;
    if found.has(text.as_str()) {
        return Ok(());
    }
    if is_filled(alloc, given, pattern)? {
        found.add(text, Form::Tree(tree))?;
    }
    Ok(())
}

/// The patterns of packed runs.
fn patterns(
    alloc: Global,
    given: Given<'_>,
    forest: &Forest,
    packed: &PackedRuns,
) -> Result<Found, NoMemory> {
    let source = Source {
        abs: &given.g.abs,
        concrete: given.c,
        forest,
        packed,
    };
    let mut found = Found::new(alloc);
    let mut speller = Speller::new(alloc);
    'runs: for run in packed.roots.as_slice() {
        if given.tables.filling.get().is_plain() {
            add_plain(alloc, given, source, &mut speller, &mut found, *run)?;
        } else {
            let pattern = pattern_of(alloc, source, *run)?;
            add_solved(alloc, given, &mut found, &pattern)?;
        }
    }
    Ok(found)
}

/// The entries of a sentence.
fn entries_of(alloc: Global, given: Given<'_>, chart: &Chart<'_>) -> Result<Entries, NoMemory> {
    let forest = chart.forest()?;
    let packed = packed_within(alloc, &forest, given.c, given.depth)?;
    let mut found = patterns(alloc, given, &forest, &packed)?;
    let entries = found.take_sorted(alloc)?;
    if entries.is_empty() {
        return Ok(Entries::NoTree);
    }
    Ok(Entries::Patterns(entries))
}

/// What `list_with` lists, with the texts.
pub fn entries_with(
    alloc: Global,
    tables: &Tables,
    g: &Grammar,
    lang: u32,
    cat: u32,
    words: &Vec<Token>,
    depth: u32,
) -> Result<Entries, NoMemory> {
    let Some(c) = g.concretes.get(lang as usize) else {
        // excluded by the caller: the language is in range
        return Ok(Entries::NoTree);
    };
    let mut chart = Chart::start_over(alloc, &tables.chart, c, cat)?;
    let failed = read_all(&mut chart, words.as_slice())?;
    if failed != 0 {
        return Ok(Entries::FailedAt(failed));
    }
    if !chart.is_sentence() {
        return Ok(Entries::NotComplete);
    }
    let given = Given {
        g,
        c,
        tables,
        cat,
        depth,
    };
    entries_of(alloc, given, &chart)
}

/// The listing that entries give.
fn listing_of(alloc: Global, g: &Grammar, entries: Entries) -> Result<Listing, NoMemory> {
    match entries {
        Entries::Patterns(entries) => Ok(Listing::Trees(trees_of(alloc, &g.abs, entries)?)),
        Entries::FailedAt(number) => Ok(Listing::FailedAt(number)),
        Entries::NotComplete => Ok(Listing::NotComplete),
        Entries::NoTree => Ok(Listing::NoTree),
    }
}

/// The patterns of the words within the depth, each once, in byte order of their texts, over tables
/// of the language.
pub fn list_with(
    alloc: Global,
    tables: &Tables,
    g: &Grammar,
    lang: u32,
    cat: u32,
    words: &Vec<Token>,
    depth: u32,
) -> Result<Listing, NoMemory> {
    let entries = entries_with(alloc, tables, g, lang, cat, words, depth)?;
    listing_of(alloc, g, entries)
}

/// The patterns of the words within the depth, each once, in byte order of their texts.
pub fn list(
    alloc: Global,
    g: &Grammar,
    lang: u32,
    cat: u32,
    words: &Vec<Token>,
    depth: u32,
) -> Result<Listing, NoMemory> {
    match Tables::new(alloc, g, lang)? {
        Some(tables) => list_with(alloc, &tables, g, lang, cat, words, depth),
        // excluded by the caller: the language is in range
        None => Ok(Listing::NoTree),
    }
}
