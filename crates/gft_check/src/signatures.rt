//! The categories of the arguments and of the result of each function.
use gft_core::{Name, NoMemory};
use gft_graph::{Graph, NONE};
use gft_syntax::{Flat, FlatJudgement, Judgement, Reference, Term};
use indexmap::IndexMap;
use std::alloc::Global;

/// In place of a category's number: `Int` or `String`.
pub const LITERAL: u32 = NONE - 1;

/// The categories and functions of a grammar, by name: each by its place in its list, from 0. For
/// each function the categories of its arguments in order, then that of its result; `NONE` for
/// what is none.
#[derive(Drop)]
pub struct Signatures<'f> {
    categories: IndexMap<&'f str, u32>,
    functions: IndexMap<&'f str, u32>,
    pub lists: Graph,
}

/// The place of each entry by its name.
fn places<'f>(
    alloc: Global,
    entries: &'f [FlatJudgement],
) -> Result<IndexMap<&'f str, u32>, NoMemory> {
    let mut found: IndexMap<&'f str, u32> = IndexMap::new(alloc);
    let mut place = 0u32;
    'entries: for entry in entries {
        found.insert(entry.whole.name.as_str(), place)?;
        place = place.saturating_add(1);
    }
    Ok(found)
}

/// The name that is referred to, without its module.
fn name_of(reference: &Reference) -> &Name {
    match reference {
        Reference::Written(name) => name,
        Reference::Found(origin) => &origin.name,
        Reference::Whole(whole) => &whole.name,
    }
}

/// The category of a name.
fn category_of(categories: &IndexMap<&str, u32>, name: &str) -> u32 {
    if name == "Int" || name == "String" {
        return LITERAL;
    }
    match categories.get(name) {
        Some(place) => *place,
        None => NONE, // excluded by the typing of the abstract module
    }
}

/// The category at the head of a type.
fn head(categories: &IndexMap<&str, u32>, term: &Term) -> u32 {
    match term {
        Term::App(inner, _, _) => head(categories, inner.get()),
        Term::Var(reference, _) => category_of(categories, name_of(reference).as_str()),
        Term::ListCat(reference, _) => category_of(categories, name_of(reference).as_str()),
        _ => NONE, // excluded by the typing of the abstract module
    }
}

/// Adds a category so many times.
fn add(lists: &mut Graph, category: u32, times: usize) -> Result<(), NoMemory> {
    'times: for _ in 0..times {
        lists.edge(category)?;
    }
    Ok(())
}

/// Adds the categories of a function's type.
fn read(lists: &mut Graph, categories: &IndexMap<&str, u32>, term: &Term) -> Result<(), NoMemory> {
    match term {
        Term::Arrow(binds, domain, codomain, _) => {
            add(lists, head(categories, domain.get()), binds.len().max(1))?;
            read(lists, categories, codomain.get())
        }
        _ => lists.edge(head(categories, term)),
    }
}

/// Adds the categories of a function that makes lists: `Base` takes so many elements, `Cons` an
/// element and a list.
fn read_list(
    alloc: Global,
    lists: &mut Graph,
    categories: &IndexMap<&str, u32>,
    function: &str,
    element: &str,
    size: u128,
) -> Result<(), NoMemory> {
    let mut name = String::from_str(alloc, "List")?;
    name.push_str(element)?;
    let list = category_of(categories, name.as_str());
    let element = category_of(categories, element);
    if function.as_bytes().first().copied() == Some(b'B') {
        add(lists, element, usize::try_from(size.min(16)).unwrap_or(0))?;
    } else {
        lists.edge(element)?;
        lists.edge(list)?;
    }
    lists.edge(list)
}

/// Adds the categories of one function.
fn read_function(
    alloc: Global,
    lists: &mut Graph,
    categories: &IndexMap<&str, u32>,
    entry: &FlatJudgement,
) -> Result<(), NoMemory> {
    match entry.judgement.get() {
        Judgement::Fun(_, term) => read(lists, categories, term),
        Judgement::ListCat(_, element, size, _) => {
            let function = entry.whole.name.as_str();
            let element = name_of(element).as_str();
            read_list(alloc, lists, categories, function, element, *size)
        }
        // excluded by flatten: nothing else is a function
        _ => lists.edge(NONE),
    }
}

impl<'f> Signatures<'f> {
    /// Those of a grammar.
    pub fn new(alloc: Global, flat: &'f Flat) -> Result<Signatures<'f>, NoMemory> {
        let categories = places(alloc, flat.cats.as_slice())?;
        let functions = places(alloc, flat.funs.as_slice())?;
        let mut lists = Graph::new(alloc)?;
        'functions: for entry in flat.funs.as_slice() {
            read_function(alloc, &mut lists, &categories, entry)?;
            lists.end()?;
        }
        Ok(Signatures {
            categories,
            functions,
            lists,
        })
    }

    /// The category of a name.
    pub fn category(&self, name: &Name) -> u32 {
        category_of(&self.categories, name.as_str())
    }

    /// The function of a name, `NONE` where there is none.
    pub fn function(&self, name: &Name) -> u32 {
        match self.functions.get(name.as_str()) {
            Some(place) => *place,
            None => NONE,
        }
    }
}
