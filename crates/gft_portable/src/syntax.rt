//! The abstract part of a file, read.
use crate::fault::ReadErr;
use crate::field::{Reader, Span, bad};
use crate::items::Ascending;
use crate::output::count;
use crate::terms::{Bounds, Node, push, read_terms};
use gft_rules::Rule;
use std::alloc::Global;

/// The most listed categories.
const MOST_CATEGORIES: u32 = 16_384;

/// A type: its category, and where its terms stand among all of them.
#[derive(Clone, Copy)]
pub struct Type {
    pub cat: u32,
    pub from: u32,
    pub to: u32,
}

/// A category or a function: where it begins in the file, its name, and where its types stand among
/// all of them. The last type of a function is that of its result.
#[derive(Clone, Copy)]
pub struct Entry {
    pub at: u32,
    pub name: Span,
    pub from: u32,
    pub to: u32,
}

/// What was read of the abstract part.
#[derive(Drop)]
pub struct Syntax {
    pub name: Span,
    pub start: u32,
    /// The listed categories, from number 2 on.
    pub cats: Vec<Entry>,
    pub funs: Vec<Entry>,
    pub types: Vec<Type>,
    pub nodes: Vec<Node>,
    /// How many categories and functions the file announces.
    pub categories: u32,
    pub functions: u32,
}

impl Syntax {
    fn read_type(
        &mut self,
        alloc: Global,
        reader: &mut Reader,
        variables: u32,
    ) -> Result<(), ReadErr> {
        let cat = reader.below(self.categories.saturating_add(2))?;
        let many = reader.number()?;
        let from = count(self.nodes.len());
        let bounds = Bounds {
            functions: self.functions,
            variables,
        };
        read_terms(alloc, reader, bounds, many, &mut self.nodes)?;
        let to = count(self.nodes.len());
        push(&mut self.types, Type { cat, from, to })
    }

    /// A number of types, each over the arguments before it, and those types.
    fn read_types(&mut self, alloc: Global, reader: &mut Reader) -> Result<u32, ReadErr> {
        let many = reader.number()?;
        for variables in 0..many {
            self.read_type(alloc, reader, variables)?;
        }
        Ok(many)
    }

    /// A category. `Int` and `String` are not listed.
    fn read_category(&mut self, alloc: Global, reader: &mut Reader) -> Result<Span, ReadErr> {
        let (at, from) = (reader.at(), count(self.types.len()));
        let name = reader.name()?;
        if is_literal(reader.part(name)) {
            return Err(bad(Rule::BadText, name.from));
        }
        self.read_types(alloc, reader)?;
        let to = count(self.types.len());
        let entry = Entry { at, name, from, to };
        push(&mut self.cats, entry)?;
        Ok(name)
    }

    fn read_function(&mut self, alloc: Global, reader: &mut Reader) -> Result<Span, ReadErr> {
        let (at, from) = (reader.at(), count(self.types.len()));
        let name = reader.name()?;
        let arguments = self.read_types(alloc, reader)?;
        self.read_type(alloc, reader, arguments)?;
        let to = count(self.types.len());
        let entry = Entry { at, name, from, to };
        push(&mut self.funs, entry)?;
        Ok(name)
    }

    fn read_entries(&mut self, alloc: Global, reader: &mut Reader) -> Result<(), ReadErr> {
        let mut order = Ascending::new();
        for _ in 0..self.categories {
            let at = reader.at();
            let name = self.read_category(alloc, reader)?;
            order.add(reader, at, name)?;
        }
        let mut order = Ascending::new();
        for _ in 0..self.functions {
            let at = reader.at();
            let name = self.read_function(alloc, reader)?;
            order.add(reader, at, name)?;
        }
        Ok(())
    }

    /// The category of a type, by the type's place. 0 where there is no such type.
    pub fn cat_of(&self, place: u32) -> u32 {
        match self.types.get(place as usize) {
            None => 0, // entries have the places of types
            Some(one) => one.cat,
        }
    }

    /// How many functions were read.
    pub fn function_count(&self) -> u32 {
        count(self.funs.len())
    }
}

/// Whether the name is that of a category of literals.
fn is_literal(name: &[u8]) -> bool {
    name == b"Int".as_slice() || name == b"String".as_slice()
}

/// The start category and the number of listed categories. The first is judged once both were read.
fn read_counts(reader: &mut Reader) -> Result<(u32, u32), ReadErr> {
    let start_at = reader.at();
    let start = reader.number()?;
    let categories_at = reader.at();
    let categories = reader.number()?;
    if start >= categories.saturating_add(2) {
        return Err(bad(Rule::BadNumber, start_at));
    }
    if categories > MOST_CATEGORIES {
        return Err(bad(Rule::BadNumber, categories_at));
    }
    Ok((start, categories))
}

/// Reads the abstract part.
pub fn read_syntax(alloc: Global, reader: &mut Reader) -> Result<Syntax, ReadErr> {
    let name = reader.name()?;
    let (start, categories) = read_counts(reader)?;
    let functions = reader.number()?;
    let mut syntax = Syntax {
        name,
        start,
        cats: Vec::new(alloc),
        funs: Vec::new(alloc),
        types: Vec::new(alloc),
        nodes: Vec::new(alloc),
        categories,
        functions,
    };
    syntax.read_entries(alloc, reader)?;
    Ok(syntax)
}
