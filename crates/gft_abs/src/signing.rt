//! The signatures of an abstract module's categories and functions, as far as they can be read.
use crate::judgement::{category_types, function_types};
use crate::names::Names;
use crate::reader::{Reader, Signatures};
use gft_core::{Name, NoMemory};
use gft_pmcfg::{AType, Abstract, Cat, Fun};
use gft_rules::Stop;
use gft_syntax::{Flat, FlatJudgement, Judgement, Term};
use sqlite_items::Items;
use std::alloc::Global;

/// The name that a text is.
fn fixed_name(alloc: Global, text: &str) -> Result<Name, NoMemory> {
    match Name::new(alloc, text)? {
        Some(name) => Ok(name),
        // excluded: the texts that are handed in are identifiers
        None => Err(NoMemory),
    }
}

/// How many arguments the arrows of a function's type have.
fn arrows(term: &Term) -> u32 {
    match term {
        Term::Arrow(binds, _, codomain, _) => {
            let here = u32::try_from(binds.len().max(1)).unwrap_or(u32::MAX);
            here.saturating_add(arrows(codomain.get()))
        }
        _ => 0,
    }
}

/// How many arguments a function has.
fn arity(entry: &FlatJudgement, read: usize) -> u32 {
    match entry.judgement.get() {
        Judgement::Fun(_, term) => arrows(term),
        _ => u32::try_from(read).unwrap_or(u32::MAX),
    }
}

/// Whether an entry is inherited.
pub fn is_inherited(flat: &Flat, entry: &FlatJudgement) -> bool {
    match &flat.name {
        Some(name) => name.as_str() != entry.whole.module.as_str(),
        None => true,
    }
}

/// Whether types could be read.
fn could_read(read: Result<(), Stop>) -> Result<bool, NoMemory> {
    match read {
        Ok(()) => Ok(true),
        Err(Stop::Refused(_)) => Ok(false),
        Err(Stop::NoMemory) => Err(NoMemory),
    }
}

/// Adds a category.
fn add_category<'r, 'a>(
    alloc: Global,
    r: &mut Reader<'r, 'a>,
    s: &mut Signatures,
    entry: &'a FlatJudgement,
) -> Result<(), NoMemory> {
    let read = could_read(category_types(r, entry))?;
    let name = entry.whole.name.copy(alloc)?;
    let mut context = Items::new(alloc);
    if read {
        context = Items::from_vec(r.take_types());
    }
    s.abs.cats.push(Cat { name, context })?;
    s.read_cats.push(read)?;
    s.whole = s.whole && read;
    Ok(())
}

/// Adds a function of this type, the result's at the end.
fn push_function(
    alloc: Global,
    s: &mut Signatures,
    name: Name,
    types: Vec<AType>,
) -> Result<bool, NoMemory> {
    let mut args = types;
    let Some(result) = args.pop() else {
        let nothing = AType {
            cat: 0,
            args: Items::new(alloc),
        };
        s.abs.funs.push(Fun {
            name,
            args: Items::from_vec(args),
            result: nothing,
        })?;
        return Ok(false);
    };
    s.abs.funs.push(Fun {
        name,
        args: Items::from_vec(args),
        result,
    })?;
    Ok(true)
}

/// Adds a function.
fn add_function<'r, 'a>(
    alloc: Global,
    r: &mut Reader<'r, 'a>,
    s: &mut Signatures,
    entry: &'a FlatJudgement,
) -> Result<(), NoMemory> {
    let could = could_read(function_types(r, entry))?;
    let mut types = Vec::new(alloc);
    if could {
        types = r.take_types();
    }
    s.arities.push(arity(entry, types.len().saturating_sub(1)))?;
    let name = entry.whole.name.copy(alloc)?;
    let read = push_function(alloc, s, name, types)?;
    s.read_funs.push(read)?;
    s.whole = s.whole && read;
    Ok(())
}

/// Adds a built-in category.
fn add_built_in(alloc: Global, s: &mut Signatures, name: &str) -> Result<(), NoMemory> {
    let name = fixed_name(alloc, name)?;
    s.abs.cats.push(Cat {
        name,
        context: Items::new(alloc),
    })?;
    s.read_cats.push(true)?;
    Ok(())
}

/// The number of the start category.
fn start_of(flat: &Flat, names: &Names<'_>) -> u32 {
    let Some(name) = &flat.start else {
        return 0;
    };
    if name.as_str() == "String" {
        return 1;
    }
    names.category_named(name.as_str()).unwrap_or(0)
}

/// No signature yet.
fn nothing(alloc: Global, flat: &Flat, names: &Names<'_>) -> Result<Signatures, NoMemory> {
    let name = match &flat.name {
        Some(name) => name.copy(alloc)?,
        // excluded by the caller: a grammar that is checked has an abstract module
        None => fixed_name(alloc, "Abstract")?,
    };
    Ok(Signatures {
        abs: Abstract {
            name,
            start: start_of(flat, names),
            cats: Items::new(alloc),
            funs: Items::new(alloc),
        },
        read_cats: Vec::new(alloc),
        read_funs: Vec::new(alloc),
        arities: Vec::new(alloc),
        whole: true,
        left_out: Vec::new(alloc),
    })
}

/// The signatures of all categories and functions, in the order of their numbers.
pub fn signatures<'r, 'a>(
    alloc: Global,
    flat: &'a Flat,
    names: &'r Names<'a>,
) -> Result<Signatures, NoMemory> {
    let mut s = nothing(alloc, flat, names)?;
    let mut r = Reader::new(alloc, names, None);
    add_built_in(alloc, &mut s, "Int")?;
    add_built_in(alloc, &mut s, "String")?;
    'categories: for entry in names.cats.as_slice() {
        r.begin(is_inherited(flat, entry));
        add_category(alloc, &mut r, &mut s, entry)?;
    }
    'functions: for entry in names.funs.as_slice() {
        r.begin(is_inherited(flat, entry));
        add_function(alloc, &mut r, &mut s, entry)?;
    }
    s.whole = s.whole && !r.lacks;
    s.left_out = r.take_left_out();
    Ok(s)
}
