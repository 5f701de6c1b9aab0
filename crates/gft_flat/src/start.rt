//! The start category.
use crate::kinds::{Kind, kind_of};
use gft_core::{Name, NoMemory};
use gft_modules::judgements_of;
use gft_syntax::{Judgement, Module, Origin, Setting};
use indexmap::IndexSet;
use std::alloc::Global;
use std::cmp::Ordering;

fn categories_of<'a>(
    alloc: Global,
    modules: &Vec<Module>,
    origins: &'a [Origin],
) -> Result<IndexSet<&'a str>, NoMemory> {
    let mut categories = IndexSet::new(alloc);
    'origins: for origin in origins {
        if kind_of(modules, origin) == Kind::Category {
            categories.insert(origin.name.as_str())?;
        }
    }
    Ok(categories)
}

fn is_category(name: &str, categories: &IndexSet<&str>) -> bool {
    name == "Int" || name == "String" || categories.contains(name)
}

/// The category that a flag names as the start.
fn flagged<'a>(judgement: &'a Judgement, categories: &IndexSet<&str>) -> Option<&'a str> {
    match judgement {
        Judgement::Flag(flag, Setting::Name(value)) => {
            let name = value.as_str();
            if flag.name.as_str() == "startcat" && is_category(name, categories) {
                Some(name)
            } else {
                None
            }
        }
        _ => None,
    }
}

/// The last category that a flag of the module itself names as the start.
fn last_flagged<'a>(module: &'a Module, categories: &IndexSet<&str>) -> Option<&'a str> {
    let mut last = None;
    'judgements: for judgement in judgements_of(module) {
        if let Some(name) = flagged(judgement.get(), categories) {
            last = Some(name);
        }
    }
    last
}

/// S, else the first category by name, else Int.
fn default_start<'a>(categories: &IndexSet<&'a str>) -> &'a str {
    if categories.contains("S") {
        return "S";
    }
    let mut least = None;
    'categories: for name in categories.iter() {
        least = Some(lesser(least, *name));
    }
    match least {
        None => "Int",
        Some(name) => name,
    }
}

fn lesser<'a>(least: Option<&'a str>, name: &'a str) -> &'a str {
    match least {
        None => name,
        Some(before) => {
            if name.cmp(before) == Ordering::Less {
                name
            } else {
                before
            }
        }
    }
}

/// The start category of an abstract module, from what it has.
pub fn start_of(
    alloc: Global,
    modules: &Vec<Module>,
    module: &Module,
    origins: &[Origin],
) -> Result<Option<Name>, NoMemory> {
    let categories = categories_of(alloc, modules, origins)?;
    let name = match last_flagged(module, &categories) {
        None => default_start(&categories),
        Some(name) => name,
    };
    Name::new(alloc, name)
}
