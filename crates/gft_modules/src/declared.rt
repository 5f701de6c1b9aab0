//! What the judgements of a module declare.
use crate::headers::{header_name, judgements_of};
use gft_core::{Name, NoMemory, Place};
use gft_syntax::{Judgement, Module, PlacedName};
use std::alloc::Global;

/// Judgements clash with those of their own space alone: each keyword of linearizations has one,
/// and all that terms may name is in another.
#[derive(Clone, Copy, Debug, PartialEq, Eq, Hash)]
pub enum Space {
    Named,
    Lincat,
    Lin,
    Lindef,
    Linref,
}

/// A name that a judgement declares: its place, and the number of the judgement in its module.
#[derive(Drop)]
pub struct Declared {
    pub name: Name,
    pub place: Place,
    pub judgement: u32,
    pub space: Space,
}

/// The space of a judgement. A flag declares no name.
pub fn sort_of(judgement: &Judgement) -> Space {
    match judgement {
        Judgement::Lincat(_, _) => Space::Lincat,
        Judgement::Lin(_, _, _) => Space::Lin,
        Judgement::Lindef(_, _, _) => Space::Lindef,
        Judgement::Linref(_, _, _) => Space::Linref,
        _ => Space::Named,
    }
}

/// Whether the judgement leaves the definition to instances.
pub fn is_undefined(judgement: &Judgement) -> bool {
    match judgement {
        Judgement::ParamName(_) => true,
        Judgement::OperType(_, _) => true,
        _ => false,
    }
}

/// The name by which a judgement is kept or replaced: a parameter type with its constructors whole.
pub fn main_name<'a>(judgement: &'a Judgement, name: &'a str) -> &'a str {
    match judgement {
        Judgement::Param(main, _) => main.name.as_str(),
        _ => name,
    }
}

/// Where the first name of a judgement stands.
fn head_place(judgement: &Judgement) -> Option<Place> {
    match judgement {
        Judgement::Cat(name, _) => Some(name.place),
        Judgement::ListCat(_, _, _, place) => Some(*place),
        Judgement::Flag(name, _) => Some(name.place),
        Judgement::ParamName(name) => Some(name.place),
        Judgement::Param(name, _) => Some(name.place),
        Judgement::Fun(names, _) => names_place(names.as_slice()),
        Judgement::Lincat(names, _) => names_place(names.as_slice()),
        Judgement::Lin(names, _, _) => names_place(names.as_slice()),
        Judgement::Lindef(names, _, _) => names_place(names.as_slice()),
        Judgement::Linref(names, _, _) => names_place(names.as_slice()),
        Judgement::OperType(names, _) => names_place(names.as_slice()),
        Judgement::OperTyped(names, _, _) => names_place(names.as_slice()),
        Judgement::Oper(names, _, _) => names_place(names.as_slice()),
    }
}

fn names_place(names: &[PlacedName]) -> Option<Place> {
    match names.first() {
        None => None,
        Some(name) => Some(name.place),
    }
}

/// Whether the judgement is a copy: it stands in the file of another module.
pub fn is_copied(module: &Module, judgement: &Judgement) -> bool {
    match head_place(judgement) {
        None => false,
        Some(place) => place.file != header_name(&module.header).place.file,
    }
}

/// `List`, `Base` or `Cons` with the name of a category.
fn prefixed(alloc: Global, prefix: &str, name: &Name) -> Result<Name, NoMemory> {
    let mut text = String::from_str(alloc, prefix)?;
    text.push_str(name.as_str())?;
    match Name::new(alloc, text.as_str())? {
        Some(name) => Ok(name),
        // excluded by Name: letters before an identifier make an identifier
        None => name.copy(alloc),
    }
}

/// The names that are gathered of one module.
#[derive(Drop)]
struct Gathered {
    all: Vec<Declared>,
}

impl Gathered {
    fn one(
        &mut self,
        alloc: Global,
        name: &PlacedName,
        judgement: u32,
        space: Space,
    ) -> Result<(), NoMemory> {
        let place = name.place;
        let name = name.name.copy(alloc)?;
        self.all.push(Declared {
            name,
            place,
            judgement,
            space,
        })?;
        Ok(())
    }

    fn each(
        &mut self,
        alloc: Global,
        names: &[PlacedName],
        judgement: u32,
        space: Space,
    ) -> Result<(), NoMemory> {
        'names: for name in names {
            self.one(alloc, name, judgement, space)?;
        }
        Ok(())
    }

    fn list(
        &mut self,
        alloc: Global,
        name: &Name,
        place: Place,
        judgement: u32,
    ) -> Result<(), NoMemory> {
        let space = Space::Named;
        let list = prefixed(alloc, "List", name)?;
        self.all.push(Declared {
            name: list,
            place,
            judgement,
            space,
        })?;
        let base = prefixed(alloc, "Base", name)?;
        self.all.push(Declared {
            name: base,
            place,
            judgement,
            space,
        })?;
        let cons = prefixed(alloc, "Cons", name)?;
        self.all.push(Declared {
            name: cons,
            place,
            judgement,
            space,
        })?;
        Ok(())
    }

    fn judgement(&mut self, alloc: Global, text: &Judgement, k: u32) -> Result<(), NoMemory> {
        let space = sort_of(text);
        match text {
            Judgement::Flag(_, _) => Ok(()),
            Judgement::Cat(name, _) => self.one(alloc, name, k, space),
            Judgement::ListCat(name, _, _, place) => self.list(alloc, &name.name, *place, k),
            Judgement::ParamName(name) => self.one(alloc, name, k, space),
            Judgement::Param(name, constructors) => {
                self.one(alloc, name, k, space)?;
                'constructors: for constructor in constructors.as_slice() {
                    self.one(alloc, &constructor.name, k, space)?;
                }
                Ok(())
            }
            Judgement::Fun(names, _) => self.each(alloc, names.as_slice(), k, space),
            Judgement::Lincat(names, _) => self.each(alloc, names.as_slice(), k, space),
            Judgement::Lin(names, _, _) => self.each(alloc, names.as_slice(), k, space),
            Judgement::Lindef(names, _, _) => self.each(alloc, names.as_slice(), k, space),
            Judgement::Linref(names, _, _) => self.each(alloc, names.as_slice(), k, space),
            Judgement::OperType(names, _) => self.each(alloc, names.as_slice(), k, space),
            Judgement::OperTyped(names, _, _) => self.each(alloc, names.as_slice(), k, space),
            Judgement::Oper(names, _, _) => self.each(alloc, names.as_slice(), k, space),
        }
    }
}

/// The names that the judgements of a module declare, in source order: of `cat [C]` ListC, BaseC
/// and ConsC, of a parameter type its name and then its constructors. Flags declare none.
pub fn declared_of(alloc: Global, module: &Module) -> Result<Vec<Declared>, NoMemory> {
    let mut gathered = Gathered {
        all: Vec::new(alloc),
    };
    let mut number = 0u32;
    'judgements: for judgement in judgements_of(module) {
        gathered.judgement(alloc, judgement.get(), number)?;
        number = number.saturating_add(1);
    }
    let Gathered { all } = gathered;
    Ok(all)
}
