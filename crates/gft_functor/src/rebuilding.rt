//! A module with other judgements.
use gft_core::{Name, NoMemory, Place, Shared};
use gft_modules::{functor_of, inherited_of, opened_of, substitutions_of};
use gft_syntax::{
    Body, Header, Inherited, Judgement, Module, Opened, PlacedName, Rest, Substitution,
};
use gft_walk::copy_placed;
use sqlite_items::Items;
use std::alloc::Global;

fn copy_header(alloc: Global, header: &Header) -> Result<Header, NoMemory> {
    match header {
        Header::Abstract(name) => Ok(Header::Abstract(copy_placed(alloc, name)?)),
        Header::Resource(name) => Ok(Header::Resource(copy_placed(alloc, name)?)),
        Header::Interface(name) => Ok(Header::Interface(copy_placed(alloc, name)?)),
        Header::Instance(name, of) => {
            let (name, of) = copy_two(alloc, name, of)?;
            Ok(Header::Instance(name, of))
        }
        Header::Concrete(name, of) => {
            let (name, of) = copy_two(alloc, name, of)?;
            Ok(Header::Concrete(name, of))
        }
        Header::Incomplete(name, of) => {
            let (name, of) = copy_two(alloc, name, of)?;
            Ok(Header::Incomplete(name, of))
        }
    }
}

fn copy_two(
    alloc: Global,
    a: &PlacedName,
    b: &PlacedName,
) -> Result<(PlacedName, PlacedName), NoMemory> {
    let a = copy_placed(alloc, a)?;
    let b = copy_placed(alloc, b)?;
    Ok((a, b))
}

fn copy_all_placed(alloc: Global, names: &[PlacedName]) -> Result<Items<PlacedName>, NoMemory> {
    let mut all = Items::new(alloc);
    'names: for name in names {
        all.push(copy_placed(alloc, name)?)?;
    }
    Ok(all)
}

fn copy_inherited(alloc: Global, inherited: &Inherited) -> Result<Inherited, NoMemory> {
    match inherited {
        Inherited::Whole(name) => Ok(Inherited::Whole(copy_placed(alloc, name)?)),
        Inherited::Only(name, names) => {
            let names = copy_all_placed(alloc, names.as_slice())?;
            Ok(Inherited::Only(copy_placed(alloc, name)?, names))
        }
        Inherited::Except(name, names) => {
            let names = copy_all_placed(alloc, names.as_slice())?;
            Ok(Inherited::Except(copy_placed(alloc, name)?, names))
        }
    }
}

fn copy_all_inherited(alloc: Global, all: &[Inherited]) -> Result<Items<Inherited>, NoMemory> {
    let mut copies = Items::new(alloc);
    'each: for one in all {
        copies.push(copy_inherited(alloc, one)?)?;
    }
    Ok(copies)
}

fn copy_opened(alloc: Global, opened: &Opened) -> Result<Opened, NoMemory> {
    match opened {
        Opened::Plain(name) => Ok(Opened::Plain(copy_placed(alloc, name)?)),
        Opened::Qualified(alias, name) => {
            let (alias, name) = copy_two(alloc, alias, name)?;
            Ok(Opened::Qualified(alias, name))
        }
    }
}

fn copy_all_opened(alloc: Global, all: &[Opened]) -> Result<Items<Opened>, NoMemory> {
    let mut copies = Items::new(alloc);
    'each: for one in all {
        copies.push(copy_opened(alloc, one)?)?;
    }
    Ok(copies)
}

fn copy_substitution(alloc: Global, one: &Substitution) -> Result<Substitution, NoMemory> {
    let (interface, instance) = copy_two(alloc, &one.interface, &one.instance)?;
    Ok(Substitution {
        interface,
        instance,
    })
}

fn copy_substitutions(
    alloc: Global,
    all: &[Substitution],
) -> Result<Items<Substitution>, NoMemory> {
    let mut copies = Items::new(alloc);
    'each: for one in all {
        copies.push(copy_substitution(alloc, one)?)?;
    }
    Ok(copies)
}

/// What follows `=`, but for the body.
#[derive(Drop)]
struct Front {
    inherited: Items<Inherited>,
    functor: Option<Inherited>,
    substitutions: Items<Substitution>,
}

fn copy_functor(alloc: Global, functor: Option<&Inherited>) -> Result<Option<Inherited>, NoMemory> {
    match functor {
        None => Ok(None),
        Some(functor) => Ok(Some(copy_inherited(alloc, functor)?)),
    }
}

fn front_of(alloc: Global, rest: &Rest) -> Result<Front, NoMemory> {
    let inherited = copy_all_inherited(alloc, inherited_of(rest))?;
    let functor = copy_functor(alloc, functor_of(rest))?;
    let substitutions = copy_substitutions(alloc, substitutions_of(rest))?;
    Ok(Front {
        inherited,
        functor,
        substitutions,
    })
}

fn rest_of(front: Front, body: Body) -> Rest {
    let Front {
        inherited,
        functor,
        substitutions,
    } = front;
    match functor {
        None => Rest::Own(inherited, body),
        Some(functor) => Rest::With(inherited, functor, substitutions, Some(body)),
    }
}

fn with_body(
    alloc: Global,
    module: &Module,
    opened: Items<Opened>,
    judgements: Items<Shared<Judgement>>,
) -> Result<Module, NoMemory> {
    let front = front_of(alloc, &module.rest)?;
    let header = copy_header(alloc, &module.header)?;
    let body = Body { opened, judgements };
    let rest = rest_of(front, body);
    Ok(Module { header, rest })
}

/// The module with those judgements in place of its own, in a body. It copies the header.
pub fn with_judgements(
    alloc: Global,
    module: &Module,
    judgements: Items<Shared<Judgement>>,
) -> Result<Module, NoMemory> {
    let opened = copy_all_opened(alloc, opened_of(module))?;
    with_body(alloc, module, opened, judgements)
}

/// A module of which nothing is known: what calls answer for a number that no module has.
pub fn nothing(alloc: Global) -> Result<Module, NoMemory> {
    match Name::new(alloc, "Nothing")? {
        // excluded by Name: letters are an identifier
        None => Err(NoMemory),
        Some(name) => {
            let place = Place {
                file: 0,
                line: 1,
                col: 1,
            };
            Ok(Module {
                header: Header::Resource(PlacedName { name, place }),
                rest: Rest::Inherits(Items::new(alloc)),
            })
        }
    }
}
