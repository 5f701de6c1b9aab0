//! Copies of what a walk leaves as it is.
use crate::naming::Naming;
use gft_core::{Name, NoMemory, Text};
use gft_syntax::{Bind, PlacedName, Setting};
use sqlite_items::Items;
use std::alloc::Global;

/// The names copied, in order.
pub fn copy_names(alloc: Global, names: &[Name]) -> Result<Items<Name>, NoMemory> {
    let mut all = Items::new(alloc);
    'each: for name in names {
        all.push(name.copy(alloc)?)?;
    }
    Ok(all)
}

/// The name copied, at its place.
pub fn copy_placed(alloc: Global, name: &PlacedName) -> Result<PlacedName, NoMemory> {
    Ok(PlacedName {
        name: name.name.copy(alloc)?,
        place: name.place,
    })
}

/// The names of a judgement that are kept.
pub fn copy_kept<N: Naming>(
    alloc: Global,
    names: &[PlacedName],
    naming: &N,
) -> Result<Items<PlacedName>, NoMemory> {
    let mut all = Items::new(alloc);
    'each: for name in names {
        if naming.keeps(&name.name) {
            all.push(copy_placed(alloc, name)?)?;
        }
    }
    Ok(all)
}

fn copy_bind(alloc: Global, bind: &Bind) -> Result<Bind, NoMemory> {
    match bind {
        Bind::Variable(name, place) => Ok(Bind::Variable(name.copy(alloc)?, *place)),
        Bind::Nothing(place) => Ok(Bind::Nothing(*place)),
    }
}

/// The binders copied, in order.
pub fn copy_binds(alloc: Global, binds: &[Bind]) -> Result<Items<Bind>, NoMemory> {
    let mut all = Items::new(alloc);
    'each: for bind in binds {
        all.push(copy_bind(alloc, bind)?)?;
    }
    Ok(all)
}

/// The text copied.
pub fn copy_text(alloc: Global, text: &Text) -> Result<Text, NoMemory> {
    text.copy(alloc)
}

/// The module's name copied, where there is one.
pub fn copy_module(alloc: Global, name: &Option<Name>) -> Result<Option<Name>, NoMemory> {
    match name {
        None => Ok(None),
        Some(name) => Ok(Some(name.copy(alloc)?)),
    }
}

/// The flag's setting copied.
pub fn copy_setting(alloc: Global, setting: &Setting) -> Result<Setting, NoMemory> {
    match setting {
        Setting::Name(name) => Ok(Setting::Name(name.copy(alloc)?)),
        Setting::Number(number) => Ok(Setting::Number(*number)),
        Setting::Text(text) => Ok(Setting::Text(text.copy(alloc)?)),
    }
}

/// The variables of a lambda, of an arrow or of arguments are bound.
pub fn bind_all<N: Naming>(alloc: Global, binds: &[Bind], naming: &mut N) -> Result<(), NoMemory> {
    'each: for bind in binds {
        if let Bind::Variable(name, _) = bind {
            naming.bind(alloc, name)?;
        }
    }
    Ok(())
}

/// The names of a local are bound.
pub fn bind_names<N: Naming>(
    alloc: Global,
    names: &[Name],
    naming: &mut N,
) -> Result<(), NoMemory> {
    'each: for name in names {
        naming.bind(alloc, name)?;
    }
    Ok(())
}
