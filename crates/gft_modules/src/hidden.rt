//! The names of copied parameter types that no name reaches.
use crate::declared::Declared;
use crate::headers::{functor_of, header_name, inherited_at, judgement_at, judgements_of};
use crate::known::{Import, origins_of};
use crate::restrictions::Restriction;
use crate::visible::Places;
use gft_core::{NoMemory, Place};
use gft_syntax::{Header, Judgement, Module, Origin};
use indexmap::IndexSet;
use std::alloc::Global;

/// A place as a key.
#[derive(Clone, Copy, Debug, PartialEq, Eq, Hash)]
pub struct Spot {
    file: u32,
    line: u32,
    col: u32,
}

fn spot_of(place: Place) -> Spot {
    Spot {
        file: place.file,
        line: place.line,
        col: place.col,
    }
}

fn is_param(modules: &Vec<Module>, origin: &Origin) -> bool {
    matches!(
        judgement_at(modules, origin.module, origin.judgement),
        Some(Judgement::Param(_, _))
    )
}

/// Where the names of parameter types and constructors stand that are among the origins and that
/// the restriction lets through.
fn spots_through(
    alloc: Global,
    import: Import<'_, '_>,
    origins: &Vec<Origin>,
    restriction: &Restriction<'_>,
) -> Result<IndexSet<Spot>, NoMemory> {
    let mut spots = IndexSet::new(alloc);
    let mut places = Places::new();
    'origins: for origin in origins {
        if is_param(import.modules, origin) && restriction.lets_through(origin.name.as_str()) {
            if let Some(place) = places.find(import.modules, origin) {
                spots.insert(spot_of(place))?;
            }
        }
    }
    Ok(spots)
}

/// Where the names of parameter types and constructors stand that the interface of an instance has,
/// or that the functor of a `with` has and its restriction lets through: a copied type keeps those
/// of its names that are not among them, and no name reaches them.
pub fn visible_spots(
    alloc: Global,
    import: Import<'_, '_>,
    module: &Module,
) -> Result<IndexSet<Spot>, NoMemory> {
    let (name, restriction) = match &module.header {
        Header::Instance(_, interface) => (interface, Restriction::none(alloc)),
        _ => match functor_of(&module.rest) {
            None => return Ok(IndexSet::new(alloc)),
            Some(functor) => (inherited_at(functor), Restriction::new(alloc, functor)?),
        },
    };
    match origins_of(import, name) {
        None => Ok(IndexSet::new(alloc)),
        Some(origins) => spots_through(alloc, import, origins, &restriction),
    }
}

/// Whether a name of the module's judgements is one of a copied parameter type that is not among
/// those visible.
pub fn is_hidden(module: &Module, declared: &Declared, visible: &IndexSet<Spot>) -> bool {
    if declared.place.file == header_name(&module.header).place.file {
        return false;
    }
    match judgements_of(module).get(declared.judgement as usize) {
        None => false,
        Some(judgement) => {
            matches!(judgement.get(), Judgement::Param(_, _))
                && !visible.contains(&spot_of(declared.place))
        }
    }
}
