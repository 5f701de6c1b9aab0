//! Where the names of judgements stand.
use crate::headers::judgement_at;
use gft_core::Place;
use gft_syntax::{Judgement, Module, Origin, PlacedName};

/// A name of a judgement by its number: of `cat [C]` there are three, at one place, which none of
/// the names written has.
fn name_at(judgement: &Judgement, at: usize) -> Option<&PlacedName> {
    match judgement {
        Judgement::Flag(_, _) => None,
        Judgement::ListCat(_, _, _, _) => None,
        Judgement::Cat(name, _) => first_only(name, at),
        Judgement::ParamName(name) => first_only(name, at),
        Judgement::Param(name, constructors) => {
            if at == 0 {
                return Some(name);
            }
            match constructors.as_slice().get(at - 1) {
                None => None,
                Some(constructor) => Some(&constructor.name),
            }
        }
        Judgement::Fun(names, _) => names.get(at),
        Judgement::Lincat(names, _) => names.get(at),
        Judgement::Lin(names, _, _) => names.get(at),
        Judgement::Lindef(names, _, _) => names.get(at),
        Judgement::Linref(names, _, _) => names.get(at),
        Judgement::OperType(names, _) => names.get(at),
        Judgement::OperTyped(names, _, _) => names.get(at),
        Judgement::Oper(names, _, _) => names.get(at),
    }
}

fn first_only(name: &PlacedName, at: usize) -> Option<&PlacedName> {
    if at == 0 { Some(name) } else { None }
}

/// How many names a judgement writes.
fn count_of(judgement: &Judgement) -> usize {
    match judgement {
        Judgement::Flag(_, _) => 0,
        Judgement::ListCat(_, _, _, _) => 0,
        Judgement::Cat(_, _) => 1,
        Judgement::ParamName(_) => 1,
        Judgement::Param(_, constructors) => constructors.len().saturating_add(1),
        Judgement::Fun(names, _) => names.len(),
        Judgement::Lincat(names, _) => names.len(),
        Judgement::Lin(names, _, _) => names.len(),
        Judgement::Lindef(names, _, _) => names.len(),
        Judgement::Linref(names, _, _) => names.len(),
        Judgement::OperType(names, _) => names.len(),
        Judgement::OperTyped(names, _, _) => names.len(),
        Judgement::Oper(names, _, _) => names.len(),
    }
}

/// The places of names, looked up one after another. Names of one judgement that come in its own
/// order cost no more than going through it once.
#[derive(Clone, Copy)]
pub struct Places {
    module: u32,
    judgement: u32,
    next: usize,
}

impl Places {
    /// No look-up yet.
    pub fn new() -> Places {
        Places {
            module: 0,
            judgement: 0,
            next: 0,
        }
    }

    /// Where the judgement has the name. None for a name that its judgement has not.
    pub fn find(&mut self, modules: &Vec<Module>, origin: &Origin) -> Option<Place> {
        let judgement = judgement_at(modules, origin.module, origin.judgement)?;
        if let Judgement::ListCat(_, _, _, place) = judgement {
            return Some(*place);
        }
        if origin.module != self.module || origin.judgement != self.judgement {
            self.module = origin.module;
            self.judgement = origin.judgement;
            self.next = 0;
        }
        match self.from(judgement, self.next, origin.name.as_str()) {
            Some(place) => Some(place),
            None => self.from(judgement, 0, origin.name.as_str()),
        }
    }

    fn from(&mut self, judgement: &Judgement, start: usize, name: &str) -> Option<Place> {
        'names: for at in start..count_of(judgement) {
            if let Some(placed) = name_at(judgement, at) {
                if placed.name.as_str() == name {
                    self.next = at.saturating_add(1);
                    return Some(placed.place);
                }
            }
        }
        None
    }
}
