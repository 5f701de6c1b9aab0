//! What a name of a judgement is.
use gft_modules::{Space, judgement_at};
use gft_syntax::{Judgement, Module, Origin};

/// What a name is that terms may use: in a list category `ListC` is a category, `BaseC` and `ConsC`
/// are functions. Parameter types and opers are of no kind of their own.
#[derive(Clone, Copy, Debug, PartialEq, Eq)]
pub enum Kind {
    Category,
    Function,
    Constructor,
    Linearization,
    Other,
}

/// Of the three names of a list category the first alone begins with an L.
fn list_kind(name: &str) -> Kind {
    match name.as_bytes().first() {
        Some(b'L') => Kind::Category,
        _ => Kind::Function,
    }
}

fn param_kind(main: &str, name: &str) -> Kind {
    if main == name {
        Kind::Other
    } else {
        Kind::Constructor
    }
}

/// What the judgement declares by the name.
fn kind_in(judgement: &Judgement, name: &str) -> Kind {
    match judgement {
        Judgement::Cat(_, _) => Kind::Category,
        Judgement::ListCat(_, _, _, _) => list_kind(name),
        Judgement::Fun(_, _) => Kind::Function,
        Judgement::Param(main, _) => param_kind(main.name.as_str(), name),
        Judgement::Lincat(_, _) => Kind::Linearization,
        Judgement::Lin(_, _, _) => Kind::Linearization,
        Judgement::Lindef(_, _, _) => Kind::Linearization,
        Judgement::Linref(_, _, _) => Kind::Linearization,
        Judgement::Flag(_, _) => Kind::Other,
        Judgement::ParamName(_) => Kind::Other,
        Judgement::OperType(_, _) => Kind::Other,
        Judgement::OperTyped(_, _, _) => Kind::Other,
        Judgement::Oper(_, _, _) => Kind::Other,
    }
}

/// What the name of an origin is. It takes no memory.
pub fn kind_of(modules: &Vec<Module>, origin: &Origin) -> Kind {
    match judgement_at(modules, origin.module, origin.judgement) {
        None => Kind::Other,
        Some(judgement) => kind_in(judgement, origin.name.as_str()),
    }
}

/// What a linearization of the space is of.
pub fn linearized(space: Space) -> Option<Kind> {
    match space {
        Space::Named => None,
        Space::Lincat => Some(Kind::Category),
        Space::Lin => Some(Kind::Function),
        Space::Lindef => Some(Kind::Category),
        Space::Linref => Some(Kind::Category),
    }
}
