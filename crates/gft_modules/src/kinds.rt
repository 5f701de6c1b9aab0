//! Modules and judgements of a kind that is not allowed where they stand.
use crate::first::{First, first_place, refuse};
use crate::headers::{
    functor_of, header_mentions, inherited_at, inherited_of, is_concrete, is_incomplete,
    is_interface, judgements_of, opened_at, opened_of,
};
use crate::numbers::number_of;
use gft_core::Shared;
use gft_rules::{Rule, Stop};
use gft_syntax::{Header, Judgement, Module, PlacedName};
use indexmap::IndexMap;
use std::alloc::Global;

/// Whether a module with the one header may inherit from one with the other.
fn may_inherit(header: &Header, from: &Header) -> bool {
    match header {
        Header::Abstract(_) => matches!(from, Header::Abstract(_)),
        Header::Interface(_) => matches!(from, Header::Interface(_)),
        Header::Resource(_) => is_resource(from),
        Header::Instance(_, _) => is_resource(from),
        Header::Concrete(_, _) => matches!(from, Header::Concrete(_, _)),
        Header::Incomplete(_, _) => is_concrete(from),
    }
}

/// Whether the module is a resource or an instance.
fn is_resource(header: &Header) -> bool {
    match header {
        Header::Resource(_) => true,
        Header::Instance(_, _) => true,
        _ => false,
    }
}

/// Whether a module with the one header may open one with the other.
fn may_open(header: &Header, opened: &Header) -> bool {
    if is_resource(opened) {
        return true;
    }
    is_interface(opened) && (is_interface(header) || is_incomplete(header))
}

/// Whether the module after `of` is of the kind that the header asks for.
fn may_stand_after_of(header: &Header, mentioned: &Header) -> bool {
    match header {
        Header::Instance(_, _) => is_interface(mentioned),
        _ => matches!(mentioned, Header::Abstract(_)),
    }
}

/// Whether a judgement may stand in a module with the header.
fn may_stand(judgement: &Judgement, header: &Header) -> bool {
    match judgement {
        Judgement::Flag(_, _) => true,
        Judgement::Cat(_, _) => matches!(header, Header::Abstract(_)),
        Judgement::ListCat(_, _, _, _) => matches!(header, Header::Abstract(_)),
        Judgement::Fun(_, _) => matches!(header, Header::Abstract(_)),
        Judgement::Lincat(_, _) => is_concrete(header),
        Judgement::Lin(_, _, _) => is_concrete(header),
        Judgement::Lindef(_, _, _) => is_concrete(header),
        Judgement::Linref(_, _, _) => is_concrete(header),
        Judgement::ParamName(_) => is_interface(header),
        Judgement::OperType(_, _) => is_interface(header),
        Judgement::Param(_, _) => !matches!(header, Header::Abstract(_)),
        Judgement::OperTyped(_, _, _) => !matches!(header, Header::Abstract(_)),
        Judgement::Oper(_, _, _) => !matches!(header, Header::Abstract(_)),
    }
}

/// The first of the names of a judgement.
fn head_name(judgement: &Judgement) -> Option<&PlacedName> {
    match judgement {
        Judgement::Flag(name, _) => Some(name),
        Judgement::Cat(name, _) => Some(name),
        // the name ListC stands at the bracket, and is made where it is refused
        Judgement::ListCat(_, _, _, _) => None,
        Judgement::Fun(names, _) => names.as_slice().first(),
        Judgement::Lincat(names, _) => names.as_slice().first(),
        Judgement::Lin(names, _, _) => names.as_slice().first(),
        Judgement::Lindef(names, _, _) => names.as_slice().first(),
        Judgement::Linref(names, _, _) => names.as_slice().first(),
        Judgement::ParamName(name) => Some(name),
        Judgement::Param(name, _) => Some(name),
        Judgement::OperType(names, _) => names.as_slice().first(),
        Judgement::OperTyped(names, _, _) => names.as_slice().first(),
        Judgement::Oper(names, _, _) => names.as_slice().first(),
    }
}

/// The modules of an import with their numbers.
#[derive(Clone, Copy)]
struct Import<'a, 'n> {
    modules: &'a Vec<Module>,
    numbers: &'n IndexMap<&'a str, u32>,
}

/// The header of the module of that name. None is excluded by loading.
fn header_of<'a>(import: Import<'a, '_>, name: &PlacedName) -> Option<&'a Header> {
    match number_of(import.numbers, &name.name) {
        None => None,
        Some(number) => match import.modules.get(number as usize) {
            None => None,
            Some(module) => Some(&module.header),
        },
    }
}

/// The first module that the header names and whose kind is not allowed there.
fn first_in_header<'a>(import: Import<'a, '_>, module: &'a Module) -> Option<First<'a>> {
    let header = &module.header;
    let mut first = None;
    if let Some(name) = header_mentions(header) {
        if let Some(mentioned) = header_of(import, name) {
            if !may_stand_after_of(header, mentioned) {
                first = first_place(first, name.place, name.name.as_str());
            }
        }
    }
    'inherited: for inherited in inherited_of(&module.rest) {
        let name = inherited_at(inherited);
        if let Some(from) = header_of(import, name) {
            if !may_inherit(header, from) {
                first = first_place(first, name.place, name.name.as_str());
            }
        }
    }
    first
}

/// The functor of a `with` that stands under another header than that of a concrete module, where
/// it is an incomplete concrete module.
fn first_functor<'a>(
    import: Import<'a, '_>,
    module: &'a Module,
    first: Option<First<'a>>,
) -> Option<First<'a>> {
    let Some(functor) = functor_of(&module.rest) else {
        return first;
    };
    if is_concrete(&module.header) {
        return first;
    }
    let name = inherited_at(functor);
    match header_of(import, name) {
        None => first,
        Some(header) => {
            if !is_incomplete(header) {
                return first;
            }
            first_place(first, name.place, name.name.as_str())
        }
    }
}

/// The first module that is opened and whose kind is not allowed there.
fn first_opened<'a>(
    import: Import<'a, '_>,
    module: &'a Module,
    before: Option<First<'a>>,
) -> Option<First<'a>> {
    let mut first = before;
    'opened: for opened in opened_of(module) {
        let name = opened_at(opened);
        if let Some(header) = header_of(import, name) {
            if !may_open(&module.header, header) {
                first = first_place(first, name.place, name.name.as_str());
            }
        }
    }
    first
}

/// The first judgement that may not stand in the module. The name of a `cat [C]` is that of C here.
fn first_judgement<'a>(
    header: &Header,
    judgements: &'a [Shared<Judgement>],
) -> Option<&'a Judgement> {
    'judgements: for judgement in judgements {
        if !may_stand(judgement.get(), header) {
            return Some(judgement.get());
        }
    }
    None
}

/// Refuses a judgement of a wrong kind at its first name.
fn refuse_judgement(alloc: Global, judgement: &Judgement) -> Result<(), Stop> {
    if let Judgement::ListCat(name, _, _, place) = judgement {
        let mut list = String::from_str(alloc, "List")?;
        list.push_str(name.name.as_str())?;
        return Err(refuse(alloc, Rule::WrongKind, *place, &[list.as_str()]));
    }
    match head_name(judgement) {
        // excluded by parsing: each judgement has a name
        None => Ok(()),
        Some(name) => { Err(refuse(alloc, Rule::WrongKind, name.place, &[name.name.as_str()])) }
    }
}

/// Refuses the first module of the header, or else the first judgement, of a kind that is not
/// allowed there.
pub fn check_kinds<'a, 'n>(
    alloc: Global,
    modules: &'a Vec<Module>,
    numbers: &'n IndexMap<&'a str, u32>,
    module: &'a Module,
) -> Result<(), Stop> {
    let import = Import { modules, numbers };
    let first = first_in_header(import, module);
    let first = first_functor(import, module, first);
    let first = first_opened(import, module, first);
    if let Some(first) = first {
        return Err(refuse(alloc, Rule::WrongKind, first.place, &[first.name]));
    }
    match first_judgement(&module.header, judgements_of(module)) {
        None => Ok(()),
        Some(judgement) => refuse_judgement(alloc, judgement),
    }
}
