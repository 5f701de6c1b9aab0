//! The parts of headers and bodies.
use gft_core::{NoMemory, Shared};
use gft_syntax::{
    Body, Header, Inherited, Judgement, Module, Opened, PlacedName, Rest, Substitution,
};
use std::alloc::Global;

/// The name of a module.
pub fn header_name(header: &Header) -> &PlacedName {
    match header {
        Header::Abstract(name) => name,
        Header::Resource(name) => name,
        Header::Interface(name) => name,
        Header::Instance(name, _) => name,
        Header::Concrete(name, _) => name,
        Header::Incomplete(name, _) => name,
    }
}

/// The module after `of`: an interface, or an abstract module.
pub fn header_mentions(header: &Header) -> Option<&PlacedName> {
    match header {
        Header::Abstract(_) => None,
        Header::Resource(_) => None,
        Header::Interface(_) => None,
        Header::Instance(_, interface) => Some(interface),
        Header::Concrete(_, abstracted) => Some(abstracted),
        Header::Incomplete(_, abstracted) => Some(abstracted),
    }
}

/// Whether the module is abstract.
pub fn is_abstract(header: &Header) -> bool {
    matches!(header, Header::Abstract(_))
}

/// Whether the module is an interface.
pub fn is_interface(header: &Header) -> bool {
    matches!(header, Header::Interface(_))
}

/// Whether the module is an incomplete concrete one.
pub fn is_incomplete(header: &Header) -> bool {
    matches!(header, Header::Incomplete(_, _))
}

/// Whether the module is a concrete one, complete or not.
pub fn is_concrete(header: &Header) -> bool {
    match header {
        Header::Concrete(_, _) => true,
        Header::Incomplete(_, _) => true,
        _ => false,
    }
}

/// What a module inherits; the functor of a `with` is none of it.
pub fn inherited_of(rest: &Rest) -> &[Inherited] {
    match rest {
        Rest::Own(inherited, _) => inherited.as_slice(),
        Rest::Inherits(inherited) => inherited.as_slice(),
        Rest::With(inherited, _, _, _) => inherited.as_slice(),
    }
}

/// The functor of a `with`.
pub fn functor_of(rest: &Rest) -> Option<&Inherited> {
    match rest {
        Rest::Own(_, _) => None,
        Rest::Inherits(_) => None,
        Rest::With(_, functor, _, _) => Some(functor),
    }
}

/// What a `with` gives for the parameters of its functor.
pub fn substitutions_of(rest: &Rest) -> &[Substitution] {
    match rest {
        Rest::Own(_, _) => &[],
        Rest::Inherits(_) => &[],
        Rest::With(_, _, substitutions, _) => substitutions.as_slice(),
    }
}

/// The body, where there is one.
pub fn body_of(rest: &Rest) -> Option<&Body> {
    match rest {
        Rest::Own(_, body) => Some(body),
        Rest::Inherits(_) => None,
        Rest::With(_, _, _, body) => body.as_ref(),
    }
}

/// The judgements of a module, the copies of an instance or of a `with` among them once they are
/// made.
pub fn judgements_of(module: &Module) -> &[Shared<Judgement>] {
    match body_of(&module.rest) {
        None => &[],
        Some(body) => body.judgements.as_slice(),
    }
}

/// What a module opens.
pub fn opened_of(module: &Module) -> &[Opened] {
    match body_of(&module.rest) {
        None => &[],
        Some(body) => body.opened.as_slice(),
    }
}

/// A module that is inherited, where the header names it.
pub fn inherited_at(inherited: &Inherited) -> &PlacedName {
    match inherited {
        Inherited::Whole(name) => name,
        Inherited::Only(name, _) => name,
        Inherited::Except(name, _) => name,
    }
}

/// A module that is opened, where the header names it.
pub fn opened_at(opened: &Opened) -> &PlacedName {
    match opened {
        Opened::Plain(name) => name,
        Opened::Qualified(_, name) => name,
    }
}

/// The judgement of that number of the module of that number.
pub fn judgement_at(modules: &Vec<Module>, module: u32, judgement: u32) -> Option<&Judgement> {
    match modules.get(module as usize) {
        None => None,
        Some(module) => match judgements_of(module).get(judgement as usize) {
            None => None,
            Some(shared) => Some(shared.get()),
        },
    }
}

/// The modules that a module names, in the order of the text.
pub fn mentions<'a>(alloc: Global, module: &'a Module) -> Result<Vec<&'a PlacedName>, NoMemory> {
    let mut all = Vec::new(alloc);
    if let Some(name) = header_mentions(&module.header) {
        all.push(name)?;
    }
    'inherited: for inherited in inherited_of(&module.rest) {
        all.push(inherited_at(inherited))?;
    }
    if let Some(functor) = functor_of(&module.rest) {
        all.push(inherited_at(functor))?;
    }
    'substitutions: for substitution in substitutions_of(&module.rest) {
        all.push(&substitution.interface)?;
        all.push(&substitution.instance)?;
    }
    'opened: for opened in opened_of(module) {
        all.push(opened_at(opened))?;
    }
    Ok(all)
}
