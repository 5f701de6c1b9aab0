//! What a module has: what it inherits in the order of its header, then its copies and its own.
use crate::clashes::{Clash, Standing};
use crate::declared::{Declared, declared_of};
use crate::first::refuse;
use crate::gathering::{Gathering, OWN};
use crate::giving::gather_header;
use crate::headers::{functor_of, header_name, inherited_at, inherited_of};
use crate::hidden::{is_hidden, visible_spots};
use crate::kinds::check_kinds;
use crate::known::Import;
use crate::numbers::numbers_of;
use crate::ordering::order_from;
use crate::restrictions::check_restrictions;
use gft_core::NoMemory;
use gft_rules::{Rule, Stop};
use gft_syntax::{Header, Module, Origin};
use std::alloc::Global;

/// What the judgements of the module itself declare, the copies among them.
fn gather_own<'a>(
    alloc: Global,
    import: Import<'a, '_>,
    module: &'a Module,
    m: u32,
    own: &'a Vec<Declared>,
    gathering: &mut Gathering,
) -> Result<(), NoMemory> {
    let spots = visible_spots(alloc, import, module)?;
    'own: for declared in own {
        if !is_hidden(module, declared, &spots) {
            let key = gathering.key(alloc, declared.space, &declared.name)?;
            let standing = Standing {
                given: OWN,
                module: m,
                judgement: declared.judgement,
            };
            if gathering.declare(key, standing, declared.place)? {
                gathering.add(alloc, &declared.name, m, declared.judgement)?;
            }
        }
    }
    Ok(())
}

/// The name of a module of the header by its number among those that give something.
fn giver(module: &Module, number: u32) -> &str {
    let mut left = number;
    if let Header::Instance(_, interface) = &module.header {
        if left == 0 {
            return interface.name.as_str();
        }
        left -= 1;
    }
    match inherited_of(&module.rest).get(left as usize) {
        Some(inherited) => inherited_at(inherited).name.as_str(),
        None => match functor_of(&module.rest) {
            Some(functor) if number != OWN => inherited_at(functor).name.as_str(),
            _ => header_name(&module.header).name.as_str(),
        },
    }
}

/// What the module has, or the first clash.
fn gather<'a>(
    alloc: Global,
    import: Import<'a, '_>,
    module: &'a Module,
    m: u32,
) -> Result<Vec<Origin>, Stop> {
    let own = declared_of(alloc, module)?;
    let mut gathering = Gathering::new(alloc);
    gather_header(alloc, import, module, &own, &mut gathering)?;
    gather_own(alloc, import, module, m, &own, &mut gathering)?;
    match gathering.clash {
        None => Ok(gathering.into_origins()),
        Some(clash) => Err(refuse_clash(alloc, module, clash, gathering.names.text(clash.name))),
    }
}

/// The refusal of a clash in a name.
fn refuse_clash<'b>(alloc: Global, module: &'b Module, clash: Clash, name: &'b str) -> Stop {
    let earlier = giver(module, clash.earlier);
    let later = giver(module, clash.later);
    let names = [name, earlier, later];
    refuse(alloc, Rule::InheritClash, clash.place, &names)
}

/// What the module of that number has, as `inherit` gives it, from what each module that its header
/// names has, which is in `known` by number. It costs no more than what it reads there.
pub fn inherit_from<'a>(
    alloc: Global,
    modules: &'a Vec<Module>,
    m: u32,
    known: &'a Vec<Vec<Origin>>,
) -> Result<Vec<Origin>, Stop> {
    let Some(module) = modules.get(m as usize) else {
        return Ok(Vec::new(alloc));
    };
    let numbers = numbers_of(alloc, modules)?;
    check_kinds(alloc, modules, &numbers, module)?;
    check_restrictions(alloc, module, &numbers, known)?;
    gather(
        alloc,
        Import {
            modules,
            numbers: &numbers,
            known,
        },
        module,
        m,
    )
}

/// One empty list for each module.
fn nothing_known(alloc: Global, modules: &Vec<Module>) -> Result<Vec<Vec<Origin>>, NoMemory> {
    let mut known = Vec::new(alloc);
    'each: for _module in modules {
        known.push(Vec::new(alloc))?;
    }
    Ok(known)
}

/// What the module of that number has: what it inherits in the order of its header, then what its
/// own judgements declare in source order, or the first refusal by the rules of its header on
/// kinds, restrictions and clashes. Needs each instance and each `with` module that it rests on
/// instantiated. Called for an instance or a `with` module that is not yet, it decides these rules
/// over the header; called again once it is, it gives the copies too. It goes through all that the
/// module rests on: where that is known already call `inherit_from`.
pub fn inherit(alloc: Global, modules: &Vec<Module>, m: u32) -> Result<Vec<Origin>, Stop> {
    let mut known = nothing_known(alloc, modules)?;
    'modules: for number in order_from(alloc, modules, &[m])?.iter() {
        let origins = inherit_from(alloc, modules, *number, &known)?;
        if *number == m {
            return Ok(origins);
        }
        if let Some(slot) = known.get_mut(*number as usize) {
            *slot = origins;
        }
    }
    Ok(Vec::new(alloc))
}
