//! The normal forms of all opers that judgements rest on, and then of the judgements.
use crate::machine::{Machine, Outcome};
use crate::meaning::{Meaning, Shape, parameters};
use crate::order::order;
use crate::scope::EMPTY;
use crate::terms::no_outcome;
use gft_core::{NoMemory, Shared};
use gft_syntax::{CType, LinTerm, Typed};
use std::alloc::Global;

/// How deep calls may nest.
const FUEL: u32 = u32::MAX;

/// What of a term is below its lambdas, and how many parameters these have.
fn below(term: &LinTerm) -> (u32, &LinTerm) {
    let mut count = 0u32;
    let mut inner = term;
    'lambdas: for _ in 0..u32::MAX {
        match inner {
            LinTerm::Lambda(more, body) => {
                count = count.saturating_add(*more);
                inner = body.get();
            }
            _ => break,
        }
    }
    (count, inner)
}

/// The body of a function whose parameters, so many, are all data.
fn body_of(
    alloc: Global,
    machine: &mut Machine,
    count: u32,
    body: &LinTerm,
) -> Result<Shared<LinTerm>, NoMemory> {
    let scope = machine.deepen(count, EMPTY)?;
    let body = machine.data(alloc, body, scope, FUEL)?;
    machine.terms.share(alloc, body)
}

/// What a function means: where its parameters are data and all of them those of lambdas, its body.
fn function(
    alloc: Global,
    machine: &mut Machine,
    term: &LinTerm,
    shape: Shape,
) -> Result<Meaning, NoMemory> {
    if let LinTerm::Oper(other) = term {
        return machine.meaning(*other);
    }
    let (count, body) = below(term);
    if shape.are_data && count == shape.count {
        return Ok(Meaning::Function(count, body_of(alloc, machine, count, body)?));
    }
    Ok(Meaning::Template(Shared::new(alloc, term.copy()?)?))
}

/// What the oper with this term means; those that it names have their meanings.
fn meaning_of(alloc: Global, machine: &mut Machine, typed: &Typed) -> Result<Meaning, NoMemory> {
    machine.begin(alloc);
    let shape = parameters(&typed.ctype);
    if shape.count > 0 {
        return function(alloc, machine, &typed.term, shape);
    }
    let number = machine.data(alloc, &typed.term, EMPTY, FUEL)?;
    Ok(Meaning::Data(machine.terms.share(alloc, number)?))
}

/// The whole judgement applied to one argument for each of the parameters that its type still has.
fn fed(
    alloc: Global,
    machine: &mut Machine,
    outcome: Outcome,
    ctype: &CType,
) -> Result<Outcome, NoMemory> {
    let mut outcome = outcome;
    let mut ctype = ctype;
    for number in 0..u32::MAX {
        match ctype {
            CType::Fun(from, to) => {
                let entry = machine.parameter(number, parameters(from.get()).count)?;
                outcome = match outcome {
                    Outcome::Function(function) => machine.feed(alloc, function, entry, FUEL)?,
                    Outcome::Data(_) => machine.no_outcome(alloc)?,
                };
                ctype = to.get();
            }
            _ => break,
        }
    }
    Ok(outcome)
}

/// The normal form of a judgement; the opers that it names have their meanings.
fn whole(alloc: Global, machine: &mut Machine, typed: &Typed) -> Result<LinTerm, NoMemory> {
    machine.begin(alloc);
    let outcome = machine.run(alloc, &typed.term, EMPTY, FUEL)?;
    let outcome = fed(alloc, machine, outcome, &typed.ctype)?;
    let number = machine.closed(alloc, 0, 0, outcome)?;
    machine.terms.copy(alloc, number)
}

fn nothing_yet(alloc: Global, count: usize) -> Result<Vec<Meaning>, NoMemory> {
    let mut meanings = Vec::new(alloc);
    for _ in 0..count {
        meanings.push(Meaning::Nothing)?;
    }
    Ok(meanings)
}

/// Gives each judgement of the list its meaning, in this order.
fn fill(
    alloc: Global,
    machine: &mut Machine,
    typed: &[Option<Typed>],
    order: &[u32],
) -> Result<(), NoMemory> {
    for number in order {
        if let Some(Some(one)) = typed.get(*number as usize) {
            let meaning = meaning_of(alloc, machine, one)?;
            machine.set_meaning(*number, meaning);
        }
    }
    Ok(())
}

/// Lets go of the meanings, those first that others do not rest on: so no chain of opers is let go
/// of at once.
fn release(machine: &mut Machine, order: &[u32]) {
    for back in 0..order.len() {
        match order.get(order.len() - 1 - back) {
            None => {}
            Some(number) => machine.set_meaning(*number, Meaning::Nothing),
        }
    }
}

/// Adds the normal forms of these judgements.
fn add(
    alloc: Global,
    machine: &mut Machine,
    typed: &[Option<Typed>],
    roots: &[u32],
    terms: &mut Vec<LinTerm>,
) -> Result<(), NoMemory> {
    for root in roots {
        match typed.get(*root as usize) {
            Some(Some(one)) => terms.push(whole(alloc, machine, one)?)?,
            _ => terms.push(no_outcome(alloc)?)?, // the roots are typed
        }
    }
    Ok(())
}

/// Adds the normal forms of these judgements; `order` has all that they rest on.
fn add_all(
    alloc: Global,
    machine: &mut Machine,
    typed: &[Option<Typed>],
    roots: &[u32],
    order: &[u32],
    terms: &mut Vec<LinTerm>,
) -> Result<(), NoMemory> {
    fill(alloc, machine, typed, order)?;
    add(alloc, machine, typed, roots, terms)?;
    release(machine, order);
    Ok(())
}

/// Adds the normal forms by a machine that has no meaning yet.
fn add_by(
    alloc: Global,
    machine: Machine,
    typed: &[Option<Typed>],
    roots: &[u32],
    order: &[u32],
    terms: &mut Vec<LinTerm>,
) -> Result<(), NoMemory> {
    let mut machine = machine;
    add_all(alloc, &mut machine, typed, roots, order, terms)
}

/// The normal forms of these judgements, in their order.
pub fn normal_terms(
    alloc: Global,
    typed: &[Option<Typed>],
    roots: &[u32],
) -> Result<Vec<LinTerm>, NoMemory> {
    let order = order(alloc, typed, roots)?;
    let machine = Machine::new(alloc, nothing_yet(alloc, typed.len())?);
    let mut terms = Vec::new(alloc);
    add_by(alloc, machine, typed, roots, order.as_slice(), &mut terms)?;
    Ok(terms)
}
