//! The numbers of the judgements of a concrete module that have a normal form.
use gft_core::NoMemory;
use gft_syntax::{Definition, Flat, FlatConcrete, FlatJudgement, Judgement};
use std::alloc::Global;

/// How many numbers an oper has: one, or one for each alternative of an overload.
fn count_of(judgement: &Judgement) -> usize {
    match judgement {
        Judgement::OperTyped(_, _, Definition::Overload(alternatives)) => alternatives.len(),
        Judgement::Oper(_, _, Definition::Overload(alternatives)) => alternatives.len(),
        _ => 1,
    }
}

/// Whether the judgement is a `lin`, a `lindef` or a `linref`.
fn is_linearization(judgement: &Judgement) -> bool {
    matches!(
        judgement,
        Judgement::Lin(_, _, _) | Judgement::Lindef(_, _, _) | Judgement::Linref(_, _, _)
    )
}

fn count_of_opers(opers: &[FlatJudgement]) -> usize {
    let mut count = 0usize;
    for oper in opers {
        count = count.saturating_add(count_of(oper.judgement.get()));
    }
    count
}

/// How many judgements the concretes before this one have.
fn count_before(concretes: &[FlatConcrete], c: u32) -> usize {
    let mut count = 0usize;
    for at in 0..c {
        match concretes.get(at as usize) {
            None => return count,
            Some(concrete) => count = count.saturating_add(concrete.judgements.len()),
        }
    }
    count
}

/// Whether typing gave a term for the judgement of this number.
fn is_typed(flat: &Flat, number: usize) -> bool {
    match flat.typed.as_slice().get(number) {
        Some(Some(_)) => true,
        _ => false,
    }
}

/// Adds the numbers of the typed linearizations among the judgements, of which the first has this
/// one.
fn add(
    flat: &Flat,
    judgements: &[FlatJudgement],
    first: usize,
    numbers: &mut Vec<u32>,
) -> Result<(), NoMemory> {
    let mut number = first;
    for one in judgements {
        if is_linearization(one.judgement.get()) && is_typed(flat, number) {
            match u32::try_from(number) {
                Ok(number) => numbers.push(number)?,
                Err(_) => return Err(NoMemory), // more judgements than a u32 counts
            }
        }
        number = number.saturating_add(1);
    }
    Ok(())
}

/// The numbers of the typed `lin`, `lindef` and `linref` judgements of concrete c, in order.
pub fn numbers_of(alloc: Global, flat: &Flat, c: u32) -> Result<Vec<u32>, NoMemory> {
    let mut numbers = Vec::new(alloc);
    let concretes = flat.concretes.as_slice();
    match concretes.get(c as usize) {
        None => Ok(numbers), // a concrete is in range
        Some(concrete) => {
            let opers = count_of_opers(flat.opers.as_slice());
            let first = flat
                .params
                .len()
                .saturating_add(opers)
                .saturating_add(count_before(concretes, c));
            add(flat, concrete.judgements.as_slice(), first, &mut numbers)?;
            Ok(numbers)
        }
    }
}
