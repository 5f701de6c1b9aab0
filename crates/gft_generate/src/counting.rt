//! How many trees there are, where no type that they pass through takes indices.
use crate::literals::Literals;
use gft_core::NoMemory;
use gft_pmcfg::{AType, Abstract, Cat, Fun};
use std::alloc::Global;

/// The number of trees of a category within a depth. None where it depends on indices.
type Number = Option<u64>;

fn sum(one: Number, other: Number) -> Number {
    match one {
        None => None,
        Some(a) => match other {
            None => None,
            Some(b) => Some(a.saturating_add(b)),
        },
    }
}

fn product(one: Number, other: Number) -> Number {
    match one {
        None => None,
        Some(a) => match other {
            None => None,
            Some(b) => Some(a.saturating_mul(b)),
        },
    }
}

fn at(numbers: &[Number], cat: u32) -> Number {
    match numbers.get(cat as usize) {
        None => None, // categories are in range
        Some(number) => *number,
    }
}

/// The literals of a category of that number; none of a category that takes indices.
fn of_literals(literals: &Literals, place: usize, cat: &Cat) -> Number {
    if !cat.context.is_empty() {
        return None;
    }
    match place {
        0 => Some(u64::from(literals.int_count())),
        1 => Some(u64::from(literals.word_count())),
        _ => Some(0),
    }
}

/// The choices of arguments of these types.
fn choices(before: &[Number], types: &[AType]) -> Number {
    let mut many = Some(1);
    for one in types {
        many = product(many, at(before, one.cat));
    }
    many
}

fn add(numbers: &mut Vec<Number>, before: &[Number], fun: &Fun) {
    let many = choices(before, fun.args.as_slice());
    if let Some(number) = numbers.get_mut(fun.result.cat as usize) {
        *number = sum(*number, many);
    }
}

/// The numbers of trees within a depth, from those within one less.
fn deeper(
    alloc: Global,
    abs: &Abstract,
    literals: &Literals,
    before: &[Number],
) -> Result<Vec<Number>, NoMemory> {
    let mut numbers = Vec::new(alloc);
    for cat in abs.cats.as_slice() {
        let place = numbers.len();
        numbers.push(of_literals(literals, place, cat))?;
    }
    for fun in abs.funs.as_slice() {
        add(&mut numbers, before, fun);
    }
    Ok(numbers)
}

/// No tree of any category; of those that take indices it is not known.
fn none(alloc: Global, abs: &Abstract) -> Result<Vec<Number>, NoMemory> {
    let mut numbers = Vec::new(alloc);
    for cat in abs.cats.as_slice() {
        numbers.push(if cat.context.is_empty() {
            Some(0)
        } else {
            None
        })?;
    }
    Ok(numbers)
}

/// How many trees of the category there are within the depth, a number past 2^64 - 1 being that.
/// None where a type on the way takes indices. The time is that of going through all types once for
/// each level.
pub fn count(
    alloc: Global,
    abs: &Abstract,
    literals: &Literals,
    cat: u32,
    depth: u32,
) -> Result<Option<u64>, NoMemory> {
    let mut numbers = none(alloc, abs)?;
    for _ in 0..depth {
        numbers = deeper(alloc, abs, literals, numbers.as_slice())?;
    }
    Ok(at(numbers.as_slice(), cat))
}
