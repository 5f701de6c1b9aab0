//! The values of a finite type, each by its number in their order.
use crate::count::{count_of, fields_product, product_of};
use crate::same::{copy_whole, same_name, same_whole};
use gft_core::{Name, NoMemory};
use gft_syntax::{CType, Param, Whole};
use sqlite_items::Items;
use std::alloc::Global;

/// The part of a number that counts in so many, and what is left for the parts after it.
pub fn split(number: u64, count: u64) -> (u64, u64) {
    if count == 0 {
        return (0, 0);
    }
    (number / count, number % count)
}

/// The value of that number, None past the last.
#[cycle(value_at)]
pub fn value_at(alloc: Global, of: &CType, number: u64) -> Result<Option<Param>, NoMemory> {
    match of {
        CType::Param(_, constructors) => {
            constructed_at(alloc, constructors.get().as_slice(), number)
        }
        CType::Ints(last) => {
            if u128::from(number) > *last {
                return Ok(None);
            }
            Ok(Some(Param::Ints(u128::from(number))))
        }
        CType::Record(fields) => record_at(alloc, fields.get().as_slice(), number),
        _ => Ok(None),
    }
}

/// The value of that number by the first constructor that has so many, the values before it taken
/// off.
#[cycle(value_at)]
fn constructed_at(
    alloc: Global,
    constructors: &[(Whole, Items<CType>)],
    number: u64,
) -> Result<Option<Param>, NoMemory> {
    let mut left = number;
    'each: for constructor in constructors {
        let count = product_of(constructor.1.as_slice());
        if left < count {
            let whole = copy_whole(alloc, &constructor.0)?;
            let types = constructor.1.as_slice();
            let mut values = Items::new(alloc);
            'arguments: for i in 0..types.len() {
                let (here, rest) = split(left, product_of(&types[i + 1..]));
                left = rest;
                if let Some(value) = value_at(alloc, &types[i], here)? {
                    values.push(value)?;
                }
            }
            return Ok(Some(Param::Con(whole, values)));
        }
        left -= count;
    }
    Ok(None)
}

#[cycle(value_at)]
fn record_at(
    alloc: Global,
    fields: &[(Name, CType)],
    number: u64,
) -> Result<Option<Param>, NoMemory> {
    if number >= fields_product(fields) {
        return Ok(None);
    }
    let mut values = Items::new(alloc);
    let mut left = number;
    'each: for i in 0..fields.len() {
        let (here, rest) = split(left, fields_product(&fields[i + 1..]));
        left = rest;
        let field = &fields[i];
        if let Some(value) = value_at(alloc, &field.1, here)? {
            values.push((field.0.copy(alloc)?, value))?;
        }
    }
    Ok(Some(Param::Record(values)))
}

/// The values of a finite type of at most 4,096 values, in order.
pub fn values_of(alloc: Global, of: &CType) -> Result<Vec<Param>, NoMemory> {
    let mut values = Vec::new(alloc);
    'each: for number in 0..count_of(of) {
        if let Some(value) = value_at(alloc, of, number)? {
            values.push(value)?;
        }
    }
    Ok(values)
}

/// The number of a value in the order of its type, None for a value of another type. It takes no
/// memory.
#[cycle(number_of)]
pub fn number_of(value: &Param, of: &CType) -> Option<u64> {
    match (value, of) {
        (Param::Con(name, arguments), CType::Param(_, constructors)) => {
            constructed_number(name, arguments.as_slice(), constructors.get().as_slice())
        }
        (Param::Ints(number), CType::Ints(last)) => {
            if *number > *last {
                return None;
            }
            u64::try_from(*number).ok()
        }
        (Param::Record(values), CType::Record(fields)) => {
            record_number(values.as_slice(), fields.get().as_slice())
        }
        _ => None,
    }
}

#[cycle(number_of)]
fn constructed_number(
    name: &Whole,
    arguments: &[Param],
    constructors: &[(Whole, Items<CType>)],
) -> Option<u64> {
    let mut before = 0u64;
    'each: for constructor in constructors {
        let types = constructor.1.as_slice();
        if same_whole(name, &constructor.0) {
            return Some(before.saturating_add(arguments_number(arguments, types)?));
        }
        before = before.saturating_add(product_of(types));
    }
    None
}

#[cycle(number_of)]
fn arguments_number(arguments: &[Param], types: &[CType]) -> Option<u64> {
    if arguments.len() != types.len() {
        return None;
    }
    let mut number = 0u64;
    'each: for i in 0..arguments.len() {
        let here = number_of(&arguments[i], &types[i])?;
        number = number
            .saturating_mul(count_of(&types[i]))
            .saturating_add(here);
    }
    Some(number)
}

#[cycle(number_of)]
fn record_number(values: &[(Name, Param)], fields: &[(Name, CType)]) -> Option<u64> {
    if values.len() != fields.len() {
        return None;
    }
    let mut number = 0u64;
    'each: for i in 0..values.len() {
        let value = &values[i];
        let field = &fields[i];
        if !same_name(&value.0, &field.0) {
            return None;
        }
        let here = number_of(&value.1, &field.1)?;
        number = number
            .saturating_mul(count_of(&field.1))
            .saturating_add(here);
    }
    Some(number)
}
