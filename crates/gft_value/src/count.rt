//! How many values and how many cells a type has.
use gft_core::Name;
use gft_syntax::{CType, Whole};
use sqlite_items::Items;

/// The number of numbers from 0 to n.
fn numbers(n: u128) -> u64 {
    match u64::try_from(n) {
        Err(_) => u64::MAX,
        Ok(n) => n.saturating_add(1),
    }
}

/// How many values a type has, or the greatest number where there are more. It takes no memory.
#[cycle(count_of)]
pub fn count_of(of: &CType) -> u64 {
    match of {
        CType::Param(_, constructors) => sum_of(constructors.get().as_slice()),
        CType::Ints(n) => numbers(*n),
        CType::Record(fields) => fields_product(fields.get().as_slice()),
        _ => 0,
    }
}

#[cycle(count_of)]
fn sum_of(constructors: &[(Whole, Items<CType>)]) -> u64 {
    let mut sum = 0u64;
    'each: for constructor in constructors {
        let mut product = 1u64;
        'arguments: for argument in constructor.1.as_slice() {
            product = product.saturating_mul(count_of(argument));
        }
        sum = sum.saturating_add(product);
    }
    sum
}

/// How many choices of one value of each type there are, or the greatest number. It takes no
/// memory.
pub fn product_of(types: &[CType]) -> u64 {
    let mut product = 1u64;
    'each: for one in types {
        product = product.saturating_mul(count_of(one));
    }
    product
}

/// How many choices of one value of each field there are, or the greatest number. It takes no
/// memory.
#[cycle(count_of)]
pub fn fields_product(fields: &[(Name, CType)]) -> u64 {
    let mut product = 1u64;
    'each: for field in fields {
        product = product.saturating_mul(count_of(&field.1));
    }
    product
}

/// Whether a table may be over the type: a parameter type, numbers, or a record type of such types.
/// The arguments of constructors are finite. It takes no memory.
#[cycle(is_finite)]
pub fn is_finite(of: &CType) -> bool {
    match of {
        CType::Param(_, _) => true,
        CType::Ints(_) => true,
        CType::Record(fields) => are_finite(fields.get().as_slice()),
        _ => false,
    }
}

#[cycle(is_finite)]
fn are_finite(fields: &[(Name, CType)]) -> bool {
    'each: for field in fields {
        if !is_finite(&field.1) {
            return false;
        }
    }
    true
}

/// How many cells a type has, or the greatest number where there are more. A sort has none, and a
/// function is no data. It takes no memory.
#[cycle(cell_count)]
pub fn cell_count(of: &CType) -> u64 {
    match of {
        CType::Str => 1,
        CType::Param(_, _) => 1,
        CType::Ints(_) => 1,
        CType::Record(fields) => field_cells(fields.get().as_slice()),
        CType::Table(over, values) => count_of(over.get()).saturating_mul(cell_count(values.get())),
        _ => 0,
    }
}

#[cycle(cell_count)]
fn field_cells(fields: &[(Name, CType)]) -> u64 {
    let mut sum = 0u64;
    'each: for field in fields {
        sum = sum.saturating_add(cell_count(&field.1));
    }
    sum
}
