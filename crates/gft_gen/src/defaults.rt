//! How a category without a `linref` is made one string.
use gft_core::Name;
use gft_syntax::CType;
use gft_value::count_of;

fn number(n: u64) -> u32 {
    u32::try_from(n).unwrap_or(u32::MAX)
}

/// How many string cells a type has.
#[cycle(strings)]
fn strings(of: &CType) -> u32 {
    match of {
        CType::Str => 1,
        CType::Record(fields) => strings_before(fields.get().as_slice(), usize::MAX),
        CType::Table(over, values) => {
            number(count_of(over.get())).saturating_mul(strings(values.get()))
        }
        _ => 0,
    }
}

/// How many string cells the fields before a place have.
#[cycle(strings)]
fn strings_before(fields: &[(Name, CType)], place: usize) -> u32 {
    let mut sum = 0u32;
    'fields: for (at, field) in fields.iter().enumerate() {
        if at < place {
            sum = sum.saturating_add(strings(&field.1));
        }
    }
    sum
}

/// The first string cell of a type by number: at each record that of label `s`, where it has one,
/// else that of the first field that has one, at each table that of its first value. None where the
/// type has no string cell.
#[cycle(first_string)]
pub fn first_string(of: &CType) -> Option<u32> {
    match of {
        CType::Str => Some(0),
        CType::Record(fields) => first_field(fields.get().as_slice()),
        CType::Table(_, values) => first_string(values.get()),
        _ => None,
    }
}

#[cycle(first_string)]
fn first_field(fields: &[(Name, CType)]) -> Option<u32> {
    let mut first = None;
    'fields: for (at, field) in fields.iter().enumerate() {
        if let Some(cell) = first_string(&field.1) {
            let cell = strings_before(fields, at).saturating_add(cell);
            if field.0.as_str() == "s" {
                return Some(cell);
            }
            if first.is_none() {
                first = Some(cell);
            }
        }
    }
    first
}
