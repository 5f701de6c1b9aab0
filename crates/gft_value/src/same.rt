//! Equal names, types and parameter values, and copies of names and values.
use gft_core::{Name, NoMemory};
use gft_syntax::{CType, Param, Whole};
use sqlite_items::Items;
use std::alloc::Global;

/// Whether two names have equal bytes. It takes no memory.
pub fn same_name(a: &Name, b: &Name) -> bool {
    a.as_str() == b.as_str()
}

/// Whether two whole names are the same. It takes no memory.
pub fn same_whole(a: &Whole, b: &Whole) -> bool {
    same_name(&a.name, &b.name) && same_name(&a.module, &b.module)
}

/// The first field with the label. It takes no memory.
pub fn field_in<'a, T>(label: &Name, fields: &'a [(Name, T)]) -> Option<&'a T> {
    'each: for field in fields {
        if same_name(label, &field.0) {
            return Some(&field.1);
        }
    }
    None
}

/// Whether two types are equal. Parameter types are compared by name: in one grammar those of one
/// name have the same constructors. It takes no memory.
#[cycle(same_type)]
pub fn same_type(one: &CType, other: &CType) -> bool {
    match (one, other) {
        (CType::Str, CType::Str) => true,
        (CType::Param(a, _), CType::Param(b, _)) => same_whole(a.get(), b.get()),
        (CType::Ints(m), CType::Ints(n)) => *m == *n,
        (CType::Record(fs), CType::Record(gs)) => {
            same_fields(fs.get().as_slice(), gs.get().as_slice())
        }
        (CType::Table(p, v), CType::Table(q, w)) => {
            same_type(p.get(), q.get()) && same_type(v.get(), w.get())
        }
        (CType::Fun(a, b), CType::Fun(c, d)) => {
            same_type(a.get(), c.get()) && same_type(b.get(), d.get())
        }
        (CType::TypeSort, CType::TypeSort) => true,
        (CType::ParamSort, CType::ParamSort) => true,
        _ => false,
    }
}

#[cycle(same_type)]
fn same_fields(ones: &[(Name, CType)], others: &[(Name, CType)]) -> bool {
    if ones.len() != others.len() {
        return false;
    }
    'each: for i in 0..ones.len() {
        let one = &ones[i];
        let other = &others[i];
        if !same_name(&one.0, &other.0) || !same_type(&one.1, &other.1) {
            return false;
        }
    }
    true
}

/// Whether two parameter values are equal. It takes no memory.
#[cycle(same_param)]
pub fn same_param(one: &Param, other: &Param) -> bool {
    match (one, other) {
        (Param::Con(a, xs), Param::Con(b, ys)) => {
            same_whole(a, b) && same_params(xs.as_slice(), ys.as_slice())
        }
        (Param::Ints(m), Param::Ints(n)) => *m == *n,
        (Param::Record(fs), Param::Record(gs)) => same_values(fs.as_slice(), gs.as_slice()),
        _ => false,
    }
}

#[cycle(same_param)]
fn same_params(ones: &[Param], others: &[Param]) -> bool {
    if ones.len() != others.len() {
        return false;
    }
    'each: for i in 0..ones.len() {
        if !same_param(&ones[i], &others[i]) {
            return false;
        }
    }
    true
}

#[cycle(same_param)]
fn same_values(ones: &[(Name, Param)], others: &[(Name, Param)]) -> bool {
    if ones.len() != others.len() {
        return false;
    }
    'each: for i in 0..ones.len() {
        let one = &ones[i];
        let other = &others[i];
        if !same_name(&one.0, &other.0) || !same_param(&one.1, &other.1) {
            return false;
        }
    }
    true
}

/// An equal whole name, in memory of its own.
pub fn copy_whole(alloc: Global, whole: &Whole) -> Result<Whole, NoMemory> {
    let module = whole.module.copy(alloc)?;
    let name = whole.name.copy(alloc)?;
    Ok(Whole { module, name })
}

/// An equal parameter value, in memory of its own.
#[cycle(copy_param)]
pub fn copy_param(alloc: Global, value: &Param) -> Result<Param, NoMemory> {
    match value {
        Param::Con(whole, arguments) => {
            let whole = copy_whole(alloc, whole)?;
            Ok(Param::Con(whole, copy_params(alloc, arguments.as_slice())?))
        }
        Param::Ints(number) => Ok(Param::Ints(*number)),
        Param::Record(fields) => Ok(Param::Record(copy_fields(alloc, fields.as_slice())?)),
    }
}

#[cycle(copy_param)]
fn copy_params(alloc: Global, values: &[Param]) -> Result<Items<Param>, NoMemory> {
    let mut copied = Items::new(alloc);
    'each: for value in values {
        copied.push(copy_param(alloc, value)?)?;
    }
    Ok(copied)
}

#[cycle(copy_param)]
fn copy_fields(alloc: Global, fields: &[(Name, Param)]) -> Result<Items<(Name, Param)>, NoMemory> {
    let mut copied = Items::new(alloc);
    'each: for field in fields {
        let label = field.0.copy(alloc)?;
        copied.push((label, copy_param(alloc, &field.1)?))?;
    }
    Ok(copied)
}
