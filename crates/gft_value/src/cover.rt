//! What patterns cover: the numbers of the values that each matches, put together run by run.
use crate::count::{count_of, fields_product, product_of};
use crate::label::tuple_number;
use crate::runs::{Run, Runs, first_unmarked, full, mark, product, push_shifted, single};
use crate::same::{same_name, same_whole};
use crate::values::value_at;
use gft_core::{Name, NoMemory};
use gft_syntax::{CType, Param, Pattern, PatternField, Reference, Whole};
use sqlite_items::Items;
use std::alloc::Global;

/// More than any type that a table is over has: counts of this file stop here.
const MANY: u64 = 65_537;

fn few(count: u64) -> u32 {
    u32::try_from(count.min(MANY)).unwrap_or(65_537)
}

/// The arguments of the constructor, and how many values those before it have.
fn constructor_in<'a>(
    name: &Whole,
    constructors: &'a [(Whole, Items<CType>)],
) -> Option<(u32, &'a [CType])> {
    let mut before = 0u64;
    'each: for constructor in constructors {
        if same_whole(name, &constructor.0) {
            return Some((few(before), constructor.1.as_slice()));
        }
        before = before.saturating_add(product_of(constructor.1.as_slice()));
    }
    None
}

/// The numbers of the values that the pattern matches.
#[cycle(matched)]
fn matched(alloc: Global, pattern: &Pattern, of: &CType) -> Result<Runs, NoMemory> {
    match pattern {
        Pattern::Or(p, q, _) => {
            let mut runs = matched(alloc, p.get(), of)?;
            let others = matched(alloc, q.get(), of)?;
            push_shifted(&mut runs, others.as_slice(), 0)?;
            ordered(alloc, runs.as_slice(), few(count_of(of)))
        }
        Pattern::Con(_, Reference::Whole(name), parts, _) => {
            constructed(alloc, name, parts.as_slice(), of)
        }
        Pattern::Name(Reference::Whole(name), _) => constructed(alloc, name, &[], of),
        Pattern::As(_, p, _) => matched(alloc, p.get(), of),
        Pattern::Num(n, _) => single(alloc, *n, few(count_of(of))),
        Pattern::Fields(fields, _) => record_matched(alloc, fields.as_slice(), of),
        Pattern::Tuple(parts, _) => tuple_matched(alloc, parts.as_slice(), of),
        _ => full(alloc, few(count_of(of))),
    }
}

/// The numbers that are marked, as runs.
fn marked_runs(alloc: Global, marks: &[bool], count: u32) -> Result<Runs, NoMemory> {
    let mut out = Vec::new(alloc);
    let mut start = 0u32;
    'each: for i in 0..count {
        let is_marked = marks.get(i as usize).copied().unwrap_or(false);
        if !is_marked {
            if start < i {
                out.push(Run { start, end: i })?;
            }
            start = i + 1;
        }
    }
    if start < count {
        out.push(Run { start, end: count })?;
    }
    Ok(out)
}

/// The same runs in order, through marks: the sides of an Or may overlap.
fn ordered(alloc: Global, runs: &[Run], count: u32) -> Result<Runs, NoMemory> {
    let mut marks = vec![in alloc; false; count as usize]?;
    mark(marks.as_mut_slice(), runs);
    marked_runs(alloc, marks.as_slice(), count)
}

#[cycle(matched)]
fn constructed(
    alloc: Global,
    name: &Whole,
    parts: &[Pattern],
    of: &CType,
) -> Result<Runs, NoMemory> {
    let mut out = Vec::new(alloc);
    if let CType::Param(_, constructors) = of {
        if let Some((before, types)) = constructor_in(name, constructors.get().as_slice()) {
            let runs = arguments_matched(alloc, parts, types)?;
            push_shifted(&mut out, runs.as_slice(), before)?;
        }
    }
    Ok(out)
}

/// The numbers of the choices that the patterns match, from the last to the first.
#[cycle(matched)]
fn arguments_matched(alloc: Global, parts: &[Pattern], types: &[CType]) -> Result<Runs, NoMemory> {
    if parts.len() != types.len() {
        return Ok(Vec::new(alloc));
    }
    let mut runs = full(alloc, 1)?;
    'each: for i in (0..parts.len()).rev() {
        let here = matched(alloc, &parts[i], &types[i])?;
        let count = few(product_of(&types[i + 1..]));
        runs = product(alloc, here.as_slice(), runs.as_slice(), count)?;
    }
    Ok(runs)
}

#[cycle(matched)]
fn field_matched(
    alloc: Global,
    fields: &[PatternField<Pattern>],
    label: &Name,
    of: &CType,
) -> Result<Runs, NoMemory> {
    'each: for field in fields {
        'labels: for name in field.labels.as_slice() {
            if same_name(label, name) {
                return matched(alloc, &field.pattern, of);
            }
        }
    }
    full(alloc, few(count_of(of)))
}

#[cycle(matched)]
fn record_matched(
    alloc: Global,
    patterns: &[PatternField<Pattern>],
    of: &CType,
) -> Result<Runs, NoMemory> {
    let mut runs = full(alloc, 1)?;
    if let CType::Record(fields) = of {
        let fields = fields.get().as_slice();
        'each: for i in (0..fields.len()).rev() {
            let field = &fields[i];
            let here = field_matched(alloc, patterns, &field.0, &field.1)?;
            let count = few(fields_product(&fields[i + 1..]));
            runs = product(alloc, here.as_slice(), runs.as_slice(), count)?;
        }
    }
    Ok(runs)
}

#[cycle(matched)]
fn tuple_matched(alloc: Global, parts: &[Pattern], of: &CType) -> Result<Runs, NoMemory> {
    let mut runs = full(alloc, 1)?;
    if let CType::Record(fields) = of {
        let fields = fields.get().as_slice();
        'each: for i in (0..fields.len()).rev() {
            let field = &fields[i];
            let count = few(fields_product(&fields[i + 1..]));
            let here = item_matched(alloc, parts, &field.0, &field.1)?;
            runs = product(alloc, here.as_slice(), runs.as_slice(), count)?;
        }
    }
    Ok(runs)
}

#[cycle(matched)]
fn item_matched(
    alloc: Global,
    parts: &[Pattern],
    label: &Name,
    of: &CType,
) -> Result<Runs, NoMemory> {
    if let Some(number) = tuple_number(label) {
        if number < parts.len() {
            return matched(alloc, &parts[number], of);
        }
    }
    full(alloc, few(count_of(of)))
}

/// The first value of a finite type of at most 4,096 values that no pattern matches.
pub fn uncovered(
    alloc: Global,
    patterns: &Vec<&Pattern>,
    of: &CType,
) -> Result<Option<Param>, NoMemory> {
    let mut marks = vec![in alloc; false; few(count_of(of)) as usize]?;
    'each: for pattern in patterns.as_slice() {
        let runs = matched(alloc, pattern, of)?;
        mark(marks.as_mut_slice(), runs.as_slice());
    }
    match first_unmarked(marks.as_slice()) {
        None => Ok(None),
        Some(number) => value_at(alloc, of, number as u64),
    }
}
