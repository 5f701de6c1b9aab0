//! The productions of a function, groups written out.
use crate::productions::{Language, Production};
use gft_core::NoMemory;
use std::alloc::Global;

/// A production of one function, groups written out: its arguments, its result, and the numbers of
/// its sequences. The order of rows is that of productions.
#[derive(PartialEq, Eq, PartialOrd, Ord, Drop)]
pub struct Row {
    pub args: Vec<u32>,
    pub result: u32,
    pub seqs: Vec<u32>,
}

/// The rows that are alike but for the last argument, which is one of these.
fn with_argument(
    alloc: Global,
    rows: &[Vec<u32>],
    choices: &[u32],
) -> Result<Vec<Vec<u32>>, NoMemory> {
    let mut all = Vec::new(alloc);
    for row in rows {
        for choice in choices {
            let mut longer = Vec::new(alloc);
            longer.extend_from_slice(row.as_slice())?;
            longer.push(*choice)?;
            all.push(longer)?;
        }
    }
    Ok(all)
}

/// All choices of members for the arguments.
fn choices_of(alloc: Global, language: &Language, args: &[u32]) -> Result<Vec<Vec<u32>>, NoMemory> {
    let mut rows = Vec::new(alloc);
    rows.push(Vec::new(alloc))?;
    for argument in args {
        rows = match language.group(*argument) {
            None => with_argument(alloc, rows.as_slice(), &[*argument])?,
            Some(group) => with_argument(alloc, rows.as_slice(), language.groups.members(group))?,
        };
    }
    Ok(rows)
}

/// Adds the rows of a production.
fn add_rows(
    alloc: Global,
    language: &Language,
    one: Production,
    rows: &mut Vec<Row>,
) -> Result<(), NoMemory> {
    for args in choices_of(alloc, language, language.arguments(one))? {
        let mut seqs = Vec::new(alloc);
        seqs.extend_from_slice(language.sequence_numbers(one))?;
        rows.push(Row {
            args,
            result: one.result,
            seqs,
        })?;
    }
    Ok(())
}

/// The rows of productions of one function, each once and in order.
pub fn rows_of(
    alloc: Global,
    language: &Language,
    prods: &[Production],
) -> Result<Vec<Row>, NoMemory> {
    let mut rows = Vec::new(alloc);
    for one in prods {
        add_rows(alloc, language, *one, &mut rows)?;
    }
    rows.sort()?;
    rows.dedup();
    Ok(rows)
}

/// The productions from a place on that are of the function of the first of them.
pub fn of_function(prods: &[Production], from: usize) -> &[Production] {
    let rest = prods.get(from..).unwrap_or(&[]);
    match rest.first() {
        None => rest,
        Some(first) => {
            let fun = first.fun;
            let many = rest.partition_point(|one| one.fun <= fun);
            rest.get(..many).unwrap_or(rest)
        }
    }
}
