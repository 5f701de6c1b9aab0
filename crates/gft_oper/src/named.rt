//! The opers that a term names.
use gft_core::{Name, NoMemory, Shared};
use gft_syntax::{Branches, LinTerm, Pattern};

#[cycle(named)]
fn named_in_all(terms: &[LinTerm], numbers: &mut Vec<u32>) -> Result<(), NoMemory> {
    'each: for term in terms {
        named(term, numbers)?;
    }
    Ok(())
}

#[cycle(named)]
fn named_in_fields(
    fields: &[(Shared<Name>, LinTerm)],
    numbers: &mut Vec<u32>,
) -> Result<(), NoMemory> {
    'each: for field in fields {
        named(&field.1, numbers)?;
    }
    Ok(())
}

#[cycle(named)]
fn named_in_matched(
    branches: &[(Shared<Pattern>, LinTerm)],
    numbers: &mut Vec<u32>,
) -> Result<(), NoMemory> {
    'each: for branch in branches {
        named(&branch.1, numbers)?;
    }
    Ok(())
}

/// Adds the numbers of the opers that the term names, as often as it names them.
#[cycle(named)]
pub fn named(term: &LinTerm, numbers: &mut Vec<u32>) -> Result<(), NoMemory> {
    match term {
        LinTerm::Var(_) => Ok(()),
        LinTerm::Arg(_) => Ok(()),
        LinTerm::Words(_) => Ok(()),
        LinTerm::Num(_) => Ok(()),
        LinTerm::Con(_, arguments) => named_in_all(arguments.get().as_slice(), numbers),
        LinTerm::Concat(left, right) => {
            named(left.get(), numbers)?;
            named(right.get(), numbers)
        }
        LinTerm::Glue(left, right, _) => {
            named(left.get(), numbers)?;
            named(right.get(), numbers)
        }
        LinTerm::Predef(_, number, string, _) => {
            named(number.get(), numbers)?;
            named(string.get(), numbers)
        }
        LinTerm::Record(fields) => named_in_fields(fields.get().as_slice(), numbers),
        LinTerm::Extend(left, right) => {
            named(left.get(), numbers)?;
            named(right.get(), numbers)
        }
        LinTerm::Proj(record, _) => named(record.get(), numbers),
        LinTerm::Table(_, branches) => match branches.get() {
            Branches::Matched(matched) => named_in_matched(matched.as_slice(), numbers),
            Branches::Listed(_, terms) => named_in_all(terms.as_slice(), numbers),
        },
        LinTerm::Select(table, at) => {
            named(table.get(), numbers)?;
            named(at.get(), numbers)
        }
        LinTerm::Case(at, branches, _) => {
            named(at.get(), numbers)?;
            match branches.get() {
                Branches::Matched(matched) => named_in_matched(matched.as_slice(), numbers),
                Branches::Listed(_, terms) => named_in_all(terms.as_slice(), numbers),
            }
        }
        LinTerm::Variants(members) => named_in_all(members.get().as_slice(), numbers),
        LinTerm::Let(terms, body) => {
            named_in_all(terms.get().as_slice(), numbers)?;
            named(body.get(), numbers)
        }
        LinTerm::Cut(inner, _, _) => named(inner.get(), numbers),
        LinTerm::Oper(number) => {
            numbers.push(*number)?;
            Ok(())
        }
        LinTerm::Lambda(_, body) => named(body.get(), numbers),
        LinTerm::App(head, arguments) => {
            named(head.get(), numbers)?;
            named_in_all(arguments.get().as_slice(), numbers)
        }
    }
}
