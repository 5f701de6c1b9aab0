//! The abstract part of a file, written.
use crate::output::Output;
use gft_abs::function_named;
use gft_core::{NoMemory, Tree};
use gft_pmcfg::{AType, Abstract, Cat, Fun};

/// A term of a type: an application, a variable by the number of its argument from 0, an integer,
/// or a text.
#[cycle(term)]
fn put_term(out: &mut Output, funs: &[Fun], term: &Tree) -> Result<(), NoMemory> {
    match term {
        Tree::App(name, parts) => {
            out.tag(0)?;
            // excluded by the ranges of a grammar: a name that is no function
            out.number(function_named(funs, name.as_str()).unwrap_or(0))?;
            put_terms(out, funs, parts.as_slice())
        }
        Tree::Hole(variable) => {
            out.tag(1)?;
            out.number(variable.saturating_sub(1))
        }
        Tree::Int(number) => {
            out.tag(2)?;
            out.raw(&number.to_be_bytes())
        }
        Tree::Str(token) => {
            out.tag(3)?;
            out.text(token.as_str())
        }
    }
}

#[cycle(term)]
fn put_terms(out: &mut Output, funs: &[Fun], terms: &[Tree]) -> Result<(), NoMemory> {
    out.many(terms.len())?;
    for term in terms {
        put_term(out, funs, term)?;
    }
    Ok(())
}

fn put_type(out: &mut Output, funs: &[Fun], one: &AType) -> Result<(), NoMemory> {
    out.number(one.cat)?;
    put_terms(out, funs, one.args.as_slice())
}

fn put_types(out: &mut Output, funs: &[Fun], types: &[AType]) -> Result<(), NoMemory> {
    out.many(types.len())?;
    for one in types {
        put_type(out, funs, one)?;
    }
    Ok(())
}

fn put_category(out: &mut Output, funs: &[Fun], cat: &Cat) -> Result<(), NoMemory> {
    out.text(cat.name.as_str())?;
    put_types(out, funs, cat.context.as_slice())
}

fn put_function(out: &mut Output, funs: &[Fun], fun: &Fun) -> Result<(), NoMemory> {
    out.text(fun.name.as_str())?;
    put_types(out, funs, fun.args.as_slice())?;
    put_type(out, funs, &fun.result)
}

/// The abstract part. `Int` and `String`, the first two categories, are not listed.
pub fn put_abstract(out: &mut Output, abs: &Abstract) -> Result<(), NoMemory> {
    let funs = abs.funs.as_slice();
    let listed = abs.cats.as_slice().get(2..).unwrap_or(&[]);
    out.text(abs.name.as_str())?;
    out.number(abs.start)?;
    out.many(listed.len())?;
    out.many(funs.len())?;
    for cat in listed {
        put_category(out, funs, cat)?;
    }
    for fun in funs {
        put_function(out, funs, fun)?;
    }
    Ok(())
}
