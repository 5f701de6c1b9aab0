//! The concrete syntax of a language that was read: its groups are written out.
use crate::fault::ReadErr;
use crate::field::Reader;
use crate::productions::{Filler, Language, Production};
use crate::rows::{of_function, rows_of};
use crate::sequences::shared;
use gft_core::{NoMemory, Shared, Sym};
use gft_pmcfg::{Concrete, Def, Prod, Ref};
use sqlite_items::Items;
use std::alloc::Global;

/// A production with these arguments and this result, and the sequences of these numbers.
fn prod_of(
    alloc: Global,
    made: &[Shared<Items<Sym>>],
    fun: u32,
    args: &[u32],
    nonterminal: u32,
    seqs: &[u32],
) -> Result<Prod, NoMemory> {
    Ok(Prod {
        fun,
        args: Items::from_slice(alloc, args)?,
        result: nonterminal,
        seqs: shared(alloc, made, seqs)?,
    })
}

/// Whether a production has a group.
fn has_group(language: &Language, one: Production) -> bool {
    let first = language.cases.total;
    language
        .arguments(one)
        .iter()
        .any(|argument| *argument >= first)
}

/// Adds productions of one function, none of which has a group. They are in order.
fn add_plain(
    alloc: Global,
    language: &Language,
    made: &[Shared<Items<Sym>>],
    of: &[Production],
    prods: &mut Vec<Prod>,
) -> Result<(), NoMemory> {
    for one in of {
        let (args, seqs) = (language.arguments(*one), language.sequence_numbers(*one));
        prods.push(prod_of(alloc, made, one.fun, args, one.result, seqs)?)?;
    }
    Ok(())
}

/// Adds productions of one function, groups written out, each once and in order.
fn add_written_out(
    alloc: Global,
    language: &Language,
    made: &[Shared<Items<Sym>>],
    fun: u32,
    of: &[Production],
    prods: &mut Vec<Prod>,
) -> Result<(), NoMemory> {
    for row in rows_of(alloc, language, of)? {
        let (args, seqs) = (row.args.as_slice(), row.seqs.as_slice());
        prods.push(prod_of(alloc, made, fun, args, row.result, seqs)?)?;
    }
    Ok(())
}

/// Adds the productions of one function.
fn add_function(
    alloc: Global,
    language: &Language,
    made: &[Shared<Items<Sym>>],
    of: &[Production],
    prods: &mut Vec<Prod>,
) -> Result<(), NoMemory> {
    match of.iter().find(|one| has_group(language, **one)) {
        None => add_plain(alloc, language, made, of, prods),
        Some(one) => add_written_out(alloc, language, made, one.fun, of, prods),
    }
}

fn productions(
    alloc: Global,
    language: &Language,
    made: &[Shared<Items<Sym>>],
) -> Result<Items<Prod>, NoMemory> {
    let all = language.prods.as_slice();
    let mut prods = Vec::with_capacity(alloc, all.len())?;
    let mut from = 0usize;
    for _ in 0..all.len() {
        let of = of_function(all, from);
        if of.is_empty() {
            break;
        }
        add_function(alloc, language, made, of, &mut prods)?;
        from = from.saturating_add(of.len());
    }
    Ok(Items::from_vec(prods))
}

fn def(
    alloc: Global,
    language: &Language,
    made: &[Shared<Items<Sym>>],
    one: Filler,
) -> Result<Def, NoMemory> {
    Ok(Def {
        result: one.nonterminal,
        seqs: shared(alloc, made, language.numbers(one.from, one.to))?,
    })
}

fn defs(
    alloc: Global,
    language: &Language,
    made: &[Shared<Items<Sym>>],
) -> Result<Items<Def>, NoMemory> {
    let mut defs = Items::new(alloc);
    for one in language.defs.as_slice() {
        defs.push(def(alloc, language, made, *one)?)?;
    }
    Ok(defs)
}

fn refs(
    alloc: Global,
    language: &Language,
    made: &[Shared<Items<Sym>>],
) -> Result<Items<Ref>, NoMemory> {
    let mut refs = Items::new(alloc);
    for one in language.refs.as_slice() {
        for number in language.numbers(one.from, one.to) {
            if let Some(seq) = made.get(*number as usize) {
                refs.push(Ref {
                    arg: one.nonterminal,
                    seq: seq.share()?,
                })?;
            }
        }
    }
    Ok(refs)
}

/// The concrete syntax.
pub fn concrete_of(
    alloc: Global,
    reader: &Reader,
    language: &Language,
) -> Result<Concrete, ReadErr> {
    let made = language.sequences.made(alloc, reader)?;
    let made = made.as_slice();
    let mut infos = Items::new(alloc);
    for info in language.cases.infos.as_slice() {
        infos.push(*info)?;
    }
    Ok(Concrete {
        name: reader.name_at(alloc, language.name)?,
        infos,
        prods: productions(alloc, language, made)?,
        defs: defs(alloc, language, made)?,
        refs: refs(alloc, language, made)?,
    })
}
