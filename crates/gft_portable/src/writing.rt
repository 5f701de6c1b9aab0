//! The file of a grammar.
use crate::output::{Output, count};
use crate::signature::put_abstract;
use crate::table::Table;
use gft_coerce::coerce;
use gft_core::NoMemory;
use gft_pmcfg::{CArg, CProd, Coerced, Concrete, Def, Grammar, Info, Ref};
use std::alloc::Global;

/// The first four bytes of a file.
pub const MAGIC: [u8; 4] = *b"GFPT";
/// The most bytes of a file.
const LONGEST: usize = 67_108_864;
/// The most productions of a language in a file.
const MOST_PRODUCTIONS: usize = 8_388_608;

/// What is written, and which occurrence of a sequence comes next.
#[derive(Drop)]
struct Writer {
    out: Output,
    next: usize,
}

impl Writer {
    /// The places of the next sequences.
    fn put_places(&mut self, table: &Table, many: usize) -> Result<(), NoMemory> {
        for _ in 0..many {
            self.out.number(table.place(self.next))?;
            self.next = self.next.saturating_add(1);
        }
        Ok(())
    }

    fn put_production(&mut self, table: &Table, prod: &CProd, total: u32) -> Result<(), NoMemory> {
        self.out.number(prod.fun)?;
        for arg in prod.args.as_slice() {
            self.out.number(code(*arg, total))?;
        }
        self.out.number(prod.result)?;
        self.put_places(table, prod.seqs.len())
    }

    fn put_productions(&mut self, table: &Table, c: &Coerced) -> Result<(), NoMemory> {
        let total = nonterminals(c.infos.as_slice());
        self.out.many(c.prods.len())?;
        for prod in c.prods.as_slice() {
            self.put_production(table, prod, total)?;
        }
        Ok(())
    }

    fn put_defs(&mut self, table: &Table, defs: &[Def]) -> Result<(), NoMemory> {
        self.out.many(defs.len())?;
        for def in defs {
            self.out.number(def.result)?;
            self.put_places(table, def.seqs.len())?;
        }
        Ok(())
    }

    fn put_refs(&mut self, table: &Table, refs: &[Ref]) -> Result<(), NoMemory> {
        self.out.many(refs.len())?;
        for one in refs {
            self.out.number(one.arg)?;
            self.put_places(table, 1)?;
        }
        Ok(())
    }

    fn put_concrete(&mut self, alloc: Global, c: &Coerced) -> Result<(), NoMemory> {
        let table = Table::of(alloc, c)?;
        self.next = 0;
        self.out.text(c.name.as_str())?;
        put_infos(&mut self.out, c.infos.as_slice())?;
        table.put(&mut self.out)?;
        put_groups(&mut self.out, c)?;
        self.put_productions(&table, c)?;
        self.put_defs(&table, c.defs.as_slice())?;
        self.put_refs(&table, c.refs.as_slice())
    }
}

/// How many nonterminals the categories have.
fn nonterminals(infos: &[Info]) -> u32 {
    match infos.last() {
        None => 0,
        Some(info) => info.first.saturating_add(info.count),
    }
}

/// The number of an argument: a nonterminal, or the number of nonterminals plus that of the group.
fn code(arg: CArg, total: u32) -> u32 {
    match arg {
        CArg::One(nonterminal) => nonterminal,
        CArg::Group(group) => total.saturating_add(u32::try_from(group).unwrap_or(u32::MAX)),
    }
}

/// The number of cases and the dimension of each listed category.
fn put_infos(out: &mut Output, infos: &[Info]) -> Result<(), NoMemory> {
    for info in infos.get(2..).unwrap_or(&[]) {
        out.number(info.count)?;
        out.number(info.dim)?;
    }
    Ok(())
}

fn put_groups(out: &mut Output, c: &Coerced) -> Result<(), NoMemory> {
    out.many(c.groups.len())?;
    for group in c.groups.as_slice() {
        out.many(group.len())?;
        for member in group.as_slice() {
            out.number(*member)?;
        }
    }
    Ok(())
}

fn is_too_large(concretes: &[Concrete]) -> bool {
    concretes.iter().any(|c| c.prods.len() > MOST_PRODUCTIONS)
}

/// The file of a grammar, version 2. None exactly where it has over 67,108,864 bytes, or a language
/// has over 8,388,608 productions. The time is that of sorting its productions and sequences.
pub fn write(alloc: Global, g: &Grammar) -> Result<Option<Vec<u8>>, NoMemory> {
    let concretes = g.concretes.as_slice();
    if is_too_large(concretes) {
        return Ok(None);
    }
    let mut writer = Writer {
        out: Output::new(alloc),
        next: 0,
    };
    writer.out.raw(&MAGIC)?;
    writer.out.number(2)?;
    put_abstract(&mut writer.out, &g.abs)?;
    writer.out.number(count(concretes.len()))?;
    for c in concretes {
        let shared = coerce(alloc, c)?;
        writer.put_concrete(alloc, &shared)?;
    }
    let Writer { out, next: _ } = writer;
    if out.bytes.len() > LONGEST {
        return Ok(None);
    }
    Ok(Some(out.bytes))
}
