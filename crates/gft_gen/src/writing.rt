//! The concrete syntax, written out once. Sequences are shared.
use crate::keeping::Keeping;
use crate::language::Language;
use crate::layout::Layout;
use crate::rows::{Row, number};
use crate::signature::Signature;
use crate::source::Source;
use crate::tables::Tables;
use gft_abs::{NONE, at, filled, put};
use gft_core::{NoMemory, Shared, Sym};
use gft_pmcfg::{Def, Fun, Info, Prod, Ref};
use sqlite_items::Items;
use std::alloc::Global;

/// The sequences that are written, and for each string of the tables its place among them, if it is
/// written.
#[derive(Drop)]
pub struct Sequences {
    places: Vec<u32>,
    made: Vec<Shared<Items<Sym>>>,
}

impl Sequences {
    /// None is written.
    pub fn new(alloc: Global, tables: &Tables) -> Result<Sequences, NoMemory> {
        let count = number(tables.all.strings.len())?;
        Ok(Sequences {
            places: filled(alloc, count, NONE)?,
            made: Vec::new(alloc),
        })
    }

    /// Writes the string of that number.
    fn make(&mut self, alloc: Global, tables: &Tables, string: u32) -> Result<(), NoMemory> {
        let place = number(self.made.len())?;
        let sequence = tables.sequence(alloc, string)?;
        self.made.push(Shared::new(alloc, sequence)?)?;
        put(&mut self.places, string, place);
        Ok(())
    }

    /// The string of that number, which is written once.
    fn share(
        &mut self,
        alloc: Global,
        tables: &Tables,
        string: u32,
    ) -> Result<Shared<Items<Sym>>, NoMemory> {
        if at(self.places.as_slice(), string) == NONE {
            self.make(alloc, tables, string)?;
        }
        let place = at(self.places.as_slice(), string);
        match self.made.get(place as usize) {
            None => Shared::new(alloc, Items::new(alloc)), // excluded: it was made just now
            Some(sequence) => sequence.share(),
        }
    }

    /// So many strings from a place on.
    fn share_all(
        &mut self,
        alloc: Global,
        tables: &Tables,
        from: u32,
        count: u32,
    ) -> Result<Items<Shared<Items<Sym>>>, NoMemory> {
        let mut all = Items::new(alloc);
        for string in from..from.saturating_add(count) {
            all.push(self.share(alloc, tables, string)?)?;
        }
        Ok(all)
    }

    fn production(
        &mut self,
        alloc: Global,
        tables: &Tables,
        of: &Form,
        row: Row,
    ) -> Result<Prod, NoMemory> {
        let from = tables.parts.sequences(row.outcome);
        let args = arguments(alloc, &of.signature, row.case)?;
        let seqs = self.share_all(alloc, tables, from, of.dim)?;
        Ok(Prod {
            fun: of.fun,
            args,
            result: row.result,
            seqs,
        })
    }
}

/// A function whose productions are written: its number, its arguments, and the number of its
/// result's sequences.
#[derive(Drop)]
struct Form {
    fun: u32,
    signature: Signature,
    dim: u32,
}

fn arguments(alloc: Global, signature: &Signature, case: u32) -> Result<Items<u32>, NoMemory> {
    let mut args = Items::new(alloc);
    for argument in 0..signature.count() {
        args.push(signature.nonterminal(argument, case))?;
    }
    Ok(args)
}

/// Which rows a tree uses, None where that is not asked.
fn is_written(keeping: Option<&Keeping>, row: u32) -> bool {
    match keeping {
        None => true,
        Some(keeping) => keeping.is_kept(row),
    }
}

fn form_of(alloc: Global, source: &Source<'_>, number: u32, fun: &Fun) -> Result<Form, NoMemory> {
    Ok(Form {
        fun: number,
        signature: Signature::of(alloc, source.layouts, fun.args.as_slice())?,
        dim: source.layout(fun.result.cat).dim,
    })
}

impl Language {
    /// Writes those of the rows from one place to another that are kept.
    fn write_rows(
        &self,
        alloc: Global,
        of: &Form,
        from: u32,
        keeping: Option<&Keeping>,
        sequences: &mut Sequences,
        prods: &mut Items<Prod>,
    ) -> Result<(), NoMemory> {
        for row in from..at(self.ends.as_slice(), of.fun) {
            if is_written(keeping, row) {
                if let Some(row) = self.rows.get(row as usize) {
                    prods.push(sequences.production(alloc, &self.tables, of, *row)?)?;
                }
            }
        }
        Ok(())
    }

    /// The productions of all functions that are kept.
    pub fn productions(
        &self,
        alloc: Global,
        source: &Source<'_>,
        keeping: Option<&Keeping>,
        sequences: &mut Sequences,
    ) -> Result<Items<Prod>, NoMemory> {
        let mut prods = Items::new(alloc);
        let mut from = 0u32;
        for (place, fun) in source.abs.funs.as_slice().iter().enumerate() {
            let of = form_of(alloc, source, number(place)?, fun)?;
            self.write_rows(alloc, &of, from, keeping, sequences, &mut prods)?;
            from = at(self.ends.as_slice(), of.fun);
        }
        Ok(prods)
    }

    /// All defs.
    pub fn written_defs(
        &self,
        alloc: Global,
        sequences: &mut Sequences,
    ) -> Result<Items<Def>, NoMemory> {
        let mut defs = Items::new(alloc);
        for def in self.defs.iter() {
            let from = self.tables.parts.sequences(def.row.outcome);
            let seqs = sequences.share_all(alloc, &self.tables, from, def.dim)?;
            defs.push(Def {
                result: def.row.result,
                seqs,
            })?;
        }
        Ok(defs)
    }

    /// All refs.
    pub fn written_refs(
        &self,
        alloc: Global,
        sequences: &mut Sequences,
    ) -> Result<Items<Ref>, NoMemory> {
        let mut refs = Items::new(alloc);
        for one in self.refs.iter() {
            let seq = sequences.share(alloc, &self.tables, one.sequence)?;
            refs.push(Ref { arg: one.arg, seq })?;
        }
        Ok(refs)
    }
}

/// What is known of each category.
pub fn infos(alloc: Global, layouts: &[Layout]) -> Result<Items<Info>, NoMemory> {
    let mut infos = Items::new(alloc);
    for layout in layouts {
        infos.push(Info {
            first: layout.first,
            count: layout.count,
            dim: layout.dim,
        })?;
    }
    Ok(infos)
}
