//! A concrete syntax with some of its productions.
use gft_core::{NoMemory, Shared, Sym};
use gft_pmcfg::{Concrete, Def, Prod, Ref};
use sqlite_items::Items;
use std::alloc::Global;

fn shared_sequences(
    alloc: Global,
    seqs: &[Shared<Items<Sym>>],
) -> Result<Items<Shared<Items<Sym>>>, NoMemory> {
    let mut all = Items::new(alloc);
    for seq in seqs {
        all.push(seq.share()?)?;
    }
    Ok(all)
}

fn copied(alloc: Global, prod: &Prod) -> Result<Prod, NoMemory> {
    Ok(Prod {
        fun: prod.fun,
        args: Items::from_slice(alloc, prod.args.as_slice())?,
        result: prod.result,
        seqs: shared_sequences(alloc, prod.seqs.as_slice())?,
    })
}

/// The productions of which no argument is missing.
fn productions(alloc: Global, prods: &[Prod], missing: &[u32]) -> Result<Items<Prod>, NoMemory> {
    let mut all = Items::new(alloc);
    for (prod, count) in prods.iter().zip(missing) {
        if *count == 0 {
            all.push(copied(alloc, prod)?)?;
        }
    }
    Ok(all)
}

fn copied_defs(alloc: Global, defs: &[Def]) -> Result<Items<Def>, NoMemory> {
    let mut all = Items::new(alloc);
    for def in defs {
        let seqs = shared_sequences(alloc, def.seqs.as_slice())?;
        all.push(Def {
            result: def.result,
            seqs,
        })?;
    }
    Ok(all)
}

fn copied_refs(alloc: Global, refs: &[Ref]) -> Result<Items<Ref>, NoMemory> {
    let mut all = Items::new(alloc);
    for one in refs {
        all.push(Ref {
            arg: one.arg,
            seq: one.seq.share()?,
        })?;
    }
    Ok(all)
}

/// The concrete syntax with the productions of which no argument is missing.
pub fn kept(alloc: Global, c: &Concrete, missing: &[u32]) -> Result<Concrete, NoMemory> {
    Ok(Concrete {
        name: c.name.copy(alloc)?,
        infos: Items::from_slice(alloc, c.infos.as_slice())?,
        prods: productions(alloc, c.prods.as_slice(), missing)?,
        defs: copied_defs(alloc, c.defs.as_slice())?,
        refs: copied_refs(alloc, c.refs.as_slice())?,
    })
}
