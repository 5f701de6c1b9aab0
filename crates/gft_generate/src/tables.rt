//! What the trees of an abstract syntax are made of.
use crate::depths::Depths;
use crate::heads::Heads;
use crate::literals::Literals;
use gft_core::NoMemory;
use gft_pmcfg::Abstract;
use std::alloc::Global;

/// The literals, the heads of each category, and how deep its trees are. Made once a call.
#[derive(Drop)]
pub struct Tables {
    pub literals: Literals,
    pub heads: Heads,
    pub depths: Depths,
}

impl Tables {
    /// The tables for trees within a depth.
    pub fn of(
        alloc: Global,
        abs: &Abstract,
        literals: Literals,
        depth: u32,
    ) -> Result<Tables, NoMemory> {
        let heads = Heads::of(alloc, abs, &literals)?;
        let depths = Depths::of(alloc, abs, depth)?;
        Ok(Tables {
            literals,
            heads,
            depths,
        })
    }
}
