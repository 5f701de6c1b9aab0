//! Grammars: an abstract syntax with its concrete syntaxes.
ghost use Rattle.std.specs.Prelude.{◌≡◌, ◌<◌, IfOk, IsTrue, length};
ghost use Rattle.gft_pmcfg.specs.Ranges.{is_in_range};

use crate::concrete::{Concrete, Info};
use crate::copied::Copied;
use crate::ranges::is_in_range;
use crate::signature::Abstract;
use gft_core::NoMemory;
use sqlite_items::Items;
use std::alloc::Global;

/// An abstract syntax and its concrete syntaxes by name. All numbers in it are in range, and the
/// dimensions agree.
#[derive(Drop)]
pub struct Grammar {
    pub abs: Abstract,
    pub concretes: Items<Concrete>,
    pub ghost in_range: { IsTrue (is_in_range abs concretes) },
}

impl Grammar {
    /// The grammar of these parts. None where a number is out of range or a dimension does not
    /// agree.
    pub fn checked(
        alloc: Global,
        abs: Abstract,
        concretes: Items<Concrete>,
    ) -> Result<Option<Grammar>, NoMemory> {
        if !is_in_range(alloc, &abs, concretes.as_slice())? {
            return Ok(None);
        }
        Ok(Some(Grammar { abs, concretes }))
    }

    ghost use Rattle.gft_pmcfg.specs.Nonterminals.{infos_at, nonterminals_of, dimension_of};

    /// The number of string cells of a nonterminal, by halving the list of categories. It takes no
    /// memory.
    pub fn dimension(&self, lang: u32, nonterminal: u32) -> u32
        requires language { lang < length self.now.concretes }
        requires nonterminal { nonterminal < nonterminals_of (infos_at self.now.concretes lang) }
        ensures { result ≡ dimension_of (infos_at self.now.concretes lang) nonterminal }
    {
        let infos = self.concretes.as_slice()[lang as usize].infos.as_slice();
        let after = infos.partition_point(|info| info.first <= nonterminal);
        infos[after - 1].dim
    }

    /// An equal grammar, in memory of its own.
    pub fn copy(&self, alloc: Global) -> Result<Grammar, NoMemory>
        ensures { IfOk result (λ copy. copy ≡ self.now) }
    {
        Ok(Grammar {
            abs: self.abs.copied(alloc)?,
            concretes: self.concretes.copied(alloc)?,
        })
    }
}
