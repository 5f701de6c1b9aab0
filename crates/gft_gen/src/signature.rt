//! The arguments of a function as blocks of nonterminals.
use crate::cells::{Cell, digit};
use crate::layout::{Layout, layout_at};
use gft_core::NoMemory;
use gft_pmcfg::AType;
use std::alloc::Global;

/// The first nonterminal of an argument, and the argument as a digit of the case of all arguments.
#[derive(Clone, Copy)]
struct Block {
    first: u32,
    cell: Cell,
}

/// The arguments of a function in order.
#[derive(Drop)]
pub struct Signature {
    blocks: Vec<Block>,
}

impl Signature {
    /// The signature of a function whose arguments have these types.
    pub fn of(alloc: Global, layouts: &[Layout], args: &[AType]) -> Result<Signature, NoMemory> {
        let mut signature = Signature {
            blocks: Vec::new(alloc),
        };
        for arg in args {
            signature.add(layout_at(layouts, arg.cat))?;
        }
        signature.weigh();
        Ok(signature)
    }

    fn add(&mut self, layout: Layout) -> Result<(), NoMemory> {
        self.blocks.push(Block {
            first: layout.first,
            cell: Cell {
                size: layout.count,
                weight: 1,
            },
        })?;
        Ok(())
    }

    fn weigh(&mut self) {
        let mut weight = 1u32;
        for block in self.blocks.iter_mut().rev() {
            block.cell.weight = weight;
            weight = weight.saturating_mul(block.cell.size);
        }
    }

    /// How many cases the arguments have together, or the greatest number.
    pub fn cases(&self) -> u64 {
        let mut cases = 1u64;
        for block in self.blocks.iter() {
            cases = cases.saturating_mul(u64::from(block.cell.size));
        }
        cases
    }

    /// How many arguments there are.
    pub fn count(&self) -> u32 {
        u32::try_from(self.blocks.len()).unwrap_or(u32::MAX)
    }

    /// The nonterminal of an argument in a case of all arguments.
    pub fn nonterminal(&self, argument: u32, case: u32) -> u32 {
        match self.blocks.get(argument as usize) {
            None => 0, // excluded: arguments are asked for by their numbers
            Some(block) => block.first.saturating_add(digit(case, block.cell)),
        }
    }
}
