//! The cases of a function, split only where a parameter is asked for.
use crate::cells::Cells;
use crate::layout::Layout;
use crate::rows::{Part, number};
use crate::tables::Tables;
use gft_core::{NoMemory, Place};
use gft_eval::{Machine, Stop};
use gft_rules::Rule;
use gft_syntax::CType;
use std::alloc::Global;

/// A cell whose value is not known.
const UNKNOWN: u32 = u32::MAX;

/// A stuck step in the least of some cases.
#[derive(Clone, Copy)]
pub struct Stuck {
    pub case: u32,
    pub rule: Rule,
    pub place: Place,
}

/// What is known of the cells, the cells that were asked for, the last one at the end, and the
/// stuck step of the least case so far.
#[derive(Drop)]
pub struct Splitting {
    cells: Cells,
    known: Vec<u32>,
    asked: Vec<u32>,
    stuck: Option<Stuck>,
}

impl Splitting {
    /// Nothing is known of the machine's cells.
    pub fn new(alloc: Global, machine: &Machine<'_>) -> Result<Splitting, NoMemory> {
        let mut cells = Cells::new(alloc);
        let mut known = Vec::new(alloc);
        for cell in 0..machine.cell_count() {
            cells.add(machine.cell_size(cell))?;
            known.push(UNKNOWN)?;
        }
        cells.weigh();
        Ok(Splitting {
            cells,
            known,
            asked: Vec::new(alloc),
            stuck: None,
        })
    }

    /// What is known of a cell.
    fn known(&self, cell: u32) -> u32 {
        match self.known.get(cell as usize) {
            None => 0, // excluded: cells are asked for by their numbers
            Some(value) => *value,
        }
    }

    fn set(&mut self, machine: &mut Machine<'_>, cell: u32, value: u32) {
        if let Some(known) = self.known.get_mut(cell as usize) {
            *known = value;
        }
        if value == UNKNOWN {
            machine.set(cell, None);
        } else {
            machine.set(cell, Some(value));
        }
    }

    /// Adds the cells that are not known; the answer is the number of choices of their values.
    fn open(&self, tables: &mut Tables) -> Result<u32, NoMemory> {
        let mut cases = 1u32;
        for (value, cell) in self.known.iter().zip(self.cells.as_slice()) {
            if *value == UNKNOWN && cell.size != 1 {
                cases = cases.saturating_mul(cell.size);
                tables.parts.open.push(*cell)?;
            }
        }
        Ok(cases)
    }

    /// Adds the part of the cases that have what is known, with the outcomes from the place `first`
    /// on.
    fn add_part(&self, tables: &mut Tables, first: u32, end: u32) -> Result<(), NoMemory> {
        let from = number(tables.parts.open.len())?;
        let cases = self.open(tables)?;
        let to = number(tables.parts.open.len())?;
        tables.parts.parts.push(Part {
            least: self.least(),
            cases,
            from,
            to,
            first,
            end,
        })?;
        Ok(())
    }

    /// The least case of those that have what is known.
    fn least(&self) -> u32 {
        let mut least = 0u32;
        for (value, cell) in self.known.iter().zip(self.cells.as_slice()) {
            if *value != UNKNOWN {
                least = least.saturating_add(value.saturating_mul(cell.weight));
            }
        }
        least
    }

    /// Keeps the stuck step of the least case. Parts have no case in common.
    fn stick(&mut self, rule: Rule, place: Place) {
        let case = self.least();
        let is_first = match self.stuck {
            None => true,
            Some(stuck) => case < stuck.case,
        };
        if is_first {
            self.stuck = Some(Stuck { case, rule, place });
        }
    }

    /// Begins with the first value of a cell that is asked for.
    fn ask(&mut self, machine: &mut Machine<'_>, cell: u32) -> Result<bool, NoMemory> {
        if self.known(cell) != UNKNOWN {
            return Ok(self.advance(machine)); // excluded: what is known is not asked for
        }
        self.asked.push(cell)?;
        self.set(machine, cell, 0);
        Ok(true)
    }

    /// Goes on to the next value of the last cell that has one more; false where none has.
    fn advance(&mut self, machine: &mut Machine<'_>) -> bool {
        for _ in 0..self.known.len() {
            let Some(cell) = self.asked.last().copied() else {
                return false;
            };
            let value = self.known(cell).saturating_add(1);
            if value < self.cells.at(cell).size {
                self.set(machine, cell, value);
                return true;
            }
            self.set(machine, cell, UNKNOWN);
            self.asked.pop();
        }
        false
    }

    /// Adds the part with the last outcomes, so many.
    fn take(
        &mut self,
        alloc: Global,
        machine: &Machine<'_>,
        tables: &mut Tables,
        layout: Layout,
        count: u32,
    ) -> Result<(), NoMemory> {
        if count == 0 {
            return Ok(());
        }
        let first = number(tables.parts.outcomes.len())?;
        tables.add_outcomes(&self.cells, layout, count)?;
        let end = number(tables.parts.outcomes.len())?;
        if count > 1 {
            tables.words.follow(machine)?;
            tables.rank(alloc, first, layout.dim)?;
        }
        self.add_part(tables, first, end)
    }

    /// One evaluation, for what is known; whether there is one more.
    fn turn<'a>(
        &mut self,
        alloc: Global,
        machine: &mut Machine<'a>,
        of: &'a CType,
        layout: Layout,
        tables: &mut Tables,
    ) -> Result<bool, NoMemory> {
        match machine.outcomes(of, &mut tables.all) {
            Ok(count) => self.take(alloc, machine, tables, layout, count)?,
            Err(Stop::Ask(cell)) => return self.ask(machine, cell),
            Err(Stop::Glue(place)) => self.stick(Rule::GlueOnArgument, place),
            Err(Stop::Match(place)) => self.stick(Rule::MatchOnArgument, place),
            Err(Stop::NoBranch(place)) => self.stick(Rule::NoStringBranch, place),
            Err(Stop::NoMemory) => return Err(NoMemory),
            Err(Stop::Nothing) => {} // it never leaves `outcomes`
        }
        Ok(self.advance(machine))
    }
}

/// The parts of all cases of the term that the machine has taken up, whose arguments it has. What
/// is refused is the stuck step of the least case that has one.
pub fn split<'a>(
    alloc: Global,
    machine: &mut Machine<'a>,
    of: &'a CType,
    layout: Layout,
    tables: &mut Tables,
) -> Result<Option<Stuck>, NoMemory> {
    tables.parts.begin();
    let mut splitting = Splitting::new(alloc, machine)?;
    for _ in 0..u64::MAX {
        if !splitting.turn(alloc, machine, of, layout, tables)? {
            break;
        }
    }
    Ok(splitting.stuck)
}
