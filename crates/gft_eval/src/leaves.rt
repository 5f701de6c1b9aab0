//! All outcomes of a term, for what is known of the parameter cells of its arguments.
use crate::data::{Datum, Range, get};
use crate::machine::{Cell, Machine};
use crate::outcomes::{Filled, Leaf, Outcomes};
use crate::stop::Stop;
use gft_core::Name;
use gft_syntax::CType;

impl<'a> Machine<'a> {
    /// Adds the distinct outcomes of the term, of this type, in the order of the scripts of choices
    /// that lead to them, and gives how many there are. Else the first stuck step in that order, or
    /// a parameter cell that is not known and has to be; then nothing is added. Two outcomes that
    /// may differ in such a cell alone ask for it. The time is that of the runs: one for each
    /// script.
    pub fn outcomes(&mut self, of: &'a CType, all: &mut Outcomes) -> Result<u32, Stop> {
        let filled = all.filled();
        match self.add_outcomes(of, all) {
            Ok(()) => Ok(all.since(filled)?),
            Err(stop) => {
                all.cut_back(filled);
                Err(stop)
            }
        }
    }

    fn add_outcomes(&mut self, of: &'a CType, all: &mut Outcomes) -> Result<(), Stop> {
        all.begin();
        self.choices.begin();
        for _ in 0..u64::MAX {
            self.run_once(of, all)?;
            if !self.choices.advance() {
                break;
            }
        }
        Ok(())
    }

    /// One run: it may have no outcome.
    fn run_once(&mut self, of: &'a CType, all: &mut Outcomes) -> Result<(), Stop> {
        self.data.cut_back(self.base);
        let filled = all.filled();
        match self.run_into(of, all, filled) {
            Err(Stop::Nothing) => {
                all.cut_back(filled);
                Ok(())
            }
            ended => ended,
        }
    }

    fn run_into(&mut self, of: &'a CType, all: &mut Outcomes, filled: Filled) -> Result<(), Stop> {
        let value = self.value()?;
        self.add_leaves(of, value, all)?;
        all.add_since(filled)
    }

    /// Adds the leaves of a value. A recursion as deep as the type.
    #[cycle(leaves)]
    fn add_leaves(&mut self, of: &'a CType, value: u32, all: &mut Outcomes) -> Result<(), Stop> {
        match of {
            CType::Str => self.add_string(value, all),
            CType::Param(_, _) => self.add_leaf(of, value, all),
            CType::Ints(_) => self.add_leaf(of, value, all),
            CType::Record(fields) => self.add_field_leaves(fields.get().as_slice(), value, all),
            CType::Table(_, items) => self.add_item_leaves(items.get(), value, all),
            _ => Ok(()), // a sort has no cell, and a function is excluded by typing
        }
    }

    fn add_string(&self, value: u32, all: &mut Outcomes) -> Result<(), Stop> {
        let symbols = self.string(value)?;
        all.push_string(self.data.symbols_of(symbols))?;
        Ok(())
    }

    fn add_leaf(&mut self, of: &'a CType, value: u32, all: &mut Outcomes) -> Result<(), Stop> {
        let leaf = match self.datum(value)? {
            Datum::Cell(cell) => self.cell_leaf(cell),
            _ => {
                let of = self.type_number(of)?;
                Leaf::Known(self.place_in(of, value)?)
            }
        };
        all.leaves.push(leaf)?;
        Ok(())
    }

    fn cell_leaf(&self, cell: u32) -> Leaf {
        match get(self.cells.as_slice(), cell) {
            Some(
                Cell {
                    of: _,
                    known: Some(value),
                },
            ) => Leaf::Known(value),
            _ => Leaf::Of(cell),
        }
    }

    /// The field with the label, which most often stands at that place.
    fn field_at(&self, fields: Range, place: u32, label: &str, value: u32) -> Result<u32, Stop> {
        let field = self.field(fields.at(place))?;
        if self.code.label_text(field.label) == label {
            return Ok(field.value);
        }
        Ok(self.field_with(value, label)?.value)
    }

    #[cycle(leaves)]
    fn add_field_leaves(
        &mut self,
        types: &'a [(Name, CType)],
        value: u32,
        all: &mut Outcomes,
    ) -> Result<(), Stop> {
        let fields = self.fields_of(value)?;
        let mut place = 0u32;
        'types: for of in types {
            let field = self.field_at(fields, place, of.0.as_str(), value)?;
            self.add_leaves(&of.1, field, all)?;
            place = place.saturating_add(1);
        }
        Ok(())
    }

    #[cycle(leaves)]
    fn add_item_leaves(
        &mut self,
        of: &'a CType,
        value: u32,
        all: &mut Outcomes,
    ) -> Result<(), Stop> {
        let Datum::Table(_, items) = self.datum(value)? else {
            return Err(Stop::Nothing); // excluded by typing
        };
        'items: for place in items.from..items.to {
            let item = self.part(place)?;
            self.add_leaves(of, item, all)?;
        }
        Ok(())
    }
}
