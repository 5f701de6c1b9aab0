//! Arguments of which only the type is known: closed parts and unknown parameters.
use crate::data::{Datum, NONE, Symbol, add, number, since};
use crate::machine::{Cell, Machine};
use crate::stop::Stop;
use gft_core::{Name, NoMemory};
use gft_syntax::CType;

impl<'a> Machine<'a> {
    /// One argument more of the type. Its string cells are the closed parts `Part(argument, 0)`,
    /// `Part(argument, 1)` and so on; its parameter cells are numbered on through all arguments,
    /// and nothing is known of them. The type has few cells. A recursion as deep as the type.
    pub fn add_argument(&mut self, of: &'a CType) -> Result<(), NoMemory> {
        self.strings = 0;
        match self.add_cells(of) {
            Ok(()) => self.end_argument(),
            Err(_) => Err(NoMemory), // nothing else stops this
        }
    }

    fn end_argument(&mut self) -> Result<(), NoMemory> {
        if let Some(value) = self.stack.pop() {
            self.args.push(value)?;
        }
        self.stay();
        Ok(())
    }

    #[cycle(arguments)]
    fn add_cells(&mut self, of: &'a CType) -> Result<(), Stop> {
        match of {
            CType::Str => self.add_closed(),
            CType::Param(_, _) => self.add_cell(of),
            CType::Ints(_) => self.add_cell(of),
            CType::Record(fields) => self.add_fields(fields.get().as_slice()),
            CType::Table(over, items) => {
                let of = self.type_number(over.get())?;
                self.add_items(of, items.get())
            }
            // a sort has no cell, and a function is excluded by typing
            _ => self.push_datum(Datum::Record(NONE)),
        }
    }

    fn add_closed(&mut self) -> Result<(), Stop> {
        let from = number(self.data.symbols.len())?;
        let argument = number(self.args.len())?;
        self.data
            .symbols
            .push(Symbol::Part(argument, self.strings))?;
        self.strings = self.strings.saturating_add(1);
        let symbols = since(from, self.data.symbols.len())?;
        self.push_datum(Datum::Text(symbols))
    }

    fn add_cell(&mut self, of: &'a CType) -> Result<(), Stop> {
        let of = self.type_number(of)?;
        let cell = add(&mut self.cells, Cell { of, known: None })?;
        self.push_datum(Datum::Cell(cell))
    }

    #[cycle(arguments)]
    fn add_fields(&mut self, fields: &'a [(Name, CType)]) -> Result<(), Stop> {
        let mut count = 0u32;
        'fields: for field in fields {
            let label = add(&mut self.code.labels, &field.0)?;
            self.push(label)?;
            self.add_cells(&field.1)?;
            count = count.saturating_add(1);
        }
        self.gather_fields(count)
    }

    #[cycle(arguments)]
    fn add_items(&mut self, of: u32, items: &'a CType) -> Result<(), Stop> {
        let count = self.types.values(of).count();
        'items: for _ in 0..count {
            self.add_cells(items)?;
        }
        self.make_table(of, count)
    }
}
