//! Constructors, records and tables made of values, and what is taken from them.
use crate::data::{Datum, Field, Range, get, number, since};
use crate::machine::Machine;
use crate::stop::Stop;
use gft_core::{Name, NoMemory};
use gft_syntax::CType;

impl<'a> Machine<'a> {
    /// The last so many values, taken from the stack, as parts.
    pub fn gather(&mut self, count: u32) -> Result<Range, NoMemory> {
        let first = self.stack.len().saturating_sub(count as usize);
        let from = number(self.data.parts.len())?;
        for place in first..self.stack.len() {
            if let Some(value) = self.stack.get(place).copied() {
                self.data.parts.push(value)?;
            }
        }
        self.stack.truncate(first);
        since(from, self.data.parts.len())
    }

    /// The value of a constructor and the last so many values.
    pub fn make_con(&mut self, whole: u32, count: u32) -> Result<(), Stop> {
        let args = self.gather(count)?;
        self.push_datum(Datum::Con(whole, args))
    }

    /// The table over the type with the last so many values.
    pub fn make_table(&mut self, of: u32, count: u32) -> Result<(), Stop> {
        let items = self.gather(count)?;
        self.push_datum(Datum::Table(of, items))
    }

    /// The record of the last values: `layout` says of each label in order which of these it has.
    pub fn make_record(&mut self, layout: Range) -> Result<(), Stop> {
        let first = self.stack.len().saturating_sub(layout.count() as usize);
        let from = number(self.data.fields.len())?;
        for place in layout.from..layout.to {
            let Some(field) = get(self.code.layout.as_slice(), place) else {
                return Err(Stop::Nothing); // excluded: the layout was read
            };
            let at = first.saturating_add(field.value as usize);
            let value = self.stack.get(at).copied().unwrap_or(u32::MAX);
            self.data.fields.push(Field {
                label: field.label,
                value,
            })?;
        }
        self.stack.truncate(first);
        let fields = since(from, self.data.fields.len())?;
        self.push_datum(Datum::Record(fields))
    }

    /// The fields of a record.
    pub fn fields_of(&self, record: u32) -> Result<Range, Stop> {
        match self.datum(record)? {
            Datum::Record(fields) => Ok(fields),
            _ => Err(Stop::Nothing), // excluded by typing
        }
    }

    /// The part at that place.
    pub fn part(&self, place: u32) -> Result<u32, Stop> {
        match get(self.data.parts.as_slice(), place) {
            Some(part) => Ok(part),
            None => Err(Stop::Nothing), // excluded: the parts of a value were made
        }
    }

    /// The field at that place.
    pub fn field(&self, place: u32) -> Result<Field, Stop> {
        match get(self.data.fields.as_slice(), place) {
            Some(field) => Ok(field),
            None => Err(Stop::Nothing), // excluded: the fields of a record were made
        }
    }

    /// The field of a record with the label.
    pub fn field_with(&self, record: u32, label: &str) -> Result<Field, Stop> {
        let fields = self.fields_of(record)?;
        for place in fields.from..fields.to {
            let field = self.field(place)?;
            if self.code.label_text(field.label) == label {
                return Ok(field);
            }
        }
        Err(Stop::Nothing) // excluded by typing
    }

    /// The value that a record, taken from the stack, has at the label.
    pub fn project(&mut self, label: u32) -> Result<(), Stop> {
        let record = self.pop()?;
        let field = self.field_with(record, self.code.label_text(label))?;
        self.push(field.value)
    }

    /// Adds the fields of the second record that stand before the label, and gives the place after
    /// them.
    fn fields_before(&mut self, fields: Range, label: u32) -> Result<u32, Stop> {
        for place in fields.from..fields.to {
            let field = self.field(place)?;
            if self.code.label_text(field.label) >= self.code.label_text(label) {
                return Ok(place);
            }
            self.data.fields.push(field)?;
        }
        Ok(fields.to)
    }

    /// Whether the first of the fields has the label.
    fn begins_with(&self, fields: Range, label: u32) -> Result<bool, Stop> {
        if fields.count() == 0 {
            return Ok(false);
        }
        let field = self.field(fields.from)?;
        Ok(self.code.label_text(field.label) == self.code.label_text(label))
    }

    /// The record with the fields of both, those of the second where a label is in both.
    pub fn extend(&mut self, left: u32, right: u32) -> Result<(), Stop> {
        let ours = self.fields_of(left)?;
        let mut theirs = self.fields_of(right)?;
        let from = number(self.data.fields.len())?;
        for place in ours.from..ours.to {
            let field = self.field(place)?;
            theirs.from = self.fields_before(theirs, field.label)?;
            if !self.begins_with(theirs, field.label)? {
                self.data.fields.push(field)?;
            }
        }
        for place in theirs.from..theirs.to {
            let field = self.field(place)?;
            self.data.fields.push(field)?;
        }
        let fields = since(from, self.data.fields.len())?;
        self.push_datum(Datum::Record(fields))
    }

    /// The item of a table for a value of the type that it is over.
    pub fn select(&mut self, table: u32, value: u32) -> Result<(), Stop> {
        let Datum::Table(of, items) = self.datum(table)? else {
            return Err(Stop::Nothing); // excluded by typing
        };
        let place = self.place_in(of, value)?;
        if place >= items.count() {
            return Err(Stop::Nothing); // excluded by typing: there is an item for each value
        }
        let item = self.part(items.at(place))?;
        self.push(item)
    }

    /// The value on the stack, cut to the type of that number.
    pub fn cut_to(&mut self, to: u32) -> Result<(), Stop> {
        let value = self.pop()?;
        match get(self.code.cuts.as_slice(), to) {
            Some(to) => self.cut(value, to),
            None => Err(Stop::Nothing), // excluded: the type was read
        }
    }

    /// Puts a value, cut to the labels of the type, on the stack. A recursion as deep as the type.
    #[cycle(cut)]
    fn cut(&mut self, value: u32, to: &CType) -> Result<(), Stop> {
        match to {
            CType::Record(fields) => self.cut_record(value, fields.get().as_slice()),
            CType::Table(_, items) => self.cut_table(value, items.get()),
            _ => self.push(value),
        }
    }

    #[cycle(cut)]
    fn cut_record(&mut self, record: u32, types: &[(Name, CType)]) -> Result<(), Stop> {
        let mut count = 0u32;
        'types: for of in types {
            let field = self.field_with(record, of.0.as_str())?;
            self.push(field.label)?;
            self.cut(field.value, &of.1)?;
            count = count.saturating_add(1);
        }
        self.gather_fields(count)
    }

    /// The record of the last so many labels with their values.
    pub fn gather_fields(&mut self, count: u32) -> Result<(), Stop> {
        let first = self
            .stack
            .len()
            .saturating_sub((count as usize).saturating_mul(2));
        let from = number(self.data.fields.len())?;
        let mut at = first;
        for _ in 0..count {
            let label = self.stack.get(at).copied().unwrap_or(0);
            let value = self.stack.get(at.saturating_add(1)).copied().unwrap_or(0);
            self.data.fields.push(Field { label, value })?;
            at = at.saturating_add(2);
        }
        self.stack.truncate(first);
        let fields = since(from, self.data.fields.len())?;
        self.push_datum(Datum::Record(fields))
    }

    #[cycle(cut)]
    fn cut_table(&mut self, table: u32, to: &CType) -> Result<(), Stop> {
        let Datum::Table(of, items) = self.datum(table)? else {
            return Err(Stop::Nothing); // excluded by typing
        };
        'items: for place in items.from..items.to {
            let item = self.part(place)?;
            self.cut(item, to)?;
        }
        self.make_table(of, items.count())
    }
}
