//! Types of parameters by number, with their values in order.
use crate::data::{Datum, Field, NONE, Range, add, get, number, since};
use crate::machine::Machine;
use gft_core::{Name, NoMemory};
use gft_syntax::{CType, Whole};
use gft_value::{count_of, same_type};
use sqlite_items::Items;
use std::alloc::Global;

/// How many values a type has at most for them to be listed. Typing refuses earlier.
const MOST: u64 = 1_048_576;

/// Types, and the values of each, which stand one after the other. A type of which only the values
/// are known is None.
#[derive(Drop)]
pub struct Types<'a> {
    all: Vec<Option<&'a CType>>,
    values: Vec<Range>,
}

impl<'a> Types<'a> {
    /// No type.
    pub fn new(alloc: Global) -> Types<'a> {
        Types {
            all: Vec::new(alloc),
            values: Vec::new(alloc),
        }
    }

    /// The number of a type that is there.
    pub fn find(&self, of: &CType) -> Option<u32> {
        let mut place = 0u32;
        for one in self.all.iter() {
            if let Some(one) = one {
                if same_type(one, of) {
                    return Some(place);
                }
            }
            place = place.saturating_add(1);
        }
        None
    }

    /// One type more.
    pub fn add(&mut self, of: Option<&'a CType>, values: Range) -> Result<u32, NoMemory> {
        self.all.push(of)?;
        add(&mut self.values, values)
    }

    /// The values of a type.
    pub fn values(&self, of: u32) -> Range {
        get(self.values.as_slice(), of).unwrap_or(NONE)
    }
}

/// How many choices of one value of each there are.
fn product(ranges: &[Range]) -> u32 {
    let mut product = 1u32;
    for range in ranges {
        product = product.saturating_mul(range.count());
    }
    product
}

/// The value at that place of the choice of that number, the last place counting least.
fn chosen(ranges: &[Range], place: usize, choice: u32) -> u32 {
    let Some(range) = ranges.get(place) else {
        return 0; // excluded: places are those of the ranges
    };
    let after = ranges.get(place.saturating_add(1)..).unwrap_or(&[]);
    let above = choice.checked_div(product(after)).unwrap_or(0);
    range.at(above.checked_rem(range.count()).unwrap_or(0))
}

impl<'a> Machine<'a> {
    /// The number of a type, whose values are listed when it is met first. A recursion as deep as
    /// the type.
    #[cycle(types)]
    pub fn type_number(&mut self, of: &'a CType) -> Result<u32, NoMemory> {
        match self.types.find(of) {
            Some(place) => Ok(place),
            None => self.add_type(of),
        }
    }

    #[cycle(types)]
    fn add_type(&mut self, of: &'a CType) -> Result<u32, NoMemory> {
        let values = match of {
            CType::Ints(last) => self.numbers(*last)?,
            CType::Param(_, constructors) => {
                self.constructed(count_of(of), constructors.get().as_slice())?
            }
            CType::Record(fields) => self.records(count_of(of), fields.get().as_slice())?,
            _ => NONE, // excluded by typing: no table is over such a type
        };
        self.keep();
        self.types.add(Some(of), values)
    }

    #[cycle(types)]
    fn constructed(
        &mut self,
        count: u64,
        constructors: &'a [(Whole, Items<CType>)],
    ) -> Result<Range, NoMemory> {
        if count > MOST {
            return Ok(NONE); // excluded by typing: types are small
        }
        'constructors: for constructor in constructors {
            'arguments: for of in constructor.1.as_slice() {
                self.type_number(of)?;
            }
        }
        self.constructor_values(constructors)
    }

    #[cycle(types)]
    fn records(&mut self, count: u64, fields: &'a [(Name, CType)]) -> Result<Range, NoMemory> {
        if count > MOST {
            return Ok(NONE); // excluded by typing: types are small
        }
        'fields: for field in fields {
            self.type_number(&field.1)?;
        }
        self.record_values(fields)
    }

    fn numbers(&mut self, last: u128) -> Result<Range, NoMemory> {
        let from = number(self.data.all.len())?;
        if last >= u128::from(MOST) {
            return Ok(NONE); // excluded by typing: types are small
        }
        for one in 0..=last {
            self.data
                .all
                .push(Datum::Number(u32::try_from(one).unwrap_or(0)))?;
        }
        since(from, self.data.all.len())
    }

    fn add_range(&self, of: &CType, ranges: &mut Vec<Range>) -> Result<(), NoMemory> {
        let range = match self.types.find(of) {
            Some(place) => self.types.values(place),
            None => NONE, // excluded: the types of parts come first
        };
        ranges.push(range)?;
        Ok(())
    }

    fn constructor_values(
        &mut self,
        constructors: &'a [(Whole, Items<CType>)],
    ) -> Result<Range, NoMemory> {
        let from = number(self.data.all.len())?;
        for constructor in constructors {
            let mut ranges = Vec::new(self.alloc);
            for of in constructor.1.as_slice() {
                self.add_range(of, &mut ranges)?;
            }
            let whole = add(&mut self.code.wholes, &constructor.0)?;
            for choice in 0..product(ranges.as_slice()) {
                self.add_constructed(whole, ranges.as_slice(), choice)?;
            }
        }
        since(from, self.data.all.len())
    }

    fn add_constructed(
        &mut self,
        whole: u32,
        ranges: &[Range],
        choice: u32,
    ) -> Result<(), NoMemory> {
        let from = number(self.data.parts.len())?;
        for place in 0..ranges.len() {
            self.data.parts.push(chosen(ranges, place, choice))?;
        }
        let parts = since(from, self.data.parts.len())?;
        self.data.all.push(Datum::Con(whole, parts))?;
        Ok(())
    }

    fn record_values(&mut self, fields: &'a [(Name, CType)]) -> Result<Range, NoMemory> {
        let from = number(self.data.all.len())?;
        let mut ranges = Vec::new(self.alloc);
        let label = number(self.code.labels.len())?;
        for field in fields {
            self.code.labels.push(&field.0)?;
            self.add_range(&field.1, &mut ranges)?;
        }
        for choice in 0..product(ranges.as_slice()) {
            self.add_record(label, ranges.as_slice(), choice)?;
        }
        since(from, self.data.all.len())
    }

    fn add_record(&mut self, label: u32, ranges: &[Range], choice: u32) -> Result<(), NoMemory> {
        let from = number(self.data.fields.len())?;
        let mut label = label;
        for place in 0..ranges.len() {
            let value = chosen(ranges, place, choice);
            self.data.fields.push(Field { label, value })?;
            label = label.saturating_add(1);
        }
        let fields = since(from, self.data.fields.len())?;
        self.data.all.push(Datum::Record(fields))?;
        Ok(())
    }
}
