//! Equal values, and the place of a value in the order of its type.
use crate::data::{Datum, Range, get};
use crate::machine::Machine;
use crate::stop::Stop;

impl<'a> Machine<'a> {
    /// Whether two values are equal. Parameter cells within them are asked for. What is left to
    /// compare lies on a stack.
    pub fn same(&mut self, one: u32, other: u32) -> Result<bool, Stop> {
        self.pairs.clear();
        self.pairs.push((one, other))?;
        for _ in 0..u64::MAX {
            match self.pairs.pop() {
                None => return Ok(true),
                Some(pair) => {
                    if !self.same_heads(pair.0, pair.1)? {
                        return Ok(false);
                    }
                }
            }
        }
        Ok(false) // excluded: no value is so large
    }

    /// Whether two values are equal but for their parts, which are compared later.
    fn same_heads(&mut self, one: u32, other: u32) -> Result<bool, Stop> {
        if one == other {
            return Ok(true);
        }
        let other = self.datum(self.resolved(other)?)?;
        match self.datum(self.resolved(one)?)? {
            Datum::Text(ours) => Ok(self.same_text(ours, other)),
            Datum::Number(code) => Ok(matches!(other, Datum::Number(theirs) if theirs == code)),
            Datum::Con(whole, ours) => self.same_con(whole, ours, other),
            Datum::Record(ours) => self.same_record(ours, other),
            Datum::Table(_, ours) => self.same_table(ours, other),
            Datum::Cell(_) => Ok(false), // excluded by `resolved`
        }
    }

    fn same_text(&self, ours: Range, other: Datum) -> bool {
        match other {
            Datum::Text(theirs) => self.data.symbols_of(ours) == self.data.symbols_of(theirs),
            _ => false, // excluded by typing
        }
    }

    fn same_con(&mut self, whole: u32, ours: Range, other: Datum) -> Result<bool, Stop> {
        match other {
            Datum::Con(name, theirs) if self.same_wholes(whole, name) => {
                self.compare_parts(ours, theirs)
            }
            _ => Ok(false),
        }
    }

    fn same_wholes(&self, one: u32, other: u32) -> bool {
        if one == other {
            return true;
        }
        match get(self.code.wholes.as_slice(), other) {
            Some(other) => self.is_whole(one, other),
            None => false, // excluded: constructors are named by their numbers
        }
    }

    fn same_table(&mut self, ours: Range, other: Datum) -> Result<bool, Stop> {
        match other {
            Datum::Table(_, theirs) => self.compare_parts(ours, theirs),
            _ => Ok(false), // excluded by typing
        }
    }

    /// Leaves the parts to be compared; false where one value has more of them.
    fn compare_parts(&mut self, ours: Range, theirs: Range) -> Result<bool, Stop> {
        if ours.count() != theirs.count() {
            return Ok(false);
        }
        for place in 0..ours.count() {
            let one = self.part(ours.at(place))?;
            let two = self.part(theirs.at(place))?;
            self.pairs.push((one, two))?;
        }
        Ok(true)
    }

    fn same_record(&mut self, ours: Range, other: Datum) -> Result<bool, Stop> {
        let Datum::Record(theirs) = other else {
            return Ok(false); // excluded by typing
        };
        if ours.count() != theirs.count() {
            return Ok(false);
        }
        for place in 0..ours.count() {
            let one = self.field(ours.at(place))?;
            let two = self.field(theirs.at(place))?;
            self.pairs.push((one.value, two.value))?;
        }
        Ok(true)
    }

    /// The number of a value in the order of its type. Parameter cells within it are asked for.
    pub fn place_in(&mut self, of: u32, value: u32) -> Result<u32, Stop> {
        let value = self.resolved(value)?;
        let values = self.types.values(of);
        if values.from <= value && value < values.to {
            return Ok(value.saturating_sub(values.from));
        }
        if let Datum::Number(code) = self.datum(value)? {
            return Ok(code);
        }
        for place in 0..values.count() {
            if self.same(value, values.at(place))? {
                return Ok(place);
            }
        }
        Err(Stop::Nothing) // excluded by typing
    }
}
