//! Values as answers.
use crate::data::{Datum, Range, Symbol, get};
use crate::machine::Machine;
use crate::stop::Stop;
use gft_core::{Name, Sym};
use gft_syntax::{Param, Value};
use gft_value::copy_whole;
use sqlite_items::Items;

impl<'a> Machine<'a> {
    /// The value of that number. What a value is made of has smaller numbers. A recursion as deep
    /// as the value.
    #[cycle(answers)]
    pub fn answer(&self, place: u32) -> Result<Value, Stop> {
        match self.datum(place)? {
            Datum::Text(symbols) => self.answer_string(symbols),
            Datum::Record(fields) => self.answer_record(place, fields),
            Datum::Table(of, items) => self.answer_table(place, of, items),
            _ => Ok(Value::Param(self.answer_param(place)?)),
        }
    }

    fn answer_string(&self, symbols: Range) -> Result<Value, Stop> {
        let mut all = Items::new(self.alloc);
        for symbol in self.data.symbols_of(symbols) {
            match symbol {
                Symbol::Part(argument, cell) => all.push(Sym::Arg(*argument, *cell))?,
                Symbol::Word(word) => {
                    if let Some(token) = self.words.token(*word)? {
                        all.push(Sym::Tok(token))?;
                    }
                }
            }
        }
        Ok(Value::Str(all))
    }

    fn answer_label(&self, label: u32) -> Result<Name, Stop> {
        match get(self.code.labels.as_slice(), label) {
            Some(label) => Ok(label.copy(self.alloc)?),
            None => Err(Stop::Nothing), // excluded: labels are named by their numbers
        }
    }

    #[cycle(answers)]
    fn answer_record(&self, place: u32, fields: Range) -> Result<Value, Stop> {
        let mut all = Items::new(self.alloc);
        'fields: for at in fields.from..fields.to {
            let field = self.field(at)?;
            if field.value >= place {
                return Err(Stop::Nothing); // excluded: parts have smaller numbers
            }
            let label = self.answer_label(field.label)?;
            all.push((label, self.answer(field.value)?))?;
        }
        Ok(Value::Record(all))
    }

    #[cycle(answers)]
    fn answer_table(&self, place: u32, of: u32, items: Range) -> Result<Value, Stop> {
        let mut all = Items::new(self.alloc);
        'items: for at in 0..items.count() {
            let item = self.part(items.at(at))?;
            if item >= place {
                return Err(Stop::Nothing); // excluded: parts have smaller numbers
            }
            let key = self.answer_param(self.types.values(of).at(at))?;
            all.push((key, self.answer(item)?))?;
        }
        Ok(Value::Table(all))
    }

    #[cycle(answer_params)]
    fn answer_param(&self, place: u32) -> Result<Param, Stop> {
        match self.datum(place)? {
            Datum::Number(code) => Ok(Param::Ints(self.number_of(code))),
            Datum::Con(whole, args) => self.answer_con(place, whole, args),
            Datum::Record(fields) => self.answer_fields(place, fields),
            _ => Err(Stop::Nothing), // excluded by typing
        }
    }

    #[cycle(answer_params)]
    fn answer_con(&self, place: u32, whole: u32, args: Range) -> Result<Param, Stop> {
        let Some(whole) = get(self.code.wholes.as_slice(), whole) else {
            return Err(Stop::Nothing); // excluded: constructors are named by their numbers
        };
        let name = copy_whole(self.alloc, whole)?;
        let mut all = Items::new(self.alloc);
        'args: for at in args.from..args.to {
            let arg = self.part(at)?;
            if arg >= place {
                return Err(Stop::Nothing); // excluded: parts have smaller numbers
            }
            all.push(self.answer_param(arg)?)?;
        }
        Ok(Param::Con(name, all))
    }

    #[cycle(answer_params)]
    fn answer_fields(&self, place: u32, fields: Range) -> Result<Param, Stop> {
        let mut all = Items::new(self.alloc);
        'fields: for at in fields.from..fields.to {
            let field = self.field(at)?;
            if field.value >= place {
                return Err(Stop::Nothing); // excluded: parts have smaller numbers
            }
            let label = self.answer_label(field.label)?;
            all.push((label, self.answer_param(field.value)?))?;
        }
        Ok(Param::Record(all))
    }
}
