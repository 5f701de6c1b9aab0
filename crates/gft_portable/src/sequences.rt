//! Sequences of words and components of arguments, read.
use crate::fault::ReadErr;
use crate::field::{Reader, Span, bad};
use crate::items::Ascending;
use crate::output::{count, part_of};
use crate::terms::push;
use gft_core::{NoMemory, Shared, Sym};
use gft_rules::Rule;
use sqlite_items::Items;
use std::alloc::Global;

/// A word, or a component of an argument.
#[derive(Clone, Copy)]
enum Symbol {
    Tok(Span),
    Arg(u32, u32),
}

/// A sequence: where it begins in the file, where its symbols and what it asks for stand among
/// those of all, and whether something names it.
#[derive(Clone, Copy)]
struct Sequence {
    at: u32,
    from: u32,
    to: u32,
    needs_from: u32,
    needs_to: u32,
    is_used: bool,
}

/// An argument, and the greatest component of it that a sequence has. The order is that of
/// arguments.
#[derive(Clone, Copy, PartialEq, Eq, PartialOrd, Ord)]
struct Need {
    argument: u32,
    component: u32,
}

/// The sequences of a language, by number.
#[derive(Drop)]
pub struct Sequences {
    symbols: Vec<Symbol>,
    needs: Vec<Need>,
    all: Vec<Sequence>,
}

impl Sequences {
    /// No sequence yet.
    pub fn new(alloc: Global) -> Sequences {
        Sequences {
            symbols: Vec::new(alloc),
            needs: Vec::new(alloc),
            all: Vec::new(alloc),
        }
    }

    /// How many sequences there are.
    pub fn len(&self) -> u32 {
        count(self.all.len())
    }

    /// One more symbol; true where it is a component. Where dimensions of arguments are given it is
    /// one of those.
    fn read_symbol(&mut self, reader: &mut Reader, dims: Option<&[u32]>) -> Result<bool, ReadErr> {
        let at = reader.at();
        let tag = reader.tag()?;
        let symbol = match tag {
            0 => Symbol::Tok(reader.token()?),
            1 => read_component(reader, dims)?,
            _ => return Err(bad(Rule::BadTag, at)),
        };
        push(&mut self.symbols, symbol)?;
        Ok(tag == 1)
    }

    /// Reads one more sequence, and gives its number.
    pub fn read(
        &mut self,
        alloc: Global,
        reader: &mut Reader,
        dims: Option<&[u32]>,
    ) -> Result<u32, ReadErr> {
        let (at, from) = (reader.at(), count(self.symbols.len()));
        let many = reader.number()?;
        let mut has_components = false;
        for _ in 0..many {
            let is_component = self.read_symbol(reader, dims)?;
            has_components = has_components || is_component;
        }
        let to = count(self.symbols.len());
        let needs_from = count(self.needs.len());
        if has_components && dims.is_none() {
            self.add_needs(alloc, from, to)?;
        }
        let number = self.len();
        let sequence = Sequence {
            at,
            from,
            to,
            needs_from,
            needs_to: count(self.needs.len()),
            is_used: false,
        };
        push(&mut self.all, sequence)?;
        Ok(number)
    }

    /// What the symbols ask for, argument by argument.
    fn add_needs(&mut self, alloc: Global, from: u32, to: u32) -> Result<(), ReadErr> {
        let mut needs = Vec::new(alloc);
        for symbol in part_of(self.symbols.as_slice(), from, to) {
            if let Symbol::Arg(argument, component) = *symbol {
                push(
                    &mut needs,
                    Need {
                        argument,
                        component,
                    },
                )?;
            }
        }
        needs.sort_unstable();
        for place in 0..needs.len() {
            if is_last_of_argument(needs.as_slice(), place) {
                push(&mut self.needs, needs[place])?;
            }
        }
        Ok(())
    }

    /// Reads the sequences of a language, which are in order.
    pub fn read_all(&mut self, alloc: Global, reader: &mut Reader) -> Result<(), ReadErr> {
        let many = reader.number()?;
        let mut order = Ascending::new();
        for _ in 0..many {
            let at = reader.at();
            self.read(alloc, reader, None)?;
            order.add_whole(reader, at)?;
        }
        Ok(())
    }

    /// The number of a sequence whose components the arguments have.
    pub fn read_number(&mut self, reader: &mut Reader, dims: &[u32]) -> Result<u32, ReadErr> {
        let at = reader.at();
        let number = reader.number()?;
        let Some(sequence) = self.all.get_mut(number as usize) else {
            return Err(bad(Rule::BadNumber, at));
        };
        sequence.is_used = true;
        let needs = self.needs.as_slice();
        for need in part_of(needs, sequence.needs_from, sequence.needs_to) {
            if !has_component(dims, *need) {
                return Err(bad(Rule::BadNumber, at));
            }
        }
        Ok(number)
    }

    /// Where the first sequence stands that nothing names.
    pub fn unused(&self) -> Option<u32> {
        for sequence in self.all.as_slice() {
            if !sequence.is_used {
                return Some(sequence.at);
            }
        }
        None
    }

    /// The sequences themselves, by number.
    pub fn made(&self, alloc: Global, reader: &Reader) -> Result<Vec<Shared<Items<Sym>>>, ReadErr> {
        let mut made = Vec::with_capacity(alloc, self.all.len())?;
        for sequence in self.all.as_slice() {
            let symbols = part_of(self.symbols.as_slice(), sequence.from, sequence.to);
            let items = symbols_of(alloc, reader, symbols)?;
            push(&mut made, Shared::new(alloc, items)?)?;
        }
        Ok(made)
    }
}

/// Whether the need is the last one of its argument.
fn is_last_of_argument(needs: &[Need], place: usize) -> bool {
    match (needs.get(place), needs.get(place.saturating_add(1))) {
        (Some(need), Some(next)) => need.argument != next.argument,
        (_, _) => true,
    }
}

fn has_component(dims: &[u32], need: Need) -> bool {
    match dims.get(need.argument as usize) {
        None => false,
        Some(dim) => need.component < *dim,
    }
}

fn read_component(reader: &mut Reader, dims: Option<&[u32]>) -> Result<Symbol, ReadErr> {
    let Some(dims) = dims else {
        let argument = reader.number()?;
        return Ok(Symbol::Arg(argument, reader.number()?));
    };
    let argument = reader.below(count(dims.len()))?;
    let dim = match dims.get(argument as usize) {
        None => 0, // the argument is below their number
        Some(dim) => *dim,
    };
    Ok(Symbol::Arg(argument, reader.below(dim)?))
}

fn symbol_of(alloc: Global, reader: &Reader, symbol: Symbol) -> Result<Sym, ReadErr> {
    match symbol {
        Symbol::Tok(span) => Ok(Sym::Tok(reader.token_at(alloc, span)?)),
        Symbol::Arg(argument, component) => Ok(Sym::Arg(argument, component)),
    }
}

fn symbols_of(alloc: Global, reader: &Reader, symbols: &[Symbol]) -> Result<Items<Sym>, ReadErr> {
    let mut items = Vec::with_capacity(alloc, symbols.len())?;
    for symbol in symbols {
        push(&mut items, symbol_of(alloc, reader, *symbol)?)?;
    }
    Ok(Items::from_vec(items))
}

/// The sequences of these numbers.
pub fn shared(
    alloc: Global,
    made: &[Shared<Items<Sym>>],
    numbers: &[u32],
) -> Result<Items<Shared<Items<Sym>>>, NoMemory> {
    let mut all = Vec::with_capacity(alloc, numbers.len())?;
    for number in numbers {
        if let Some(seq) = made.get(*number as usize) {
            all.push(seq.share()?)?;
        }
    }
    Ok(Items::from_vec(all))
}
