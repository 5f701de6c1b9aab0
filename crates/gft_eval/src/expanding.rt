//! Terms read one level at a time, where a run comes to them.
use crate::data::{Field, Range, add, get, number, since};
use crate::machine::Machine;
use crate::node::{Node, Operation};
use gft_core::{Name, NoMemory, Place, Shared, Token};
use gft_syntax::{Branches, CType, LinTerm, Pattern, Whole};
use sqlite_items::Items;

impl<'a> Machine<'a> {
    /// What a node is.
    pub fn node(&mut self, place: u32) -> Result<Node, NoMemory> {
        match get(self.code.nodes.as_slice(), place) {
            Some(Node::Unread) => {}
            Some(node) => return Ok(node),
            None => return Ok(Node::Nothing), // excluded: nodes are named by their numbers
        }
        let Some(term) = get(self.code.terms.as_slice(), place) else {
            return Ok(Node::Nothing); // excluded: each node has a term
        };
        let node = self.read(term)?;
        self.code.set(place, node);
        Ok(node)
    }

    fn read(&mut self, term: &'a LinTerm) -> Result<Node, NoMemory> {
        match term {
            LinTerm::Var(back) => Ok(Node::Var(*back)),
            LinTerm::Arg(argument) => Ok(Node::Arg(*argument)),
            LinTerm::Words(words) => self.read_words(words.get().as_slice()),
            LinTerm::Num(one) => Ok(Node::Number(self.code_of(*one)?)),
            LinTerm::Con(name, args) => self.read_con(name.get(), args.get().as_slice()),
            LinTerm::Concat(a, b) => self.read_both(Operation::Concat, a.get(), b.get()),
            LinTerm::Glue(a, b, place) => {
                self.read_both(Operation::Glue(*place), a.get(), b.get())
            }
            LinTerm::Predef(which, n, s, place) => {
                self.read_both(Operation::Predef(*which, *place), n.get(), s.get())
            }
            LinTerm::Record(fields) => self.read_record(fields.get().as_slice()),
            LinTerm::Extend(a, b) => self.read_both(Operation::Extend, a.get(), b.get()),
            LinTerm::Proj(record, label) => self.read_proj(record.get(), label.get()),
            LinTerm::Table(over, branches) => self.read_table(over, branches.get()),
            LinTerm::Select(a, b) => self.read_both(Operation::Select, a.get(), b.get()),
            LinTerm::Case(at, branches, place) => {
                self.read_case(at.get(), branches.get(), *place)
            }
            LinTerm::Variants(members) => self.read_variants(members.get().as_slice()),
            LinTerm::Let(terms, body) => self.read_let(terms.get().as_slice(), body.get()),
            LinTerm::Cut(inner, _, to) => self.read_cut(inner.get(), to),
            // excluded by `normal`: there are no opers and no functions
            LinTerm::Oper(_) => Ok(Node::Nothing),
            LinTerm::Lambda(_, _) => Ok(Node::Nothing),
            LinTerm::App(_, _) => Ok(Node::Nothing),
        }
    }

    /// The code of a number: itself, or for a great one the place where it is kept.
    pub fn code_of(&mut self, one: u128) -> Result<u32, NoMemory> {
        if let Ok(code) = u32::try_from(one) {
            if code < GREAT {
                return Ok(code);
            }
        }
        let mut place = 0u32;
        for large in self.larges.iter() {
            if *large == one {
                return Ok(GREAT.saturating_add(place));
            }
            place = place.saturating_add(1);
        }
        self.larges.push(one)?;
        Ok(GREAT.saturating_add(place))
    }

    /// The number that has the code.
    pub fn number_of(&self, code: u32) -> u128 {
        match code.checked_sub(GREAT) {
            None => u128::from(code),
            Some(place) => get(self.larges.as_slice(), place).unwrap_or(u128::MAX),
        }
    }

    fn read_words(&mut self, words: &[Token]) -> Result<Node, NoMemory> {
        let from = number(self.code.literals.len())?;
        for word in words {
            let begin = number(self.words.letters.len())?;
            self.words.push_text(word.as_str())?;
            let word = self.words.word_since(begin)?;
            self.code.literals.push(word)?;
        }
        Ok(Node::Words(since(from, self.code.literals.len())?))
    }

    fn read_con(&mut self, name: &'a Whole, args: &'a [LinTerm]) -> Result<Node, NoMemory> {
        let whole = add(&mut self.code.wholes, name)?;
        Ok(Node::Con(whole, self.code.add_all(args)?))
    }

    fn read_both(
        &mut self,
        operation: Operation,
        a: &'a LinTerm,
        b: &'a LinTerm,
    ) -> Result<Node, NoMemory> {
        let first = self.code.add(a)?;
        self.code.add(b)?;
        Ok(Node::Both(operation, first))
    }

    fn read_record(&mut self, fields: &'a [(Shared<Name>, LinTerm)]) -> Result<Node, NoMemory> {
        let from = number(self.code.layout.len())?;
        let mut nodes = Range { from: 0, to: 0 };
        let mut place = 0u32;
        for field in fields {
            let node = self.code.add(&field.1)?;
            if place == 0 {
                nodes.from = node;
            }
            nodes.to = node.saturating_add(1);
            let label = add(&mut self.code.labels, field.0.get())?;
            self.add_to_layout(
                from,
                Field {
                    label,
                    value: place,
                },
            )?;
            place = place.saturating_add(1);
        }
        Ok(Node::Record(since(from, self.code.layout.len())?, nodes))
    }

    /// Adds a field to those since that place, which stand in byte order of their labels.
    fn add_to_layout(&mut self, from: u32, field: Field) -> Result<(), NoMemory> {
        let end = add(&mut self.code.layout, field)?;
        for place in (from..end).rev() {
            let Some(before) = get(self.code.layout.as_slice(), place) else {
                return Ok(()); // excluded: the place is before the last one
            };
            if self.code.label_text(before.label) <= self.code.label_text(field.label) {
                return Ok(());
            }
            self.set_layout(place, field);
            self.set_layout(place.saturating_add(1), before);
        }
        Ok(())
    }

    fn set_layout(&mut self, place: u32, field: Field) {
        if let Some(one) = self.code.layout.get_mut(place as usize) {
            *one = field;
        }
    }

    fn read_proj(&mut self, record: &'a LinTerm, label: &'a Name) -> Result<Node, NoMemory> {
        let node = self.code.add(record)?;
        let label = add(&mut self.code.labels, label)?;
        Ok(Node::Proj(node, label))
    }

    /// The bodies of branches, and their first pattern.
    fn read_branches(
        &mut self,
        branches: &'a [(Shared<Pattern>, LinTerm)],
    ) -> Result<(u32, Range), NoMemory> {
        let first = number(self.code.patterns.len())?;
        let mut bodies = Range { from: 0, to: 0 };
        for branch in branches {
            let body = self.code.add(&branch.1)?;
            if bodies.to == 0 {
                bodies.from = body;
            }
            bodies.to = body.saturating_add(1);
            self.code.patterns.push(branch.0.get())?;
        }
        Ok((first, bodies))
    }

    fn read_table(
        &mut self,
        over: &'a CType,
        branches: &'a Branches<LinTerm>,
    ) -> Result<Node, NoMemory> {
        match branches {
            Branches::Matched(matched) => {
                let of = self.type_number(over)?;
                let (first, bodies) = self.read_branches(matched.as_slice())?;
                Ok(Node::Table(of, first, bodies))
            }
            Branches::Listed(listed, items) => {
                let of = self.type_number(listed)?;
                Ok(Node::Listed(of, self.read_items(of, items)?))
            }
        }
    }

    /// The items for the values of the type: those past its last value are not evaluated.
    fn read_items(&mut self, of: u32, items: &'a Items<LinTerm>) -> Result<Range, NoMemory> {
        let range = self.code.add_all(items.as_slice())?;
        let count = range.count().min(self.types.values(of).count());
        Ok(Range {
            from: range.from,
            to: range.at(count),
        })
    }

    fn read_case(
        &mut self,
        at: &'a LinTerm,
        branches: &'a Branches<LinTerm>,
        place: Place,
    ) -> Result<Node, NoMemory> {
        let selector = self.code.add(at)?;
        match branches {
            Branches::Matched(matched) => {
                let (first, bodies) = self.read_branches(matched.as_slice())?;
                Ok(Node::Case(selector, first, bodies, place))
            }
            Branches::Listed(listed, items) => {
                let of = self.type_number(listed)?;
                Ok(Node::Item(selector, of, self.read_items(of, items)?))
            }
        }
    }

    fn read_variants(&mut self, members: &'a [LinTerm]) -> Result<Node, NoMemory> {
        Ok(Node::Variants(self.code.add_all(members)?))
    }

    fn read_let(&mut self, terms: &'a [LinTerm], body: &'a LinTerm) -> Result<Node, NoMemory> {
        let terms = self.code.add_all(terms)?;
        Ok(Node::Let(terms, self.code.add(body)?))
    }

    fn read_cut(&mut self, inner: &'a LinTerm, to: &'a CType) -> Result<Node, NoMemory> {
        let node = self.code.add(inner)?;
        Ok(Node::Cut(node, add(&mut self.code.cuts, to)?))
    }
}

/// The codes from this one on are those of great numbers.
const GREAT: u32 = 0x8000_0000;
