//! Public terms built from the table, each after its parts.
use crate::node::Node;
use crate::parts::no_outcome;
use crate::table::Nodes;
use gft_core::{NoMemory, Place, Shared};
use gft_forms::{Forms, Span};
use gft_syntax::{Branches, LinTerm, Predef};
use gft_types::{TypeId, Types};
use sqlite_items::Items;
use std::alloc::Global;

/// A term that is built.
type Built = Result<LinTerm, NoMemory>;

/// Two parts of a term.
type Both = Result<(Shared<LinTerm>, Shared<LinTerm>), NoMemory>;

/// The innermost so many variables, the last one innermost.
fn variables(alloc: Global, count: u32) -> Result<Items<LinTerm>, NoMemory> {
    let mut all = Items::new(alloc);
    for at in 0..count {
        all.push(LinTerm::Var(count - 1 - at))?;
    }
    Ok(all)
}

/// A function of so many arguments.
fn lambda(alloc: Global, count: u32, body: LinTerm) -> Built {
    if count == 0 {
        return Ok(body);
    }
    Ok(LinTerm::Lambda(count, Shared::new(alloc, body)?))
}

/// A predefined function as a function of two arguments.
fn function(alloc: Global, which: Predef, place: Place) -> Built {
    let number = Shared::new(alloc, LinTerm::Var(1))?;
    let text = Shared::new(alloc, LinTerm::Var(0))?;
    lambda(alloc, 2, LinTerm::Predef(which, number, text, place))
}

/// A literal.
fn words(alloc: Global, forms: &Forms, literal: u32) -> Built {
    match forms.literal(literal)? {
        None => no_outcome(alloc), // excluded by forms: literals are numbered as they are added
        Some(words) => Ok(LinTerm::Words(words)),
    }
}

/// A constructor with these arguments.
fn con(alloc: Global, types: &Types, constructor: u32, arguments: Items<LinTerm>) -> Built {
    match types.constructor_name(constructor)? {
        None => no_outcome(alloc), // excluded by types: a constructor has a name
        Some(name) => Ok(LinTerm::Con(name, Shared::new(alloc, arguments)?)),
    }
}

/// What stands for a type: the empty record.
fn unit(alloc: Global) -> Built {
    Ok(LinTerm::Record(Shared::new(alloc, Items::new(alloc))?))
}

impl Nodes {
    fn both(&self, alloc: Global, left: u32, right: u32) -> Both {
        let left = self.shared(alloc, left)?;
        Ok((left, self.shared(alloc, right)?))
    }

    fn concat(&self, alloc: Global, left: u32, right: u32) -> Built {
        let both = self.both(alloc, left, right)?;
        Ok(LinTerm::Concat(both.0, both.1))
    }

    fn glue(&self, alloc: Global, left: u32, right: u32, place: Place) -> Built {
        let both = self.both(alloc, left, right)?;
        Ok(LinTerm::Glue(both.0, both.1, place))
    }

    fn extend(&self, alloc: Global, left: u32, right: u32) -> Built {
        let both = self.both(alloc, left, right)?;
        Ok(LinTerm::Extend(both.0, both.1))
    }

    fn select(&self, alloc: Global, table: u32, at: u32) -> Built {
        let both = self.both(alloc, table, at)?;
        Ok(LinTerm::Select(both.0, both.1))
    }

    fn predef(&self, alloc: Global, which: Predef, both: (u32, u32), place: Place) -> Built {
        let both = self.both(alloc, both.0, both.1)?;
        Ok(LinTerm::Predef(which, both.0, both.1, place))
    }

    fn maker(&self, alloc: Global, types: &Types, constructor: u32, arity: u32) -> Built {
        let whole = con(alloc, types, constructor, variables(alloc, arity)?)?;
        lambda(alloc, arity, whole)
    }

    fn con(&self, alloc: Global, types: &Types, constructor: u32, given: Span) -> Built {
        let arguments = self.terms(alloc, given)?;
        con(alloc, types, constructor, arguments)
    }

    fn record(&self, alloc: Global, types: &Types, list: Span) -> Built {
        Ok(LinTerm::Record(self.fields(alloc, types, list)?))
    }

    fn proj(&self, alloc: Global, types: &Types, record: u32, label: u32) -> Built {
        match types.names.shared(label)? {
            None => no_outcome(alloc), // excluded by types: a label has a name
            Some(label) => Ok(LinTerm::Proj(self.shared(alloc, record)?, label)),
        }
    }

    fn branches(
        &self,
        alloc: Global,
        forms: &Forms,
        list: Span,
    ) -> Result<Shared<Branches<LinTerm>>, NoMemory> {
        let matched = self.matched(alloc, forms, list)?;
        Shared::new(alloc, Branches::Matched(matched))
    }

    fn listed_branches(
        &self,
        alloc: Global,
        types: &mut Types,
        over: TypeId,
        list: Span,
    ) -> Result<Shared<Branches<LinTerm>>, NoMemory> {
        let terms = self.terms(alloc, list)?;
        let over = types.owned(alloc, over)?;
        Shared::new(alloc, Branches::Listed(over, terms))
    }

    fn table(
        &self,
        alloc: Global,
        forms: &Forms,
        types: &mut Types,
        over: TypeId,
        list: Span,
    ) -> Built {
        let branches = self.branches(alloc, forms, list)?;
        Ok(LinTerm::Table(types.owned(alloc, over)?, branches))
    }

    fn table_list(&self, alloc: Global, types: &mut Types, over: TypeId, list: Span) -> Built {
        let branches = self.listed_branches(alloc, types, over, list)?;
        Ok(LinTerm::Table(types.owned(alloc, over)?, branches))
    }

    fn case(&self, alloc: Global, forms: &Forms, at: u32, list: Span, place: Place) -> Built {
        let branches = self.branches(alloc, forms, list)?;
        Ok(LinTerm::Case(self.shared(alloc, at)?, branches, place))
    }

    fn case_list(
        &self,
        alloc: Global,
        types: &mut Types,
        at: u32,
        over: TypeId,
        list: Span,
        place: Place,
    ) -> Built {
        let branches = self.listed_branches(alloc, types, over, list)?;
        Ok(LinTerm::Case(self.shared(alloc, at)?, branches, place))
    }

    fn variants(&self, alloc: Global, list: Span) -> Built {
        Ok(LinTerm::Variants(self.shared_terms(alloc, list)?))
    }

    fn let_in(&self, alloc: Global, list: Span, body: u32) -> Built {
        if list.count == 0 {
            return self.copied(alloc, body);
        }
        let terms = self.shared_terms(alloc, list)?;
        Ok(LinTerm::Let(terms, self.shared(alloc, body)?))
    }

    fn cut(&self, alloc: Global, types: &mut Types, term: u32, of: TypeId, given: TypeId) -> Built {
        let term = self.shared(alloc, term)?;
        let of = types.owned(alloc, of)?;
        Ok(LinTerm::Cut(term, of, types.owned(alloc, given)?))
    }

    fn lambda(&self, alloc: Global, count: u32, body: u32) -> Built {
        Ok(LinTerm::Lambda(count, self.shared(alloc, body)?))
    }

    fn app(&self, alloc: Global, head: u32, list: Span) -> Built {
        let arguments = self.shared_terms(alloc, list)?;
        Ok(LinTerm::App(self.shared(alloc, head)?, arguments))
    }

    /// The term of a node whose parts are built.
    fn term(&self, alloc: Global, forms: &Forms, types: &mut Types, node: Node) -> Built {
        match node {
            Node::Var(back) => Ok(LinTerm::Var(back)),
            Node::Words(literal) => words(alloc, forms, literal),
            Node::Num(number) => Ok(LinTerm::Num(number)),
            Node::Maker(constructor, arity) => self.maker(alloc, types, constructor, arity),
            Node::Con(constructor, given) => self.con(alloc, types, constructor, given),
            Node::Function(which, place) => function(alloc, which, place),
            Node::Predef(which, number, text, place) => {
                self.predef(alloc, which, (number, text), place)
            }
            Node::Concat(left, right) => self.concat(alloc, left, right),
            Node::Glue(left, right, place) => self.glue(alloc, left, right, place),
            Node::Record(list) => self.record(alloc, types, list),
            Node::Extend(left, right) => self.extend(alloc, left, right),
            Node::Proj(record, label) => self.proj(alloc, types, record, label),
            Node::Table(over, list) => self.table(alloc, forms, types, over, list),
            Node::TableList(over, list) => self.table_list(alloc, types, over, list),
            Node::Select(table, at) => self.select(alloc, table, at),
            Node::Case(at, list, place) => self.case(alloc, forms, at, list, place),
            Node::CaseList(at, over, list, place) => {
                self.case_list(alloc, types, at, over, list, place)
            }
            Node::Variants(list) => self.variants(alloc, list),
            Node::Let(list, body) => self.let_in(alloc, list, body),
            Node::Cut(term, of, given) => self.cut(alloc, types, term, of, given),
            Node::Oper(number) => Ok(LinTerm::Oper(number)),
            Node::Lambda(count, body) => self.lambda(alloc, count, body),
            Node::App(head, list) => self.app(alloc, head, list),
            Node::Type(_) => unit(alloc),
        }
    }

    fn build_next(
        &mut self,
        alloc: Global,
        forms: &Forms,
        types: &mut Types,
        at: usize,
    ) -> Result<(), NoMemory> {
        let node = match self.nodes.get(at) {
            None => return Ok(()), // excluded by build
            Some(node) => *node,
        };
        let term = self.term(alloc, forms, types, node)?;
        let shared = Shared::new(alloc, term)?;
        self.built.push(shared)?;
        Ok(())
    }

    /// The term of that number. Each node is built once.
    pub fn build(&mut self, alloc: Global, forms: &Forms, types: &mut Types, number: u32) -> Built {
        let wanted = (number as usize).saturating_add(1);
        'nodes: for at in self.built.len()..wanted {
            self.build_next(alloc, forms, types, at)?;
        }
        self.copied(alloc, number)
    }

    /// What stands for a type.
    pub fn unit(alloc: Global) -> Built {
        unit(alloc)
    }
}
