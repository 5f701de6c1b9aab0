//! A run of a term: what is left to do lies on a stack, so no chain of terms is too deep.
use crate::data::{Datum, Range, get};
use crate::machine::Machine;
use crate::node::{Node, Operation, Task};
use crate::stop::Stop;
use gft_core::Place;

impl<'a> Machine<'a> {
    /// The value of the whole term by the choices of this run.
    pub fn value(&mut self) -> Result<u32, Stop> {
        self.tasks.clear();
        self.stack.clear();
        self.env.clear();
        self.run_later(0)?;
        for _ in 0..u64::MAX {
            match self.tasks.pop() {
                None => return self.pop(),
                Some(task) => self.perform(task)?,
            }
        }
        Err(Stop::Nothing) // excluded: no run takes so long
    }

    fn later(&mut self, task: Task) -> Result<(), Stop> {
        self.tasks.push(task)?;
        Ok(())
    }

    fn run_later(&mut self, node: u32) -> Result<(), Stop> {
        self.later(Task::Run(node))
    }

    /// Runs the nodes from the first to the last, and then does the task.
    fn run_all(&mut self, nodes: Range, task: Task) -> Result<(), Stop> {
        self.later(task)?;
        for node in (nodes.from..nodes.to).rev() {
            self.run_later(node)?;
        }
        Ok(())
    }

    fn run_then(&mut self, node: u32, task: Task) -> Result<(), Stop> {
        self.later(task)?;
        self.run_later(node)
    }

    fn perform(&mut self, task: Task) -> Result<(), Stop> {
        match task {
            Task::Run(node) => self.run(node),
            Task::Both(operation) => self.combine(operation),
            Task::Con(whole, count) => self.make_con(whole, count),
            Task::Record(layout) => self.make_record(layout),
            Task::Proj(label) => self.project(label),
            Task::Rows(node, place) => self.next_row(node, place),
            Task::Table(of, count) => self.make_table(of, count),
            Task::Choose(node) => self.choose(node),
            Task::Bind(count) => self.bind_all(count),
            Task::Unbind(depth) => self.unbind(depth),
            Task::Cut(to) => self.cut_to(to),
        }
    }

    fn run(&mut self, place: u32) -> Result<(), Stop> {
        match self.node(place)? {
            Node::Unread => Err(Stop::Nothing), // excluded: the node was read
            Node::Var(back) => self.push_variable(back),
            Node::Arg(argument) => self.push_argument(argument),
            Node::Words(words) => self.push_words(words),
            Node::Number(code) => self.push_datum(Datum::Number(code)),
            Node::Con(whole, args) => self.run_all(args, Task::Con(whole, args.count())),
            Node::Both(operation, first) => self.run_both(operation, first),
            Node::Record(layout, fields) => self.run_all(fields, Task::Record(layout)),
            Node::Proj(record, label) => self.run_then(record, Task::Proj(label)),
            Node::Table(_, _, _) => self.next_row(place, 0),
            Node::Listed(of, items) => self.run_all(items, Task::Table(of, items.count())),
            Node::Case(selector, _, _, _) => self.run_then(selector, Task::Choose(place)),
            Node::Item(selector, _, _) => self.run_then(selector, Task::Choose(place)),
            Node::Variants(members) => self.run_member(members),
            Node::Let(terms, body) => self.run_let(terms, body),
            Node::Cut(inner, to) => self.run_then(inner, Task::Cut(to)),
            Node::Nothing => Err(Stop::Nothing), // excluded by `normal`
        }
    }

    fn run_both(&mut self, operation: Operation, first: u32) -> Result<(), Stop> {
        let nodes = Range {
            from: first,
            to: first.saturating_add(2),
        };
        self.run_all(nodes, Task::Both(operation))
    }

    fn push_variable(&mut self, back: u32) -> Result<(), Stop> {
        let depth = self.env.len();
        let Some(place) = depth.checked_sub((back as usize).saturating_add(1)) else {
            return Err(Stop::Nothing); // excluded by typing
        };
        match self.env.get(place).copied() {
            Some(value) => self.push(value),
            None => Err(Stop::Nothing), // excluded by typing
        }
    }

    fn push_argument(&mut self, argument: u32) -> Result<(), Stop> {
        match get(self.args.as_slice(), argument) {
            Some(value) => self.push(value),
            None => Err(Stop::Nothing), // excluded by typing
        }
    }

    fn run_member(&mut self, members: Range) -> Result<(), Stop> {
        let place = self.choices.next(members.count())?;
        self.run_later(members.at(place))
    }

    fn run_let(&mut self, terms: Range, body: u32) -> Result<(), Stop> {
        let depth = self.env.len();
        self.enter(depth, body)?;
        self.run_all(terms, Task::Bind(terms.count()))
    }

    /// Binds one variable more.
    pub fn bind(&mut self, value: u32) -> Result<(), Stop> {
        self.env.push(value)?;
        Ok(())
    }

    /// Binds the last so many values, the last one innermost.
    fn bind_all(&mut self, count: u32) -> Result<(), Stop> {
        let from = self.stack.len().saturating_sub(count as usize);
        for place in from..self.stack.len() {
            if let Some(value) = self.stack.get(place).copied() {
                self.bind(value)?;
            }
        }
        self.stack.truncate(from);
        Ok(())
    }

    fn unbind(&mut self, depth: usize) -> Result<(), Stop> {
        self.env.truncate(depth);
        Ok(())
    }

    fn combine(&mut self, operation: Operation) -> Result<(), Stop> {
        let right = self.pop()?;
        let left = self.pop()?;
        match operation {
            Operation::Concat => self.concat(left, right),
            Operation::Glue(place) => self.glue(left, right, place),
            Operation::Predef(which, place) => self.predef(which, left, right, place),
            Operation::Extend => self.extend(left, right),
            Operation::Select => self.select(left, right),
        }
    }

    /// The items of a table from that place on: each is that of the first branch that matches.
    fn next_row(&mut self, node: u32, place: u32) -> Result<(), Stop> {
        let Node::Table(of, first, bodies) = self.node(node)? else {
            return Err(Stop::Nothing); // excluded: the node is that of a table
        };
        let values = self.types.values(of);
        if place >= values.count() {
            return self.make_table(of, values.count());
        }
        self.later(Task::Rows(node, place.saturating_add(1)))?;
        self.take_branch(first, bodies, values.at(place))
    }

    /// Runs the first branch whose pattern matches a value that is no string.
    fn take_branch(&mut self, first: u32, bodies: Range, value: u32) -> Result<(), Stop> {
        let depth = self.env.len();
        for branch in 0..bodies.count() {
            if self.matches_branch(first.saturating_add(branch), value)? {
                return self.enter(depth, bodies.at(branch));
            }
            self.env.truncate(depth);
        }
        Err(Stop::Nothing) // excluded by typing: the patterns match each value
    }

    /// Runs the body of a binder, and goes back to so many variables.
    fn enter(&mut self, depth: usize, body: u32) -> Result<(), Stop> {
        self.later(Task::Unbind(depth))?;
        self.run_later(body)
    }

    fn choose(&mut self, node: u32) -> Result<(), Stop> {
        let value = self.pop()?;
        match self.node(node)? {
            Node::Case(_, first, bodies, place) => self.choose_branch(first, bodies, place, value),
            Node::Item(_, of, items) => self.choose_item(of, items, value),
            _ => Err(Stop::Nothing), // excluded: the node is that of a selection
        }
    }

    fn choose_branch(
        &mut self,
        first: u32,
        bodies: Range,
        place: Place,
        value: u32,
    ) -> Result<(), Stop> {
        match self.datum(value)? {
            Datum::Text(symbols) => match self.text_of(symbols)? {
                Some(text) => self.choose_by_text(first, bodies, place, (value, text)),
                None => self.choose_closed(first, bodies, place, value),
            },
            _ => self.take_branch(first, bodies, value),
        }
    }

    /// Runs the first branch whose pattern matches a string, given with its text.
    fn choose_by_text(
        &mut self,
        first: u32,
        bodies: Range,
        place: Place,
        string: (u32, Range),
    ) -> Result<(), Stop> {
        let depth = self.env.len();
        for branch in 0..bodies.count() {
            if self.matches_text(first.saturating_add(branch), string.0, string.1)? {
                return self.enter(depth, bodies.at(branch));
            }
        }
        Err(Stop::NoBranch(place))
    }

    /// Runs the first branch, whose pattern may not look into a string that holds a closed part.
    fn choose_closed(
        &mut self,
        first: u32,
        bodies: Range,
        place: Place,
        value: u32,
    ) -> Result<(), Stop> {
        let depth = self.env.len();
        if bodies.count() == 0 || !self.takes_closed(first, value)? {
            return Err(Stop::Match(place));
        }
        self.enter(depth, bodies.at(0))
    }

    fn choose_item(&mut self, of: u32, items: Range, value: u32) -> Result<(), Stop> {
        let place = self.place_in(of, value)?;
        if place >= items.count() {
            return Err(Stop::Nothing); // excluded by typing: there is an item for each value
        }
        self.run_later(items.at(place))
    }
}
