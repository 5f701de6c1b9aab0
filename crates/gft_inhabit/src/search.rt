//! The search for closed trees: the last open goal first, with what its head fixes kept for the
//! others.
use crate::goals::{Goal, Goals, Place};
use crate::shapes::{add_variables, key_of};
use crate::tables::Tables;
use gft_abs::{Mark, NONE, Node, Terms, arguments_of};
use gft_core::NoMemory;
use gft_pmcfg::{Fun, Prod};
use indexmap::{IndexMap, IndexSet};
use std::alloc::Global;

/// What is known of goals of one key.
#[derive(Clone, Copy, PartialEq, Eq)]
enum Known {
    Nothing,
    Filled,
    Empty,
}

/// A goal that was begun with one candidate, where others are left: the goals beside it, the next
/// candidate, and how far everything was before.
#[derive(Clone, Copy)]
struct Choice {
    goal: u32,
    rest: u32,
    next: u32,
    mark: Mark,
    place: Place,
    parts: usize,
}

/// Goals that share no variable with those that come after them: the list of these, how many
/// choices there were, and the place of their key.
#[derive(Clone, Copy)]
struct Part {
    rest: u32,
    choices: usize,
    key: usize,
}

/// What a step leads to.
#[derive(Clone, Copy, PartialEq, Eq)]
pub enum Step {
    Going,
    Filled,
    Empty,
}

/// A search. Where it only asks, goals that are known to be filled are left aside.
#[derive(Drop)]
pub struct Search<'a> {
    alloc: Global,
    tables: &'a Tables,
    prods: &'a [Prod],
    pub terms: Terms<'a>,
    pub goals: Goals,
    choices: Vec<Choice>,
    parts: Vec<Part>,
    known: IndexMap<Vec<u32>, Known>,
    /// The list of the goals of the present part, and whether its part was begun.
    now: u32,
    begun: bool,
    failing: bool,
    asks: bool,
    /// The variables that any literal may replace, and whether it is a text.
    literals: IndexMap<u32, bool>,
}

impl<'a> Search<'a> {
    /// A search over these nodes, without goals.
    pub fn new(
        alloc: Global,
        tables: &'a Tables,
        prods: &'a [Prod],
        terms: Terms<'a>,
        asks: bool,
    ) -> Search<'a> {
        Search {
            alloc,
            tables,
            prods,
            terms,
            goals: Goals::new(alloc),
            choices: Vec::new(alloc),
            parts: Vec::new(alloc),
            known: IndexMap::new(alloc),
            now: NONE,
            begun: false,
            failing: false,
            asks,
            literals: IndexMap::new(alloc),
        }
    }

    /// Adds a goal, before those that are there.
    pub fn add(
        &mut self,
        node: u32,
        nonterminal: u32,
        depth: u32,
        indices: &[u32],
    ) -> Result<(), NoMemory> {
        let goal = self.goals.add(node, nonterminal, depth, indices)?;
        let list = self.goals.before(goal, self.now)?;
        self.go_on(list);
        Ok(())
    }

    /// Goes on with a list of goals.
    fn go_on(&mut self, list: u32) {
        self.now = list;
        self.begun = false;
    }

    /// Keeps what is known of a part.
    fn learn(&mut self, part: Part, known: Known) {
        if let Some(here) = self.known.get_index_mut(part.key) {
            *here = known;
        }
    }

    /// Ends the present part, whose goals are all filled: no other choice in it is looked at again.
    fn end_part(&mut self) -> Step {
        let Some(part) = self.parts.pop() else {
            return Step::Filled;
        };
        self.choices.truncate(part.choices);
        self.learn(part, Known::Filled);
        self.go_on(part.rest);
        Step::Going
    }

    /// The parts that were begun since then have no filling.
    fn drop_parts(&mut self, count: usize) {
        'parts: for _ in count..self.parts.len() {
            if let Some(part) = self.parts.pop() {
                self.learn(part, Known::Empty);
            }
        }
    }

    /// Goes back to the last choice.
    fn go_back(&mut self) -> Result<Step, NoMemory> {
        let Some(choice) = self.choices.pop() else {
            return Ok(Step::Empty);
        };
        self.drop_parts(choice.parts);
        self.terms.undo(choice.mark);
        self.goals.undo(choice.place);
        self.failing = false;
        self.try_candidates(choice)?;
        Ok(Step::Going)
    }

    /// Whether a goal's node is a variable.
    fn is_open(&self, goal: Goal) -> bool {
        self.terms.is_variable(self.terms.root(goal.node))
    }

    /// The function of a goal's node, `NONE` for a variable or a literal.
    fn function(&self, goal: Goal) -> u32 {
        match self.terms.node(self.terms.root(goal.node)) {
            Node::App(fun, _, _) => fun,
            _ => NONE,
        }
    }

    /// The goals that share variables with the first one, over others (`inside`), and those that do
    /// not.
    fn spread(
        &self,
        list: &[u32],
        variables: &mut IndexSet<u32>,
        inside: &mut Vec<u32>,
    ) -> Result<Vec<u32>, NoMemory> {
        let mut outside: Vec<u32> = Vec::new(self.alloc);
        'goals: for number in list {
            if self.touches(*number, variables)? {
                inside.push(*number)?;
            } else {
                outside.push(*number)?;
            }
        }
        Ok(outside)
    }

    /// Whether a goal has one of the variables; if so, its others are added.
    fn touches(&self, number: u32, variables: &mut IndexSet<u32>) -> Result<bool, NoMemory> {
        let Some(goal) = self.goals.goal(number) else {
            return Ok(false);
        };
        let mut own: IndexSet<u32> = IndexSet::new(self.alloc);
        add_variables(&self.terms, &self.goals, goal, &mut own)?;
        if !shares(&own, variables) {
            return Ok(false);
        }
        'own: for variable in own.iter() {
            variables.insert(*variable)?;
        }
        Ok(true)
    }

    /// Begins the part of the first goal of a list.
    fn begin_part(&mut self, list: &[u32]) -> Result<(), NoMemory> {
        let Some((first, others)) = list.split_first() else {
            return Ok(());
        };
        let mut variables: IndexSet<u32> = IndexSet::new(self.alloc);
        if let Some(goal) = self.goals.goal(*first) {
            add_variables(&self.terms, &self.goals, goal, &mut variables)?;
        }
        let mut inside: Vec<u32> = Vec::new(self.alloc);
        inside.push(*first)?;
        let mut outside = self.spread(others, &mut variables, &mut inside)?;
        'rounds: for _ in 0..others.len() {
            let count = inside.len();
            outside = self.spread(outside.as_slice(), &mut variables, &mut inside)?;
            if inside.len() == count {
                break;
            }
        }
        inside.sort_unstable();
        self.enter(inside.as_slice(), outside.as_slice())
    }

    /// Enters a part, unless it is known what comes of it.
    fn enter(&mut self, inside: &[u32], outside: &[u32]) -> Result<(), NoMemory> {
        let key = key_of(self.alloc, &self.terms, &self.goals, inside)?;
        let known = self.known.get(&key).copied().unwrap_or(Known::Nothing);
        if known == Known::Empty {
            self.failing = true;
            return Ok(());
        }
        let rest = self.goals.append(outside, NONE)?;
        if known == Known::Filled && self.asks {
            self.go_on(rest);
            return Ok(());
        }
        let (key, _) = self.known.insert_full(key, known)?;
        self.parts.push(Part {
            rest,
            choices: self.choices.len(),
            key,
        })?;
        let list = self.goals.last_first(inside)?;
        self.go_on(list);
        self.begun = true;
        Ok(())
    }

    /// The goal to be taken next, by its place in a list: one whose head is known, else the first
    /// that is no open literal. None where all are open literals.
    fn pick(&self, list: &[u32]) -> Option<usize> {
        let mut picked = None;
        'goals: for place in 0..list.len() {
            let Some(goal) = self.goals.goal(list[place]) else {
                continue;
            };
            if !self.is_open(goal) {
                return Some(place);
            }
            if picked.is_none() && goal.nonterminal > 1 {
                picked = Some(place);
            }
        }
        picked
    }

    /// Takes a goal of a list.
    fn take(&mut self, list: &[u32], place: usize) -> Result<(), NoMemory> {
        let Some((before, here)) = list.split_at_checked(place) else {
            return Ok(());
        };
        let Some((number, after)) = here.split_first() else {
            return Ok(());
        };
        let rest = self.goals.append(after, NONE)?;
        let rest = self.goals.append(before, rest)?;
        let Some(goal) = self.goals.goal(*number) else {
            return Ok(());
        };
        match self.terms.node(self.terms.root(goal.node)) {
            Node::Int(_) => self.take_literal(goal, 0, rest),
            Node::Str(_) => self.take_literal(goal, 1, rest),
            _ => self.open(*number, goal, rest)?,
        }
        Ok(())
    }

    /// A literal has a run to its own nonterminal alone.
    fn take_literal(&mut self, goal: Goal, nonterminal: u32, rest: u32) {
        if goal.nonterminal == nonterminal && goal.depth > 0 {
            self.go_on(rest);
        } else {
            self.failing = true;
        }
    }

    /// Begins with the first candidate of a goal.
    fn open(&mut self, number: u32, goal: Goal, rest: u32) -> Result<(), NoMemory> {
        let choice = Choice {
            goal: number,
            rest,
            next: self.tables.first(goal.nonterminal),
            mark: self.terms.mark(),
            place: self.goals.place(),
            parts: self.parts.len(),
        };
        self.try_candidates(choice)
    }

    /// Goes on with the next candidate that fits.
    fn try_candidates(&mut self, choice: Choice) -> Result<(), NoMemory> {
        let Some(goal) = self.goals.goal(choice.goal) else {
            self.failing = true;
            return Ok(());
        };
        let fun = self.function(goal);
        'candidates: for place in choice.next..self.tables.last(goal.nonterminal) {
            match self.candidate(goal, fun, place) {
                Tried::Past => break,
                Tried::Other => {}
                Tried::Production(production) => {
                    if self.try_production(choice, goal, production, place)? {
                        return Ok(());
                    }
                }
            }
        }
        self.failing = true;
        Ok(())
    }

    /// The production of a candidate, if it may fit.
    fn candidate(&self, goal: Goal, fun: u32, place: u32) -> Tried<'a> {
        let Some(candidate) = self.tables.candidate(place) else {
            return Tried::Past;
        };
        if candidate.least > goal.depth {
            return Tried::Past;
        }
        let prods = self.prods;
        let Some(production) = prods.get(candidate.production as usize) else {
            return Tried::Past;
        };
        if fun != NONE && production.fun != fun {
            return Tried::Other;
        }
        Tried::Production(production)
    }

    /// Tries a production. False where its types clash; then everything is as before.
    fn try_production(
        &mut self,
        choice: Choice,
        goal: Goal,
        production: &'a Prod,
        place: u32,
    ) -> Result<bool, NoMemory> {
        let funs = self.terms.funs();
        let Some(fun) = funs.get(production.fun as usize) else {
            return Ok(false);
        };
        let list = self.apply(goal, production, fun, choice.rest)?;
        let Some(list) = list else {
            self.terms.undo(choice.mark);
            self.goals.undo(choice.place);
            return Ok(false);
        };
        let mut left = choice;
        left.next = place.saturating_add(1);
        self.choices.push(left)?;
        self.go_on(list);
        Ok(true)
    }

    /// The arguments of a goal's node, new variables where it is one.
    fn arguments(&mut self, goal: Goal, fun: u32, count: usize) -> Result<Vec<u32>, NoMemory> {
        let root = self.terms.root(goal.node);
        if let Node::App(_, first, count) = self.terms.node(root) {
            return arguments_of(&self.terms, first, count);
        }
        let mut arguments: Vec<u32> = Vec::new(self.alloc);
        'arguments: for _ in 0..count {
            arguments.push(self.terms.variable()?)?;
        }
        let node = self.terms.application(fun, arguments.as_slice())?;
        // a variable becomes whatever it is made equal to
        let _ = self.terms.unify(root, node)?;
        Ok(arguments)
    }

    /// Whether the result type of a function can be that of a goal.
    fn has_type(&mut self, goal: Goal, fun: &'a Fun, arguments: &[u32]) -> Result<bool, NoMemory> {
        let wanted = self.goals.wanted(self.alloc, goal)?;
        let found = self.terms.indices(&fun.result, arguments)?;
        self.terms.unify_all(found.as_slice(), wanted.as_slice())
    }

    /// The goals of the arguments before the rest, the last first. None where the types clash.
    fn apply(
        &mut self,
        goal: Goal,
        production: &'a Prod,
        fun: &'a Fun,
        rest: u32,
    ) -> Result<Option<u32>, NoMemory> {
        let arguments = self.arguments(goal, production.fun, fun.args.len())?;
        if !self.has_type(goal, fun, arguments.as_slice())? {
            return Ok(None);
        }
        let mut list = rest;
        let mut k = 0usize;
        'arguments: for t in fun.args.as_slice() {
            let indices = self.terms.indices(t, arguments.as_slice())?;
            let node = arguments.get(k).copied().unwrap_or(NONE);
            let nonterminal = production.args.get(k).copied().unwrap_or(NONE);
            let depth = goal.depth.saturating_sub(1);
            let argument = self
                .goals
                .add(node, nonterminal, depth, indices.as_slice())?;
            list = self.goals.before(argument, list)?;
            k = k.saturating_add(1);
        }
        Ok(Some(list))
    }

    /// One step.
    fn step(&mut self) -> Result<Step, NoMemory> {
        if self.failing {
            return self.go_back();
        }
        if self.now == NONE {
            return Ok(self.end_part());
        }
        let list = self.goals.list(self.alloc, self.now)?;
        if !self.begun {
            self.begin_part(list.as_slice())?;
            return Ok(Step::Going);
        }
        match self.pick(list.as_slice()) {
            Some(place) => self.take(list.as_slice(), place)?,
            None => {
                self.keep_literals(list.as_slice())?;
                self.go_on(NONE);
            }
        }
        Ok(Step::Going)
    }

    /// Keeps which variables any literal may replace.
    fn keep_literals(&mut self, list: &[u32]) -> Result<(), NoMemory> {
        'goals: for number in list {
            if let Some(goal) = self.goals.goal(*number) {
                let root = self.terms.root(goal.node);
                self.literals.insert(root, goal.nonterminal == 1)?;
            }
        }
        Ok(())
    }

    /// Whether a variable stands for a text.
    pub fn is_text(&self, variable: u32) -> bool {
        self.literals.get(&variable).copied().unwrap_or(false)
    }

    /// Whether all goals can be filled at once. Each choice has finitely many candidates, and
    /// depths only fall, so the search ends by itself.
    pub fn run(&mut self) -> Result<bool, NoMemory> {
        'steps: for _ in 0..u64::MAX {
            match self.step()? {
                Step::Going => {}
                Step::Filled => return Ok(true),
                Step::Empty => return Ok(false),
            }
        }
        Ok(false)
    }
}

/// What comes of looking at a candidate.
#[derive(Clone, Copy)]
enum Tried<'a> {
    /// This one and those after it do not fit the depth.
    Past,
    /// It has another function.
    Other,
    Production(&'a Prod),
}

/// Whether two sets have a common member.
fn shares(own: &IndexSet<u32>, variables: &IndexSet<u32>) -> bool {
    'own: for variable in own.iter() {
        if variables.contains(variable) {
            return true;
        }
    }
    false
}
