//! Nodes and goals: what becomes of them where a goal gets a head.
use crate::goals::{Goal, Goals, Part, Place};
use crate::heads::{Head, Span};
use crate::keys::{add_index_variables, key_of};
use crate::splitting::{join_twins, split};
use crate::tables::Tables;
use gft_abs::{Mark, NONE, Node, Terms, arguments_of};
use gft_core::NoMemory;
use gft_pmcfg::{AType, Abstract, Fun};
use indexmap::IndexSet;
use std::alloc::Global;

/// Of a goal with so many heads or fewer it is looked at which ones fit before it is picked.
const TRIED: u32 = 16;

/// Nodes, and the goals over them.
#[derive(Drop)]
pub struct Space<'a> {
    alloc: Global,
    tables: &'a Tables,
    abs: &'a Abstract,
    pub terms: Terms<'a>,
    pub goals: Goals,
}

/// How far everything was.
#[derive(Clone, Copy)]
pub struct Moment {
    mark: Mark,
    place: Place,
}

/// The goals that a head leads to are those of these parts.
#[derive(Clone, Copy)]
pub struct Parts {
    pub next: u32,
    pub end: u32,
}

impl<'a> Space<'a> {
    /// A space without nodes.
    pub fn new(alloc: Global, tables: &'a Tables, abs: &'a Abstract) -> Space<'a> {
        Space {
            alloc,
            tables,
            abs,
            terms: Terms::new(alloc, abs.funs.as_slice()),
            goals: Goals::new(alloc),
        }
    }

    /// The allocator.
    pub fn alloc(&self) -> Global {
        self.alloc
    }

    /// How far everything is.
    pub fn moment(&self) -> Moment {
        Moment {
            mark: self.terms.mark(),
            place: self.goals.place(),
        }
    }

    /// Takes away all that came after.
    pub fn undo(&mut self, moment: Moment) {
        self.terms.undo(moment.mark);
        self.goals.undo(moment.place);
    }

    /// Adds a part with one goal: a tree of a category, of any type. None where there is none
    /// within the depth.
    pub fn add_root(&mut self, cat: u32, depth: u32) -> Result<Option<(u32, Part)>, NoMemory> {
        let node = self.terms.variable()?;
        let mut indices: Vec<u32> = Vec::new(self.alloc);
        let abs = self.abs;
        if let Some(cat) = abs.cats.get(cat as usize) {
            'context: for _ in cat.context.as_slice() {
                indices.push(self.terms.variable()?)?;
            }
        }
        let mut list: Vec<u32> = Vec::new(self.alloc);
        if !self.add_goal(node, cat, depth, indices.as_slice(), &mut list)? {
            return Ok(None);
        }
        let part = self.goals.part_count()?;
        self.goals.add_part(list.as_slice())?;
        match self.goals.part(part) {
            None => Ok(None), // the part was added
            Some(part) => Ok(Some((node, part))),
        }
    }

    /// Adds a goal to a list. False where its category has no trees within the depth.
    fn add_goal(
        &mut self,
        node: u32,
        cat: u32,
        depth: u32,
        indices: &[u32],
        list: &mut Vec<u32>,
    ) -> Result<bool, NoMemory> {
        let within = self.tables.depths.within(cat, depth);
        if within == 0 {
            return Ok(false);
        }
        list.push(self.goals.add(node, cat, within, indices)?)?;
        Ok(true)
    }

    /// The key of a part.
    pub fn key(&self, part: Part) -> Result<Vec<u32>, NoMemory> {
        key_of(&self.terms, &self.goals, self.goals.list(part))
    }

    /// The goal at a place of a part.
    pub fn goal_at(&self, part: Part, place: u32) -> Option<Goal> {
        match self.goals.list(part).get(place as usize) {
            None => None,
            Some(goal) => self.goals.goal(*goal),
        }
    }

    /// Whether a part is one literal, which needs no head.
    pub fn is_literal(&self, part: Part) -> bool {
        match self.goal_at(part, 0) {
            None => false,
            Some(goal) => match self.terms.node(self.terms.root(goal.node)) {
                Node::Int(_) => goal.cat == 0,
                Node::Str(_) => goal.cat == 1,
                Node::App(_, _, _) => false,
                Node::Var => false,
            },
        }
    }

    /// The place of the goal of a part that gets its head first: one to which the fewest heads fit.
    /// Among these the last one that no index of another goal's type speaks of, else the last one.
    pub fn pick(&mut self, part: Part) -> Result<u32, NoMemory> {
        let goals = self.others(part, NONE)?;
        if goals.len() < 2 {
            return Ok(0);
        }
        let spoken = self.spoken(goals.as_slice())?;
        let mut picked = 0u32;
        let mut least = NONE;
        let mut place = 0u32;
        'goals: for number in goals.as_slice() {
            let rank = self.rank(*number, &spoken, least)?;
            if rank <= least {
                least = rank;
                picked = place;
            }
            place = place.saturating_add(1);
        }
        Ok(picked)
    }

    /// The variables in the indices of the goals' types.
    fn spoken(&self, goals: &[u32]) -> Result<IndexSet<u32>, NoMemory> {
        let mut spoken: IndexSet<u32> = IndexSet::new(self.alloc);
        'goals: for number in goals {
            if let Some(goal) = self.goals.goal(*number) {
                add_index_variables(&self.terms, &self.goals, goal, &mut spoken)?;
            }
        }
        Ok(spoken)
    }

    /// Twice the number of heads that fit a goal, and one more where an index speaks of it. Where
    /// that is more than another goal's, it is only known to be so.
    fn rank(&mut self, number: u32, spoken: &IndexSet<u32>, least: u32) -> Result<u32, NoMemory> {
        let Some(goal) = self.goals.goal(number) else {
            return Ok(NONE);
        };
        let heads = self.count_heads(goal, least / 2)?;
        let root = self.terms.root(goal.node);
        let is_spoken = u32::from(spoken.contains(&root));
        Ok(heads.saturating_mul(2).saturating_add(is_spoken))
    }

    /// How many heads fit a goal; of many, and past the most that count, only how many may.
    fn count_heads(&mut self, goal: Goal, most: u32) -> Result<u32, NoMemory> {
        let mut span = self.heads(goal);
        let all = span.count();
        if all > TRIED {
            return Ok(all);
        }
        let moment = self.moment();
        let mut count = 0u32;
        'heads: for _ in 0..all {
            if let Some(head) = span.take().and_then(|place| self.tables.heads.at(place)) {
                let mut list: Vec<u32> = Vec::new(self.alloc);
                if self.fits(goal, head, &mut list)? {
                    count = count.saturating_add(1);
                }
                self.undo(moment);
            }
            if count > most {
                break;
            }
        }
        Ok(count)
    }

    /// The heads that a goal may get.
    pub fn heads(&self, goal: Goal) -> Span {
        let heads = &self.tables.heads;
        if let Node::App(fun, _, _) = self.terms.node(self.terms.root(goal.node)) {
            return heads.only(fun);
        }
        let Some(index) = self.goals.indices(goal).first() else {
            return heads.all_of(goal.cat);
        };
        match self.terms.node(self.terms.root(*index)) {
            Node::App(fun, _, _) => heads.indexed_by(goal.cat, fun),
            Node::Int(_) => heads.all_of(goal.cat),
            Node::Str(_) => heads.all_of(goal.cat),
            Node::Var => heads.all_of(goal.cat),
        }
    }

    /// Gives a goal of a part a head. The parts of what is still to be filled then: the goals of
    /// the head's arguments and the other ones of the part. None where the types clash or there is
    /// no room.
    pub fn put_head(
        &mut self,
        part: Part,
        picked: u32,
        place: u32,
    ) -> Result<Option<Parts>, NoMemory> {
        let Some(goal) = self.goal_at(part, picked) else {
            return Ok(None);
        };
        let Some(head) = self.tables.heads.at(place) else {
            return Ok(None);
        };
        let mut list = self.others(part, picked)?;
        if !self.fits(goal, head, &mut list)? {
            return Ok(None);
        }
        self.parts_of(list)
    }

    /// The goals of a part but for that at a place.
    fn others(&self, part: Part, picked: u32) -> Result<Vec<u32>, NoMemory> {
        let mut others: Vec<u32> = Vec::new(self.alloc);
        let mut place = 0u32;
        'goals: for number in self.goals.list(part) {
            if place != picked {
                others.push(*number)?;
            }
            place = place.saturating_add(1);
        }
        Ok(others)
    }

    /// The parts that goals fall into.
    fn parts_of(&mut self, list: Vec<u32>) -> Result<Option<Parts>, NoMemory> {
        let Some(list) = join_twins(&mut self.terms, &mut self.goals, list)? else {
            return Ok(None);
        };
        let next = self.goals.part_count()?;
        split(&self.terms, &mut self.goals, list.as_slice())?;
        let end = self.goals.part_count()?;
        Ok(Some(Parts { next, end }))
    }

    /// Makes a head that of a goal's node, and adds the goals of its arguments. False where it
    /// cannot be.
    fn fits(&mut self, goal: Goal, head: Head, list: &mut Vec<u32>) -> Result<bool, NoMemory> {
        let tables = self.tables;
        match head {
            Head::Int(place) => {
                let node = self.terms.integer(tables.literals.int(place))?;
                self.terms.unify(goal.node, node)
            }
            Head::Word(place) => match tables.literals.word(place) {
                None => Ok(false), // places are those of words
                Some(word) => {
                    let node = self.terms.word(word)?;
                    self.terms.unify(goal.node, node)
                }
            },
            Head::Fun(number) => {
                let abs = self.abs;
                match abs.funs.get(number as usize) {
                    None => Ok(false), // heads are those of functions
                    Some(fun) => self.function_fits(goal, number, fun, list),
                }
            }
        }
    }

    /// Whether the arguments may have trees within the depth that is left.
    fn has_room(&self, types: &[AType], depth: u32) -> bool {
        let mut has_room = true;
        'types: for one in types {
            if self.tables.depths.within(one.cat, depth) == 0 {
                has_room = false;
                break;
            }
        }
        has_room
    }

    fn function_fits(
        &mut self,
        goal: Goal,
        number: u32,
        fun: &'a Fun,
        list: &mut Vec<u32>,
    ) -> Result<bool, NoMemory> {
        let depth = goal.depth.saturating_sub(1);
        if fun.result.cat != goal.cat || !self.has_room(fun.args.as_slice(), depth) {
            return Ok(false);
        }
        let arguments = self.arguments(goal, number, fun.args.len())?;
        let wanted = self.goals.wanted(self.alloc, goal)?;
        let found = self.terms.indices(&fun.result, arguments.as_slice())?;
        if !self.terms.unify_all(found.as_slice(), wanted.as_slice())? {
            return Ok(false);
        }
        self.add_arguments(fun.args.as_slice(), arguments.as_slice(), depth, list)
    }

    /// The arguments of a goal's node, new variables where it is one.
    fn arguments(&mut self, goal: Goal, fun: u32, count: usize) -> Result<Vec<u32>, NoMemory> {
        let root = self.terms.root(goal.node);
        if let Node::App(_, first, count) = self.terms.node(root) {
            return arguments_of(&self.terms, first, count);
        }
        let mut arguments: Vec<u32> = Vec::new(self.alloc);
        'arguments: for _ in 0..count {
            arguments.push(self.terms.variable()?)?;
        }
        let node = self.terms.application(fun, arguments.as_slice())?;
        // a variable becomes whatever it is made equal to
        let _ = self.terms.unify(root, node)?;
        Ok(arguments)
    }

    /// Adds a goal for each argument.
    fn add_arguments(
        &mut self,
        types: &'a [AType],
        arguments: &[u32],
        depth: u32,
        list: &mut Vec<u32>,
    ) -> Result<bool, NoMemory> {
        let mut k = 0usize;
        'arguments: for one in types {
            let indices = self.terms.indices(one, arguments)?;
            let node = arguments.get(k).copied().unwrap_or(NONE);
            if !self.add_goal(node, one.cat, depth, indices.as_slice(), list)? {
                return Ok(false);
            }
            k = k.saturating_add(1);
        }
        Ok(true)
    }
}
