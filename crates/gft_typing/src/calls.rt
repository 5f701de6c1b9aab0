//! Applications.
use crate::meaning::{Alternative, Meaning};
use crate::refusing::Said;
use crate::state::{Found, Typing, add_part};
use crate::stopped::Stopped;
use crate::task::Task;
use gft_core::NoMemory;
use gft_forms::{Form, Span};
use gft_nodes::{Node, Part};
use gft_rules::Rule;
use gft_types::{STR, TypeId};
use std::alloc::Global;

/// The head of an application and how many arguments it has.
#[derive(Clone, Copy)]
struct Spine {
    head: u32,
    count: u32,
}

/// The alternatives that take the arguments: none, one, or several.
#[derive(Clone, Copy)]
enum Chosen {
    None,
    One(Alternative),
    Several,
}

/// One alternative more that takes the arguments.
fn also(chosen: Chosen, one: Alternative) -> Chosen {
    match chosen {
        Chosen::None => Chosen::One(one),
        Chosen::One(_) => Chosen::Several,
        Chosen::Several => Chosen::Several,
    }
}

impl Typing {
    fn spine(&self, e: u32) -> Spine {
        let mut head = e;
        let mut count = 0u32;
        for _ in 0..u32::MAX {
            match self.forms.form(head) {
                Form::App(function, _) => {
                    head = function;
                    count = count.saturating_add(1);
                }
                _ => break,
            }
        }
        Spine { head, count }
    }

    /// The name of the overloaded oper that the head is.
    fn overload_of(&self, head: u32) -> Option<u32> {
        match self.forms.form(head) {
            Form::Global(name) => match self.meaning(name) {
                Meaning::Overload(_, _) => Some(name),
                _ => None,
            },
            _ => None,
        }
    }

    /// `f a b ..`: the head, and then each argument as the parameter of its type; of an
    /// overloaded oper the arguments are found.
    pub(crate) fn application(&mut self, e: u32) -> Result<(), Stopped> {
        let spine = self.spine(e);
        match self.overload_of(spine.head) {
            Some(name) => {
                self.push(Task::OverloadEnd(e, name, spine.count))?;
                self.push_arguments(e, spine.count)
            }
            None => {
                self.push(Task::CallEnd(spine.count))?;
                self.push_applications(e, spine.count)?;
                self.push(Task::CallBegin)?;
                self.push(Task::Term(spine.head, None))
            }
        }
    }

    /// The arguments are found, the first one first.
    fn push_arguments(&mut self, e: u32, count: u32) -> Result<(), Stopped> {
        let mut rest = e;
        for _ in 0..count {
            if let Form::App(function, argument) = self.forms.form(rest) {
                self.push(Task::Term(argument, None))?;
                rest = function;
            }
        }
        Ok(())
    }

    /// The arguments are given their types, the first one first.
    fn push_applications(&mut self, e: u32, count: u32) -> Result<(), Stopped> {
        let mut rest = e;
        for _ in 0..count {
            if let Form::App(function, _) = self.forms.form(rest) {
                self.push(Task::Argument(rest))?;
                rest = function;
            }
        }
        Ok(())
    }

    /// The head was found: its type is that of the call so far.
    pub(crate) fn call_begin(&mut self) -> Result<(), Stopped> {
        let of = self.last_type();
        match self.calls.push(of) {
            Ok(()) => Ok(()),
            Err(_) => Err(Stopped::NoMemory),
        }
    }

    /// The type of the innermost call so far.
    fn call_type(&mut self) -> TypeId {
        match self.calls.pop() {
            None => STR, // excluded by call_begin
            Some(of) => of,
        }
    }

    fn set_call_type(&mut self, of: TypeId) -> Result<(), Stopped> {
        match self.calls.push(of) {
            Ok(()) => Ok(()),
            Err(_) => Err(Stopped::NoMemory),
        }
    }

    /// One argument more, of the application.
    pub(crate) fn argument(&mut self, e: u32) -> Result<(), Stopped> {
        let of = self.call_type();
        let Some((from, to)) = self.types.function_of(of) else {
            return Err(self.broken_at(Rule::NotFunction, e, Said::Type(of)));
        };
        self.set_call_type(to)?;
        match self.forms.form(e) {
            Form::App(_, argument) => self.push(Task::Term(argument, Some(from))),
            _ => Ok(()), // excluded by push_applications
        }
    }

    /// All arguments were typed.
    pub(crate) fn call_end(&mut self, alloc: Global, count: u32) -> Result<(), Stopped> {
        let of = self.call_type();
        let given = self.pop_parts(alloc, count)?;
        let head = self.pop_found().node;
        let node = self.nodes.call(alloc, head, given)?;
        self.push_found(Found { node, of })
    }

    /// Whether the alternative has so many parameters, and they take the terms that were found
    /// last.
    fn takes(&self, alloc: Global, of: TypeId, count: u32) -> Result<bool, NoMemory> {
        if self.types.arity(of) != count {
            return Ok(false);
        }
        let mut rest = of;
        for at in 0..count {
            let argument = self.found_at(count, at).of;
            let Some((from, to)) = self.types.function_of(rest) else {
                return Ok(false); // excluded by the arity
            };
            if !self.types.is_subtype(alloc, argument, from)? {
                return Ok(false);
            }
            rest = to;
        }
        Ok(true)
    }

    /// The alternatives that take the terms that were found last.
    fn chosen(&self, alloc: Global, name: u32, count: u32) -> Result<Chosen, NoMemory> {
        let mut chosen = Chosen::None;
        'each: for one in self.alternatives(name) {
            if self.takes(alloc, one.of, count)? {
                chosen = also(chosen, *one);
            }
        }
        Ok(chosen)
    }

    /// An overloaded oper and its arguments, which were found last.
    pub(crate) fn overload_end(
        &mut self,
        alloc: Global,
        e: u32,
        name: u32,
        count: u32,
    ) -> Result<(), Stopped> {
        match self.chosen(alloc, name, count)? {
            Chosen::None => Err(self.broken_at(Rule::NoOverload, e, Said::Whole(name))),
            Chosen::Several => Err(self.broken_at(Rule::ManyOverloads, e, Said::Whole(name))),
            Chosen::One(one) => self.apply(alloc, e, one, count),
        }
    }

    /// The arguments as the alternative takes them.
    fn given_parts(
        &mut self,
        alloc: Global,
        e: u32,
        of: TypeId,
        count: u32,
    ) -> Result<Span, Stopped> {
        let place = self.forms.place(e);
        let mut parts: Vec<Part> = Vec::new(alloc);
        let mut rest = of;
        for at in 0..count {
            if let Some((from, to)) = self.types.function_of(rest) {
                let found = self.found_at(count, at);
                // it fits: the alternative takes it
                let fitting = self.fit(alloc, found, from, place)?;
                let node = fitting.node;
                add_part(&mut parts, Part { key: 0, node })?;
                rest = to;
            }
        }
        self.drop_found(count);
        Ok(self.nodes.add_parts(parts.as_slice())?)
    }

    /// The alternative applied to the arguments that were found last.
    fn apply(
        &mut self,
        alloc: Global,
        e: u32,
        one: Alternative,
        count: u32,
    ) -> Result<(), Stopped> {
        if count == 0 {
            return self.answer(Node::Oper(one.number), one.of);
        }
        let given = self.given_parts(alloc, e, one.of, count)?;
        let head = self.nodes.add(Node::Oper(one.number))?;
        let of = self.types.result_of(one.of);
        self.answer(Node::App(head, given), of)
    }
}
