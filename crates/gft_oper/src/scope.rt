//! What variables stand for, and functions as values.
use crate::terms::add;
use gft_core::{NoMemory, Shared};
use gft_syntax::{CType, LinTerm};
use std::alloc::Global;

/// The empty scope.
pub const EMPTY: u32 = u32::MAX;

/// What a variable stands for: what is bound by the normal term at that many binders from the
/// outside, an argument of the whole judgement, or the function of that number.
#[derive(Clone, Copy)]
pub enum Entry {
    Level(u32),
    Arg(u32),
    Function(u32),
}

/// The innermost variable of a scope, and the scope around it.
#[derive(Clone, Copy)]
struct Link {
    entry: Entry,
    outer: u32,
}

/// A function as a value. `given` counts the arguments that it has so far, fewer than `params`;
/// they are the innermost variables of `scope`. Bodies and cuts are named by their numbers.
#[derive(Clone, Copy)]
pub enum Function {
    /// A lambda, of which so many parameters are left, with the scope of its body.
    Closure {
        left: u32,
        body: u32,
        scope: u32,
    },
    /// An oper in normal form: its body.
    Oper {
        params: u32,
        body: u32,
        given: u32,
        scope: u32,
    },
    /// An argument of the whole judgement that is a function.
    Arg {
        number: u32,
        params: u32,
        given: u32,
        scope: u32,
    },
    /// The function of that number, seen at another type.
    Cut {
        number: u32,
        cut: u32,
    },
}

/// The types at which a function is seen at another type: its argument is cut from `given` to
/// `takes` before it is taken, and its result is cut from `gives` to `wanted`.
#[derive(Drop)]
pub struct Cut {
    pub given: Shared<CType>,
    pub takes: Shared<CType>,
    pub gives: Shared<CType>,
    pub wanted: Shared<CType>,
}

/// The cut of functions of the first type to the second.
fn cut_of(from: &CType, to: &CType) -> Result<Option<Cut>, NoMemory> {
    match from {
        CType::Fun(takes, gives) => match to {
            CType::Fun(given, wanted) => Ok(Some(Cut {
                given: given.share()?,
                takes: takes.share()?,
                gives: gives.share()?,
                wanted: wanted.share()?,
            })),
            _ => Ok(None),
        },
        _ => Ok(None),
    }
}

/// Scopes and functions, by number. A scope shares what is around it with others.
#[derive(Drop)]
pub struct Scopes {
    links: Vec<Link>,
    functions: Vec<Function>,
    bodies: Vec<Shared<LinTerm>>,
    cuts: Vec<Shared<Cut>>,
}

impl Scopes {
    /// No scope and no function yet.
    pub fn new(alloc: Global) -> Scopes {
        Scopes {
            links: Vec::new(alloc),
            functions: Vec::new(alloc),
            bodies: Vec::new(alloc),
            cuts: Vec::new(alloc),
        }
    }

    /// The scope with one variable more, the innermost.
    pub fn link(&mut self, entry: Entry, outer: u32) -> Result<u32, NoMemory> {
        let number = match u32::try_from(self.links.len()) {
            Ok(number) if number < EMPTY => number,
            _ => return Err(NoMemory), // more than a u32 counts
        };
        self.links.push(Link { entry, outer })?;
        Ok(number)
    }

    /// What the variable of that many binders back stands for.
    pub fn find(&self, back: u32, scope: u32) -> Option<Entry> {
        let mut at = scope;
        for _ in 0..back {
            match self.links.get(at as usize) {
                None => return None,
                Some(link) => at = link.outer,
            }
        }
        match self.links.get(at as usize) {
            None => None,
            Some(link) => Some(link.entry),
        }
    }

    /// The number of a further function.
    pub fn add(&mut self, function: Function) -> Result<u32, NoMemory> {
        add(&mut self.functions, function)
    }

    /// The function of that number.
    pub fn function(&self, number: u32) -> Option<Function> {
        self.functions.get(number as usize).copied()
    }

    /// The number of a further body, which is shared.
    pub fn add_body(&mut self, body: &Shared<LinTerm>) -> Result<u32, NoMemory> {
        add(&mut self.bodies, body.share()?)
    }

    /// The body of that number.
    pub fn body(&self, number: u32) -> Result<Option<Shared<LinTerm>>, NoMemory> {
        match self.bodies.get(number as usize) {
            None => Ok(None),
            Some(body) => Ok(Some(body.share()?)),
        }
    }

    /// The number of a further cut, of functions of the first type to the second.
    pub fn add_cut(
        &mut self,
        alloc: Global,
        from: &CType,
        to: &CType,
    ) -> Result<Option<u32>, NoMemory> {
        match cut_of(from, to)? {
            None => Ok(None),
            Some(cut) => Ok(Some(add(&mut self.cuts, Shared::new(alloc, cut)?)?)),
        }
    }

    /// The cut of that number.
    pub fn cut(&self, number: u32) -> Result<Option<Shared<Cut>>, NoMemory> {
        match self.cuts.get(number as usize) {
            None => Ok(None),
            Some(cut) => Ok(Some(cut.share()?)),
        }
    }

    /// How many parameters the function has and its body, where it is an oper in normal form
    /// without arguments so far, and no more parameters than there are arguments.
    pub fn whole(&self, number: u32, args: usize) -> Option<(u32, u32)> {
        match self.function(number) {
            Some(
                Function::Oper {
                    params,
                    body,
                    given,
                    scope: _,
                },
            ) => {
                if given == 0 && params as usize <= args {
                    return Some((params, body));
                }
                None
            }
            _ => None,
        }
    }
}
