//! What an oper means once it is in normal form.
use gft_core::{NoMemory, Shared};
use gft_syntax::{CType, LinTerm};

/// What stands where an oper is named.
#[derive(Drop)]
pub enum Meaning {
    /// It is not defined, or not in normal form yet.
    Nothing,
    /// Data: a normal term.
    Data(Shared<LinTerm>),
    /// A function of so many arguments that are data: its body, which is normal and closed but for
    /// them.
    Function(u32, Shared<LinTerm>),
    /// Any other function: the term as typed.
    Template(Shared<LinTerm>),
}

impl Meaning {
    /// The same meaning, sharing its parts.
    pub fn copy(&self) -> Result<Meaning, NoMemory> {
        match self {
            Meaning::Nothing => Ok(Meaning::Nothing),
            Meaning::Data(term) => Ok(Meaning::Data(term.share()?)),
            Meaning::Function(count, body) => Ok(Meaning::Function(*count, body.share()?)),
            Meaning::Template(term) => Ok(Meaning::Template(term.share()?)),
        }
    }
}

/// Whether it is a type of functions.
pub fn is_function(ctype: &CType) -> bool {
    matches!(ctype, CType::Fun(_, _))
}

/// How many parameters a type has, and whether all of them are data.
#[derive(Clone, Copy)]
pub struct Shape {
    pub count: u32,
    pub are_data: bool,
}

/// The parameters of a type.
pub fn parameters(ctype: &CType) -> Shape {
    match ctype {
        CType::Fun(from, to) => {
            let rest = parameters(to.get());
            Shape {
                count: rest.count.saturating_add(1),
                are_data: rest.are_data && !is_function(from.get()),
            }
        }
        _ => Shape {
            count: 0,
            are_data: true,
        },
    }
}
