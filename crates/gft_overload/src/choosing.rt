//! The one alternative whose parameters take the arguments.
use gft_core::NoMemory;
use gft_syntax::CType;
use gft_value::is_subtype;
use std::alloc::Global;

/// Which alternatives take arguments of these types: one, none, or the first two of several.
#[derive(Clone, Copy, Debug, PartialEq, Eq)]
pub enum Choice {
    One(u32),
    None,
    Many(u32, u32),
}

/// Whether the alternative takes as many arguments as there are, each a subtype of its parameter.
fn takes(alternative: &CType, args: &[CType]) -> bool {
    let mut rest = alternative;
    'args: for arg in args {
        match rest {
            CType::Fun(from, to) => {
                if !is_subtype(arg, from.get()) {
                    return false;
                }
                rest = to.get();
            }
            _ => return false,
        }
    }
    !matches!(rest, CType::Fun(_, _))
}

/// With one more that takes the arguments.
fn also(choice: Choice, number: u32) -> Choice {
    match choice {
        Choice::None => Choice::One(number),
        Choice::One(first) => Choice::Many(first, number),
        Choice::Many(first, second) => Choice::Many(first, second),
    }
}

/// The alternative with as many parameters as there are arguments, each argument's type a subtype
/// of the parameter's. NoMemory where the alternatives cannot be numbered.
pub fn choose(
    _alloc: Global,
    alternatives: &Vec<CType>,
    args: &Vec<CType>,
) -> Result<Choice, NoMemory> {
    if alternatives.len() >= u32::MAX as usize {
        return Err(NoMemory);
    }
    let mut choice = Choice::None;
    let mut number = 0u32;
    'each: for alternative in alternatives.as_slice() {
        if takes(alternative, args.as_slice()) {
            choice = also(choice, number);
        }
        number = number.saturating_add(1);
    }
    Ok(choice)
}
