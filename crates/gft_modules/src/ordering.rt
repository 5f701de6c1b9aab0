//! The order of modules: what a module names comes before it, in the order of the text.
use crate::headers::mentions;
use crate::numbers::{number_of, numbers_of};
use gft_core::NoMemory;
use gft_syntax::Module;
use indexmap::IndexMap;
use std::alloc::Global;

/// The modules that each module names, by number.
fn named_by(
    alloc: Global,
    modules: &Vec<Module>,
    numbers: &IndexMap<&str, u32>,
) -> Result<Vec<Vec<u32>>, NoMemory> {
    let mut all = Vec::new(alloc);
    'modules: for module in modules {
        let mut named = Vec::new(alloc);
        'names: for name in mentions(alloc, module)?.iter() {
            if let Some(number) = number_of(numbers, &name.name) {
                named.push(number)?;
            }
        }
        all.push(named)?;
    }
    Ok(all)
}

/// Modules that are begun, the innermost last, each with how many of the modules that it names were
/// looked at.
#[derive(Drop)]
struct Walk {
    begun: Vec<bool>,
    open: Vec<(u32, usize)>,
    done: Vec<u32>,
}

impl Walk {
    fn new(alloc: Global, modules: &Vec<Module>) -> Result<Walk, NoMemory> {
        let mut begun = Vec::new(alloc);
        'each: for _module in modules {
            begun.push(false)?;
        }
        Ok(Walk {
            begun,
            open: Vec::new(alloc),
            done: Vec::new(alloc),
        })
    }

    /// Begins a module that is not begun.
    fn begin(&mut self, number: u32) -> Result<(), NoMemory> {
        match self.begun.get_mut(number as usize) {
            None => return Ok(()),
            Some(begun) => {
                if *begun {
                    return Ok(());
                }
                *begun = true;
            }
        }
        self.open.push((number, 0))?;
        Ok(())
    }

    /// Looks at the next module that the innermost one names, or ends it. False where none is open.
    fn step(&mut self, named: &Vec<Vec<u32>>) -> Result<bool, NoMemory> {
        let Some((number, at)) = self.open.pop() else {
            return Ok(false);
        };
        match next_named(named, number, at) {
            None => self.done.push(number)?,
            Some(next) => {
                self.open.push((number, at.saturating_add(1)))?;
                self.begin(next)?;
            }
        }
        Ok(true)
    }
}

fn next_named(named: &Vec<Vec<u32>>, number: u32, at: usize) -> Option<u32> {
    match named.get(number as usize) {
        None => None,
        Some(names) => names.get(at).copied(),
    }
}

/// More steps than any walk takes.
fn steps_of(named: &Vec<Vec<u32>>) -> usize {
    let mut steps = 1usize;
    'each: for names in named {
        steps = steps.saturating_add(names.len()).saturating_add(1);
    }
    steps
}

/// The numbers of the modules among some, and of all that they rest on, those needed first.
pub fn order_from(
    alloc: Global,
    modules: &Vec<Module>,
    roots: &[u32],
) -> Result<Vec<u32>, NoMemory> {
    let numbers = numbers_of(alloc, modules)?;
    let named = named_by(alloc, modules, &numbers)?;
    let steps = steps_of(&named);
    let mut walk = Walk::new(alloc, modules)?;
    'roots: for root in roots {
        walk.begin(*root)?;
        'steps: for _ in 0..steps {
            if !walk.step(&named)? {
                break;
            }
        }
    }
    let Walk {
        begun: _,
        open: _,
        done,
    } = walk;
    Ok(done)
}

/// The numbers of the modules, those needed first. Needs each module that a header names, and no
/// cycle.
pub fn order(alloc: Global, modules: &Vec<Module>) -> Result<Vec<u32>, NoMemory> {
    let mut roots = Vec::new(alloc);
    let mut number = 0u32;
    'each: for _module in modules {
        roots.push(number)?;
        number = number.saturating_add(1);
    }
    order_from(alloc, modules, roots.as_slice())
}
