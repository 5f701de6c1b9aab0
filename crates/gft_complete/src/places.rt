//! The items at places of components that were read before.
use crate::words::Seen;
use gft_core::{NoMemory, Sym};
use gft_pmcfg::{Alt, Concrete, Forest, Node};
use indexmap::IndexSet;
use std::alloc::Global;

/// A place, from 0, of a component of a node.
#[derive(Clone, Copy, PartialEq, Eq, Hash)]
struct Place {
    node: u32,
    component: u32,
    at: u32,
}

/// Places that are asked for, each once, in the order in which they were met.
#[derive(Drop)]
pub struct Places {
    asked: IndexSet<Place>,
}

/// What stands at a place.
#[derive(Clone, Copy)]
enum Met {
    /// The symbol of that number is the word there.
    Word(u32),
    Inside(Place),
    Nothing,
}

/// The number of words of a component of a node that was read.
fn length_of(node: &Node, component: u32) -> u32 {
    for pin in node.pins.as_slice() {
        if pin.0 == component {
            return pin.2.saturating_sub(pin.1);
        }
    }
    0
}

/// A node and the length of its component.
fn part_at(f: &Forest, node: u32, component: u32) -> Option<(u32, u32)> {
    match f.nodes.get(node as usize) {
        Some(found) => Some((node, length_of(found, component))),
        None => None,
    }
}

/// The node that an argument is, and the length of its component.
fn part(f: &Forest, children: &[Option<u32>], argument: u32, component: u32) -> Option<(u32, u32)> {
    match children.get(argument as usize) {
        Some(child) => match child {
            Some(node) => part_at(f, *node, component),
            None => None,
        },
        None => None,
    }
}

/// What stands at a place of a sequence.
fn met_at(f: &Forest, sequence: &[Sym], children: &[Option<u32>], at: u32) -> Met {
    let mut left = at;
    let mut number = 0u32;
    for sym in sequence {
        match sym {
            Sym::Tok(_) => {
                if left == 0 {
                    return Met::Word(number);
                }
                left -= 1;
            }
            Sym::Arg(argument, component) => {
                if let Some((node, length)) = part(f, children, *argument, *component) {
                    if left < length {
                        return Met::Inside(Place {
                            node,
                            component: *component,
                            at: left,
                        });
                    }
                    left -= length;
                }
            }
        }
        number = number.saturating_add(1);
    }
    Met::Nothing
}

impl Places {
    /// No place asked yet.
    pub fn new(alloc: Global) -> Places {
        Places {
            asked: IndexSet::new(alloc),
        }
    }

    fn add(&mut self, place: Place) -> Result<(), NoMemory> {
        self.asked.insert(place)?;
        Ok(())
    }

    /// Asks for a place.
    pub fn ask(&mut self, node: u32, component: u32, at: u32) -> Result<(), NoMemory> {
        self.add(Place {
            node,
            component,
            at,
        })
    }

    fn read_sequence(
        &mut self,
        alloc: Global,
        f: &Forest,
        sequence: &[Sym],
        children: &[Option<u32>],
        at: u32,
        seen: &mut Seen,
    ) -> Result<(), NoMemory> {
        match met_at(f, sequence, children, at) {
            Met::Word(number) => match sequence.get(number as usize) {
                Some(Sym::Tok(word)) => seen.add_word(alloc, word),
                _ => Ok(()),
            },
            Met::Inside(place) => self.add(place),
            Met::Nothing => Ok(()),
        }
    }

    fn read_application(
        &mut self,
        alloc: Global,
        f: &Forest,
        c: &Concrete,
        production: u32,
        children: &[Option<u32>],
        place: Place,
        seen: &mut Seen,
    ) -> Result<(), NoMemory> {
        let Some(production) = c.prods.get(production as usize) else {
            return Ok(());
        };
        let Some(sequence) = production.seqs.get(place.component as usize) else {
            return Ok(());
        };
        self.read_sequence(
            alloc,
            f,
            sequence.get().as_slice(),
            children,
            place.at,
            seen,
        )
    }

    fn read_alternative(
        &mut self,
        alloc: Global,
        f: &Forest,
        c: &Concrete,
        alternative: &Alt,
        place: Place,
        seen: &mut Seen,
    ) -> Result<(), NoMemory> {
        match alternative {
            Alt::App(production, children) => self.read_application(
                alloc,
                f,
                c,
                *production,
                children.as_slice(),
                place,
                seen,
            )?,
            Alt::Int(_) => seen.any_int = true,
            Alt::Str(_) => seen.any_string = true,
        }
        Ok(())
    }

    fn read_place(
        &mut self,
        alloc: Global,
        f: &Forest,
        c: &Concrete,
        place: Place,
        seen: &mut Seen,
    ) -> Result<(), NoMemory> {
        let Some(node) = f.nodes.get(place.node as usize) else {
            return Ok(());
        };
        for alternative in node.alts.as_slice() {
            self.read_alternative(alloc, f, c, alternative, place, seen)?;
        }
        Ok(())
    }

    /// Adds what stands at the places that were asked for, over all runs of their nodes.
    pub fn read_all(
        &mut self,
        alloc: Global,
        f: &Forest,
        c: &Concrete,
        seen: &mut Seen,
    ) -> Result<(), NoMemory> {
        'places: for at in 0..u32::MAX {
            let Some(&place) = self.asked.get_index(at as usize) else {
                break 'places;
            };
            self.read_place(alloc, f, c, place, seen)?;
        }
        Ok(())
    }
}
