//! What interfaces declare for the constants that instances give.
use crate::abstracts::origins_at;
use crate::instances::{Instance, declared, interface_of, is_kept, replacements_of, there_of};
use crate::kinds::{Kind, kind_of};
use gft_core::{NoMemory, Shared};
use gft_functor::{Replacements, Spot};
use gft_modules::{Names, header_name, judgement_at, main_name, number_of, numbers_of};
use gft_syntax::{Declaration, Judgement, Module, Origin, PlacedName};
use indexmap::IndexMap;
use sqlite_items::Items;
use std::alloc::Global;

/// What gives a constant: a judgement, under the number of a name.
#[derive(Clone, Copy, Debug, PartialEq, Eq, Hash)]
struct Given {
    spot: Spot,
    name: u32,
}

/// One of the declarations for a constant: which, for which instance, and the next one.
#[derive(Clone, Copy)]
struct Link {
    made: u32,
    instance: u32,
    next: u32,
}

/// The first and the last of the declarations for a constant.
#[derive(Clone, Copy)]
struct Ends {
    first: u32,
    last: u32,
}

/// The declarations for each constant that an instance gives.
#[derive(Drop)]
pub struct Declarations {
    names: Names,
    made: Vec<Shared<Judgement>>,
    links: Vec<Link>,
    ends: IndexMap<Given, Ends>,
}

/// The judgement under the name of which the entry of a constant stands: a constructor stands in
/// its parameter type.
fn entry_name<'a>(modules: &'a Vec<Module>, spot: Spot, name: &'a str) -> &'a str {
    match judgement_at(modules, spot.module, spot.judgement) {
        None => name,
        Some(judgement) => main_name(judgement, name),
    }
}

impl Declarations {
    fn none(alloc: Global) -> Declarations {
        Declarations {
            names: Names::new(alloc),
            made: Vec::new(alloc),
            links: Vec::new(alloc),
            ends: IndexMap::new(alloc),
        }
    }

    /// The declaration of that number is the last one for the constant already.
    fn is_linked(&self, ends: Ends, made: u32) -> bool {
        match self.links.get(ends.last as usize) {
            None => false,
            Some(link) => link.made == made,
        }
    }

    /// One more declaration for a constant, unless it is the last one already.
    fn link(&mut self, given: Given, made: u32, instance: u32) -> Result<(), NoMemory> {
        let Ok(number) = u32::try_from(self.links.len()) else {
            return Err(NoMemory);
        };
        let mut first = number;
        if let Some(ends) = self.ends.get(&given).copied() {
            if self.is_linked(ends, made) {
                return Ok(());
            }
            if let Some(link) = self.links.get_mut(ends.last as usize) {
                link.next = number;
            }
            first = ends.first;
        }
        self.links.push(Link {
            made,
            instance,
            next: u32::MAX,
        })?;
        self.ends.insert(
            given,
            Ends {
                first,
                last: number,
            },
        )?;
        Ok(())
    }

    /// The number of the interface's judgement as it stands for the instance, made at its first
    /// use.
    fn number(
        &mut self,
        alloc: Global,
        modules: &Vec<Module>,
        replacements: &Replacements,
        origin: &Origin,
        made: &mut IndexMap<Spot, u32>,
    ) -> Result<Option<u32>, NoMemory> {
        let spot = Spot {
            module: origin.module,
            judgement: origin.judgement,
        };
        if let Some(number) = made.get(&spot).copied() {
            return Ok(Some(number));
        }
        let Some(judgement) = judgement_at(modules, origin.module, origin.judgement) else {
            return Ok(None);
        };
        let Ok(number) = u32::try_from(self.made.len()) else {
            return Err(NoMemory);
        };
        self.made
            .push(declared(alloc, modules, replacements, judgement)?)?;
        made.insert(spot, number)?;
        Ok(Some(number))
    }

    /// What the interface declares by a name, where the instance gives it itself.
    fn declare(
        &mut self,
        alloc: Global,
        instance: Instance<'_, '_>,
        replacements: &Replacements,
        origin: &Origin,
        made: &mut IndexMap<Spot, u32>,
    ) -> Result<(), NoMemory> {
        let modules = instance.modules;
        let Some(spot) = instance.there.get(origin.name.as_str()).copied() else {
            return Ok(());
        };
        if kind_of(modules, origin) != Kind::Other || is_kept(modules, instance.number, spot) {
            return Ok(());
        }
        let Some(number) = self.number(alloc, modules, replacements, origin, made)? else {
            return Ok(());
        };
        let name = self
            .names
            .number(alloc, entry_name(modules, spot, origin.name.as_str()))?;
        self.link(Given { spot, name }, number, instance.number)
    }

    /// What the interface declares of what the instance gives itself.
    fn declare_all(
        &mut self,
        alloc: Global,
        instance: Instance<'_, '_>,
        replacements: &Replacements,
        interface: &Vec<Origin>,
    ) -> Result<(), NoMemory> {
        let mut made = IndexMap::new(alloc);
        'origins: for origin in interface {
            self.declare(alloc, instance, replacements, origin, &mut made)?;
        }
        Ok(())
    }

    fn add_instance(
        &mut self,
        alloc: Global,
        instance: Instance<'_, '_>,
        interface: &Vec<Origin>,
    ) -> Result<(), NoMemory> {
        match replacements_of(alloc, instance, interface) {
            Err(error) => Err(error),
            Ok(replacements) => self.declare_all(alloc, instance, &replacements, interface),
        }
    }

    /// The declarations for what the instance of a number gives.
    fn add(
        &mut self,
        alloc: Global,
        modules: &Vec<Module>,
        origins: &Vec<Vec<Origin>>,
        number: u32,
        interface: u32,
    ) -> Result<(), NoMemory> {
        let given = origins_at(origins, number);
        let Some(wanted) = origins.get(interface as usize) else {
            return Ok(());
        };
        match there_of(alloc, given) {
            Err(error) => Err(error),
            Ok(there) => {
                let instance = Instance {
                    modules,
                    number,
                    there: &there,
                };
                self.add_instance(alloc, instance, wanted)
            }
        }
    }

    fn add_all(
        &mut self,
        alloc: Global,
        modules: &Vec<Module>,
        origins: &Vec<Vec<Origin>>,
        order: &Vec<u32>,
        numbers: &IndexMap<&str, u32>,
    ) -> Result<(), NoMemory> {
        'order: for number in order {
            if let Some(of) = interface_of(modules, *number) {
                if let Some(interface) = number_of(numbers, &of.name) {
                    self.add(alloc, modules, origins, *number, interface)?;
                }
            }
        }
        Ok(())
    }

    fn with_numbers(
        alloc: Global,
        modules: &Vec<Module>,
        origins: &Vec<Vec<Origin>>,
        order: &Vec<u32>,
        numbers: &IndexMap<&str, u32>,
    ) -> Result<Declarations, NoMemory> {
        let mut declarations = Declarations::none(alloc);
        match declarations.add_all(alloc, modules, origins, order, numbers) {
            Ok(()) => Ok(declarations),
            Err(error) => Err(error),
        }
    }

    /// The declarations for what the instances among the modules of those numbers give.
    pub fn new(
        alloc: Global,
        modules: &Vec<Module>,
        origins: &Vec<Vec<Origin>>,
        order: &Vec<u32>,
    ) -> Result<Declarations, NoMemory> {
        match numbers_of(alloc, modules) {
            Err(error) => Err(error),
            Ok(numbers) => { Declarations::with_numbers(alloc, modules, origins, order, &numbers) }
        }
    }

    /// The declarations for what a judgement gives under a name, in the order of the modules.
    pub fn declared_for(
        &self,
        alloc: Global,
        modules: &Vec<Module>,
        spot: Spot,
        name: &str,
    ) -> Result<Items<Declaration>, NoMemory> {
        let mut all = Items::new(alloc);
        let Some(name) = self.names.find(name) else {
            return Ok(all);
        };
        let Some(ends) = self.ends.get(&Given { spot, name }).copied() else {
            return Ok(all);
        };
        let mut at = ends.first;
        'links: for _ in 0..self.links.len() {
            let Some(link) = self.links.get(at as usize).copied() else {
                break;
            };
            self.push(alloc, modules, link, &mut all)?;
            at = link.next;
        }
        Ok(all)
    }

    fn push(
        &self,
        alloc: Global,
        modules: &Vec<Module>,
        link: Link,
        all: &mut Items<Declaration>,
    ) -> Result<(), NoMemory> {
        if let Some(judgement) = self.made.get(link.made as usize) {
            if let Some(module) = modules.get(link.instance as usize) {
                all.push(declaration(alloc, header_name(&module.header), judgement)?)?;
            }
        }
        Ok(())
    }
}

fn declaration(
    alloc: Global,
    instance: &PlacedName,
    judgement: &Shared<Judgement>,
) -> Result<Declaration, NoMemory> {
    let judgement = judgement.share()?;
    let instance = instance.name.copy(alloc)?;
    Ok(Declaration {
        instance,
        judgement,
    })
}
