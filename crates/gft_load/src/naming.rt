//! Headers and names, module by module, those that are needed first.
use crate::table::{has, push, put};
use gft_core::NoMemory;
use gft_functor::instantiate;
use gft_modules::{
    functor_of, header_name, inherit_from, is_abstract, is_concrete, is_incomplete, refuse,
};
use gft_open::resolve;
use gft_rules::{Refusal, Rule, Stop};
use gft_syntax::{Header, Module, Origin};
use std::alloc::Global;

/// The modules of an import, those that passed with their names resolved, and what each has.
#[derive(Drop)]
pub struct Naming {
    pub modules: Vec<Module>,
    pub origins: Vec<Vec<Origin>>,
    /// The modules that passed, in their order.
    pub passed: Vec<u32>,
    /// The refusal of the first module that did not pass. The types of those before it come first.
    pub refused: Option<Refusal>,
}

/// Whether a module of this header can be named as a file of an import.
fn can_be_named(header: &Header) -> bool {
    is_abstract(header) || (is_concrete(header) && !is_incomplete(header))
}

/// Whether a module gets copies: of its interface, or of the functor of its `with`.
fn gets_copies(module: &Module) -> bool {
    match &module.header {
        Header::Instance(_, _) => true,
        _ => functor_of(&module.rest).is_some(),
    }
}

impl Naming {
    /// Modules of which none has passed.
    pub fn new(alloc: Global, modules: Vec<Module>) -> Result<Naming, NoMemory> {
        let mut origins = Vec::new(alloc);
        'modules: for _ in 0..modules.len() {
            origins.push(Vec::new(alloc))?;
        }
        Ok(Naming {
            modules,
            origins,
            passed: Vec::new(alloc),
            refused: None,
        })
    }

    /// Refuses a named file whose module is of another kind.
    fn check_named(&self, alloc: Global, m: u32) -> Result<(), Stop> {
        let Some(module) = self.modules.get(m as usize) else {
            return Ok(()); // excluded by loading: the module is there
        };
        if can_be_named(&module.header) {
            return Ok(());
        }
        let name = header_name(&module.header);
        let names = [name.name.as_str()];
        Err(refuse(alloc, Rule::WrongKind, name.place, &names))
    }

    fn needs_copies(&self, m: u32) -> bool {
        match self.modules.get(m as usize) {
            None => false,
            Some(module) => gets_copies(module),
        }
    }

    /// Decides the rules of the header alone, and what the module has.
    fn inherit(&mut self, alloc: Global, m: u32) -> Result<(), Stop> {
        let origins = inherit_from(alloc, &self.modules, m, &self.origins)?;
        put(&mut self.origins, m, origins);
        Ok(())
    }

    /// Adds the copies of a module.
    fn copy(&mut self, alloc: Global, m: u32) -> Result<(), Stop> {
        let module = instantiate(alloc, &self.modules, m, &self.origins)?;
        put(&mut self.modules, m, module);
        Ok(())
    }

    fn resolve(&mut self, alloc: Global, m: u32) -> Result<(), Stop> {
        let module = resolve(alloc, &self.modules, m, &self.origins)?;
        put(&mut self.modules, m, module);
        Ok(())
    }

    /// The pass of a module: the rules of its header, then its copies, then its names.
    fn module(&mut self, alloc: Global, m: u32, is_named: bool) -> Result<(), Stop> {
        if is_named {
            self.check_named(alloc, m)?;
        }
        self.inherit(alloc, m)?;
        if self.needs_copies(m) {
            self.copy(alloc, m)?;
            self.inherit(alloc, m)?;
        }
        self.resolve(alloc, m)?;
        push(&mut self.passed, m)?;
        Ok(())
    }

    /// Passes the modules in this order, up to the first that is refused.
    pub fn pass(&mut self, alloc: Global, order: &[u32], named: &[u32]) -> Result<(), NoMemory> {
        'modules: for m in order {
            match self.module(alloc, *m, has(named, *m)) {
                Ok(()) => {}
                Err(Stop::Refused(refusal)) => {
                    self.refused = Some(refusal);
                    return Ok(());
                }
                Err(Stop::NoMemory) => return Err(NoMemory),
            }
        }
        Ok(())
    }
}
