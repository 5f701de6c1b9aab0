//! The named files of an import: the modules of sources, and the grammars of portable files.
use crate::loading::Loading;
use crate::portable::{is_portable, portable};
use crate::table::{NONE, count, push};
use gft_core::{NoMemory, Text};
use gft_io::Store;
use gft_pmcfg::Grammar;
use gft_rules::Stop;
use std::alloc::Global;

/// For each named file the number of its module, or `NONE`, and the number of its grammar, or
/// `NONE`.
#[derive(Drop)]
pub struct Named {
    pub modules: Vec<u32>,
    pub portables: Vec<u32>,
    pub grammars: Vec<Grammar>,
}

impl Named {
    fn new(alloc: Global) -> Named {
        Named {
            modules: Vec::new(alloc),
            portables: Vec::new(alloc),
            grammars: Vec::new(alloc),
        }
    }

    /// Adds the module of a source.
    fn add_module(&mut self, module: u32) -> Result<(), NoMemory> {
        self.modules.push(module)?;
        self.portables.push(NONE)?;
        Ok(())
    }

    /// Adds the grammar of a portable file.
    fn add_grammar(&mut self, grammar: Grammar) -> Result<(), NoMemory> {
        let number = count(self.grammars.as_slice())?;
        push(&mut self.grammars, grammar)?;
        self.modules.push(NONE)?;
        self.portables.push(number)?;
        Ok(())
    }

    /// Loads a named file with all that it needs.
    fn add<F: Store>(
        &mut self,
        alloc: Global,
        name: &str,
        store: &mut F,
        loading: &mut Loading,
    ) -> Result<(), Stop> {
        if is_portable(name) {
            let grammar = portable(alloc, store, name)?;
            self.add_grammar(grammar)?;
            return Ok(());
        }
        let module = loading.source(alloc, store, name)?;
        self.add_module(module)?;
        Ok(())
    }
}

/// Loads the named files in order.
pub fn load_all<F: Store>(
    alloc: Global,
    names: &[Text],
    store: &mut F,
    loading: &mut Loading,
) -> Result<Named, Stop> {
    let mut named = Named::new(alloc);
    'names: for name in names {
        named.add(alloc, name.as_str(), store, loading)?;
    }
    Ok(named)
}
