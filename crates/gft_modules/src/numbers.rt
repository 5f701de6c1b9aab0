//! The numbers of modules by their names.
use crate::headers::header_name;
use gft_core::{Name, NoMemory};
use gft_syntax::Module;
use indexmap::IndexMap;
use std::alloc::Global;

/// The number of each module by its name.
pub fn numbers_of<'a>(
    alloc: Global,
    modules: &'a Vec<Module>,
) -> Result<IndexMap<&'a str, u32>, NoMemory> {
    let mut numbers = IndexMap::new(alloc);
    let mut number = 0u32;
    'each: for module in modules {
        numbers.insert(header_name(&module.header).name.as_str(), number)?;
        number = number.saturating_add(1);
    }
    Ok(numbers)
}

/// The number of the module of that name.
pub fn number_of(numbers: &IndexMap<&str, u32>, name: &Name) -> Option<u32> {
    numbers.get(name.as_str()).copied()
}
