//! Categories and functions by name. Names are sorted, so a look-up halves their list.
use gft_pmcfg::{Cat, Fun};

/// The number of the function of this name. It takes no memory.
pub fn function_named(funs: &[Fun], name: &str) -> Option<u32> {
    match funs.binary_search_by(|f| f.name.as_str().cmp(&name)) {
        Ok(at) => u32::try_from(at).ok(),
        Err(_) => None,
    }
}

/// The number of the category of this name: `Int` is 0, `String` is 1, and the others are sorted
/// after them. It takes no memory.
pub fn category_named(cats: &[Cat], name: &str) -> Option<u32> {
    if name == "Int" {
        return Some(0);
    }
    if name == "String" {
        return Some(1);
    }
    let Some((_, listed)) = cats.split_at_checked(2) else {
        return None;
    };
    match listed.binary_search_by(|c| c.name.as_str().cmp(&name)) {
        Ok(at) => u32::try_from(at).ok().and_then(|at| at.checked_add(2)),
        Err(_) => None,
    }
}
