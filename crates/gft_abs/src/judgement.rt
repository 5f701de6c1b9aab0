//! The types of a judgement of abstract syntax.
use crate::reader::{Applied, Reader};
use crate::reading::{argument, function};
use gft_pmcfg::AType;
use gft_rules::{Rule, Stop};
use gft_syntax::{FlatJudgement, Judgement, PlacedName, Reference};
use sqlite_items::Items;

/// Reads the types of a category's indices; those of a list's category are none.
pub fn category_types<'r, 'a>(
    r: &mut Reader<'r, 'a>,
    entry: &'a FlatJudgement,
) -> Result<(), Stop> {
    match entry.judgement.get() {
        Judgement::Cat(_, contexts) => {
            'contexts: for context in contexts.as_slice() {
                let t = argument(r, &context.of_type)?;
                r.bind(context.binds.as_slice(), t)?;
            }
            Ok(())
        }
        _ => Ok(()),
    }
}

/// A category without indices.
fn plain(r: &Reader<'_, '_>, cat: u32) -> AType {
    AType {
        cat,
        args: Items::new(r.alloc()),
    }
}

/// The name of the category of lists of an element.
fn list_name(r: &Reader<'_, '_>, element: &PlacedName) -> Result<String, Stop> {
    let mut name = String::from_str(r.alloc(), "List")?;
    name.push_str(element.name.as_str())?;
    Ok(name)
}

/// Reads the type of a function that makes lists: `Base` takes so many elements, `Cons` an element
/// and a list.
fn list_types(
    r: &mut Reader<'_, '_>,
    is_base: bool,
    element: &PlacedName,
    reference: &Reference,
    size: u128,
) -> Result<(), Stop> {
    let Some(cat) = r.category(reference)? else {
        return Err(r.named(Rule::UnknownCat, element.place, element.name.as_str()));
    };
    let list = list_name(r, element)?;
    let list = r.list_category(list.as_str())?;
    if is_base {
        'elements: for _ in 0..size.min(16) {
            let t = plain(r, cat);
            r.give(t)?;
        }
    } else {
        let t = plain(r, cat);
        r.give(t)?;
        let t = plain(r, list);
        r.give(t)?;
    }
    let t = plain(r, list);
    r.give(t)?;
    Ok(())
}

/// Whether an entry of the judgement of a list's category is that of its `Base` function.
fn is_base(entry: &FlatJudgement) -> bool {
    entry.whole.name.as_str().as_bytes().first().copied() == Some(b'B')
}

/// Reads the types of a function's arguments, and that of its result at the end.
pub fn function_types<'r, 'a>(
    r: &mut Reader<'r, 'a>,
    entry: &'a FlatJudgement,
) -> Result<(), Stop> {
    match entry.judgement.get() {
        Judgement::Fun(_, term) => function(r, term),
        Judgement::ListCat(element, reference, size, _) => {
            list_types(r, is_base(entry), element, reference, *size)
        }
        // excluded by the parser: no other judgement stands in an abstract module
        _ => Ok(()),
    }
}

/// The faults of a category's judgement.
pub fn check_category<'r, 'a>(
    r: &mut Reader<'r, 'a>,
    entry: &'a FlatJudgement,
) -> Result<(), Stop> {
    match entry.judgement.get() {
        Judgement::ListCat(element, reference, _, _) => {
            let Some(cat) = r.category(reference)? else {
                return Err(r.named(Rule::UnknownCat, element.place, element.name.as_str()));
            };
            let base = r.base();
            r.count(Applied::Category(cat), base, element.place, &element.name)
        }
        _ => category_types(r, entry),
    }
}

/// The faults of a function's judgement; those of lists are faults of the list's category.
pub fn check_function<'r, 'a>(
    r: &mut Reader<'r, 'a>,
    entry: &'a FlatJudgement,
) -> Result<(), Stop> {
    match entry.judgement.get() {
        Judgement::Fun(_, term) => function(r, term),
        _ => Ok(()),
    }
}
