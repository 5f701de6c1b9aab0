//! What a header opens, and what it gives for interfaces.
use crate::cursor::{Cursor, Halt};
use gft_syntax::{Opened, Reserved, Substitution, Symbol};
use sqlite_items::Items;
use std::alloc::Global;

/// I, or `(` I `=` I `)`
fn opened(alloc: Global, cursor: &mut Cursor<'_>) -> Result<Opened, Halt> {
    if !cursor.accept(Symbol::LeftParenthesis) {
        return Ok(Opened::Plain(cursor.name(alloc)?));
    }
    let alias = cursor.name(alloc)?;
    cursor.symbol(Symbol::Equals)?;
    let module = cursor.name(alloc)?;
    cursor.symbol(Symbol::RightParenthesis)?;
    Ok(Opened::Qualified(alias, module))
}

/// Open,
fn opened_list(alloc: Global, cursor: &mut Cursor<'_>) -> Result<Items<Opened>, Halt> {
    let mut list = Items::new(alloc);
    for _ in 0..u64::MAX {
        list.push(opened(alloc, cursor)?)?;
        if !cursor.accept(Symbol::Comma) {
            break;
        }
    }
    Ok(list)
}

/// `open` Open, `in`, or nothing
pub(crate) fn opens(alloc: Global, cursor: &mut Cursor<'_>) -> Result<Items<Opened>, Halt> {
    if !cursor.accept_word(Reserved::OpenWord) {
        return Ok(Items::new(alloc));
    }
    let list = opened_list(alloc, cursor)?;
    cursor.word(Reserved::InWord)?;
    Ok(list)
}

/// Sub
fn substitution(alloc: Global, cursor: &mut Cursor<'_>) -> Result<Substitution, Halt> {
    cursor.symbol(Symbol::LeftParenthesis)?;
    let interface = cursor.name(alloc)?;
    cursor.symbol(Symbol::Equals)?;
    let instance = cursor.name(alloc)?;
    cursor.symbol(Symbol::RightParenthesis)?;
    Ok(Substitution {
        interface,
        instance,
    })
}

/// `with` Sub,
pub(crate) fn substitutions(
    alloc: Global,
    cursor: &mut Cursor<'_>,
) -> Result<Items<Substitution>, Halt> {
    cursor.word(Reserved::With)?;
    let mut list = Items::new(alloc);
    for _ in 0..u64::MAX {
        list.push(substitution(alloc, cursor)?)?;
        if !cursor.accept(Symbol::Comma) {
            break;
        }
    }
    Ok(list)
}
