//! What a header inherits.
use crate::cursor::{Cursor, Halt};
use gft_syntax::{Inherited, PlacedName, Symbol};
use sqlite_items::Items;
use std::alloc::Global;

/// I, `]`
fn listed(alloc: Global, cursor: &mut Cursor<'_>) -> Result<Items<PlacedName>, Halt> {
    let names = cursor.names(alloc)?;
    cursor.symbol(Symbol::RightBracket)?;
    Ok(names)
}

/// I, or I `[` I, `]`, or I `-` `[` I, `]`
pub(crate) fn inherited(alloc: Global, cursor: &mut Cursor<'_>) -> Result<Inherited, Halt> {
    let module = cursor.name(alloc)?;
    if cursor.accept(Symbol::LeftBracket) {
        return Ok(Inherited::Only(module, listed(alloc, cursor)?));
    }
    if !cursor.is_symbol(0, Symbol::Minus) {
        return Ok(Inherited::Whole(module));
    }
    cursor.pass();
    cursor.symbol(Symbol::LeftBracket)?;
    Ok(Inherited::Except(module, listed(alloc, cursor)?))
}

/// Inh,
pub(crate) fn inherited_list(
    alloc: Global,
    cursor: &mut Cursor<'_>,
) -> Result<Items<Inherited>, Halt> {
    let mut list = Items::new(alloc);
    for _ in 0..u64::MAX {
        list.push(inherited(alloc, cursor)?)?;
        if !cursor.accept(Symbol::Comma) {
            break;
        }
    }
    Ok(list)
}
