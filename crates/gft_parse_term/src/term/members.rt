//! Terms with semicolons between: `variants` and the list of a table.
use super::frame::{Frame, Members, MembersOf, Turn, whole};
use crate::halt::Halt;
use crate::level::Level;
use crate::plan::TermStep;
use crate::reader::Reader;
use gft_syntax::Symbol;

/// The bracket that closes the terms.
fn closing(of: MembersOf) -> Symbol {
    match of {
        MembersOf::TableList => Symbol::RightBracket,
        MembersOf::Variants => Symbol::RightBrace,
    }
}

/// The form whose terms are read.
fn close(reader: &mut Reader<'_>, members: Members) -> Result<Turn, Halt> {
    let Members {
        of,
        start,
        count,
        height,
    } = members;
    match of {
        MembersOf::TableList => {
            whole(
                reader,
                TermStep::TableList(count),
                Level::Exp3,
                start,
                height,
            )
        }
        MembersOf::Variants => whole(
            reader,
            TermStep::Variants(count),
            Level::Exp4,
            start,
            height,
        ),
    }
}

/// The closing bracket, or a term.
pub(crate) fn next_member(reader: &mut Reader<'_>, members: Members) -> Result<Turn, Halt> {
    if reader.accept(closing(members.of)) {
        return close(reader, members);
    }
    Ok(Turn::Within(Frame::Member(members), Level::Exp))
}

/// A term is read.
pub(crate) fn resume_member(
    reader: &mut Reader<'_>,
    members: Members,
    height: u32,
) -> Result<Turn, Halt> {
    let members = Members {
        of: members.of,
        start: members.start,
        count: members.count.saturating_add(1),
        height: members.height.max(height),
    };
    if reader.accept(Symbol::Semicolon) {
        return next_member(reader, members);
    }
    reader.symbol(closing(members.of))?;
    close(reader, members)
}
