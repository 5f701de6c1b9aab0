//! The branches of tables and of `case`.
use super::frame::{Branches, BranchesOf, Frame, Turn, whole};
use crate::halt::Halt;
use crate::level::Level;
use crate::pattern::pattern;
use crate::plan::{Step, TermStep};
use crate::reader::Reader;
use gft_syntax::Symbol;

/// The form whose branches are read.
fn close(reader: &mut Reader<'_>, branches: Branches) -> Result<Turn, Halt> {
    let Branches {
        of,
        start,
        count,
        height,
    } = branches;
    match of {
        BranchesOf::Table => whole(reader, TermStep::Table(count), Level::Exp3, start, height),
        BranchesOf::TableOver => {
            whole(
                reader,
                TermStep::TableOver(count),
                Level::Exp3,
                start,
                height,
            )
        }
        BranchesOf::Case => whole(reader, TermStep::CaseOf(count), Level::Exp4, start, height),
    }
}

/// `}`, or Patt `=>`
pub(crate) fn next_branch(reader: &mut Reader<'_>, branches: Branches) -> Result<Turn, Halt> {
    if reader.accept(Symbol::RightBrace) {
        return close(reader, branches);
    }
    let height = pattern(reader)?;
    reader.symbol(Symbol::DoubleArrow)?;
    let branches = Branches {
        of: branches.of,
        start: branches.start,
        count: branches.count,
        height: branches.height.max(height),
    };
    Ok(Turn::Within(Frame::Branch(branches), Level::Exp))
}

/// The body of a branch is read.
pub(crate) fn resume_branch(
    reader: &mut Reader<'_>,
    branches: Branches,
    height: u32,
) -> Result<Turn, Halt> {
    reader.put(Step::Branch)?;
    let branches = Branches {
        of: branches.of,
        start: branches.start,
        count: branches.count.saturating_add(1),
        height: branches.height.max(height),
    };
    if reader.accept(Symbol::Semicolon) {
        return next_branch(reader, branches);
    }
    reader.symbol(Symbol::RightBrace)?;
    close(reader, branches)
}
