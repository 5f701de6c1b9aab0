//! `empty`: the session has no grammar.
use crate::held::replace;
use crate::line::Line;

/// Lets go of what is held.
pub fn empty(line: &mut Line) {
    replace(&mut line.held, None);
}
