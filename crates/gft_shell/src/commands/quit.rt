//! `quit`: the session ends.
use crate::line::Line;

/// Ends the session. No pipe behind is answered.
pub fn quit(line: &mut Line) {
    line.quit = true;
}
