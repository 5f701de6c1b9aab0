//! Replies to an import and to lines.
ghost use Rattle.std.specs.Prelude.{◌≡◌, IfOk};
ghost use Rattle.gft_top.specs.Replies.{too_long};
ghost use Rattle.gft_top.specs.Turns.{reply_of};

use gft_core::NoMemory;
use gft_shell::Step;
use std::alloc::Global;

/// What is written for an import or a line, whether a refusal is in it, and whether the session
/// ends with it.
#[derive(Drop)]
pub struct Reply {
    pub text: Vec<u8>,
    pub refused: bool,
    pub quit: bool,
}

impl Reply {
    /// The reply of a step of the session.
    pub fn of(step: Step) -> Reply {
        Reply {
            text: step.reply,
            refused: step.refused,
            quit: step.quit,
        }
    }
}

/// The reply to a line over its limit, which the session does not see.
pub fn too_long(alloc: Global) -> Result<Reply, NoMemory>
    ensures { IfOk result (λ reply. reply_of reply ≡ too_long) }
{
    let mut text = Vec::new(alloc);
    text.extend_from_slice(b"refused LineTooLong\n")?;
    Ok(Reply {
        text,
        refused: true,
        quit: false,
    })
}
