//! Reading a text whole.
ghost use Rattle.std.specs.Prelude.{◌≡◌, ◌<◌, ◌^◌, length, IfOk, IfErr};
ghost use Rattle.std.specs.Str.{chars};
ghost use Rattle.gft_tree.specs.Reading as spec;
ghost use Rattle.gft_tree.specs.Reading.{Gives};
ghost use Rattle.gft_tree.specs.Faults.{IsRead, AnswersErr};
ghost use Rattle.gft_tree.specs.Laws.{TreeIsSpelledOnce};

use crate::error::TreeErr;
use crate::reader::Reader;
use gft_core::Tree;
use std::alloc::Global;

/// Reads character by character.
fn read(alloc: Global, text: &str) -> Result<Tree, TreeErr>
    requires { length text.now < 2 ^ 32 }
    ensures { Gives result (spec.read_on (length text.now) spec.start (chars text.now)) }
{
    let mut reader = Reader::new(alloc);
    let mut rest = text.chars();
    'characters: loop {
        let at = (text.len() - rest.as_str().len()) as u32;
        match rest.next() {
            Some(c) => reader = reader.step(alloc, at, c)?,
            None => return reader.finish(alloc, at),
        }
    }
}

/// The tree that the text spells, or the fault with the least offset, in bytes from 0. One walk
/// over the text; the stack that it takes does not grow with it.
pub fn read_tree(alloc: Global, text: &str) -> Result<Tree, TreeErr>
    requires { length text.now < 2 ^ 32 }
    ensures ok { IfOk result (IsRead (chars text.now)) }
    ensures err { IfErr result (AnswersErr (chars text.now)) }
{
    read(alloc, text)
}

/// A text spells at most one tree. The function does nothing; its clause is the law.
pub fn tree_is_spelled_once()
    ensures { TreeIsSpelledOnce }
{}
