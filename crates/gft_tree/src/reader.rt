//! The reader of a tree: one character after another.
ghost use Rattle.std.specs.Prelude.{◌≡◌, ◌-◌, ◌≤◌, Some, None, if◌then◌else◌};
ghost use Rattle.std.specs.Char.{is_ascii_digit};
ghost use Rattle.gft_tree.specs.Reading as spec;
ghost use Rattle.gft_tree.specs.Reading.{Gives};

use crate::error::TreeErr;
use crate::letters::Letters;
use crate::level::{Gap, Level};
use crate::levels::Levels;
use gft_core::{Tree, is_continue, is_start};
use std::alloc::Global;

/// How many parentheses may be open at once.
const MOST_OPEN: usize = 200;

/// Where a reader stands. A token that is being read has the place of its first character.
#[derive(Drop)]
pub enum Here {
    Between(Gap),
    /// Behind a `?`.
    Asked(Level),
    InWord(Level, u32, Letters),
    /// Whether it is a hole's number; its value, as long as it is canonical and below 2 ^ 128.
    InNumber(Level, bool, u32, Option<u128>),
    InQuotes(Level, u32, Letters),
    /// Behind a backslash in quotes.
    InEscape(Level, u32, Letters),
}

/// What was read so far.
#[derive(Drop)]
pub struct Reader {
    pub outer: Levels,
    pub here: Here,
}

/// The value of an ASCII digit.
fn digit(c: char) -> Option<u128>
    ensures { result ≡ (if is_ascii_digit c then Some (c - 48) else None) }
{
    if c.is_ascii_digit() {
        Some(c as u128 - 48)
    } else {
        None
    }
}

fn with_digit(value: Option<u128>, digit: u128) -> Option<u128>
    requires { digit ≤ 9 }
    ensures { result ≡ spec.with_digit value digit }
{
    let value = value?;
    if value == 0 {
        return None;
    }
    value.checked_mul(10)?.checked_add(digit)
}

fn closed(outer: Levels, tree: Option<Tree>, at: u32) -> Result<Reader, TreeErr>
    ensures { Gives result (spec.closed outer tree at) }
{
    let Some(tree) = tree else {
        return Err(TreeErr::Syntax(at))
    };
    let Some((level, outer)) = outer.pop() else {
        return Err(TreeErr::Syntax(at))
    };
    let gap = level.with_atom(tree)?;
    Ok(Reader {
        outer,
        here: Here::Between(gap),
    })
}

fn opened(outer: Levels, level: Level, at: u32) -> Result<Reader, TreeErr>
    ensures { Gives result (spec.opened outer level at) }
{
    if outer.len() >= MOST_OPEN {
        return Err(TreeErr::TooDeep(at));
    }
    let outer = outer.push(level)?;
    Ok(Reader {
        outer,
        here: Here::Between(Gap::Begun(Level::Empty)),
    })
}

/// Between two tokens, where an atom may come.
fn step_begun(
    alloc: Global,
    outer: Levels,
    level: Level,
    at: u32,
    c: char,
) -> Result<Reader, TreeErr>
    ensures { Gives result (spec.step_begun outer level at c) }
{
    if c.is_whitespace() {
        return Ok(Reader {
            outer,
            here: Here::Between(Gap::Begun(level)),
        });
    }
    if c == '(' {
        return opened(outer, level, at);
    }
    if c == ')' {
        return closed(outer, Gap::Begun(level).into_tree(), at);
    }
    if c == '"' {
        return Ok(Reader {
            outer,
            here: Here::InQuotes(level, at, Letters::new(alloc)),
        });
    }
    if c == '?' {
        return Ok(Reader {
            outer,
            here: Here::Asked(level),
        });
    }
    if let Some(value) = digit(c) {
        return Ok(Reader {
            outer,
            here: Here::InNumber(level, false, at, Some(value)),
        });
    }
    if is_start(c) {
        let letters = Letters::new(alloc).and(c)?;
        return Ok(Reader {
            outer,
            here: Here::InWord(level, at, letters),
        });
    }
    Err(TreeErr::Syntax(at))
}

/// Between two tokens, where no atom may come.
fn step_whole(outer: Levels, tree: Tree, at: u32, c: char) -> Result<Reader, TreeErr>
    ensures { Gives result (spec.step_whole outer tree at c) }
{
    if c.is_whitespace() {
        return Ok(Reader {
            outer,
            here: Here::Between(Gap::Whole(tree)),
        });
    }
    if c == ')' {
        return closed(outer, Some(tree), at);
    }
    Err(TreeErr::Syntax(at))
}

fn step_between(alloc: Global, outer: Levels, gap: Gap, at: u32, c: char) -> Result<Reader, TreeErr>
    ensures { Gives result (spec.step_between outer gap at c) }
{
    match gap {
        Gap::Begun(level) => step_begun(alloc, outer, level, at, c),
        Gap::Whole(tree) => step_whole(outer, tree, at, c),
    }
}

/// Behind a `?`.
fn step_asked(outer: Levels, level: Level, at: u32, c: char) -> Result<Reader, TreeErr>
    ensures { Gives result (spec.step_asked outer level at c) }
{
    if c.is_whitespace() {
        return Ok(Reader {
            outer,
            here: Here::Asked(level),
        });
    }
    if let Some(value) = digit(c) {
        return Ok(Reader {
            outer,
            here: Here::InNumber(level, true, at, Some(value)),
        });
    }
    Err(TreeErr::Syntax(at))
}

fn word_ended(alloc: Global, level: Level, start: u32, letters: Letters) -> Result<Gap, TreeErr>
    ensures { Gives result (spec.word_ended level start letters) }
{
    let Some(name) = letters.name(alloc)? else {
        return Err(TreeErr::Syntax(start))
    };
    Ok(level.with_name(alloc, name)?)
}

fn number_ended(level: Level, hole: bool, start: u32, value: Option<u128>) -> Result<Gap, TreeErr>
    ensures { Gives result (spec.number_ended level hole start value) }
{
    let Some(value) = value else {
        return Err(TreeErr::BadLiteral(start))
    };
    if !hole {
        return Ok(level.with_atom(Tree::Int(value))?);
    }
    if value == 0 || value > u32::MAX as u128 {
        return Err(TreeErr::BadLiteral(start));
    }
    Ok(level.with_atom(Tree::Hole(value as u32))?)
}

fn string_ended(alloc: Global, level: Level, start: u32, letters: Letters) -> Result<Gap, TreeErr>
    ensures { Gives result (spec.string_ended level start letters) }
{
    let Some(word) = letters.word(alloc)? else {
        return Err(TreeErr::BadLiteral(start))
    };
    Ok(level.with_atom(Tree::Str(word))?)
}

fn step_word(
    alloc: Global,
    outer: Levels,
    level: Level,
    start: u32,
    letters: Letters,
    at: u32,
    c: char,
) -> Result<Reader, TreeErr>
    ensures { Gives result (spec.step_word outer level start letters at c) }
{
    if is_continue(c) {
        let letters = letters.and(c)?;
        return Ok(Reader {
            outer,
            here: Here::InWord(level, start, letters),
        });
    }
    let gap = word_ended(alloc, level, start, letters)?;
    step_between(alloc, outer, gap, at, c)
}

fn step_number(
    alloc: Global,
    outer: Levels,
    level: Level,
    hole: bool,
    start: u32,
    value: Option<u128>,
    at: u32,
    c: char,
) -> Result<Reader, TreeErr>
    ensures { Gives result (spec.step_number outer level hole start value at c) }
{
    if let Some(last) = digit(c) {
        let value = with_digit(value, last);
        return Ok(Reader {
            outer,
            here: Here::InNumber(level, hole, start, value),
        });
    }
    let gap = number_ended(level, hole, start, value)?;
    step_between(alloc, outer, gap, at, c)
}

fn step_quotes(
    alloc: Global,
    outer: Levels,
    level: Level,
    start: u32,
    letters: Letters,
    at: u32,
    c: char,
) -> Result<Reader, TreeErr>
    ensures { Gives result (spec.step_quotes outer level start letters at c) }
{
    if c == '"' {
        let gap = string_ended(alloc, level, start, letters)?;
        return Ok(Reader {
            outer,
            here: Here::Between(gap),
        });
    }
    if c == '\\' {
        return Ok(Reader {
            outer,
            here: Here::InEscape(level, start, letters),
        });
    }
    if c == '\n' {
        return Err(TreeErr::Syntax(at));
    }
    let letters = letters.and(c)?;
    Ok(Reader {
        outer,
        here: Here::InQuotes(level, start, letters),
    })
}

fn step_escape(
    outer: Levels,
    level: Level,
    start: u32,
    letters: Letters,
    at: u32,
    c: char,
) -> Result<Reader, TreeErr>
    ensures { Gives result (spec.step_escape outer level start letters at c) }
{
    if c != '"' && c != '\\' {
        return Err(TreeErr::Syntax(at));
    }
    let letters = letters.and(c)?;
    Ok(Reader {
        outer,
        here: Here::InQuotes(level, start, letters),
    })
}

fn finished_gap(outer: Levels, gap: Gap, at: u32) -> Result<Tree, TreeErr>
    ensures { result ≡ spec.finished_gap outer (spec.tree_of gap) at }
{
    let Some(tree) = gap.into_tree() else {
        return Err(TreeErr::Syntax(at))
    };
    if outer.pop().is_some() {
        return Err(TreeErr::Syntax(at));
    }
    Ok(tree)
}

impl Reader {
    /// A reader before the first character. It takes no memory.
    pub fn new(alloc: Global) -> Reader
        ensures { result ≡ spec.start }
    {
        Reader {
            outer: Levels::new(alloc),
            here: Here::Between(Gap::Begun(Level::Empty)),
        }
    }

    /// Reads one character, at that byte.
    pub fn step(self, alloc: Global, at: u32, c: char) -> Result<Reader, TreeErr>
        ensures { Gives result (spec.step self at c) }
    {
        let Reader { outer, here } = self;
        match here {
            Here::Between(gap) => step_between(alloc, outer, gap, at, c),
            Here::Asked(level) => step_asked(outer, level, at, c),
            Here::InWord(level, start, letters) => {
                step_word(alloc, outer, level, start, letters, at, c)
            }
            Here::InNumber(level, hole, start, value) => {
                step_number(alloc, outer, level, hole, start, value, at, c)
            }
            Here::InQuotes(level, start, letters) => {
                step_quotes(alloc, outer, level, start, letters, at, c)
            }
            Here::InEscape(level, start, letters) => {
                step_escape(outer, level, start, letters, at, c)
            }
        }
    }

    /// What was read, where the text ends at that byte.
    pub fn finish(self, alloc: Global, at: u32) -> Result<Tree, TreeErr>
        ensures { Gives result (spec.finished self at) }
    {
        let Reader { outer, here } = self;
        match here {
            Here::Between(gap) => finished_gap(outer, gap, at),
            Here::InWord(level, start, letters) => {
                let gap = word_ended(alloc, level, start, letters)?;
                finished_gap(outer, gap, at)
            }
            Here::InNumber(level, hole, start, value) => {
                let gap = number_ended(level, hole, start, value)?;
                finished_gap(outer, gap, at)
            }
            Here::Asked(_) => Err(TreeErr::Syntax(at)),
            Here::InQuotes(..) => Err(TreeErr::Syntax(at)),
            Here::InEscape(..) => Err(TreeErr::Syntax(at)),
        }
    }
}
