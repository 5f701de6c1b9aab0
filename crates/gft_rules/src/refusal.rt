//! Refusals, and the line that one is written as.
ghost use Rattle.std.specs.Prelude.{◌≡◌, ◌<◌, ◌++◌, IfOk, OnOk, length, string_bytes, vec_len};
ghost use Rattle.std.specs.Option.{ForSome};
ghost use Rattle.gft_rules.specs.Lines.{line_of, place_part, names_part, later_names};

use crate::rule::Rule;
use gft_core::{NoMemory, Place, Text};
use sqlite_items::Items;
use std::alloc::{AllocError, Global};

/// A rule that is broken: where, if it has a place, and the names that it carries, in the order in
/// which they are written.
#[derive(Debug, Drop)]
pub struct Refusal {
    pub rule: Rule,
    pub place: Option<Place>,
    pub names: Items<Text>,
}

/// Why a call has no answer: what it was given is refused, or memory ran out.
#[derive(Debug, Drop)]
pub enum Stop {
    Refused(Refusal),
    NoMemory,
}

impl From<NoMemory> for Stop {
    ghost use Rattle.gft_rules.specs.declared.refusal.Stop.{Stop};

    ghost from_gives = { λ _ r. r ≡ Stop.NoMemory };

    fn from(_error: NoMemory) -> Stop {
        Stop::NoMemory
    }
}

impl From<AllocError> for Stop {
    ghost use Rattle.gft_rules.specs.declared.refusal.Stop.{Stop};

    ghost from_gives = { λ _ r. r ≡ Stop.NoMemory };

    fn from(_error: AllocError) -> Stop {
        Stop::NoMemory
    }
}

/// Adds ` at FILE:LINE:COL`.
fn push_place(line: &mut String, place: Place, files: &[Text]) -> Result<(), NoMemory>
    requires { place.file < length files.now }
    ensures { OnOk result (string_bytes line.new ≡ string_bytes line.old ++ place_part place files.now) }
{
    let file = &files[place.file as usize];
    write!(line, " at {}:{}:{}", file.as_str(), place.line, place.col)?;
    Ok(())
}

/// Adds each name with `, ` before it.
fn push_more(line: &mut String, names: &[Text]) -> Result<(), NoMemory>
    ensures { OnOk result (string_bytes line.new ≡ string_bytes line.old ++ later_names names.now) }
{
    for name in names {
        line.push_str(", ")?;
        line.push_str(name.as_str())?;
    }
    Ok(())
}

/// Adds `: ` and the names with `, ` between, if there are any.
fn push_names(line: &mut String, names: &[Text]) -> Result<(), NoMemory>
    ensures { OnOk result (string_bytes line.new ≡ string_bytes line.old ++ names_part names.now) }
{
    let Some((first, others)) = names.split_first() else {
        return Ok(());
    };
    line.push_str(": ")?;
    line.push_str(first.as_str())?;
    push_more(line, others)
}

impl Refusal {
    /// The line that is written, without a newline; `files` has the names of the loaded files in
    /// the order of their numbers.
    pub fn show(&self, alloc: Global, files: &Vec<Text>) -> Result<Text, NoMemory>
        requires { ForSome self.now.place (λ place. place.file < vec_len files.now) }
        ensures { IfOk result (λ line. line ≡ line_of self.now files.now.items) }
    {
        let mut line = String::from_str(alloc, "refused ")?;
        line.push_str(self.rule.text())?;
        if let Some(place) = self.place {
            push_place(&mut line, place, files)?;
        }
        push_names(&mut line, self.names.as_slice())?;
        Text::from_str(alloc, line.as_str())
    }
}
