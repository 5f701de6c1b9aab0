//! The pipes of a line.
use crate::argument::read_argument;
use crate::command::{Argument, Command, Read};
use crate::cutting::{first_word, is_blank, split_outside};
use crate::options::read_options;
use crate::refusing::{plain, push, stop_at};
use crate::verb::{Verb, verb_of};
use gft_core::NoMemory;
use gft_rules::{Rule, Stop};
use std::alloc::Global;

/// A command of that name; `rest` is what follows the name.
fn read_after(alloc: Global, verb: Verb, rest: &str, later: bool) -> Result<Command, Stop> {
    let (options, rest) = read_options(alloc, verb, rest)?;
    let argument = read_argument(alloc, verb, rest.trim(), later)?;
    Ok(Command {
        verb,
        lang: options.lang,
        cat: options.cat,
        depth: options.depth,
        bracket: options.bracket,
        argument,
    })
}

/// A command, `later` where it is not the first of its pipe.
fn read_command(alloc: Global, text: &str, later: bool) -> Result<Command, Stop> {
    let (name, rest) = first_word(text);
    match verb_of(name) {
        Some(verb) => read_after(alloc, verb, rest, later),
        None => Err(stop_at(alloc, Rule::UnknownCommand, name)),
    }
}

/// The commands of a pipe.
fn read_commands(alloc: Global, pipe: &str) -> Result<Vec<Command>, Stop> {
    let mut commands = Vec::new(alloc);
    let mut rest = Some(pipe);
    'commands: for at in 0..=pipe.len() {
        let Some(text) = rest else {
            break;
        };
        let (command, after) = split_outside(text, b'|');
        push(&mut commands, read_command(alloc, command, at != 0)?)?;
        rest = after;
    }
    Ok(commands)
}

/// Whether the command takes what the one before it hands on, and has no argument of its own.
/// Strings with brackets are not handed on.
fn follows(before: &Command, command: &Command) -> bool {
    if before.bracket {
        return false;
    }
    match command.argument {
        Argument::Nothing => match before.verb.gives() {
            Some(item) => command.verb.takes() == Some(item),
            None => false,
        },
        _ => false,
    }
}

/// Whether each command takes what the one before it hands on.
fn is_pipe(commands: &[Command]) -> bool {
    let Some((first, others)) = commands.split_first() else {
        return true;
    };
    let mut before = first;
    'commands: for command in others {
        if !follows(before, command) {
            return false;
        }
        before = command;
    }
    true
}

/// The pipe that the text is, which is not blank.
fn read_pipe(alloc: Global, text: &str) -> Result<Read, NoMemory> {
    match read_commands(alloc, text) {
        Ok(commands) => {
            if is_pipe(&commands) {
                Ok(Read::Pipe(commands))
            } else {
                Ok(Read::Refused(plain(alloc, Rule::BadPipe)))
            }
        }
        Err(Stop::Refused(refusal)) => Ok(Read::Refused(refusal)),
        Err(Stop::NoMemory) => Err(NoMemory),
    }
}

/// The pipes of the line that are not blank, in order; a refused one has the first refusal that the
/// line alone shows. A line that begins with two hyphens has none. Linear in the line.
pub fn read_line(alloc: Global, line: &str) -> Result<Vec<Read>, NoMemory> {
    let mut reads = Vec::new(alloc);
    if line.starts_with("--") {
        return Ok(reads);
    }
    let mut rest = Some(line);
    'pipes: for _ in 0..=line.len() {
        let Some(text) = rest else {
            break;
        };
        let (pipe, after) = split_outside(text, b';');
        if !is_blank(pipe) {
            reads.push(read_pipe(alloc, pipe)?)?;
        }
        rest = after;
    }
    Ok(reads)
}
