//! A pipe: what it lacks, then its commands one after the other.
use crate::commands::empty::empty;
use crate::commands::import::import;
use crate::commands::quit::quit;
use crate::commands::write_portable::write_portable;
use crate::commands::{Given, answer_argument, answer_item};
use crate::held::{Held, replace};
use crate::item::Item;
use crate::line::Line;
use crate::reply::Reply;
use crate::settings::{Settings, settings_of};
use gft_command::{Argument, Command, Verb};
use gft_core::{NoMemory, Text};
use gft_io::Store;
use gft_rules::Stop;
use gft_tree::print;
use std::alloc::Global;

fn add(all: &mut Vec<Settings>, settings: Settings) -> Result<(), NoMemory> {
    all.push(settings)?;
    Ok(())
}

/// The commands over what is held, or the first thing that one of them lacks.
fn settings_of_all(
    alloc: Global,
    held: Option<&Held>,
    commands: &[Command],
) -> Result<Vec<Settings>, Stop> {
    let mut all = Vec::new(alloc);
    'commands: for command in commands {
        let settings = settings_of(alloc, held, command)?;
        add(&mut all, settings)?;
    }
    Ok(all)
}

/// What a later command answers to all items that the one before it handed on.
fn answer_items(given: Given<'_>, settings: Settings, items: &[Item]) -> Result<Vec<Item>, Stop> {
    let mut answers = Vec::new(given.alloc);
    'items: for item in items {
        answer_item(given, settings, item, &mut answers)?;
    }
    Ok(answers)
}

/// What the commands of a pipe answer, each with all its items before the next one begins.
fn items_of(
    given: Given<'_>,
    argument: &Argument,
    settings: &[Settings],
) -> Result<Vec<Item>, Stop> {
    let mut items = Vec::new(given.alloc);
    let Some((first, others)) = settings.split_first() else {
        return Ok(items); // excluded by reading: a pipe has a command
    };
    answer_argument(given, *first, argument, &mut items)?;
    'commands: for settings in others {
        let answers = answer_items(given, *settings, items.as_slice())?;
        replace(&mut items, answers);
    }
    Ok(items)
}

/// Adds the line of an item.
fn add_item(alloc: Global, reply: &mut Reply, item: &Item) -> Result<(), NoMemory> {
    match item {
        Item::Tree(tree) => reply.add(print(alloc, tree)?.as_str()),
        Item::Listed(entry) => reply.add(entry.text.as_str()),
        Item::Said(text) => reply.add(text.as_str()),
        Item::Line(text) => reply.add(text.as_str()),
    }
}

/// Adds the lines of items.
fn add_items(alloc: Global, reply: &mut Reply, items: &[Item]) -> Result<(), NoMemory> {
    'items: for item in items {
        add_item(alloc, reply, item)?;
    }
    Ok(())
}

/// Adds what the commands answer over what is held, or their refusal.
fn answer_over(
    given: Given<'_>,
    reply: &mut Reply,
    argument: &Argument,
    settings: &[Settings],
) -> Result<(), NoMemory> {
    match items_of(given, argument, settings) {
        Ok(items) => add_items(given.alloc, reply, items.as_slice()),
        Err(Stop::Refused(refusal)) => reply.refuse_line(given.alloc, &refusal),
        Err(Stop::NoMemory) => Err(NoMemory),
    }
}

/// Answers commands that leave what is held as it is.
fn answer_held(
    alloc: Global,
    line: &mut Line,
    argument: &Argument,
    settings: &[Settings],
) -> Result<(), NoMemory> {
    let Line {
        held,
        reply,
        quit: _,
    } = line;
    match held {
        None => Ok(()), // excluded by the settings: these commands need a grammar
        Some(held) => {
            let given = Given {
                alloc,
                held: held.get(),
            };
            answer_over(given, reply, argument, settings)
        }
    }
}

/// Answers a command that takes file names.
fn answer_files<F: Store>(
    alloc: Global,
    line: &mut Line,
    verb: Verb,
    files: &Vec<Text>,
    store: &mut F,
) -> Result<(), NoMemory> {
    match verb {
        Verb::Import => import(alloc, line, files, store),
        _ => match files.as_slice().first() {
            Some(file) => write_portable(alloc, line, file, store),
            None => Ok(()), // excluded by reading: there is a file name
        },
    }
}

/// Runs the commands of a pipe that lacks nothing.
fn run<F: Store>(
    alloc: Global,
    line: &mut Line,
    first: &Command,
    settings: &[Settings],
    store: &mut F,
) -> Result<(), NoMemory> {
    match first.verb {
        Verb::Empty => {
            empty(line);
            Ok(())
        }
        Verb::Quit => {
            quit(line);
            Ok(())
        }
        _ => match &first.argument {
            Argument::Files(files) => answer_files(alloc, line, first.verb, files, store),
            argument => answer_held(alloc, line, argument, settings),
        },
    }
}

/// Answers a pipe. A refused one leaves what is held as it was.
pub fn answer_pipe<F: Store>(
    alloc: Global,
    line: &mut Line,
    commands: &Vec<Command>,
    store: &mut F,
) -> Result<(), NoMemory> {
    let Some(first) = commands.as_slice().first() else {
        return Ok(()); // excluded by reading: a pipe has a command
    };
    match settings_of_all(alloc, line.held(), commands.as_slice()) {
        Ok(settings) => run(alloc, line, first, settings.as_slice(), store),
        Err(Stop::Refused(refusal)) => line.reply.refuse_line(alloc, &refusal),
        Err(Stop::NoMemory) => Err(NoMemory),
    }
}
