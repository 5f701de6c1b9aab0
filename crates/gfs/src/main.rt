//! The program: a run over the words of its call, the standard streams and the files of the system.
#![tactic(auto)]

ghost use Rattle.std.specs.Prelude.{◌≡◌};
ghost use Rattle.gfs.specs.Codes.{code_of};

use gft_io::{FileStore, ReadSource, WriteSink};
use gft_top::{Status, run};
use std::env;
use std::io::{self, ErrorKind};
use std::process::ExitCode;

/// The exit code where the system does not give the words.
const NO_WORDS: u8 = 7;

/// The exit code of a run that ended so.
fn code_of(status: Status) -> u8
    ensures { result ≡ code_of status }
{
    match status {
        Status::Done => 0,
        Status::SomeRefused => 1,
        Status::Usage => 2,
        Status::ReadFault => 3,
        Status::WriteFault => 4,
        Status::NoMemory => 5,
        Status::InputLimit => 6,
    }
}

/// The exit code where asking for the words failed in that way.
fn code_without_words(kind: ErrorKind) -> u8
    ensures memory { kind ≡ ErrorKind.OutOfMemory → result ≡ 5 }
    ensures others { (kind ≡ ErrorKind.OutOfMemory → ⊥) → result ≡ 7 }
{
    if kind == ErrorKind::OutOfMemory {
        code_of(Status::NoMemory)
    } else {
        NO_WORDS
    }
}

/// The words of the call; the first is the program's name.
fn words(rt: &HostRuntime) -> io::Result<Vec<String>> {
    let mut words = Vec::new(rt.alloc());
    for word in env::args(rt)? {
        words.push(word)?;
    }
    Ok(words)
}

/// A run over the standard streams and the files of the system.
fn run_here(rt: &HostRuntime, words: &Vec<String>) -> Status {
    let mut source = ReadSource::new(rt.reader());
    let mut sink = WriteSink::new(io::writer(rt));
    let mut store = FileStore::new(rt);
    run(rt.alloc(), words, &mut source, &mut sink, &mut store)
}

fn main(rt: HostRuntime) -> ExitCode {
    let code = match words(&rt) {
        Ok(words) => code_of(run_here(&rt, &words)),
        Err(error) => code_without_words(error.kind()),
    };
    ExitCode::from(code)
}
