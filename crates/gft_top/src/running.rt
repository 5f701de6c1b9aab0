//! A whole run of the program.
ghost use Rattle.std.specs.Prelude.{◌≡◌, ◌+◌, ◌-◌, ◌<◌, ◌≤◌, ◌++◌, ℕ, List, Some, length, map, string_bytes};
ghost use Rattle.gft_io.specs.Outside.{raised, Rose};
ghost use Rattle.gft_io.specs.Lines.{input_limit};
ghost use Rattle.gft_io.specs.Place.{count, Pends};
ghost use Rattle.gft_top.specs.Words.{call_of};
ghost use Rattle.gft_top.specs.Turns.{reply_of, Puts, Responds, flagged, TurnsTold, Advances, HasCause, Starts};
ghost use Rattle.gft_top.specs.Ends.{LinesTold, LinesAny, SessionTold, UsageTold, ReplyTold, ReplyAny};
ghost use Rattle.gft_top.specs.Asking.{files_of};
ghost use Rattle.gft_top.specs.Headline.{RunTold, RunAny};

use crate::make::make;
use crate::reply::{Reply, too_long};
use crate::words::{Asked, Files, files_of, read_words};
use crate::workload::workload;
use gft_core::{NoMemory, Text};
use gft_io::{Failed, LineErr, Lines, Sink, Source, Store, write_all};
use gft_shell::Session;
use std::alloc::Global;

/// How a run ended: as the exit status of the program `Done` is 0, and each next one is one more.
#[derive(Clone, Copy, Debug, PartialEq, Eq)]
pub enum Status {
    Done,
    SomeRefused,
    Usage,
    ReadFault,
    WriteFault,
    NoMemory,
    InputLimit,
}

impl From<NoMemory> for Status {
    ghost use Rattle.std.specs.Prelude.{◌≡◌};
    ghost use Rattle.gft_top.specs.declared.running.Status.TheVariants.{NoMemory};

    ghost from_gives = { λ _ e. e ≡ NoMemory };

    fn from(_error: NoMemory) -> Status {
        Status::NoMemory
    }
}

/// What one turn of a session did: it replied, by a refusal or not, and the session goes on or was
/// quit, or the run has ended.
#[derive(Clone, Copy)]
pub enum Turn {
    Replied(bool),
    Quit(bool),
    Ended(Status),
}

/// The line of a wrong call.
const USAGE: &[u8] = b"usage: gfs [FILE ..] | gfs --make OUT FILE .. | gfs --workload N\n";

/// Writes a reply whole; one without bytes is not written.
pub fn put<K: Sink>(sink: &mut K, reply: &Reply) -> Turn
    ensures puts { Puts (reply_of reply.now) (K.holds sink.old) (K.holds sink.new)
        (K.faults sink.old) (K.faults sink.new) result }
    ensures faults { K.faults sink.old ≤ K.faults sink.new }
{
    match write_all(sink, &reply.text) {
        Ok(()) if reply.quit => Turn::Quit(reply.refused),
        Ok(()) => Turn::Replied(reply.refused),
        Err(Failed) => Turn::Ended(Status::WriteFault),
    }
}

/// The reply of the session to a line.
fn step<F: Store>(
    alloc: Global,
    session: &mut Session,
    store: &mut F,
    line: &Vec<u8>,
) -> Result<Reply, NoMemory> {
    Ok(Reply::of(session.step(alloc, line, store)?))
}

/// The reply to a line, or how the run ends where there is none.
fn respond<F: Store>(
    alloc: Global,
    session: &mut Session,
    store: &mut F,
    found: Result<Option<Vec<u8>>, LineErr>,
) -> Result<Reply, Status>
    ensures { Responds found result }
{
    match found {
        Ok(Some(line)) => Ok(step(alloc, session, store, &line)?),
        Ok(None) => Err(Status::Done),
        Err(LineErr::LineTooLong) => Ok(too_long(alloc)?),
        Err(LineErr::ReadFault) => Err(Status::ReadFault),
        Err(LineErr::InputLimit) => Err(Status::InputLimit),
        Err(LineErr::NoMemory) => Err(Status::NoMemory),
    }
}

/// Reads one line and replies to it.
fn take_turn<S: Source, K: Sink, F: Store>(
    alloc: Global,
    session: &mut Session,
    lines: &mut Lines,
    source: &mut S,
    sink: &mut K,
    store: &mut F,
) -> Turn
    ensures told { (bytes : List ℕ) → Pends lines.old (S.left source.old) bytes
        → TurnsTold lines.old lines.new (S.left source.new) (K.holds sink.old) (K.holds sink.new)
        bytes result }
    ensures advances { Advances lines.old lines.new result }
    ensures cause { HasCause lines.new (S.faults source.old) (S.faults source.new)
        (K.faults sink.old) (K.faults sink.new) result }
    ensures bound { lines.new.passed ≤ input_limit }
    ensures counts { count lines.old ≤ count lines.new }
    ensures takes { S.taken source.new
        ≡ raised (S.taken source.old) (count lines.new - count lines.old) }
    ensures faults { S.faults source.old ≤ S.faults source.new }
    ensures sink_faults { K.faults sink.old ≤ K.faults sink.new }
{
    let found = lines.next(alloc, source);
    match respond(alloc, session, store, found) {
        Ok(reply) => put(sink, &reply),
        Err(status) => Turn::Ended(status),
    }
}

/// The end of a run at the end of its session, where some reply was a refusal or none was.
pub fn flagged(status: Status, refused: bool) -> Status
    ensures { result ≡ flagged refused status }
{
    match status {
        Status::Done if refused => Status::SomeRefused,
        other => other,
    }
}

/// Writes the last reply of a run, which ends with it.
pub fn finish<K: Sink>(sink: &mut K, reply: &Reply) -> Status
    ensures told { ReplyTold (K.holds sink.old) (K.holds sink.new) result }
    ensures any { ReplyAny (K.faults sink.old) (K.faults sink.new) result }
{
    match put(sink, reply) {
        Turn::Replied(refused) => flagged(Status::Done, refused),
        Turn::Quit(refused) => flagged(Status::Done, refused),
        Turn::Ended(status) => status,
    }
}

/// Replies to each line of the source, to its end or to one that ends the session.
fn replies<S: Source, K: Sink, F: Store>(
    alloc: Global,
    session: &mut Session,
    refused: bool,
    source: &mut S,
    sink: &mut K,
    store: &mut F,
) -> Status
    ensures told { (input : List ℕ) → S.left source.old ≡ Some input
        → LinesTold input refused (K.holds sink.old) (K.holds sink.new) (S.left source.new)
        result }
    ensures any { LinesAny (S.faults source.old) (S.faults source.new) (K.faults sink.old)
        (K.faults sink.new) (S.taken source.old) (S.taken source.new) result }
    ensures faults { S.faults source.old ≤ S.faults source.new }
    ensures sink_faults { K.faults sink.old ≤ K.faults sink.new }
{
    let Ok(mut lines) = Lines::new(alloc) else {
        return Status::NoMemory;
    };
    let mut refused = refused;
    'lines: loop {
        match take_turn(alloc, session, &mut lines, source, sink, store) {
            Turn::Replied(now) => refused = refused || now,
            Turn::Quit(now) => return flagged(Status::Done, refused || now),
            Turn::Ended(status) => return flagged(status, refused),
        }
    }
}

/// The reply of the session to the import of the files.
fn import<F: Store>(
    alloc: Global,
    session: &mut Session,
    files: &Vec<Text>,
    store: &mut F,
) -> Result<Reply, NoMemory>
    requires { 0 < length files.now.items }
{
    Ok(Reply::of(session.import(alloc, files, store)?))
}

/// Imports the files, where there are any, and writes the reply; it answers whether that is a
/// refusal.
pub fn begin<K: Sink, F: Store>(
    alloc: Global,
    session: &mut Session,
    files: &Vec<Text>,
    sink: &mut K,
    store: &mut F,
) -> Result<bool, Status>
    ensures starts { Starts files.now.items (K.holds sink.old) (K.holds sink.new)
        (K.faults sink.old) (K.faults sink.new) result }
    ensures faults { K.faults sink.old ≤ K.faults sink.new }
{
    if files.is_empty() {
        return Ok(false);
    }
    let reply = import(alloc, session, files, store)?;
    match put(sink, &reply) {
        Turn::Replied(refused) => Ok(refused),
        Turn::Quit(refused) => Ok(refused),
        Turn::Ended(status) => Err(status),
    }
}

/// Imports the files, where there are any, and replies to the lines of the source.
fn serve<S: Source, K: Sink, F: Store>(
    alloc: Global,
    session: &mut Session,
    files: &Vec<Text>,
    source: &mut S,
    sink: &mut K,
    store: &mut F,
) -> Status
    ensures told { (input : List ℕ) → S.left source.old ≡ Some input
        → SessionTold files.now.items input (K.holds sink.old) (K.holds sink.new)
        (S.left source.new) result }
    ensures any { LinesAny (S.faults source.old) (S.faults source.new) (K.faults sink.old)
        (K.faults sink.new) (S.taken source.old) (S.taken source.new) result }
{
    match begin(alloc, session, files, sink, store) {
        Ok(refused) => replies(alloc, session, refused, source, sink, store),
        Err(status) => status,
    }
}

/// A session over the files that the words name.
fn session<S: Source, K: Sink, F: Store>(
    alloc: Global,
    named: Files<'_>,
    source: &mut S,
    sink: &mut K,
    store: &mut F,
) -> Status
    ensures told { (input : List ℕ) → S.left source.old ≡ Some input
        → SessionTold (files_of named.entry) input (K.holds sink.old) (K.holds sink.new)
        (S.left source.new) result }
    ensures any { LinesAny (S.faults source.old) (S.faults source.new) (K.faults sink.old)
        (K.faults sink.new) (S.taken source.old) (S.taken source.new) result }
{
    let Ok(files) = files_of(alloc, named) else {
        return Status::NoMemory;
    };
    let mut session = Session::new();
    serve(alloc, &mut session, &files, source, sink, store)
}

/// The end of a wrong call, whose line is written.
fn usage<K: Sink>(sink: &mut K) -> Status
    ensures told { UsageTold (K.holds sink.old) (K.holds sink.new) result }
    ensures failed { result ≡ Status.WriteFault → Rose (K.faults sink.old) (K.faults sink.new) }
{
    match write_all(sink, USAGE) {
        Ok(()) => Status::Usage,
        Err(Failed) => Status::WriteFault,
    }
}

/// A run of the program over the words of its call, an input, an output and a store of files. The
/// first word is the program's name. The others are files to import, and then each line of the
/// input is a command line of the session, to the end of the input or to one that quits; or, with
/// `--make OUT`, files of which the portable file OUT is made; or `--workload N` asks for the
/// workload of N sentences. A word that begins with a hyphen and is longer is a file only behind
/// the word `--`. Kept are the session and one line.
pub fn run<S: Source, K: Sink, F: Store>(
    alloc: Global,
    words: &Vec<String>,
    source: &mut S,
    sink: &mut K,
    store: &mut F,
) -> Status
    // Over a source that tells what it has left.
    ensures told { (input : List ℕ) → S.left source.old ≡ Some input
        → RunTold (call_of (map string_bytes words.now.items)) input
        (K.holds sink.old) (K.holds sink.new) (S.left source.new) result }

    // Over any source, sink and store.
    ensures any { RunAny (call_of (map string_bytes words.now.items)) (S.faults source.old)
        (S.faults source.new) (K.faults sink.old) (K.faults sink.new) (S.taken source.old)
        (S.taken source.new) result }
{
    match read_words(words) {
        None => usage(sink),
        Some(Asked::Session(named)) => session(alloc, named, source, sink, store),
        Some(Asked::Make(out, named)) => make(alloc, out, named, sink, store),
        Some(Asked::Workload(count)) => workload(alloc, count, sink),
    }
}
