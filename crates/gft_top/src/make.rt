//! The making of a portable file.
ghost use Rattle.gft_top.specs.Asking.{files_of};
ghost use Rattle.gft_top.specs.Ends.{MakeTold, ReplyTold, ReplyAny};

use crate::reply::Reply;
use crate::running::{Status, begin, finish};
use crate::words::{Files, files_of};
use gft_core::{NoMemory, Text};
use gft_io::{Sink, Store};
use gft_shell::Session;
use std::alloc::Global;

/// The reply of the session to the writing of the portable file.
fn save_as<F: Store>(
    alloc: Global,
    session: &mut Session,
    out: &Text,
    store: &mut F,
) -> Result<Reply, NoMemory> {
    Ok(Reply::of(session.save_as(alloc, out, store)?))
}

/// Writes the portable file, and then the reply.
fn save<K: Sink, F: Store>(
    alloc: Global,
    session: &mut Session,
    out: &Text,
    sink: &mut K,
    store: &mut F,
) -> Status
    ensures told { ReplyTold (K.holds sink.old) (K.holds sink.new) result }
    ensures any { ReplyAny (K.faults sink.old) (K.faults sink.new) result }
{
    let Ok(reply) = save_as(alloc, session, out, store) else {
        return Status::NoMemory;
    };
    finish(sink, &reply)
}

/// Imports the files and, where that is not refused, writes the portable file.
fn import_and_save<K: Sink, F: Store>(
    alloc: Global,
    session: &mut Session,
    files: &Vec<Text>,
    out: &Text,
    sink: &mut K,
    store: &mut F,
) -> Status
    ensures told { MakeTold files.now.items (K.holds sink.old) (K.holds sink.new) result }
    ensures any { ReplyAny (K.faults sink.old) (K.faults sink.new) result }
{
    match begin(alloc, session, files, sink, store) {
        Ok(true) => Status::SomeRefused,
        Ok(false) => save(alloc, session, out, sink, store),
        Err(status) => status,
    }
}

/// Makes a portable file of the files that the words name.
pub fn make<K: Sink, F: Store>(
    alloc: Global,
    out: &str,
    named: Files<'_>,
    sink: &mut K,
    store: &mut F,
) -> Status
    ensures told { MakeTold (files_of named.entry) (K.holds sink.old) (K.holds sink.new) result }
    ensures any { ReplyAny (K.faults sink.old) (K.faults sink.new) result }
{
    let Ok(files) = files_of(alloc, named) else {
        return Status::NoMemory;
    };
    let Ok(out) = Text::from_str(alloc, out) else {
        return Status::NoMemory;
    };
    let mut session = Session::new();
    import_and_save(alloc, &mut session, &files, &out, sink, store)
}
