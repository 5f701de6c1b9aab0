//! The workload: sentences of a grammar of its own are parsed, and what they are parsed to is
//! linearized.
ghost use Rattle.gft_top.specs.Ends.{ReplyTold, ReplyAny};

use crate::reply::Reply;
use crate::running::{Status, finish};
use gft_core::{NoMemory, Text};
use gft_io::{MemStore, Sink};
use gft_shell::Session;
use std::alloc::Global;

/// The abstract module of the workload.
const LOAD: &[u8] = b"abstract Load = {
  cat S ; X ; L ;
  fun
    Seal : L -> S ;
    One : X -> L ;
    More : X -> L -> L ;
    W0, W1, W2, W3, W4, W5, W6, W7, W8, W9, V0 : X ;
}
";

/// Its concrete module, in which `w0` is said in two ways.
const LOAD_ENG: &[u8] = b"concrete LoadEng of Load = {
  lincat S, X, L = {s : Str} ;
  lin
    Seal l = l ;
    One x = x ;
    More x l = {s = x.s ++ l.s} ;
    W0, V0 = {s = \"w0\"} ;
    W1 = {s = \"w1\"} ;
    W2 = {s = \"w2\"} ;
    W3 = {s = \"w3\"} ;
    W4 = {s = \"w4\"} ;
    W5 = {s = \"w5\"} ;
    W6 = {s = \"w6\"} ;
    W7 = {s = \"w7\"} ;
    W8 = {s = \"w8\"} ;
    W9 = {s = \"w9\"} ;
}
";

/// The words of each sentence.
const WORDS: u64 = 40;

/// What was counted: the trees that the sentences are parsed to, and those of them that say just
/// the sentence.
#[derive(Clone, Copy)]
struct Counts {
    trees: u64,
    same: u64,
}

/// A file with this text.
fn file(alloc: Global, name: &str, text: &[u8]) -> Result<(Text, Vec<u8>), NoMemory> {
    let name = Text::from_str(alloc, name)?;
    let bytes = Vec::from_slice(alloc, text)?;
    Ok((name, bytes))
}

/// A store with the two modules.
fn modules(alloc: Global) -> Result<MemStore, NoMemory> {
    let mut files = Vec::new(alloc);
    files.push(file(alloc, "Load.gf", LOAD)?)?;
    files.push(file(alloc, "LoadEng.gf", LOAD_ENG)?)?;
    Ok(MemStore::new(files, Vec::new(alloc)))
}

/// Adds a sentence by its number from 0: 40 words, of which word i is `w` and the last digit of i
/// and that number together.
fn push_sentence(text: &mut Vec<u8>, number: u64) -> Result<(), NoMemory> {
    for at in 0..WORDS {
        if at > 0 {
            text.push(b' ')?;
        }
        text.push(b'w')?;
        text.push(b'0' + (number.wrapping_add(at) % 10) as u8)?;
    }
    Ok(())
}

/// The command line that parses a sentence and linearizes what it is parsed to.
fn line_of(alloc: Global, sentence: &[u8]) -> Result<Vec<u8>, NoMemory> {
    let mut line = Vec::from_slice(alloc, b"p -depth=42 \"")?;
    line.extend_from_slice(sentence)?;
    line.extend_from_slice(b"\" | l")?;
    Ok(line)
}

/// Counts the trees by what they say: each has one string, which is a line of the reply.
fn count_trees(reply: &[u8], sentence: &[u8], counts: &mut Counts) {
    let mut rest = reply;
    for _ in 0..reply.len() {
        let Some(end) = rest.iter().position(|byte| *byte == b'\n') else {
            break;
        };
        counts.trees = counts.trees.saturating_add(1);
        if rest.split_at(end).0 == sentence {
            counts.same = counts.same.saturating_add(1);
        }
        rest = rest.split_at(end + 1).1;
    }
}

/// Parses a sentence, linearizes its trees, and counts them.
fn count_sentence(
    alloc: Global,
    session: &mut Session,
    store: &mut MemStore,
    number: u64,
    counts: &mut Counts,
) -> Result<(), NoMemory> {
    let mut sentence = Vec::new(alloc);
    push_sentence(&mut sentence, number)?;
    let line = line_of(alloc, sentence.as_slice())?;
    let reply = session.step(alloc, &line, store)?.reply;
    count_trees(reply.as_slice(), sentence.as_slice(), counts);
    Ok(())
}

/// The four lines of what was counted.
fn counted(alloc: Global, sentences: u64, counts: Counts) -> Result<Reply, NoMemory> {
    let words = sentences.saturating_mul(WORDS);
    let trees = counts.trees;
    let same = counts.same;
    let text = format!(in alloc;
        "sentences {sentences}\nwords {words}\ntrees {trees}\nsame {same}\n"
    )?;
    Ok(Reply {
        text: Vec::from_slice(alloc, text.as_bytes())?,
        refused: false,
        quit: false,
    })
}

/// Parses so many sentences with the session, and counts.
fn count_all(
    alloc: Global,
    session: &mut Session,
    store: &mut MemStore,
    sentences: u64,
) -> Result<Reply, NoMemory> {
    let mut counts = Counts { trees: 0, same: 0 };
    for number in 0..sentences {
        count_sentence(alloc, session, store, number, &mut counts)?;
    }
    counted(alloc, sentences, counts)
}

/// The reply of the session to the import of the modules.
fn import(alloc: Global, session: &mut Session, store: &mut MemStore) -> Result<Reply, NoMemory> {
    let mut files = Vec::new(alloc);
    files.push(Text::from_str(alloc, "LoadEng.gf")?)?;
    Ok(Reply::of(session.import(alloc, &files, store)?))
}

/// Imports the modules and, where that is not refused, counts.
fn import_and_count(
    alloc: Global,
    session: &mut Session,
    store: &mut MemStore,
    sentences: u64,
) -> Result<Reply, NoMemory> {
    let imported = import(alloc, session, store)?;
    if imported.refused {
        return Ok(imported);
    }
    count_all(alloc, session, store, sentences)
}

/// The reply to the workload of so many sentences.
fn work(alloc: Global, sentences: u64) -> Result<Reply, NoMemory> {
    let mut store = modules(alloc)?;
    let mut session = Session::new();
    import_and_count(alloc, &mut session, &mut store, sentences)
}

/// The workload of so many sentences, by a session over a store of its own: four lines are written.
pub fn workload<K: Sink>(alloc: Global, sentences: u64, sink: &mut K) -> Status
    ensures told { ReplyTold (K.holds sink.old) (K.holds sink.new) result }
    ensures any { ReplyAny (K.faults sink.old) (K.faults sink.new) result }
{
    match work(alloc, sentences) {
        Ok(reply) => finish(sink, &reply),
        Err(NoMemory) => Status::NoMemory,
    }
}
