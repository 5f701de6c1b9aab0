//! Whole sessions in memory, with each call of each device failing in turn.
use gft_core::Text;
use gft_io::{MemSink, MemSource, MemStore};
use gft_top::{Status, run};
use std::alloc::Global;
use std::test::Fail;

const HELLO: &str = "abstract Hello = {cat S ; X ; fun Greet : X -> S ; World, Mum : X ;}\n";

const HELLO_ENG: &str = "concrete HelloEng of Hello = {
  lincat S, X = {s : Str} ;
  lin Greet x = {s = \"hello\" ++ x.s} ; World = {s = \"world\"} ; Mum = {s = \"mum\"} ;
}
";

const HELLO_ITA: &str = "concrete HelloIta of Hello = {
  lincat S, X = {s : Str} ;
  lin Greet x = {s = \"ciao\" ++ x.s} ; World = {s = \"mondo\"} ; Mum = {s = \"mamma\"} ;
}
";

/// The calls of each device that fail, by their numbers from 1.
#[derive(Clone, Copy)]
struct Faults<'a> {
    source: &'a [u64],
    sink: &'a [u64],
    store: &'a [u64],
}

/// How a session over these words behind the program's name and over the three files ends, and what
/// it has written.
fn session(
    alloc: Global,
    names: &[&str],
    input: &str,
    faults: &Faults<'_>,
) -> Result<(Status, String), Fail> {
    let mut words = Vec::new(alloc);
    words.push(String::from_str(alloc, "gfs")?)?;
    for name in names {
        words.push(String::from_str(alloc, name)?)?;
    }
    let mut files = Vec::new(alloc);
    for (name, text) in [
        ("Hello.gf", HELLO),
        ("HelloEng.gf", HELLO_ENG),
        ("HelloIta.gf", HELLO_ITA),
    ] {
        let bytes = Vec::from_slice(alloc, text.as_bytes())?;
        files.push((Text::from_str(alloc, name)?, bytes))?;
    }
    let input = Vec::from_slice(alloc, input.as_bytes())?;
    let mut source = MemSource::new(input, Vec::from_slice(alloc, faults.source)?);
    let mut sink = MemSink::new(alloc, 400, Vec::from_slice(alloc, faults.sink)?)?;
    let mut store = MemStore::new(files, Vec::from_slice(alloc, faults.store)?);
    let status = run(alloc, &words, &mut source, &mut sink, &mut store);
    let written = std::str::from_utf8(sink.bytes())?;
    Ok((status, String::from_str(alloc, written)?))
}

/// Six lines, of which the third is blank and the last has no newline.
const LINES: &str = "l Greet World\nl Greet\n \nl Greet Mum\np World\nl World";

/// The replies to the import and to the lines.
const REPLIES: [&str; 6] = [
    "grammar Hello languages HelloEng\n",
    "hello world\n",
    "refused WrongArity: Greet\n",
    "hello mum\n",
    "refused BadArgument\n",
    "world\n",
];

/// The replies to the lines where the session has no grammar.
const REFUSALS: &str =
    "refused NoGrammar\nrefused NoGrammar\nrefused NoGrammar\nrefused BadArgument\nrefused NoGrammar\n";

/// The first replies, one after the other.
fn first_replies(alloc: Global, count: usize) -> Result<String, Fail> {
    let mut text = String::new(alloc);
    for reply in REPLIES.iter().take(count) {
        text.push_str(reply)?;
    }
    Ok(text)
}

#[test]
fn a_fault_of_the_source_or_the_sink_ends_a_session_behind_whole_replies(
    rt: HostRuntime,
) -> Result<(), Fail> {
    let alloc = rt.alloc();
    // The source gives all in its first call, and tells its end in its second and its third.
    let rows: [(&[u64], &[u64], Status, usize); 12] = [
        (&[], &[], Status::SomeRefused, 6),
        (&[1], &[], Status::ReadFault, 1),
        (&[2], &[], Status::ReadFault, 5),
        (&[3], &[], Status::ReadFault, 6),
        (&[4], &[], Status::SomeRefused, 6),
        (&[], &[1], Status::WriteFault, 0),
        (&[], &[2], Status::WriteFault, 1),
        (&[], &[3], Status::WriteFault, 2),
        (&[], &[4], Status::WriteFault, 3),
        (&[], &[5], Status::WriteFault, 4),
        (&[], &[6], Status::WriteFault, 5),
        (&[], &[7], Status::SomeRefused, 6),
    ];
    for (source, sink, status, count) in rows {
        let faults = Faults {
            source,
            sink,
            store: &[],
        };
        let (ended, written) = session(alloc, &["HelloEng.gf"], LINES, &faults)?;
        assert!(rt; ended == status, "{ended:?}");
        assert_eq!(rt; written.as_str(), first_replies(alloc, count)?.as_str());
    }
    Ok(())
}

#[test]
fn a_fault_of_the_store_refuses_an_import(rt: HostRuntime) -> Result<(), Fail> {
    let alloc = rt.alloc();
    let rows: [(&[u64], &str, &str); 3] = [
        (&[1], "refused CannotRead: HelloEng.gf\n", REFUSALS),
        (&[2], "refused CannotRead: Hello.gf\n", REFUSALS),
        (&[3], "grammar Hello languages HelloEng\n", ""),
    ];
    for (store, import, others) in rows {
        let faults = Faults {
            source: &[],
            sink: &[],
            store,
        };
        let (ended, written) = session(alloc, &["HelloEng.gf"], LINES, &faults)?;
        assert!(rt; ended == Status::SomeRefused, "{ended:?}");
        assert!(rt; written.as_str().starts_with(import));
        assert!(rt; written.as_str().ends_with(others));
    }
    Ok(())
}

#[test]
fn an_import_that_a_fault_refused_is_accepted_when_it_comes_again(
    rt: HostRuntime,
) -> Result<(), Fail> {
    let line = "i HelloEng.gf HelloIta.gf\ni HelloEng.gf HelloIta.gf\nl Mum\n";
    let rows: [(&[u64], &str); 3] = [
        (&[1], "refused CannotRead: HelloEng.gf\n"),
        (&[2], "refused CannotRead: Hello.gf\n"),
        (&[3], "refused CannotRead: HelloIta.gf\n"),
    ];
    for (store, refusal) in rows {
        let faults = Faults {
            source: &[],
            sink: &[],
            store,
        };
        let (ended, written) = session(rt.alloc(), &[], line, &faults)?;
        assert!(rt; ended == Status::SomeRefused, "{ended:?}");
        assert_eq!(rt;
            written.strip_prefix(refusal),
            Some("grammar Hello languages HelloEng HelloIta\nmum\nmamma\n")
        );
    }
    Ok(())
}

#[test]
fn nothing_is_read_or_answered_behind_a_quit(rt: HostRuntime) -> Result<(), Fail> {
    let faults = Faults {
        source: &[2],
        sink: &[3],
        store: &[],
    };
    let (ended, written) = session(
        rt.alloc(),
        &["HelloEng.gf"],
        "l Mum ; q ; l Mum\nl World",
        &faults,
    )?;
    assert!(rt; ended == Status::Done, "{ended:?}");
    assert_eq!(rt; written.as_str(), "grammar Hello languages HelloEng\nmum\n");
    Ok(())
}
