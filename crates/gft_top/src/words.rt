//! The words of the program's call.
ghost use Rattle.std.specs.Prelude.{◌≡◌, ◌+◌, ◌++◌, ◌≤◌, length, map, drop, string_bytes, codes, IfOk, OnOk};
ghost use Rattle.std.specs.Option.{option_map};
ghost use Rattle.std.specs.List.{position_or_len};
ghost use Rattle.gft_top.specs.Words.{is_marker, is_option, is_digit, arguments, next_word, value_of, more_digits, count_of, call_of_make, call_of_workload, call_by_option, call_between, call_of};
ghost use Rattle.gft_top.specs.Asking.{given_of, call_by, files_of};

use gft_core::{NoMemory, Text};
use std::alloc::Global;

/// The word behind which all words are files.
const MARKER: &[u8] = b"--";

/// The option that asks for a portable file.
const MAKE: &[u8] = b"--make";

/// The option that asks for the workload.
const WORKLOAD: &[u8] = b"--workload";

/// The files of three lists of words, one after the other.
#[derive(Clone, Copy)]
pub struct Files<'a> {
    pub first: &'a [String],
    pub second: &'a [String],
    pub last: &'a [String],
}

/// What the words ask for: a session over some files, a portable file of that name of some files,
/// or the workload of so many sentences.
#[derive(Clone, Copy)]
pub enum Asked<'a> {
    Session(Files<'a>),
    Make(&'a str, Files<'a>),
    Workload(u64),
}

/// The value of an option, and the words behind it.
#[derive(Clone, Copy)]
pub struct Given<'a> {
    pub value: &'a str,
    pub words: &'a [String],
}

/// Whether it is the word behind which all words are files.
fn is_marker(word: &str) -> bool
    ensures { result ≡ is_marker word.now }
{
    word.as_bytes() == MARKER
}

/// Whether it begins with a hyphen and is longer.
fn is_option(word: &str) -> bool
    ensures { result ≡ is_option word.now }
{
    word.as_bytes().starts_with(b"-") && word.len() > 1
}

/// The words of a call without the first, which is the program's name.
fn arguments(words: &[String]) -> &[String]
    ensures { map string_bytes result.now ≡ arguments (map string_bytes words.now) }
{
    match words {
        [] => words,
        [_, rest @ ..] => rest,
    }
}

/// The place of the first `--`, or how many words there are.
fn marker_at(words: &[String]) -> usize
    ensures place { result ≡ position_or_len is_marker (map string_bytes words.now) }
    ensures bound { result ≤ length words.now }
{
    for (at, word) in words.iter().enumerate() {
        if is_marker(word.as_str()) {
            return at;
        }
    }
    words.len()
}

/// The place of the first option, or how many words there are.
fn option_at(words: &[String]) -> usize
    ensures place { result ≡ position_or_len is_option (map string_bytes words.now) }
    ensures bound { result ≤ length words.now }
{
    for (at, word) in words.iter().enumerate() {
        if is_option(word.as_str()) {
            return at;
        }
    }
    words.len()
}

/// The words behind a place.
fn words_behind(words: &[String], at: usize) -> &[String]
    requires { at ≤ length words.now }
    ensures { result.now ≡ drop (at + 1) words.now }
{
    if at < words.len() {
        words.split_at(at + 1).1
    } else {
        words.split_at(at).1
    }
}

/// The next word as the value of an option, where it is no option.
fn next_word(words: &[String]) -> Option<Given<'_>>
    ensures { option_map given_of result ≡ next_word (map string_bytes words.now) }
{
    match words {
        [] => None,
        [word, others @ ..] => {
            if is_option(word.as_str()) {
                None
            } else {
                Some(Given {
                    value: word.as_str(),
                    words: others,
                })
            }
        }
    }
}

/// The value of the option of that name, as `NAME VALUE` or `NAME=VALUE`, where the option is that
/// one.
fn value_of<'a>(name: &[u8], option: &'a str, words: &'a [String]) -> Option<Given<'a>>
    ensures { option_map given_of result
        ≡ value_of name.now option.now (map string_bytes words.now) }
{
    match option.split_once('=') {
        Some((before, value)) => {
            if before.as_bytes() == name {
                Some(Given { value, words })
            } else {
                None
            }
        }
        None => {
            if option.as_bytes() == name {
                next_word(words)
            } else {
                None
            }
        }
    }
}

/// A portable file of the files round the option and its value, where there are some and no other
/// option.
fn asked_to_make<'a>(first: &'a [String], given: Given<'a>, last: &'a [String]) -> Option<Asked<'a>>
    ensures { call_by result
        ≡ call_of_make (map string_bytes first.now) (map string_bytes last.now)
        (given_of given.entry) }
{
    if option_at(given.words) < given.words.len() {
        return None;
    }
    if first.is_empty() && given.words.is_empty() && last.is_empty() {
        return None;
    }
    Some(Asked::Make(
        given.value,
        Files {
            first,
            second: given.words,
            last,
        },
    ))
}

/// Whether it is a decimal digit.
fn is_digit(byte: u8) -> bool
    ensures { result ≡ is_digit byte }
{
    byte > b'/' && byte < b':'
}

/// The number that goes on with these digits, where it stays at most 10,000.
fn more_digits(first: u64, digits: &[u8]) -> Option<u64>
    requires { first ≤ 10000 }
    ensures { result ≡ more_digits first digits.now }
{
    let mut count = first;
    for digit in digits {
        if !is_digit(*digit) {
            return None;
        }
        count = count * 10 + u64::from(*digit - b'0');
        if count > 10_000 {
            return None;
        }
    }
    Some(count)
}

/// The number that is written so in digits, without a zero before it, from 1 to 10,000.
fn count_of(text: &[u8]) -> Option<u64>
    ensures { result ≡ count_of text.now }
{
    match text {
        [] => None,
        [first, others @ ..] => {
            if is_digit(*first) && *first != b'0' {
                more_digits(u64::from(*first - b'0'), others)
            } else {
                None
            }
        }
    }
}

/// The workload of so many sentences, where there is no other word.
fn asked_to_work<'a>(first: &[String], given: Given<'a>, last: &[String]) -> Option<Asked<'a>>
    ensures { call_by result
        ≡ call_of_workload (map string_bytes first.now) (map string_bytes last.now)
        (given_of given.entry) }
{
    if !first.is_empty() || !given.words.is_empty() || !last.is_empty() {
        return None;
    }
    match count_of(given.value.as_bytes()) {
        Some(count) => Some(Asked::Workload(count)),
        None => None,
    }
}

/// What the first option asks for.
fn asked_by_option<'a>(
    first: &'a [String],
    option: &'a str,
    words: &'a [String],
    last: &'a [String],
) -> Option<Asked<'a>>
    ensures { call_by result
        ≡ call_by_option (map string_bytes first.now) (map string_bytes last.now)
        (value_of (codes "--make") option.now (map string_bytes words.now))
        (value_of (codes "--workload") option.now (map string_bytes words.now)) }
{
    match value_of(MAKE, option, words) {
        Some(given) => asked_to_make(first, given, last),
        None => match value_of(WORKLOAD, option, words) {
            Some(given) => asked_to_work(first, given, last),
            None => None,
        },
    }
}

/// What the words ask for: the first files, the words from the first option on, and the last files.
fn asked_between<'a>(
    first: &'a [String],
    words: &'a [String],
    last: &'a [String],
) -> Option<Asked<'a>>
    ensures { call_by result
        ≡ call_between (map string_bytes first.now) (map string_bytes words.now)
        (map string_bytes last.now) }
{
    match words {
        [] => Some(Asked::Session(Files {
            first,
            second: words,
            last,
        })),
        [option, others @ ..] => asked_by_option(first, option.as_str(), others, last),
    }
}

/// What the program's words ask for; None where it is nothing that is known. It takes no memory.
pub fn read_words(words: &[String]) -> Option<Asked<'_>>
    ensures { call_by result ≡ call_of (map string_bytes words.now) }
{
    let words = arguments(words);
    let marker = marker_at(words);
    let plain = words.split_at(marker).0;
    let option = option_at(plain);
    let (first, others) = plain.split_at(option);
    asked_between(first, others, words_behind(words, marker))
}

/// Adds words to the files.
fn push_files(alloc: Global, files: &mut Vec<Text>, words: &[String]) -> Result<(), NoMemory>
    ensures { OnOk result (files.new.items ≡ files.old.items ++ map string_bytes words.now) }
{
    for word in words {
        files.push(Text::from_str(alloc, word.as_str())?)?;
    }
    Ok(())
}

/// The files that the words name.
pub fn files_of(alloc: Global, named: Files<'_>) -> Result<Vec<Text>, NoMemory>
    ensures { IfOk result (λ files. files.items ≡ files_of named.entry) }
{
    let mut files = Vec::new(alloc);
    push_files(alloc, &mut files, named.first)?;
    push_files(alloc, &mut files, named.second)?;
    push_files(alloc, &mut files, named.last)?;
    Ok(files)
}
