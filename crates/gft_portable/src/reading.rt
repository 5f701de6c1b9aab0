//! The grammar of a file.
use crate::cases::Version;
use crate::expanding::concrete_of;
use crate::fault::ReadErr;
use crate::field::{Reader, bad};
use crate::flaws::{check_abstract, check_concrete};
use crate::items::Ascending;
use crate::productions::{Language, read_language};
use crate::syntax::{Syntax, read_syntax};
use crate::terms::push;
use crate::trees::abstract_of;
use crate::writing::MAGIC;
use gft_pmcfg::{Abstract, Concrete, Grammar};
use gft_rules::Rule;
use sqlite_items::Items;
use std::alloc::Global;

/// The first two fields.
fn read_version(reader: &mut Reader) -> Result<Version, ReadErr> {
    if reader.taken(4)? != MAGIC.as_slice() {
        return Err(bad(Rule::BadMagic, 0));
    }
    let at = reader.at();
    match reader.number()? {
        1 => Ok(Version::One),
        2 => Ok(Version::Two),
        _ => Err(bad(Rule::BadVersion, at)),
    }
}

/// The languages of a file, in order by name.
fn read_languages(
    alloc: Global,
    reader: &mut Reader,
    version: Version,
    syntax: &Syntax,
) -> Result<Vec<Language>, ReadErr> {
    let many = reader.number()?;
    let mut order = Ascending::new();
    let mut all = Vec::new(alloc);
    for _ in 0..many {
        let at = reader.at();
        let name = reader.name()?;
        let language = read_language(alloc, reader, version, syntax, name)?;
        order.add(reader, at, name)?;
        push(&mut all, language)?;
    }
    Ok(all)
}

/// The concrete syntaxes, once none has a flaw.
fn concretes_of(
    alloc: Global,
    reader: &Reader,
    abs: &Abstract,
    languages: &[Language],
) -> Result<Items<Concrete>, ReadErr> {
    let mut all = Items::new(alloc);
    for language in languages {
        let concrete = concrete_of(alloc, reader, language)?;
        check_concrete(alloc, abs, language, &concrete)?;
        all.push(concrete)?;
    }
    Ok(all)
}

/// The grammar whose file, of version 1 or 2, these bytes are; else the first fault in the order of
/// the file, or where all fields are good the first flaw. The time is that of writing the grammar.
pub fn read(alloc: Global, bytes: &Vec<u8>) -> Result<Grammar, ReadErr> {
    let mut reader = Reader::new(bytes.as_slice());
    let version = read_version(&mut reader)?;
    let syntax = read_syntax(alloc, &mut reader)?;
    let languages = read_languages(alloc, &mut reader, version, &syntax)?;
    if reader.has_more() {
        return Err(bad(Rule::TooLong, reader.at()));
    }
    let abs = abstract_of(alloc, &reader, &syntax)?;
    check_abstract(alloc, &syntax, &abs)?;
    let concretes = concretes_of(alloc, &reader, &abs, languages.as_slice())?;
    match Grammar::checked(alloc, abs, concretes)? {
        Some(grammar) => Ok(grammar),
        None => Err(bad(Rule::BadNumber, 0)), // all numbers were in range as they were read
    }
}
