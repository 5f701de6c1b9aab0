//! Identifiers.
ghost use Rattle.std.specs.Prelude.{◌≡◌, ◌&&◌, ◌∷◌, ℕ, List, IfOk, Option, Some, None, if◌then◌else◌};
ghost use Rattle.gft_core.specs.Names.{IsName, is_name, begins_name, continues_name, is_lone, spells_name};
ghost use Rattle.std.specs.List.{list_all};
ghost use Rattle.std.specs.Str.{chars};

use crate::memory::NoMemory;
use std::alloc::Global;
use std::marker::Model;
use unicode::properties::{is_xid_continue, is_xid_start};

/// An identifier: it begins with a character of XID_Start or an underscore and goes on with
/// characters of XID_Continue and apostrophes; the single underscore is none. A reserved word of
/// the source language is a name too. Contracts see its bytes.
#[derive(Debug, Drop)]
pub struct Name {
    text: String,
}

impl Model for Name {
    ghost use Rattle.std.specs.Prelude.{ℕ, List, string_bytes};
    ghost use Rattle.gft_core.specs.Names.{IsName};

    ghost Value = { List ℕ };

    ghost view = { λ n. string_bytes n.text };

    ghost invariant = { λ n. IsName (string_bytes n.text) };
}

/// Whether an identifier may begin with the character. It takes no memory.
pub fn is_start(c: char) -> bool
    ensures { result ≡ begins_name c }
{
    is_xid_start(c) || c == '_'
}

/// Whether an identifier may go on with the character. It takes no memory.
pub fn is_continue(c: char) -> bool
    ensures { result ≡ continues_name c }
{
    is_xid_continue(c) || c == '\''
}

/// Whether an identifier may go on with each character of the text.
fn goes_on(text: &str) -> bool
    ensures { result ≡ list_all continues_name (chars text.now) }
{
    text.chars().all(is_continue)
}

/// Whether the character is an underscore and nothing comes after it.
fn is_lone(first: char, rest: &str) -> bool
    ensures { result ≡ is_lone first (chars rest.now) }
{
    first == '_' && rest.chars().next().is_none()
}

/// Whether an identifier may begin with the character and go on with the text.
fn begins_and_goes_on(first: char, rest: &str) -> bool
    ensures { result ≡ (begins_name first && list_all continues_name (chars rest.now)) }
{
    is_start(first) && goes_on(rest)
}

/// Whether the character and the text after it are an identifier.
fn spells(first: char, rest: &str) -> bool
    ensures { result ≡ spells_name (first ∷ chars rest.now) }
{
    begins_and_goes_on(first, rest) && !is_lone(first, rest)
}

/// Whether the text is an identifier.
fn is_name(text: &str) -> bool
    ensures { result ≡ is_name text.now }
{
    let mut rest = text.chars();
    match rest.next() {
        None => false,
        Some(first) => spells(first, rest.as_str()),
    }
}

impl Name {
    /// The identifier that the text is. None where the text is no identifier.
    pub fn new(alloc: Global, text: &str) -> Result<Option<Name>, NoMemory>
        ensures { IfOk result (λ name. name ≡ (if is_name text.now then Some text.now else None)) }
    {
        if !is_name(text) {
            return Ok(None);
        }
        let text = String::from_str(alloc, text)?;
        Ok(Some(Name { text }))
    }

    /// The text itself. It takes no memory.
    pub fn as_str(&self) -> &str
        ensures text { result.now ≡ self.now }
        ensures name { IsName self.now }
    {
        self.text.as_str()
    }

    /// An equal name, in memory of its own.
    pub fn copy(&self, alloc: Global) -> Result<Name, NoMemory>
        ensures { IfOk result (λ copied. copied ≡ self.now) }
    {
        let text = String::from_str(alloc, self.text.as_str())?;
        Ok(Name { text })
    }
}
