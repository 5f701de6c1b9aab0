//! Writing a tree as text.
ghost use Rattle.std.specs.Prelude.{◌≡◌, ◌==◌, ◌||◌, ◌++◌, map, flat_map, string_bytes, encode_utf8, IfOk, OnOk};
ghost use Rattle.gft_tree.specs.Lexemes.{escaped};
ghost use Rattle.gft_tree.specs.Trees.{text_of, printed, quoted, as_argument, as_arguments};

use gft_core::{NoMemory, Text, Tree};
use std::alloc::Global;

/// Whether the character stands behind a backslash in quotes.
fn is_marked(c: char) -> bool
    ensures { result ≡ (c == 34 || c == 92) }
{
    c == '"' || c == '\\'
}

/// Adds a character, behind a backslash where it is a quote or a backslash.
#[tactic(auto, using(crate::proofs::EscapeLemmas::escaped_marked, crate::proofs::EscapeLemmas::escaped_plain))]
fn push_escaped(out: &mut String, c: char) -> Result<(), NoMemory>
    ensures { OnOk result (string_bytes out.new ≡ string_bytes out.old ++ flat_map escaped (encode_utf8 c)) }
{
    if !is_marked(c) {
        out.push(c)?;
        return Ok(());
    }
    out.push('\\')?;
    out.push(c)?;
    Ok(())
}

/// Adds a word in quotes.
fn push_quoted(out: &mut String, word: &str) -> Result<(), NoMemory>
    ensures { OnOk result (string_bytes out.new ≡ string_bytes out.old ++ quoted word.now) }
{
    out.push('"')?;
    let mut rest = word.chars();
    'characters: while let Some(c) = rest.next() {
        push_escaped(out, c)?;
    }
    out.push('"')?;
    Ok(())
}

/// Whether the tree is an application with arguments.
fn has_arguments(tree: &Tree) -> bool
    ensures { result ≡ (printed tree.now).1 }
{
    match tree {
        Tree::App(_, arguments) => !arguments.is_empty(),
        Tree::Int(_) => false,
        Tree::Str(_) => false,
        Tree::Hole(_) => false,
    }
}

#[cycle(push)]
fn push_tree(alloc: Global, out: &mut String, tree: &Tree) -> Result<(), NoMemory>
    ensures { OnOk result (string_bytes out.new ≡ string_bytes out.old ++ text_of tree.now) }
{
    match tree {
        Tree::App(function, arguments) => {
            out.push_str(function.as_str())?;
            push_arguments(alloc, out, arguments.as_slice())
        }
        Tree::Int(value) => {
            out.push_str(value.to_string(alloc)?.as_str())?;
            Ok(())
        }
        Tree::Str(word) => push_quoted(out, word.as_str()),
        Tree::Hole(number) => {
            out.push('?')?;
            out.push_str(number.to_string(alloc)?.as_str())?;
            Ok(())
        }
    }
}

#[cycle(push)]
fn push_argument(alloc: Global, out: &mut String, tree: &Tree) -> Result<(), NoMemory>
    ensures { OnOk result (string_bytes out.new ≡ string_bytes out.old ++ as_argument (printed tree.now)) }
{
    if !has_arguments(tree) {
        return push_tree(alloc, out, tree);
    }
    out.push('(')?;
    push_tree(alloc, out, tree)?;
    out.push(')')?;
    Ok(())
}

#[cycle(push)]
fn push_arguments(alloc: Global, out: &mut String, trees: &[Tree]) -> Result<(), NoMemory>
    ensures { OnOk result (string_bytes out.new ≡ string_bytes out.old ++ as_arguments (map printed trees.now)) }
{
    'each: for tree in trees {
        out.push(' ')?;
        push_argument(alloc, out, tree)?;
    }
    Ok(())
}

/// The text of a tree: one space between parts, and parentheses round arguments that are
/// applications with arguments. The stack that it takes grows with the tree's depth.
pub fn print(alloc: Global, tree: &Tree) -> Result<Text, NoMemory>
    ensures { IfOk result (λ text. text ≡ text_of tree.now) }
{
    let mut out = String::new(alloc);
    push_tree(alloc, &mut out, tree)?;
    Text::from_str(alloc, out.as_str())
}
