//! One step: white space, a comment or a token, or the first fault from a place on.
ghost use Rattle.std.specs.Prelude.{◌≡◌, ◌<◌, IfOk, Err, true, length, encode_utf8_all};
ghost use Rattle.std.specs.Str.{all_scalars, chars};
ghost use Rattle.gft_core.specs.Names.{IsName, spells_name};
ghost use Rattle.gft_lex.specs.declared.step.Met.{Met};
ghost use Rattle.gft_lex.specs.Lexemes.{value_from};
ghost use Rattle.gft_lex.specs.Spellings.{word_form};
ghost use Rattle.gft_lex.specs.Steps.{Gives, HasRoom, spelled, blank_step, number_step, text_step, word_step, unknown_step, step_of};

use crate::lexemes::closing;
use crate::quoted::{Reading, read_text};
use crate::refusals::{place_past, refused, refused_character, whole};
use crate::sight::{Sight, sight_at};
use crate::spellings::reserved_word;
use gft_core::{Name, NoMemory, Place, Text};
use gft_rules::{Rule, Stop};
use gft_syntax::TokenForm;
use std::alloc::Global;

/// The token that was met, if any, and how many characters were passed.
#[derive(Drop)]
pub(crate) struct Met {
    pub form: Option<TokenForm>,
    pub length: usize,
}

/// These characters, each of which is one, as text.
fn text_of(alloc: Global, letters: &[u32]) -> Result<Text, NoMemory>
    requires { all_scalars letters.now ≡ true }
    ensures { IfOk result (λ text. text ≡ encode_utf8_all letters.now) }
{
    let mut text = String::new(alloc);
    'letters: for letter in letters {
        match char::from_u32(*letter) {
            None => unreachable!(),
            Some(c) => text.push(c)?,
        }
    }
    Text::from_str(alloc, text.as_str())
}

/// These characters as text, or the first of them that is none.
fn spelled(alloc: Global, place: Place, letters: &[u32]) -> Result<Text, Stop>
    requires { HasRoom (length letters.now) place }
    ensures { Gives result (spelled place letters.now) }
{
    match whole(alloc, place, letters) {
        Err(stop) => Err(stop),
        Ok(()) => Ok(text_of(alloc, letters)?),
    }
}

/// The number that digits write, where it is in range.
fn value(digits: &[u32]) -> Option<u128>
    ensures { result ≡ value_from 0 digits.now }
{
    let mut value: u128 = 0;
    'digits: for digit in digits {
        value = value
            .checked_mul(10)?
            .checked_add(digit.saturating_sub('0' as u32) as u128)?;
    }
    Some(value)
}

/// White space or a comment of these characters.
fn blank(alloc: Global, place: Place, letters: &[u32]) -> Result<Met, Stop>
    requires { HasRoom (length letters.now) place }
    ensures { Gives result (blank_step place letters.now) }
{
    match whole(alloc, place, letters) {
        Err(stop) => Err(stop),
        Ok(()) => Ok(Met {
            form: None,
            length: letters.len(),
        }),
    }
}

/// The number of these digits.
fn number(alloc: Global, place: Place, letters: &[u32]) -> Result<Met, Stop>
    requires { HasRoom (length letters.now) place }
    ensures { Gives result (number_step place letters.now) }
{
    let spelling = match spelled(alloc, place, letters) {
        Err(stop) => return Err(stop),
        Ok(spelling) => spelling,
    };
    match value(letters) {
        None => Err(Stop::Refused(refused(alloc, Rule::NumberTooLarge, place))),
        Some(value) => Ok(Met {
            form: Some(TokenForm::Number(value, spelling)),
            length: letters.len(),
        }),
    }
}

/// The reserved word or the identifier that the text is.
fn form_of_word(alloc: Global, text: &str) -> Result<TokenForm, NoMemory>
    requires { IsName text.now }
    ensures { IfOk result (λ form. form ≡ word_form (chars text.now)) }
{
    if let Some(word) = reserved_word(text) {
        return Ok(TokenForm::Reserved(word));
    }
    match Name::new(alloc, text)? {
        None => unreachable!(),
        Some(name) => Ok(TokenForm::Identifier(name)),
    }
}

/// The word of these characters.
fn word(alloc: Global, place: Place, letters: &[u32]) -> Result<Met, Stop>
    requires room { HasRoom (length letters.now) place }
    requires name { spells_name letters.now ≡ true }
    ensures { Gives result (word_step place letters.now) }
{
    match spelled(alloc, place, letters) {
        Err(stop) => Err(stop),
        Ok(text) => Ok(Met {
            form: Some(form_of_word(alloc, text.as_str())?),
            length: letters.len(),
        }),
    }
}

/// The text that begins with the first of these.
fn text(alloc: Global, place: Place, letters: &[u32]) -> Result<Met, Stop>
    requires some { 0 < length letters.now }
    requires room { HasRoom (length letters.now) place }
    ensures { Gives result (text_step place letters.now) }
{
    let others = letters.split_at(1).1;
    if closing(others).is_none() {
        return Err(Stop::Refused(refused(alloc, Rule::OpenString, place)));
    }
    match read_text(alloc, others)? {
        Reading::Open => Err(Stop::Refused(refused(alloc, Rule::OpenString, place))),
        Reading::Broken(at) => {
            let broken = place_past(place, letters.split_at(at + 1).0);
            Err(Stop::Refused(refused(alloc, Rule::NotUtf8, broken)))
        }
        Reading::BadEscape(at, c) => {
            let backslash = place_past(place, letters.split_at(at).0);
            Err(Stop::Refused(refused_character(alloc, Rule::BadEscape, backslash, c)?))
        }
        Reading::Closed(text, n) => {
            let spelling = match spelled(alloc, place, letters.split_at(n + 1).0) {
                Err(stop) => return Err(stop),
                Ok(spelling) => spelling,
            };
            Ok(Met {
                form: Some(TokenForm::Quoted(text, spelling)),
                length: n + 1,
            })
        }
    }
}

/// What begins no token: a character, or none.
fn unknown(alloc: Global, place: Place, letter: u32) -> Stop
    ensures { Gives {X = Met} (Err result) (unknown_step place letter) }
{
    match char::from_u32(letter) {
        None => Stop::Refused(refused(alloc, Rule::NotUtf8, place)),
        Some(c) => match refused_character(alloc, Rule::BadCharacter, place, c) {
            Err(error) => Stop::from(error),
            Ok(refusal) => Stop::Refused(refusal),
        },
    }
}

/// What begins at the first of the characters.
pub(crate) fn step(alloc: Global, place: Place, letters: &[u32]) -> Result<Met, Stop>
    requires some { 0 < length letters.now }
    requires room { HasRoom (length letters.now) place }
    ensures { Gives result (step_of place letters.now) }
{
    match sight_at(letters) {
        Sight::Blank(n) => blank(alloc, place, letters.split_at(n).0),
        Sight::OpenComment => Err(Stop::Refused(refused(alloc, Rule::OpenComment, place))),
        Sight::Number(n) => number(alloc, place, letters.split_at(n).0),
        Sight::Quote => text(alloc, place, letters),
        Sight::Symbol(symbol, n) => Ok(Met {
            form: Some(TokenForm::Symbol(symbol)),
            length: n,
        }),
        Sight::Word(n) => word(alloc, place, letters.split_at(n).0),
        Sight::Nothing => Err(unknown(alloc, place, letters[0])),
    }
}
