//! Places further on, and the refusals of a file's characters.
ghost use Rattle.std.specs.Prelude.{◌≡◌, ◌+◌, ◌∷◌, [], encode_utf8_all, length, IfOk};
ghost use Rattle.gft_model.specs.Refusals.{refusal};
ghost use Rattle.gft_lex.specs.Steps.{Gives, HasRoom, place_past, whole};

use crate::letters::is_character;
use gft_core::{NoMemory, Place, Text};
use gft_rules::{Refusal, Rule, Stop};
use sqlite_items::Items;
use std::alloc::Global;

/// The place after these characters.
pub(crate) fn place_past(place: Place, passed: &[u32]) -> Place
    requires { HasRoom (length passed.now + 1) place }
    ensures { result ≡ place_past place passed.now }
{
    let mut place = place;
    'passed: for c in passed {
        if *c == '\n' as u32 {
            place = Place {
                file: place.file,
                line: place.line + 1,
                col: 1,
            };
        } else {
            place = Place {
                file: place.file,
                line: place.line,
                col: place.col + 1,
            };
        }
    }
    place
}

/// The refusal without names.
pub(crate) fn refused(alloc: Global, rule: Rule, place: Place) -> Refusal
    ensures { result ≡ refusal rule place [] }
{
    Refusal {
        rule,
        place: Some(place),
        names: Items::new(alloc),
    }
}

/// The refusal that names a character.
pub(crate) fn refused_character(
    alloc: Global,
    rule: Rule,
    place: Place,
    c: char,
) -> Result<Refusal, NoMemory>
    ensures { IfOk result (λ r. r ≡ refusal rule place (encode_utf8_all (c ∷ []) ∷ [])) }
{
    let mut character = String::new(alloc);
    character.push(c)?;
    let mut names = Items::new(alloc);
    names.push(Text::from_str(alloc, character.as_str())?)?;
    Ok(Refusal {
        rule,
        place: Some(place),
        names,
    })
}

/// Refuses the first of these that is no character.
pub(crate) fn whole(alloc: Global, place: Place, letters: &[u32]) -> Result<(), Stop>
    requires { HasRoom (length letters.now) place }
    ensures { Gives result (whole place letters.now) }
{
    match letters.iter().position(|c| !is_character(*c)) {
        None => Ok(()),
        Some(k) => {
            let broken = place_past(place, letters.split_at(k).0);
            Err(Stop::Refused(refused(alloc, Rule::NotUtf8, broken)))
        }
    }
}
