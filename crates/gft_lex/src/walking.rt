//! The walk over a file.
ghost use Rattle.std.specs.Prelude.{◌≡◌, ◌<◌, ◌^◌, ◌++◌, IfOk, OnOk, true, length, vec_len};
ghost use Rattle.std.specs.List.{list_all};
ghost use Rattle.gft_model.specs.Refusals.{ByPlace, IsAccepted, IsFirst};
ghost use Rattle.gft_model.specs.Source.{Tokens, first_place};
ghost use Rattle.gft_model.specs.TokenFaults.{BreaksTokens};
ghost use Rattle.gft_lex.specs.Later.{is_letter, IsLater, IsWalked};
ghost use Rattle.gft_lex.specs.Steps.{OnRefused, token_of};

use crate::letters::letters_of;
use crate::refusals::place_past;
use crate::step::step;
use gft_core::{NoMemory, Place};
use gft_rules::Stop;
use gft_syntax::{SourceToken, TokenForm};
use std::alloc::Global;

/// Adds what was met at the place, where it is a token.
fn add_token(
    tokens: &mut Vec<SourceToken>,
    place: Place,
    form: Option<TokenForm>,
) -> Result<(), NoMemory>
    ensures { OnOk result (tokens.new.items ≡ tokens.old.items ++ token_of place form) }
{
    if let Some(form) = form {
        tokens.push(SourceToken { form, place })?;
    }
    Ok(())
}

/// Walks over the characters from the first on.
fn walk(alloc: Global, file: u32, letters: &[u32]) -> Result<Vec<SourceToken>, Stop>
    requires short { length letters.now < 2 ^ 32 }
    requires letters { list_all is_letter letters.now ≡ true }
    ensures ok { IfOk result (λ tokens. IsWalked file letters.now tokens.items) }
    ensures err { OnRefused result (IsFirst (ByPlace (IsLater (first_place file) letters.now))) }
{
    let mut tokens = Vec::new(alloc);
    if letters.is_empty() {
        return Ok(tokens);
    }
    let mut place = Place {
        file,
        line: 1,
        col: 1,
    };
    let mut rest = letters;
    'lexemes: loop {
        let met = match step(alloc, place, rest) {
            Err(stop) => return Err(stop),
            Ok(met) => met,
        };
        let (passed, left) = rest.split_at(met.length);
        add_token(&mut tokens, place, met.form)?;
        if left.is_empty() {
            return Ok(tokens);
        }
        place = place_past(place, passed);
        rest = left;
    }
}

/// The tokens of a file in order, each the longest that begins at its place, or the first fault of
/// its characters. The file is the number that places have. One walk over the file.
pub fn lex(alloc: Global, file: u32, bytes: &Vec<u8>) -> Result<Vec<SourceToken>, Stop>
    requires { vec_len bytes.now < 2 ^ 32 }
    ensures tokens { IfOk result (λ tokens. Tokens file bytes.now.items tokens.items) }
    ensures accepted { IfOk result (λ _. IsAccepted (ByPlace (BreaksTokens file bytes.now.items))) }
    ensures refused { OnRefused result (IsFirst (ByPlace (BreaksTokens file bytes.now.items))) }
{
    let letters = letters_of(alloc, bytes.as_slice())?;
    walk(alloc, file, letters.as_slice())
}
