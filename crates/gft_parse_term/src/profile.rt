//! Words that are out of the profile, and brackets that are open at once.
use gft_core::Place;
use gft_syntax::{Reserved, SourceToken, Symbol, TokenForm};

/// How many brackets may be open at once.
const MOST_OPEN: u32 = 200;

/// How the reserved word is written, where it is out of the profile.
fn outside_word(word: Reserved) -> Option<&'static str> {
    match word {
        Reserved::DataWord => Some("data"),
        Reserved::Def => Some("def"),
        Reserved::Pre => Some("pre"),
        Reserved::Strs => Some("strs"),
        Reserved::Printname => Some("printname"),
        Reserved::Transfer => Some("transfer"),
        Reserved::Union => Some("union"),
        Reserved::Reuse => Some("reuse"),
        Reserved::Float => Some("Float"),
        _ => None,
    }
}

/// How the token is written, where it is out of the profile.
fn outside_token(token: &SourceToken) -> Option<&'static str> {
    match &token.form {
        TokenForm::Reserved(word) => outside_word(*word),
        _ => None,
    }
}

/// The first word of a slice that is out of the profile, and its place.
pub(crate) fn first_outside(
    tokens: &[SourceToken],
    from: u32,
    to: u32,
) -> Option<(&'static str, Place)> {
    for at in from..to {
        let Some(token) = tokens.get(at as usize) else {
            return None;
        };
        if let Some(word) = outside_token(token) {
            return Some((word, token.place));
        }
    }
    None
}

/// What a token is to the brackets.
#[derive(Clone, Copy)]
enum Mark {
    Opening,
    Closing,
    Other,
}

fn mark_of(form: &TokenForm) -> Mark {
    match form {
        TokenForm::Symbol(symbol) => match symbol {
            Symbol::LeftBrace | Symbol::LeftParenthesis | Symbol::LeftBracket => Mark::Opening,
            Symbol::RightBrace | Symbol::RightParenthesis | Symbol::RightBracket => Mark::Closing,
            _ => Mark::Other,
        },
        _ => Mark::Other,
    }
}

/// The place of the first bracket of a slice that is one too many open at once.
pub(crate) fn first_too_deep(tokens: &[SourceToken], from: u32, to: u32) -> Option<Place> {
    let mut open: u32 = 0;
    for at in from..to {
        let Some(token) = tokens.get(at as usize) else {
            return None;
        };
        match mark_of(&token.form) {
            Mark::Opening => {
                if open >= MOST_OPEN {
                    return Some(token.place);
                }
                open = open.saturating_add(1);
            }
            Mark::Closing => open = open.saturating_sub(1),
            Mark::Other => {}
        }
    }
    None
}
