//! The body of a module, cut into slices.
use gft_core::NoMemory;
use gft_syntax::{Reserved, SourceToken, Symbol, TokenForm};
use std::alloc::Global;

/// The slices of a body.
#[derive(Drop)]
pub(crate) struct Slices {
    /// Where each slice ends; each but the first begins behind the end of the one before.
    pub ends: Vec<usize>,
    /// Whether the body is closed, by the token at the last end.
    pub closed: bool,
}

/// What is open at a token of a body.
#[derive(Drop)]
struct Sight {
    /// How many brackets are open within the body.
    depth: u32,
    /// For each `let` that is open how many brackets were open before it.
    lets: Vec<u32>,
}

/// What a token is to the slices.
#[derive(Clone, Copy)]
enum Mark {
    Let,
    In,
    Opening,
    /// A closing bracket, and whether it is `}`.
    Closing(bool),
    Semicolon,
    Other,
}

fn mark_of_word(word: Reserved) -> Mark {
    match word {
        Reserved::Let => Mark::Let,
        Reserved::InWord => Mark::In,
        _ => Mark::Other,
    }
}

fn mark_of_symbol(symbol: Symbol) -> Mark {
    match symbol {
        Symbol::LeftBrace | Symbol::LeftParenthesis | Symbol::LeftBracket => Mark::Opening,
        Symbol::RightBrace => Mark::Closing(true),
        Symbol::RightParenthesis | Symbol::RightBracket => Mark::Closing(false),
        Symbol::Semicolon => Mark::Semicolon,
        _ => Mark::Other,
    }
}

fn mark_of(form: &TokenForm) -> Mark {
    match form {
        TokenForm::Reserved(word) => mark_of_word(*word),
        TokenForm::Symbol(symbol) => mark_of_symbol(*symbol),
        _ => Mark::Other,
    }
}

/// Ends each `let` that was begun within the bracket that closes.
fn close_lets(sight: &mut Sight) {
    for _ in 0..sight.lets.len() {
        match sight.lets.last() {
            Some(before) => {
                if *before <= sight.depth {
                    return;
                }
            }
            None => return,
        }
        let _ended = sight.lets.pop();
    }
}

/// A closing bracket closes the innermost that is open, and is passed.
fn close_bracket(sight: &mut Sight) {
    sight.depth = sight.depth.saturating_sub(1);
    close_lets(sight);
}

/// What a token means for the slices.
#[derive(Clone, Copy)]
enum Ending {
    None,
    /// A slice ends.
    Slice,
    /// The body ends.
    Body,
}

/// Passes a token.
fn pass(sight: &mut Sight, mark: Mark) -> Result<Ending, NoMemory> {
    match mark {
        Mark::Let => sight.lets.push(sight.depth)?,
        Mark::In => {
            let _ended = sight.lets.pop();
        }
        Mark::Opening => sight.depth = sight.depth.saturating_add(1),
        Mark::Closing(is_brace) => {
            if sight.depth > 0 {
                close_bracket(sight);
            } else if is_brace {
                return Ok(Ending::Body);
            }
        }
        Mark::Semicolon => {
            if sight.depth == 0 && sight.lets.is_empty() {
                return Ok(Ending::Slice);
            }
        }
        Mark::Other => {}
    }
    Ok(Ending::None)
}

/// The slices of the body whose tokens begin at `from`. One walk over the tokens.
pub(crate) fn cut(alloc: Global, tokens: &[SourceToken], from: usize) -> Result<Slices, NoMemory> {
    let mut ends = Vec::new(alloc);
    let mut sight = Sight {
        depth: 0,
        lets: Vec::new(alloc),
    };
    for at in from..tokens.len() {
        match pass(&mut sight, mark_of(&tokens[at].form))? {
            Ending::None => {}
            Ending::Slice => ends.push(at)?,
            Ending::Body => {
                ends.push(at)?;
                return Ok(Slices { ends, closed: true });
            }
        }
    }
    ends.push(tokens.len())?;
    Ok(Slices {
        ends,
        closed: false,
    })
}
