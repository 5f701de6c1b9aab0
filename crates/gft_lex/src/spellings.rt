//! The reserved words and the symbols with their spellings.
ghost use Rattle.std.specs.Prelude.{◌≡◌, ◌<◌, ◌∷◌, [], Some, slice_get};
ghost use Rattle.std.specs.Str.{chars};
ghost use Rattle.gft_lex.specs.Spellings.{word_rows, words_in_order, reserved_in, symbol_in};

use gft_rules::Table;
use gft_syntax::{Reserved, Symbol};

// Hands every reserved word with its spelling, in the order of the documents, to another macro.
macro_rules! for_every_word {
    ($writes:ident) => {
        $writes! {
            Abstract "abstract",
            Case "case",
            Cat "cat",
            Concrete "concrete",
            Flags "flags",
            Fun "fun",
            InWord "in",
            Incomplete "incomplete",
            Instance "instance",
            Interface "interface",
            Let "let",
            Lin "lin",
            Lincat "lincat",
            Lindef "lindef",
            Linref "linref",
            Of "of",
            OpenWord "open",
            Oper "oper",
            Overload "overload",
            Param "param",
            Resource "resource",
            Table "table",
            Variants "variants",
            Where "where",
            With "with",
            Str "Str",
            TypeWord "Type",
            ParamTypeWord "PType",
            Ints "Ints",
            Predef "Predef",
            DataWord "data",
            Def "def",
            Pre "pre",
            Strs "strs",
            Printname "printname",
            Transfer "transfer",
            Union "union",
            Reuse "reuse",
            Float "Float",
        }
    };
}

// A row for each word: its place among them, and its spelling.
macro_rules! rows {
    ($($word:ident $spelling:literal,)*) => {
        [$((Reserved::$word as u32, $spelling)),*]
    };
}

// The words.
macro_rules! words {
    ($($word:ident $spelling:literal,)*) => {
        [$(Reserved::$word),*]
    };
}

static ROWS: [(u32, &'static str); 39] = for_every_word!(rows);

static WORDS: [Reserved; 39] = for_every_word!(words);

/// The table of the reserved words, each with its place.
#[tactic(auto, unfolding(crate::specs::Spellings::word_rows))]
fn words() -> Table<39>
    ensures { result ≡ word_rows }
{
    Table::new(&ROWS)
}

/// The word at a place of the table.
#[tactic(auto, unfolding(crate::specs::Spellings::words_in_order))]
fn word_at(place: usize) -> Reserved
    requires { place < 39 }
    ensures { slice_get words_in_order place ≡ Some result }
{
    WORDS[place]
}

/// The reserved word that the text is.
pub(crate) fn reserved_word(text: &str) -> Option<Reserved>
    ensures { result ≡ reserved_in (chars text.now) }
{
    match words().find(text) {
        None => None,
        Some(place) => Some(word_at(place)),
    }
}

// The symbol of one character.
macro_rules! of_one {
    ($letter:expr, $($c:literal $symbol:ident,)*) => {{
        $(if $letter == $c as u32 {
            return Some(Symbol::$symbol);
        })*
        None
    }};
}

// The symbol of two characters.
macro_rules! of_two {
    ($first:expr, $second:expr, $($c:literal $d:literal $symbol:ident,)*) => {{
        $(if $first == $c as u32 && $second == $d as u32 {
            return Some(Symbol::$symbol);
        })*
        None
    }};
}

/// The symbol that the character is alone.
#[tactic(auto, unfolding(crate::specs::Spellings::symbol_in))]
pub(crate) fn single(letter: u32) -> Option<Symbol>
    ensures { result ≡ symbol_in (letter ∷ []) }
{
    of_one!(letter,
        '{' LeftBrace, '}' RightBrace, '(' LeftParenthesis, ')' RightParenthesis,
        '[' LeftBracket, ']' RightBracket, '<' Less, '>' Greater, ';' Semicolon, ':' Colon,
        ',' Comma, '.' Dot, '=' Equals, '|' Bar, '_' Underscore, '@' At, '*' Star, '+' Plus,
        '!' Exclamation, '?' Question, '-' Minus, '\\' Backslash,
    )
}

/// The symbol that the two characters are together.
#[tactic(auto, unfolding(crate::specs::Spellings::symbol_in))]
pub(crate) fn pair(first: u32, second: u32) -> Option<Symbol>
    ensures { result ≡ symbol_in (first ∷ second ∷ []) }
{
    of_two!(first, second,
        '*' '*' DoubleStar, '+' '+' DoublePlus, '-' '>' Arrow, '=' '>' DoubleArrow,
        '\\' '\\' DoubleBackslash,
    )
}
