//! Tokens of a source file.
use gft_core::{Name, Place, Text};

/// The reserved words. `TypeWord` is `Type`, `ParamTypeWord` is `PType`.
#[derive(Clone, Copy, Debug, PartialEq, Eq)]
pub enum Reserved {
    Abstract,
    Case,
    Cat,
    Concrete,
    Flags,
    Fun,
    InWord,
    Incomplete,
    Instance,
    Interface,
    Let,
    Lin,
    Lincat,
    Lindef,
    Linref,
    Of,
    OpenWord,
    Oper,
    Overload,
    Param,
    Resource,
    Table,
    Variants,
    Where,
    With,
    Str,
    TypeWord,
    ParamTypeWord,
    Ints,
    Predef,
    /// The words from here on are reserved and out of the profile. This one is `data`.
    DataWord,
    Def,
    Pre,
    Strs,
    Printname,
    Transfer,
    Union,
    Reuse,
    Float,
}

/// The symbols, in the order `{ } ( ) [ ] < > ; : , . = | _ @ * ** + ++ ! ? - -> => \ \\`.
#[derive(Clone, Copy, Debug, PartialEq, Eq)]
pub enum Symbol {
    LeftBrace,
    RightBrace,
    LeftParenthesis,
    RightParenthesis,
    LeftBracket,
    RightBracket,
    Less,
    Greater,
    Semicolon,
    Colon,
    Comma,
    Dot,
    Equals,
    Bar,
    Underscore,
    At,
    Star,
    DoubleStar,
    Plus,
    DoublePlus,
    Exclamation,
    Question,
    Minus,
    Arrow,
    DoubleArrow,
    Backslash,
    DoubleBackslash,
}

/// What a token is. A number and a text keep how they are written, digits or quotes included, since
/// a refusal may name them: the value comes first, then the spelling.
#[derive(Drop)]
pub enum TokenForm {
    Identifier(Name),
    Reserved(Reserved),
    Number(u128, Text),
    Quoted(Text, Text),
    Symbol(Symbol),
}

/// A token and the place of its first character.
#[derive(Drop)]
pub struct SourceToken {
    pub form: TokenForm,
    pub place: Place,
}
