//! The levels of the forms of two terms with a symbol between.
use crate::level::Level;
use crate::plan::Infix;
use gft_syntax::Symbol;

/// The form that the symbol makes of two terms.
pub(crate) fn infix_of(symbol: Symbol) -> Option<Infix> {
    match symbol {
        Symbol::Bar => Some(Infix::Alternatives),
        Symbol::Arrow => Some(Infix::FunctionType),
        Symbol::DoubleArrow => Some(Infix::TableType),
        Symbol::DoublePlus => Some(Infix::Append),
        Symbol::Plus => Some(Infix::Glue),
        Symbol::Exclamation => Some(Infix::Selection),
        Symbol::DoubleStar => Some(Infix::Extension),
        Symbol::Star => Some(Infix::Pair),
        _ => None,
    }
}

/// The level of the form.
pub(crate) fn level_of(form: Infix) -> Level {
    match form {
        Infix::Alternatives | Infix::FunctionType | Infix::TableType => Level::Exp,
        Infix::Append => Level::Exp1,
        Infix::Glue => Level::Exp2,
        Infix::Selection | Infix::Extension | Infix::Pair => Level::Exp3,
    }
}

/// The level of the term before the symbol.
pub(crate) fn left_of(form: Infix) -> Level {
    match form {
        Infix::Alternatives => Level::Exp1,
        Infix::FunctionType => Level::Exp4,
        Infix::TableType => Level::Exp3,
        Infix::Append => Level::Exp2,
        Infix::Glue => Level::Exp3,
        Infix::Selection | Infix::Extension | Infix::Pair => Level::Exp3,
    }
}

/// The level of the term after the symbol.
pub(crate) fn right_of(form: Infix) -> Level {
    match form {
        Infix::Alternatives | Infix::FunctionType | Infix::TableType => Level::Exp,
        Infix::Append => Level::Exp1,
        Infix::Glue => Level::Exp2,
        Infix::Selection | Infix::Extension | Infix::Pair => Level::Exp4,
    }
}
