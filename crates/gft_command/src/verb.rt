//! The names of commands.

/// The commands of a session.
#[derive(Clone, Copy, Debug, PartialEq, Eq)]
pub enum Verb {
    Import,
    Empty,
    Quit,
    Parse,
    Linearize,
    Complete,
    AbstractInfo,
    WritePortable,
    GenerateTrees,
    MorphoAnalyse,
    ContextFree,
}

/// What one command of a pipe hands to the next.
#[derive(Clone, Copy, Debug, PartialEq, Eq)]
pub enum Item {
    Tree,
    Text,
}

/// The command of that name, in full or short.
pub fn verb_of(name: &str) -> Option<Verb> {
    match name {
        "import" | "i" => Some(Verb::Import),
        "empty" | "e" => Some(Verb::Empty),
        "quit" | "q" => Some(Verb::Quit),
        "parse" | "p" => Some(Verb::Parse),
        "linearize" | "l" => Some(Verb::Linearize),
        "complete" => Some(Verb::Complete),
        "abstract_info" | "ai" => Some(Verb::AbstractInfo),
        "write_portable" => Some(Verb::WritePortable),
        "generate_trees" | "gt" => Some(Verb::GenerateTrees),
        "morpho_analyse" | "ma" => Some(Verb::MorphoAnalyse),
        "context_free" | "cf" => Some(Verb::ContextFree),
        _ => None,
    }
}

impl Verb {
    /// What the command hands on to a later one of its pipe, if it does.
    pub fn gives(self) -> Option<Item> {
        match self {
            Verb::Parse => Some(Item::Tree),
            Verb::GenerateTrees => Some(Item::Tree),
            Verb::Linearize => Some(Item::Text),
            Verb::Import => None,
            Verb::Empty => None,
            Verb::Quit => None,
            Verb::Complete => None,
            Verb::AbstractInfo => None,
            Verb::WritePortable => None,
            Verb::MorphoAnalyse => None,
            Verb::ContextFree => None,
        }
    }

    /// What the command takes from an earlier one of its pipe, if it does.
    pub fn takes(self) -> Option<Item> {
        match self {
            Verb::Parse => Some(Item::Text),
            Verb::Linearize => Some(Item::Tree),
            Verb::Complete => Some(Item::Text),
            Verb::Import => None,
            Verb::Empty => None,
            Verb::Quit => None,
            Verb::AbstractInfo => None,
            Verb::WritePortable => None,
            Verb::GenerateTrees => None,
            Verb::MorphoAnalyse => None,
            Verb::ContextFree => None,
        }
    }
}
