//! The words that are no names.

/// The reserved words of sources, those that the language leaves out at the end.
static WORDS: [&'static str; 39] = [
    "abstract",
    "case",
    "cat",
    "concrete",
    "flags",
    "fun",
    "in",
    "incomplete",
    "instance",
    "interface",
    "let",
    "lin",
    "lincat",
    "lindef",
    "linref",
    "of",
    "open",
    "oper",
    "overload",
    "param",
    "resource",
    "table",
    "variants",
    "where",
    "with",
    "Str",
    "Type",
    "PType",
    "Ints",
    "Predef",
    "data",
    "def",
    "pre",
    "strs",
    "printname",
    "transfer",
    "union",
    "reuse",
    "Float",
];

/// Whether it is a reserved word. It takes no memory.
pub fn is_reserved(text: &str) -> bool {
    for word in WORDS.iter() {
        if *word == text {
            return true;
        }
    }
    false
}
