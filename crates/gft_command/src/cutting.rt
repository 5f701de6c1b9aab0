//! Where a line is cut: into pipes, commands and words.

/// Where a walk over a line stands: outside quotes, inside, or inside behind a backslash.
#[derive(Clone, Copy)]
enum Quote {
    Outside,
    Inside,
    Escaped,
}

impl Quote {
    /// Where the walk stands after one more byte.
    fn after(self, byte: u8) -> Quote {
        match self {
            Quote::Outside if byte == b'"' => Quote::Inside,
            Quote::Outside => Quote::Outside,
            Quote::Inside if byte == b'"' => Quote::Outside,
            Quote::Inside if byte == b'\\' => Quote::Escaped,
            Quote::Inside => Quote::Inside,
            Quote::Escaped => Quote::Inside,
        }
    }
}

/// Whether the byte, outside quotes, cuts there.
fn cuts(quote: Quote, byte: u8, mark: u8) -> bool {
    match quote {
        Quote::Outside => byte == mark,
        Quote::Inside => false,
        Quote::Escaped => false,
    }
}

/// Where the first mark outside quotes stands, in bytes. The mark is a byte of ASCII.
fn find_outside(text: &str, mark: u8) -> Option<usize> {
    let mut quote = Quote::Outside;
    for (at, byte) in text.as_bytes().iter().enumerate() {
        if cuts(quote, *byte, mark) {
            return Some(at);
        }
        quote = quote.after(*byte);
    }
    None
}

/// The text before the first mark outside quotes, and what follows the mark, if there is one.
pub fn split_outside(text: &str, mark: u8) -> (&str, Option<&str>) {
    let Some(at) = find_outside(text, mark) else {
        return (text, None);
    };
    match text.split_at_checked(at) {
        Some((before, after)) => (before, after.get(1..)),
        None => (text, None),
    }
}

/// Whether the text is white space alone.
pub fn is_blank(text: &str) -> bool {
    text.chars().all(|c| c.is_whitespace())
}

/// The first word, empty where there is none, and what follows it.
pub fn first_word(text: &str) -> (&str, &str) {
    let text = text.trim_start();
    let Some(at) = text.find(|c: char| c.is_whitespace()) else {
        return (text, "");
    };
    match text.split_at_checked(at) {
        Some(parts) => parts,
        None => (text, ""),
    }
}
