//! Items that stand in strictly ascending order.
use crate::fault::ReadErr;
use crate::field::{Reader, Span, bad};
use gft_rules::Rule;

/// What the item before this one is compared by.
#[derive(Clone, Copy)]
pub struct Ascending {
    last: Option<Span>,
}

impl Ascending {
    /// No item yet.
    pub fn new() -> Ascending {
        Ascending { last: None }
    }

    /// One more item, read whole, which begins at a place and is compared by a part of the file.
    pub fn add(&mut self, reader: &Reader, at: u32, by: Span) -> Result<(), ReadErr> {
        if let Some(last) = self.last {
            if !reader.is_lower(last, by) {
                return Err(bad(Rule::BadOrder, at));
            }
        }
        self.last = Some(by);
        Ok(())
    }

    /// One more item, which is compared by all of its bytes.
    pub fn add_whole(&mut self, reader: &Reader, at: u32) -> Result<(), ReadErr> {
        let by = Span {
            from: at,
            to: reader.at(),
        };
        self.add(reader, at, by)
    }
}
