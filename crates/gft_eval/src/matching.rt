//! Patterns of branches, with what their variables have.
use crate::data::{Datum, Range, get};
use crate::machine::Machine;
use crate::stop::Stop;
use gft_core::Name;
use gft_strpat::{Span, match_spans, variables};
use gft_syntax::{Pattern, PatternField, Reference, Whole};
use gft_value::{same_whole, tuple_label};

/// Whether the pattern takes a string without looking into it: of an `Or` the left side decides.
fn is_blind(pattern: &Pattern) -> bool {
    match pattern {
        Pattern::Any(_) => true,
        Pattern::Name(Reference::Written(_), _) => true,
        Pattern::As(_, inner, _) => is_blind(inner.get()),
        Pattern::Or(left, _, _) => is_blind(left.get()),
        _ => false,
    }
}

/// The place of a name in a list.
fn place_of(names: &[&Name], name: &Name) -> usize {
    let mut place = 0usize;
    for one in names {
        if one.as_str() == name.as_str() {
            return place;
        }
        place = place.saturating_add(1);
    }
    place
}

impl<'a> Machine<'a> {
    /// Whether a pattern matches a string, given with its text. What the variables have is bound
    /// where it does, else nothing is.
    pub fn matches_text(&mut self, pattern: u32, string: u32, text: Range) -> Result<bool, Stop> {
        let Some(pattern) = get(self.code.patterns.as_slice(), pattern) else {
            return Ok(false); // excluded: the pattern was read
        };
        match pattern {
            Pattern::Any(_) => Ok(true),
            Pattern::Name(Reference::Written(_), _) => {
                self.bind(string)?;
                Ok(true)
            }
            _ => match match_spans(self.alloc, pattern, self.words.letters(text))? {
                None => Ok(false),
                Some(spans) => self.bind_spans(text, spans.as_slice()),
            },
        }
    }

    /// Binds for each part of the text the string of its words.
    fn bind_spans(&mut self, text: Range, spans: &[Span]) -> Result<bool, Stop> {
        for span in spans {
            let from = u32::try_from(span.from).unwrap_or(u32::MAX);
            let to = u32::try_from(span.to).unwrap_or(u32::MAX);
            let part = Range {
                from: text.at(from),
                to: text.at(to),
            };
            let value = self.string_of(part)?;
            self.bind(value)?;
        }
        Ok(true)
    }

    /// Whether a pattern takes a string that holds a closed part; its variables are bound to it.
    pub fn takes_closed(&mut self, pattern: u32, string: u32) -> Result<bool, Stop> {
        let Some(pattern) = get(self.code.patterns.as_slice(), pattern) else {
            return Ok(false); // excluded: the pattern was read
        };
        if !is_blind(pattern) {
            return Ok(false);
        }
        let mut names = Vec::new(self.alloc);
        variables(pattern, &mut names)?;
        for _ in names.iter() {
            self.bind(string)?;
        }
        Ok(true)
    }

    /// Whether the pattern of that number matches a value that is no string. What its variables
    /// have is bound; where it does not match, that is open.
    pub fn matches_branch(&mut self, pattern: u32, value: u32) -> Result<bool, Stop> {
        match get(self.code.patterns.as_slice(), pattern) {
            Some(pattern) => self.matches(pattern, value),
            None => Ok(false), // excluded: the pattern was read
        }
    }

    /// A recursion as deep as the pattern.
    #[cycle(matches)]
    fn matches(&mut self, pattern: &Pattern, value: u32) -> Result<bool, Stop> {
        match pattern {
            Pattern::Any(_) => Ok(true),
            Pattern::Name(Reference::Written(_), _) => {
                self.bind(value)?;
                Ok(true)
            }
            Pattern::Name(Reference::Whole(name), _) => self.matches_con(name, &[], value),
            Pattern::Con(_, Reference::Whole(name), parts, _) => {
                self.matches_con(name, parts.as_slice(), value)
            }
            Pattern::As(_, inner, _) => {
                self.bind(value)?;
                self.matches(inner.get(), value)
            }
            Pattern::Or(left, right, _) => {
                let depth = self.env.len();
                if self.matches(left.get(), value)? {
                    return Ok(true);
                }
                self.env.truncate(depth);
                if !self.matches(right.get(), value)? {
                    return Ok(false);
                }
                self.reorder(depth, left.get(), right.get())
            }
            Pattern::Num(one, _) => self.matches_number(*one, value),
            Pattern::Fields(fields, _) => self.matches_fields(fields.as_slice(), value),
            Pattern::Tuple(items, _) => self.matches_items(items.as_slice(), value),
            _ => Ok(false), // excluded by typing: no other pattern has the type of a parameter
        }
    }

    #[cycle(matches)]
    fn matches_con(&mut self, name: &Whole, parts: &[Pattern], value: u32) -> Result<bool, Stop> {
        let Datum::Con(whole, args) = self.datum(self.resolved(value)?)? else {
            return Ok(false); // excluded by typing
        };
        if !self.is_whole(whole, name) {
            return Ok(false);
        }
        let mut place = args.from;
        'parts: for part in parts {
            let arg = self.part(place)?;
            if !self.matches(part, arg)? {
                return Ok(false);
            }
            place = place.saturating_add(1);
        }
        Ok(true)
    }

    /// Whether a constructor has the name.
    pub fn is_whole(&self, whole: u32, name: &Whole) -> bool {
        match get(self.code.wholes.as_slice(), whole) {
            Some(whole) => same_whole(whole, name),
            None => false, // excluded: constructors are named by their numbers
        }
    }

    /// Puts what was bound since in the order in which the left side has the variables.
    fn reorder(&mut self, depth: usize, left: &Pattern, right: &Pattern) -> Result<bool, Stop> {
        let mut names = Vec::new(self.alloc);
        variables(left, &mut names)?;
        let mut others = Vec::new(self.alloc);
        variables(right, &mut others)?;
        let end = self.env.len();
        for name in names.iter() {
            let place = depth.saturating_add(place_of(others.as_slice(), name));
            if let Some(value) = self.env.get(place).copied() {
                self.bind(value)?;
            }
        }
        self.move_back(depth, end);
        Ok(true)
    }

    /// Moves the variables from one place on to an earlier place, over those there.
    fn move_back(&mut self, to: usize, from: usize) {
        let mut place = to;
        for at in from..self.env.len() {
            let value = self.env.get(at).copied().unwrap_or(u32::MAX);
            if let Some(one) = self.env.get_mut(place) {
                *one = value;
            }
            place = place.saturating_add(1);
        }
        self.env.truncate(place);
    }

    fn matches_number(&mut self, one: u128, value: u32) -> Result<bool, Stop> {
        match self.datum(self.resolved(value)?)? {
            Datum::Number(code) => Ok(self.number_of(code) == one),
            _ => Ok(false), // excluded by typing
        }
    }

    #[cycle(matches)]
    fn matches_fields(
        &mut self,
        fields: &[PatternField<Pattern>],
        value: u32,
    ) -> Result<bool, Stop> {
        'fields: for one in fields {
            'labels: for label in one.labels.as_slice() {
                let field = self.field_with(value, label.as_str())?;
                if !self.matches(&one.pattern, field.value)? {
                    return Ok(false);
                }
            }
        }
        Ok(true)
    }

    #[cycle(matches)]
    fn matches_items(&mut self, items: &[Pattern], value: u32) -> Result<bool, Stop> {
        let mut place = 0usize;
        'items: for item in items {
            let label = tuple_label(self.alloc, place)?;
            let field = self.field_with(value, label.as_str())?;
            if !self.matches(item, field.value)? {
                return Ok(false);
            }
            place = place.saturating_add(1);
        }
        Ok(true)
    }
}
