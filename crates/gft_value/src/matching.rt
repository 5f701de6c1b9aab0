//! Whether a pattern matches a parameter value.
use crate::label::tuple_number;
use crate::same::{same_name, same_whole};
use gft_core::Name;
use gft_syntax::{Param, Pattern, PatternField, Reference, Whole};

/// Whether the pattern matches the value. It takes no memory.
#[cycle(matches)]
pub fn matches(pattern: &Pattern, value: &Param) -> bool {
    match pattern {
        Pattern::Or(p, q, _) => matches(p.get(), value) || matches(q.get(), value),
        Pattern::Con(_, Reference::Whole(name), parts, _) => {
            matches_con(parts.as_slice(), name, value)
        }
        Pattern::Name(Reference::Whole(name), _) => matches_con(&[], name, value),
        Pattern::As(_, p, _) => matches(p.get(), value),
        Pattern::Num(number, _) => match value {
            Param::Ints(n) => *number == *n,
            _ => false,
        },
        Pattern::Fields(fields, _) => match value {
            Param::Record(values) => matches_fields(fields.as_slice(), values.as_slice()),
            _ => false,
        },
        Pattern::Tuple(parts, _) => match value {
            Param::Record(values) => matches_items(parts.as_slice(), values.as_slice()),
            _ => false,
        },
        Pattern::Any(_) => true,
        Pattern::Name(_, _) => true,
        // excluded by typing: patterns of texts do not stand where a parameter value is
        _ => false,
    }
}

#[cycle(matches)]
fn matches_con(parts: &[Pattern], name: &Whole, value: &Param) -> bool {
    match value {
        Param::Con(other, arguments) => {
            let arguments = arguments.as_slice();
            if !same_whole(name, other) || parts.len() != arguments.len() {
                return false;
            }
            'each: for i in 0..parts.len() {
                if !matches(&parts[i], &arguments[i]) {
                    return false;
                }
            }
            true
        }
        _ => false,
    }
}

/// Whether the pattern matches the field of that label, where there is one.
#[cycle(matches)]
fn matches_label(pattern: &Pattern, label: &Name, values: &[(Name, Param)]) -> bool {
    'each: for field in values {
        if same_name(label, &field.0) {
            return matches(pattern, &field.1);
        }
    }
    false
}

#[cycle(matches)]
fn matches_fields(fields: &[PatternField<Pattern>], values: &[(Name, Param)]) -> bool {
    'each: for field in fields {
        'labels: for label in field.labels.as_slice() {
            if !matches_label(&field.pattern, label, values) {
                return false;
            }
        }
    }
    true
}

#[cycle(matches)]
fn matches_items(parts: &[Pattern], values: &[(Name, Param)]) -> bool {
    'each: for field in values {
        if let Some(number) = tuple_number(&field.0) {
            if number < parts.len() && !matches(&parts[number], &field.1) {
                return false;
            }
        }
    }
    true
}
