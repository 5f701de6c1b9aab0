//! Which types are subtypes of which.
use crate::same::{same_name, same_type};
use gft_core::Name;
use gft_syntax::CType;

/// Whether the first type is a subtype of the second, where `up` holds, and the second of the
/// first, where it does not. The types keep their sides, so that the recursion goes down each; in
/// the parameter of a function the direction changes.
#[cycle(relates)]
fn relates(one: &CType, other: &CType, up: bool) -> bool {
    match (one, other) {
        (CType::Record(fs), CType::Record(gs)) => {
            if up {
                has_labels(fs.get().as_slice(), gs.get().as_slice())
            } else {
                labels_in(fs.get().as_slice(), gs.get().as_slice())
            }
        }
        (CType::Table(p, v), CType::Table(q, w)) => {
            same_type(p.get(), q.get()) && relates(v.get(), w.get(), up)
        }
        (CType::Ints(m), CType::Ints(n)) => { if up { *m <= *n } else { *n <= *m } }
        (CType::Fun(a, b), CType::Fun(c, d)) => {
            relates(a.get(), c.get(), !up) && relates(b.get(), d.get(), up)
        }
        _ => same_type(one, other),
    }
}

/// Whether the fields have each label of the others, at a subtype.
#[cycle(relates)]
fn has_labels(fields: &[(Name, CType)], wanted: &[(Name, CType)]) -> bool {
    'each: for want in wanted {
        let mut is_there = false;
        'fields: for field in fields {
            if same_name(&field.0, &want.0) {
                is_there = relates(&field.1, &want.1, true);
                break;
            }
        }
        if !is_there {
            return false;
        }
    }
    true
}

/// Whether the others have each label of the fields, at a subtype.
#[cycle(relates)]
fn labels_in(wanted: &[(Name, CType)], fields: &[(Name, CType)]) -> bool {
    'each: for want in wanted {
        let mut is_there = false;
        'fields: for field in fields {
            if same_name(&field.0, &want.0) {
                is_there = relates(&want.1, &field.1, false);
                break;
            }
        }
        if !is_there {
            return false;
        }
    }
    true
}

/// Whether the first type may stand where the second is given.
pub fn is_subtype(found: &CType, given: &CType) -> bool {
    relates(found, given, true)
}
