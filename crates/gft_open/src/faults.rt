//! The first fault of a module's names.
use gft_core::Place;
use gft_modules::is_before;
use gft_rules::Rule;

/// A fault: its name by number, and the two modules that differ, where they do.
#[derive(Clone, Copy)]
pub struct Fault {
    pub rule: Rule,
    pub place: Place,
    pub name: u32,
    pub modules: Option<(u32, u32)>,
}

/// Whether the one fault comes first: by place, then by the rule's number.
fn comes_first(a: Fault, b: Fault) -> bool {
    if a.place != b.place {
        return is_before(a.place, b.place);
    }
    a.rule.code() < b.rule.code()
}

/// The first of the faults that were seen before, if any, and one more.
pub fn first_fault(seen: Option<Fault>, fault: Fault) -> Option<Fault> {
    match seen {
        None => Some(fault),
        Some(before) => {
            if comes_first(fault, before) {
                Some(fault)
            } else {
                Some(before)
            }
        }
    }
}
