//! Parts of built terms.
use crate::node::Part;
use crate::table::Nodes;
use gft_core::{Name, NoMemory, Shared};
use gft_forms::{Forms, Span};
use gft_syntax::{LinTerm, Pattern};
use gft_types::Types;
use sqlite_items::Items;
use std::alloc::Global;

/// The fields of a record, and the branches of a table.
type Fields = Items<(Shared<Name>, LinTerm)>;

type Matched = Items<(Shared<Pattern>, LinTerm)>;

/// What has no outcome.
pub(crate) fn no_outcome(alloc: Global) -> Result<LinTerm, NoMemory> {
    Ok(LinTerm::Variants(Shared::new(alloc, Items::new(alloc))?))
}

impl Nodes {
    /// A term that was built before, as part of several.
    pub(crate) fn shared(&self, alloc: Global, node: u32) -> Result<Shared<LinTerm>, NoMemory> {
        match self.built.get(node as usize) {
            // excluded by add: parts come before what they are part of
            None => Shared::new(alloc, no_outcome(alloc)?),
            Some(term) => term.share(),
        }
    }

    /// A term that was built before.
    pub(crate) fn copied(&self, alloc: Global, node: u32) -> Result<LinTerm, NoMemory> {
        match self.built.get(node as usize) {
            // excluded by add
            None => no_outcome(alloc),
            Some(term) => term.get().copy(),
        }
    }

    fn listed(&self, list: Span) -> &[Part] {
        let start = list.first as usize;
        match self
            .parts
            .get(start..start.saturating_add(list.count as usize))
        {
            None => &[], // excluded by add_parts
            Some(parts) => parts,
        }
    }

    /// The terms of a list.
    pub(crate) fn terms(&self, alloc: Global, list: Span) -> Result<Items<LinTerm>, NoMemory> {
        let mut terms = Items::new(alloc);
        'each: for part in self.listed(list) {
            terms.push(self.copied(alloc, part.node)?)?;
        }
        Ok(terms)
    }

    /// The terms of a list, as part of several.
    pub(crate) fn shared_terms(
        &self,
        alloc: Global,
        list: Span,
    ) -> Result<Shared<Items<LinTerm>>, NoMemory> {
        let terms = self.terms(alloc, list)?;
        Shared::new(alloc, terms)
    }

    /// The fields of a record.
    pub(crate) fn fields(
        &self,
        alloc: Global,
        types: &Types,
        list: Span,
    ) -> Result<Shared<Fields>, NoMemory> {
        let mut fields = Items::new(alloc);
        'each: for part in self.listed(list) {
            // each label has a name
            if let Some(name) = types.names.shared(part.key)? {
                fields.push((name, self.copied(alloc, part.node)?))?;
            }
        }
        Shared::new(alloc, fields)
    }

    /// The branches of a table.
    pub(crate) fn matched(
        &self,
        alloc: Global,
        forms: &Forms,
        list: Span,
    ) -> Result<Matched, NoMemory> {
        let mut branches = Items::new(alloc);
        'each: for part in self.listed(list) {
            // each branch has a pattern
            if let Some(pattern) = forms.pattern(part.key)? {
                branches.push((pattern, self.copied(alloc, part.node)?))?;
            }
        }
        Ok(branches)
    }
}
