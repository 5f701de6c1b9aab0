//! `let` and `where`.
use crate::state::{Found, Typing};
use crate::stopped::Stopped;
use crate::task::{Role, Task};
use gft_forms::{Item, Span};
use gft_nodes::Node;
use gft_types::{TYPE_SORT, TypeId};
use std::alloc::Global;

impl Typing {
    /// Locals, each seeing those before it, and the term that sees them all.
    pub(crate) fn let_in(
        &mut self,
        locals: Span,
        body: u32,
        given: Option<TypeId>,
    ) -> Result<(), Stopped> {
        let mark = self.mark()?;
        self.push(Task::LetEnd(locals))?;
        self.push(Task::Leave(mark))?;
        self.push(Task::Term(body, given))?;
        for left in 0..locals.count {
            self.push_local(locals, locals.count - 1 - left)?;
        }
        Ok(())
    }

    /// A local, and after it, where it is the last of those that are written together, their
    /// binding.
    fn push_local(&mut self, locals: Span, at: u32) -> Result<(), Stopped> {
        if self.group_begins(locals, at.saturating_add(1)) {
            self.push(Task::Bind(locals, at))?;
        }
        match self.forms.item(locals, at) {
            None => Ok(()), // excluded by let_in
            Some(item) => self.local(item),
        }
    }

    /// A local or a field, with a type or without.
    fn local(&mut self, item: Item) -> Result<(), Stopped> {
        let Some(value) = item.value else {
            return Ok(()); // excluded by the reader: a local has a value
        };
        match item.of {
            None => self.push(Task::Term(value, None)),
            Some(of) => {
                self.push(Task::Checked(value))?;
                self.push(Task::Written(of, Role::Any, TYPE_SORT))
            }
        }
    }

    /// Whether locals that are written together begin at that place, or the list ends there.
    fn group_begins(&self, locals: Span, at: u32) -> bool {
        if at >= locals.count {
            return true;
        }
        match self.forms.item(locals, at) {
            None => true,
            Some(item) => item.is_first,
        }
    }

    /// How many locals are written together up to that one.
    fn group_count(&self, locals: Span, last: u32) -> u32 {
        let mut count = 1u32;
        for back in 0..last {
            if self.group_begins(locals, last - back) {
                break;
            }
            count = count.saturating_add(1);
        }
        count
    }

    /// The locals that are written together are bound.
    pub(crate) fn bind_group(&mut self, locals: Span, last: u32) -> Result<(), Stopped> {
        let count = self.group_count(locals, last);
        let first = last.saturating_add(1).saturating_sub(count);
        for at in 0..count {
            if let Some(item) = self.forms.item(locals, first.saturating_add(at)) {
                let of = self.found_at(count, at).of;
                self.bind(item.name, of)?;
            }
        }
        Ok(())
    }

    /// The term that sees the locals was found; they are put round it, the last ones first.
    pub(crate) fn let_end(&mut self, alloc: Global, locals: Span) -> Result<(), Stopped> {
        let body: Found = self.pop_found();
        let mut node = body.node;
        for left in 0..locals.count {
            let last = locals.count - 1 - left;
            if self.group_begins(locals, last.saturating_add(1)) {
                let count = self.group_count(locals, last);
                let terms = self.pop_parts(alloc, count)?;
                node = self.nodes.add(Node::Let(terms, node))?;
            }
        }
        self.push_found(Found { node, of: body.of })
    }
}
