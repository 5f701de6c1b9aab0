//! `variants` and `|`.
use crate::state::{Found, Typing};
use crate::stopped::Stopped;
use crate::task::Task;
use gft_forms::Span;
use gft_nodes::Node;
use gft_types::TypeId;
use std::alloc::Global;

impl Typing {
    /// Members: all are given the given type; where none is, the first one's type, which is found.
    pub(crate) fn variants(
        &mut self,
        e: u32,
        members: Span,
        given: Option<TypeId>,
    ) -> Result<(), Stopped> {
        match given {
            Some(_) => {
                self.push(Task::VariantsEnd(members.count, given))?;
                self.push_members(members, 0, given)
            }
            None if members.count == 0 => Err(self.no_type(e)),
            None => {
                self.push(Task::VariantsEnd(members.count, None))?;
                self.push(Task::VariantsRest(members))?;
                self.push_member(members, 0, None)
            }
        }
    }

    /// A member, which is data.
    fn push_member(
        &mut self,
        members: Span,
        at: u32,
        given: Option<TypeId>,
    ) -> Result<(), Stopped> {
        let member = self.forms.part(members, at);
        self.push(Task::Data(member))?;
        self.push(Task::Term(member, given))
    }

    /// The members from that one on.
    fn push_members(
        &mut self,
        members: Span,
        first: u32,
        given: Option<TypeId>,
    ) -> Result<(), Stopped> {
        for left in 0..members.count.saturating_sub(first) {
            self.push_member(members, members.count - 1 - left, given)?;
        }
        Ok(())
    }

    /// The first member was found: its type is given to the others.
    pub(crate) fn variants_rest(&mut self, members: Span) -> Result<(), Stopped> {
        let of = self.last_type();
        self.push_members(members, 1, Some(of))
    }

    pub(crate) fn variants_end(
        &mut self,
        alloc: Global,
        count: u32,
        given: Option<TypeId>,
    ) -> Result<(), Stopped> {
        let of = match given {
            Some(given) => given,
            None => self.found_at(count, 0).of,
        };
        let members = self.pop_parts(alloc, count)?;
        let node = self.nodes.add(Node::Variants(members))?;
        self.push_found(Found { node, of })
    }
}
