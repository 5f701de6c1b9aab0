//! What is found where a type is given.
use crate::refusing::Said;
use crate::state::{Found, Typing};
use crate::stopped::Stopped;
use gft_core::Place;
use gft_nodes::Node;
use gft_rules::Rule;
use gft_types::{Fit, PARAM_SORT, TYPE_SORT, TypeId};
use std::alloc::Global;

/// The most values that a type may have over which a table is.
const MOST_VALUES: u64 = 4096;

impl Typing {
    /// The term has another type than the given one.
    pub(crate) fn mismatch(&mut self, place: Place, given: TypeId, of: TypeId) -> Stopped {
        self.broken(Rule::Mismatch, place, Said::Types(given, of))
    }

    /// Whether the term names a parameter type.
    fn names_param(&self, node: u32) -> bool {
        match self.nodes.node(node) {
            Node::Type(of) => self.types.is_param(of),
            _ => false,
        }
    }

    /// Whether the term is a type where one of the other sort is given: one of sort `PType` where
    /// `Type` is, and the name of a parameter type where `PType` is.
    fn is_sorted(&self, found: Found, given: TypeId) -> bool {
        if given == TYPE_SORT {
            return found.of == PARAM_SORT;
        }
        given == PARAM_SORT && found.of == TYPE_SORT && self.names_param(found.node)
    }

    /// The term where its supertype stands.
    fn cut(&mut self, found: Found, given: TypeId) -> Result<Found, Stopped> {
        let node = self.nodes.add(Node::Cut(found.node, found.of, given))?;
        Ok(Found { node, of: given })
    }

    /// The term where the type is given.
    pub(crate) fn fit(
        &mut self,
        alloc: Global,
        found: Found,
        given: TypeId,
        place: Place,
    ) -> Result<Found, Stopped> {
        let whole = Found {
            node: found.node,
            of: given,
        };
        if self.is_sorted(found, given) {
            return Ok(whole);
        }
        match self.types.fit(alloc, found.of, given)? {
            Fit::No => Err(self.mismatch(place, given, found.of)),
            Fit::Whole => Ok(whole),
            Fit::Cut => self.cut(found, given),
        }
    }

    /// The term where the type is given, if one is.
    pub(crate) fn fit_given(
        &mut self,
        alloc: Global,
        found: Found,
        given: Option<TypeId>,
        place: Place,
    ) -> Result<Found, Stopped> {
        match given {
            None => Ok(found),
            Some(given) => self.fit(alloc, found, given, place),
        }
    }

    /// The term that was found last, where the type is given.
    pub(crate) fn fit_last(&mut self, alloc: Global, e: u32, given: TypeId) -> Result<(), Stopped> {
        let place = self.forms.place(e);
        let found = self.pop_found();
        let fitting = self.fit(alloc, found, given, place)?;
        self.push_found(fitting)
    }

    /// The term that was found last is data.
    pub(crate) fn data(&mut self, e: u32) -> Result<(), Stopped> {
        if self.types.function_of(self.last_type()).is_some() {
            return Err(self.broken_at(Rule::FunctionHere, e, Said::Nothing));
        }
        Ok(())
    }

    /// A table may be over the type.
    pub(crate) fn finite(&mut self, over: TypeId, e: u32) -> Result<(), Stopped> {
        if !self.types.is_finite(over) {
            return Err(self.broken_at(Rule::NotFinite, e, Said::Type(over)));
        }
        self.few_values(over, e)
    }

    /// The type has not too many values.
    pub(crate) fn few_values(&mut self, of: TypeId, e: u32) -> Result<(), Stopped> {
        if self.types.count_of(of) > MOST_VALUES {
            return Err(self.broken_at(Rule::ParamTooLarge, e, Said::Type(of)));
        }
        Ok(())
    }

    /// The term is of a form whose type needs to be given.
    pub(crate) fn no_type(&mut self, e: u32) -> Stopped {
        self.broken_at(Rule::NoType, e, Said::Nothing)
    }
}
