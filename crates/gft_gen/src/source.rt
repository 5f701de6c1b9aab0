//! What a language is made of.
use crate::judgements::{Found, Judgements, place_of, type_of};
use crate::layout::{Layout, layout_at};
use gft_core::Place;
use gft_pmcfg::Abstract;
use gft_syntax::{CType, Flat, LinTerm};

/// What a language is made of. `literal` is the type of `Int` and `String`, `token` that of a
/// hole's token.
#[derive(Clone, Copy)]
pub struct Source<'a> {
    pub flat: &'a Flat,
    pub abs: &'a Abstract,
    pub c: u32,
    pub judgements: &'a Judgements,
    pub layouts: &'a [Layout],
    pub terms: &'a [LinTerm],
    pub literal: &'a CType,
    pub token: &'a CType,
}

impl<'a> Source<'a> {
    /// The layout of a category.
    pub fn layout(&self, category: u32) -> Layout {
        layout_at(self.layouts, category)
    }

    /// The linearization type of a category.
    pub fn type_of(&self, category: u32) -> &'a CType {
        if category < 2 {
            return self.literal;
        }
        match self.judgements.lincat(category) {
            None => self.literal, // excluded: each category has a linearization type
            Some(found) => match type_of(self.flat, found) {
                None => self.literal, // excluded by typing: a linearization type is typed
                Some(of) => of,
            },
        }
    }

    /// Where the name of a judgement stands.
    pub fn place(&self, found: Found) -> Option<Place> {
        place_of(self.flat, self.c, found)
    }

    /// The normal form of a judgement.
    pub fn term(&self, found: Found) -> Option<&'a LinTerm> {
        self.terms.get(found.term as usize)
    }
}
