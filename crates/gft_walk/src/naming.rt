//! What a walk asks of those who replace names.
use gft_core::{Name, NoMemory, Place};
use gft_syntax::{Reference, Sort, Term};
use std::alloc::Global;

/// What stands for each name of a term, and what is told of the variables on the way. A variable is
/// bound as the walk comes to what it is bound in, and no more bound as the walk leaves that.
pub trait Naming {
    /// Whether a judgement keeps one of its several names.
    fn keeps(&self, name: &Name) -> bool;

    /// A name in a term.
    fn bare(
        &mut self,
        alloc: Global,
        name: &Reference,
        place: Place,
    ) -> Result<Reference, NoMemory>;

    /// The C of `[C]`.
    fn list_of(
        &mut self,
        alloc: Global,
        name: &Reference,
        place: Place,
    ) -> Result<Reference, NoMemory>;

    /// `Q.x` in a term. None where it is a projection.
    fn qualified(
        &mut self,
        alloc: Global,
        module: &Reference,
        name: &Name,
        place: Place,
    ) -> Result<Option<Reference>, NoMemory>;

    /// A constructor that has arguments or the name of its module.
    fn constructor(
        &mut self,
        alloc: Global,
        module: Option<&Name>,
        name: &Reference,
        place: Place,
    ) -> Result<Reference, NoMemory>;

    /// A name in a pattern: a constructor, or a variable that the pattern binds.
    fn constructor_or_variable(
        &mut self,
        alloc: Global,
        name: &Reference,
        place: Place,
    ) -> Result<Reference, NoMemory>;

    /// A variable that a pattern binds to all that it matches.
    fn whole_variable(&mut self, alloc: Global, name: &Name, place: Place) -> Result<(), NoMemory>;

    /// A sort, but for `Ints` with its number and `Predef` with its function.
    fn sort(&mut self, alloc: Global, sort: Sort, place: Place) -> Result<(), NoMemory>;

    /// A term that stands where a type must; the walk goes into it next.
    fn type_place(&mut self, alloc: Global, term: &Term) -> Result<(), NoMemory>;

    /// How many variables are bound.
    fn scope(&self) -> usize;

    /// A variable is bound.
    fn bind(&mut self, alloc: Global, name: &Name) -> Result<(), NoMemory>;

    /// Only so many variables are bound.
    fn leave(&mut self, scope: usize);

    /// How many variables the patterns that are begun have.
    fn variables(&self) -> usize;

    /// The left side of an alternative has the variables from `start` on, and its right side comes.
    fn between(&mut self, start: usize);

    /// The left side of an alternative has the variables from `start` to `middle`, the right side
    /// the others.
    fn alternative(&mut self, start: usize, middle: usize) -> Result<(), NoMemory>;

    /// What is repeated has the variables from `start` on.
    fn repeated(&mut self, start: usize);

    /// What stands for several labels at once has the variables from `start` on.
    fn doubled(&mut self, start: usize);

    /// The variables from `start` on are bound, and their pattern is left.
    fn enter(&mut self, start: usize) -> Result<(), NoMemory>;
}
