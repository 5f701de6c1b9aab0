//! The typing of one judgement.
use crate::checking::Checking;
use crate::state::place;
use gft_core::{NoMemory, Shared};
use gft_rules::Rule;
use gft_syntax::{Flat, FlatJudgement, Judgement, Keyword, LinTerm, Term, Typed};
use gft_types::TypeId;
use gft_typing::{Role, Stopped};
use sqlite_items::Items;
use std::alloc::Global;

impl Checking {
    /// Types a judgement; all that it rests on, and that does not rest on it, is typed.
    pub(crate) fn judge(&mut self, alloc: Global, flat: &Flat, node: u32) -> Result<(), Stopped> {
        self.typing.begin();
        let Some(entry) = self.plan.nodes.entry(flat, node) else {
            return Ok(()); // excluded by the plan: each node has its entry
        };
        if self.plan.is_cyclic(node) {
            return Err(self.cycle(alloc, entry, node));
        }
        match entry.judgement.get() {
            Judgement::ParamName(_) => self.open_param(alloc, entry, node),
            Judgement::Param(_, _) => self.param(alloc, entry, node),
            Judgement::Lincat(_, term) => self.lincat(alloc, term, node),
            Judgement::Lin(_, binds, term) => self.lin(alloc, binds.as_slice(), term, node),
            Judgement::Lindef(_, binds, term) => self.lindef(alloc, binds.as_slice(), term, node),
            Judgement::Linref(_, binds, term) => self.linref(alloc, binds.as_slice(), term, node),
            _ => self.oper(alloc, entry, node),
        }
    }

    /// The refusal of a judgement that needs itself.
    fn cycle(&mut self, alloc: Global, entry: &FlatJudgement, node: u32) -> Stopped {
        let rule = match self.plan.nodes.keyword(node) {
            Keyword::Param => Rule::ParamCycle,
            _ => Rule::OperCycle,
        };
        self.typing
            .refuse_name(alloc, rule, entry.place, &entry.whole.name)
    }

    /// The number of a node's judgement, the first one of an overload.
    pub(crate) fn number(&self, node: u32) -> u32 {
        match self.plan.nodes.node(node) {
            Some(one) => one.number,
            None => gft_graph::NONE, // excluded by judge
        }
    }

    /// A parameter type without constructors.
    fn open_param(
        &mut self,
        alloc: Global,
        entry: &FlatJudgement,
        node: u32,
    ) -> Result<(), Stopped> {
        let of = self.typing.open_parameter(alloc, &entry.whole)?;
        self.keep_type(alloc, self.number(node), of)
    }

    fn param(&mut self, alloc: Global, entry: &FlatJudgement, node: u32) -> Result<(), Stopped> {
        let Judgement::Param(_, constructors) = entry.judgement.get() else {
            return Ok(()); // excluded by judge
        };
        let of = self
            .typing
            .parameter(alloc, &entry.whole, constructors.as_slice())?;
        self.keep_type(alloc, self.number(node), of)
    }

    fn lincat(&mut self, alloc: Global, term: &Term, node: u32) -> Result<(), Stopped> {
        let of = self.typing.written_type(alloc, term, Role::Data)?;
        self.progress.set_lincat(node, of);
        self.keep_type(alloc, self.number(node), of)
    }

    /// Keeps what a judgement's term of that number means.
    pub(crate) fn keep_term(
        &mut self,
        alloc: Global,
        number: u32,
        term: u32,
        of: TypeId,
    ) -> Result<(), Stopped> {
        let typed = self.typing.built(alloc, term, of)?;
        place(&mut self.progress.typed, number, Some(typed));
        Ok(())
    }

    /// Keeps the type that a judgement gives.
    pub(crate) fn keep_type(
        &mut self,
        alloc: Global,
        number: u32,
        of: TypeId,
    ) -> Result<(), Stopped> {
        let typed = self.typing.built_type(alloc, of)?;
        place(&mut self.progress.typed, number, Some(typed));
        Ok(())
    }

    /// Keeps that a judgement of that type has no outcome.
    pub(crate) fn keep_nothing(
        &mut self,
        alloc: Global,
        number: u32,
        of: TypeId,
    ) -> Result<(), Stopped> {
        let ctype = self.typing.types.owned(alloc, of)?;
        let term = no_outcome(alloc)?;
        place(
            &mut self.progress.typed,
            number,
            Some(Typed { term, ctype }),
        );
        Ok(())
    }
}

/// The term that has no outcome.
fn no_outcome(alloc: Global) -> Result<LinTerm, NoMemory> {
    Ok(LinTerm::Variants(Shared::new(alloc, Items::new(alloc))?))
}
