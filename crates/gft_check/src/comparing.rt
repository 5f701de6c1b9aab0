//! What an instance gives for a constant, compared with what its interface declares.
use crate::checking::Checking;
use crate::opers::add_type;
use crate::references::declared_names;
use crate::resting::number_beside;
use crate::state::{State, is_typed};
use gft_core::{Name, NoMemory, Place};
use gft_rules::Rule;
use gft_syntax::{
    Alternative, Constructor, Definition, Flat, FlatJudgement, Judgement, PlacedName,
};
use gft_types::{PARAM_SORT, TYPE_SORT, TypeId};
use gft_typing::{Meaning, Role, Stopped};
use std::alloc::Global;

/// The types that a judgement gives a name.
#[derive(Clone, Copy)]
enum Found {
    One(TypeId),
    /// `Type` and `PType`.
    Sorts,
    /// Those of an overload.
    Several,
}

/// A name that a judgement gives, with its place there.
#[derive(Clone, Copy)]
struct Given {
    /// The number of its whole name.
    number: u32,
    place: Place,
}

/// The constructor of that name.
fn constructor_in<'c>(constructors: &'c [Constructor], name: &Name) -> Option<&'c Constructor> {
    'constructors: for one in constructors {
        if one.name.name.as_str() == name.as_str() {
            return Some(one);
        }
    }
    None
}

/// The constructors of a judgement.
fn constructors_of(judgement: &Judgement) -> &[Constructor] {
    match judgement {
        Judgement::Param(_, constructors) => constructors.as_slice(),
        _ => &[],
    }
}

/// Whether an oper has no written type.
fn is_untyped(judgement: &Judgement) -> bool {
    matches!(judgement, Judgement::Oper(_, _, _))
}

impl Checking {
    /// Where an entry gives a name, None where it does not.
    fn given_by(
        &mut self,
        alloc: Global,
        entry: &FlatJudgement,
        name: &Name,
    ) -> Result<Option<Given>, NoMemory> {
        if entry.whole.name.as_str() == name.as_str() {
            let number = self.typing.name_number(alloc, &entry.whole)?;
            return Ok(Some(Given {
                number,
                place: entry.place,
            }));
        }
        match constructor_in(constructors_of(entry.judgement.get()), name) {
            None => Ok(None),
            Some(one) => {
                let number = number_beside(alloc, &mut self.typing, entry, name)?;
                Ok(Some(Given {
                    number,
                    place: one.name.place,
                }))
            }
        }
    }

    /// The types that a name has which is given.
    fn found(&self, entry: &FlatJudgement, given: Given) -> Found {
        match self.typing.meaning(given.number) {
            Meaning::Constructor(_, of) => Found::One(of),
            Meaning::Oper(_, of) => Found::One(of),
            Meaning::Named(named, sort) => {
                if is_untyped(entry.judgement.get()) && self.typing.types.is_param(named) {
                    return Found::Sorts;
                }
                Found::One(sort)
            }
            Meaning::Overload(_, _) => Found::Several,
            Meaning::Param(_) => Found::Sorts,
            Meaning::Nothing => Found::Several, // excluded by judge: it is typed
        }
    }

    /// The refusal of a name that has another type.
    fn other_type(&mut self, alloc: Global, place: Place, name: &Name) -> Stopped {
        self.typing
            .refuse_name(alloc, Rule::InstanceType, place, name)
    }

    /// Compares a name with the one type that is declared for it.
    fn compare_type(
        &mut self,
        alloc: Global,
        entry: &FlatJudgement,
        name: &Name,
        wanted: TypeId,
    ) -> Result<(), Stopped> {
        let Some(given) = self.given_by(alloc, entry, name)? else {
            return Ok(()); // another entry gives this name
        };
        let fits = match self.found(entry, given) {
            Found::One(of) => of == wanted,
            Found::Sorts => wanted == TYPE_SORT || wanted == PARAM_SORT,
            Found::Several => false,
        };
        if fits {
            return Ok(());
        }
        Err(self.other_type(alloc, given.place, name))
    }

    /// Whether the alternatives of a name have these types, in order.
    fn has_types(&self, number: u32, wanted: &[TypeId]) -> bool {
        let alternatives = self.typing.alternatives(number);
        if alternatives.len() != wanted.len() {
            return false;
        }
        'alternatives: for at in 0..wanted.len() {
            if alternatives[at].of != wanted[at] {
                return false;
            }
        }
        true
    }

    /// Compares a name with the types of the alternatives that are declared for it.
    fn compare_types(
        &mut self,
        alloc: Global,
        entry: &FlatJudgement,
        name: &Name,
        wanted: &[TypeId],
    ) -> Result<(), Stopped> {
        let Some(given) = self.given_by(alloc, entry, name)? else {
            return Ok(()); // another entry gives this name
        };
        let fits = match self.found(entry, given) {
            Found::Several => self.has_types(given.number, wanted),
            _ => false,
        };
        if fits {
            return Ok(());
        }
        Err(self.other_type(alloc, given.place, name))
    }

    fn wanted_types(&mut self, alloc: Global, all: &[Alternative]) -> Result<Vec<TypeId>, Stopped> {
        let mut wanted: Vec<TypeId> = Vec::new(alloc);
        'alternatives: for one in all {
            let of = self.typing.written_type(alloc, &one.of_type, Role::Any)?;
            add_type(&mut wanted, of)?;
        }
        Ok(wanted)
    }

    /// Compares all names of a declaration that the entry gives with one type.
    fn compare_names(
        &mut self,
        alloc: Global,
        entry: &FlatJudgement,
        names: &[PlacedName],
        wanted: TypeId,
    ) -> Result<(), Stopped> {
        'names: for name in names {
            self.compare_type(alloc, entry, &name.name, wanted)?;
        }
        Ok(())
    }

    /// Compares all names of a declaration that the entry gives with those of an overload.
    fn compare_overload(
        &mut self,
        alloc: Global,
        entry: &FlatJudgement,
        names: &[PlacedName],
        all: &[Alternative],
    ) -> Result<(), Stopped> {
        let wanted = self.wanted_types(alloc, all)?;
        'names: for name in names {
            self.compare_types(alloc, entry, &name.name, wanted.as_slice())?;
        }
        Ok(())
    }

    /// Compares an entry with what is declared; an oper that is defined without a type declares
    /// none.
    fn compare(
        &mut self,
        alloc: Global,
        entry: &FlatJudgement,
        declared: &Judgement,
    ) -> Result<(), Stopped> {
        self.typing.begin();
        match declared {
            Judgement::ParamName(name) => self.compare_type(alloc, entry, &name.name, PARAM_SORT),
            Judgement::Param(name, _) => self.compare_type(alloc, entry, &name.name, PARAM_SORT),
            Judgement::OperType(names, of_type) => {
                let wanted = self.typing.written_type(alloc, of_type, Role::Any)?;
                self.compare_names(alloc, entry, names.as_slice(), wanted)
            }
            Judgement::OperTyped(names, of_type, Definition::Term(_)) => {
                let wanted = self.typing.written_type(alloc, of_type, Role::Any)?;
                self.compare_names(alloc, entry, names.as_slice(), wanted)
            }
            Judgement::OperTyped(names, of_type, Definition::Overload(all)) => {
                self.typing.written_type(alloc, of_type, Role::Any)?;
                self.compare_overload(alloc, entry, names.as_slice(), all.as_slice())
            }
            Judgement::Oper(names, _, Definition::Overload(all)) => {
                self.compare_overload(alloc, entry, names.as_slice(), all.as_slice())
            }
            _ => Ok(()),
        }
    }

    /// Whether all that a declaration names is typed.
    fn is_ready(&mut self, alloc: Global, declared: &Judgement) -> Result<bool, NoMemory> {
        let names = declared_names(alloc, declared)?;
        'names: for name in names.as_slice() {
            let number = self.typing.name_number(alloc, name)?;
            let node = self.plan.named.node(number);
            if !is_typed(self.progress.state(node)) {
                return Ok(false);
            }
        }
        Ok(true)
    }

    /// Compares an entry with all that it gives for one instance.
    fn compare_entry(
        &mut self,
        alloc: Global,
        entry: &FlatJudgement,
        module: &Name,
    ) -> Result<(), Stopped> {
        'declared: for one in entry.declared.as_slice() {
            if one.instance.as_str() == module.as_str() {
                let declared = one.judgement.get();
                if self.is_ready(alloc, declared)? {
                    self.compare(alloc, entry, declared)?;
                }
            }
        }
        Ok(())
    }

    /// Compares a typed node with all that it gives for one instance.
    pub(crate) fn compare_node(
        &mut self,
        alloc: Global,
        flat: &Flat,
        node: u32,
        module: &Name,
    ) -> Result<(), Stopped> {
        match self.plan.nodes.entry(flat, node) {
            Some(entry) => self.compare_entry(alloc, entry, module),
            None => Ok(()),
        }
    }

    /// Compares a node, and says how it went.
    fn compared(
        &mut self,
        alloc: Global,
        flat: &Flat,
        node: u32,
        module: &Name,
    ) -> Result<State, NoMemory> {
        match self.compare_node(alloc, flat, node, module) {
            Ok(()) => Ok(State::Done),
            Err(Stopped::Refused) => Ok(State::Other),
            Err(Stopped::NoMemory) => Err(NoMemory),
        }
    }

    /// Compares the typed judgements of a module's own.
    pub(crate) fn compare_own(
        &mut self,
        alloc: Global,
        flat: &Flat,
        module: &Name,
        sequence: &[u32],
    ) -> Result<(), NoMemory> {
        'nodes: for node in sequence {
            if self.progress.state(*node) == State::Done {
                let state = self.compared(alloc, flat, *node, module)?;
                self.progress.set_state(*node, state);
            }
        }
        Ok(())
    }

    /// Compares what a module inherits and gives for its interface, by name.
    pub(crate) fn compare_inherited(
        &mut self,
        alloc: Global,
        flat: &Flat,
        module: &Name,
    ) -> Result<(), Stopped> {
        let nodes = self.answering(alloc, flat, module)?;
        'nodes: for node in nodes.as_slice() {
            self.compare_node(alloc, flat, *node, module)?;
        }
        Ok(())
    }

    /// The nodes of other modules that give something for the instance, by name.
    fn answering(&self, alloc: Global, flat: &Flat, module: &Name) -> Result<Vec<u32>, NoMemory> {
        let mut named: Vec<(&str, u32)> = Vec::new(alloc);
        'nodes: for node in 0..self.plan.nodes.named() {
            if let Some(entry) = self.plan.nodes.entry(flat, node) {
                if is_answering(entry, module) {
                    named.push((entry.whole.name.as_str(), node))?;
                }
            }
        }
        named.sort()?;
        let mut nodes = Vec::new(alloc);
        'named: for (_, node) in named.as_slice() {
            nodes.push(*node)?;
        }
        Ok(nodes)
    }
}

/// Whether an entry of another module gives something for the instance.
fn is_answering(entry: &FlatJudgement, module: &Name) -> bool {
    if entry.whole.module.as_str() == module.as_str() {
        return false;
    }
    'declared: for one in entry.declared.as_slice() {
        if one.instance.as_str() == module.as_str() {
            return true;
        }
    }
    false
}
