//! The origins of names on a walk.
use crate::faults::{Fault, first_fault};
use crate::scope::{Entry, Meaning, Scope};
use crate::variables::Variables;
use gft_core::{Name, NoMemory, Place};
use gft_rules::Rule;
use gft_syntax::{Origin, Reference, Whole};
use std::alloc::Global;

/// What a walk of a module's judgements knows: what names mean there, the variables, and the first
/// fault.
#[derive(Drop)]
pub struct Resolver<'a> {
    pub scope: Scope,
    pub variables: Variables,
    pub fault: Option<Fault>,
    origins: &'a Vec<Vec<Origin>>,
    is_abstract: bool,
}

fn written(alloc: Global, name: &Name) -> Result<Reference, NoMemory> {
    Ok(Reference::Written(name.copy(alloc)?))
}

fn copy_origin(alloc: Global, origin: &Origin) -> Result<Reference, NoMemory> {
    Ok(Reference::Found(Origin {
        name: origin.name.copy(alloc)?,
        module: origin.module,
        judgement: origin.judgement,
    }))
}

fn copy_whole(alloc: Global, whole: &Whole) -> Result<Reference, NoMemory> {
    let module = whole.module.copy(alloc)?;
    let name = whole.name.copy(alloc)?;
    Ok(Reference::Whole(Whole { module, name }))
}

/// A reference as it is.
pub fn copy_reference(alloc: Global, name: &Reference) -> Result<Reference, NoMemory> {
    match name {
        Reference::Written(name) => written(alloc, name),
        Reference::Found(origin) => copy_origin(alloc, origin),
        Reference::Whole(whole) => copy_whole(alloc, whole),
    }
}

/// The meaning, where it is a constructor, or one of several meanings is.
fn constructor_only(meaning: Option<Meaning>) -> Option<Meaning> {
    match meaning {
        None => None,
        Some(meaning) => {
            if meaning.is_constructor {
                Some(meaning)
            } else {
                None
            }
        }
    }
}

/// `List` with the name.
fn list_name(alloc: Global, name: &Name) -> Result<String, NoMemory> {
    let mut text = String::from_str(alloc, "List")?;
    text.push_str(name.as_str())?;
    Ok(text)
}

impl<'a> Resolver<'a> {
    /// Nothing is walked yet.
    pub fn new(
        alloc: Global,
        scope: Scope,
        origins: &'a Vec<Vec<Origin>>,
        is_abstract: bool,
    ) -> Resolver<'a> {
        Resolver {
            scope,
            variables: Variables::new(alloc),
            fault: None,
            origins,
            is_abstract,
        }
    }

    /// One more fault.
    pub fn see(&mut self, rule: Rule, place: Place, name: u32, modules: Option<(u32, u32)>) {
        let fault = Fault {
            rule,
            place,
            name,
            modules,
        };
        self.fault = first_fault(self.fault, fault);
    }

    /// The number of a name.
    pub fn number(&mut self, alloc: Global, name: &Name) -> Result<u32, NoMemory> {
        self.scope.names.number(alloc, name.as_str())
    }

    /// The variables from `start` to `end` are each a fault where they stand.
    pub fn see_variables(&mut self, start: usize, end: usize) {
        'variables: for at in start..end {
            if let Some(variable) = self.variables.get(at) {
                self.see(Rule::PatternVars, variable.place, variable.name, None);
            }
        }
    }

    /// The variables from `start` to `end` are each a fault that those of the comparison lack.
    pub fn see_lacking(&mut self, start: usize, end: usize, stamp: u32) {
        'variables: for at in start..end {
            if let Some(variable) = self.variables.get(at) {
                if !self.variables.is_met(variable.name, stamp) {
                    self.see(Rule::PatternVars, variable.place, variable.name, None);
                }
            }
        }
    }

    /// A name that means nothing, or several things, is a fault.
    fn judge(&mut self, meaning: Option<Meaning>, name: u32, place: Place) {
        match meaning {
            None => self.see(Rule::Unknown, place, name, None),
            Some(meaning) => {
                if meaning.differs.is_some() {
                    self.see(Rule::Ambiguous, place, name, meaning.differs);
                }
            }
        }
    }

    /// The origin at an entry.
    fn origin_at(&self, entry: Entry) -> Option<&'a Origin> {
        let origins: &'a Vec<Vec<Origin>> = self.origins;
        match origins.get(entry.owner as usize) {
            None => None,
            Some(all) => all.get(entry.at),
        }
    }

    /// The origin that a name has by its meaning, judged; as it is written where it has none.
    fn found(
        &mut self,
        alloc: Global,
        meaning: Option<Meaning>,
        name: &Name,
        number: u32,
        place: Place,
    ) -> Result<Reference, NoMemory> {
        self.judge(meaning, number, place);
        let Some(meaning) = meaning else {
            return written(alloc, name);
        };
        match self.origin_at(meaning.entry) {
            // excluded by Scope: an entry is of an origin
            None => written(alloc, name),
            Some(origin) => copy_origin(alloc, origin),
        }
    }

    /// Whether the name is a category that all abstract modules have.
    fn is_built_in(&self, name: &Name) -> bool {
        self.is_abstract && (name.as_str() == "Int" || name.as_str() == "String")
    }

    /// A name in a term.
    pub fn bare_name(
        &mut self,
        alloc: Global,
        name: &Name,
        place: Place,
    ) -> Result<Reference, NoMemory> {
        let number = self.number(alloc, name)?;
        if self.variables.is_bound(number) || self.is_built_in(name) {
            return written(alloc, name);
        }
        let meaning = self.scope.bare(number);
        self.found(alloc, meaning, name, number, place)
    }

    /// `[C]`.
    pub fn list_category(
        &mut self,
        alloc: Global,
        name: &Name,
        place: Place,
    ) -> Result<Reference, NoMemory> {
        let text = list_name(alloc, name)?;
        let number = self.scope.names.number(alloc, text.as_str())?;
        let meaning = self.scope.bare(number);
        self.found(alloc, meaning, name, number, place)
    }

    /// The number of a qualifier: a name of opened modules that is no variable.
    fn qualifier(&self, name: &Name) -> Option<u32> {
        let number = self.scope.names.find(name.as_str())?;
        if self.variables.is_bound(number) || !self.scope.is_qualifier(number) {
            return None;
        }
        Some(number)
    }

    /// `Q.x` in a term. None where it is a projection.
    pub fn qualified_name(
        &mut self,
        alloc: Global,
        module: &Name,
        name: &Name,
        place: Place,
    ) -> Result<Option<Reference>, NoMemory> {
        let Some(qualifier) = self.qualifier(module) else {
            return Ok(None);
        };
        let number = self.number(alloc, name)?;
        let meaning = self.scope.qualified(qualifier, number);
        Ok(Some(self.found(alloc, meaning, name, number, place)?))
    }

    /// What a name in a pattern means, where that is a constructor.
    fn bare_constructor(&self, name: u32) -> Option<Meaning> {
        if self.variables.is_bound(name) {
            return None;
        }
        constructor_only(self.scope.bare(name))
    }

    fn qualified_constructor(&self, module: &Name, name: u32) -> Option<Meaning> {
        let qualifier = self.qualifier(module)?;
        constructor_only(self.scope.qualified(qualifier, name))
    }

    /// A constructor with arguments, or with a qualifier.
    pub fn head(
        &mut self,
        alloc: Global,
        module: Option<&Name>,
        name: &Name,
        place: Place,
    ) -> Result<Reference, NoMemory> {
        let number = self.number(alloc, name)?;
        let meaning = match module {
            None => self.bare_constructor(number),
            Some(module) => self.qualified_constructor(module, number),
        };
        self.found(alloc, meaning, name, number, place)
    }

    /// A variable in a pattern.
    pub fn variable(&mut self, alloc: Global, name: &Name, place: Place) -> Result<(), NoMemory> {
        let number = self.number(alloc, name)?;
        if !self.variables.see(number, place)? {
            self.see(Rule::PatternVars, place, number, None);
        }
        Ok(())
    }

    /// A name in a pattern.
    pub fn head_or_variable(
        &mut self,
        alloc: Global,
        name: &Name,
        place: Place,
    ) -> Result<Reference, NoMemory> {
        let number = self.number(alloc, name)?;
        let meaning = self.bare_constructor(number);
        if meaning.is_some() {
            return self.found(alloc, meaning, name, number, place);
        }
        self.variable(alloc, name, place)?;
        written(alloc, name)
    }

    /// A word that means nothing where it stands.
    pub fn misplaced(&mut self, alloc: Global, word: &str, place: Place) -> Result<(), NoMemory> {
        let number = self.scope.names.number(alloc, word)?;
        self.see(Rule::Unknown, place, number, None);
        Ok(())
    }

    /// A variable where a type must stand is a fault, but in abstract modules.
    pub fn variable_as_type(
        &mut self,
        alloc: Global,
        name: &Name,
        place: Place,
    ) -> Result<(), NoMemory> {
        let number = self.number(alloc, name)?;
        if !self.is_abstract && self.variables.is_bound(number) {
            self.see(Rule::Unknown, place, number, None);
        }
        Ok(())
    }

    /// The variable of that place among those of a pattern is bound.
    pub fn bind_at(&mut self, at: usize) -> Result<(), NoMemory> {
        match self.variables.get(at) {
            None => Ok(()),
            Some(variable) => self.variables.bind(variable.name),
        }
    }
}
