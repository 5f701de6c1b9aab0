//! Types of abstract judgements read from terms, and their faults in the order in which they are
//! refused.
use crate::equality::{Told, fits};
use crate::lookup::function_named;
use crate::names::{Meaning, Names, built_in};
use crate::refused::{named, nameless, other_type};
use crate::replacing::{all_replaced, type_copy};
use crate::text::show_applied;
use gft_core::{Name, NoMemory, Place, Text, Tree};
use gft_pmcfg::{AType, Abstract};
use gft_rules::{Rule, Stop};
use gft_syntax::{Bind, Reference, Whole};
use indexmap::IndexMap;
use sqlite_items::Items;
use std::alloc::Global;
use std::mem;

/// What is known of all signatures: the categories and functions as far as they can be read, and
/// for each whether it can. A function has its number of arguments in any case.
#[derive(Drop)]
pub struct Signatures {
    pub abs: Abstract,
    pub read_cats: Vec<bool>,
    pub read_funs: Vec<bool>,
    pub arities: Vec<u32>,
    /// Whether all can be read, and nothing that is named is left out.
    pub whole: bool,
    /// The categories that a module leaves out of what it inherits, but that a judgement which it
    /// keeps names. They are numbered after all others.
    pub left_out: Vec<String>,
}

/// What a name means at the head of an index.
#[derive(Clone, Copy)]
pub enum Head {
    Function(u32),
    /// A function that a module leaves out of what it inherits.
    LeftOut,
    /// No function.
    Other,
}

/// Whose arguments are read.
#[derive(Clone, Copy)]
pub enum Applied {
    Variable,
    Category(u32),
    Function(u32),
}

/// A reader of one judgement's types. Without signatures it reads types and says no more than
/// whether it can.
#[derive(Drop)]
pub struct Reader<'r, 'a> {
    alloc: Global,
    names: &'r Names<'a>,
    signatures: Option<&'r Signatures>,
    /// The judgement is inherited: what it names and the module lacks is left out.
    inherited: bool,
    left_out: Vec<String>,
    /// Whether something named is left out.
    pub lacks: bool,
    variables: IndexMap<&'a str, u32>,
    /// The types so far: of each argument, and of the result at the end.
    types: Vec<AType>,
    built: Vec<Tree>,
}

impl<'r, 'a> Reader<'r, 'a> {
    /// A reader that has read nothing.
    pub fn new(
        alloc: Global,
        names: &'r Names<'a>,
        signatures: Option<&'r Signatures>,
    ) -> Reader<'r, 'a> {
        Reader {
            alloc,
            names,
            signatures,
            inherited: false,
            left_out: Vec::new(alloc),
            lacks: false,
            variables: IndexMap::new(alloc),
            types: Vec::new(alloc),
            built: Vec::new(alloc),
        }
    }

    /// Begins with another judgement.
    pub fn begin(&mut self, inherited: bool) {
        self.inherited = inherited;
        self.variables.clear();
        self.types.clear();
        self.built.clear();
    }

    /// Takes the types that were read.
    pub fn take_types(&mut self) -> Vec<AType> {
        mem::replace(&mut self.types, Vec::new(self.alloc))
    }

    /// Takes the names of the categories that are left out.
    pub fn take_left_out(&mut self) -> Vec<String> {
        mem::replace(&mut self.left_out, Vec::new(self.alloc))
    }

    /// The number of a category that is left out.
    fn left_out_number(&mut self, name: &str) -> Result<u32, NoMemory> {
        self.lacks = true;
        let mut at = 0usize;
        'names: for known in self.left_out.as_slice() {
            if known.as_str() == name {
                return number_after(self.names.cats.len(), at);
            }
            at = at.saturating_add(1);
        }
        self.left_out.push(String::from_str(self.alloc, name)?)?;
        number_after(self.names.cats.len(), at)
    }

    /// The category that a name means at the head of a type. A name that is no variable and no
    /// judgement is that of a built-in category.
    pub fn category(&mut self, reference: &Reference) -> Result<Option<u32>, NoMemory> {
        match reference {
            Reference::Whole(whole) => match self.names.meaning(whole) {
                Meaning::Category(number) => Ok(Some(number)),
                Meaning::Function(_) => Ok(None),
                Meaning::Predefined => Ok(None),
                Meaning::Other => {
                    if self.inherited {
                        return Ok(Some(self.left_out_number(whole.name.as_str())?));
                    }
                    Ok(None)
                }
            },
            Reference::Written(name) => {
                if self.variables.get(name.as_str()).is_some() {
                    return Ok(None);
                }
                Ok(built_in(name.as_str()))
            }
            Reference::Found(_) => Ok(None),
        }
    }

    /// The category of a list of this element, by the list's name.
    pub fn list_category(&mut self, name: &str) -> Result<u32, NoMemory> {
        match self.names.category_named(name) {
            Some(number) => Ok(number),
            None => self.left_out_number(name),
        }
    }

    /// What a name means at the head of an index.
    pub fn function(&mut self, whole: &Whole) -> Head {
        match self.names.meaning(whole) {
            Meaning::Function(number) => Head::Function(number),
            Meaning::Category(_) => Head::Other,
            Meaning::Predefined => Head::Other,
            Meaning::Other => {
                if self.inherited {
                    self.lacks = true;
                    return Head::LeftOut;
                }
                Head::Other
            }
        }
    }

    /// The types that arguments must have, where they are known.
    fn wanted(&self, applied: Applied) -> Option<&'r [AType]> {
        let signatures = self.signatures?;
        match applied {
            Applied::Variable => None,
            Applied::Category(number) => {
                if !*signatures.read_cats.get(number as usize)? {
                    return None;
                }
                Some(signatures.abs.cats.get(number as usize)?.context.as_slice())
            }
            Applied::Function(number) => {
                if !*signatures.read_funs.get(number as usize)? {
                    return None;
                }
                Some(signatures.abs.funs.get(number as usize)?.args.as_slice())
            }
        }
    }

    /// How many arguments there must be, where that is known.
    fn arity(&self, applied: Applied) -> Option<usize> {
        let signatures = self.signatures?;
        match applied {
            Applied::Variable => None,
            Applied::Category(_) => Some(self.wanted(applied)?.len()),
            Applied::Function(number) => {
                Some(*signatures.arities.get(number as usize)? as usize)
            }
        }
    }

    /// The type of an index by its head.
    fn told<'b>(&'b self, tree: &'b Tree) -> Told<'b> {
        match tree {
            Tree::App(f, arguments) => match self.signatures {
                Some(signatures) => signatures.told(f, arguments.as_slice()),
                None => Told::Nothing,
            },
            Tree::Int(_) => Told::Literal(0),
            Tree::Str(_) => Told::Literal(1),
            Tree::Hole(k) => match k.checked_sub(1) {
                Some(at) => match self.types.get(at as usize) {
                    Some(t) => Told::Plain(t),
                    None => Told::Nothing,
                },
                None => Told::Nothing,
            },
        }
    }

    /// The name of a category.
    fn cat_name(&self, number: u32) -> &str {
        let Some(signatures) = self.signatures else {
            return "";
        };
        if let Some(cat) = signatures.abs.cats.get(number as usize) {
            return cat.name.as_str();
        }
        match (number as usize).checked_sub(signatures.abs.cats.len()) {
            Some(at) => match signatures.left_out.get(at) {
                Some(name) => name.as_str(),
                None => "",
            },
            None => "",
        }
    }

    /// The text of a type with its variables replaced.
    fn applied_text(&self, t: &AType, arguments: &[Tree]) -> Result<Text, NoMemory> {
        let indices = all_replaced(self.alloc, t.args.as_slice(), arguments)?;
        show_applied(self.alloc, self.cat_name(t.cat), indices.as_slice())
    }

    /// The text of the type that is told of an index.
    fn told_text(&self, told: Told<'_>) -> Result<Text, NoMemory> {
        match told {
            Told::Nothing => Text::from_str(self.alloc, ""),
            Told::Literal(cat) => Text::from_str(self.alloc, self.cat_name(cat)),
            Told::Plain(t) => self.applied_text(t, &[]),
            Told::Applied(t, arguments) => self.applied_text(t, arguments),
        }
    }

    /// The refusal of an index of another type.
    fn other_type(&self, place: Place, wanted: &AType, found: &[Tree], last: &Tree) -> Stop {
        let expected = match self.applied_text(wanted, found) {
            Ok(text) => text,
            Err(_) => return Stop::NoMemory,
        };
        match self.told_text(self.told(last)) {
            Ok(text) => other_type(self.alloc, place, expected, text),
            Err(_) => Stop::NoMemory,
        }
    }

    /// Compares the last index with the type that it must have; `base` is where the indices begin.
    pub fn compare(&self, applied: Applied, base: usize, place: Place) -> Result<(), Stop> {
        let Some(types) = self.wanted(applied) else {
            return Ok(());
        };
        let Some((_, found)) = self.built.split_at_checked(base) else {
            return Ok(());
        };
        let Some((last, before)) = found.split_last() else {
            return Ok(());
        };
        let Some(wanted) = types.get(before.len()) else {
            return Ok(());
        };
        if fits(wanted, found, self.told(last)) {
            return Ok(());
        }
        Err(self.other_type(place, wanted, found, last))
    }

    /// Compares the number of arguments with what it must be.
    pub fn count(
        &self,
        applied: Applied,
        base: usize,
        place: Place,
        name: &Name,
    ) -> Result<(), Stop> {
        let Some(arity) = self.arity(applied) else {
            return Ok(());
        };
        if self.built.len().checked_sub(base) == Some(arity) {
            return Ok(());
        }
        Err(named(self.alloc, Rule::Arity, place, name.as_str()))
    }

    /// Where the next index will stand.
    pub fn base(&self) -> usize {
        self.built.len()
    }

    /// Adds an index.
    pub fn push(&mut self, tree: Tree) -> Result<(), NoMemory> {
        self.built.push(tree)?;
        Ok(())
    }

    /// Adds the type of a result.
    pub fn give(&mut self, t: AType) -> Result<(), NoMemory> {
        self.types.push(t)?;
        Ok(())
    }

    /// Takes the indices from there on.
    pub fn take(&mut self, base: usize) -> Result<Items<Tree>, NoMemory> {
        if base > self.built.len() {
            return Ok(Items::new(self.alloc));
        }
        Ok(Items::from_vec(self.built.split_off(base)?))
    }

    /// The number of a variable.
    pub fn variable(&self, name: &str) -> Option<u32> {
        self.variables.get(name).copied()
    }

    /// Adds an argument of this type.
    fn bind_one(&mut self, bind: &'a Bind, t: &AType) -> Result<(), NoMemory> {
        self.types.push(type_copy(self.alloc, t)?)?;
        let Ok(number) = u32::try_from(self.types.len()) else {
            return Err(NoMemory);
        };
        if let Bind::Variable(name, _) = bind {
            self.variables.insert(name.as_str(), number)?;
        }
        Ok(())
    }

    /// Adds an argument of this type for each variable, or one without variable.
    pub fn bind(&mut self, binds: &'a [Bind], t: AType) -> Result<(), NoMemory> {
        if binds.is_empty() {
            self.types.push(t)?;
            return Ok(());
        }
        'each: for bind in binds {
            self.bind_one(bind, &t)?;
        }
        Ok(())
    }

    /// A refusal without names.
    pub fn nameless(&self, rule: Rule, place: Place) -> Stop {
        nameless(self.alloc, rule, place)
    }

    /// A refusal with one name.
    pub fn named(&self, rule: Rule, place: Place, name: &str) -> Stop {
        named(self.alloc, rule, place, name)
    }

    /// The allocator of all that is made.
    pub fn alloc(&self) -> Global {
        self.alloc
    }
}

impl Signatures {
    /// The type of an application by its function.
    fn told<'b>(&'b self, f: &Name, arguments: &'b [Tree]) -> Told<'b> {
        let Some(number) = function_named(self.abs.funs.as_slice(), f.as_str()) else {
            return Told::Nothing;
        };
        if !self
            .read_funs
            .get(number as usize)
            .copied()
            .unwrap_or(false)
        {
            return Told::Nothing;
        }
        match self.abs.funs.get(number as usize) {
            Some(fun) => Told::Applied(&fun.result, arguments),
            None => Told::Nothing,
        }
    }
}

fn number_after(cats: usize, at: usize) -> Result<u32, NoMemory> {
    match u32::try_from(cats.saturating_add(at).saturating_add(2)) {
        Ok(number) => Ok(number),
        Err(_) => Err(NoMemory),
    }
}
