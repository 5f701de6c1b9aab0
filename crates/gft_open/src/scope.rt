//! What the names mean that a module may use.
use gft_core::NoMemory;
use gft_flat::{Kind, kind_of};
use gft_functor::is_named;
use gft_modules::{Names, header_mentions, number_of, numbers_of, opened_at, opened_of};
use gft_syntax::{Module, Opened, Origin};
use indexmap::{IndexMap, IndexSet};
use std::alloc::Global;

/// The qualifier of bare names.
const PLAIN: u32 = u32::MAX;

/// A name by its number, of a module or under a qualifier.
#[derive(Clone, Copy, Debug, PartialEq, Eq, Hash)]
struct Key {
    owner: u32,
    name: u32,
}

/// What a module has under a name: where the origin stands among its origins, the module that
/// defines it, and what it is.
#[derive(Clone, Copy)]
pub struct Entry {
    pub owner: u32,
    pub at: usize,
    pub module: u32,
    pub kind: Kind,
}

/// What a name means, of several meanings the first; the two opened modules that differ, if any;
/// and whether one of the meanings is a constructor.
#[derive(Clone, Copy)]
pub struct Meaning {
    pub entry: Entry,
    pub differs: Option<(u32, u32)>,
    pub is_constructor: bool,
}

/// A module that is opened under a qualifier, and the number of the next one.
#[derive(Clone, Copy)]
struct Opening {
    module: u32,
    next: usize,
}

/// The first and the last module that are opened under a qualifier.
#[derive(Clone, Copy)]
struct Ends {
    first: usize,
    last: usize,
}

/// What names mean in the module of a number.
#[derive(Drop)]
pub struct Scope {
    pub names: Names,
    module: u32,
    abstracted: Option<u32>,
    entered: IndexSet<u32>,
    entries: IndexMap<Key, Entry>,
    opened: IndexSet<Key>,
    openings: Vec<Opening>,
    ends: IndexMap<u32, Ends>,
}

fn alone(entry: Entry) -> Meaning {
    Meaning {
        entry,
        differs: None,
        is_constructor: entry.kind == Kind::Constructor,
    }
}

/// A meaning and one more.
fn merged(before: Option<Meaning>, entry: Entry) -> Meaning {
    let Some(first) = before else {
        return alone(entry);
    };
    let mut meaning = first;
    if entry.module != first.entry.module && first.differs.is_none() {
        meaning.differs = Some((first.entry.owner, entry.owner));
    }
    if entry.kind == Kind::Constructor {
        meaning.is_constructor = true;
    }
    meaning
}

impl Scope {
    fn empty(alloc: Global, module: u32) -> Scope {
        Scope {
            names: Names::new(alloc),
            module,
            abstracted: None,
            entered: IndexSet::new(alloc),
            entries: IndexMap::new(alloc),
            opened: IndexSet::new(alloc),
            openings: Vec::new(alloc),
            ends: IndexMap::new(alloc),
        }
    }

    fn enter_one(
        &mut self,
        alloc: Global,
        modules: &Vec<Module>,
        owner: u32,
        at: usize,
        origin: &Origin,
    ) -> Result<(), NoMemory> {
        let name = self.names.number(alloc, origin.name.as_str())?;
        let entry = Entry {
            owner,
            at,
            module: origin.module,
            kind: kind_of(modules, origin),
        };
        self.entries.insert(Key { owner, name }, entry)?;
        Ok(())
    }

    /// The names that terms may use of the module of that number are entered, once.
    fn enter(
        &mut self,
        alloc: Global,
        modules: &Vec<Module>,
        origins: &Vec<Vec<Origin>>,
        owner: u32,
    ) -> Result<(), NoMemory> {
        if self.entered.contains(&owner) {
            return Ok(());
        }
        self.entered.insert(owner)?;
        let Some(all) = origins.get(owner as usize) else {
            return Ok(());
        };
        let mut at = 0usize;
        'origins: for origin in all {
            if is_named(modules, origin) {
                self.enter_one(alloc, modules, owner, at, origin)?;
            }
            at = at.saturating_add(1);
        }
        Ok(())
    }

    /// The module is opened under a qualifier, once.
    fn open_under(&mut self, qualifier: u32, module: u32) -> Result<(), NoMemory> {
        let key = Key {
            owner: qualifier,
            name: module,
        };
        if self.opened.contains(&key) {
            return Ok(());
        }
        self.opened.insert(key)?;
        let number = self.openings.len();
        let mut first = number;
        if let Some(ends) = self.ends.get(&qualifier).copied() {
            first = ends.first;
            if let Some(last) = self.openings.get_mut(ends.last) {
                last.next = number;
            }
        }
        self.openings.push(Opening {
            module,
            next: usize::MAX,
        })?;
        self.ends.insert(
            qualifier,
            Ends {
                first,
                last: number,
            },
        )?;
        Ok(())
    }

    /// One of the modules that are opened.
    fn open(&mut self, alloc: Global, opened: &Opened, module: u32) -> Result<(), NoMemory> {
        match opened {
            Opened::Plain(name) => {
                let name = self.names.number(alloc, name.name.as_str())?;
                self.open_under(name, module)?;
                self.open_under(PLAIN, module)
            }
            Opened::Qualified(alias, name) => {
                let alias = self.names.number(alloc, alias.name.as_str())?;
                self.open_under(alias, module)?;
                let name = self.names.number(alloc, name.name.as_str())?;
                self.open_under(name, module)
            }
        }
    }

    /// The modules that a module opens are entered and opened.
    fn open_all(
        &mut self,
        alloc: Global,
        modules: &Vec<Module>,
        origins: &Vec<Vec<Origin>>,
        module: &Module,
        numbers: &IndexMap<&str, u32>,
    ) -> Result<(), NoMemory> {
        'opened: for opened in opened_of(module) {
            if let Some(other) = number_of(numbers, &opened_at(opened).name) {
                self.enter(alloc, modules, origins, other)?;
                self.open(alloc, opened, other)?;
            }
        }
        Ok(())
    }

    /// All that the names of the module of that number may mean is entered.
    fn fill(
        &mut self,
        alloc: Global,
        modules: &Vec<Module>,
        origins: &Vec<Vec<Origin>>,
        module: &Module,
        numbers: &IndexMap<&str, u32>,
    ) -> Result<(), NoMemory> {
        let own = self.module;
        self.enter(alloc, modules, origins, own)?;
        if let Some(name) = header_mentions(&module.header) {
            self.enter_abstract(alloc, modules, origins, number_of(numbers, &name.name))?;
        }
        self.open_all(alloc, modules, origins, module, numbers)
    }

    fn filled(
        alloc: Global,
        modules: &Vec<Module>,
        origins: &Vec<Vec<Origin>>,
        module: &Module,
        number: u32,
        numbers: &IndexMap<&str, u32>,
    ) -> Result<Scope, NoMemory> {
        let mut scope = Scope::empty(alloc, number);
        match scope.fill(alloc, modules, origins, module, numbers) {
            Ok(()) => Ok(scope),
            Err(error) => Err(error),
        }
    }

    /// What names mean in the module of that number.
    pub fn new(
        alloc: Global,
        modules: &Vec<Module>,
        origins: &Vec<Vec<Origin>>,
        module: &Module,
        number: u32,
    ) -> Result<Scope, NoMemory> {
        match numbers_of(alloc, modules) {
            Err(error) => Err(error),
            Ok(numbers) => Scope::filled(alloc, modules, origins, module, number, &numbers),
        }
    }

    /// What the module is of: its abstract module, where it is a concrete one.
    fn enter_abstract(
        &mut self,
        alloc: Global,
        modules: &Vec<Module>,
        origins: &Vec<Vec<Origin>>,
        abstracted: Option<u32>,
    ) -> Result<(), NoMemory> {
        self.abstracted = abstracted;
        match abstracted {
            None => Ok(()),
            Some(number) => self.enter(alloc, modules, origins, number),
        }
    }

    /// What the modules that are opened under a qualifier give.
    fn among(&self, qualifier: u32, name: u32) -> Option<Meaning> {
        let ends = self.ends.get(&qualifier).copied()?;
        let mut meaning = None;
        let mut at = ends.first;
        'openings: for _ in 0..self.openings.len() {
            let Some(opening) = self.openings.get(at).copied() else {
                break;
            };
            let owner = opening.module;
            if let Some(entry) = self.entries.get(&Key { owner, name }).copied() {
                meaning = Some(merged(meaning, entry));
            }
            at = opening.next;
        }
        meaning
    }

    /// What a bare name means where it is no variable: what the module has, else what is opened
    /// plainly.
    pub fn bare(&self, name: u32) -> Option<Meaning> {
        let owner = self.module;
        match self.entries.get(&Key { owner, name }).copied() {
            Some(entry) => Some(alone(entry)),
            None => self.among(PLAIN, name),
        }
    }

    /// What a name means under a qualifier.
    pub fn qualified(&self, qualifier: u32, name: u32) -> Option<Meaning> {
        self.among(qualifier, name)
    }

    /// Whether a module is opened under the name.
    pub fn is_qualifier(&self, name: u32) -> bool {
        self.ends.contains_key(&name)
    }

    /// What the name is in the abstract module.
    pub fn abstract_kind(&self, name: u32) -> Option<Kind> {
        let owner = self.abstracted?;
        match self.entries.get(&Key { owner, name }).copied() {
            None => None,
            Some(entry) => Some(entry.kind),
        }
    }
}
