//! The first step of an import: the named files and the modules that they need, each once.
use crate::fetching::{SOURCE_LIMIT, fetch, file_of, module_of, source_name};
use crate::refusing::stop_at;
use crate::table::{NONE, count};
use gft_core::{NoMemory, Place, Text};
use gft_io::Store;
use gft_modules::{Names, header_name, mentions, refuse};
use gft_rules::{Rule, Stop};
use gft_syntax::Module;
use std::alloc::Global;
use std::mem;

/// The most modules of an import.
const MOST_MODULES: usize = 256;

/// A module that a header names: the number of its name, and its place there.
#[derive(Clone, Copy)]
struct Mention {
    name: u32,
    place: Place,
}

/// A module whose loading waits for the modules of its header, and the next of these.
#[derive(Clone, Copy)]
struct Waiting {
    module: u32,
    next: u32,
}

/// What is loaded. A module has the number of its file.
#[derive(Drop)]
pub struct Loading {
    names: Names,
    /// For each name the number of its module, or `NONE`.
    numbers: Vec<u32>,
    /// For each module whether the modules of its header are loaded.
    complete: Vec<bool>,
    /// For each module those of its header.
    mentions: Vec<Vec<Mention>>,
    /// The innermost last.
    waiting: Vec<Waiting>,
    files: Vec<Text>,
    modules: Vec<Module>,
    order: Vec<u32>,
}

impl Loading {
    /// Nothing is loaded. It takes no memory.
    pub fn new(alloc: Global) -> Loading {
        Loading {
            names: Names::new(alloc),
            numbers: Vec::new(alloc),
            complete: Vec::new(alloc),
            mentions: Vec::new(alloc),
            waiting: Vec::new(alloc),
            files: Vec::new(alloc),
            modules: Vec::new(alloc),
            order: Vec::new(alloc),
        }
    }

    /// The number of a name, which is met from now on.
    fn name_number(&mut self, alloc: Global, name: &str) -> Result<u32, NoMemory> {
        let number = self.names.number(alloc, name)?;
        if number as usize >= self.numbers.len() {
            self.numbers.push(NONE)?;
        }
        Ok(number)
    }

    /// The number of the module of that name, or `NONE`.
    fn module_named(&self, name: u32) -> u32 {
        self.numbers.get(name as usize).copied().unwrap_or(NONE)
    }

    fn is_complete(&self, module: u32) -> bool {
        self.complete.get(module as usize).copied().unwrap_or(true)
    }

    /// The modules of a header, by the numbers of their names.
    fn mentions_of(&mut self, alloc: Global, module: &Module) -> Result<Vec<Mention>, NoMemory> {
        let mut all = Vec::new(alloc);
        'names: for name in mentions(alloc, module)?.as_slice() {
            let number = self.name_number(alloc, name.name.as_str())?;
            all.push(Mention {
                name: number,
                place: name.place,
            })?;
        }
        Ok(all)
    }

    /// Adds a module that is loaded itself.
    fn add(&mut self, alloc: Global, name: u32, module: Module) -> Result<(), NoMemory> {
        let number = count(self.modules.as_slice())?;
        let mentions = self.mentions_of(alloc, &module)?;
        self.mentions.push(mentions)?;
        self.complete.push(false)?;
        self.modules.push(module)?;
        self.waiting.push(Waiting {
            module: number,
            next: 0,
        })?;
        if let Some(place) = self.numbers.get_mut(name as usize) {
            *place = number;
        }
        Ok(())
    }

    /// Adds the file of a module, and gives its number.
    fn add_file(&mut self, alloc: Global, file: &str) -> Result<u32, NoMemory> {
        let number = count(self.files.as_slice())?;
        self.files.push(Text::from_str(alloc, file)?)?;
        Ok(number)
    }

    /// Refuses a module whose header has another name than its file.
    fn check_name(&self, alloc: Global, name: u32, module: &Module) -> Result<(), Stop> {
        let header = header_name(&module.header);
        if header.name.as_str() == self.names.text(name) {
            return Ok(());
        }
        let names = [header.name.as_str()];
        Err(refuse(alloc, Rule::NameMismatch, header.place, &names))
    }

    /// The module in a file, whose bytes these are.
    fn read(&mut self, alloc: Global, name: u32, file: &str, bytes: &Vec<u8>) -> Result<(), Stop> {
        let number = self.add_file(alloc, file)?;
        let module = module_of(alloc, number, bytes)?;
        self.check_name(alloc, name, &module)?;
        self.add(alloc, name, module)?;
        Ok(())
    }

    /// Loads the module of that name itself.
    fn load<F: Store>(
        &mut self,
        alloc: Global,
        store: &mut F,
        folder: Option<&str>,
        name: u32,
    ) -> Result<(), Stop> {
        if self.modules.len() >= MOST_MODULES {
            return Err(stop_at(alloc, Rule::TooManyModules, &[]));
        }
        let file = file_of(alloc, folder, self.names.text(name))?;
        let bytes = fetch(alloc, store, file.as_str(), SOURCE_LIMIT)?;
        self.read(alloc, name, file.as_str(), &bytes)
    }

    /// The turn of a module that a header names.
    fn turn<F: Store>(
        &mut self,
        alloc: Global,
        store: &mut F,
        folder: Option<&str>,
        mention: Mention,
    ) -> Result<(), Stop> {
        let module = self.module_named(mention.name);
        if module == NONE {
            return self.load(alloc, store, folder, mention.name);
        }
        if self.is_complete(module) {
            return Ok(());
        }
        let names = [self.names.text(mention.name)];
        Err(refuse(alloc, Rule::ModuleCycle, mention.place, &names))
    }

    /// The next module of the header of a module that waits.
    fn next_mention(&self, waiting: Waiting) -> Option<Mention> {
        match self.mentions.get(waiting.module as usize) {
            None => None,
            Some(mentions) => mentions.get(waiting.next as usize).copied(),
        }
    }

    /// Goes past a module of the header of the innermost one that waits.
    fn pass(&mut self, waiting: Waiting) -> Result<(), NoMemory> {
        self.waiting.push(Waiting {
            module: waiting.module,
            next: waiting.next.saturating_add(1),
        })?;
        Ok(())
    }

    /// The loading of a module is complete.
    fn end(&mut self, module: u32) -> Result<(), NoMemory> {
        if let Some(place) = self.complete.get_mut(module as usize) {
            *place = true;
        }
        self.order.push(module)?;
        Ok(())
    }

    /// Takes the next module of the innermost one that waits, or ends that one. False where none
    /// waits.
    fn step<F: Store>(
        &mut self,
        alloc: Global,
        store: &mut F,
        folder: Option<&str>,
    ) -> Result<bool, Stop> {
        let Some(waiting) = self.waiting.pop() else {
            return Ok(false);
        };
        match self.next_mention(waiting) {
            None => self.end(waiting.module)?,
            Some(mention) => {
                self.pass(waiting)?;
                self.turn(alloc, store, folder, mention)?;
            }
        }
        Ok(true)
    }

    /// Takes the modules, by number.
    pub fn take_modules(&mut self, alloc: Global) -> Vec<Module> {
        mem::replace(&mut self.modules, Vec::new(alloc))
    }

    /// The modules in the order in which their loading was complete.
    pub fn order(&self) -> &[u32] {
        self.order.as_slice()
    }

    /// The names of the files that were loaded, by number.
    pub fn into_files(self) -> Vec<Text> {
        let Loading {
            names: _,
            numbers: _,
            complete: _,
            mentions: _,
            waiting: _,
            files,
            modules: _,
            order: _,
        } = self;
        files
    }

    /// Loads the source of that name with all that it needs, and gives the number of its module.
    pub fn source<F: Store>(
        &mut self,
        alloc: Global,
        store: &mut F,
        file: &str,
    ) -> Result<u32, Stop> {
        let (folder, base) = source_name(file);
        let name = self.name_number(alloc, base)?;
        if self.module_named(name) == NONE {
            self.load(alloc, store, folder, name)?;
        }
        'steps: for _ in 0..u64::MAX {
            if !self.step(alloc, store, folder)? {
                break;
            }
        }
        Ok(self.module_named(name))
    }
}
