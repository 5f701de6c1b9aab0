//! Types as the public surface has them.
use crate::types::{Type, TypeId, Types};
use gft_core::{Name, NoMemory, Shared};
use gft_syntax::{CType, Whole};
use sqlite_items::Items;
use std::alloc::Global;

/// The fields of a record type, and the constructors of a parameter type.
type Fields = Items<(Name, CType)>;

type Constructors = Items<(Whole, Items<CType>)>;

impl Types {
    /// A type that was made before.
    fn made_at(&self, of: TypeId) -> Result<CType, NoMemory> {
        match self.made.get(of.0 as usize) {
            None => Ok(CType::Str), // excluded by intern: parts come before what they are part of
            Some(made) => made.copy(),
        }
    }

    fn made_fields(&self, alloc: Global, first: u32) -> Result<Fields, NoMemory> {
        let mut fields = Items::new(alloc);
        let mut next = first;
        for _ in 0..self.fields.len() {
            let Some(field) = self.field(next) else {
                break;
            };
            next = field.rest;
            if let Some(name) = self.names.name(field.label) {
                fields.push((name.copy(alloc)?, self.made_at(field.of)?))?;
            }
        }
        Ok(fields)
    }

    fn made_arguments(&self, alloc: Global, number: u32) -> Result<Items<CType>, NoMemory> {
        let mut arguments = Items::new(alloc);
        'each: for argument in self.arguments_of(number) {
            arguments.push(self.made_at(*argument)?)?;
        }
        Ok(arguments)
    }

    fn copied_name(&self, alloc: Global, number: u32) -> Result<Option<Whole>, NoMemory> {
        match self.wholes.whole(number) {
            None => Ok(None),
            Some(whole) => {
                let module = whole.module.copy(alloc)?;
                let name = whole.name.copy(alloc)?;
                Ok(Some(Whole { module, name }))
            }
        }
    }

    fn made_constructors(
        &self,
        alloc: Global,
        first: u32,
        count: u32,
    ) -> Result<Constructors, NoMemory> {
        let mut constructors = Items::new(alloc);
        for at in 0..count {
            let number = first.saturating_add(at);
            if let Some(name) = self.copied_name(alloc, self.maker(number).name)? {
                constructors.push((name, self.made_arguments(alloc, number)?))?;
            }
        }
        Ok(constructors)
    }

    fn made_param(&self, alloc: Global, number: u32) -> Result<CType, NoMemory> {
        let parameter = self.parameter_at(number);
        match self.wholes.shared(parameter.name)? {
            None => Ok(CType::Str), // excluded by parameter: it has a name
            Some(name) => {
                let all = self.made_constructors(alloc, parameter.first, parameter.count)?;
                Ok(CType::Param(name, Shared::new(alloc, all)?))
            }
        }
    }

    fn made_record(&self, alloc: Global, first: u32) -> Result<CType, NoMemory> {
        let fields = self.made_fields(alloc, first)?;
        Ok(CType::Record(Shared::new(alloc, fields)?))
    }

    fn made_pair(
        &self,
        alloc: Global,
        one: TypeId,
        other: TypeId,
    ) -> Result<(Shared<CType>, Shared<CType>), NoMemory> {
        let one = Shared::new(alloc, self.made_at(one)?)?;
        Ok((one, Shared::new(alloc, self.made_at(other)?)?))
    }

    fn made_table(&self, alloc: Global, over: TypeId, values: TypeId) -> Result<CType, NoMemory> {
        let pair = self.made_pair(alloc, over, values)?;
        Ok(CType::Table(pair.0, pair.1))
    }

    fn made_function(&self, alloc: Global, from: TypeId, to: TypeId) -> Result<CType, NoMemory> {
        let pair = self.made_pair(alloc, from, to)?;
        Ok(CType::Fun(pair.0, pair.1))
    }

    fn make(&self, alloc: Global, of: Type) -> Result<CType, NoMemory> {
        match of {
            Type::Str => Ok(CType::Str),
            Type::TypeSort => Ok(CType::TypeSort),
            Type::ParamSort => Ok(CType::ParamSort),
            Type::Ints(last) => Ok(CType::Ints(last)),
            Type::Param(number) => self.made_param(alloc, number),
            Type::Record(first) => self.made_record(alloc, first),
            Type::Table(over, values) => self.made_table(alloc, over, values),
            Type::Fun(from, to) => self.made_function(alloc, from, to),
        }
    }

    /// The type, which shares its parts with the others that were asked for. Each is made once.
    pub fn owned(&mut self, alloc: Global, of: TypeId) -> Result<CType, NoMemory> {
        let wanted = (of.0 as usize).saturating_add(1);
        'types: for at in self.made.len()..wanted {
            let kind = match u32::try_from(at) {
                Ok(at) => self.kind(TypeId(at)),
                Err(_) => Type::Str, // excluded by wanted
            };
            let made = self.make(alloc, kind)?;
            self.made.push(made)?;
        }
        self.made_at(of)
    }
}
