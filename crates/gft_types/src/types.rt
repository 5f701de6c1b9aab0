//! Types by number.
use crate::names::Names;
use crate::wholes::Wholes;
use gft_core::NoMemory;
use gft_syntax::CType;
use indexmap::IndexSet;
use std::alloc::Global;

/// The number of a type.
#[derive(Clone, Copy, Debug, PartialEq, Eq, Hash)]
pub struct TypeId(pub u32);

/// `Str`
pub const STR: TypeId = TypeId(0);
/// `Type`
pub const TYPE_SORT: TypeId = TypeId(1);
/// `PType`
pub const PARAM_SORT: TypeId = TypeId(2);

/// A type, its parts by number.
#[derive(Clone, Copy, Debug, PartialEq, Eq, Hash)]
pub enum Type {
    Str,
    TypeSort,
    ParamSort,
    /// The numbers from 0 to this one.
    Ints(u128),
    /// A parameter type, by its number among these.
    Param(u32),
    /// A record type, by the number of its first field, 0 where it has none.
    Record(u32),
    /// What it is over, then the type of its values.
    Table(TypeId, TypeId),
    Fun(TypeId, TypeId),
}

/// A field of a record type and the number of the field after it, 0 where there is none. The labels
/// are in byte order.
#[derive(Clone, Copy, PartialEq, Eq, Hash)]
pub struct Field {
    pub label: u32,
    pub of: TypeId,
    pub rest: u32,
}

/// How many values a type has, or the greatest number where there are more, and whether a table may
/// be over it.
#[derive(Clone, Copy)]
pub struct Size {
    pub values: u64,
    pub is_finite: bool,
}

/// A constructor of a parameter type, by the number of its whole name, with the types of its
/// arguments among those of all constructors.
#[derive(Clone, Copy)]
pub struct Maker {
    pub name: u32,
    pub first: u32,
    pub count: u32,
}

/// A parameter type, by the number of its whole name, with its constructors among all of them.
#[derive(Clone, Copy)]
pub struct Parameter {
    pub name: u32,
    pub first: u32,
    pub count: u32,
}

/// Types, each by the number of types that were made before it: parts come before what they are
/// part of. Equal types have equal numbers.
#[derive(Drop)]
pub struct Types {
    pub names: Names,
    pub wholes: Wholes,
    pub(crate) kinds: IndexSet<Type>,
    pub(crate) sizes: Vec<Size>,
    pub(crate) fields: IndexSet<Field>,
    pub(crate) field_sizes: Vec<Size>,
    pub(crate) makers: Vec<Maker>,
    pub(crate) arguments: Vec<TypeId>,
    pub(crate) parameters: Vec<Parameter>,
    pub(crate) made: Vec<CType>,
}

/// A type over which no table may be.
pub(crate) const ENDLESS: Size = Size {
    values: 0,
    is_finite: false,
};

/// The number of a place in a table.
pub(crate) fn number_at(at: usize) -> Result<u32, NoMemory> {
    match u32::try_from(at) {
        Ok(number) => Ok(number),
        Err(_) => Err(NoMemory),
    }
}

/// Adds a value at the end, and says at which place.
pub(crate) fn add<T: Drop>(values: &mut Vec<T>, value: T) -> Result<u32, NoMemory> {
    let number = number_at(values.len())?;
    values.push(value)?;
    Ok(number)
}

impl Types {
    /// The types without parts.
    pub fn new(alloc: Global) -> Result<Types, NoMemory> {
        let mut types = Types {
            names: Names::new(alloc),
            wholes: Wholes::new(alloc),
            kinds: IndexSet::new(alloc),
            sizes: Vec::new(alloc),
            fields: IndexSet::new(alloc),
            field_sizes: Vec::new(alloc),
            makers: Vec::new(alloc),
            arguments: Vec::new(alloc),
            parameters: Vec::new(alloc),
            made: Vec::new(alloc),
        };
        types.intern(Type::Str, ENDLESS)?;
        types.intern(Type::TypeSort, ENDLESS)?;
        types.intern(Type::ParamSort, ENDLESS)?;
        Ok(types)
    }

    /// The number of a type, which is new where it was not met.
    pub(crate) fn intern(&mut self, of: Type, size: Size) -> Result<TypeId, NoMemory> {
        let (at, is_new) = self.kinds.insert_full(of)?;
        if is_new {
            self.sizes.push(size)?;
        }
        Ok(TypeId(number_at(at)?))
    }

    /// The type of that number. It takes no memory.
    pub fn kind(&self, of: TypeId) -> Type {
        match self.kinds.get_index(of.0 as usize) {
            None => Type::Str, // excluded by intern: numbers are given as types are made
            Some(kind) => *kind,
        }
    }

    pub(crate) fn size(&self, of: TypeId) -> Size {
        match self.sizes.get(of.0 as usize) {
            None => ENDLESS, // excluded by intern
            Some(size) => *size,
        }
    }

    /// How many values a type has, or the greatest number where there are more. It takes no memory.
    pub fn count_of(&self, of: TypeId) -> u64 {
        self.size(of).values
    }

    /// Whether a table may be over the type: a parameter type, numbers, or a record type of such
    /// types. It takes no memory.
    pub fn is_finite(&self, of: TypeId) -> bool {
        self.size(of).is_finite
    }

    /// The numbers from 0 to this one.
    pub fn ints(&mut self, last: u128) -> Result<TypeId, NoMemory> {
        let values = match u64::try_from(last) {
            Ok(last) => last.saturating_add(1),
            Err(_) => u64::MAX,
        };
        let size = Size {
            values,
            is_finite: true,
        };
        self.intern(Type::Ints(last), size)
    }

    /// A function type.
    pub fn function(&mut self, from: TypeId, to: TypeId) -> Result<TypeId, NoMemory> {
        self.intern(Type::Fun(from, to), ENDLESS)
    }

    /// A table type: what it is over, then the type of its values.
    pub fn table(&mut self, over: TypeId, values: TypeId) -> Result<TypeId, NoMemory> {
        self.intern(Type::Table(over, values), ENDLESS)
    }

    /// The parameter and the result of a function type. It takes no memory.
    pub fn function_of(&self, of: TypeId) -> Option<(TypeId, TypeId)> {
        match self.kind(of) {
            Type::Fun(from, to) => Some((from, to)),
            _ => None,
        }
    }

    /// What a table type is over, and the type of its values. It takes no memory.
    pub fn table_of(&self, of: TypeId) -> Option<(TypeId, TypeId)> {
        match self.kind(of) {
            Type::Table(over, values) => Some((over, values)),
            _ => None,
        }
    }

    /// Whether it is a parameter type. It takes no memory.
    pub fn is_param(&self, of: TypeId) -> bool {
        matches!(self.kind(of), Type::Param(_))
    }

    /// How many arguments a function type takes, through named function types in its result.
    pub fn arity(&self, of: TypeId) -> u32 {
        let mut rest = of;
        let mut count = 0u32;
        for _ in 0..self.kinds.len() {
            match self.kind(rest) {
                Type::Fun(_, to) => {
                    rest = to;
                    count = count.saturating_add(1);
                }
                _ => break,
            }
        }
        count
    }

    /// What a function type gives after all its arguments.
    pub fn result_of(&self, of: TypeId) -> TypeId {
        let mut rest = of;
        for _ in 0..self.kinds.len() {
            match self.kind(rest) {
                Type::Fun(_, to) => rest = to,
                _ => break,
            }
        }
        rest
    }

    /// Whether a parameter of the function type, those of its result counted, is a function type.
    pub fn takes_function(&self, of: TypeId) -> bool {
        let mut rest = of;
        for _ in 0..self.kinds.len() {
            match self.kind(rest) {
                Type::Fun(from, to) => {
                    if self.function_of(from).is_some() {
                        return true;
                    }
                    rest = to;
                }
                _ => break,
            }
        }
        false
    }
}
