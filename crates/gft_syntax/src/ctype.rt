//! Types of concrete syntax.
ghost use Rattle.std.specs.Prelude.{◌≡◌, IfOk};

use crate::reference::Whole;
use gft_core::{Name, NoMemory, Shared};
use sqlite_items::Items;

/// A concrete type. A parameter type holds its constructors in order, each with the types of its
/// arguments. The labels of a record type are in byte order. `TypeSort` is `Type`, `ParamSort` is
/// `PType`. Parts are shared, so a copy takes no memory.
#[derive(Drop)]
pub enum CType {
    Str,
    Param(Shared<Whole>, Shared<Items<(Whole, Items<CType>)>>),
    /// The numbers from 0 to this one.
    Ints(u128),
    Record(Shared<Items<(Name, CType)>>),
    /// What it is over, then the type of its values.
    Table(Shared<CType>, Shared<CType>),
    Fun(Shared<CType>, Shared<CType>),
    TypeSort,
    ParamSort,
}

impl CType {
    /// An equal type, which shares its parts with this one.
    pub fn copy(&self) -> Result<CType, NoMemory>
        ensures { IfOk result (λ copied. copied ≡ self.now) }
    {
        match self {
            CType::Str => Ok(CType::Str),
            CType::Param(name, constructors) => {
                Ok(CType::Param(name.share()?, constructors.share()?))
            }
            CType::Ints(last) => Ok(CType::Ints(*last)),
            CType::Record(fields) => Ok(CType::Record(fields.share()?)),
            CType::Table(over, values) => Ok(CType::Table(over.share()?, values.share()?)),
            CType::Fun(from, to) => Ok(CType::Fun(from.share()?, to.share()?)),
            CType::TypeSort => Ok(CType::TypeSort),
            CType::ParamSort => Ok(CType::ParamSort),
        }
    }
}
