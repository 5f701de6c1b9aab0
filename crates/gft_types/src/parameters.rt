//! Parameter types and their constructors.
use crate::types::{Maker, Parameter, Size, Type, TypeId, Types, add};
use gft_core::{NoMemory, Shared};
use gft_syntax::Whole;
use gft_value::tuple_label;
use std::alloc::Global;

impl Types {
    /// The number of a whole name, which is met from now on.
    pub fn whole_number(&mut self, alloc: Global, whole: &Whole) -> Result<u32, NoMemory> {
        self.wholes.number(alloc, &mut self.names, whole)
    }

    /// The number of the label of a tuple's item, from 0.
    pub fn tuple_label(&mut self, alloc: Global, at: u32) -> Result<u32, NoMemory> {
        let label = tuple_label(alloc, at as usize)?;
        self.names.number(alloc, &label)
    }

    /// Whether it is a parameter type without constructors. It takes no memory.
    pub fn is_open(&self, of: TypeId) -> bool {
        match self.kind(of) {
            Type::Param(number) => self.parameter_at(number).count == 0,
            _ => false,
        }
    }

    /// A constructor of the whole name of that number, with arguments of these types: its number
    /// among all constructors. Those of one parameter type are made one after the other, before it.
    pub fn constructor(&mut self, name: u32, arguments: &[TypeId]) -> Result<u32, NoMemory> {
        let first = self.arguments.len();
        'each: for argument in arguments {
            self.arguments.push(*argument)?;
        }
        let maker = Maker {
            name,
            first: crate::types::number_at(first)?,
            count: crate::types::number_at(arguments.len())?,
        };
        add(&mut self.makers, maker)
    }

    /// How many constructors were made. It takes no memory.
    pub fn constructors(&self) -> Result<u32, NoMemory> {
        crate::types::number_at(self.makers.len())
    }

    /// The parameter type of the whole name of that number, with the constructors that were made
    /// from `first` on.
    pub fn parameter(&mut self, name: u32, first: u32) -> Result<TypeId, NoMemory> {
        let count = self.constructors()?.saturating_sub(first);
        let values = self.sum_of(first, count);
        let number = add(&mut self.parameters, Parameter { name, first, count })?;
        let size = Size {
            values,
            is_finite: true,
        };
        self.intern(Type::Param(number), size)
    }

    pub(crate) fn maker(&self, number: u32) -> Maker {
        match self.makers.get(number as usize) {
            // excluded by constructor: numbers are given as constructors are made
            None => Maker {
                name: 0,
                first: 0,
                count: 0,
            },
            Some(maker) => *maker,
        }
    }

    pub(crate) fn parameter_at(&self, number: u32) -> Parameter {
        match self.parameters.get(number as usize) {
            // excluded by parameter: numbers are given as types are made
            None => Parameter {
                name: 0,
                first: 0,
                count: 0,
            },
            Some(parameter) => *parameter,
        }
    }

    /// The types of a constructor's arguments. It takes no memory.
    pub fn arguments_of(&self, constructor: u32) -> &[TypeId] {
        let maker = self.maker(constructor);
        let start = maker.first as usize;
        match self
            .arguments
            .get(start..start.saturating_add(maker.count as usize))
        {
            None => &[], // excluded by constructor
            Some(types) => types,
        }
    }

    /// One more owner of a constructor's whole name. None where there is no such constructor.
    pub fn constructor_name(&self, constructor: u32) -> Result<Option<Shared<Whole>>, NoMemory> {
        self.wholes.shared(self.maker(constructor).name)
    }

    /// The number of a constructor's whole name. It takes no memory.
    pub fn constructor_name_number(&self, constructor: u32) -> u32 {
        self.maker(constructor).name
    }

    /// How many values the constructor makes, or the greatest number where there are more.
    pub(crate) fn product_of(&self, constructor: u32) -> u64 {
        let mut product = 1u64;
        'each: for argument in self.arguments_of(constructor) {
            product = product.saturating_mul(self.count_of(*argument));
        }
        product
    }

    /// How many values so many constructors make, or the greatest number where there are more.
    fn sum_of(&self, first: u32, count: u32) -> u64 {
        let mut sum = 0u64;
        for at in 0..count {
            sum = sum.saturating_add(self.product_of(first.saturating_add(at)));
        }
        sum
    }

    /// The type of a constructor: a function of its arguments, the parameter type its result.
    pub fn constructor_type(&mut self, constructor: u32, of: TypeId) -> Result<TypeId, NoMemory> {
        let count = self.maker(constructor).count;
        let mut whole = of;
        for at in 0..count {
            let argument = self.argument_at(constructor, count - 1 - at);
            whole = self.function(argument, whole)?;
        }
        Ok(whole)
    }

    /// The type of a constructor's argument, from 0.
    pub fn argument_at(&self, constructor: u32, at: u32) -> TypeId {
        match self.arguments_of(constructor).get(at as usize) {
            None => crate::types::STR, // excluded by the caller, which counts arguments
            Some(of) => *of,
        }
    }
}
