//! How refusals write types.
use crate::types::{Type, TypeId, Types};
use gft_core::{NoMemory, Text};
use std::alloc::Global;

/// What is still to be written, the last one first.
#[derive(Clone, Copy)]
enum Piece {
    Type(TypeId),
    /// A type that is in parentheses where it is a table or function type.
    Narrow(TypeId),
    /// The fields from that one on, the first of the type or a later one.
    Fields(u32, bool),
    DoubleArrow,
    Arrow,
    Close,
}

/// What is written and what is still to be.
#[derive(Drop)]
struct Writing {
    out: String,
    left: Vec<Piece>,
}

impl Writing {
    fn word(&mut self, text: &str) -> Result<(), NoMemory> {
        self.out.push_str(text)?;
        Ok(())
    }

    /// Two types with a sign between.
    fn infix(&mut self, from: Piece, sign: Piece, to: TypeId) -> Result<(), NoMemory> {
        self.left.push(Piece::Type(to))?;
        self.left.push(sign)?;
        self.left.push(from)?;
        Ok(())
    }

    fn numbers(&mut self, last: u128) -> Result<(), NoMemory> {
        write!(self.out, "Ints {}", last)?;
        Ok(())
    }

    /// The fields from that one on.
    fn fields(&mut self, first: u32, is_first: bool) -> Result<(), NoMemory> {
        self.left.push(Piece::Fields(first, is_first))?;
        Ok(())
    }
}

impl Types {
    fn write_type(&self, writing: &mut Writing, of: TypeId) -> Result<(), NoMemory> {
        match self.kind(of) {
            Type::Str => writing.word("Str"),
            Type::TypeSort => writing.word("Type"),
            Type::ParamSort => writing.word("PType"),
            Type::Ints(last) => writing.numbers(last),
            Type::Param(number) => {
                writing.word(self.wholes.text(self.parameter_at(number).name))
            }
            Type::Record(first) => {
                writing.word("{")?;
                writing.fields(first, true)
            }
            Type::Table(over, values) => {
                writing.infix(Piece::Type(over), Piece::DoubleArrow, values)
            }
            Type::Fun(from, to) => writing.infix(Piece::Narrow(from), Piece::Arrow, to),
        }
    }

    fn write_narrow(&self, writing: &mut Writing, of: TypeId) -> Result<(), NoMemory> {
        if self.function_of(of).is_none() && self.table_of(of).is_none() {
            return self.write_type(writing, of);
        }
        writing.word("(")?;
        writing.left.push(Piece::Close)?;
        self.write_type(writing, of)
    }

    fn write_fields(
        &self,
        writing: &mut Writing,
        first: u32,
        is_first: bool,
    ) -> Result<(), NoMemory> {
        let Some(field) = self.field(first) else {
            return writing.word("}");
        };
        if !is_first {
            writing.word(" ; ")?;
        }
        writing.word(self.names.text(field.label))?;
        writing.word(" : ")?;
        writing.fields(field.rest, false)?;
        writing.left.push(Piece::Type(field.of))?;
        Ok(())
    }

    fn write_piece(&self, writing: &mut Writing, piece: Piece) -> Result<(), NoMemory> {
        match piece {
            Piece::Type(of) => self.write_type(writing, of),
            Piece::Narrow(of) => self.write_narrow(writing, of),
            Piece::Fields(first, is_first) => self.write_fields(writing, first, is_first),
            Piece::DoubleArrow => writing.word(" => "),
            Piece::Arrow => writing.word(" -> "),
            Piece::Close => writing.word(")"),
        }
    }

    /// The text of a type, as long as the type is written out.
    pub fn text(&self, alloc: Global, of: TypeId) -> Result<Text, NoMemory> {
        let mut writing = Writing {
            out: String::new(alloc),
            left: Vec::new(alloc),
        };
        writing.left.push(Piece::Type(of))?;
        for _ in 0..usize::MAX {
            match writing.left.pop() {
                None => break,
                Some(piece) => self.write_piece(&mut writing, piece)?,
            }
        }
        Text::from_str(alloc, writing.out.as_str())
    }
}
