//! Lambdas and table lambdas.
use crate::refusing::Said;
use crate::state::{Typing, add_part};
use crate::stopped::Stopped;
use crate::task::Task;
use gft_core::NoMemory;
use gft_forms::Span;
use gft_nodes::{Node, Part};
use gft_rules::Rule;
use gft_types::{STR, TypeId};
use std::alloc::Global;

/// Adds a type.
fn add_type(types: &mut Vec<TypeId>, of: TypeId) -> Result<(), NoMemory> {
    types.push(of)?;
    Ok(())
}

impl Typing {
    /// `\x, y -> e`: each variable is a parameter of the given type.
    pub(crate) fn lambda(
        &mut self,
        e: u32,
        binds: Span,
        body: u32,
        given: TypeId,
    ) -> Result<(), Stopped> {
        let mark = self.mark()?;
        let mut rest = given;
        for at in 0..binds.count {
            let Some((from, to)) = self.types.function_of(rest) else {
                return Err(self.broken_at(Rule::NotFunction, e, Said::Type(rest)));
            };
            if let Some(binding) = self.forms.binding(binds, at) {
                self.bind_or_skip(binding.name, from)?;
            }
            rest = to;
        }
        self.push(Task::LambdaEnd(binds.count, given))?;
        self.push(Task::Leave(mark))?;
        self.push(Task::Term(body, Some(rest)))
    }

    pub(crate) fn lambda_end(&mut self, count: u32, given: TypeId) -> Result<(), Stopped> {
        let body = self.pop_found().node;
        self.answer(Node::Lambda(count, body), given)
    }

    /// `\\x, y => e`: each variable is what the given table type is over.
    pub(crate) fn table_lambda(
        &mut self,
        e: u32,
        binds: Span,
        body: u32,
        given: TypeId,
    ) -> Result<(), Stopped> {
        let mark = self.mark()?;
        let mut rest = given;
        for at in 0..binds.count {
            let Some((over, values)) = self.types.table_of(rest) else {
                return Err(self.broken_at(Rule::NotTable, e, Said::Type(rest)));
            };
            if let Some(binding) = self.forms.binding(binds, at) {
                self.bind_variable(binding.name, over)?;
            }
            rest = values;
        }
        self.push(Task::TableLambdaEnd(binds, given))?;
        self.push(Task::Leave(mark))?;
        self.push(Task::Term(body, Some(rest)))
    }

    /// A variable is bound by its pattern; `_` binds nothing.
    fn bind_variable(&mut self, name: Option<u32>, of: TypeId) -> Result<(), Stopped> {
        match name {
            None => Ok(()),
            Some(name) => self.bind(name, of),
        }
    }

    /// What the tables are over, the outermost first.
    fn domains(&self, alloc: Global, count: u32, given: TypeId) -> Result<Vec<TypeId>, NoMemory> {
        let mut domains: Vec<TypeId> = Vec::new(alloc);
        let mut rest = given;
        for _ in 0..count {
            if let Some((over, values)) = self.types.table_of(rest) {
                add_type(&mut domains, over)?;
                rest = values;
            }
        }
        Ok(domains)
    }

    /// A table of one branch, which binds a variable or nothing.
    fn one_branch(
        &mut self,
        alloc: Global,
        over: TypeId,
        pattern: u32,
        body: u32,
    ) -> Result<u32, NoMemory> {
        let mut parts: Vec<Part> = Vec::new(alloc);
        let part = Part {
            key: pattern,
            node: body,
        };
        add_part(&mut parts, part)?;
        let list = self.nodes.add_parts(parts.as_slice())?;
        self.nodes.add(Node::Table(over, list))
    }

    /// The tables, from the innermost to the outermost.
    fn nested_tables(
        &mut self,
        alloc: Global,
        binds: Span,
        given: TypeId,
        body: u32,
    ) -> Result<u32, NoMemory> {
        let domains = self.domains(alloc, binds.count, given)?;
        let mut node = body;
        for left in 0..binds.count {
            let at = binds.count - 1 - left;
            let over = match domains.get(at as usize) {
                None => STR, // excluded by table_lambda: there are as many
                Some(over) => *over,
            };
            if let Some(binding) = self.forms.binding(binds, at) {
                node = self.one_branch(alloc, over, binding.pattern, node)?;
            }
        }
        Ok(node)
    }

    pub(crate) fn table_lambda_end(
        &mut self,
        alloc: Global,
        binds: Span,
        given: TypeId,
    ) -> Result<(), Stopped> {
        let body = self.pop_found().node;
        let node = self.nested_tables(alloc, binds, given, body)?;
        self.push_found(crate::state::Found { node, of: given })
    }
}
