//! Variables: those that are bound around the place that typing is at.
use crate::state::Typing;
use crate::stopped::Stopped;
use gft_forms::Span;
use gft_types::TypeId;

/// A variable by the number of its name, its type, and how many binders stand outside of its own.
#[derive(Clone, Copy)]
pub struct Variable {
    pub name: u32,
    pub of: TypeId,
    pub level: u32,
}

/// How many variables are bound, and how many binders there are.
#[derive(Clone, Copy)]
pub struct Mark {
    pub variables: u32,
    pub depth: u32,
}

impl Typing {
    /// What is bound now.
    pub(crate) fn mark(&self) -> Result<Mark, Stopped> {
        match u32::try_from(self.scope.len()) {
            Err(_) => Err(Stopped::NoMemory),
            Ok(variables) => Ok(Mark {
                variables,
                depth: self.depth,
            }),
        }
    }

    /// Goes back to what was bound then.
    pub(crate) fn leave(&mut self, mark: Mark) -> Result<(), Stopped> {
        self.scope.truncate(mark.variables as usize);
        self.depth = mark.depth;
        Ok(())
    }

    /// A binder of a variable, the innermost from now on.
    pub(crate) fn bind(&mut self, name: u32, of: TypeId) -> Result<(), Stopped> {
        let level = self.depth;
        self.depth = self.depth.saturating_add(1);
        match self.scope.push(Variable { name, of, level }) {
            Ok(()) => Ok(()),
            Err(_) => Err(Stopped::NoMemory),
        }
    }

    /// A binder of a variable, or of nothing.
    pub(crate) fn bind_or_skip(&mut self, name: Option<u32>, of: TypeId) -> Result<(), Stopped> {
        match name {
            Some(name) => self.bind(name, of),
            None => {
                self.depth = self.depth.saturating_add(1);
                Ok(())
            }
        }
    }

    /// The binders of a list, all of one type.
    pub(crate) fn bind_all(&mut self, binds: Span, of: TypeId) -> Result<(), Stopped> {
        for at in 0..binds.count {
            if let Some(binding) = self.forms.binding(binds, at) {
                self.bind_or_skip(binding.name, of)?;
            }
        }
        Ok(())
    }

    /// The innermost variable of the name.
    pub(crate) fn variable(&self, name: u32) -> Option<Variable> {
        'scope: for variable in self.scope.iter().rev() {
            if variable.name == name {
                return Some(*variable);
            }
        }
        None
    }

    /// How many binders stand between this place and the variable's own.
    pub(crate) fn back(&self, variable: Variable) -> u32 {
        self.depth.saturating_sub(1).saturating_sub(variable.level)
    }
}
