//! The whole names that stand in terms and judgements.
use gft_core::NoMemory;
use gft_syntax::{
    Alternative, Case, Constructor, Definition, Judgement, Local, Pattern, PatternField, Reference,
    Term, Whole,
};
use std::alloc::Global;

/// The names found, and the terms and patterns that are still to be looked at.
#[derive(Drop)]
struct Search<'f> {
    found: Vec<&'f Whole>,
    terms: Vec<&'f Term>,
    patterns: Vec<&'f Pattern>,
}

/// The whole name that a reference is, if it is one.
fn whole_of(reference: &Reference) -> Option<&Whole> {
    match reference {
        Reference::Whole(whole) => Some(whole),
        _ => None, // a local variable
    }
}

impl<'f> Search<'f> {
    fn reference(&mut self, reference: &'f Reference) -> Result<(), NoMemory> {
        if let Some(whole) = whole_of(reference) {
            self.found.push(whole)?;
        }
        Ok(())
    }

    fn term(&mut self, term: &'f Term) -> Result<(), NoMemory> {
        self.terms.push(term)?;
        Ok(())
    }

    fn two(&mut self, a: &'f Term, b: &'f Term) -> Result<(), NoMemory> {
        self.terms.push(a)?;
        self.terms.push(b)?;
        Ok(())
    }

    fn all(&mut self, terms: &'f [Term]) -> Result<(), NoMemory> {
        'terms: for term in terms {
            self.terms.push(term)?;
        }
        Ok(())
    }

    fn locals(&mut self, locals: &'f [Local<Term>]) -> Result<(), NoMemory> {
        'locals: for local in locals {
            match local {
                Local::Value(_, value) => self.term(value)?,
                Local::Label(_, of_type) => self.term(of_type)?,
                Local::TypedValue(_, of_type, value) => self.two(of_type, value)?,
            }
        }
        Ok(())
    }

    fn cases(&mut self, cases: &'f [Case<Term>]) -> Result<(), NoMemory> {
        'cases: for case in cases {
            self.patterns.push(&case.pattern)?;
            self.terms.push(&case.body)?;
        }
        Ok(())
    }

    /// Looks at a term of a form of two parts, or at another one.
    fn look(&mut self, term: &'f Term) -> Result<(), NoMemory> {
        match term {
            Term::App(a, b, _) => self.two(a.get(), b.get()),
            Term::Arrow(_, a, b, _) => self.two(a.get(), b.get()),
            Term::Alt(a, b, _) => self.two(a.get(), b.get()),
            Term::Concat(a, b, _) => self.two(a.get(), b.get()),
            Term::Glue(a, b, _) => self.two(a.get(), b.get()),
            Term::Select(a, b, _) => self.two(a.get(), b.get()),
            Term::Extend(a, b, _) => self.two(a.get(), b.get()),
            Term::Pair(a, b, _) => self.two(a.get(), b.get()),
            Term::TabType(a, b, _) => self.two(a.get(), b.get()),
            Term::Typed(a, b, _) => self.two(a.get(), b.get()),
            _ => self.look_on(term),
        }
    }

    fn look_on(&mut self, term: &'f Term) -> Result<(), NoMemory> {
        match term {
            Term::Var(reference, _) => self.reference(reference),
            Term::ListCat(reference, _) => self.reference(reference),
            Term::Fun(_, a, _) => self.term(a.get()),
            Term::TabFun(_, a, _) => self.term(a.get()),
            Term::Proj(a, _, _) => self.term(a.get()),
            Term::Let(locals, a, _) => {
                self.term(a.get())?;
                self.locals(locals.as_slice())
            }
            Term::Fields(locals, _) => self.locals(locals.as_slice()),
            Term::TableOf(None, cases, _) => self.cases(cases.as_slice()),
            Term::TableOf(Some(a), cases, _) => {
                self.term(a.get())?;
                self.cases(cases.as_slice())
            }
            Term::CaseOf(a, cases, _) => {
                self.term(a.get())?;
                self.cases(cases.as_slice())
            }
            Term::TableList(a, terms, _) => {
                self.term(a.get())?;
                self.all(terms.as_slice())
            }
            Term::Variants(terms, _) => self.all(terms.as_slice()),
            Term::Tuple(terms, _) => self.all(terms.as_slice()),
            _ => Ok(()),
        }
    }

    fn all_patterns(&mut self, patterns: &'f [Pattern]) -> Result<(), NoMemory> {
        'patterns: for pattern in patterns {
            self.patterns.push(pattern)?;
        }
        Ok(())
    }

    fn fields(&mut self, fields: &'f [PatternField<Pattern>]) -> Result<(), NoMemory> {
        'fields: for field in fields {
            self.patterns.push(&field.pattern)?;
        }
        Ok(())
    }

    fn both(&mut self, a: &'f Pattern, b: &'f Pattern) -> Result<(), NoMemory> {
        self.patterns.push(a)?;
        self.patterns.push(b)?;
        Ok(())
    }

    fn pattern(&mut self, pattern: &'f Pattern) -> Result<(), NoMemory> {
        self.patterns.push(pattern)?;
        Ok(())
    }

    fn look_at_pattern(&mut self, pattern: &'f Pattern) -> Result<(), NoMemory> {
        match pattern {
            Pattern::Or(a, b, _) => self.both(a.get(), b.get()),
            Pattern::Seq(a, b, _) => self.both(a.get(), b.get()),
            Pattern::Con(_, reference, parts, _) => {
                self.reference(reference)?;
                self.all_patterns(parts.as_slice())
            }
            Pattern::Star(inner, _) => self.pattern(inner.get()),
            Pattern::As(_, inner, _) => self.pattern(inner.get()),
            Pattern::Name(reference, _) => self.reference(reference),
            Pattern::Fields(fields, _) => self.fields(fields.as_slice()),
            Pattern::Tuple(parts, _) => self.all_patterns(parts.as_slice()),
            _ => Ok(()),
        }
    }

    /// Looks at one term or pattern. False where none is left.
    fn step(&mut self) -> Result<bool, NoMemory> {
        if let Some(term) = self.terms.pop() {
            self.look(term)?;
            return Ok(true);
        }
        if let Some(pattern) = self.patterns.pop() {
            self.look_at_pattern(pattern)?;
            return Ok(true);
        }
        Ok(false)
    }

    fn run(&mut self) -> Result<(), NoMemory> {
        'steps: for _ in 0..u64::MAX {
            if !self.step()? {
                break;
            }
        }
        Ok(())
    }

    fn constructors(&mut self, constructors: &'f [Constructor]) -> Result<(), NoMemory> {
        'constructors: for constructor in constructors {
            'arguments: for argument in constructor.arguments.as_slice() {
                self.terms.push(&argument.of_type)?;
            }
        }
        Ok(())
    }

    fn types(&mut self, alternatives: &'f [Alternative]) -> Result<(), NoMemory> {
        'alternatives: for alternative in alternatives {
            self.terms.push(&alternative.of_type)?;
        }
        Ok(())
    }

    fn definition(&mut self, definition: &'f Definition) -> Result<(), NoMemory> {
        match definition {
            Definition::Term(term) => self.term(term),
            Definition::Overload(alternatives) => {
                'alternatives: for alternative in alternatives.as_slice() {
                    self.two(&alternative.of_type, &alternative.value)?;
                }
                Ok(())
            }
        }
    }

    fn judgement(&mut self, judgement: &'f Judgement) -> Result<(), NoMemory> {
        match judgement {
            Judgement::Lincat(_, term) => self.term(term),
            Judgement::Lin(_, _, term) => self.term(term),
            Judgement::Lindef(_, _, term) => self.term(term),
            Judgement::Linref(_, _, term) => self.term(term),
            Judgement::Param(_, constructors) => self.constructors(constructors.as_slice()),
            Judgement::OperType(_, of_type) => self.term(of_type),
            Judgement::OperTyped(_, of_type, definition) => {
                self.term(of_type)?;
                self.definition(definition)
            }
            Judgement::Oper(_, _, definition) => self.definition(definition),
            _ => Ok(()), // no judgement of concrete syntax has other terms
        }
    }

    /// What a judgement declares: a type, or those of alternatives.
    fn declaration(&mut self, judgement: &'f Judgement) -> Result<(), NoMemory> {
        match judgement {
            Judgement::OperType(_, of_type) => self.term(of_type),
            Judgement::OperTyped(_, of_type, definition) => {
                self.term(of_type)?;
                self.declared(definition)
            }
            Judgement::Oper(_, _, definition) => self.declared(definition),
            _ => Ok(()), // it declares no type
        }
    }

    fn declared(&mut self, definition: &'f Definition) -> Result<(), NoMemory> {
        match definition {
            Definition::Term(_) => Ok(()),
            Definition::Overload(alternatives) => self.types(alternatives.as_slice()),
        }
    }
}

/// A search that has not begun.
fn new_search<'f>(alloc: Global) -> Search<'f> {
    Search {
        found: Vec::new(alloc),
        terms: Vec::new(alloc),
        patterns: Vec::new(alloc),
    }
}

/// The whole names in the terms and patterns of a judgement, in no particular order.
pub fn names_in<'f>(alloc: Global, judgement: &'f Judgement) -> Result<Vec<&'f Whole>, NoMemory> {
    let mut search = new_search(alloc);
    search.judgement(judgement)?;
    search.run()?;
    Ok(search.found)
}

/// The whole names in the types that a judgement declares, in no particular order.
pub fn declared_names<'f>(
    alloc: Global,
    judgement: &'f Judgement,
) -> Result<Vec<&'f Whole>, NoMemory> {
    let mut search = new_search(alloc);
    search.declaration(judgement)?;
    search.run()?;
    Ok(search.found)
}
