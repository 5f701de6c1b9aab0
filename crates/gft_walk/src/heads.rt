//! Judgements out of their walked parts.
use crate::joints::{Walked, both};
use crate::parts::{copy_binds, copy_names, copy_placed, copy_setting};
use gft_core::{NoMemory, Place};
use gft_syntax::{
    Alternative, Bind, Constructor, Context, Definition, Judgement, PlacedName, Reference, Setting,
    Term,
};
use sqlite_items::{Boxed, Items};
use std::alloc::Global;

/// What a walk makes of a judgement.
pub type WalkedJudgement = Result<Judgement, NoMemory>;

/// The names of a judgement that are kept.
pub type KeptNames = Result<Items<PlacedName>, NoMemory>;

/// The linearizations but for those of types.
#[derive(Clone, Copy)]
pub enum Form {
    Lin,
    Lindef,
    Linref,
}

/// A context.
pub fn context(alloc: Global, written: &Context, of_type: Walked) -> Result<Context, NoMemory> {
    let of_type = of_type?;
    let binds = copy_binds(alloc, written.binds.as_slice())?;
    Ok(Context {
        binds,
        of_type: of_type.into_inner(),
    })
}

/// A constructor.
pub fn constructor(
    alloc: Global,
    name: &PlacedName,
    arguments: Result<Items<Context>, NoMemory>,
) -> Result<Constructor, NoMemory> {
    let arguments = arguments?;
    let name = copy_placed(alloc, name)?;
    Ok(Constructor { name, arguments })
}

/// One of an overload.
pub fn alternative(
    alloc: Global,
    written: &Alternative,
    of_type: Walked,
    value: Walked,
) -> Result<Alternative, NoMemory> {
    let (of_type, value) = both(of_type, value)?;
    let names = copy_names(alloc, written.names.as_slice())?;
    Ok(Alternative {
        names,
        of_type: of_type.into_inner(),
        value: value.into_inner(),
    })
}

/// A definition by a term.
pub fn term_definition(term: Walked) -> Result<Definition, NoMemory> {
    let term = term?;
    Ok(Definition::Term(term.into_inner()))
}

/// A definition by alternatives.
pub fn overload(
    alternatives: Result<Items<Alternative>, NoMemory>,
) -> Result<Definition, NoMemory> {
    Ok(Definition::Overload(alternatives?))
}

/// What is told of arguments, and then what is made of the definition.
pub fn after_arguments(
    told: Result<(), NoMemory>,
    walked: Result<Definition, NoMemory>,
) -> Result<Definition, NoMemory> {
    told?;
    walked
}

/// A category.
pub fn cat(
    alloc: Global,
    name: &PlacedName,
    contexts: Result<Items<Context>, NoMemory>,
) -> WalkedJudgement {
    let contexts = contexts?;
    Ok(Judgement::Cat(copy_placed(alloc, name)?, contexts))
}

/// A category of lists.
pub fn list_cat(
    alloc: Global,
    name: &PlacedName,
    category: Result<Reference, NoMemory>,
    number: u128,
    place: Place,
) -> WalkedJudgement {
    let category = category?;
    Ok(Judgement::ListCat(copy_placed(alloc, name)?, category, number, place))
}

/// A flag.
pub fn flag(alloc: Global, name: &PlacedName, setting: &Setting) -> WalkedJudgement {
    let setting = copy_setting(alloc, setting)?;
    Ok(Judgement::Flag(copy_placed(alloc, name)?, setting))
}

/// A function.
pub fn fun(names: KeptNames, of_type: Walked) -> WalkedJudgement {
    let of_type = of_type?;
    let names = names?;
    Ok(Judgement::Fun(names, of_type.into_inner()))
}

/// A linearization type.
pub fn lincat(names: KeptNames, of_type: Walked) -> WalkedJudgement {
    let of_type = of_type?;
    let names = names?;
    Ok(Judgement::Lincat(names, of_type.into_inner()))
}

/// An oper that is not defined.
pub fn oper_type(names: KeptNames, of_type: Walked) -> WalkedJudgement {
    let of_type = of_type?;
    let names = names?;
    Ok(Judgement::OperType(names, of_type.into_inner()))
}

/// A linearization.
pub fn linearization(
    alloc: Global,
    form: Form,
    names: KeptNames,
    binds: &[Bind],
    term: Walked,
) -> WalkedJudgement {
    let term = term?;
    let names = names?;
    let binds = copy_binds(alloc, binds)?;
    let term = term.into_inner();
    match form {
        Form::Lin => Ok(Judgement::Lin(names, binds, term)),
        Form::Lindef => Ok(Judgement::Lindef(names, binds, term)),
        Form::Linref => Ok(Judgement::Linref(names, binds, term)),
    }
}

/// A parameter type that is not defined.
pub fn param_name(alloc: Global, name: &PlacedName) -> WalkedJudgement {
    Ok(Judgement::ParamName(copy_placed(alloc, name)?))
}

/// A parameter type.
pub fn param(
    alloc: Global,
    name: &PlacedName,
    constructors: Result<Items<Constructor>, NoMemory>,
) -> WalkedJudgement {
    let constructors = constructors?;
    Ok(Judgement::Param(copy_placed(alloc, name)?, constructors))
}

/// An oper with its type.
pub fn typed_oper(
    names: KeptNames,
    of_type: Walked,
    definition: Result<Definition, NoMemory>,
) -> WalkedJudgement {
    let of_type = of_type?;
    let names = names?;
    defined_oper(names, of_type, definition)
}

fn defined_oper(
    names: Items<PlacedName>,
    of_type: Boxed<Term>,
    definition: Result<Definition, NoMemory>,
) -> WalkedJudgement {
    let definition = definition?;
    Ok(Judgement::OperTyped(names, of_type.into_inner(), definition))
}

/// An oper without a type.
pub fn oper(
    alloc: Global,
    names: KeptNames,
    binds: &[Bind],
    definition: Result<Definition, NoMemory>,
) -> WalkedJudgement {
    let definition = definition?;
    let names = names?;
    Ok(Judgement::Oper(names, copy_binds(alloc, binds)?, definition))
}
