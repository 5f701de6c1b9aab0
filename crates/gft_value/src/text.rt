//! How refusals write types and parameter values.
use gft_core::{Name, NoMemory, Text};
use gft_syntax::{CType, Param};
use std::alloc::Global;

/// Adds the text of a type, in parentheses where it is wide and they are wanted.
#[cycle(push_type)]
fn push_type(of: &CType, narrow: bool, out: &mut String) -> Result<(), NoMemory> {
    match of {
        CType::Str => Ok(out.push_str("Str")?),
        CType::Param(whole, _) => Ok(out.push_str(whole.get().name.as_str())?),
        CType::Ints(n) => Ok(write!(out, "Ints {}", *n)?),
        CType::Record(fields) => push_fields(fields.get().as_slice(), out),
        CType::Table(over, values) => {
            out.push_str(if narrow { "(" } else { "" })?;
            push_type(over.get(), false, out)?;
            out.push_str(" => ")?;
            push_type(values.get(), false, out)?;
            Ok(out.push_str(if narrow { ")" } else { "" })?)
        }
        CType::Fun(from, to) => {
            out.push_str(if narrow { "(" } else { "" })?;
            push_type(from.get(), true, out)?;
            out.push_str(" -> ")?;
            push_type(to.get(), false, out)?;
            Ok(out.push_str(if narrow { ")" } else { "" })?)
        }
        CType::TypeSort => Ok(out.push_str("Type")?),
        CType::ParamSort => Ok(out.push_str("PType")?),
    }
}

#[cycle(push_type)]
fn push_fields(fields: &[(Name, CType)], out: &mut String) -> Result<(), NoMemory> {
    out.push_str("{")?;
    let mut is_first = true;
    'each: for field in fields {
        out.push_str(if is_first { "" } else { " ; " })?;
        out.push_str(field.0.as_str())?;
        out.push_str(" : ")?;
        push_type(&field.1, false, out)?;
        is_first = false;
    }
    Ok(out.push_str("}")?)
}

/// The text of a type.
pub fn type_text(alloc: Global, of: &CType) -> Result<Text, NoMemory> {
    let mut out = String::new(alloc);
    push_type(of, false, &mut out)?;
    Text::from_str(alloc, out.as_str())
}

/// Adds the text of a parameter value, in parentheses where it is wide and they are wanted.
#[cycle(push_param)]
fn push_param(value: &Param, narrow: bool, out: &mut String) -> Result<(), NoMemory> {
    match value {
        Param::Con(whole, arguments) => {
            let wide = narrow && !arguments.is_empty();
            out.push_str(if wide { "(" } else { "" })?;
            out.push_str(whole.name.as_str())?;
            push_arguments(arguments.as_slice(), out)?;
            Ok(out.push_str(if wide { ")" } else { "" })?)
        }
        Param::Ints(n) => Ok(write!(out, "{}", *n)?),
        Param::Record(fields) => push_values(fields.as_slice(), out),
    }
}

#[cycle(push_param)]
fn push_arguments(values: &[Param], out: &mut String) -> Result<(), NoMemory> {
    'each: for value in values {
        out.push_str(" ")?;
        push_param(value, true, out)?;
    }
    Ok(())
}

#[cycle(push_param)]
fn push_values(fields: &[(Name, Param)], out: &mut String) -> Result<(), NoMemory> {
    out.push_str("{")?;
    let mut is_first = true;
    'each: for field in fields {
        out.push_str(if is_first { "" } else { " ; " })?;
        out.push_str(field.0.as_str())?;
        out.push_str(" = ")?;
        push_param(&field.1, false, out)?;
        is_first = false;
    }
    Ok(out.push_str("}")?)
}

/// The text of a parameter value.
pub fn param_text(alloc: Global, value: &Param) -> Result<Text, NoMemory> {
    let mut out = String::new(alloc);
    push_param(value, false, &mut out)?;
    Text::from_str(alloc, out.as_str())
}
