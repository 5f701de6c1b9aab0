//! The locals of `let` and `where`, and the fields of records.
use super::frame::{FieldsAre, Frame, Locals, LocalsOf, Turn, whole};
use crate::halt::Halt;
use crate::labels::{close_record, labels};
use crate::level::Level;
use crate::plan::{LocalStep, Span, Step, TermStep};
use crate::reader::Reader;
use gft_syntax::{Reserved, Symbol};

/// Whether the locals end before the next token, which is then passed.
fn accept_end(reader: &mut Reader<'_>, of: LocalsOf) -> bool {
    match of {
        LocalsOf::Let(_) => reader.accept_word(Reserved::InWord),
        LocalsOf::Record(_, _) => reader.accept(Symbol::RightBrace),
        LocalsOf::LetBraces(_) => reader.accept(Symbol::RightBrace),
        LocalsOf::Where(_) => reader.accept(Symbol::RightBrace),
    }
}

/// The form whose locals are read.
fn close(reader: &mut Reader<'_>, locals: Locals) -> Result<Turn, Halt> {
    let Locals { of, count, height } = locals;
    match of {
        LocalsOf::Record(_, start) => {
            close_record(reader)?;
            whole(reader, TermStep::Fields(count), Level::Exp6, start, height)
        }
        LocalsOf::Let(start) => Ok(Turn::Within(Frame::LetIn(locals, start), Level::Exp)),
        LocalsOf::LetBraces(start) => {
            reader.word(Reserved::InWord)?;
            Ok(Turn::Within(Frame::LetIn(locals, start), Level::Exp))
        }
        LocalsOf::Where(body) => {
            let height = height.max(body.height);
            whole(reader, TermStep::Let(count), Level::Exp, body.start, height)
        }
    }
}

/// I, before a local; the labels of a record are kept.
fn local_names(reader: &mut Reader<'_>, of: LocalsOf) -> Result<Span, Halt> {
    match of {
        LocalsOf::Record(_, _) => labels(reader),
        LocalsOf::Let(_) => reader.names(),
        LocalsOf::LetBraces(_) => reader.names(),
        LocalsOf::Where(_) => reader.names(),
    }
}

/// What locals stand in when one has `=`; in a record none may be without it before.
fn with_value(of: LocalsOf) -> Result<LocalsOf, Halt> {
    match of {
        LocalsOf::Record(FieldsAre::Labels, _) => Err(Halt::Underivable),
        LocalsOf::Record(FieldsAre::Open, start) => Ok(LocalsOf::Record(FieldsAre::Values, start)),
        LocalsOf::Record(FieldsAre::Values, start) => {
            Ok(LocalsOf::Record(FieldsAre::Values, start))
        }
        LocalsOf::Let(start) => Ok(LocalsOf::Let(start)),
        LocalsOf::LetBraces(start) => Ok(LocalsOf::LetBraces(start)),
        LocalsOf::Where(body) => Ok(LocalsOf::Where(body)),
    }
}

/// What locals stand in when one has no `=`, if it may be so: in a record of which none has one.
fn with_label(of: LocalsOf) -> Result<LocalsOf, Halt> {
    match of {
        LocalsOf::Record(FieldsAre::Values, _) => Err(Halt::Underivable),
        LocalsOf::Record(FieldsAre::Open, start) => Ok(LocalsOf::Record(FieldsAre::Labels, start)),
        LocalsOf::Record(FieldsAre::Labels, start) => {
            Ok(LocalsOf::Record(FieldsAre::Labels, start))
        }
        LocalsOf::Let(_) | LocalsOf::LetBraces(_) | LocalsOf::Where(_) => Err(Halt::Underivable),
    }
}

/// The end of the locals, or I, and `:` or `=`.
pub(crate) fn next_local(reader: &mut Reader<'_>, locals: Locals) -> Result<Turn, Halt> {
    if accept_end(reader, locals.of) {
        return close(reader, locals);
    }
    let names = local_names(reader, locals.of)?;
    if reader.accept(Symbol::Colon) {
        return Ok(Turn::Within(Frame::LocalType(locals, names), Level::Exp));
    }
    let locals = Locals {
        of: with_value(locals.of)?,
        count: locals.count,
        height: locals.height,
    };
    reader.symbol(Symbol::Equals)?;
    Ok(Turn::Within(Frame::LocalValue(locals, names), Level::Exp))
}

/// A local is read; what comes after it.
fn after_local(
    reader: &mut Reader<'_>,
    locals: Locals,
    step: LocalStep,
    names: Span,
    height: u32,
) -> Result<Turn, Halt> {
    reader.put(Step::Local(step, names))?;
    let locals = Locals {
        of: locals.of,
        count: locals.count.saturating_add(1),
        height: locals.height.max(height),
    };
    if reader.accept(Symbol::Semicolon) {
        return next_local(reader, locals);
    }
    if !accept_end(reader, locals.of) {
        return Err(Halt::Underivable);
    }
    close(reader, locals)
}

/// The value of `x, = e` is read.
pub(crate) fn resume_local_value(
    reader: &mut Reader<'_>,
    locals: Locals,
    names: Span,
    height: u32,
) -> Result<Turn, Halt> {
    after_local(reader, locals, LocalStep::Value, names, height)
}

/// The type of `x, : T` is read.
pub(crate) fn resume_local_type(
    reader: &mut Reader<'_>,
    locals: Locals,
    names: Span,
    height: u32,
) -> Result<Turn, Halt> {
    let has_value = reader.is_symbol(0, Symbol::Equals);
    let of = if has_value {
        with_value(locals.of)?
    } else {
        with_label(locals.of)?
    };
    let locals = Locals {
        of,
        count: locals.count,
        height: locals.height,
    };
    if !has_value {
        return after_local(reader, locals, LocalStep::Label, names, height);
    }
    reader.pass();
    Ok(Turn::Within(Frame::TypedLocal(locals, names, height), Level::Exp))
}

/// The value of `x, : T = e` is read.
pub(crate) fn resume_typed_local(
    reader: &mut Reader<'_>,
    locals: Locals,
    names: Span,
    height: u32,
) -> Result<Turn, Halt> {
    after_local(reader, locals, LocalStep::TypedValue, names, height)
}
