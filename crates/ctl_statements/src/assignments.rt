//! Assignments (RM 5.2).

ghost use Rattle.std.specs.Prelude.{◌≡◌, map};
ghost use Rattle.ctl_statements.specs.Statements as spec;
ghost use Rattle.ctl_typing.specs.Judgement.{Answers, Judges};
ghost use Rattle.ctl_typing.specs.Senses.{suffix_sense};
ghost use Rattle.ctl_typing.specs.Typing.{sense};

use ctl_program::expression::{Actual, Expr, Name};
use ctl_program::statement::Stmt;
use ctl_program::types::Ty;
use ctl_syntax::denoted::Use;
use ctl_syntax::expression::Expression;
use ctl_syntax::name::Name as SourceName;
use ctl_tree::fault::FaultCode;
use ctl_tree::span::Span;
use ctl_typing::actuals::handed_on;
use ctl_typing::expressions::{expression, found};
use ctl_typing::found::{Asked, Found, Place};
use ctl_typing::judging::{doing, is_same, note, refused, wrong};
use ctl_typing::lookup::is_limited;
use ctl_typing::names::{name_at, settled};
use ctl_typing::notes::{Deed, Notes};
use ctl_typing::table::Tables;
use ctl_typing::variables::as_variable;
use std::alloc::{AllocError, Global};

/// What an assignment writes.
#[derive(Drop)]
pub enum Source {
    /// a value that is no record
    Value(Expr),
    /// a record of this type
    Record(usize, Actual),
}

/// What an assignment writes to: its name and its type.
#[derive(Drop)]
pub struct Target {
    pub name: Name,
    pub ty: Ty,
}

/// Notes where a target is limited (RM 7.5).
fn limited_kept(tables: &Tables, place: Span, target: Target, notes: &mut Notes) -> Option<Target>
    ensures { Answers (spec.limited_kept tables.now place target) notes.old result notes.new }
{
    if is_limited(tables, target.ty) {
        note(notes, FaultCode::Limited, place);
    }
    Some(target)
}

/// Judges a part as what an assignment writes to.
fn target_part(
    alloc: Global,
    tables: &Tables,
    place: Span,
    part: Place,
    notes: &mut Notes,
) -> Result<Option<Target>, AllocError>
    ensures { Judges (spec.target_part tables.now place part) notes.old result notes.new }
{
    let mutability = part.mutability;
    let target = Target {
        ty: part.ty,
        name: name_at(alloc, part.head, part.steps)?,
    };
    let Some(target) = as_variable(place, mutability, target, notes) else {
        return Ok(None);
    };
    Ok(limited_kept(tables, place, target, notes))
}

/// Judges what a name is as what an assignment writes to: a variable that is not limited.
fn target_found(
    alloc: Global,
    tables: &Tables,
    place: Span,
    found: Found,
    notes: &mut Notes,
) -> Result<Option<Target>, AllocError>
    ensures { Judges (spec.target_found tables.now place found) notes.old result notes.new }
{
    match found {
        Found::Part(part) => target_part(alloc, tables, place, part, notes),
        Found::Computed(_) | Found::Discriminant(_, _) => {
            Ok(refused(found, FaultCode::Mode, place, notes))
        }
        _ => Ok(refused(found, FaultCode::Type, place, notes)),
    }
}

/// Judges a name as what an assignment writes to.
fn written_to(
    alloc: Global,
    tables: &Tables,
    name: &SourceName<Use, Expression<Use>>,
    notes: &mut Notes,
) -> Result<Option<Target>, AllocError>
    ensures { Judges (spec.target tables.now name.now.first (map suffix_sense name.now.suffixes)) notes.old result notes.new }
{
    let place = name.first.span;
    let Some(found) = found(alloc, tables, name, notes)? else {
        return Ok(None);
    };
    let Some(found) = settled(alloc, tables, place, found, notes) else {
        return Ok(None);
    };
    target_found(alloc, tables, place, found, notes)
}

/// Judges a part as the record that is assigned.
fn record_part(
    alloc: Global,
    place: Span,
    number: usize,
    part: Place,
    notes: &mut Notes,
) -> Result<Option<Source>, AllocError>
    ensures { Judges (spec.record_part place number part) notes.old result notes.new }
{
    if !is_same(Ty::Record(number), part.ty) {
        drop(part);
        return Ok(wrong(FaultCode::Type, place, notes));
    }
    let ty = part.ty;
    let source = Source::Record(number, handed_on(alloc, part.head, part.steps, part.ty)?);
    doing(Deed::Freezes(ty), source, notes)
}

/// Judges what a name is as the record that is assigned: a view of it is none (profile).
fn record_source(
    alloc: Global,
    place: Span,
    number: usize,
    found: Found,
    notes: &mut Notes,
) -> Result<Option<Source>, AllocError>
    ensures { Judges (spec.record_source place number found) notes.old result notes.new }
{
    match found {
        Found::Part(part) => record_part(alloc, place, number, part, notes),
        _ => Ok(refused(found, FaultCode::Type, place, notes)),
    }
}

/// Judges a name as the record that is assigned.
fn record_named(
    alloc: Global,
    tables: &Tables,
    place: Span,
    number: usize,
    name: &SourceName<Use, Expression<Use>>,
    notes: &mut Notes,
) -> Result<Option<Source>, AllocError>
    ensures { Judges (spec.record_named tables.now place number name.now.first (map suffix_sense name.now.suffixes)) notes.old result notes.new }
{
    let Some(found) = found(alloc, tables, name, notes)? else {
        return Ok(None);
    };
    let Some(found) = settled(alloc, tables, place, found, notes) else {
        return Ok(None);
    };
    record_source(alloc, place, number, found, notes)
}

/// Judges an expression as the value that is assigned.
fn value_source(
    alloc: Global,
    tables: &Tables,
    x: &Expression<Use>,
    asked: Asked,
    notes: &mut Notes,
) -> Result<Option<Source>, AllocError>
    ensures { Judges (spec.value_source tables.now (sense x.now) asked) notes.old result notes.new }
{
    match expression(alloc, tables, x, asked, notes)? {
        Some(typed) => Ok(Some(Source::Value(typed.value))),
        None => Ok(None),
    }
}

/// Judges an expression as the record that is assigned: a name, perhaps in parentheses, or a value.
fn source_of_record(
    alloc: Global,
    tables: &Tables,
    number: usize,
    x: &Expression<Use>,
    notes: &mut Notes,
) -> Result<Option<Source>, AllocError>
    ensures { Judges (spec.source_of_record tables.now (sense x.now).within number (sense x.now) (sense x.now).named) notes.old result notes.new }
{
    match x {
        Expression::Name(place, name) => record_named(alloc, tables, *place, number, name, notes),
        Expression::Parentheses(_, inner) => {
            source_of_record(alloc, tables, number, inner.get(), notes)
        }
        _ => value_source(alloc, tables, x, Asked::Exactly(Ty::Record(number)), notes),
    }
}

/// Judges what is assigned to a target of a type.
fn written(
    alloc: Global,
    tables: &Tables,
    ty: Ty,
    x: &Expression<Use>,
    notes: &mut Notes,
) -> Result<Option<Source>, AllocError>
    ensures { Judges (spec.source_of_type tables.now ty (sense x.now)) notes.old result notes.new }
{
    match ty {
        Ty::Record(number) => source_of_record(alloc, tables, number, x, notes),
        _ => value_source(alloc, tables, x, Asked::Exactly(ty), notes),
    }
}

/// Makes an assignment.
fn assigning(to: Name, source: Source) -> Stmt
    ensures { result ≡ spec.assigning to source }
{
    match source {
        Source::Value(value) => Stmt::Assign(to, value),
        Source::Record(number, value) => Stmt::AssignRecord(to, number, value),
    }
}

/// Judges an assignment: first the target, and by its type the value; where the target is wrong itself, the value is judged alone.
pub fn assignment(
    alloc: Global,
    tables: &Tables,
    to: &SourceName<Use, Expression<Use>>,
    x: &Expression<Use>,
    notes: &mut Notes,
) -> Result<Option<Stmt>, AllocError>
    ensures { Judges (spec.assignment to.now.first (map suffix_sense to.now.suffixes) (sense x.now) tables.now) notes.old result notes.new }
{
    let Some(target) = written_to(alloc, tables, to, notes)? else {
        drop(value_source(alloc, tables, x, Asked::Anything, notes)?);
        return Ok(None);
    };
    match written(alloc, tables, target.ty, x, notes)? {
        Some(source) => Ok(Some(assigning(target.name, source))),
        None => Ok(None),
    }
}
