//! Explicit calls of the operations of controlled types and of pools (RM 7.6, 13.11).

ghost use Rattle.std.specs.Prelude.{◌≡◌, ◌∷◌, map, slice_get};
ghost use Rattle.ctl_draft.specs.Operations as operation_spec;
ghost use Rattle.ctl_statements.specs.Statements as spec;
ghost use Rattle.ctl_typing.specs.Judgement.{Answers, Judges};
ghost use Rattle.ctl_typing.specs.Senses.{suffix_sense};
ghost use Rattle.ctl_typing.specs.Typing.{sense};

use crate::writing::writing;
use ctl_draft::operations::{operation_formals, provides};
use ctl_program::expression::{Expr, Name as CheckedName};
use ctl_program::statement::Stmt;
use ctl_program::types::{Operations, Ty};
use ctl_syntax::denoted::{OperationName, Use};
use ctl_syntax::expression::Expression;
use ctl_syntax::name::Name;
use ctl_tree::fault::FaultCode;
use ctl_tree::span::Span;
use ctl_typing::expressions::{actuals, expression, found};
use ctl_typing::found::{Asked, Found, discard};
use ctl_typing::joining::paired_with;
use ctl_typing::judging::wrong;
use ctl_typing::lookup::{is_limited, root_of};
use ctl_typing::names::settled;
use ctl_typing::notes::Notes;
use ctl_typing::table::Tables;
use std::alloc::{AllocError, Global};

/// Answers the type of what the first actual names.
fn operand_found(place: Span, found: &Found, notes: &mut Notes) -> Option<Ty>
    ensures { Answers (spec.operand_found place found.now) notes.old result notes.new }
{
    match found {
        Found::Part(part) | Found::View(part) => Some(part.ty),
        Found::Computed(typed) => Some(typed.ty),
        Found::Discriminant(_, _) => Some(Ty::Count),
        _ => wrong(FaultCode::Type, place, notes),
    }
}

/// Answers the type of a name that is the first actual.
fn operand_named(
    alloc: Global,
    tables: &Tables,
    place: Span,
    name: &Name<Use, Expression<Use>>,
    notes: &mut Notes,
) -> Result<Option<Ty>, AllocError>
    ensures { Judges (spec.operand_named tables.now place name.now.first (map suffix_sense name.now.suffixes)) notes.old result notes.new }
{
    let Some(found) = found(alloc, tables, name, notes)? else {
        return Ok(None);
    };
    match settled(alloc, tables, place, found, notes) {
        Some(found) => {
            let ty = operand_found(place, &found, notes);
            discard(found);
            Ok(ty)
        }
        None => Ok(None),
    }
}

/// Answers the type of a value that is the first actual.
fn operand_value(
    alloc: Global,
    tables: &Tables,
    x: &Expression<Use>,
    notes: &mut Notes,
) -> Result<Option<Ty>, AllocError>
    ensures { Judges (spec.operand_value tables.now (sense x.now)) notes.old result notes.new }
{
    match expression(alloc, tables, x, Asked::Anything, notes)? {
        Some(typed) => {
            let ty = typed.ty;
            drop(typed);
            Ok(Some(ty))
        }
        None => Ok(None),
    }
}

/// Answers the type of the first actual, by which the operation is told.
fn operand_type(
    alloc: Global,
    tables: &Tables,
    x: &Expression<Use>,
    notes: &mut Notes,
) -> Result<Option<Ty>, AllocError>
    ensures { Judges (spec.operand_type tables.now (sense x.now)) notes.old result notes.new }
{
    match x {
        Expression::Name(place, name) => operand_named(alloc, tables, *place, name, notes),
        _ => operand_value(alloc, tables, x, notes),
    }
}

/// Answers the user's subprogram for an operation (RM 7.6, 13.11).
fn user_operation(operation: OperationName, operations: Operations) -> Option<usize>
    ensures { result ≡ operation_spec.user_operation operation operations }
{
    match operation {
        OperationName::Initialize => operations.initialize,
        OperationName::Adjust => operations.adjust,
        OperationName::Finalize => operations.finalize,
        OperationName::Allocate => operations.allocate,
        OperationName::Deallocate => operations.deallocate,
    }
}

/// Answers the user's subprogram for an operation of a record type, if there is one.
fn operation_in(tables: &Tables, operation: OperationName, number: usize) -> Option<usize>
    ensures { result ≡ operation_spec.user_operation operation (operation_spec.operations_of (slice_get tables.now.states.records number)) }
{
    match sqlite_items::at(tables.states.records.as_slice(), number) {
        Some(state) => user_operation(operation, state.operations),
        None => None,
    }
}

/// Judges a call of the user's subprogram for an operation (RM 6.4).
fn user_called(
    alloc: Global,
    tables: &Tables,
    place: Span,
    operation: OperationName,
    ty: Ty,
    subprogram: usize,
    first: &Expression<Use>,
    more: &[Expression<Use>],
    notes: &mut Notes,
) -> Result<Option<Stmt>, AllocError>
    ensures { Judges (spec.user_called tables.now place operation ty subprogram (sense first.now ∷ map sense more.now)) notes.old result notes.new }
{
    let formals = operation_formals(alloc, operation, ty)?;
    match actuals(alloc, tables, place, formals.as_slice(), first, more, notes)? {
        Some(actuals) => Ok(Some(Stmt::Call(subprogram, actuals))),
        None => Ok(None),
    }
}

/// Judges a value of a type.
fn value_as(
    alloc: Global,
    tables: &Tables,
    ty: Ty,
    x: &Expression<Use>,
    notes: &mut Notes,
) -> Result<Option<Expr>, AllocError>
    ensures { Judges (spec.value_as tables.now ty (sense x.now)) notes.old result notes.new }
{
    match expression(alloc, tables, x, Asked::Exactly(ty), notes)? {
        Some(typed) => Ok(Some(typed.value)),
        None => Ok(None),
    }
}

/// Judges a size and an alignment (RM 13.11).
fn measures(
    alloc: Global,
    tables: &Tables,
    size: &Expression<Use>,
    alignment: &Expression<Use>,
    notes: &mut Notes,
) -> Result<Option<(Expr, Expr)>, AllocError>
    ensures { Judges (spec.measures tables.now (sense size.now) (sense alignment.now)) notes.old result notes.new }
{
    let size = value_as(alloc, tables, Ty::Count, size, notes)?;
    paired_with(size, value_as(alloc, tables, Ty::Count, alignment, notes))
}

/// Judges a pool, and the variable that gets an address of it (RM 13.11).
fn pool_and_variable(
    alloc: Global,
    tables: &Tables,
    ty: Ty,
    pool: &Expression<Use>,
    address: &Expression<Use>,
    notes: &mut Notes,
) -> Result<Option<(CheckedName, CheckedName)>, AllocError>
    ensures { Judges (spec.pool_and_variable tables.now ty (sense pool.now) (sense address.now)) notes.old result notes.new }
{
    let pool = writing(alloc, tables, ty, pool, notes)?;
    let address = writing(alloc, tables, Ty::Address, address, notes)?;
    Ok(pool.zip(address))
}

/// Judges a pool, and an address of it (RM 13.11).
fn pool_and_address(
    alloc: Global,
    tables: &Tables,
    ty: Ty,
    pool: &Expression<Use>,
    address: &Expression<Use>,
    notes: &mut Notes,
) -> Result<Option<(CheckedName, Expr)>, AllocError>
    ensures { Judges (spec.pool_and_address tables.now ty (sense pool.now) (sense address.now)) notes.old result notes.new }
{
    let pool = writing(alloc, tables, ty, pool, notes)?;
    let address = value_as(alloc, tables, Ty::Address, address, notes)?;
    Ok(pool.zip(address))
}

/// Judges a call of the library's Allocate (RM 13.11).
fn library_allocate(
    alloc: Global,
    tables: &Tables,
    ty: Ty,
    pool: &Expression<Use>,
    address: &Expression<Use>,
    size: &Expression<Use>,
    alignment: &Expression<Use>,
    notes: &mut Notes,
) -> Result<Option<Stmt>, AllocError>
    ensures { Judges (spec.library_allocate tables.now ty (sense pool.now) (sense address.now) (sense size.now) (sense alignment.now)) notes.old result notes.new }
{
    let written = pool_and_variable(alloc, tables, ty, pool, address, notes)?;
    let measures = measures(alloc, tables, size, alignment, notes)?;
    match written.zip(measures) {
        Some((written, measures)) => {
            let (pool, address) = written;
            let (size, alignment) = measures;
            Ok(Some(Stmt::LibraryAllocate(pool, address, size, alignment)))
        }
        None => Ok(None),
    }
}

/// Judges a call of the library's Deallocate (RM 13.11).
fn library_deallocate(
    alloc: Global,
    tables: &Tables,
    ty: Ty,
    pool: &Expression<Use>,
    address: &Expression<Use>,
    size: &Expression<Use>,
    alignment: &Expression<Use>,
    notes: &mut Notes,
) -> Result<Option<Stmt>, AllocError>
    ensures { Judges (spec.library_deallocate tables.now ty (sense pool.now) (sense address.now) (sense size.now) (sense alignment.now)) notes.old result notes.new }
{
    let read = pool_and_address(alloc, tables, ty, pool, address, notes)?;
    match paired_with(read, measures(alloc, tables, size, alignment, notes))? {
        Some((read, measures)) => {
            let (pool, address) = read;
            let (size, alignment) = measures;
            Ok(Some(Stmt::LibraryDeallocate(pool, address, size, alignment)))
        }
        None => Ok(None),
    }
}

/// Judges a call of an operation of the library that does nothing (RM 7.6).
fn nothing_called(
    alloc: Global,
    tables: &Tables,
    ty: Ty,
    x: &Expression<Use>,
    notes: &mut Notes,
) -> Result<Option<Stmt>, AllocError>
    ensures { Judges (spec.nothing_called tables.now ty (sense x.now)) notes.old result notes.new }
{
    match writing(alloc, tables, ty, x, notes)? {
        Some(name) => Ok(Some(Stmt::Nothing(name))),
        None => Ok(None),
    }
}

/// Judges a call of the library's operation of a type, by the number of its actuals (RM 7.6, 13.11).
fn library_operation(
    alloc: Global,
    tables: &Tables,
    place: Span,
    operation: OperationName,
    ty: Ty,
    first: &Expression<Use>,
    more: &[Expression<Use>],
    notes: &mut Notes,
) -> Result<Option<Stmt>, AllocError>
    ensures { Judges (spec.library_operation tables.now place operation ty (sense first.now ∷ map sense more.now)) notes.old result notes.new }
{
    match (operation, more) {
        (OperationName::Allocate, [address, size, alignment]) => {
            library_allocate(alloc, tables, ty, first, address, size, alignment, notes)
        }
        (OperationName::Deallocate, [address, size, alignment]) => {
            library_deallocate(alloc, tables, ty, first, address, size, alignment, notes)
        }
        (OperationName::Initialize | OperationName::Adjust | OperationName::Finalize, []) => {
            nothing_called(alloc, tables, ty, first, notes)
        }
        _ => Ok(wrong(FaultCode::Type, place, notes)),
    }
}

/// Judges a call of an operation of the type of the first actual (RM 7.6, 13.11).
fn operation_of(
    alloc: Global,
    tables: &Tables,
    place: Span,
    operation: OperationName,
    ty: Ty,
    first: &Expression<Use>,
    more: &[Expression<Use>],
    notes: &mut Notes,
) -> Result<Option<Stmt>, AllocError>
    ensures { Judges (spec.operation_of tables.now place operation (sense first.now ∷ map sense more.now) ty) notes.old result notes.new }
{
    let Ty::Record(number) = ty else {
        return Ok(wrong(FaultCode::Type, place, notes));
    };
    if !provides(root_of(tables, number), is_limited(tables, ty), operation) {
        return Ok(wrong(FaultCode::Type, place, notes));
    }
    match operation_in(tables, operation, number) {
        Some(user) => user_called(
            alloc, tables, place, operation, ty, user, first, more, notes,
        ),
        None => library_operation(alloc, tables, place, operation, ty, first, more, notes),
    }
}

/// Judges an explicit call of an operation: it is one of the operation of the first actual's type, which must be known (RM 7.6, 13.11).
pub fn operation_called(
    alloc: Global,
    tables: &Tables,
    place: Span,
    operation: OperationName,
    first: &Expression<Use>,
    more: &[Expression<Use>],
    notes: &mut Notes,
) -> Result<Option<Stmt>, AllocError>
    ensures { Judges (spec.operation_called tables.now place operation (sense first.now) (map sense more.now)) notes.old result notes.new }
{
    match operand_type(alloc, tables, first, notes)? {
        Some(ty) => operation_of(alloc, tables, place, operation, ty, first, more, notes),
        None => Ok(wrong(FaultCode::Type, place, notes)),
    }
}
