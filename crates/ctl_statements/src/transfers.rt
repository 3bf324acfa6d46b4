//! Exits and returns (RM 5.7, 6.5).

ghost use Rattle.std.specs.Prelude.{◌≡◌, option_map};
ghost use Rattle.ctl_statements.specs.Statements as spec;
ghost use Rattle.ctl_typing.specs.Judgement.{Judges};
ghost use Rattle.ctl_typing.specs.Typing.{sense};

use ctl_draft::draft::{Draft, Giving, Looping, Returning};
use ctl_program::statement::Stmt;
use ctl_syntax::denoted::Use;
use ctl_syntax::expression::Expression;
use ctl_tree::fault::FaultCode;
use ctl_tree::span::Span;
use ctl_typing::expressions::{expression, truth};
use ctl_typing::found::Asked;
use ctl_typing::judging::wrong;
use ctl_typing::notes::Notes;
use ctl_typing::table::Tables;
use std::alloc::{AllocError, Global};

/// Judges the condition of an exit (RM 5.7).
fn exit_by(
    alloc: Global,
    tables: &Tables,
    condition: &Option<Expression<Use>>,
    notes: &mut Notes,
) -> Result<Option<Stmt>, AllocError>
    ensures { Judges (spec.exit_by (option_map sense condition.now) tables.now) notes.old result notes.new }
{
    let Some(x) = condition else {
        return Ok(Some(Stmt::Exit(None)));
    };
    match truth(alloc, tables, x, notes)? {
        Some(test) => Ok(Some(Stmt::Exit(Some(test)))),
        None => Ok(None),
    }
}

/// Judges an exit, which stands in a loop (RM 5.7).
pub fn exiting(
    alloc: Global,
    place: Span,
    looping: Looping,
    condition: &Option<Expression<Use>>,
    draft: &mut Draft,
) -> Result<Option<Stmt>, AllocError>
    ensures { Judges (spec.exiting place looping (option_map sense condition.now)) draft.old result draft.new }
{
    match looping {
        Looping::Inside => exit_by(alloc, &draft.tables, condition, &mut draft.notes),
        Looping::Outside => Ok(wrong(FaultCode::Return, place, &mut draft.notes)),
    }
}

/// Judges the value that a return gives.
fn return_value(
    alloc: Global,
    tables: &Tables,
    asked: Asked,
    x: &Expression<Use>,
    notes: &mut Notes,
) -> Result<Option<Stmt>, AllocError>
    ensures { Judges (spec.return_value asked (sense x.now) tables.now) notes.old result notes.new }
{
    match expression(alloc, tables, x, asked, notes)? {
        Some(typed) => Ok(Some(Stmt::Return(Some(typed.value)))),
        None => Ok(None),
    }
}

/// Judges the value of a return where it is not known what that gives: nothing is known of the return.
fn unclear_value(
    alloc: Global,
    tables: &Tables,
    x: &Expression<Use>,
    notes: &mut Notes,
) -> Result<Option<Stmt>, AllocError>
    ensures { Judges (spec.unclear_value (sense x.now) tables.now) notes.old result notes.new }
{
    drop(expression(alloc, tables, x, Asked::Anything, notes)?);
    Ok(None)
}

/// Judges what stands behind `return`, by what the body around gives (RM 6.5).
fn return_by(
    alloc: Global,
    place: Span,
    giving: Giving,
    value: &Option<Expression<Use>>,
    draft: &mut Draft,
) -> Result<Option<Stmt>, AllocError>
    ensures { Judges (spec.return_by place giving (option_map sense value.now)) draft.old result draft.new }
{
    match value {
        None => match giving {
            Giving::Nothing => Ok(Some(Stmt::Return(None))),
            _ => Ok(wrong(FaultCode::Return, place, &mut draft.notes)),
        },
        Some(x) => {
            let tables = &draft.tables;
            let notes = &mut draft.notes;
            match giving {
                Giving::Value(ty) => return_value(alloc, tables, Asked::Exactly(ty), x, notes),
                Giving::Unclear => unclear_value(alloc, tables, x, notes),
                Giving::Nothing => Ok(wrong(FaultCode::Return, place, notes)),
            }
        }
    }
}

/// Judges a return (RM 6.5).
pub fn returning(
    alloc: Global,
    place: Span,
    giving: Giving,
    value: &Option<Expression<Use>>,
    draft: &mut Draft,
) -> Result<Option<Stmt>, AllocError>
    ensures { Judges (spec.returning place giving (option_map sense value.now)) draft.old result draft.new }
{
    draft.returning = Returning::Somewhere;
    return_by(alloc, place, giving, value, draft)
}
