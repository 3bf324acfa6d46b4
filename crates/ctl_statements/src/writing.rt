//! Variables that a call writes to (RM 6.4.1).

ghost use Rattle.ctl_statements.specs.Statements as spec;
ghost use Rattle.ctl_typing.specs.Judgement.{Judges};
ghost use Rattle.ctl_typing.specs.Typing.{sense};

use ctl_program::expression::Name;
use ctl_program::types::Ty;
use ctl_syntax::denoted::Use;
use ctl_syntax::expression::Expression;
use ctl_typing::expressions::variable_of;
use ctl_typing::names::name_at;
use ctl_typing::notes::Notes;
use ctl_typing::table::Tables;
use std::alloc::{AllocError, Global};

/// Judges an actual that the call writes to: a variable of a type.
pub fn writing(
    alloc: Global,
    tables: &Tables,
    ty: Ty,
    x: &Expression<Use>,
    notes: &mut Notes,
) -> Result<Option<Name>, AllocError>
    ensures { Judges (spec.writing tables.now ty (sense x.now)) notes.old result notes.new }
{
    match variable_of(alloc, tables, x, ty, notes)? {
        Some(part) => Ok(Some(name_at(alloc, part.head, part.steps)?)),
        None => Ok(None),
    }
}
