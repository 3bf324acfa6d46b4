//! What declarations of types declare (RM 3.8, 3.9.1, 3.10, 8.3).

ghost use Rattle.std.specs.Prelude.{◌≡◌, IfOk};
ghost use Rattle.ctl_resolve.specs.Naming.{Names};
ghost use Rattle.ctl_resolve.specs.Declarations as spec;

use crate::copies::{folded, identifier};
use crate::declarations::{declare_name, is_taken, new_name, next, own_found};
use crate::notes::note_if;
use crate::view::{Known, Progress, Sought, Stage, View};
use ctl_syntax::denoted::Definition;
use ctl_syntax::name::Identifier;
use ctl_tree::fault::FaultCode;
use ctl_tree::span::Span;
use std::alloc::{AllocError, Global};

/// Notes a type behind the first body of its part.
pub fn note_order(view: &mut View, at: Span)
    ensures { view.new ≡ spec.note_order at view.old }
{
    let is_behind = match view.part.progress {
        Progress::BehindBody => true,
        Progress::BeforeBodies => false,
    };
    note_if(view, is_behind, FaultCode::Order, at);
}

/// Answers how far an incomplete declaration has come at its end: a second one waits for nothing.
fn promised(is_second: bool) -> Stage
    ensures { result ≡ spec.promised is_second }
{
    if is_second {
        Stage::Complete
    } else {
        Stage::Incomplete
    }
}

/// Declares an incomplete type (RM 3.10.1).
pub fn incomplete(alloc: Global, view: &mut View, id: &Identifier) -> Result<Definition, AllocError>
    ensures { Names (spec.incomplete id.now) view.old result view.new }
{
    let is_second = is_taken(alloc, view, id)?;
    new_name(alloc, view, promised(is_second), id)
}

/// Begins a full type: it completes this declaration, or declares a new type.
fn begun_type_as(
    alloc: Global,
    view: &mut View,
    id: &Identifier,
    completed: Option<Known>,
) -> Result<(Definition, Stage), AllocError>
    ensures { Names (spec.begun_type_as id.now completed) view.old result view.new }
{
    match completed {
        Some(known) => Ok((
            Definition {
                identifier: identifier(alloc, id)?,
                number: known.number,
                level: known.level,
            },
            Stage::Incomplete,
        )),
        None => {
            let definition = next(alloc, view, id)?;
            declare_name(alloc, view, Stage::Hidden, id)?;
            Ok((definition, Stage::Complete))
        }
    }
}

/// Begins a full type, and answers how far it has come from the word `record` on (RM 8.3(17)).
pub fn begun_type(
    alloc: Global,
    view: &mut View,
    id: &Identifier,
) -> Result<(Definition, Stage), AllocError>
    ensures { Names (spec.begun_type id.now) view.old result view.new }
{
    let name = folded(alloc, id)?;
    let completed = own_found(view, Sought::Incomplete, name.as_slice());
    begun_type_as(alloc, view, id, completed)
}
