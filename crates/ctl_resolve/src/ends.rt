//! The end of a declarative part (RM 3.11.1), and the choices of exception handlers (RM 11.2).

ghost use Rattle.std.specs.Prelude.{◌≡◌, [], OnOk};
ghost use Rattle.ctl_resolve.specs.Naming.{Names, each};
ghost use Rattle.ctl_resolve.specs.Expressions as expressions;
ghost use Rattle.ctl_resolve.specs.Parts as spec;
ghost use Rattle.ctl_resolve.specs.Table as table;
ghost use Rattle.ctl_resolve.specs.declared.view.Usage.TheVariants as usage;

use crate::copies::folded;
use crate::declarations::behind;
use crate::lists::{added, room_for};
use crate::names::mark;
use crate::notes::note_if;
use crate::table::Table;
use crate::view::{Declaration, Role, Sought, Stage, Usage, View};
use ctl_syntax::denoted::Use;
use ctl_syntax::item::{Choices, Handler, Statement};
use ctl_syntax::name::{Identifier, Mark};
use ctl_tree::fault::{Fault, FaultCode};
use sqlite_items::Items;
use std::alloc::{AllocError, Global};

/// Tells whether a declaration wants a completion.
fn waits(stage: Stage) -> bool
    ensures { result ≡ table.waits stage }
{
    match stage {
        Stage::Bodiless | Stage::Incomplete => true,
        Stage::Hidden | Stage::Complete => false,
    }
}

/// Answers the first of a fault and those of declarations that are not completed.
fn unfinished(so_far: Option<Fault>, declarations: &[Declaration]) -> Option<Fault>
    ensures { result ≡ spec.unfinished so_far declarations.now }
{
    let mut fault = so_far;
    for declaration in declarations {
        if waits(declaration.stage) {
            fault = Fault::first_of(fault, Fault::at(FaultCode::NoBody, declaration.span));
        }
    }
    fault
}

/// Notes the declarations that the part does not complete.
pub fn note_unfinished(view: &mut View)
    ensures { view.new ≡ spec.note_unfinished view.old }
{
    let declarations = behind(view.table.declarations(), view.part.start);
    let fault = unfinished(view.fault, declarations);
    view.fault = fault;
}

/// Resolves marks, each in turn.
fn marks(
    alloc: Global,
    view: &mut View,
    all: &[Mark<Identifier>],
) -> Result<Items<Mark<Use>>, AllocError>
    ensures { Names (each (expressions.mark usage.Plain) [] all.now) view.old result view.new }
{
    let mut resolved = room_for(alloc, all.len())?;
    for one in all {
        resolved = added(resolved, mark(alloc, view, Usage::Plain, one))?;
    }
    Ok(resolved)
}

/// Resolves the choices of a handler.
pub fn choices(
    alloc: Global,
    view: &mut View,
    of: &Choices<Identifier>,
) -> Result<Choices<Use>, AllocError>
    ensures { Names (spec.choices of.now) view.old result view.new }
{
    match of {
        Choices::Others => Ok(Choices::Others),
        Choices::Exceptions(all) => {
            let resolved = marks(alloc, view, all.as_slice())?;
            Ok(Choices::Exceptions(resolved))
        }
    }
}

/// Adds a choice to those so far, and notes it if it stands there already.
fn chosen(
    alloc: Global,
    seen: &mut Table,
    view: &mut View,
    id: &Identifier,
) -> Result<(), AllocError>
    ensures { OnOk result (spec.chosen id.now (seen.old, view.old) ≡ (seen.new, view.new)) }
{
    let name = folded(alloc, id)?;
    let again = seen.find(Sought::Direct, name.as_slice()).is_some();
    note_if(view, again, FaultCode::Duplicate, id.span);
    seen.push(name, Role::Direct, Stage::Complete, 0, id.span)
}

/// Adds a choice to those so far, if it is an identifier alone.
fn chosen_alone(
    alloc: Global,
    seen: &mut Table,
    view: &mut View,
    first: &Identifier,
    rest: &[Identifier],
) -> Result<(), AllocError>
    ensures { OnOk result (spec.chosen_alone first.now rest.now (seen.old, view.old) ≡ (seen.new, view.new)) }
{
    match rest {
        [] => chosen(alloc, seen, view, first),
        _ => Ok(()),
    }
}

/// Adds choices to those so far.
fn chosen_each(
    alloc: Global,
    seen: &mut Table,
    view: &mut View,
    all: &[Mark<Identifier>],
) -> Result<(), AllocError>
    ensures { OnOk result (spec.chosen_each all.now (seen.old, view.old) ≡ (seen.new, view.new)) }
{
    for one in all {
        chosen_alone(alloc, seen, view, &one.first, one.rest.as_slice())?;
    }
    Ok(())
}

/// Adds the choices of a handler to those so far.
fn chosen_by(
    alloc: Global,
    seen: &mut Table,
    view: &mut View,
    of: &Choices<Identifier>,
) -> Result<(), AllocError>
    ensures { OnOk result (spec.chosen_by of.now (seen.old, view.old) ≡ (seen.new, view.new)) }
{
    match of {
        Choices::Others => Ok(()),
        Choices::Exceptions(all) => chosen_each(alloc, seen, view, all.as_slice()),
    }
}

/// Adds the choices of handlers to those so far.
fn chosen_in(
    alloc: Global,
    seen: &mut Table,
    view: &mut View,
    all: &[Handler<Statement<Identifier, Identifier>, Identifier>],
) -> Result<(), AllocError>
    ensures { OnOk result (spec.chosen_in all.now (seen.old, view.old) ≡ (seen.new, view.new)) }
{
    for one in all {
        chosen_by(alloc, seen, view, &one.choices)?;
    }
    Ok(())
}

/// Notes a second choice of one name among all choices of an exception part (RM 11.2).
pub fn note_choices(
    alloc: Global,
    view: &mut View,
    all: &[Handler<Statement<Identifier, Identifier>, Identifier>],
) -> Result<(), AllocError>
    ensures { OnOk result (view.new ≡ spec.note_choices all.now view.old) }
{
    let mut seen = Table::new(alloc);
    chosen_in(alloc, &mut seen, view, all)
}
