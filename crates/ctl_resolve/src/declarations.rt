//! What regions declare: names, and what stands in their declarations (RM 8.1, 8.3).

ghost use Rattle.std.specs.Prelude.{◌≡◌, [], IfOk, OnOk, drop};
ghost use Rattle.ctl_resolve.specs.declared.view.Role.TheVariants as role;
ghost use Rattle.ctl_resolve.specs.Table.{folded};
ghost use Rattle.ctl_resolve.specs.Naming as naming;
ghost use Rattle.ctl_resolve.specs.Naming.{Names};
ghost use Rattle.ctl_resolve.specs.Declarations as spec;

use crate::copies::{folded, identifier};
use crate::library::operation_named;
use crate::lists::{added, room_for};
use crate::notes::note_if;
use crate::table::is_overridden;
use crate::view::{Declaration, Known, Role, Sought, Stage, View};
use ctl_syntax::denoted::{Definition, OperationName};
use ctl_syntax::name::Identifier;
use ctl_tree::fault::FaultCode;
use sqlite_items::Items;
use std::alloc::{AllocError, Global};

/// Answers the declaration, if the region that is read has it.
fn own(view: &View, found: Option<Known>) -> Option<Known>
    ensures { result ≡ spec.own view.now found }
{
    match found {
        Some(known) => if view.part.start <= known.number {
            Some(known)
        } else {
            None
        },
        None => None,
    }
}

/// Finds the declaration of the region that is sought.
pub fn own_found(view: &View, sought: Sought, key: &[u8]) -> Option<Known>
    ensures { result ≡ spec.own_found view.now sought key.now }
{
    own(view, view.table.find(sought, key))
}

/// Answers those behind so many.
pub fn behind(declarations: &[Declaration], count: usize) -> &[Declaration]
    ensures { result.now ≡ drop count declarations.now }
{
    declarations.get(count..).unwrap_or(&[])
}

/// Tells whether the region overrides an operation.
fn is_overridden_here(view: &View, operation: Option<OperationName>) -> bool
    ensures { result ≡ spec.is_overridden_here view.now operation }
{
    match operation {
        None => false,
        Some(operation) => is_overridden(
            operation,
            behind(view.table.declarations(), view.part.start),
        ),
    }
}

/// Tells whether the region declares a name.
pub fn is_taken(alloc: Global, view: &View, id: &Identifier) -> Result<bool, AllocError>
    ensures { IfOk result (λ taken. taken ≡ spec.is_taken view.now id.now) }
{
    let name = folded(alloc, id)?;
    let found = own_found(view, Sought::Direct, name.as_slice());
    Ok(found.is_some() || is_overridden_here(view, operation_named(id.text.as_bytes())))
}

/// Answers the definition of a name that is declared next.
pub fn next(alloc: Global, view: &View, id: &Identifier) -> Result<Definition, AllocError>
    ensures { IfOk result (λ d. d ≡ spec.next view.now id.now) }
{
    Ok(Definition {
        identifier: identifier(alloc, id)?,
        number: view.table.count(),
        level: view.part.level,
    })
}

/// Declares a name as far as this, known by this role.
fn declare(
    alloc: Global,
    view: &mut View,
    role: Role,
    stage: Stage,
    id: &Identifier,
) -> Result<(), AllocError>
    ensures { OnOk result (view.new ≡ naming.declare (folded id.now) role stage id.now.span view.old) }
{
    let name = folded(alloc, id)?;
    let level = view.part.level;
    view.table.push(name, role, stage, level, id.span)
}

/// Answers what a declaration of this role is known by: a second one of its region declares nothing.
pub fn role_as(is_second: bool, role: Role) -> Role
    ensures { result ≡ spec.role_as is_second role }
{
    if is_second { Role::Repeated } else { role }
}

/// Hides a name in its own declaration.
pub fn hide(alloc: Global, view: &mut View, id: &Identifier) -> Result<(), AllocError>
    ensures { OnOk result (view.new ≡ spec.hide id.now view.old) }
{
    declare(alloc, view, Role::Direct, Stage::Hidden, id)
}

/// Hides names in their own declaration.
pub fn hide_each(alloc: Global, view: &mut View, ids: &[Identifier]) -> Result<(), AllocError>
    ensures { OnOk result (view.new ≡ spec.hide_each ids.now view.old) }
{
    for id in ids {
        hide(alloc, view, id)?;
    }
    Ok(())
}

/// Declares a name, and notes a second declaration of it in the region.
pub fn declare_name(
    alloc: Global,
    view: &mut View,
    stage: Stage,
    id: &Identifier,
) -> Result<(), AllocError>
    ensures { OnOk result (view.new ≡ spec.declare_name stage id.now view.old) }
{
    let taken = is_taken(alloc, view, id)?;
    note_if(view, taken, FaultCode::Duplicate, id.span);
    declare(alloc, view, role_as(taken, Role::Direct), stage, id)
}

/// Declares a name, and answers its definition.
#[tactic(auto, unfolding(crate::specs::Declarations::new_name))]
pub fn new_name(
    alloc: Global,
    view: &mut View,
    stage: Stage,
    id: &Identifier,
) -> Result<Definition, AllocError>
    ensures { Names (spec.new_name stage id.now) view.old result view.new }
{
    let definition = next(alloc, view, id)?;
    declare_name(alloc, view, stage, id)?;
    Ok(definition)
}

/// Declares names, each in turn.
pub fn new_names(
    alloc: Global,
    view: &mut View,
    ids: &[Identifier],
) -> Result<Items<Definition>, AllocError>
    ensures { Names (spec.new_names ids.now) view.old result view.new }
{
    let mut definitions = room_for(alloc, ids.len())?;
    for id in ids {
        definitions = added(definitions, new_name(alloc, view, Stage::Complete, id))?;
    }
    Ok(definitions)
}
