//! Objects and instances, and the clauses of storage pools (RM 3.3.1, 12.3, 13.11).

ghost use Rattle.std.specs.Prelude.{◌≡◌, [], ◌∷◌};
ghost use Rattle.ctl_resolve.specs.Naming.{Names};
ghost use Rattle.ctl_resolve.specs.Declarations as spec;
ghost use Rattle.ctl_resolve.specs.Parts as parts;

use crate::copies::identifier_or_none;
use crate::declarations::{hide, hide_each, new_name, new_names};
use crate::expressions::{expression, expression_or_none};
use crate::lists::{added, room_for};
use crate::names::{mark, used};
use crate::notes::cut;
use crate::pairs::paired;
use crate::view::{Stage, Usage, View};
use ctl_syntax::denoted::{Definition, Use};
use ctl_syntax::expression::Expression;
use ctl_syntax::item::{Association, Body, ItemKind, Objects};
use ctl_syntax::name::{Identifier, Mark};
use sqlite_items::{Boxed, Items};
use std::alloc::{AllocError, Global};

/// Resolves the names in a discriminant or an actual (RM 3.7.1, 12.3).
fn association(
    alloc: Global,
    view: &mut View,
    of: &Association<Identifier>,
) -> Result<Association<Use>, AllocError>
    ensures { Names (spec.association of.now) view.old result view.new }
{
    let name = identifier_or_none(alloc, &of.name)?;
    let value = expression(alloc, view, &of.value)?;
    Ok(Association { name, value })
}

/// Resolves the names in discriminants or actuals, each in turn.
fn associations(
    alloc: Global,
    view: &mut View,
    all: &[Association<Identifier>],
) -> Result<Items<Association<Use>>, AllocError>
    ensures { Names (spec.associations all.now) view.old result view.new }
{
    let mut resolved = room_for(alloc, all.len())?;
    for one in all {
        resolved = added(resolved, association(alloc, view, one))?;
    }
    Ok(resolved)
}

/// Resolves the generic unit of an instance, and its actuals (RM 12.3).
fn instance_of(
    alloc: Global,
    view: &mut View,
    unit: &Mark<Identifier>,
    actuals: &[Association<Identifier>],
) -> Result<(Mark<Use>, Items<Association<Use>>), AllocError>
    ensures { Names (spec.instance_of unit.now actuals.now) view.old result view.new }
{
    let unit = mark(alloc, view, Usage::Plain, unit)?;
    let actuals = associations(alloc, view, actuals)?;
    Ok((unit, actuals))
}

/// Declares an instance, whose name is hidden in its declaration (RM 8.3(17), 12.3).
pub fn instance(
    alloc: Global,
    view: &mut View,
    id: &Identifier,
    unit: &Mark<Identifier>,
    actuals: &[Association<Identifier>],
) -> Result<ItemKind<Definition, Use, Boxed<Body<Definition, Use>>>, AllocError>
    ensures { Names (parts.instance id.now unit.now actuals.now) view.old result view.new }
{
    let count = view.table.count();
    hide(alloc, view, id)?;
    let parts = instance_of(alloc, view, unit, actuals)?;
    cut(view, count);
    let (parts, definition) = paired(parts, new_name(alloc, view, Stage::Complete, id))?;
    let (unit, actuals) = parts;
    Ok(ItemKind::Instance(definition, unit, actuals))
}

/// Resolves a clause that gives a type its storage pool (RM 13.11).
pub fn storage_pool(
    alloc: Global,
    view: &mut View,
    id: &Identifier,
    pool: &Mark<Identifier>,
) -> Result<ItemKind<Definition, Use, Boxed<Body<Definition, Use>>>, AllocError>
    ensures { Names (parts.storage_pool id.now pool.now) view.old result view.new }
{
    let (subject, _) = used(alloc, view, Usage::Plain, id, &[])?;
    let pool = mark(alloc, view, Usage::Plain, pool)?;
    Ok(ItemKind::StoragePool(subject, pool))
}

/// Resolves what stands in the declaration of objects: the type, the discriminants and the value.
fn object_of(
    alloc: Global,
    view: &mut View,
    of: &Objects<Identifier, Identifier>,
) -> Result<(Mark<Use>, Items<Association<Use>>, Option<Expression<Use>>), AllocError>
    ensures { Names (spec.object_of of.now) view.old result view.new }
{
    let mark = mark(alloc, view, Usage::Plain, &of.mark)?;
    let parts = paired(mark, associations(alloc, view, of.discriminants.as_slice()))?;
    let (parts, value) = paired(parts, expression_or_none(alloc, view, &of.value))?;
    let (mark, discriminants) = parts;
    Ok((mark, discriminants, value))
}

/// Resolves what stands in the declaration of objects, where their names are hidden (RM 8.3(17)).
fn hidden_object_of(
    alloc: Global,
    view: &mut View,
    of: &Objects<Identifier, Identifier>,
) -> Result<(Mark<Use>, Items<Association<Use>>, Option<Expression<Use>>), AllocError>
    ensures { Names (spec.hidden_in of.now.names (spec.object_of of.now)) view.old result view.new }
{
    let count = view.table.count();
    hide_each(alloc, view, of.names.as_slice())?;
    let resolved = object_of(alloc, view, of)?;
    cut(view, count);
    Ok(resolved)
}

/// Declares objects, whose names are hidden in their declaration (RM 3.3.1, 8.3(17)).
pub fn objects(
    alloc: Global,
    view: &mut View,
    of: &Objects<Identifier, Identifier>,
) -> Result<Objects<Definition, Use>, AllocError>
    ensures { Names (spec.objects of.now) view.old result view.new }
{
    let parts = hidden_object_of(alloc, view, of)?;
    let (parts, names) = paired(parts, new_names(alloc, view, of.names.as_slice()))?;
    let (mark, discriminants, value) = parts;
    Ok(Objects {
        names,
        aliasing: of.aliasing,
        constancy: of.constancy,
        mark,
        discriminants,
        value,
    })
}
