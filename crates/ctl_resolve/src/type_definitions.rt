//! Names in the definitions of types (RM 3.8, 3.9.1, 3.10).

ghost use Rattle.std.specs.Prelude.{◌≡◌, []};
ghost use Rattle.ctl_resolve.specs.Naming.{Names};
ghost use Rattle.ctl_resolve.specs.Declarations as spec;

use crate::copies::identifiers;
use crate::expressions::expression_or_none;
use crate::lists::{added, room_for};
use crate::names::mark;
use crate::notes::set_stage;
use crate::subprograms::mark_or_none;
use crate::types::begun_type;
use crate::view::{Stage, Usage, View};
use ctl_syntax::denoted::{Definition, Use};
use ctl_syntax::item::{Components, Definition as TypeDefinition};
use ctl_syntax::name::Identifier;
use sqlite_items::Items;
use std::alloc::{AllocError, Global};

/// Resolves the names in components of one type: a component itself is no direct name (RM 4.1.3, 8.3).
fn component(
    alloc: Global,
    view: &mut View,
    of: &Components<Identifier>,
) -> Result<Components<Use>, AllocError>
    ensures { Names (spec.component of.now) view.old result view.new }
{
    let names = identifiers(alloc, of.names.as_slice())?;
    let mark = mark(alloc, view, Usage::Plain, &of.mark)?;
    let default = expression_or_none(alloc, view, &of.default)?;
    Ok(Components {
        names,
        mark,
        default,
    })
}

/// Resolves the names in the components of a record, each in turn (RM 3.8).
fn components(
    alloc: Global,
    view: &mut View,
    all: &[Components<Identifier>],
) -> Result<Items<Components<Use>>, AllocError>
    ensures { Names (spec.components all.now) view.old result view.new }
{
    let mut resolved = room_for(alloc, all.len())?;
    for one in all {
        resolved = added(resolved, component(alloc, view, one))?;
    }
    Ok(resolved)
}

/// Resolves the names in the definition of the type of this number, which comes as far as this at the word `record` (RM 8.3(17)); the
/// designated type may be incomplete (RM 3.10.1).
fn type_defined(
    alloc: Global,
    view: &mut View,
    number: usize,
    stage: Stage,
    of: &TypeDefinition<Identifier>,
) -> Result<TypeDefinition<Use>, AllocError>
    ensures { Names (spec.type_defined number stage of.now) view.old result view.new }
{
    match of {
        TypeDefinition::Record(limitation, all) => {
            set_stage(view, number, stage);
            let components = components(alloc, view, all.as_slice())?;
            Ok(TypeDefinition::Record(*limitation, components))
        }
        TypeDefinition::Extension(parent, all) => {
            let parent = mark(alloc, view, Usage::Plain, parent)?;
            set_stage(view, number, stage);
            let components = components(alloc, view, all.as_slice())?;
            Ok(TypeDefinition::Extension(parent, components))
        }
        TypeDefinition::Access(generality, designated, coverage, pool) => {
            let designated = mark(alloc, view, Usage::Designated, designated)?;
            let pool = mark_or_none(alloc, view, pool)?;
            Ok(TypeDefinition::Access(*generality, designated, *coverage, pool))
        }
    }
}

/// Declares a full type, or completes an incomplete one of its region, and resolves its definition (RM 3.2.1, 3.10.1).
pub fn full_type(
    alloc: Global,
    view: &mut View,
    id: &Identifier,
    of: &TypeDefinition<Identifier>,
) -> Result<(Definition, TypeDefinition<Use>), AllocError>
    ensures { Names (spec.full_type id.now of.now) view.old result view.new }
{
    let (definition, stage) = begun_type(alloc, view, id)?;
    let number = definition.number;
    let resolved = type_defined(alloc, view, number, stage, of)?;
    set_stage(view, number, Stage::Complete);
    Ok((definition, resolved))
}
