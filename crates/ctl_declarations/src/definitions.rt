//! Types by their definitions (RM 3.2.1).

ghost use Rattle.ctl_declarations.specs.Declarations as spec;
ghost use Rattle.ctl_typing.specs.Judgement.{Yields};

use crate::own_names::keep_name;
use crate::records::{extension, record_type};
use ctl_access_types::accesses::access_type;
use ctl_draft::draft::{Around, Draft};
use ctl_program::statement::Item;
use ctl_syntax::denoted::{Definition, Use};
use ctl_syntax::item::Definition as TypeDefinition;
use ctl_tree::span::Span;
use sqlite_items::Items;
use std::alloc::{AllocError, Global};

/// Declares a type by its definition (RM 3.2.1).
pub fn type_definition(
    alloc: Global,
    place: Span,
    name: &Definition,
    definition: &TypeDefinition<Use>,
    around: Around,
    draft: &mut Draft,
) -> Result<Items<Item>, AllocError>
    ensures { Yields (spec.definition_of place name.now definition.now around) draft.old result draft.new }
{
    keep_name(name, draft);
    defined_by(alloc, place, name, definition, around, draft)
}

/// Declares a type whose name is judged.
fn defined_by(
    alloc: Global,
    place: Span,
    name: &Definition,
    definition: &TypeDefinition<Use>,
    around: Around,
    draft: &mut Draft,
) -> Result<Items<Item>, AllocError>
    ensures { Yields (spec.defined_by place name.now definition.now around) draft.old result draft.new }
{
    let number = name.number;
    match definition {
        TypeDefinition::Record(said, declared) => {
            record_type(
                alloc,
                place,
                number,
                *said,
                declared.as_slice(),
                around,
                draft,
            )
        }
        TypeDefinition::Extension(mark, declared) => {
            extension(
                alloc,
                place,
                number,
                mark,
                declared.as_slice(),
                around,
                draft,
            )
        }
        TypeDefinition::Access(generality, mark, coverage, pool) => {
            access_type(
                alloc,
                place,
                name,
                *generality,
                mark,
                *coverage,
                pool,
                around,
                draft,
            )
        }
    }
}
