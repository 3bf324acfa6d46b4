//! Exceptions as they are declared (RM 11.1).

ghost use Rattle.std.specs.Prelude.{◌≡◌, [], OnOk};
ghost use Rattle.ctl_declarations.specs.Declarations as spec;
ghost use Rattle.ctl_typing.specs.Judgement.{Yields};

use crate::own_names::keep_names;
use ctl_draft::draft::Draft;
use ctl_program::statement::Item;
use ctl_syntax::denoted::Definition;
use ctl_typing::table::Entry;
use sqlite_items::Items;
use std::alloc::{AllocError, Global};

/// Declares an exception, with the next number (RM 11.1).
fn exception(alloc: Global, name: &Definition, draft: &mut Draft) -> Result<(), AllocError>
    ensures { OnOk result (draft.new ≡ spec.exception name.now draft.old) }
{
    let number = draft.exceptions.len();
    draft.exceptions.push(name.identifier.text.copied(alloc)?)?;
    draft.declare(Entry::Exception(number))
}

/// Declares an exception of each of these names.
fn exceptions_on(
    alloc: Global,
    names: &[Definition],
    draft: &mut Draft,
) -> Result<Items<Item>, AllocError>
    ensures { Yields (spec.exceptions_on [] names.now) draft.old result draft.new }
{
    let mut items = Items::new(alloc);
    for name in names {
        exception(alloc, name, draft)?;
        items.push(Item::Silent)?;
    }
    Ok(items)
}

/// Declares exceptions (RM 11.1).
pub fn exceptions(
    alloc: Global,
    names: &[Definition],
    draft: &mut Draft,
) -> Result<Items<Item>, AllocError>
    ensures { Yields (spec.exceptions names.now) draft.old result draft.new }
{
    keep_names(names, draft);
    exceptions_on(alloc, names, draft)
}
