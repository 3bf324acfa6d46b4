//! Incomplete types (RM 3.10.1), and items that do nothing when they are elaborated.

ghost use Rattle.std.specs.Prelude.{◌≡◌, ◌∷◌, [], IfOk};
ghost use Rattle.ctl_declarations.specs.Declarations as declarations;
ghost use Rattle.ctl_program.specs.declared.statement.Item.TheVariants.{Silent};
ghost use Rattle.ctl_typing.specs.Judgement.{Answers, Yields};

use crate::own_names::keep_name;
use ctl_draft::draft::{Around, Draft};
use ctl_program::statement::Item;
use ctl_syntax::denoted::Definition;
use ctl_syntax::item::Taggedness;
use ctl_typing::table::Entry;
use sqlite_items::Items;
use std::alloc::{AllocError, Global};

/// Declares an incomplete type (RM 3.10.1).
pub fn incomplete(
    alloc: Global,
    name: &Definition,
    taggedness: Taggedness,
    around: Around,
    draft: &mut Draft,
) -> Result<Items<Item>, AllocError>
    ensures { Yields (declarations.incomplete name.now taggedness around) draft.old result draft.new }
{
    keep_name(name, draft);
    draft.enter(around, name.number, Entry::Incomplete(taggedness))?;
    silent(alloc)
}

/// Answers the layers of an item that does nothing when it is elaborated.
pub fn silent(alloc: Global) -> Result<Items<Item>, AllocError>
    ensures { IfOk result (λ items. items ≡ Silent ∷ []) }
{
    let mut items = Items::new(alloc);
    items.push(Item::Silent)?;
    Ok(items)
}
