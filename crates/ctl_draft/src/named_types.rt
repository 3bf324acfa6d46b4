//! The types that marks name in declarations (RM 3.2.2).

ghost use Rattle.std.specs.Prelude.{◌≡◌};
ghost use Rattle.ctl_draft.specs.Marks as spec;
ghost use Rattle.ctl_typing.specs.Judgement.{Judges};

use ctl_program::types::Ty;
use ctl_syntax::denoted::{Denoted, LibraryName, Use};
use ctl_syntax::name::Mark;
use ctl_tree::fault::FaultCode;
use ctl_tree::span::Span;
use ctl_typing::allocators::{has_objects, mark_judged, told_at};
use ctl_typing::judging::wrong;
use ctl_typing::notes::Notes;
use ctl_typing::table::Tables;
use std::alloc::{AllocError, Global};

/// Tells whether a mark is Root_Storage_Pool, which is no type here: pool types extend Block_Pool (RM 13.11, profile).
pub fn is_root_pool(named: &Mark<Use>) -> bool
    ensures { result ≡ spec.is_root_pool named.now }
{
    match named.first.denoted {
        Denoted::Library(LibraryName::RootStoragePool) => named.rest.is_empty(),
        _ => false,
    }
}

/// Answers the type that a mark names; where it names none, that is told of at the item.
pub fn named_type(
    alloc: Global,
    tables: &Tables,
    place: Span,
    named: &Mark<Use>,
    notes: &mut Notes,
) -> Result<Option<Ty>, AllocError>
    ensures { Judges (spec.named_type tables.now place named.now) notes.old result notes.new }
{
    if is_root_pool(named) {
        return Ok(wrong(FaultCode::Pool, named.first.span, notes));
    }
    let told = told_at(place, named.first);
    mark_judged(alloc, tables, told, named.rest.as_slice(), notes)
}

/// Answers the type that a mark names, which has to have objects (RM 3.9.3).
pub fn concrete_type(
    alloc: Global,
    tables: &Tables,
    place: Span,
    named: &Mark<Use>,
    notes: &mut Notes,
) -> Result<Option<Ty>, AllocError>
    ensures { Judges (spec.concrete_type tables.now place named.now) notes.old result notes.new }
{
    let Some(ty) = named_type(alloc, tables, place, named, notes)? else {
        return Ok(None);
    };
    if !has_objects(tables, ty) {
        return Ok(wrong(FaultCode::Type, place, notes));
    }
    Ok(Some(ty))
}
