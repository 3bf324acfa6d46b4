//! Instances of Ada.Unchecked_Deallocation (RM 12.3, 13.11.2).

ghost use Rattle.std.specs.Prelude.{◌≡◌, OnOk, map};
ghost use Rattle.ctl_declarations.specs.Declarations as spec;
ghost use Rattle.ctl_typing.specs.Judgement.{Answers, Judges};
ghost use Rattle.ctl_typing.specs.Senses.{suffix_sense};
ghost use Rattle.ctl_typing.specs.Typing.{sense};

use crate::own_names::keep_name;
use ctl_draft::associations::{Associated, positions};
use ctl_draft::draft::{Around, Draft};
use ctl_draft::freezing::done_by;
use ctl_program::statement::Item;
use ctl_program::types::Ty;
use ctl_syntax::denoted::{Definition, Denoted, LibraryName, Use};
use ctl_syntax::expression::Expression;
use ctl_syntax::item::Association;
use ctl_syntax::name::{Mark, Name};
use ctl_tree::fault::FaultCode;
use ctl_tree::span::Span;
use ctl_typing::expressions::found;
use ctl_typing::found::{Found, discard};
use ctl_typing::judging::{unresolved, wrong};
use ctl_typing::notes::{Deed, Notes};
use ctl_typing::table::{Entry, Tables};
use ctl_typing::values::designates;
use sqlite_items::Items;
use std::alloc::{AllocError, Global};

/// Answers the type that a name is.
fn type_found(place: Span, found: &Found, notes: &mut Notes) -> Option<Ty>
    ensures { Answers (spec.type_found place found.now) notes.old result notes.new }
{
    match found {
        Found::TypeName(ty) => Some(*ty),
        _ => wrong(FaultCode::Type, place, notes),
    }
}

/// Answers the type that a name names; it is told of at the item where it names none, also where it is wrong itself.
fn type_named(
    alloc: Global,
    tables: &Tables,
    place: Span,
    name: &Name<Use, Expression<Use>>,
    notes: &mut Notes,
) -> Result<Option<Ty>, AllocError>
    ensures { Judges (spec.type_named place name.now.first (map suffix_sense name.now.suffixes) tables.now) notes.old result notes.new }
{
    match found(alloc, tables, name, notes)? {
        Some(found) => {
            let ty = type_found(place, &found, notes);
            discard(found);
            Ok(ty)
        }
        None => Ok(wrong(FaultCode::Type, place, notes)),
    }
}

/// Answers the type that an actual of the instance names; it is told of at the item where it names none.
fn actual_type(
    alloc: Global,
    tables: &Tables,
    place: Span,
    x: &Expression<Use>,
    notes: &mut Notes,
) -> Result<Option<Ty>, AllocError>
    ensures { Judges (spec.actual_type tables.now place (sense x.now)) notes.old result notes.new }
{
    match x {
        Expression::Name(_, name) => type_named(alloc, tables, place, name, notes),
        _ => Ok(wrong(FaultCode::Type, place, notes)),
    }
}

/// Answers the access type of an instance, which designates the object type (RM 13.11.2).
fn deallocated(
    tables: &Tables,
    place: Span,
    ty: Ty,
    access: Ty,
    notes: &mut Notes,
) -> Option<(usize, Ty)>
    ensures { Answers (spec.deallocated tables.now place ty access) notes.old result notes.new }
{
    match access {
        Ty::Access(number) if designates(tables, number, ty) => Some((number, ty)),
        _ => wrong(FaultCode::Type, place, notes),
    }
}

/// Judges the object type and the access type of an instance (RM 13.11.2).
fn instance_types(
    alloc: Global,
    tables: &Tables,
    place: Span,
    object: &Expression<Use>,
    name: &Expression<Use>,
    notes: &mut Notes,
) -> Result<Option<(usize, Ty)>, AllocError>
    ensures { Judges (spec.instance_types tables.now place (sense object.now) (sense name.now)) notes.old result notes.new }
{
    let ty = actual_type(alloc, tables, place, object, notes)?;
    let access = actual_type(alloc, tables, place, name, notes)?;
    match ty.zip(access) {
        Some((ty, access)) => Ok(deallocated(tables, place, ty, access, notes)),
        None => Ok(None),
    }
}

/// Judges the actuals of an instance, by the position that the first of them is given for.
fn instance_with(
    alloc: Global,
    tables: &Tables,
    place: Span,
    position: usize,
    first: &Expression<Use>,
    second: &Expression<Use>,
    notes: &mut Notes,
) -> Result<Option<(usize, Ty)>, AllocError>
    ensures { Judges (spec.instance_with tables.now place position (sense first.now) (sense second.now)) notes.old result notes.new }
{
    match position {
        0 => instance_types(alloc, tables, place, first, second, notes),
        _ => instance_types(alloc, tables, place, second, first, notes),
    }
}

/// Judges the actuals of an instance, by their positions.
fn instance_at(
    alloc: Global,
    tables: &Tables,
    place: Span,
    positions: &[usize],
    associations: &[Association<Use>],
    notes: &mut Notes,
) -> Result<Option<(usize, Ty)>, AllocError>
    ensures { Judges (spec.instance_at tables.now place positions.now associations.now) notes.old result notes.new }
{
    match (positions, associations) {
        ([position, _], [first, second]) => {
            instance_with(
                alloc,
                tables,
                place,
                *position,
                &first.value,
                &second.value,
                notes,
            )
        }
        _ => Ok(wrong(FaultCode::Type, place, notes)),
    }
}

/// Judges the actuals of an instance of Ada.Unchecked_Deallocation (RM 13.11.2).
fn instance_given(
    alloc: Global,
    tables: &Tables,
    place: Span,
    associations: &[Association<Use>],
    notes: &mut Notes,
) -> Result<Option<(usize, Ty)>, AllocError>
    ensures { Judges (spec.instance_given tables.now place associations.now) notes.old result notes.new }
{
    match positions(alloc, Associated::Deallocation, associations)? {
        Some(positions) => {
            instance_at(
                alloc,
                tables,
                place,
                positions.as_slice(),
                associations,
                notes,
            )
        }
        None => Ok(wrong(FaultCode::Type, place, notes)),
    }
}

/// Judges what an instance is of, and its actuals (RM 12.3).
fn instance_of(
    alloc: Global,
    tables: &Tables,
    place: Span,
    mark: &Mark<Use>,
    associations: &[Association<Use>],
    notes: &mut Notes,
) -> Result<Option<(usize, Ty)>, AllocError>
    ensures { Judges (spec.instance_of place mark.now associations.now tables.now) notes.old result notes.new }
{
    if !mark.rest.is_empty() {
        return Ok(wrong(FaultCode::Type, place, notes));
    }
    match mark.first.denoted {
        Denoted::Library(LibraryName::UncheckedDeallocation) => {
            instance_given(alloc, tables, place, associations, notes)
        }
        Denoted::Unknown => Ok(unresolved(place, notes)),
        _ => Ok(wrong(FaultCode::Type, place, notes)),
    }
}

/// Declares an instance whose types are known; it freezes them (RM 13.14(5)).
fn instance_known(
    alloc: Global,
    around: Around,
    access: usize,
    ty: Ty,
    draft: &mut Draft,
) -> Result<Option<Items<Item>>, AllocError>
    ensures { Judges (spec.instance_frozen around access ty) draft.old result draft.new }
{
    let deeds = [Deed::Freezes(ty), Deed::Freezes(Ty::Access(access))];
    let mut items = done_by(alloc, around, &deeds, draft)?;
    items.push(Item::Silent)?;
    draft.declare(Entry::Deallocation(access))?;
    Ok(Some(items))
}

/// Declares an instance of Ada.Unchecked_Deallocation (RM 12.3, 13.11.2).
pub fn instance(
    alloc: Global,
    place: Span,
    name: &Definition,
    mark: &Mark<Use>,
    associations: &[Association<Use>],
    around: Around,
    draft: &mut Draft,
) -> Result<Option<Items<Item>>, AllocError>
    ensures { Judges (spec.instance place name.now mark.now associations.now around) draft.old result draft.new }
{
    keep_name(name, draft);
    let judged = instance_of(
        alloc,
        &draft.tables,
        place,
        mark,
        associations,
        &mut draft.notes,
    )?;
    match judged {
        Some((access, ty)) => instance_known(alloc, around, access, ty, draft),
        None => {
            draft.declare(Entry::Unknown)?;
            Ok(None)
        }
    }
}
