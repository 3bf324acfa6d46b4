//! The discriminants of pools (RM 3.7.1, 13.11).

ghost use Rattle.std.specs.Prelude.{◌≡◌, Some, []};
ghost use Rattle.ctl_declarations.specs.Declarations as spec;
ghost use Rattle.ctl_typing.specs.Judgement.{Judges, each};

use ctl_draft::associations::{Associated, positions};
use ctl_draft::types::root_of_type;
use ctl_program::expression::Expr;
use ctl_program::statement::Association as CheckedAssociation;
use ctl_program::types::Ty;
use ctl_syntax::denoted::Use;
use ctl_syntax::item::Association;
use ctl_tree::fault::FaultCode;
use ctl_tree::span::Span;
use ctl_typing::expressions::expression;
use ctl_typing::found::Asked;
use ctl_typing::judging::wrong;
use ctl_typing::notes::Notes;
use ctl_typing::operators::appended;
use ctl_typing::table::Tables;
use sqlite_items::Items;
use std::alloc::{AllocError, Global};

/// Judges the value of a discriminant at a position: a Storage_Count (RM 13.11).
fn discriminant(
    alloc: Global,
    tables: &Tables,
    position: usize,
    association: &Association<Use>,
    notes: &mut Notes,
) -> Result<Option<CheckedAssociation>, AllocError>
    ensures { Judges (spec.discriminant tables.now (position, association.now)) notes.old result notes.new }
{
    let asked = Asked::Exactly(Ty::Count);
    match expression(alloc, tables, &association.value, asked, notes)? {
        Some(typed) => Ok(Some(CheckedAssociation {
            position,
            value: typed.value,
        })),
        None => Ok(None),
    }
}

/// Judges the values of discriminants, each at its position.
fn discriminants_in_order(
    alloc: Global,
    tables: &Tables,
    positions: &[usize],
    associations: &[Association<Use>],
    notes: &mut Notes,
) -> Result<Option<Items<CheckedAssociation>>, AllocError>
    ensures { Judges (each (spec.discriminant tables.now) (Some []) (spec.discriminants_at positions.now associations.now)) notes.old result notes.new }
{
    let mut numbers = positions;
    let mut given = associations;
    let mut done = Some(Items::new(alloc));
    'given: while let (Some((position, behind)), Some((association, more))) = (
        numbers.split_first(),
        given.split_first(),
    ) {
        let judged = discriminant(alloc, tables, *position, association, notes)?;
        done = appended(done, judged)?;
        numbers = behind;
        given = more;
    }
    Ok(done)
}

/// Judges what is given for a discriminant that there is not.
fn anything(
    alloc: Global,
    tables: &Tables,
    association: &Association<Use>,
    notes: &mut Notes,
) -> Result<Option<Expr>, AllocError>
    ensures { Judges (spec.anything tables.now association.now) notes.old result notes.new }
{
    match expression(alloc, tables, &association.value, Asked::Anything, notes)? {
        Some(typed) => Ok(Some(typed.value)),
        None => Ok(None),
    }
}

/// Judges what is given for discriminants, without a type.
fn untyped(
    alloc: Global,
    tables: &Tables,
    associations: &[Association<Use>],
    notes: &mut Notes,
) -> Result<Option<Items<Expr>>, AllocError>
    ensures { Judges (each (spec.anything tables.now) (Some []) associations.now) notes.old result notes.new }
{
    let mut done = Some(Items::new(alloc));
    for association in associations {
        let judged = anything(alloc, tables, association, notes)?;
        done = appended(done, judged)?;
    }
    Ok(done)
}

/// Judges discriminants that may be wrong in number or name; these are judged without a type (RM 3.7.1).
fn discriminants_by(
    alloc: Global,
    tables: &Tables,
    place: Span,
    positions: Option<Items<usize>>,
    associations: &[Association<Use>],
    notes: &mut Notes,
) -> Result<Option<Items<CheckedAssociation>>, AllocError>
    ensures { Judges (spec.discriminants_by place positions associations.now tables.now) notes.old result notes.new }
{
    if let Some(positions) = positions {
        return discriminants_in_order(alloc, tables, positions.as_slice(), associations, notes);
    }
    match untyped(alloc, tables, associations, notes)? {
        Some(_) => Ok(wrong(FaultCode::Type, place, notes)),
        None => Ok(None),
    }
}

/// Judges the discriminants of an object: a pool has all of its own, and nothing else has any (RM 3.7.1, 13.11).
pub fn discriminants_given(
    alloc: Global,
    tables: &Tables,
    place: Span,
    ty: Option<Ty>,
    associations: &[Association<Use>],
    notes: &mut Notes,
) -> Result<Option<Items<CheckedAssociation>>, AllocError>
    ensures { Judges (spec.discriminants_given place ty associations.now tables.now) notes.old result notes.new }
{
    let Some(ty) = ty else {
        return match untyped(alloc, tables, associations, notes)? {
            Some(_) => Ok(Some(Items::new(alloc))),
            None => Ok(None),
        };
    };
    let what = Associated::Discriminants(root_of_type(tables, ty));
    let positions = positions(alloc, what, associations)?;
    discriminants_by(alloc, tables, place, positions, associations, notes)
}
