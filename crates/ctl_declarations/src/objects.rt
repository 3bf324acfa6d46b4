//! Objects as they are declared (RM 3.3.1).

ghost use Rattle.std.specs.Prelude.{◌≡◌, ◌++◌, IfOk, OnOk, option_map};
ghost use Rattle.ctl_declarations.specs.Declarations as spec;
ghost use Rattle.ctl_draft.specs.Draft as draft_spec;
ghost use Rattle.ctl_typing.specs.Judgement.{Answers, Judges};
ghost use Rattle.ctl_typing.specs.Typing.{sense};

use crate::discriminants::discriminants_given;
use crate::own_names::keep_names;
use ctl_draft::draft::{Around, Draft, Order, Waiting};
use ctl_draft::freezing::done_by;
use ctl_draft::named_types::{concrete_type, is_root_pool};
use ctl_draft::rows::together;
use ctl_draft::types::{is_pool, no_pool};
use ctl_program::expression::Expr;
use ctl_program::statement::{Association as CheckedAssociation, Item};
use ctl_program::types::Ty;
use ctl_syntax::denoted::{Definition, Use};
use ctl_syntax::expression::Expression;
use ctl_syntax::item::{Aliasing, Constancy, Objects};
use ctl_tree::fault::FaultCode;
use ctl_tree::span::Span;
use ctl_typing::expressions::expression;
use ctl_typing::found::Asked;
use ctl_typing::lookup::is_limited;
use ctl_typing::notes::{Deed, Notes};
use ctl_typing::operators::appended;
use ctl_typing::table::{Entry, Mutability, Standing, Tables};
use sqlite_items::Items;
use std::alloc::{AllocError, Global};

/// Answers whether an object may be assigned to (RM 3.3.1).
fn mutability_of(constancy: Constancy) -> Mutability
    ensures { result ≡ spec.mutability_of constancy }
{
    match constancy {
        Constancy::Constant => Mutability::Constant,
        Constancy::Variable => Mutability::Variable,
    }
}

/// Notes a pool that is aliased (profile).
fn no_aliased_pool(
    tables: &Tables,
    place: Span,
    aliasing: Aliasing,
    ty: Ty,
    notes: &mut Notes,
) -> Option<Ty>
    ensures { Answers (spec.no_aliased_pool tables.now place aliasing ty) notes.old result notes.new }
{
    match aliasing {
        Aliasing::Aliased => no_pool(tables, place, ty, notes),
        Aliasing::Unaliased => Some(ty),
    }
}

/// Answers the type of declared objects (RM 3.3.1).
fn object_type(
    alloc: Global,
    tables: &Tables,
    place: Span,
    declared: &Objects<Definition, Use>,
    notes: &mut Notes,
) -> Result<Option<Ty>, AllocError>
    ensures { Judges (spec.object_type place declared.now tables.now) notes.old result notes.new }
{
    let mark = &declared.mark;
    match concrete_type(alloc, tables, place, mark, notes)? {
        Some(ty) => Ok(no_aliased_pool(tables, mark.first.span, declared.aliasing, ty, notes)),
        None => Ok(None),
    }
}

/// Answers what is asked of the value of an object, as far as its type is known.
fn asked_of(ty: Option<Ty>) -> Asked
    ensures { result ≡ spec.asked_of ty }
{
    match ty {
        Some(ty) => Asked::Exactly(ty),
        None => Asked::Anything,
    }
}

/// Judges the value of an object, if it is given one (RM 3.3.1).
fn value_of(
    alloc: Global,
    tables: &Tables,
    ty: Option<Ty>,
    value: &Option<Expression<Use>>,
    notes: &mut Notes,
) -> Result<Option<Option<Expr>>, AllocError>
    ensures { Judges (spec.value_of ty (option_map sense value.now) tables.now) notes.old result notes.new }
{
    let Some(value) = value else {
        return Ok(Some(None));
    };
    match expression(alloc, tables, value, asked_of(ty), notes)? {
        Some(typed) => Ok(Some(Some(typed.value))),
        None => Ok(None),
    }
}

/// Makes the item of an object, or of a pool with its discriminants (RM 3.3.1, 13.11).
fn object_item(
    tables: &Tables,
    ty: Ty,
    slot: usize,
    discriminants: Items<CheckedAssociation>,
    value: Option<Expr>,
) -> Item
    ensures { result ≡ spec.object_item tables.now ty slot discriminants value }
{
    match ty {
        Ty::Record(number) if is_pool(tables, ty) => {
            drop(value);
            Item::Pool(slot, number, discriminants)
        }
        _ => Item::Object(slot, ty, value),
    }
}

/// Makes the item of an object, where its type, its discriminants and its value are known.
fn object_made(
    alloc: Global,
    tables: &Tables,
    slot: usize,
    ty: Option<Ty>,
    discriminants: Option<Items<CheckedAssociation>>,
    value: Option<Option<Expr>>,
) -> Result<Option<Items<Item>>, AllocError>
    ensures { IfOk result (λ made. made ≡ spec.object_made tables.now slot ty discriminants value) }
{
    let Some(ty) = ty else {
        drop((discriminants, value));
        return Ok(None);
    };
    let Some((discriminants, value)) = discriminants.zip(value) else {
        return Ok(None);
    };
    let mut items = Items::new(alloc);
    items.push(object_item(tables, ty, slot, discriminants, value))?;
    Ok(Some(items))
}

/// Puts an object into view; nothing is known of it where its type is wrong.
fn declare_as(
    around: Around,
    declared: &Objects<Definition, Use>,
    ty: Option<Ty>,
    draft: &mut Draft,
) -> Result<(), AllocError>
    ensures { OnOk result (draft.new ≡ spec.declare_as around declared.now ty draft.old) }
{
    match ty {
        None => draft.declare(Entry::Unknown),
        Some(ty) => {
            let mutability = mutability_of(declared.constancy);
            draft.declare_object(
                around,
                ty,
                Standing::Declared,
                mutability,
                declared.aliasing,
            )
        }
    }
}

/// Copies what the expressions did since that was asked for.
fn copied_deeds(alloc: Global, draft: &Draft) -> Result<Items<Deed>, AllocError>
    ensures { IfOk result (λ deeds. deeds ≡ draft_spec.deeds_of draft.now) }
{
    match &draft.notes.deeds {
        Some(deeds) => Items::from_slice(alloc, deeds.as_slice()),
        None => Ok(Items::new(alloc)),
    }
}

/// Keeps an object that stands before a body of its part: it may stand too early (RM 3.11).
fn wait_as(
    alloc: Global,
    order: Order,
    place: Span,
    ty: Option<Ty>,
    draft: &mut Draft,
) -> Result<(), AllocError>
    ensures { OnOk result (draft.new ≡ spec.wait_as order place ty draft.old) }
{
    if order == Order::BehindBodies {
        return Ok(());
    }
    let deeds = copied_deeds(alloc, draft)?;
    draft.waiting.push(Waiting {
        span: place,
        ty: ty.unwrap_or(Ty::Integer),
        deeds,
    })
}

/// Adds what its expressions do to what an object itself does: it freezes its type, and without a value begins with its defaults (RM 13.14(6), 3.3.1).
fn object_deeds(
    alloc: Global,
    ty: Option<Ty>,
    is_given: bool,
    more: Items<Deed>,
) -> Result<Items<Deed>, AllocError>
    ensures { IfOk result (λ deeds. deeds ≡ spec.object_deeds ty is_given ++ more) }
{
    let Some(ty) = ty else {
        return Ok(more);
    };
    let mut deeds = Items::new(alloc);
    deeds.push(Deed::Freezes(ty))?;
    if !is_given {
        deeds.push(Deed::Initializes(ty))?;
    }
    deeds.append(more)?;
    Ok(deeds)
}

/// Puts the collections that an object freezes before it.
fn with_layers(
    items: Option<Items<Item>>,
    layers: Items<Item>,
) -> Result<Option<Items<Item>>, AllocError>
    ensures { IfOk result (λ all. all ≡ spec.with_layers items layers) }
{
    let Some(items) = items else {
        return Ok(None);
    };
    let mut all = layers;
    all.append(items)?;
    Ok(Some(all))
}

/// Puts an object into view, behind the collections that it freezes (RM 13.14).
fn object_frozen(
    alloc: Global,
    around: Around,
    declared: &Objects<Definition, Use>,
    ty: Option<Ty>,
    made: Option<Items<Item>>,
    draft: &mut Draft,
) -> Result<Option<Items<Item>>, AllocError>
    ensures { Judges (spec.object_frozen around declared.now ty made) draft.old result draft.new }
{
    let deeds = draft.take_deeds(alloc);
    let deeds = object_deeds(alloc, ty, declared.value.is_some(), deeds)?;
    let layers = done_by(alloc, around, deeds.as_slice(), draft)?;
    declare_as(around, declared, ty, draft)?;
    with_layers(made, layers)
}

/// Tells whether an object is limited, as far as its type is known (RM 7.5).
fn limited_as(tables: &Tables, ty: Option<Ty>) -> bool
    ensures { result ≡ spec.limited_as tables.now ty }
{
    match ty {
        Some(ty) => is_limited(tables, ty),
        None => false,
    }
}

/// Notes a constant without a value, and a limited object with one (RM 3.3.1(5), 7.5).
fn value_kept(
    place: Span,
    declared: &Objects<Definition, Use>,
    name: Span,
    ty: Option<Ty>,
    draft: &mut Draft,
)
    ensures { draft.new ≡ spec.value_kept place declared.now name ty draft.old }
{
    let is_given = declared.value.is_some();
    let is_constant = declared.constancy == Constancy::Constant;
    draft.fault_when(is_constant && !is_given, FaultCode::Type, place);
    let is_limited = limited_as(&draft.tables, ty) || is_root_pool(&declared.mark);
    draft.fault_when(is_limited && is_given, FaultCode::Limited, name);
}

/// Declares an object whose type, discriminants and value are judged.
fn object_valued(
    alloc: Global,
    around: Around,
    order: Order,
    place: Span,
    declared: &Objects<Definition, Use>,
    name: Span,
    ty: Option<Ty>,
    made: Option<Items<Item>>,
    draft: &mut Draft,
) -> Result<Option<Items<Item>>, AllocError>
    ensures { Judges (spec.object_kept around order place declared.now name ty made) draft.old result draft.new }
{
    value_kept(place, declared, name, ty, draft);
    wait_as(alloc, order, name, ty, draft)?;
    object_frozen(alloc, around, declared, ty, made, draft)
}

/// Declares an object whose type and discriminants are judged.
fn object_given(
    alloc: Global,
    around: Around,
    order: Order,
    place: Span,
    declared: &Objects<Definition, Use>,
    name: Span,
    ty: Option<Ty>,
    discriminants: Option<Items<CheckedAssociation>>,
    draft: &mut Draft,
) -> Result<Option<Items<Item>>, AllocError>
    ensures { Judges (λ d. spec.object_given around order place declared.now name ty (discriminants, d)) draft.old result draft.new }
{
    let value = value_of(alloc, &draft.tables, ty, &declared.value, &mut draft.notes)?;
    let slot = draft.slots.len();
    let made = object_made(alloc, &draft.tables, slot, ty, discriminants, value)?;
    object_valued(alloc, around, order, place, declared, name, ty, made, draft)
}

/// Declares an object whose type is judged.
fn object_typed(
    alloc: Global,
    around: Around,
    order: Order,
    place: Span,
    declared: &Objects<Definition, Use>,
    name: Span,
    ty: Option<Ty>,
    draft: &mut Draft,
) -> Result<Option<Items<Item>>, AllocError>
    ensures { Judges (λ d. spec.object_typed around order place declared.now name (ty, d)) draft.old result draft.new }
{
    let given = declared.discriminants.as_slice();
    let discriminants = discriminants_given(
        alloc,
        &draft.tables,
        place,
        ty,
        given,
        &mut draft.notes,
    )?;
    object_given(
        alloc,
        around,
        order,
        place,
        declared,
        name,
        ty,
        discriminants,
        draft,
    )
}

/// Declares one object (RM 3.3.1).
fn object(
    alloc: Global,
    around: Around,
    order: Order,
    place: Span,
    declared: &Objects<Definition, Use>,
    name: &Definition,
    draft: &mut Draft,
) -> Result<Option<Items<Item>>, AllocError>
    ensures { Judges (spec.object around order place declared.now name.now) draft.old result draft.new }
{
    draft.ask(alloc);
    let ty = object_type(alloc, &draft.tables, place, declared, &mut draft.notes)?;
    object_typed(
        alloc,
        around,
        order,
        place,
        declared,
        name.identifier.span,
        ty,
        draft,
    )
}

/// Declares an object of each of these names.
fn objects_named(
    alloc: Global,
    around: Around,
    order: Order,
    place: Span,
    declared: &Objects<Definition, Use>,
    names: &[Definition],
    draft: &mut Draft,
) -> Result<Option<Items<Items<Item>>>, AllocError>
    ensures { Judges (spec.objects_named around order place declared.now names.now) draft.old result draft.new }
{
    let mut done = Some(Items::new(alloc));
    for name in names {
        let judged = object(alloc, around, order, place, declared, name, draft)?;
        done = appended(done, judged)?;
    }
    Ok(done)
}

/// Declares objects; `A, B : T` are two (RM 3.3.1(7)).
pub fn objects(
    alloc: Global,
    place: Span,
    declared: &Objects<Definition, Use>,
    order: Order,
    around: Around,
    draft: &mut Draft,
) -> Result<Option<Items<Item>>, AllocError>
    ensures { Judges (spec.objects place declared.now order around) draft.old result draft.new }
{
    let names = declared.names.as_slice();
    keep_names(names, draft);
    match objects_named(alloc, around, order, place, declared, names, draft)? {
        Some(rows) => Ok(Some(together(alloc, rows)?)),
        None => Ok(None),
    }
}
