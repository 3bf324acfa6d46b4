//! The components of record types, as they are declared (RM 3.8, 3.9.1).

ghost use Rattle.std.specs.Prelude.{◌≡◌, IfOk, OnOk, option_map, slice_get};
ghost use Rattle.ctl_declarations.specs.Types as spec;
ghost use Rattle.ctl_typing.specs.Judgement.{Answers, Judges};
ghost use Rattle.ctl_typing.specs.Typing.{sense};

use ctl_draft::draft::{Draft, Enclosing};
use ctl_draft::named_types::{concrete_type, is_root_pool};
use ctl_draft::rows::together;
use ctl_draft::types::no_pool;
use ctl_program::expression::Expr;
use ctl_program::types::{Component, Ty};
use ctl_syntax::denoted::{Denoted, Use};
use ctl_syntax::expression::Expression;
use ctl_syntax::item::{Components, Limitation};
use ctl_syntax::name::{Identifier, Mark};
use ctl_tree::fault::FaultCode;
use ctl_tree::span::Span;
use ctl_tree::text::Text;
use ctl_typing::expressions::expression;
use ctl_typing::found::Asked;
use ctl_typing::judging::{note, wrong};
use ctl_typing::lookup::{component_of, is_limited, root_of};
use ctl_typing::names::discriminant_named;
use ctl_typing::notes::Notes;
use ctl_typing::operators::appended;
use ctl_typing::table::{Beginning, ComponentEntry, Tables};
use sqlite_items::Items;
use std::alloc::{AllocError, Global};

/// Tells whether a name denotes the declaration of a number.
fn is_name_of(number: usize, denoted: Denoted) -> bool
    ensures { result ≡ spec.is_name_of number denoted }
{
    match denoted {
        Denoted::Declared(declared, _) => declared == number,
        _ => false,
    }
}

/// Answers the type of a component: one with objects, and no pool; not the record itself (RM 3.8, profile).
fn component_type(
    alloc: Global,
    tables: &Tables,
    within: Enclosing,
    place: Span,
    mark: &Mark<Use>,
    notes: &mut Notes,
) -> Result<Option<Ty>, AllocError>
    ensures { Judges (spec.component_type tables.now within place mark.now) notes.old result notes.new }
{
    if is_name_of(within.number, mark.first.denoted) && mark.rest.is_empty() {
        return Ok(wrong(FaultCode::SelfContained, place, notes));
    }
    match concrete_type(alloc, tables, within.place, mark, notes)? {
        Some(ty) => Ok(no_pool(tables, mark.first.span, ty, notes)),
        None => Ok(None),
    }
}

/// Tells whether a component that is limited is refused: it has a default, or stands in an extension of a type that is not limited (RM 7.5,
/// 3.9.1).
fn excludes_limited(within: Enclosing, has_default: bool) -> bool
    ensures { result ≡ spec.excludes_limited within has_default }
{
    has_default || within.limitation == Some(Limitation::Nonlimited)
}

/// Notes a limited component where it is refused.
fn may_be_limited(
    tables: &Tables,
    within: Enclosing,
    place: Span,
    has_default: bool,
    ty: Ty,
    notes: &mut Notes,
) -> Option<Ty>
    ensures { Answers (spec.may_be_limited tables.now within place has_default ty) notes.old result notes.new }
{
    if is_limited(tables, ty) && excludes_limited(within, has_default) {
        note(notes, FaultCode::Limited, place);
    }
    Some(ty)
}

/// Judges the default of a component, if it has one; nothing is known of it where the type is wrong.
fn default_of(
    alloc: Global,
    tables: &Tables,
    ty: Option<Ty>,
    value: &Option<Expression<Use>>,
    notes: &mut Notes,
) -> Result<Option<Option<Expr>>, AllocError>
    ensures { Judges (spec.default_of tables.now ty (option_map sense value.now)) notes.old result notes.new }
{
    let Some(value) = value else {
        return Ok(Some(None));
    };
    let Some(ty) = ty else {
        return Ok(None);
    };
    match expression(alloc, tables, value, Asked::Exactly(ty), notes)? {
        Some(typed) => Ok(Some(Some(typed.value))),
        None => Ok(None),
    }
}

/// Answers how a component begins.
fn beginning_of(value: &Option<Expression<Use>>) -> Beginning
    ensures { result ≡ spec.beginning_of value.now }
{
    match value {
        Some(_) => Beginning::Value,
        None => Beginning::Default,
    }
}

/// Answers how many components a type has from its parent, if it has one.
pub fn inherited_count(tables: &Tables, parent: Option<usize>) -> usize
    ensures { result ≡ spec.inherited_count (spec.on_parent tables.now parent) }
{
    let Some(number) = parent else {
        return 0;
    };
    match sqlite_items::at(tables.records.as_slice(), number) {
        Some(entry) => entry.count,
        None => 0,
    }
}

/// Answers the position of the last of these components, behind so many inherited ones.
#[tactic(auto, using(crate::proofs::Positions::last_position_at_end))]
pub fn last_position(count: usize, own: &[ComponentEntry]) -> usize
    ensures { result ≡ spec.last_position count own.now }
{
    match own.split_last() {
        Some((component, _)) => component.position,
        None => count,
    }
}

/// Answers the position of the next component: inherited ones have the first positions (RM 3.9.1). One that cannot be counted is answered as
/// want of memory.
fn next_position(draft: &Draft, parent: Option<usize>) -> Result<usize, AllocError>
    ensures { IfOk result (λ position. position ≡ spec.next_position draft.now parent) }
{
    let inherited = inherited_count(&draft.tables, parent);
    let last = last_position(inherited, draft.own.as_slice());
    last.checked_add(1).ok_or(AllocError)
}

/// Tells whether a parent, if there is one, has a component or a discriminant of a name (RM 3.9.1).
fn has_inherited(tables: &Tables, name: &Text, parent: Option<usize>) -> bool
    ensures { result ≡ spec.has_inherited tables.now name.now parent }
{
    let Some(number) = parent else {
        return false;
    };
    component_of(tables, name, number).is_some()
        || discriminant_named(root_of(tables, number), name).is_some()
}

/// Keeps the name of one more component, which is to be a new one (RM 8.3(26), 3.9.1).
fn name_component(
    alloc: Global,
    within: Enclosing,
    identifier: &Identifier,
    draft: &mut Draft,
) -> Result<(), AllocError>
    ensures { OnOk result (draft.new ≡ spec.name_component within identifier.now draft.old) }
{
    let name = &identifier.text;
    let is_among = draft.own_names.add(alloc, name)?;
    let is_broken = is_among || has_inherited(&draft.tables, name, within.parent);
    draft.early_when(is_broken, FaultCode::Duplicate, identifier.span);
    Ok(())
}

/// Enters a component whose type is known.
fn enter_component(
    alloc: Global,
    within: Enclosing,
    name: &Text,
    beginning: Beginning,
    ty: Option<Ty>,
    draft: &mut Draft,
) -> Result<(), AllocError>
    ensures { OnOk result (draft.new ≡ spec.enter_component within name.now beginning ty draft.old) }
{
    let Some(ty) = ty else {
        return Ok(());
    };
    let position = next_position(draft, within.parent)?;
    draft.own.push(ComponentEntry {
        name: Text::from_slice(alloc, name.as_bytes())?,
        position,
        ty,
        beginning,
    })
}

/// Makes a component of its type and its default, where both are known.
fn checked_component(ty: Option<Ty>, default: Option<Option<Expr>>) -> Option<Component>
    ensures { result ≡ spec.checked_component ty default }
{
    match ty.zip(default) {
        Some((ty, default)) => Some(Component { ty, default }),
        None => None,
    }
}

/// Judges the type of a component, with a default or without one.
fn component_judged(
    alloc: Global,
    tables: &Tables,
    within: Enclosing,
    mark: &Mark<Use>,
    value: &Option<Expression<Use>>,
    identifier: &Identifier,
    notes: &mut Notes,
) -> Result<Option<Ty>, AllocError>
    ensures { Judges (spec.component_judged within mark.now (option_map sense value.now) identifier.now tables.now) notes.old result notes.new }
{
    let place = identifier.span;
    if is_root_pool(mark) && excludes_limited(within, value.is_some()) {
        return Ok(wrong(FaultCode::Limited, place, notes));
    }
    match component_type(alloc, tables, within, place, mark, notes)? {
        Some(ty) => Ok(may_be_limited(tables, within, place, value.is_some(), ty, notes)),
        None => Ok(None),
    }
}

/// Judges the default of a component, and enters the component.
fn component_default(
    alloc: Global,
    within: Enclosing,
    identifier: &Identifier,
    value: &Option<Expression<Use>>,
    ty: Option<Ty>,
    draft: &mut Draft,
) -> Result<Option<Component>, AllocError>
    ensures { Judges (λ d. spec.component_default within identifier.now (option_map sense value.now) (ty, d)) draft.old result draft.new }
{
    let default = default_of(alloc, &draft.tables, ty, value, &mut draft.notes)?;
    let beginning = beginning_of(value);
    match enter_component(alloc, within, &identifier.text, beginning, ty, draft) {
        Ok(()) => Ok(checked_component(ty, default)),
        Err(error) => {
            drop(default);
            Err(error)
        }
    }
}

/// Judges one component (RM 3.8).
fn component(
    alloc: Global,
    within: Enclosing,
    mark: &Mark<Use>,
    value: &Option<Expression<Use>>,
    identifier: &Identifier,
    draft: &mut Draft,
) -> Result<Option<Component>, AllocError>
    ensures { Judges (spec.component within mark.now (option_map sense value.now) identifier.now) draft.old result draft.new }
{
    name_component(alloc, within, identifier, draft)?;
    let ty = component_judged(
        alloc,
        &draft.tables,
        within,
        mark,
        value,
        identifier,
        &mut draft.notes,
    )?;
    component_default(alloc, within, identifier, value, ty, draft)
}

/// Judges the components of one declaration; `A, B : T` are two (RM 3.8(17)).
fn components_named(
    alloc: Global,
    within: Enclosing,
    mark: &Mark<Use>,
    value: &Option<Expression<Use>>,
    names: &[Identifier],
    draft: &mut Draft,
) -> Result<Option<Items<Component>>, AllocError>
    ensures { Judges (spec.components_named within mark.now (option_map sense value.now) names.now) draft.old result draft.new }
{
    let mut done = Some(Items::new(alloc));
    for name in names {
        let judged = component(alloc, within, mark, value, name, draft)?;
        done = appended(done, judged)?;
    }
    Ok(done)
}

/// Judges the components of one declaration.
fn components_of(
    alloc: Global,
    within: Enclosing,
    declared: &Components<Use>,
    draft: &mut Draft,
) -> Result<Option<Items<Component>>, AllocError>
    ensures { Judges (spec.components_of within declared.now) draft.old result draft.new }
{
    let names = declared.names.as_slice();
    components_named(
        alloc,
        within,
        &declared.mark,
        &declared.default,
        names,
        draft,
    )
}

/// Judges the declarations of components, one behind the other.
fn component_rows(
    alloc: Global,
    within: Enclosing,
    declared: &[Components<Use>],
    draft: &mut Draft,
) -> Result<Option<Items<Items<Component>>>, AllocError>
    ensures { Judges (spec.component_rows within declared.now) draft.old result draft.new }
{
    let mut done = Some(Items::new(alloc));
    for one in declared {
        let judged = components_of(alloc, within, one, draft)?;
        done = appended(done, judged)?;
    }
    Ok(done)
}

/// Judges the components that a type adds to those of its parent (RM 3.8, 3.9.1).
pub fn components(
    alloc: Global,
    within: Enclosing,
    declared: &[Components<Use>],
    draft: &mut Draft,
) -> Result<Option<Items<Component>>, AllocError>
    ensures { Judges (spec.components within declared.now) draft.old result draft.new }
{
    match component_rows(alloc, within, declared, draft)? {
        Some(rows) => Ok(Some(together(alloc, rows)?)),
        None => Ok(None),
    }
}
