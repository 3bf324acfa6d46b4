//! The judgement of expressions (RM 4.4).

ghost use Rattle.std.specs.Prelude.{◌∷◌, Some, map, option_map};
ghost use Rattle.ctl_typing.specs.Judgement as judgement;
ghost use Rattle.ctl_typing.specs.Judgement.{Judges};
ghost use Rattle.ctl_typing.specs.Senses as senses;
ghost use Rattle.ctl_typing.specs.Typing as spec;

use crate::actuals::{by_name, record_handed_on, record_in_parentheses};
use crate::adopting::{place_of, place_within};
use crate::allocators::{allocates_known, allocator, handle_of, mark_judged, told_at, value_asked};
use crate::attributes::attributed;
use crate::conversions::{converted_access, converted_number, imaged, subpool_of, viewed};
use crate::found::{Asked, Found, Place, Typed, discard};
use crate::joining::{appended_with, paired_with, value_of};
use crate::judging::wrong;
use crate::literals::{first_found, null, number};
use crate::lookup::profile_of;
use crate::names::{dereference, result_found, selector};
use crate::notes::Notes;
use crate::operations::{chain, logical, relation, unary};
use crate::table::{FormalEntry, Tables};
use crate::values::name_value;
use crate::variables::{no_variable, variable_named};
use ctl_program::expression::{Actual, Expr};
use ctl_program::library::MARK_RELEASE_POOL;
use ctl_program::operators::SubpoolFunction;
use ctl_program::types::Ty;
use ctl_syntax::denoted::Use;
use ctl_syntax::expression::Expression;
use ctl_syntax::item::Mode;
use ctl_syntax::name::{Mark, Name, Suffix};
use ctl_tree::fault::FaultCode;
use ctl_tree::span::Span;
use sqlite_items::{Boxed, Items};
use std::alloc::{AllocError, Global};

/// Judges an expression: its type and its checked form, by what its place asks (RM 4.4).
#[cycle(expression)]
pub fn expression(
    alloc: Global,
    tables: &Tables,
    x: &Expression<Use>,
    asked: Asked,
    notes: &mut Notes,
) -> Result<Option<Typed>, AllocError>
    ensures { Judges ((spec.sense x.now).judged tables.now asked) notes.old result notes.new }
{
    match x {
        Expression::Logical(place, operator, first, second, more) => {
            let (first, second) = (first.get(), second.get());
            logical(
                alloc,
                tables,
                first,
                second,
                more.as_slice(),
                *place,
                *operator,
                asked,
                notes,
            )
        }
        Expression::Relation(place, operator, left, right) => {
            relation(
                alloc,
                tables,
                left.get(),
                right.get(),
                *place,
                *operator,
                asked,
                notes,
            )
        }
        Expression::Chain(place, first, second, rest) => {
            let (first, second) = (first.get(), second.get());
            chain(
                alloc,
                tables,
                first,
                second,
                rest.as_slice(),
                *place,
                asked,
                notes,
            )
        }
        Expression::Unary(place, operator, operand) => {
            unary(
                alloc,
                tables,
                operand.get(),
                *place,
                *operator,
                asked,
                notes,
            )
        }
        Expression::Number(place, value) => number(*place, *value, asked, notes),
        Expression::String(place, _) => Ok(wrong(FaultCode::Type, *place, notes)),
        Expression::Null(place) => Ok(null(*place, asked, notes)),
        Expression::Name(_, name) => named(alloc, tables, name, asked, notes),
        Expression::Parentheses(_, inner) => expression(alloc, tables, inner.get(), asked, notes),
        Expression::New(place, handle, mark, value) => {
            allocation(alloc, tables, handle, mark, value, *place, asked, notes)
        }
    }
}

/// Judges an operand of a logical operator (RM 4.5.1).
#[cycle(expression)]
pub fn truth(
    alloc: Global,
    tables: &Tables,
    x: &Expression<Use>,
    notes: &mut Notes,
) -> Result<Option<Expr>, AllocError>
    ensures { Judges (spec.truth_of tables.now (spec.sense x.now)) notes.old result notes.new }
{
    let typed = expression(alloc, tables, x, Asked::Exactly(Ty::Boolean), notes)?;
    Ok(value_of(typed))
}

/// Judges a name as a value (RM 4.1, 4.4).
#[cycle(expression)]
fn named(
    alloc: Global,
    tables: &Tables,
    name: &Name<Use, Expression<Use>>,
    asked: Asked,
    notes: &mut Notes,
) -> Result<Option<Typed>, AllocError>
    ensures { Judges (spec.name_judged name.now.first (map senses.suffix_sense name.now.suffixes) tables.now asked) notes.old result notes.new }
{
    let found = found(alloc, tables, name, notes)?;
    name_value(alloc, tables, name.first.span, asked, found, notes)
}

/// Judges a name, as far as it was read (RM 4.1).
#[cycle(expression)]
pub fn found(
    alloc: Global,
    tables: &Tables,
    name: &Name<Use, Expression<Use>>,
    notes: &mut Notes,
) -> Result<Option<Found>, AllocError>
    ensures { Judges (spec.found name.now.first (map senses.suffix_sense name.now.suffixes) tables.now) notes.old result notes.new }
{
    let place = name.first.span;
    let first = first_found(alloc, tables, &name.first, notes)?;
    suffixes(alloc, tables, name.suffixes.as_slice(), place, first, notes)
}

/// Judges what stands behind the beginning of a name, where it is known what that is (RM 4.1).
#[cycle(expression)]
fn suffixes(
    alloc: Global,
    tables: &Tables,
    all: &[Suffix<Expression<Use>>],
    place: Span,
    first: Option<Found>,
    notes: &mut Notes,
) -> Result<Option<Found>, AllocError>
    ensures { Judges (judgement.onward first (spec.suffixes tables.now place (map senses.suffix_sense all.now))) notes.old result notes.new }
{
    let mut found = first;
    for suffix in all {
        found = suffixed(alloc, tables, suffix, place, found, notes)?;
    }
    Ok(found)
}

/// Judges a name with one suffix more, where it is known what it was before; it is told at its beginning where it is wrong (RM 4.1).
#[cycle(expression)]
fn suffixed(
    alloc: Global,
    tables: &Tables,
    suffix: &Suffix<Expression<Use>>,
    place: Span,
    found: Option<Found>,
    notes: &mut Notes,
) -> Result<Option<Found>, AllocError>
    ensures { Judges (judgement.onward found (λ f. spec.suffixed tables.now place f (senses.suffix_sense suffix.now))) notes.old result notes.new }
{
    let Some(found) = found else {
        return Ok(None);
    };
    match suffix {
        Suffix::Selector(identifier) => {
            selector(alloc, tables, place, found, &identifier.text, notes)
        }
        Suffix::All(_) => dereference(alloc, tables, place, found, notes),
        Suffix::Arguments(_, first, more) => {
            let whole = with_arguments(alloc, tables, first, more.as_slice(), place, &found, notes);
            discard(found);
            whole
        }
        Suffix::Attribute(_, attribute) => Ok(attributed(place, *attribute, found, notes)),
    }
}

/// Judges arguments behind a name: only a subprogram takes more than one (RM 6.4).
#[cycle(expression)]
fn with_arguments(
    alloc: Global,
    tables: &Tables,
    first: &Expression<Use>,
    more: &[Expression<Use>],
    place: Span,
    found: &Found,
    notes: &mut Notes,
) -> Result<Option<Found>, AllocError>
    ensures { Judges (spec.with_arguments tables.now place found.now (spec.sense first.now) (map spec.sense more.now)) notes.old result notes.new }
{
    if let Found::Callable(number) = found {
        return called(alloc, tables, first, more, place, *number, notes);
    }
    if !more.is_empty() {
        return Ok(wrong(FaultCode::Type, place, notes));
    }
    with_one(alloc, tables, first, place, found, notes)
}

/// Judges the one argument of a conversion, of a function on a mark pool, or of the attribute Image (RM 4.6, 13.11.4, 3.5).
#[cycle(expression)]
fn with_one(
    alloc: Global,
    tables: &Tables,
    x: &Expression<Use>,
    place: Span,
    found: &Found,
    notes: &mut Notes,
) -> Result<Option<Found>, AllocError>
    ensures { Judges (spec.with_one tables.now place found.now (spec.sense x.now)) notes.old result notes.new }
{
    match found {
        Found::TypeName(ty) => converted(alloc, tables, x, place, *ty, notes),
        Found::Subpools(function) => with_pool(alloc, tables, x, *function, notes),
        Found::Image(ty) => {
            let typed = expression(alloc, tables, x, Asked::Exactly(*ty), notes)?;
            Ok(imaged(typed))
        }
        _ => Ok(wrong(FaultCode::Type, place, notes)),
    }
}

/// Judges the argument of a function on a mark pool: a variable of the type of such pools (RM 13.11.4).
#[cycle(expression)]
fn with_pool(
    alloc: Global,
    tables: &Tables,
    x: &Expression<Use>,
    function: SubpoolFunction,
    notes: &mut Notes,
) -> Result<Option<Found>, AllocError>
    ensures { Judges (spec.subpool_by tables.now function (spec.sense x.now)) notes.old result notes.new }
{
    match variable_of(alloc, tables, x, Ty::Record(MARK_RELEASE_POOL), notes)? {
        Some(pool) => Ok(Some(subpool_of(alloc, function, pool)?)),
        None => Ok(None),
    }
}

/// Judges a conversion (RM 4.6).
#[cycle(expression)]
fn converted(
    alloc: Global,
    tables: &Tables,
    x: &Expression<Use>,
    place: Span,
    ty: Ty,
    notes: &mut Notes,
) -> Result<Option<Found>, AllocError>
    ensures { Judges (spec.converted tables.now place ty (spec.sense x.now)) notes.old result notes.new }
{
    match ty {
        Ty::Integer => number_as(alloc, tables, x, Ty::Integer, notes),
        Ty::Count => number_as(alloc, tables, x, Ty::Count, notes),
        Ty::Access(access) => match expression(alloc, tables, x, Asked::Anything, notes)? {
            Some(typed) => {
                let inner = place_within(x);
                Ok(converted_access(alloc, tables, place, inner, access, typed, notes))
            }
            None => Ok(None),
        },
        Ty::Record(number) => match bare(alloc, tables, x, place, notes)? {
            Some(part) => viewed(tables, place, place_of(x), number, part, notes),
            None => Ok(None),
        },
        Ty::Boolean | Ty::Address | Ty::Handle => Ok(wrong(FaultCode::Type, place, notes)),
    }
}

/// Judges a conversion to a number type (RM 4.6).
#[cycle(expression)]
fn number_as(
    alloc: Global,
    tables: &Tables,
    x: &Expression<Use>,
    ty: Ty,
    notes: &mut Notes,
) -> Result<Option<Found>, AllocError>
    ensures { Judges (senses.number_of tables.now ty (spec.sense x.now)) notes.old result notes.new }
{
    let typed = expression(alloc, tables, x, Asked::Number, notes)?;
    converted_number(alloc, ty, typed)
}

/// Judges an expression that is to be a name alone; any other is told at a place.
#[cycle(expression)]
fn bare(
    alloc: Global,
    tables: &Tables,
    x: &Expression<Use>,
    place: Span,
    notes: &mut Notes,
) -> Result<Option<Found>, AllocError>
    ensures { Judges (senses.bare_found place (spec.sense x.now).bare tables.now) notes.old result notes.new }
{
    match x {
        Expression::Name(_, name) => found(alloc, tables, name, notes),
        _ => Ok(wrong(FaultCode::Type, place, notes)),
    }
}

/// Judges what is written to: a variable of a type, which a name denotes (RM 6.4.1).
#[cycle(expression)]
pub fn variable_of(
    alloc: Global,
    tables: &Tables,
    x: &Expression<Use>,
    ty: Ty,
    notes: &mut Notes,
) -> Result<Option<Place>, AllocError>
    ensures { Judges (spec.variable_of tables.now ty (spec.sense x.now)) notes.old result notes.new }
{
    match x {
        Expression::Name(place, name) => {
            let found = found(alloc, tables, name, notes)?;
            variable_named(alloc, tables, *place, ty, found, notes)
        }
        _ => {
            let typed = expression(alloc, tables, x, Asked::Exactly(ty), notes)?;
            Ok(no_variable(place_of(x), typed, notes))
        }
    }
}

/// Judges the actual of a formal that is written to (RM 6.4.1).
#[cycle(expression)]
fn written_by(
    alloc: Global,
    tables: &Tables,
    x: &Expression<Use>,
    mode: Mode,
    ty: Ty,
    notes: &mut Notes,
) -> Result<Option<Actual>, AllocError>
    ensures { Judges (senses.written_by tables.now mode ty (spec.sense x.now)) notes.old result notes.new }
{
    match variable_of(alloc, tables, x, ty, notes)? {
        Some(part) => Ok(Some(by_name(alloc, mode, part)?)),
        None => Ok(None),
    }
}

/// Judges an actual that is handed on as a value (RM 6.2).
#[cycle(expression)]
fn actual_value(
    alloc: Global,
    tables: &Tables,
    x: &Expression<Use>,
    ty: Ty,
    notes: &mut Notes,
) -> Result<Option<Actual>, AllocError>
    ensures { Judges (senses.actual_value tables.now ty (spec.sense x.now)) notes.old result notes.new }
{
    match expression(alloc, tables, x, Asked::Exactly(ty), notes)? {
        Some(typed) => Ok(Some(Actual::ByValue(typed.value, typed.ty))),
        None => Ok(None),
    }
}

/// Judges a record that is handed on, by reference where a name denotes it, perhaps in parentheses (RM 6.2).
#[cycle(expression)]
fn record_by(
    alloc: Global,
    tables: &Tables,
    x: &Expression<Use>,
    ty: Ty,
    notes: &mut Notes,
) -> Result<Option<Actual>, AllocError>
    ensures { Judges (senses.record_handed tables.now ty (spec.sense x.now)) notes.old result notes.new }
{
    match x {
        Expression::Name(place, name) => {
            let found = found(alloc, tables, name, notes)?;
            record_handed_on(alloc, tables, *place, ty, found, notes)
        }
        Expression::Parentheses(_, inner) => record_inside(alloc, tables, inner.get(), ty, notes),
        _ => actual_value(alloc, tables, x, ty, notes),
    }
}

/// Judges what stands in parentheses as a record that is handed on (RM 6.2).
#[cycle(expression)]
fn record_inside(
    alloc: Global,
    tables: &Tables,
    x: &Expression<Use>,
    ty: Ty,
    notes: &mut Notes,
) -> Result<Option<Actual>, AllocError>
    ensures { Judges (senses.record_inside tables.now ty (spec.sense x.now)) notes.old result notes.new }
{
    match x {
        Expression::Name(place, name) => {
            let found = found(alloc, tables, name, notes)?;
            record_in_parentheses(alloc, tables, *place, ty, found, notes)
        }
        Expression::Parentheses(_, inner) => record_inside(alloc, tables, inner.get(), ty, notes),
        _ => actual_value(alloc, tables, x, ty, notes),
    }
}

/// Judges the actual of a formal (RM 6.4.1).
#[cycle(expression)]
fn actual_of(
    alloc: Global,
    tables: &Tables,
    x: &Expression<Use>,
    formal: FormalEntry,
    notes: &mut Notes,
) -> Result<Option<Actual>, AllocError>
    ensures { Judges (spec.actual_of tables.now (formal, spec.sense x.now)) notes.old result notes.new }
{
    match (formal.mode, formal.ty) {
        (Mode::In, Ty::Record(_)) => record_by(alloc, tables, x, formal.ty, notes),
        (Mode::In, _) => actual_value(alloc, tables, x, formal.ty, notes),
        _ => written_by(alloc, tables, x, formal.mode, formal.ty, notes),
    }
}

/// Judges actuals behind those so far, each of its formal's type (RM 6.4.1).
#[cycle(expression)]
fn actuals_behind(
    alloc: Global,
    tables: &Tables,
    more: &[Expression<Use>],
    formals: &[FormalEntry],
    so_far: Option<Items<Actual>>,
    notes: &mut Notes,
) -> Result<Option<Items<Actual>>, AllocError>
    ensures { Judges (judgement.each (spec.actual_of tables.now) so_far (spec.matched formals.now (map spec.sense more.now))) notes.old result notes.new }
{
    let mut done = so_far;
    for (at, x) in more.iter().enumerate() {
        let Some(formal) = formals.get(at) else {
            return Ok(done);
        };
        let one = actual_of(alloc, tables, x, *formal, notes);
        done = appended_with(done, one)?;
    }
    Ok(done)
}

/// Judges the actuals of a call, a first one and more: as many as formals, each of its formal's type (RM 6.4.1).
#[cycle(expression)]
pub fn actuals(
    alloc: Global,
    tables: &Tables,
    place: Span,
    formals: &[FormalEntry],
    first: &Expression<Use>,
    more: &[Expression<Use>],
    notes: &mut Notes,
) -> Result<Option<Items<Actual>>, AllocError>
    ensures { Judges (spec.actuals_of tables.now place formals.now (spec.sense first.now ∷ map spec.sense more.now)) notes.old result notes.new }
{
    let Some((formal, others)) = formals.split_first() else {
        return Ok(wrong(FaultCode::Type, place, notes));
    };
    if others.len() != more.len() {
        return Ok(wrong(FaultCode::Type, place, notes));
    }
    let one = actual_of(alloc, tables, first, *formal, notes);
    let so_far = appended_with(Some(Items::new(alloc)), one)?;
    actuals_behind(alloc, tables, more, others, so_far, notes)
}

/// Judges a call in an expression (RM 6.4).
#[cycle(expression)]
fn called(
    alloc: Global,
    tables: &Tables,
    first: &Expression<Use>,
    more: &[Expression<Use>],
    place: Span,
    number: usize,
    notes: &mut Notes,
) -> Result<Option<Found>, AllocError>
    ensures { Judges (spec.called tables.now place (spec.profile_of tables.now number) (spec.sense first.now ∷ map spec.sense more.now)) notes.old result notes.new }
{
    let Some(profile) = profile_of(tables, number) else {
        return Ok(wrong(FaultCode::Type, place, notes));
    };
    let formals = profile.formals.as_slice();
    match actuals(alloc, tables, place, formals, first, more, notes)? {
        Some(actuals) => Ok(result_found(alloc, place, profile, actuals, notes)),
        None => Ok(None),
    }
}

/// Judges an allocator: its handle, the type of the new object, and its value (RM 4.8, 13.11.4).
#[cycle(expression)]
fn allocation(
    alloc: Global,
    tables: &Tables,
    handle: &Option<Boxed<Name<Use, Expression<Use>>>>,
    mark: &Mark<Use>,
    value: &Option<Boxed<Expression<Use>>>,
    place: Span,
    asked: Asked,
    notes: &mut Notes,
) -> Result<Option<Typed>, AllocError>
    ensures { Judges (spec.new_judged place (option_map senses.name_sense handle.now) mark.now (option_map spec.sense value.now) tables.now asked) notes.old result notes.new }
{
    let handle = handle_or_none(alloc, tables, handle, asked, notes)?;
    let object = new_object(alloc, tables, mark, value, place, asked, notes);
    let parts = paired_with(handle, object)?;
    allocator(alloc, parts, notes)
}

/// Judges the handle of an allocator, where it has one, by the type that is asked of the allocator (RM 13.11.4).
#[cycle(expression)]
fn handle_or_none(
    alloc: Global,
    tables: &Tables,
    handle: &Option<Boxed<Name<Use, Expression<Use>>>>,
    asked: Asked,
    notes: &mut Notes,
) -> Result<Option<Option<Expr>>, AllocError>
    ensures { Judges (spec.handle_given tables.now asked (option_map senses.name_sense handle.now)) notes.old result notes.new }
{
    let Some(name) = handle else {
        return Ok(Some(None));
    };
    let name = name.get();
    let found = found(alloc, tables, name, notes)?;
    handle_of(alloc, tables, name.first.span, asked, found, notes)
}

/// Judges the type of a new object, and by it the rest: the access type that is asked, and the value (RM 4.8).
#[cycle(expression)]
fn new_object(
    alloc: Global,
    tables: &Tables,
    mark: &Mark<Use>,
    value: &Option<Boxed<Expression<Use>>>,
    place: Span,
    asked: Asked,
    notes: &mut Notes,
) -> Result<Option<(Ty, (usize, Option<Expr>))>, AllocError>
    ensures { Judges (judgement.following (spec.mark_judged tables.now (spec.told_at place mark.now.first) mark.now.rest) (spec.object_judged tables.now place asked (option_map spec.sense value.now))) notes.old result notes.new }
{
    let first = told_at(place, mark.first);
    let ty = mark_judged(alloc, tables, first, mark.rest.as_slice(), notes)?;
    paired_with(ty, object(alloc, tables, value, place, asked, ty, notes))
}

/// Judges the access type that is asked of an allocator, and the value of the new object (RM 4.8).
#[cycle(expression)]
fn object(
    alloc: Global,
    tables: &Tables,
    value: &Option<Boxed<Expression<Use>>>,
    place: Span,
    asked: Asked,
    ty: Option<Ty>,
    notes: &mut Notes,
) -> Result<Option<(usize, Option<Expr>)>, AllocError>
    ensures { Judges (spec.object_judged tables.now place asked (option_map spec.sense value.now) ty) notes.old result notes.new }
{
    let access = allocates_known(tables, place, asked, ty, notes);
    paired_with(
        access,
        value_or_none(alloc, tables, value, place, ty, notes),
    )
}

/// Judges the value of an allocator, where it has one, by the type of the new object, where that is known (RM 4.8).
#[cycle(expression)]
fn value_or_none(
    alloc: Global,
    tables: &Tables,
    value: &Option<Boxed<Expression<Use>>>,
    place: Span,
    ty: Option<Ty>,
    notes: &mut Notes,
) -> Result<Option<Option<Expr>>, AllocError>
    ensures { Judges (spec.value_judged tables.now place ty (option_map spec.sense value.now)) notes.old result notes.new }
{
    let Some(value) = value else {
        return Ok(Some(None));
    };
    let asked = value_asked(tables, place, ty, notes);
    match expression(alloc, tables, value.get(), asked, notes)? {
        Some(typed) => Ok(Some(Some(typed.value))),
        None => Ok(None),
    }
}
