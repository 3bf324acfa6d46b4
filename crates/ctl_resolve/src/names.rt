//! What names mean and denote (RM 8.3, 8.6, 10.1.2).

ghost use Rattle.std.specs.Prelude.{◌≡◌, IfOk, drop};
ghost use Rattle.ctl_resolve.specs.Naming.{Names};
ghost use Rattle.ctl_resolve.specs.Expressions as spec;

use crate::copies::{folded, identifiers};
use crate::library::{
    Unit, child_of, direct_name, is_among, name_in, operation_named, root_unit, unit_itself,
};
use crate::notes::{note, note_if};
use crate::view::{Known, Meaning, Sought, Stage, Usage, View, Way};
use ctl_syntax::denoted::{Denoted, LibraryName, Use};
use ctl_syntax::name::{Identifier, Mark};
use ctl_tree::fault::FaultCode;
use ctl_tree::span::Span;
use std::alloc::{AllocError, Global};

/// Answers where these identifiers lead from a unit, where the first of them is number 1 of its name.
fn way_from(root: Unit, rest: &[Identifier]) -> Way
    ensures { result ≡ spec.way_from root 1 rest.now }
{
    let mut unit = root;
    for (index, identifier) in rest.iter().enumerate() {
        let name = identifier.text.as_bytes();
        match child_of(unit, name) {
            Some(child) => unit = child,
            None => return Way::Stops(unit, index + 1, name_in(unit, name)),
        }
    }
    Way::Reaches(unit)
}

/// Answers where a path leads, if it begins with a library unit.
pub fn way_of(first: &Identifier, rest: &[Identifier]) -> Option<Way>
    ensures { result ≡ spec.way_of first.now rest.now }
{
    match root_unit(first.text.as_bytes()) {
        None => None,
        Some(unit) => Some(way_from(unit, rest)),
    }
}

/// Answers what a unit means that no with clause brings; Ada itself is no unit, and is visible where a child of it is.
fn not_brought(unit: Unit) -> Meaning
    ensures { result ≡ spec.not_brought unit }
{
    match unit {
        Unit::Ada => Meaning::UnknownAt(0),
        _ => Meaning::NotWithed,
    }
}

/// Answers what a name in a unit means.
fn name_meaning(number: usize, name: Option<LibraryName>) -> Meaning
    ensures { result ≡ spec.name_meaning number name }
{
    match name {
        None => Meaning::UnknownAt(number),
        Some(name) => Meaning::Means(Denoted::Library(name), number),
    }
}

/// Answers what a path means, with so many identifiers behind the first.
pub fn way_meaning(units: &[Unit], count: usize, way: Option<Way>) -> Meaning
    ensures { result ≡ spec.way_meaning units.now count way }
{
    match way {
        None => Meaning::UnknownAt(0),
        Some(Way::Reaches(unit)) => if is_among(units, unit) {
            Meaning::Means(Denoted::Library(unit_itself(unit)), count)
        } else {
            not_brought(unit)
        },
        Some(Way::Stops(unit, number, name)) => if is_among(units, unit) {
            name_meaning(number, name)
        } else {
            not_brought(unit)
        },
    }
}

/// Answers what a declaration gives to a use of its name.
fn declared(known: Known) -> Meaning
    ensures { result ≡ spec.declared known }
{
    match known.stage {
        Stage::Hidden => Meaning::UnknownAt(0),
        _ => Meaning::Means(Denoted::Declared(known.number, known.level), 0),
    }
}

/// Answers what a name means that no declaration of the text gives.
fn undeclared(view: &View, first: &Identifier, rest: &[Identifier]) -> Meaning
    ensures { result ≡ spec.meaning_by view.now first.now rest.now None }
{
    let name = first.text.as_bytes();
    if let Some(library) = direct_name(view.used.as_slice(), name) {
        return Meaning::Means(Denoted::Library(library), 0);
    }
    if let Some(operation) = operation_named(name) {
        return Meaning::Means(Denoted::Operation(operation), 0);
    }
    way_meaning(view.brought.as_slice(), rest.len(), way_of(first, rest))
}

/// Answers what a name means, whose declaration in view is this one.
fn meaning_by(view: &View, first: &Identifier, rest: &[Identifier], found: Option<Known>) -> Meaning
    ensures { result ≡ spec.meaning_by view.now first.now rest.now found }
{
    match found {
        Some(known) => declared(known),
        None => undeclared(view, first, rest),
    }
}

/// Answers what a name means that begins with these identifiers.
pub fn meaning(
    alloc: Global,
    view: &View,
    first: &Identifier,
    rest: &[Identifier],
) -> Result<Meaning, AllocError>
    ensures { IfOk result (λ m. m ≡ spec.meaning view.now first.now rest.now) }
{
    let name = folded(alloc, first)?;
    let found = view.table.find(Sought::Direct, name.as_slice());
    Ok(meaning_by(view, first, rest, found))
}

/// Answers where the identifier of this number stands.
fn identifier_at(first: &Identifier, rest: &[Identifier], number: usize) -> Span
    ensures { result ≡ spec.identifier_at first.now rest.now number }
{
    if number == 0 {
        return first.span;
    }
    match rest.get(number - 1) {
        None => first.span,
        Some(identifier) => identifier.span,
    }
}

/// Notes a name that nothing gives, or a library unit without its with clause.
pub fn note_meaning(view: &mut View, first: &Identifier, rest: &[Identifier], meaning: Meaning)
    ensures { view.new ≡ spec.note_meaning first.now rest.now meaning view.old }
{
    match meaning {
        Meaning::Means(_, _) => {}
        Meaning::UnknownAt(number) => note(
            view,
            FaultCode::Unknown,
            identifier_at(first, rest, number),
        ),
        Meaning::NotWithed => note(view, FaultCode::NotWithed, first.span),
    }
}

/// Answers what a name denotes that has this meaning.
fn what(meaning: Meaning) -> Denoted
    ensures { result ≡ spec.what meaning }
{
    match meaning {
        Meaning::Means(denoted, _) => denoted,
        _ => Denoted::Unknown,
    }
}

/// Answers how many identifiers behind the first a name uses up.
fn used_up(meaning: Meaning) -> usize
    ensures { result ≡ spec.used_up meaning }
{
    match meaning {
        Meaning::Means(_, number) => number,
        _ => 0,
    }
}

/// Tells whether a type is used before its full declaration ends, other than as a designated type (RM 3.10.1).
fn is_too_early(usage: Usage, found: Option<Known>) -> bool
    ensures { result ≡ spec.is_too_early usage found }
{
    match (usage, found) {
        (Usage::Plain, Some(known)) => known.stage == Stage::Incomplete,
        _ => false,
    }
}

/// Answers what a use of a name denotes, and how many identifiers behind the first it uses up.
pub fn used(
    alloc: Global,
    view: &mut View,
    usage: Usage,
    first: &Identifier,
    rest: &[Identifier],
) -> Result<(Use, usize), AllocError>
    ensures { Names (spec.used usage first.now rest.now) view.old result view.new }
{
    let name = folded(alloc, first)?;
    let found = view.table.find(Sought::Direct, name.as_slice());
    let meaning = meaning_by(view, first, rest, found);
    note_meaning(view, first, rest, meaning);
    note_if(
        view,
        is_too_early(usage, found),
        FaultCode::Order,
        first.span,
    );
    let denoted = what(meaning);
    Ok((
        Use {
            span: first.span,
            denoted,
        },
        used_up(meaning),
    ))
}

/// Answers those behind so many.
fn behind(rest: &[Identifier], count: usize) -> &[Identifier]
    ensures { result.now ≡ drop count rest.now }
{
    rest.get(count..).unwrap_or(&[])
}

/// Resolves the name of a type, of an exception or of a generic unit.
pub fn mark(
    alloc: Global,
    view: &mut View,
    usage: Usage,
    of: &Mark<Identifier>,
) -> Result<Mark<Use>, AllocError>
    ensures { Names (spec.mark usage of.now) view.old result view.new }
{
    let (first, count) = used(alloc, view, usage, &of.first, of.rest.as_slice())?;
    let rest = identifiers(alloc, behind(of.rest.as_slice(), count))?;
    Ok(Mark { first, rest })
}
