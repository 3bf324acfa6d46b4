//! Subprograms: their declarations, and what is known where their bodies begin and end (RM 6.1, 6.3).

ghost use Rattle.std.specs.Option.{option_copied};
ghost use Rattle.std.specs.Prelude.{◌≡◌, ◌++◌, IfOk, OnOk, Some, map, slice_get};
ghost use Rattle.ctl_types.specs.Elaboration as elaboration;
ghost use Rattle.ctl_types.specs.Subprograms as spec;
ghost use Rattle.ctl_typing.specs.Judgement.{Judges, Yields};

use crate::masters::Opened;
use ctl_declarations::headings::{Heading, heading};
use ctl_declarations::overriding::{has_same_formals, keep_indicator, play, role_of};
use ctl_draft::draft::{Around, Draft, Giving, Routine};
use ctl_draft::freezing::freeze_all;
use ctl_grammar::spelling::is_same_name;
use ctl_program::operators::SubprogramKind;
use ctl_program::statement as checked;
use ctl_program::types::Ty;
use ctl_syntax::denoted::{Definition, Use};
use ctl_syntax::item::{Formal, Specification};
use ctl_syntax::name::Mark;
use ctl_tree::fault::FaultCode;
use ctl_tree::span::Span;
use ctl_tree::text::Text;
use ctl_typing::judging::is_same;
use ctl_typing::table::{Entry, Profile};
use sqlite_items::Items;
use std::alloc::{AllocError, Global};

/// Answers whether a heading is a procedure's or a function's (RM 6.1).
fn kind_of(returned: &Option<Mark<Use>>) -> SubprogramKind
    ensures { result ≡ spec.kind_of returned.now }
{
    match returned {
        None => SubprogramKind::Procedure,
        Some(_) => SubprogramKind::Function,
    }
}

/// Adds a subprogram without its body, with the next number.
pub fn add_subprogram(
    around: Around,
    kind: SubprogramKind,
    draft: &mut Draft,
) -> Result<(), AllocError>
    ensures { OnOk result (draft.new ≡ spec.add_subprogram around kind draft.old) }
{
    draft.subprograms.push(Routine {
        level: around.level,
        kind,
        body: None,
    })
}

/// Adds names behind those so far.
fn more_names(
    alloc: Global,
    before: Items<Text>,
    names: &[Definition],
) -> Result<Items<Text>, AllocError>
    ensures { IfOk result (λ all. all ≡ before ++ map (λ n. n.identifier.text) names.now) }
{
    let mut all = before;
    for name in names {
        all.push(name.identifier.text.copied(alloc)?)?;
    }
    Ok(all)
}

/// Answers the names of formals, in their order.
fn formal_names(
    alloc: Global,
    formals: &[Formal<Definition, Use>],
) -> Result<Items<Text>, AllocError>
    ensures { IfOk result (λ names. names ≡ spec.formal_names formals.now) }
{
    let mut names = Items::new(alloc);
    for one in formals {
        names = more_names(alloc, names, one.names.as_slice())?;
    }
    Ok(names)
}

/// Makes the declaration of a subprogram, of which nothing is known where its heading is wrong.
fn entry_of(subprogram: usize, names: Items<Text>, heading: Option<Heading>) -> Entry
    ensures { result ≡ spec.entry_of subprogram names heading }
{
    match heading {
        None => Entry::Unknown,
        Some((formals, returned)) => Entry::Subprogram(Profile {
            subprogram,
            formals,
            names,
            result: returned,
        }),
    }
}

/// Answers the number of a subprogram that takes a body: its heading is known.
fn numbered(subprogram: usize, heading: &Option<Heading>) -> Option<usize>
    ensures { result ≡ spec.numbered subprogram heading.now }
{
    match heading {
        None => None,
        Some(_) => Some(subprogram),
    }
}

/// Declares a subprogram, with the next number.
fn introduce(
    alloc: Global,
    around: Around,
    specification: &Specification<Definition, Use>,
    heading: Option<Heading>,
    draft: &mut Draft,
) -> Result<Option<usize>, AllocError>
    ensures { Judges (λ d. spec.introduce around specification.now (heading, d)) draft.old result draft.new }
{
    let number = draft.subprograms.len();
    let role = role_of(alloc, around, specification, &heading, &draft.tables)?;
    play(specification.name.identifier.span, number, role, draft);
    add_subprogram(around, kind_of(&specification.result), draft)?;
    let names = formal_names(alloc, specification.formals.as_slice())?;
    let taking = numbered(number, &heading);
    draft.declare(entry_of(number, names, heading))?;
    Ok(taking)
}

/// Declares a subprogram whose body stands behind (RM 6.1).
pub fn declaration(
    alloc: Global,
    place: Span,
    specification: &Specification<Definition, Use>,
    around: Around,
    draft: &mut Draft,
) -> Result<Items<checked::Item>, AllocError>
    ensures { Yields (spec.declaration place specification.now around) draft.old result draft.new }
{
    let heading = heading(alloc, place, specification, draft)?;
    introduce(alloc, around, specification, heading, draft)?;
    let mut items = Items::new(alloc);
    items.push(checked::Item::Silent)?;
    Ok(items)
}

/// Tells whether both are the same names; case does not count (RM 2.3).
fn has_same_names(a: &[Text], b: &[Text]) -> bool
    ensures { result ≡ spec.same_names a.now b.now }
{
    let mut left = a;
    let mut right = b;
    'names: while let (Some((x, more)), Some((y, others))) = (
        left.split_first(),
        right.split_first(),
    ) {
        if !is_same_name(x.as_bytes(), y.as_bytes()) {
            return false;
        }
        left = more;
        right = others;
    }
    left.is_empty() && right.is_empty()
}

/// Tells whether both are one type, or both are none.
fn is_same_result(a: Option<Ty>, b: Option<Ty>) -> bool
    ensures { result ≡ spec.same_results a b }
{
    match (a, b) {
        (None, None) => true,
        (Some(a), Some(b)) => is_same(a, b),
        _ => false,
    }
}

/// Tells whether a body repeats the names, modes and types of its declaration (RM 6.3.1).
fn conforms(profile: &Profile, names: &[Text], heading: &Heading) -> bool
    ensures { result ≡ spec.conforms profile.now names.now heading.now }
{
    has_same_formals(profile.formals.as_slice(), heading.0.as_slice())
        && has_same_names(profile.names.as_slice(), names)
        && is_same_result(profile.result, heading.1)
}

/// Tells whether a body repeats its declaration, as far as its heading is known (RM 6.3.1).
fn has_conformed(profile: &Profile, names: &[Text], heading: &Option<Heading>) -> bool
    ensures { result ≡ spec.conformed profile.now names.now heading.now }
{
    match heading {
        None => true,
        Some(heading) => conforms(profile, names, heading),
    }
}

/// Tells whether there is a subprogram that is declared so deep.
fn is_of_level(level: usize, routine: Option<&Routine>) -> bool
    ensures { result ≡ spec.is_of_level level (option_copied routine.entry) }
{
    match routine {
        None => false,
        Some(routine) => routine.level == level,
    }
}

/// Answers the subprogram of the part that takes a body which repeats its declaration (RM 6.3.1).
fn completes(
    around: Around,
    routines: &[Routine],
    profile: &Profile,
    names: &[Text],
    heading: &Option<Heading>,
) -> Option<usize>
    ensures { result ≡ spec.completes around routines.now profile.now names.now heading.now }
{
    match heading {
        None => None,
        Some(heading) => {
            let routine = sqlite_items::at(routines, profile.subprogram);
            if conforms(profile, names, heading) && is_of_level(around.level, routine) {
                Some(profile.subprogram)
            } else {
                None
            }
        }
    }
}

/// Answers the subprogram that a body completes; the body repeats its declaration (RM 6.3.1).
fn completed(
    alloc: Global,
    around: Around,
    place: Span,
    specification: &Specification<Definition, Use>,
    heading: Option<Heading>,
    draft: &mut Draft,
) -> Result<Option<usize>, AllocError>
    ensures { Judges (λ d. spec.completed around place specification.now (slice_get d.tables.entries specification.now.name.number) (heading, d)) draft.old result draft.new }
{
    let names = formal_names(alloc, specification.formals.as_slice())?;
    let entries = draft.tables.entries.as_slice();
    let Some(Entry::Subprogram(profile)) = sqlite_items::at(entries, specification.name.number)
    else {
        return Ok(None);
    };
    let routines = draft.subprograms.as_slice();
    let number = completes(around, routines, profile, names.as_slice(), &heading);
    let is_kept = has_conformed(profile, names.as_slice(), &heading);
    draft.fault_when(!is_kept, FaultCode::Type, place);
    keep_indicator(specification, draft);
    Ok(number)
}

/// Answers the subprogram of a body, which may complete a declaration (RM 6.3).
fn subprogram_of(
    alloc: Global,
    around: Around,
    place: Span,
    specification: &Specification<Definition, Use>,
    heading: Option<Heading>,
    draft: &mut Draft,
) -> Result<Option<usize>, AllocError>
    ensures { Judges (λ d. spec.subprogram_of around place specification.now (heading, d)) draft.old result draft.new }
{
    if draft.is_declared_in(around, specification.name.number) {
        completed(alloc, around, place, specification, heading, draft)
    } else {
        introduce(alloc, around, specification, heading, draft)
    }
}

/// Answers what the returns of a body give (RM 6.5).
fn giving_of(returned: &Option<Mark<Use>>, heading: &Option<Heading>) -> Giving
    ensures { result ≡ spec.giving_of returned.now heading.now }
{
    match (returned, heading) {
        (None, _) => Giving::Nothing,
        (Some(_), Some((_, Some(ty)))) => Giving::Value(*ty),
        (Some(_), _) => Giving::Unclear,
    }
}

/// Opens a body: it freezes the types of its part, after the declaration that it may make itself (RM 13.14(3)).
pub fn opened(
    alloc: Global,
    place: Span,
    specification: &Specification<Definition, Use>,
    around: Around,
    draft: &mut Draft,
) -> Result<Opened, AllocError>
    ensures { Yields (elaboration.opened place specification.now around) draft.old result draft.new }
{
    let heading = heading(alloc, place, specification, draft)?;
    let giving = giving_of(&specification.result, &heading);
    let number = subprogram_of(alloc, around, place, specification, heading, draft)?;
    let layers = freeze_all(alloc, around, draft)?;
    Ok(Opened {
        giving,
        number,
        layers,
    })
}

/// Puts the body of a subprogram where it belongs.
pub fn put_body(number: Option<usize>, master: checked::Master, draft: &mut Draft)
    ensures { draft.new ≡ spec.put_body number (Some master) draft.old }
{
    let Some(number) = number else {
        return;
    };
    if let Some(found) = draft.subprograms.get(number) {
        let level = found.level;
        let kind = found.kind;
        draft.subprograms.set(
            number,
            Routine {
                level,
                kind,
                body: Some(master),
            },
        );
    }
}

/// Ends a subprogram's body, whose item stands behind the collections that it froze (RM 6.3, 13.14(3)).
pub fn body_put(
    number: Option<usize>,
    layers: Items<checked::Item>,
    master: Option<checked::Master>,
    draft: &mut Draft,
) -> Result<Option<Items<checked::Item>>, AllocError>
    ensures { Judges (λ d. elaboration.body_put number layers (master, d)) draft.old result draft.new }
{
    let Some(master) = master else {
        return Ok(None);
    };
    put_body(number, master, draft);
    let mut items = layers;
    items.push(checked::Item::Silent)?;
    Ok(Some(items))
}
