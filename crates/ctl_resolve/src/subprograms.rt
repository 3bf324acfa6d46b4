//! The headings of subprograms, and what their declarations and bodies declare (RM 6.1, 6.3, 8.3).

ghost use Rattle.std.specs.Prelude.{◌≡◌, [], IfOk, OnOk};
ghost use Rattle.ctl_resolve.specs.Naming.{Names, each, optional};
ghost use Rattle.ctl_resolve.specs.Expressions as expressions;
ghost use Rattle.ctl_resolve.specs.declared.view.Usage.TheVariants as usage;
ghost use Rattle.ctl_resolve.specs.Declarations as spec;

use crate::copies::{folded, identifier};
use crate::declarations::{hide_each, new_names, next, own_found, role_as};
use crate::library::operation_named;
use crate::lists::{added, room_for};
use crate::names::{mark, meaning};
use crate::notes::{cut, enter_master, leave, note_if, set_stage};
use crate::view::{Filing, Known, Meaning, Role, Sought, Stage, Usage, View};
use ctl_grammar::spelling::is_same_name;
use ctl_syntax::denoted::{Definition, Denoted, OperationName, Use};
use ctl_syntax::item::{Formal, Specification};
use ctl_syntax::name::{Identifier, Mark};
use ctl_tree::fault::FaultCode;
use ctl_tree::text::Text;
use sqlite_items::Items;
use std::alloc::{AllocError, Global};

/// Answers the last of these identifiers.
fn last_identifier<'a>(first: &'a Identifier, rest: &'a [Identifier]) -> &'a Identifier
    ensures { result.now ≡ spec.last_identifier first.now rest.now }
{
    let mut last = first;
    for id in rest {
        last = id;
    }
    last
}

/// Answers what a name denotes that has so many identifiers behind the first; where some are left, it denotes no type.
fn in_full(count: usize, meaning: Meaning) -> Denoted
    ensures { result ≡ spec.in_full count meaning }
{
    match meaning {
        Meaning::Means(denoted, used) => if used == count {
            denoted
        } else {
            Denoted::Unknown
        },
        _ => Denoted::Unknown,
    }
}

/// Tells whether a name is one of these.
fn is_one_of(name: &Identifier, ids: &[Identifier]) -> bool
    ensures { result ≡ spec.is_one_of name.now ids.now }
{
    for id in ids {
        if is_same_name(name.text.as_bytes(), id.text.as_bytes()) {
            return true;
        }
    }
    false
}

/// Answers what the mark of parameters denotes where the heading begins.
fn formal_denoted(
    alloc: Global,
    view: &View,
    formal: &Formal<Identifier, Identifier>,
) -> Result<Denoted, AllocError>
    ensures { IfOk result (λ d. d ≡ spec.formal_denoted view.now formal.now) }
{
    if is_one_of(&formal.mark.first, formal.names.as_slice()) {
        return Ok(Denoted::Unknown);
    }
    let meaning = meaning(alloc, view, &formal.mark.first, formal.mark.rest.as_slice())?;
    Ok(in_full(formal.mark.rest.len(), meaning))
}

/// Answers what an override is filed under.
fn filed_override(
    alloc: Global,
    view: &View,
    operation: OperationName,
    formals: &[Formal<Identifier, Identifier>],
) -> Result<Filing, AllocError>
    ensures { IfOk result (λ f. f ≡ spec.filed_override view.now operation formals.now) }
{
    match formals.first() {
        None => Ok(Filing {
            key: Text::new(alloc),
            role: Role::Override(operation, Denoted::Unknown),
        }),
        Some(formal) => {
            let denoted = formal_denoted(alloc, view, formal)?;
            let last = last_identifier(&formal.mark.first, formal.mark.rest.as_slice());
            Ok(Filing {
                key: Text::from_vec(folded(alloc, last)?),
                role: Role::Override(operation, denoted),
            })
        }
    }
}

/// Answers what a subprogram is filed under.
pub fn filed(
    alloc: Global,
    view: &View,
    of: &Specification<Identifier, Identifier>,
) -> Result<Filing, AllocError>
    ensures { IfOk result (λ f. f ≡ spec.filed view.now of.now) }
{
    match operation_named(of.name.text.as_bytes()) {
        Some(operation) => filed_override(alloc, view, operation, of.formals.as_slice()),
        None => Ok(Filing {
            key: Text::from_vec(folded(alloc, &of.name)?),
            role: Role::Direct,
        }),
    }
}

/// Answers what to seek for a subprogram of this role.
fn sought_of(role: Role) -> Sought
    ensures { result ≡ spec.sought_of role }
{
    match role {
        Role::Override(operation, denoted) => Sought::Override(operation, denoted),
        Role::Direct | Role::Repeated => Sought::Direct,
    }
}

/// Answers what to seek for a subprogram of this role that waits for its body.
fn bodiless_of(role: Role) -> Sought
    ensures { result ≡ spec.bodiless_of role }
{
    match role {
        Role::Override(operation, denoted) => Sought::BodilessOverride(operation, denoted),
        Role::Direct | Role::Repeated => Sought::Bodiless,
    }
}

/// Tells whether the region declares a subprogram of this heading, or something else of its name.
fn is_declared(
    alloc: Global,
    view: &View,
    of: &Specification<Identifier, Identifier>,
    filing: &Filing,
) -> Result<bool, AllocError>
    ensures { IfOk result (λ declared. declared ≡ spec.is_declared view.now of.now filing.now) }
{
    let name = folded(alloc, &of.name)?;
    let same = own_found(view, sought_of(filing.role), filing.key.as_bytes());
    let other = own_found(view, Sought::Direct, name.as_slice());
    Ok(same.is_some() || other.is_some())
}

/// Declares a new subprogram, hidden in its heading, and notes a second one of its region.
fn declare_subprogram(
    alloc: Global,
    view: &mut View,
    of: &Specification<Identifier, Identifier>,
    filing: &Filing,
) -> Result<(), AllocError>
    ensures { OnOk result (view.new ≡ spec.declare_subprogram of.now filing.now view.old) }
{
    let declared = is_declared(alloc, view, of, filing)?;
    note_if(view, declared, FaultCode::Duplicate, of.name.span);
    let key = Vec::from_slice(alloc, filing.key.as_bytes())?;
    let role = role_as(declared, filing.role);
    let level = view.part.level;
    view.table
        .push(key, role, Stage::Hidden, level, of.name.span)
}

/// Resolves parameters of one mode and type.
fn formal(
    alloc: Global,
    view: &mut View,
    of: &Formal<Identifier, Identifier>,
) -> Result<Formal<Definition, Use>, AllocError>
    ensures { Names (spec.formal of.now) view.old result view.new }
{
    let count = view.table.count();
    hide_each(alloc, view, of.names.as_slice())?;
    let mark = mark(alloc, view, Usage::Plain, &of.mark)?;
    cut(view, count);
    let names = new_names(alloc, view, of.names.as_slice())?;
    Ok(Formal {
        names,
        mode: of.mode,
        mark,
    })
}

/// Resolves parameters, each in turn.
fn formals(
    alloc: Global,
    view: &mut View,
    all: &[Formal<Identifier, Identifier>],
) -> Result<Items<Formal<Definition, Use>>, AllocError>
    ensures { Names (each spec.formal [] all.now) view.old result view.new }
{
    let mut resolved = room_for(alloc, all.len())?;
    for one in all {
        resolved = added(resolved, formal(alloc, view, one))?;
    }
    Ok(resolved)
}

/// Resolves a mark that may be absent.
pub fn mark_or_none(
    alloc: Global,
    view: &mut View,
    of: &Option<Mark<Identifier>>,
) -> Result<Option<Mark<Use>>, AllocError>
    ensures { Names (optional (expressions.mark usage.Plain) of.now) view.old result view.new }
{
    match of {
        None => Ok(None),
        Some(of) => {
            let resolved = mark(alloc, view, Usage::Plain, of)?;
            Ok(Some(resolved))
        }
    }
}

/// Resolves the heading of a subprogram that has this definition.
pub fn heading(
    alloc: Global,
    view: &mut View,
    of: &Specification<Identifier, Identifier>,
    name: Definition,
) -> Result<Specification<Definition, Use>, AllocError>
    ensures { Names (spec.heading of.now name) view.old result view.new }
{
    let formals = formals(alloc, view, of.formals.as_slice())?;
    let result = mark_or_none(alloc, view, &of.result)?;
    Ok(Specification {
        indicator: of.indicator,
        span: of.span,
        name,
        formals,
        result,
    })
}

/// Answers how far a declaration has come at its end: a second one does not wait for the body.
fn announced(is_second: bool) -> Stage
    ensures { result ≡ spec.announced is_second }
{
    if is_second {
        Stage::Complete
    } else {
        Stage::Bodiless
    }
}

/// Resolves the declaration of a subprogram that is filed under this.
fn announce(
    alloc: Global,
    view: &mut View,
    of: &Specification<Identifier, Identifier>,
    filing: &Filing,
) -> Result<Specification<Definition, Use>, AllocError>
    ensures { Names (spec.announce of.now filing.now) view.old result view.new }
{
    let is_second = is_declared(alloc, view, of, filing)?;
    let number = view.table.count();
    let name = next(alloc, view, &of.name)?;
    declare_subprogram(alloc, view, of, filing)?;
    let around = enter_master(view)?;
    let heading = heading(alloc, view, of, name)?;
    leave(view, around);
    set_stage(view, number, announced(is_second));
    Ok(heading)
}

/// Resolves the declaration of a subprogram (RM 6.1).
pub fn declaration(
    alloc: Global,
    view: &mut View,
    of: &Specification<Identifier, Identifier>,
) -> Result<Specification<Definition, Use>, AllocError>
    ensures { Names (spec.declaration of.now) view.old result view.new }
{
    let filing = filed(alloc, view, of)?;
    announce(alloc, view, of, &filing)
}

/// Begins the body of a subprogram: it completes this declaration, or declares a new one.
fn begun_as(
    alloc: Global,
    view: &mut View,
    of: &Specification<Identifier, Identifier>,
    filing: &Filing,
    completed: Option<Known>,
) -> Result<Definition, AllocError>
    ensures { Names (spec.begun_as of.now filing.now completed) view.old result view.new }
{
    match completed {
        Some(known) => Ok(Definition {
            identifier: identifier(alloc, &of.name)?,
            number: known.number,
            level: known.level,
        }),
        None => {
            let definition = next(alloc, view, &of.name)?;
            declare_subprogram(alloc, view, of, filing)?;
            Ok(definition)
        }
    }
}

/// Begins the body of a subprogram (RM 6.3).
pub fn begun(
    alloc: Global,
    view: &mut View,
    of: &Specification<Identifier, Identifier>,
) -> Result<Definition, AllocError>
    ensures { Names (spec.begun of.now) view.old result view.new }
{
    let filing = filed(alloc, view, of)?;
    let completed = own_found(view, bodiless_of(filing.role), filing.key.as_bytes());
    begun_as(alloc, view, of, &filing, completed)
}
