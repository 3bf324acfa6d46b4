//! The context: which units with and use clauses bring and open (RM 10.1.2, 8.4).

ghost use Rattle.std.specs.Prelude.{◌≡◌, ◌++◌, [], IfOk, None, OnOk};
ghost use Rattle.ctl_resolve.specs.Whole as spec;

use crate::copies::{identifier, identifiers};
use crate::library::{Unit, is_among, unit_itself, with_ancestors};
use crate::lists::{added, room_for};
use crate::names::{note_meaning, way_meaning, way_of};
use crate::view::{Meaning, View, Way};
use ctl_syntax::denoted::{Denoted, LibraryName};
use ctl_syntax::item::{Context, ContextKind};
use ctl_syntax::name::{Identifier, Mark};
use ctl_tree::fault::{Fault, FaultCode};
use sqlite_items::Items;
use std::alloc::{AllocError, Global};

/// The first broken rules of a text whose names are resolved, by place.
#[derive(Clone, Copy)]
pub struct Broken {
    /// on names, order and completion (20 to 26)
    pub names: Option<Fault>,
    /// a use clause of what is no package, a rule on types (RM 8.4(5))
    pub uses: Option<Fault>,
}

/// Answers the unit that a path names.
fn unit_named(of: &Mark<Identifier>) -> Option<Unit>
    ensures { result ≡ spec.unit_named of.now }
{
    match way_of(&of.first, of.rest.as_slice()) {
        Some(Way::Reaches(unit)) => Some(unit),
        _ => None,
    }
}

/// Adds units, each in turn.
fn add_each(units: &mut Items<Unit>, more: &[Unit]) -> Result<(), AllocError>
    ensures { OnOk result (units.new ≡ units.old ++ more.now) }
{
    for unit in more {
        units.push(*unit)?;
    }
    Ok(())
}

/// Brings a unit with its ancestors.
fn bring(units: &mut Items<Unit>, unit: Option<Unit>) -> Result<(), AllocError>
    ensures { OnOk result (units.new ≡ spec.bring units.old unit) }
{
    match unit {
        None => Ok(()),
        Some(unit) => {
            if is_among(units.as_slice(), unit) {
                return Ok(());
            }
            add_each(units, with_ancestors(unit))
        }
    }
}

/// Brings the units of a with clause.
fn bring_each(units: &mut Items<Unit>, all: &[Mark<Identifier>]) -> Result<(), AllocError>
    ensures { OnOk result (units.new ≡ spec.bring_each units.old all.now) }
{
    for one in all {
        let unit = unit_named(one);
        bring(units, unit)?;
    }
    Ok(())
}

/// Brings the units of a clause, if it is a with clause.
fn brought_by(units: &mut Items<Unit>, clause: &Context) -> Result<(), AllocError>
    ensures { OnOk result (units.new ≡ spec.brought_by units.old clause.now) }
{
    match clause.kind {
        ContextKind::With => bring_each(units, clause.units.as_slice()),
        ContextKind::Use => Ok(()),
    }
}

/// Answers the units that the with clauses of the whole context bring.
pub fn brought(alloc: Global, contexts: &[Context]) -> Result<Items<Unit>, AllocError>
    ensures { IfOk result (λ units. units ≡ spec.brought [] contexts.now) }
{
    let mut units = Items::new(alloc);
    for clause in contexts {
        brought_by(&mut units, clause)?;
    }
    Ok(units)
}

/// Opens a unit: its names are direct.
fn open_unit(units: &mut Items<Unit>, unit: Option<Unit>) -> Result<(), AllocError>
    ensures { OnOk result (units.new ≡ spec.open_unit units.old unit) }
{
    match unit {
        None => Ok(()),
        Some(unit) => {
            if is_among(units.as_slice(), unit) {
                return Ok(());
            }
            units.push(unit)
        }
    }
}

/// Opens the units of a use clause.
fn open_each(units: &mut Items<Unit>, all: &[Mark<Identifier>]) -> Result<(), AllocError>
    ensures { OnOk result (units.new ≡ spec.open_each units.old all.now) }
{
    for one in all {
        let unit = unit_named(one);
        open_unit(units, unit)?;
    }
    Ok(())
}

/// Opens the units of a clause, if it is a use clause.
fn opened_by(units: &mut Items<Unit>, clause: &Context) -> Result<(), AllocError>
    ensures { OnOk result (units.new ≡ spec.opened_by units.old clause.now) }
{
    match clause.kind {
        ContextKind::With => Ok(()),
        ContextKind::Use => open_each(units, clause.units.as_slice()),
    }
}

/// Answers the units whose names the use clauses make direct.
pub fn opened(alloc: Global, contexts: &[Context]) -> Result<Items<Unit>, AllocError>
    ensures { IfOk result (λ units. units ≡ spec.opened [] contexts.now) }
{
    let mut units = Items::new(alloc);
    for clause in contexts {
        opened_by(&mut units, clause)?;
    }
    Ok(units)
}

/// Answers what a path in a with clause means, with so many identifiers behind the first: it has to lead to a unit.
fn with_meaning(count: usize, way: Option<Way>) -> Meaning
    ensures { result ≡ spec.with_meaning count way }
{
    match way {
        None => Meaning::UnknownAt(0),
        Some(Way::Reaches(unit)) => { Meaning::Means(Denoted::Library(unit_itself(unit)), count) }
        Some(Way::Stops(_, number, _)) => Meaning::UnknownAt(number),
    }
}

/// Notes what is wrong with a unit that a clause names.
fn note_clause(view: &mut View, kind: ContextKind, of: &Mark<Identifier>)
    ensures { view.new ≡ spec.note_clause kind of.now view.old }
{
    let count = of.rest.len();
    let way = way_of(&of.first, of.rest.as_slice());
    let meaning = match kind {
        ContextKind::With => with_meaning(count, way),
        ContextKind::Use => way_meaning(view.brought.as_slice(), count, way),
    };
    note_meaning(view, &of.first, of.rest.as_slice(), meaning);
}

/// Notes what is wrong with the units that a clause names.
fn note_clauses(view: &mut View, kind: ContextKind, all: &[Mark<Identifier>])
    ensures { view.new ≡ spec.note_clauses kind all.now view.old }
{
    for one in all {
        note_clause(view, kind, one);
    }
}

/// Notes what is wrong with the clauses of the context.
pub fn note_contexts(view: &mut View, contexts: &[Context])
    ensures { view.new ≡ spec.note_contexts contexts.now view.old }
{
    for clause in contexts {
        note_clauses(view, clause.kind, clause.units.as_slice());
    }
}

/// Tells whether a path leads elsewhere than to a package: to a procedure, or to what a package declares (RM 8.4(5)).
fn leads_elsewhere(way: Option<Way>) -> bool
    ensures { result ≡ spec.leads_elsewhere way }
{
    match way {
        Some(Way::Reaches(unit)) => match unit_itself(unit) {
            LibraryName::Package => false,
            _ => true,
        },
        Some(Way::Stops(_, _, Some(_))) => true,
        Some(Way::Stops(_, _, None)) | None => false,
    }
}

/// Tells whether some path leads elsewhere than to a package.
fn any_elsewhere(all: &[Mark<Identifier>]) -> bool
    ensures { result ≡ spec.any_elsewhere all.now }
{
    for one in all {
        if leads_elsewhere(way_of(&one.first, one.rest.as_slice())) {
            return true;
        }
    }
    false
}

/// Answers the first of a fault and that of a use clause of what is no package.
fn uses_by(so_far: Option<Fault>, clause: &Context) -> Option<Fault>
    ensures { result ≡ spec.uses_by so_far clause.now }
{
    match clause.kind {
        ContextKind::Use if any_elsewhere(clause.units.as_slice()) => {
            Fault::first_of(so_far, Fault::at(FaultCode::Type, clause.span))
        }
        ContextKind::With | ContextKind::Use => so_far,
    }
}

/// Answers the first fault of a use clause of what is no package.
pub fn uses_broken(contexts: &[Context]) -> Option<Fault>
    ensures { result ≡ spec.uses_broken None contexts.now }
{
    let mut fault = None;
    for clause in contexts {
        fault = uses_by(fault, clause);
    }
    fault
}

/// Copies a path.
fn path(alloc: Global, of: &Mark<Identifier>) -> Result<Mark<Identifier>, AllocError>
    ensures { IfOk result (λ m. m ≡ of.now) }
{
    Ok(Mark {
        first: identifier(alloc, &of.first)?,
        rest: identifiers(alloc, of.rest.as_slice())?,
    })
}

/// Copies paths.
fn paths(alloc: Global, all: &[Mark<Identifier>]) -> Result<Items<Mark<Identifier>>, AllocError>
    ensures { IfOk result (λ ms. ms ≡ all.now) }
{
    let mut copies = room_for(alloc, all.len())?;
    for one in all {
        copies = added(copies, path(alloc, one))?;
    }
    Ok(copies)
}

/// Copies a clause of the context.
fn clause(alloc: Global, of: &Context) -> Result<Context, AllocError>
    ensures { IfOk result (λ c. c ≡ of.now) }
{
    Ok(Context {
        span: of.span,
        kind: of.kind,
        units: paths(alloc, of.units.as_slice())?,
    })
}

/// Copies the clauses of the context.
pub fn clauses(alloc: Global, all: &[Context]) -> Result<Items<Context>, AllocError>
    ensures { IfOk result (λ cs. cs ≡ all.now) }
{
    let mut copies = room_for(alloc, all.len())?;
    for one in all {
        copies = added(copies, clause(alloc, one))?;
    }
    Ok(copies)
}
