//! What the tables say of types.

ghost use Rattle.std.specs.Prelude.{◌≡◌, drop, slice_get};
ghost use Rattle.std.specs.Option.{option_copied};
ghost use Rattle.ctl_typing.specs.Lookup as spec;
ghost use Rattle.ctl_typing.specs.Typing as typing;

use crate::table::{AccessEntry, ComponentEntry, Designated, Entry, Profile, RecordEntry, Tables};
use ctl_grammar::spelling::is_same_name;
use ctl_program::types::{Root, Ty};
use ctl_syntax::item::{Generality, Limitation};
use ctl_tree::text::Text;

/// Answers the component of a name among these: its position and its type.
fn component_among(name: &Text, own: &[ComponentEntry]) -> Option<(usize, Ty)>
    ensures { result ≡ spec.component_among name.now own.now }
{
    for component in own {
        if is_same_name(name.as_bytes(), component.name.as_bytes()) {
            return Some((component.position, component.ty));
        }
    }
    None
}

/// Answers the component of a name that a record type has, its own or an inherited one (RM 3.4, 4.1.3): its position and its type.
pub fn component_of(tables: &Tables, name: &Text, number: usize) -> Option<(usize, Ty)>
    ensures { result ≡ spec.component_of tables.now name.now number }
{
    let records = tables.records.as_slice();
    let mut at = number;
    for _ in 0..records.len() {
        let entry = sqlite_items::at(records, at)?;
        if let Some(found) = component_among(name, entry.own.as_slice()) {
            return Some(found);
        }
        at = entry.parent?;
    }
    None
}

/// Tells whether a record type is another, or descends from it (RM 3.4.1).
pub fn descends(tables: &Tables, ancestor: usize, number: usize) -> bool
    ensures { result ≡ spec.descends tables.now ancestor number }
{
    let records = tables.records.as_slice();
    let mut at = number;
    for _ in 0..records.len() {
        if at == ancestor {
            return true;
        }
        let Some(
            RecordEntry {
                parent: Some(parent),
                ..
            },
        ) = sqlite_items::at(records, at)
        else {
            return false;
        };
        at = *parent;
    }
    at == ancestor
}

/// Answers what a record type descends from.
pub fn root_of(tables: &Tables, number: usize) -> Root
    ensures { result ≡ spec.root_of (slice_get tables.now.records number) }
{
    match sqlite_items::at(tables.records.as_slice(), number) {
        Some(entry) => entry.root,
        None => Root::Untagged,
    }
}

/// Tells whether a type is limited (RM 7.5).
pub fn is_limited(tables: &Tables, ty: Ty) -> bool
    ensures { result ≡ spec.is_limited tables.now ty }
{
    match ty {
        Ty::Record(number) => match sqlite_items::at(tables.records.as_slice(), number) {
            Some(entry) => entry.limitation == Limitation::Limited,
            None => false,
        },
        _ => false,
    }
}

/// Answers the access type of a number.
fn access_at(tables: &Tables, access: usize) -> Option<AccessEntry>
    ensures { result ≡ slice_get tables.now.states.accesses access }
{
    sqlite_items::at(tables.states.accesses.as_slice(), access).copied()
}

/// Answers the type that the values of an access type designate (RM 3.10); none while its full declaration has not come.
pub fn designated_by(tables: &Tables, access: usize) -> Option<Ty>
    ensures { result ≡ spec.designated_by tables.now access }
{
    match access_at(tables, access)?.designated {
        Designated::Known(ty) => Some(ty),
        Designated::Unclear | Designated::Awaited(_, _) => None,
    }
}

/// Tells whether an access type is general (RM 3.10).
pub fn is_general(tables: &Tables, access: usize) -> bool
    ensures { result ≡ spec.is_general (slice_get tables.now.states.accesses access) }
{
    match access_at(tables, access) {
        Some(entry) => entry.generality == Generality::General,
        None => false,
    }
}

/// Tells whether the objects of an access type stand in subpools: it has a pool with marks (RM 13.11.4).
pub fn has_subpools(tables: &Tables, access: usize) -> bool
    ensures { result ≡ spec.has_subpools tables.now (slice_get tables.now.states.accesses access) }
{
    match access_at(tables, access) {
        Some(
            AccessEntry {
                pool: Some((_, number)),
                ..
            },
        ) => root_of(tables, number) == Root::MarkPool,
        _ => false,
    }
}

/// Answers how many masters stand around an access type.
pub fn level_of_access(tables: &Tables, access: usize) -> usize
    ensures { result ≡ spec.level_of_access (slice_get tables.now.states.accesses access) }
{
    match access_at(tables, access) {
        Some(entry) => entry.level,
        None => 0,
    }
}

/// Answers the subprogram that a declaration declares.
pub fn profile_of(tables: &Tables, number: usize) -> Option<&Profile>
    ensures { option_copied result ≡ typing.profile_of tables.now number }
{
    match sqlite_items::at(tables.entries.as_slice(), number) {
        Some(Entry::Subprogram(profile)) => Some(profile),
        _ => None,
    }
}
