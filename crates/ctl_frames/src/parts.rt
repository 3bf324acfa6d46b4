//! What the code knows of types: how many cells their objects have, and of record types their components, and whether they need finalization
//! (RM 3.8, 7.6, 7.6.1).

ghost use Rattle.std.specs.Prelude.{◌≡◌, ◌-◌, ◌^◌, ◌<◌, IfOk, Some, length, slice_get};
ghost use Rattle.ctl_meaning.specs.Lists.{item_or};
ghost use Rattle.ctl_code.specs.Table as Table;
ghost use Rattle.ctl_frames.specs.Needs.{need_of, needs_of};

use ctl_code::code::{Begun, Code, Parts};
use ctl_groups::Need;
use ctl_program::types::Ty;
use std::alloc::{AllocError, Global};

/// Answers how many cells an object of a record type has; none where the code knows no such type.
#[inline(always)]
pub fn size_of(code: &Code, record: usize) -> usize
    ensures { result ≡ Table.size_of code.now «record» }
{
    match code.layouts.as_slice().get(record) {
        Some(layout) => layout.cells,
        None => 0,
    }
}

/// Answers how many cells an object of a type has: one, if it is no record.
#[inline(always)]
pub fn cells_for(code: &Code, of: Ty) -> usize
    ensures { result ≡ Table.cells_for code.now of }
{
    match of {
        Ty::Record(record) => size_of(code, record),
        _ => 1,
    }
}

/// Answers whether some part of the objects of a record type is controlled (RM 7.6.1); none where the code knows no such type.
#[inline(always)]
pub fn parts_of(code: &Code, record: usize) -> Parts
    ensures { result ≡ Table.parts_of code.now «record» }
{
    match code.layouts.as_slice().get(record) {
        Some(layout) => layout.parts,
        None => Parts::Plain,
    }
}

/// Answers what a record type needs whose objects have such parts: finalization if some part of them is controlled (RM 7.6).
fn need_of(parts: Parts) -> Need
    ensures { result ≡ need_of parts }
{
    match parts {
        Parts::Plain => Need::Nothing,
        _ => Need::Finalization,
    }
}

/// Answers what the record types of the code need, by their numbers (RM 7.6).
pub fn needs_of(alloc: Global, code: &Code) -> Result<Vec<Need>, AllocError>
    ensures { IfOk result (λ needs. needs.items ≡ needs_of code.now) }
{
    code.layouts
        .iter()
        .map(|layout| need_of(layout.parts))
        .collect(alloc)
}

/// Counts the components of a record type that begin with something (RM 3.8, 7.6); none where the code knows no such type.
#[inline(always)]
pub fn count_begun(code: &Code, record: usize) -> usize
    ensures { result ≡ length (Table.begun_of code.now «record») }
{
    match code.layouts.as_slice().get(record) {
        Some(layout) => layout.begun.as_slice().len(),
        None => 0,
    }
}

/// Tells whether an object of a type has a controlled part (RM 7.6.1).
pub fn has_part_in(code: &Code, of: Ty) -> bool
    ensures { result ≡ Table.has_part_in code.now of }
{
    match of {
        Ty::Record(record) => !matches!(parts_of(code, record), Parts::Plain),
        _ => false,
    }
}

/// Answers the component at a place among those of a record type that begin with something.
pub fn begun_at(code: &Code, record: usize, at: usize) -> Begun
    requires { at < length (Table.begun_of code.now «record») }
    ensures { slice_get (Table.begun_of code.now «record») at ≡ Some result }
{
    match code.layouts.as_slice().get(record) {
        Some(layout) => layout.begun[at],
        None => unreachable!(),
    }
}

/// Counts the components of a record type with a controlled part (RM 7.6.1); none where the code knows no such type.
pub fn count_controlled(code: &Code, record: usize) -> usize
    ensures count { result ≡ length (Table.controlled_of code.now «record») }
    ensures bound { result < 2 ^ 63 }
{
    match code.layouts.as_slice().get(record) {
        Some(layout) => layout.controlled.as_slice().len(),
        None => 0,
    }
}

/// Answers the component at a place among those of a record type with a controlled part.
pub fn controlled_at(code: &Code, record: usize, at: usize) -> Begun
    requires { at < length (Table.controlled_of code.now «record») }
    ensures { slice_get (Table.controlled_of code.now «record») at ≡ Some result }
{
    match code.layouts.as_slice().get(record) {
        Some(layout) => layout.controlled[at],
        None => unreachable!(),
    }
}

/// Answers the item of this position, which counts from 1; 0 where there is none.
#[tactic(auto, unfolding(ctl_meaning::specs::Lists::item_or))]
fn at_position(offsets: &[usize], position: usize) -> usize
    ensures { result ≡ item_or 0 (slice_get offsets.now (position - 1)) }
{
    match offsets.get(position.saturating_sub(1)) {
        Some(offset) => *offset,
        None => 0,
    }
}

/// Answers the place of the code that evaluates the default of the component at this position of a record type (RM 3.8); 0 where there is none.
pub fn default_of(code: &Code, record: usize, position: usize) -> usize
    ensures { result ≡ Table.default_of code.now «record» position }
{
    match code.defaults.as_slice().get(record) {
        Some(row) => at_position(row.places.as_slice(), position),
        None => 0,
    }
}

/// Answers the first cell of the component at this position of a record type (RM 4.1.3), among those of its object.
pub fn offset_of(code: &Code, record: usize, position: usize) -> usize
    ensures { result ≡ Table.offset_of code.now «record» position }
{
    match code.layouts.as_slice().get(record) {
        Some(layout) => at_position(layout.offsets.as_slice(), position),
        None => 0,
    }
}
