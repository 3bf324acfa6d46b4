//! Whether record types are laid out well: their operations and the types of their components are in scope where they are, and those
//! components that are finalized are told apart.

ghost use Rattle.std.specs.Prelude.{◌≡◌, ◌↔◌, ℕ, ◌<◌, ◌≤◌, ◌*◌, ◌-◌, [], ◌∷◌, length, slice_get, IfSome, IsNone, IsTrue, List, Some, if◌then◌else◌};
ghost use Rattle.ctl_meaning.specs.Lists.{item_or, keep};
ghost use Rattle.ctl_code.specs.declared.code.Begun.{Begun as BegunOf};
ghost use Rattle.ctl_code.specs.declared.code.Layout.{Layout as LayoutOf};
ghost use Rattle.ctl_code.specs.Table as Table;
ghost use Rattle.ctl_code.specs.Valid as valid;
ghost use Rattle.ctl_code.specs.Valid.{AreBegunBy, AreEvaluated, AreInScope, IsEvaluatedAt, IsBegunBy, IsDeclarable, IsInScope, IsLaid, IsStorageInScope, PositionsRise, told_before};

use crate::around::{are_initials_within, are_operations_within};
use crate::code::{Begun, Code, Initial, Layout, Parts};
use crate::tables::{entry_at, operations_at};

/// How many storage units a value of an elementary type takes (RM 13.3).
const SCALAR_SIZE: usize = 8;

/// Tells whether there is no operation, or one that is declared in one of so many masters around.
pub(crate) fn is_in_scope(code: &Code, masters: usize, number: Option<usize>) -> bool
    ensures { IsTrue result ↔ IsInScope code.now masters number }
{
    let Some(number) = number else {
        return true;
    };
    match entry_at(code, number) {
        Some(entry) => entry.level <= masters,
        None => false,
    }
}

/// Tells whether it is the number of a record type that is declared in one of so many masters around (RM 7.6).
pub(crate) fn is_declarable(code: &Code, masters: usize, number: usize) -> bool
    ensures { IsTrue result ↔ IsDeclarable code.now masters number }
{
    match code.layouts.get(number) {
        Some(layout) => layout.level <= masters,
        None => false,
    }
}

/// Tells whether the type of a component, if it is a record type, is declared in one of so many masters around.
fn is_begun_by(code: &Code, masters: usize, initial: Initial) -> bool
    ensures { IsTrue result ↔ IsBegunBy code.now masters initial }
{
    match initial {
        Initial::Constant(_) => true,
        Initial::ByType(number) => is_declarable(code, masters, number),
        Initial::Computed => true,
    }
}

/// Tells whether the types of the components that begin with something are declared where the record type is, or around.
fn are_begun_by(code: &Code, layout: &Layout) -> bool
    ensures { IsTrue result ↔ AreBegunBy code.now layout.now.level layout.now.begun.items }
{
    for component in &layout.begun {
        if !is_begun_by(code, layout.level, component.initial) {
            return false;
        }
    }
    true
}

/// Answers the place of this position, which counts from 1; 0 where there is none.
#[tactic(auto, unfolding(ctl_meaning::specs::Lists::item_or))]
fn place_at(places: &[usize], position: usize) -> usize
    ensures { result ≡ item_or 0 (slice_get places.now (position - 1)) }
{
    match places.get(position.saturating_sub(1)) {
        Some(place) => *place,
        None => 0,
    }
}

/// Answers the place of the code that evaluates the default of the component at a position of a record type; 0 where there is none.
pub(crate) fn default_of(code: &Code, number: usize, position: usize) -> usize
    ensures { result ≡ Table.default_of code.now number position }
{
    match code.defaults.get(number) {
        Some(row) => place_at(row.places.as_slice(), position),
        None => 0,
    }
}

/// Tells whether the default expression of a component of a record type is evaluated where the table says, with some of so many masters
/// around, or it has none that is (RM 3.8).
fn is_evaluated(code: &Code, masters: usize, number: usize, component: Begun) -> bool
    ensures { IsTrue result ↔ IsEvaluatedAt code.now masters (Table.default_of code.now number component.position) component.initial }
{
    match component.initial {
        Initial::Computed => {
            code.kinds
                .is_default(default_of(code, number, component.position), masters)
        }
        _ => true,
    }
}

/// Tells whether the defaults of the components of a record type are evaluated where the table says (RM 3.8).
fn are_evaluated(code: &Code, number: usize, layout: &Layout) -> bool
    ensures { IsTrue result ↔ AreEvaluated code.now layout.now.level number layout.now.begun.items }
{
    for component in &layout.begun {
        if !is_evaluated(code, layout.level, number, *component) {
            return false;
        }
    }
    true
}

/// Tells whether the positions of these components rise, from 1 on.
fn do_positions_rise(layout: &Layout) -> bool
    ensures { IsTrue result ↔ PositionsRise 0 layout.now.begun.items }
{
    let mut last = 0;
    for component in &layout.begun {
        if component.position <= last {
            return false;
        }
        last = component.position;
    }
    true
}

/// Answers whether the objects of a record type are finalized; they are not where the code knows no such type.
fn parts_of(code: &Code, number: usize) -> Parts
    ensures { result ≡ Table.parts_of code.now number }
{
    match code.layouts.get(number) {
        Some(layout) => layout.parts,
        None => Parts::Plain,
    }
}

/// Tells whether a component has a controlled part (RM 7.6.1).
fn is_finalized(code: &Code, initial: Initial) -> bool
    ensures { result ≡ valid.is_finalized code.now initial }
{
    match initial {
        Initial::Constant(_) | Initial::Computed => false,
        Initial::ByType(number) => !matches!(parts_of(code, number), Parts::Plain),
    }
}

/// Tells whether two components are the same.
fn is_same(component: &Begun, other: &Begun) -> bool
    ensures { IsTrue result ↔ (component.now ≡ other.now) }
{
    component.position == other.position
        && component.offset == other.offset
        && is_same_initial(component.initial, other.initial)
}

/// Tells whether two components begin alike.
fn is_same_initial(initial: Initial, other: Initial) -> bool
    ensures { IsTrue result ↔ (initial ≡ other) }
{
    match (initial, other) {
        (Initial::Constant(value), Initial::Constant(of_other)) => value == of_other,
        (Initial::ByType(number), Initial::ByType(of_other)) => number == of_other,
        (Initial::Computed, Initial::Computed) => true,
        _ => false,
    }
}

/// Answers what is left of those components behind the one at a place of a layout, which comes first among them if it has a controlled
/// part; None where it does not.
fn behind<'a>(code: &Code, layout: &Layout, at: usize, those: &'a [Begun]) -> Option<&'a [Begun]>
    requires { at < length layout.now.begun.items }
    ensures some { IfSome result (λ rest. (x : BegunOf) → slice_get layout.now.begun.items at ≡ Some x → (ys : List BegunOf) → (those.now ≡ told_before code.now x ys) ↔ (rest.now ≡ ys)) }
    ensures none { IsNone result → (x : BegunOf) → slice_get layout.now.begun.items at ≡ Some x → (ys : List BegunOf) → those.now ≡ told_before code.now x ys → ⊥ }
{
    let component = layout.begun[at];
    if !is_finalized(code, component.initial) {
        return Some(those);
    }
    let (first, rest) = those.split_first()?;
    if is_same(first, &component) {
        Some(rest)
    } else {
        None
    }
}

/// Tells whether those components that are told apart are those with a controlled part, in their order (RM 7.6.1).
fn are_told_apart(code: &Code, layout: &Layout) -> bool
    ensures { IsTrue result ↔ (layout.now.controlled.items ≡ keep (λ x. valid.is_finalized code.now x.initial) layout.now.begun.items) }
{
    let mut rest = layout.controlled.as_slice();
    for at in 0..layout.begun.len() {
        let Some(others) = behind(code, layout, at, rest) else {
            return false;
        };
        rest = others;
    }
    rest.is_empty()
}

/// Tells whether the operations of a record type are declared in some of so many masters around.
fn are_in_scope(code: &Code, masters: usize, number: usize) -> bool
    ensures { IsTrue result ↔ AreInScope code.now masters number }
{
    match operations_at(code, number) {
        Some(operations) => {
            is_in_scope(code, masters, operations.initialize)
                && is_in_scope(code, masters, operations.finalize)
                && is_in_scope(code, masters, operations.adjust)
        }
        None => false,
    }
}

/// Tells whether the Allocate and the Deallocate of a record type are declared in some of so many masters around (RM 13.11).
fn is_storage_in_scope(code: &Code, masters: usize, number: usize) -> bool
    ensures { IsTrue result ↔ IsStorageInScope code.now masters number }
{
    match operations_at(code, number) {
        Some(operations) => {
            is_in_scope(code, masters, operations.allocate)
                && is_in_scope(code, masters, operations.deallocate)
        }
        None => false,
    }
}

/// Tells whether each cell of an object has its storage units (RM 13.3).
fn has_units(layout: &Layout) -> bool
    ensures { IsTrue result ↔ (8 * layout.now.cells ≤ layout.now.units) }
{
    let units = layout.units;
    match layout.cells.checked_mul(SCALAR_SIZE) {
        Some(least) => least <= units,
        None => false,
    }
}

/// Tells whether the record type of this number is laid out well.
fn is_laid(code: &Code, number: usize, layout: &Layout) -> bool
    ensures { IsTrue result ↔ IsLaid code.now number layout.now }
{
    if !are_in_scope(code, layout.level, number)
        || !are_begun_by(code, layout)
        || !are_evaluated(code, number, layout)
        || !has_units(layout)
        || !is_storage_in_scope(code, layout.level, number)
    {
        return false;
    }
    if !are_operations_within(code, number) || !are_initials_within(code, number, layout) {
        return false;
    }
    do_positions_rise(layout) && are_told_apart(code, layout)
}

/// Tells whether each record type is laid out well.
pub(crate) fn are_layouts_fine(code: &Code) -> bool
    ensures { IsTrue result ↔ ((t : ℕ) (x : LayoutOf) → slice_get code.now.layouts.items t ≡ Some x → IsLaid code.now t x) }
{
    for number in 0..code.layouts.as_slice().len() {
        if !is_laid(code, number, &code.layouts[number]) {
            return false;
        }
    }
    true
}
