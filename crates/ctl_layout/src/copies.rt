//! Actuals whose copies go back (RM 6.4.1).

ghost use Rattle.std.specs.Prelude.{◌≡◌, ◌*◌, ◌≤◌, length, map};
ghost use Rattle.ctl_layout.specs.Values as spec;

use crate::right::{Reached, reached_by};
use ctl_program::expression::Actual;
use ctl_program::types::Var;

/// The record type of a part whose type is of no account: of a pool, which is found by its object, and of an object of an elementary type,
/// which is found by its first cell.
pub const ANY_TYPE: usize = 0;

/// The position of the first component of a record type.
pub const FIRST_POSITION: usize = 1;

/// Where the copy of an actual goes back to: a variable, or a component of a part that is found before the call, by the record type that has
/// the component and its position, from 1 (RM 6.4.1).
#[derive(Clone, Copy)]
pub enum Back {
    Variable(Var),
    Part { record: usize, position: usize },
}

/// Gives where the copy of an actual goes back to, if it does and this version runs it.
#[tactic(auto, using(crate::proofs::Layers::value_stays, crate::proofs::Layers::part_stays, crate::proofs::Layers::actual_copied))]
pub fn back_of(actual: &Actual) -> Option<Back>
    ensures { result ≡ (spec.actual_code actual.now).back }
{
    match actual {
        Actual::Copied(name, _, _) => match reached_by(name) {
            Some(Reached::Variable(variable)) => Some(Back::Variable(variable)),
            Some(
                Reached::Part {
                    record,
                    position,
                    ..
                },
            ) => Some(Back::Part { record, position }),
            Some(Reached::Object { .. }) => Some(Back::Part {
                record: ANY_TYPE,
                position: FIRST_POSITION,
            }),
            None => None,
        },
        Actual::ByValue(..) | Actual::Part(..) => None,
    }
}

/// Tells whether the copy of one of these goes back.
pub fn goes_back(actuals: &[Actual]) -> bool
    ensures { result ≡ spec.goes_back (map spec.actual_code actuals.now) }
{
    for actual in actuals {
        if back_of(actual).is_some() {
            return true;
        }
    }
    false
}

/// Counts the numbers that keep where the copy of an actual goes back to: the object of a part and its first cell (RM 6.4.1).
pub fn numbers_of(actual: &Actual) -> usize
    ensures same { result ≡ spec.numbers_of (spec.actual_code actual.now).back }
    ensures few { result ≤ 2 }
{
    match back_of(actual) {
        Some(Back::Part { .. }) => 2,
        Some(Back::Variable(_)) | None => 0,
    }
}

/// Counts the numbers that keep where the copies of these go back to.
pub fn count_numbers(actuals: &[Actual]) -> usize
    ensures same { result ≡ spec.numbers_in (map spec.actual_code actuals.now) }
    ensures few { result ≤ 2 * length actuals.now }
{
    let mut count = 0;
    for actual in actuals {
        count += numbers_of(actual);
    }
    count
}
