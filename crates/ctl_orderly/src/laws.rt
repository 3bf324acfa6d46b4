//! What holds of the trace of every run. These functions do nothing: each contract is a law.

ghost use Rattle.ctl_orderly.specs.Law.{FrontsAreOrderly, TracesAreOrderly, TypesStandInOrder};

use ctl_program::program::Checked;

/// Says that no part is closed that does not live, and no part of a master is closed after one of an older object of that master.
pub fn every_trace_is_orderly(program: &Checked)
    ensures { TracesAreOrderly program.now }
{
    let _ = program;
}

/// Says that the record types of a well-typed program stand in order.
pub fn well_typed_types_stand_in_order(program: &Checked)
    ensures { TypesStandInOrder program.now }
{
    let _ = program;
}

/// Says that what an orderly trace begins with is orderly, as far as it goes.
pub fn fronts_are_orderly()
    ensures { FrontsAreOrderly }
{}
