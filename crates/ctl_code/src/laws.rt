//! What holds of every run of every code.

ghost use Rattle.ctl_code.specs.Laws.{ChoosesByOrder, IsSmall, IsLogged};

use crate::code::Code;

/// Says that a step shows at most two events, opens at most one master, takes at most one object number and makes at most one collection.
pub fn every_step_is_small(code: &Code)
    ensures { IsSmall code.now }
{
    let _ = code;
}

/// Says that what a run has shown only grows, that its picks obey the order, that a step takes at most one of them, and that another
/// order that these picks obey gives the same run.
pub fn every_run_is_logged(code: &Code)
    ensures { IsLogged code.now }
{
    let _ = code;
}

/// Says that a choice, among however many candidates, is made by the order: its answer is noted with their number, and the step is made
/// with it.
pub fn every_choice_is_by_order(code: &Code)
    ensures { ChoosesByOrder code.now }
{
    let _ = code;
}
