//! What holds of every run of every checked program. These functions do nothing: each contract is a law of the meaning.

ghost use Rattle.ctl_meaning.specs.Law.{CandidatesInOrder, ClockNeverRises, LogOnlyGrows, ChoicesObey, CutsHaveCauses, GroupsAreEmptied, SameAnswersSameRun, ChoicesReplay, MoreClockContinues, TextsContinue};

use ctl_program::program::Checked;

/// Says that the clock never rises.
pub fn clock_never_rises(program: &Checked)
    ensures { ClockNeverRises program.now }
{
    let _ = program;
}

/// Says that each statement adds to what was shown and to the choices that were made, and takes nothing back.
pub fn log_only_grows(program: &Checked)
    ensures { LogOnlyGrows program.now }
{
    let _ = program;
}

/// Says that the choices that a run reports are the answers that were given to it, each below its width.
pub fn choices_obey(program: &Checked)
    ensures { ChoicesObey program.now }
{
    let _ = program;
}

/// Says that a run is cut only where the clock is at 0 or a choice has no answer.
pub fn cuts_have_causes(program: &Checked)
    ensures { CutsHaveCauses program.now }
{
    let _ = program;
}

/// Says that, where the finalization of collections or of a subpool goes on, none of their members is left that has a controlled part and
/// whose finalization has not begun.
pub fn groups_are_emptied(program: &Checked)
    ensures { GroupsAreEmptied program.now }
{
    let _ = program;
}

/// Says that the candidates of a choice in the finalization of collections or a subpool are in the order of their numbers, each once.
pub fn candidates_in_order(program: &Checked)
    ensures { CandidatesInOrder program.now }
{
    let _ = program;
}

/// Says that whoever answers the choices of a run alike gets the same run.
pub fn same_answers_same_run(program: &Checked)
    ensures { SameAnswersSameRun program.now }
{
    let _ = program;
}

/// Says that the choices that a run reports, and no more, give the same run.
pub fn choices_replay(program: &Checked)
    ensures { ChoicesReplay program.now }
{
    let _ = program;
}

/// Says that more clock changes no run that ended, and continues one that was cut.
pub fn more_clock_continues(program: &Checked)
    ensures { MoreClockContinues program.now }
{
    let _ = program;
}

/// Says that the texts of a run that was cut begin those of the run with more clock.
pub fn texts_continue(program: &Checked)
    ensures { TextsContinue program.now }
{
    let _ = program;
}
