//! What a text comes to: the check of it, and whether its program is run.

ghost use Rattle.std.specs.Prelude.{◌⊎◌, IfErr, IfOk};
ghost use Rattle.ctl_lex.specs.Memory.{IsMemory};
ghost use Rattle.ctl_front.specs.Text.{BreaksForm};
ghost use Rattle.ctl_verdict.specs.Verdict.{IsFaultOf, IsFaultless, IsLeftOut, Settles};

use ctl_front::program::{drop_tree, program_of, resolved_of};
use ctl_layout::runs::is_run;
use ctl_program::program::Checked;
use ctl_slice::first_left_out;
use ctl_tree::fault::{Fault, FaultCode};
use ctl_types::whole::drop_program;
use std::alloc::Global;

/// Answers the program of a source text, or the fault of the text: its first one of lexis, grammar, names or types; or LEFT_OUT, where this
/// version does not run each construct of it, at the first that the table of `ctl_slice` leaves out. MEMORY comes only where the host
/// refused memory.
pub fn check_source(alloc: Global, source: &[u8]) -> Result<Checked, Fault>
    ensures { Settles source.now result }
{
    let program = program_of(alloc, source)?;
    match is_run(alloc, &program) {
        Ok(true) => Ok(program),
        Ok(false) => {
            drop_program(program);
            Err(left_out(alloc, source))
        }
        Err(_) => {
            drop_program(program);
            Err(Fault::memory())
        }
    }
}

/// Accepts a source text, or answers its fault, as `check_source` does; the program is let go of here.
pub fn accept_source(alloc: Global, source: &[u8]) -> Result<(), Fault>
    ensures accepted { IfOk result (λ _. IsFaultless source.now) }
    ensures refused { IfErr result (λ fault. IsFaultOf source.now fault ⊎ IsMemory fault) }
{
    let program = check_source(alloc, source)?;
    drop_program(program);
    Ok(())
}

/// Answers the fault of a text whose program is not run whole.
fn left_out(alloc: Global, source: &[u8]) -> Fault
    ensures { IsLeftOut source.now result ⊎ (BreaksForm source.now result ⊎ IsMemory result) }
{
    match resolved_of(alloc, source) {
        Ok(tree) => {
            let place = first_left_out(&tree).unwrap_or(tree.span);
            drop_tree(tree);
            Fault::at(FaultCode::LeftOut, place)
        }
        Err(fault) => fault,
    }
}
