//! The stages in their order: the code of a text, and its run.

ghost use Rattle.std.specs.Prelude.{◌≡◌, ◌⊎◌, IfErr, IfOk, MatchResult};
ghost use Rattle.ctl_tree.specs.declared.fault.Fault.{Fault};
ghost use Rattle.ctl_lex.specs.Memory.{IsMemory};
ghost use Rattle.ctl_run.specs.Headline.{RunsSource, account_of};
ghost use Rattle.ctl_verdict.specs.Verdict.{IsFaultOf, IsFaultless};

use ctl_frames::outcome::Outcome;
use ctl_machine::machine::Machine;
use ctl_tree::fault::Fault;
use ctl_tree::request::Order;
use ctl_verdict::compile::compile_source;
use std::alloc::Global;

/// Runs a source text by at most this many steps. The fault is that of the text, or MEMORY where memory was refused before the
/// first step; a step that is refused memory ends the run as `HostMemory`.
pub fn run_source(alloc: Global, source: &[u8], order: Order, steps: u64) -> Result<Outcome, Fault>
    // A text with a fault is refused with it.
    ensures faulty { (fault : Fault) → IsFaultOf source.now fault → MatchResult result (λ _. ⊥) (λ f. (f ≡ fault) ⊎ IsMemory f) }
    // A text that has none is refused for want of memory alone.
    ensures faultless { IsFaultless source.now → IfErr result IsMemory }
    // It is refused with nothing else than its fault, or want of memory.
    ensures refused { IfErr result (λ fault. IsFaultOf source.now fault ⊎ IsMemory fault) }
    ensures headline { IfOk result (λ outcome. RunsSource source.now order steps (account_of outcome)) }
{
    let code = compile_source(alloc, source)?;
    let mut machine = Machine::new(alloc, &code, order)?;
    let _ = machine.run(steps);
    Ok(machine.finish())
}
