//! Runs that are shown by what they print, which is put as they go.

ghost use Rattle.std.specs.Prelude.{◌≡◌, ◌≤◌, ◌+◌, ◌-◌, ◌^◌, ◌↔◌, [], List, ℕ, true, false, IfOk, IfErr, IsErrOf, MatchResult, OnErr, OnOk};
ghost use Rattle.std.specs.Io.KnownBytes.{Appends};
ghost use Rattle.ctl_sink.specs.Prefix.{AppendsPart};
ghost use Rattle.ctl_machine.specs.Machine.{shown_between};
ghost use Rattle.ctl_verdict.specs.Compiled.{IsCodeOf};
ghost use Rattle.ctl_verdict.specs.Verdict.{IsFaultOf, IsFaultless};
ghost use Rattle.ctl_text.specs.Texts.{output_of, printed_by};
ghost use Rattle.ctl_run.specs.Refusals.{IsRefusal, IsRefusalWith, IsRefusedFor, WantsMemory};
ghost use Rattle.ctl_run.specs.Shown.{WritesPart, WritesWhole};
ghost use Rattle.ctl_tree.specs.declared.fault.Fault.{Fault};
ghost use Rattle.ctl_tree.specs.declared.request.Show.TheVariants.{Output};
ghost use Rattle.ctl_run.specs.declared.summary.RunFault.TheVariants.{Write};

use crate::summary::{RunFault, Summary};
use ctl_frames::outcome::Progress;
use ctl_machine::machine::Machine;
use ctl_sink::{PutFault, Sink, put_all};
use ctl_tree::event::Event;
use ctl_tree::fault::Fault;
use ctl_tree::request::Order;
use ctl_valid::valid::ValidCode;
use ctl_verdict::compile::compile_source;
use std::alloc::Global;

/// How many steps are taken at most before what they print is put.
const STEPS_AT_A_TIME: u64 = 1_024;

/// Puts what an event prints: the bytes of a Print, and a line feed for a Newline.
fn put_printed<S: Sink>(sink: &mut S, event: &Event) -> Result<(), PutFault>
    ensures all { OnOk result (Appends (S.taken sink.old) (S.taken sink.new) (printed_by event.now)) }
    ensures ok { OnOk result (S.has_failed sink.new ≡ S.has_failed sink.old) }
    ensures part { OnErr result (AppendsPart (S.taken sink.old) (S.taken sink.new) (printed_by event.now)) }
    ensures err { OnErr result (S.has_failed sink.new ≡ true) }
{
    match event {
        Event::Print(bytes) => put_all(sink, bytes.as_bytes()),
        Event::Newline => put_all(sink, b"\n"),
        _ => Ok(()),
    }
}

/// Puts what these events print, in their order.
fn put_output<S: Sink>(sink: &mut S, events: &[Event]) -> Result<(), PutFault>
    ensures all { OnOk result (Appends (S.taken sink.old) (S.taken sink.new) (output_of events.now)) }
    ensures ok { OnOk result (S.has_failed sink.new ≡ S.has_failed sink.old) }
    ensures part { OnErr result (AppendsPart (S.taken sink.old) (S.taken sink.new) (output_of events.now)) }
    ensures err { OnErr result (S.has_failed sink.new ≡ true) }
{
    for event in events {
        put_printed(sink, event)?;
    }
    Ok(())
}

/// Runs a machine, of whose events none waits, by at most so many steps, and puts what it prints within some steps.
///
/// # Errors
///
/// Returns `PutFault` if a `put` fails: the sink has then taken a prefix of what was printed till then, and not all of it.
fn run_machine<S: Sink>(machine: &mut Machine, limit: u64, sink: &mut S) -> Result<(), PutFault>
    requires waiting { machine.old.waiting ≡ [] }
    requires running { machine.old.has_ended ≡ false }
    requires count { machine.old.steps + limit ≤ 2 ^ 64 - 1 }
    ensures code { machine.new.code ≡ machine.old.code }
    ensures order { machine.new.order ≡ machine.old.order }
    ensures bound { machine.new.steps ≤ machine.old.steps + limit }
    ensures waiting { OnOk result (machine.new.waiting ≡ []) }
    ensures counted { OnOk result (machine.new.has_ended ≡ false → machine.new.steps ≡ machine.old.steps + limit) }
    ensures all { OnOk result (Appends (S.taken sink.old) (S.taken sink.new) (output_of (shown_between machine.old.code machine.old.order machine.old.steps machine.new.steps))) }
    ensures ok { OnOk result (S.has_failed sink.new ≡ S.has_failed sink.old) }
    ensures part { OnErr result (AppendsPart (S.taken sink.old) (S.taken sink.new) (output_of (shown_between machine.old.code machine.old.order machine.old.steps machine.new.steps))) }
    ensures err { OnErr result (S.has_failed sink.new ≡ true) }
{
    let mut left = limit;
    while left > 0 {
        let steps = left.min(STEPS_AT_A_TIME);
        let progress = machine.run(steps);
        put_output(sink, machine.waiting())?;
        machine.drop_waiting();
        if progress == Progress::Ended {
            return Ok(());
        }
        left -= steps;
    }
    Ok(())
}

/// Runs the code of a source text by at most `steps` machine steps, and puts what it prints into a sink that has not failed, as `run_into`
/// does.
fn run_code<S: Sink>(
    alloc: Global,
    code: &ValidCode,
    order: Order,
    steps: u64,
    sink: &mut S,
) -> Result<Summary, RunFault>
    requires { S.has_failed sink.old ≡ false }
    ensures ok { (source : List ℕ) → IsCodeOf source code.now → IfOk result (WritesWhole source order steps Output (S.taken sink.old) (S.taken sink.new)) }
    ensures write { (source : List ℕ) → IsCodeOf source code.now → IsErrOf result Write → WritesPart source order steps Output (S.taken sink.old) (S.taken sink.new) }
    ensures refused { IfErr result (λ fault. IsRefusal fault → sink.new ≡ sink.old) }
    ensures failed { (S.has_failed sink.new ≡ true) ↔ IsErrOf result Write }
    ensures memory { IfErr result WantsMemory }
{
    let Ok(mut machine) = Machine::new(alloc, code, order) else {
        return Err(RunFault::Refused(Fault::memory()));
    };
    let printed = run_machine(&mut machine, steps, sink);
    let outcome = machine.finish();
    match printed {
        Ok(()) => Ok(Summary::from(outcome)),
        Err(_) => Err(RunFault::Write),
    }
}

/// Runs a source text by at most `steps` machine steps, and puts what it prints into a sink that has not failed, as `run_into` does.
pub(crate) fn run_printing<S: Sink>(
    alloc: Global,
    source: &[u8],
    order: Order,
    steps: u64,
    sink: &mut S,
) -> Result<Summary, RunFault>
    requires { S.has_failed sink.old ≡ false }
    ensures ok { IfOk result (WritesWhole source.now order steps Output (S.taken sink.old) (S.taken sink.new)) }
    ensures write { IsErrOf result Write → WritesPart source.now order steps Output (S.taken sink.old) (S.taken sink.new) }
    ensures refused { IfErr result (λ fault. IsRefusal fault → sink.new ≡ sink.old) }
    ensures failed { (S.has_failed sink.new ≡ true) ↔ IsErrOf result Write }
    ensures because { IfErr result (IsRefusedFor source.now) }
    ensures faulty { (fault : Fault) → IsFaultOf source.now fault → MatchResult result (λ _. ⊥) (IsRefusalWith fault) }
    ensures faultless { IsFaultless source.now → IfErr result WantsMemory }
{
    let code = compile_source(alloc, source)?;
    run_code(alloc, &code, order, steps, sink)
}
