//! Runs of source texts, and the text that shows a run, put into a sink.

ghost use Rattle.std.specs.Prelude.{◌≡◌, ◌↔◌, true, false, IfOk, IfErr, IsErrOf, MatchResult, OnOk};
ghost use Rattle.std.specs.Io.KnownBytes.{Appends};
ghost use Rattle.ctl_sink.specs.Prefix.{AppendsPart};
ghost use Rattle.ctl_lexis.specs.Lexis.{HasFault};
ghost use Rattle.ctl_front.specs.Text.{BreaksForm};
ghost use Rattle.ctl_run.specs.Headline.{account_of};
ghost use Rattle.ctl_verdict.specs.Verdict.{IsFaultOf, IsFaultless};
ghost use Rattle.ctl_run.specs.Refusals.{IsRefusal, IsRefusalWith, IsRefusedFor, WantsMemory};
ghost use Rattle.ctl_run.specs.Shown.{shown_by, Summarizes, WritesPart, WritesWhole};
ghost use Rattle.ctl_tree.specs.declared.fault.Fault.{Fault};
ghost use Rattle.ctl_tree.specs.declared.request.Show.TheVariants.{Trace};
ghost use Rattle.ctl_run.specs.declared.summary.RunFault.TheVariants.{Write};

use crate::printing::run_printing;
use crate::run::run_source;
use crate::summary::{RunFault, Summary};
use ctl_frames::outcome::Outcome;
use ctl_sink::{Sink, put_all};
use ctl_text::{output_text_in, trace_text_in};
use ctl_tree::fault::Fault;
use ctl_tree::request::{Order, Show};
use std::alloc::{AllocError, Allocator, Global};

/// Returns the text that shows a run: what it printed, or its trace.
pub fn text_of<A: Allocator>(
    alloc: A,
    outcome: &Outcome,
    show: Show,
) -> Result<Vec<u8, A>, AllocError>
    ensures { IfOk result (λ text. text.items ≡ shown_by show (account_of outcome.now)) }
{
    match show {
        Show::Output => output_text_in(alloc, &outcome.events),
        Show::Trace => trace_text_in(alloc, &outcome.events, &outcome.end),
    }
}

/// Puts the text that shows a run into a sink that has not failed.
///
/// # Errors
///
/// Returns `Write` exactly if a `put` fails: the sink has then taken a prefix of the text, and not all of it. Else
/// returns `Refused` if memory runs out, and nothing is put.
pub fn put_run<S: Sink, A: Allocator>(
    alloc: A,
    outcome: &Outcome,
    show: Show,
    sink: &mut S,
) -> Result<(), RunFault>
    requires { S.has_failed sink.old ≡ false }
    ensures ok { OnOk result (Appends (S.taken sink.old) (S.taken sink.new) (shown_by show (account_of outcome.now))) }
    ensures write { IsErrOf result Write → AppendsPart (S.taken sink.old) (S.taken sink.new) (shown_by show (account_of outcome.now)) }
    ensures refused { IfErr result (λ fault. IsRefusal fault → sink.new ≡ sink.old) }
    ensures memory { IfErr result WantsMemory }
    ensures failed { (S.has_failed sink.new ≡ true) ↔ IsErrOf result Write }
{
    let Ok(text) = text_of(alloc, outcome, show) else {
        return Err(RunFault::Refused(Fault::memory()));
    };
    match put_all(sink, text.as_slice()) {
        Ok(()) => Ok(()),
        Err(_) => Err(RunFault::Write),
    }
}

/// Puts the text that shows a run into a sink, and returns the summary of the run.
fn show_run<S: Sink, A: Allocator>(
    alloc: A,
    outcome: Outcome,
    show: Show,
    sink: &mut S,
) -> Result<Summary, RunFault>
    requires { S.has_failed sink.old ≡ false }
    ensures whole { OnOk result (Appends (S.taken sink.old) (S.taken sink.new) (shown_by show (account_of outcome))) }
    ensures summary { IfOk result (Summarizes (account_of outcome)) }
    ensures write { IsErrOf result Write → AppendsPart (S.taken sink.old) (S.taken sink.new) (shown_by show (account_of outcome)) }
    ensures refused { IfErr result (λ fault. IsRefusal fault → sink.new ≡ sink.old) }
    ensures memory { IfErr result WantsMemory }
    ensures failed { (S.has_failed sink.new ≡ true) ↔ IsErrOf result Write }
{
    put_run(alloc, &outcome, show, sink)?;
    Ok(Summary::from(outcome))
}

/// Runs a source text by at most `steps` machine steps, and then puts its trace into a sink that has not failed, as `run_into` does.
fn run_tracing<S: Sink>(
    alloc: Global,
    source: &[u8],
    order: Order,
    steps: u64,
    sink: &mut S,
) -> Result<Summary, RunFault>
    requires { S.has_failed sink.old ≡ false }
    ensures ok { IfOk result (WritesWhole source.now order steps Trace (S.taken sink.old) (S.taken sink.new)) }
    ensures write { IsErrOf result Write → WritesPart source.now order steps Trace (S.taken sink.old) (S.taken sink.new) }
    ensures refused { IfErr result (λ fault. IsRefusal fault → sink.new ≡ sink.old) }
    ensures failed { (S.has_failed sink.new ≡ true) ↔ IsErrOf result Write }
    ensures because { IfErr result (IsRefusedFor source.now) }
    ensures faulty { (fault : Fault) → IsFaultOf source.now fault → MatchResult result (λ _. ⊥) (IsRefusalWith fault) }
    ensures faultless { IsFaultless source.now → IfErr result WantsMemory }
{
    match run_source(alloc, source, order, steps) {
        Ok(outcome) => show_run(alloc, outcome, Show::Trace, sink),
        Err(fault) => Err(RunFault::from(fault)),
    }
}

/// Runs a source text by at most `steps` machine steps, and puts the text that shows the run into a sink that has not failed: what it prints
/// as it goes, within some steps, and its trace at its end. Returns the summary of the run. A short `put` is continued.
///
/// # Errors
///
/// Returns `Write` exactly if a `put` fails: the sink has then taken a prefix of the text, and not all of it. Else
/// returns `Refused`, with the fault of the source text or if memory runs out, and nothing is put.
pub fn run_into<S: Sink>(
    alloc: Global,
    source: &[u8],
    order: Order,
    steps: u64,
    show: Show,
    sink: &mut S,
) -> Result<Summary, RunFault>
    requires { S.has_failed sink.old ≡ false }
    ensures ok { IfOk result (WritesWhole source.now order steps show (S.taken sink.old) (S.taken sink.new)) }
    ensures write { IsErrOf result Write → WritesPart source.now order steps show (S.taken sink.old) (S.taken sink.new) }
    ensures refused { IfErr result (λ fault. IsRefusal fault → sink.new ≡ sink.old) }
    ensures failed { (S.has_failed sink.new ≡ true) ↔ IsErrOf result Write }
    // It is refused with its fault, or because memory ran out, and for nothing else.
    ensures because { IfErr result (IsRefusedFor source.now) }

    // A text with a lexical fault is refused with it.
    ensures lexical { (fault : Fault) → HasFault source.now fault → MatchResult result (λ _. ⊥) (IsRefusalWith fault) }

    // A text that spells no tree is refused with its first fault, of lexis or of grammar.
    ensures grammatical { (fault : Fault) → BreaksForm source.now fault → MatchResult result (λ _. ⊥) (IsRefusalWith fault) }

    // A text with a fault, of lexis, grammar, names or types, or a construct that is not run, is refused with it.
    ensures faulty { (fault : Fault) → IsFaultOf source.now fault → MatchResult result (λ _. ⊥) (IsRefusalWith fault) }

    // A text that has none is refused only because memory ran out.
    ensures faultless { IsFaultless source.now → IfErr result WantsMemory }
{
    match show {
        Show::Output => run_printing(alloc, source, order, steps, sink),
        Show::Trace => run_tracing(alloc, source, order, steps, sink),
    }
}
