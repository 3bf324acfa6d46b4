//! Runs of codes, and what they came to, as texts.
//!
//! What a run leaves is let go by a call, so that a test has nothing but texts: where a value with many lists goes out of scope by itself,
//! the drop of each list is proved at each way out of the function.

use crate::codes::valid_code_of;
use ctl_frames::outcome::Outcome;
use ctl_machine::machine::Machine;
use ctl_text::trace_text;
use ctl_tree::request::Order;
use ctl_valid::valid::ValidCode;
use std::alloc::{AllocError, Global};
use std::test::Fail;

/// A run of this code of at most so many steps.
fn outcome_by(
    alloc: Global,
    code: &ValidCode,
    order: Order,
    steps: u64,
) -> Result<Outcome, AllocError> {
    let mut machine = Machine::new(alloc, code, order)?;
    let _ = machine.run(steps);
    Ok(machine.finish())
}

/// Makes a run of the code of a text with changes, of at most so many steps.
pub fn outcome_of(
    alloc: Global,
    texts: [&str; 2],
    order: Order,
    steps: u64,
) -> Result<Outcome, Fail> {
    let code = valid_code_of(alloc, texts)?;
    let outcome = outcome_by(alloc, &code, order, steps);
    drop(code);
    Ok(outcome?)
}

/// A run of this code of at most so many steps, and one step behind it: what both answer, and what `counted` says of the run.
fn run_and_step_by(
    alloc: Global,
    code: &ValidCode,
    order: Order,
    steps: u64,
) -> Result<String, Fail> {
    let mut machine = Machine::new(alloc, code, order)?;
    let progress = [machine.run(steps), machine.step()];
    let counted = counted(alloc, machine.finish())?;
    Ok(format!(in alloc; "{:?}\n{counted}", progress.as_slice())?)
}

/// Does the same of the code of a text.
pub fn run_and_step(alloc: Global, text: &str, order: Order, steps: u64) -> Result<String, Fail> {
    let code = valid_code_of(alloc, [text, ""])?;
    let told = run_and_step_by(alloc, &code, order, steps);
    drop(code);
    told
}

/// The trace of a run, and which choices it took.
fn traced_by(alloc: Global, outcome: &Outcome) -> Result<String, Fail> {
    let text = trace_text(alloc, &outcome.events, &outcome.end)?;
    let trace = String::from_utf8(text).map_err(|_| Fail::new("the trace is no text"))?;
    Ok(format!(in alloc; "{trace}picks {:?}\n", outcome.picks.as_slice())?)
}

/// The trace of a run, which is let go, and which choices it took.
fn traced(alloc: Global, outcome: Outcome) -> Result<String, Fail> {
    let traced = traced_by(alloc, &outcome);
    drop(outcome);
    traced
}

/// The same, and how many steps it took.
pub fn counted(alloc: Global, outcome: Outcome) -> Result<String, Fail> {
    let steps = outcome.steps;
    let traced = traced(alloc, outcome)?;
    Ok(format!(in alloc; "{traced}steps {steps}\n")?)
}

/// Answers the trace of a run to its end of the code of a text with changes, and which choices it took.
pub fn trace_of(alloc: Global, texts: [&str; 2]) -> Result<String, Fail> {
    traced(alloc, outcome_of(alloc, texts, Order::Newest, 1000)?)
}
