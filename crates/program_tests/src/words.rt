//! Words and the jobs that they ask for. Words that ask for none stand in `tests/outputs.py`, which gives them to the program.

use ctl_job::{Job, UsageFault, job_of};
use std::alloc::{AllocError, Global};
use std::test::Fail;

/// The job that the words of a line ask for, words apart by one blank, as its `Debug` shows it.
fn job_shown(alloc: Global, line: &str) -> Result<String, AllocError> {
    let mut words = Vec::new(alloc);
    for word in line.split(' ') {
        if !word.is_empty() {
            words.push(word.to_string(alloc)?)?;
        }
    }
    let job: Result<Job, UsageFault> = job_of(alloc, words.as_slice());
    format!(in alloc; "{job:?}")
}

/// Says whether the words of a line ask for this job.
fn asks_for(alloc: Global, line: &str, wanted: &str) -> Result<bool, AllocError> {
    let shown = job_shown(alloc, line)?;
    Ok(shown.as_str() == wanted)
}

const JOBS: [(&str, &str); 5] = [
    ("check a.adb", "Ok(Check { file: \"a.adb\" })"),
    (
        "run a.adb",
        "Ok(Run { file: \"a.adb\", show: Output, order: Newest, steps: 10000000 })",
    ),
    (
        "run a.adb --trace --order oldest --steps 5",
        "Ok(Run { file: \"a.adb\", show: Trace, order: Oldest, steps: 5 })",
    ),
    (
        "run --steps=18446744073709551615 --order=newest a.adb",
        "Ok(Run { file: \"a.adb\", show: Output, order: Newest, steps: 18446744073709551615 })",
    ),
    (
        "run --trace -- --trace",
        "Ok(Run { file: \"--trace\", show: Trace, order: Newest, steps: 10000000 })",
    ),
];

#[test]
fn words_ask_for_jobs(rt: HostRuntime) -> Result<(), Fail> {
    for (line, wanted) in JOBS {
        assert!(rt; asks_for(rt.alloc(), line, wanted)?, "at {line}");
    }
    Ok(())
}

#[test]
fn other_words_are_a_usage_fault(rt: HostRuntime) -> Result<(), Fail> {
    assert!(rt; asks_for(rt.alloc(), "run a.adb --help", "Err(Usage)")?);
    Ok(())
}
