//! `adactl` checks and runs Ada 2012 programs with controlled objects and storage pools:
//! `adactl check FILE`, or `adactl run FILE [--trace] [--order newest|oldest] [--steps N]`.
#![tactic(auto)]

ghost use Rattle.std.specs.Prelude.{◌≡◌, ◌↔◌};
ghost use Rattle.std.specs.IoError.{error_kind};
ghost use Rattle.adactl.specs.Files.{file_named};

use ctl_job::{Job, UsageFault, job_of};
use ctl_serve::{Reading, refuse_file, refuse_words, serve};
use ctl_sink::Through;
use std::alloc::Alloc;
use std::io::{BufWriter, ErrorKind};
use std::process::ExitCode;
use std::{env, fs, io};

/// Returns the fault for words that cannot be read: `Memory` if memory was refused, else `Usage`, as for a word that is
/// not UTF-8.
fn fault_of_words(error: &io::Error) -> UsageFault
    ensures { (result ≡ UsageFault.Memory) ↔ (error_kind error.now ≡ ErrorKind.OutOfMemory) }
{
    match error.kind() {
        ErrorKind::OutOfMemory => UsageFault::Memory,
        _ => UsageFault::Usage,
    }
}

/// Returns the job that the words after the program's name ask for.
fn asked_job(rt: &HostRuntime) -> Result<Job, UsageFault> {
    let args = env::args(rt).map_err(|error| fault_of_words(&error))?;
    let words: Vec<String> = args.skip(1).collect(rt.alloc())?;
    job_of(rt.alloc(), words.as_slice())
}

/// Returns the name of the file of a job.
fn file_of(job: &Job) -> &str
    ensures { result.now ≡ file_named job.now }
{
    match job {
        Job::Check { file } | Job::Run { file, .. } => file.as_str(),
    }
}

/// Does the job that the words ask for, and returns the exit status.
///
/// Standard output is buffered; standard error is not.
fn perform(rt: &HostRuntime) -> u8 {
    let mut err = rt.stderr();
    let job = match asked_job(rt) {
        Ok(job) => job,
        Err(fault) => return refuse_words(fault, &mut err),
    };
    let Ok(source) = fs::open(rt, file_of(&job)) else {
        return refuse_file(&mut err);
    };
    let Ok(out) = BufWriter::new(rt.alloc(), rt.stdout()) else {
        return refuse_words(UsageFault::Memory, &mut err);
    };
    let mut source = Reading::new(source);
    let mut sink = Through::new(out);
    serve(rt.alloc(), job, &mut source, &mut sink, &mut err)
}

fn main(rt: HostRuntime) -> ExitCode {
    ExitCode::from(perform(&rt))
}
