//! The program's jobs, over any reader and any writers.

ghost use Rattle.std.specs.Prelude.{◌≡◌, ◌⊎◌, codes, false, true, OnErr, OnOk};
ghost use Rattle.std.specs.Io.KnownBytes.{Appends};
ghost use Rattle.ctl_sink.specs.Prefix.{AppendsUpTo};
ghost use Rattle.ctl_serve.specs.Reading.{is_unread, reader_of};
ghost use Rattle.ctl_serve.specs.Served.{BreaksOff, EndsBy, IsCheckStatus, IsDone, IsPossible, IsRefusedText, IsRunStatus, ReadsRefused, Serves, WritesOk, WritesOkUpTo, WritesRun, WritesRunUpTo};
ghost use Rattle.ctl_serve.specs.Statuses.{exit_code, fault_status, usage_status};

use crate::report::{say, say_run};
use crate::source::{ReadFault, Reading, read_source};
use crate::status::{Status, status_of_end, status_of_fault, status_of_usage};
use ctl_job::{Job, UsageFault};
use ctl_run::{RunFault, run_into};
use ctl_sink::{PutFault, Sink, put_all};
use ctl_tree::fault::Fault;
use ctl_tree::request::{Order, Show};
use ctl_verdict::verdict::accept_source;
use std::alloc::{Allocator, Global};
use std::io::{Read, Write};

/// The limit on the bytes that are read of a file: one more than a source text may have.
pub const READ_LIMIT: usize = 1_048_577;

/// Writes the line on why a source text is refused, and returns the exit status.
fn refuse<E: Write>(fault: Fault, err: &mut E) -> Status
    ensures { result ≡ fault_status fault.code }
{
    let status = status_of_fault(fault);
    if status == Status::HostMemory {
        say(err, "host memory");
    } else {
        say(err, fault);
    }
    status
}

/// The usage, for words that the command line does not take.
const USAGE: &str = "usage: adactl check FILE
       adactl run FILE [--trace] [--order newest|oldest] [--steps N]
";

/// Reports why the words of a command line ask for no job, and returns the exit status.
///
/// It writes the usage, with the status 64, or that memory was refused, with 5. A fault in writing is passed over.
pub fn refuse_words<E: Write>(fault: UsageFault, err: &mut E) -> u8
    ensures { result ≡ exit_code (usage_status fault) }
{
    match fault {
        UsageFault::Usage => {
            let _ = err.write_all(USAGE.as_bytes());
        }
        UsageFault::Memory => say(err, "host memory"),
    }
    status_of_usage(fault).code()
}

/// Reports that a file was not read, and returns the exit status, 74.
pub fn refuse_file<E: Write>(err: &mut E) -> u8
    ensures { result ≡ exit_code Status.InputOutput }
{
    fail_read(err).code()
}

/// Reports that a read failed.
fn fail_read<E: Write>(err: &mut E) -> Status
    ensures { result ≡ Status.InputOutput }
{
    say(err, "read failed");
    Status::InputOutput
}

/// Reports that a write failed.
fn fail_write<E: Write>(err: &mut E) -> Status
    ensures { result ≡ Status.InputOutput }
{
    say(err, "write failed");
    Status::InputOutput
}

/// Puts `ok` and a line feed, and flushes the sink.
fn put_ok<S: Sink>(sink: &mut S) -> Result<(), PutFault>
    ensures all { OnOk result (Appends (S.taken sink.old) (S.taken sink.new) (codes "ok\n")) }
    ensures ok { OnOk result (S.has_failed sink.new ≡ S.has_failed sink.old) }
    ensures part { OnErr result (AppendsUpTo (S.taken sink.old) (S.taken sink.new) (codes "ok\n")) }
    ensures err { OnErr result (S.has_failed sink.new ≡ true) }
{
    put_all(sink, b"ok\n")?;
    sink.flush()
}

/// Checks a source text, and puts `ok` if it is accepted.
fn check<S: Sink, E: Write>(alloc: Global, source: &[u8], sink: &mut S, err: &mut E) -> Status
    requires { S.has_failed sink.old ≡ false }
    ensures possible { IsCheckStatus result }
    ensures written { result ≡ Status.Done → WritesOk source.now (S.taken sink.old) (S.taken sink.new) }
    ensures refused { result ≡ Status.Refused → IsRefusedText source.now }
    ensures untouched { (result ≡ Status.Refused) ⊎ (result ≡ Status.HostMemory) → sink.new ≡ sink.old }
    ensures told { S.has_failed sink.new ≡ true → result ≡ Status.InputOutput }
    ensures failed { result ≡ Status.InputOutput → S.has_failed sink.new ≡ true }
    ensures broken { result ≡ Status.InputOutput → WritesOkUpTo source.now (S.taken sink.old) (S.taken sink.new) }
{
    if let Err(fault) = accept_source(alloc, source) {
        return refuse(fault, err);
    }
    match put_ok(sink) {
        Ok(()) => Status::Done,
        Err(_) => fail_write(err),
    }
}

/// Runs a source text, puts the text that shows the run, and reports how the run ended after that has been flushed.
fn run<S: Sink, E: Write>(
    alloc: Global,
    source: &[u8],
    show: Show,
    order: Order,
    steps: u64,
    sink: &mut S,
    err: &mut E,
) -> Status
    requires { S.has_failed sink.old ≡ false }
    ensures possible { result ≡ Status.Usage → ⊥ }
    ensures written { IsRunStatus result → WritesRun source.now order steps show (S.taken sink.old) (S.taken sink.new) result }
    ensures refused { result ≡ Status.Refused → IsRefusedText source.now }
    ensures untouched { result ≡ Status.Refused → sink.new ≡ sink.old }

    // Memory ran out before a byte was put, or in the run, which was put whole.
    ensures memory { result ≡ Status.HostMemory → (sink.new ≡ sink.old) ⊎ WritesRun source.now order steps show (S.taken sink.old) (S.taken sink.new) Status.HostMemory }
    ensures told { S.has_failed sink.new ≡ true → result ≡ Status.InputOutput }
    ensures failed { result ≡ Status.InputOutput → S.has_failed sink.new ≡ true }
    ensures broken { result ≡ Status.InputOutput → WritesRunUpTo source.now order steps show (S.taken sink.old) (S.taken sink.new) }
{
    match run_into(alloc, source, order, steps, show, sink) {
        Ok(summary) => {
            if sink.flush().is_err() {
                return fail_write(err);
            }
            say_run(err, show, &summary);
            status_of_end(&summary.end)
        }
        Err(RunFault::Refused(fault)) => refuse(fault, err),
        Err(RunFault::Write) => fail_write(err),
    }
}

/// Does a job on a source text, for a sink that has not failed, and returns the exit status.
///
/// At most `limit` bytes of the source text are read, into memory of the allocator `buffer`. What the job asks for goes
/// into the sink and is flushed, and after that a line on how the job ended is written to `err`, where a fault in
/// writing is passed over.
pub fn serve_into<A: Allocator, R: Read, S: Sink, E: Write>(
    alloc: Global,
    buffer: A,
    limit: usize,
    job: Job,
    source: &mut Reading<R>,
    sink: &mut S,
    err: &mut E,
) -> Status
    requires { S.has_failed sink.old ≡ false }
    ensures possible { IsPossible job result }
    ensures written { IsDone job result → Serves job limit (R.remaining (reader_of source.old)) (R.remaining (reader_of source.new)) (S.taken sink.old) (S.taken sink.new) result }

    // A text is refused for a reason that it gives, and then nothing is put.
    ensures refused { result ≡ Status.Refused → ReadsRefused limit (R.remaining (reader_of source.old)) (R.remaining (reader_of source.new)) }
    ensures untouched { result ≡ Status.Refused → sink.new ≡ sink.old }

    // Memory ran out before a byte was put, or in the run, which was put whole.
    ensures memory { result ≡ Status.HostMemory → (sink.new ≡ sink.old) ⊎ Serves job limit (R.remaining (reader_of source.old)) (R.remaining (reader_of source.new)) (S.taken sink.old) (S.taken sink.new) Status.HostMemory }

    // No failure of the sink or of a read is passed over.
    ensures told { S.has_failed sink.new ≡ true → result ≡ Status.InputOutput }
    ensures read { is_unread source.old ≡ false → is_unread source.new ≡ true → result ≡ Status.InputOutput }

    // There is no other reason for this status: the sink broke the text off, or a read failed and nothing was put.
    ensures failed { result ≡ Status.InputOutput → ((S.has_failed sink.new ≡ true) × BreaksOff job limit (R.remaining (reader_of source.old)) (R.remaining (reader_of source.new)) (S.taken sink.old) (S.taken sink.new)) ⊎ ((is_unread source.new ≡ true) × (sink.new ≡ sink.old)) }
{
    let bytes = match read_source(buffer, source, limit) {
        Ok(bytes) => bytes,
        Err(ReadFault::Memory) => {
            say(err, "host memory");
            return Status::HostMemory;
        }
        Err(ReadFault::Read) => return fail_read(err),
    };
    match job {
        Job::Check { .. } => check(alloc, &bytes, sink, err),
        Job::Run {
            show,
            order,
            steps,
            ..
        } => run(alloc, &bytes, show, order, steps, sink, err),
    }
}

/// Does a job on the source text that this reader gives, and returns the exit status: 74 if the sink had failed before.
///
/// At most 1,048,577 bytes are read, by at most as many reads. What the job asks for goes into the sink and is flushed,
/// and after that a line on how the job ended is written to `err`, where a fault in writing is passed over.
pub fn serve<R: Read, S: Sink, E: Write>(
    alloc: Global,
    job: Job,
    source: &mut Reading<R>,
    sink: &mut S,
    err: &mut E,
) -> u8
    ensures ends { S.has_failed sink.old ≡ false → EndsBy job READ_LIMIT (R.remaining (reader_of source.old)) (R.remaining (reader_of source.new)) (is_unread source.new) (S.taken sink.old) (S.taken sink.new) (S.has_failed sink.new) result }
    ensures read { is_unread source.old ≡ false → is_unread source.new ≡ true → result ≡ exit_code Status.InputOutput }
    ensures failed { S.has_failed sink.old ≡ true → (result ≡ exit_code Status.InputOutput) × (sink.new ≡ sink.old) × (source.new ≡ source.old) }
{
    if sink.failed() {
        return fail_write(err).code();
    }
    serve_into(alloc, alloc, READ_LIMIT, job, source, sink, err).code()
}
