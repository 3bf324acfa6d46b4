//! The command line: its arguments and its two subcommands.

ghost use Rattle.std.specs.Prelude.{◌≡◌, false, IfOk};
ghost use Rattle.clap.specs.Words.{app_of, rule_of};
ghost use Rattle.clap.specs.declared.builder.command.Command.TheViews.{out-Command as fields_of};
ghost use Rattle.ctl_job.specs.Line.{file_rule, trace_rule, order_rule, steps_rule, check_app, run_app, top_app, tracing_app, line_of};

use clap::{Arg, ArgAction, Command, value_parser};
use std::alloc::{AllocError, Global};

/// Makes the argument `FILE`.
fn file_argument<'a>(alloc: Global) -> Arg<'a>
    ensures rule { rule_of result ≡ file_rule }
    ensures local { result.global ≡ false }
{
    Arg::new(alloc, "file").required(true)
}

/// Makes the argument `--trace`.
fn trace_argument<'a>(alloc: Global) -> Arg<'a>
    ensures rule { rule_of result ≡ trace_rule }
    ensures local { result.global ≡ false }
{
    Arg::new(alloc, "trace")
        .long("trace")
        .action(ArgAction::SetTrue)
}

/// Makes the argument `--order ORDER`, where an order has one of these names.
fn order_argument<'a>(alloc: Global, names: &'a [&'a str]) -> Arg<'a>
    ensures rule { rule_of result ≡ order_rule names.entry }
    ensures local { result.global ≡ false }
{
    Arg::new(alloc, "order").long("order").value_parser(names)
}

/// Makes the argument `--steps N`, where N is below 2^64.
fn steps_argument<'a>(alloc: Global) -> Arg<'a>
    ensures rule { rule_of result ≡ steps_rule }
    ensures local { result.global ≡ false }
{
    Arg::new(alloc, "steps")
        .long("steps")
        .value_parser(value_parser!(u64))
}

/// Makes the subcommand `check FILE`.
fn check_command<'a>(alloc: Global) -> Result<Command<'a>, AllocError>
    ensures app { IfOk result (λ c. app_of c ≡ check_app) }
    ensures local { IfOk result (λ c. (fields_of c).has_globals ≡ false) }
{
    Command::new(alloc, "check").arg(file_argument(alloc))
}

/// Makes the subcommand `run FILE [--trace]`, which is to have further arguments.
fn tracing_command<'a>(alloc: Global) -> Result<Command<'a>, AllocError>
    ensures app { IfOk result (λ c. app_of c ≡ tracing_app) }
    ensures local { IfOk result (λ c. (fields_of c).has_globals ≡ false) }
{
    Command::new(alloc, "run")
        .arg(file_argument(alloc))?
        .arg(trace_argument(alloc))
}

/// Makes the subcommand `run FILE [--trace] [--order ORDER] [--steps N]`.
fn run_command<'a>(alloc: Global, names: &'a [&'a str]) -> Result<Command<'a>, AllocError>
    ensures app { IfOk result (λ c. app_of c ≡ run_app names.entry) }
    ensures local { IfOk result (λ c. (fields_of c).has_globals ≡ false) }
{
    tracing_command(alloc)?
        .arg(order_argument(alloc, names))?
        .arg(steps_argument(alloc))
}

/// Makes the command that the subcommands are added to.
fn top_command<'a>(alloc: Global) -> Command<'a>
    ensures app { app_of result ≡ top_app }
    ensures local { (fields_of result).has_globals ≡ false }
{
    Command::new(alloc, "adactl")
        .no_binary_name(true)
        .disable_help_subcommand(true)
        .subcommand_required(true)
}

/// Makes the command line of the program, where an order has one of these names.
pub fn command_line<'a>(alloc: Global, names: &'a [&'a str]) -> Result<Command<'a>, AllocError>
    ensures app { IfOk result (λ c. app_of c ≡ line_of names.entry) }
    ensures local { IfOk result (λ c. (fields_of c).has_globals ≡ false) }
{
    let check = check_command(alloc)?;
    let checking = top_command(alloc).subcommand(check)?;
    let run = run_command(alloc, names)?;
    checking.subcommand(run)
}
