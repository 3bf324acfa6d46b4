//! The lines on standard error. A fault in writing one is passed over.

use ctl_run::Summary;
use ctl_tree::ending::End;
use ctl_tree::request::Show;
use std::fmt;
use std::fmt::Display;
use std::io::Write;

/// The picks of a run, printed as numbers with commas, or as `none`.
#[derive(Clone, Copy)]
pub struct Picks<'a>(pub &'a [u64]);

impl Display for Picks<'_> {
    fn fmt<W: fmt::Write>(&self, f: &mut fmt::Formatter<W>) -> fmt::Result {
        let Some((first, rest)) = self.0.split_first() else {
            return f.write_str("none");
        };
        write!(f, "{first}")?;
        for pick in rest {
            write!(f, ",{pick}")?;
        }
        Ok(())
    }
}

/// Writes a line of the program: `adactl: `, the message and a line feed. A fault in writing is passed over.
pub fn say<E: Write, D: Display + Drop>(err: &mut E, message: D) {
    let _ = writeln!(err, "adactl: {message}");
}

/// Writes a line that ends in a name.
fn say_name<E: Write>(err: &mut E, message: &str, name: &[u8]) {
    let _ = err.write_all(message.as_bytes());
    let _ = err.write_all(name);
    let _ = err.write_all(b"\n");
}

/// Writes the line for the end of a run, and nothing for a run that is done.
pub fn say_end<E: Write>(err: &mut E, end: &End) {
    match end {
        End::Done => {}
        End::Raised(name) => say_name(err, "adactl: raised ", name.as_bytes()),
        End::Stopped(stop) => say(err, format_args!("stopped {stop}")),
        End::StepLimit => say(err, "step limit"),
        End::HostMemory => say(err, "host memory"),
    }
}

/// Writes how a run ended, and before that the picks that it took, if its trace was asked for.
pub fn say_run<E: Write>(err: &mut E, show: Show, summary: &Summary) {
    if show == Show::Trace {
        let picks = Picks(&summary.picks);
        say(err, format_args!("picks {picks}"));
    }
    say_end(err, &summary.end);
}
