//! What is noted on the way, and what comes into view and goes out of it.

ghost use Rattle.std.specs.Prelude.{◌≡◌, IfOk, OnOk};
ghost use Rattle.ctl_resolve.specs.Naming as spec;

use crate::view::{Part, Progress, Stage, View};
use ctl_tree::fault::{Fault, FaultCode};
use ctl_tree::span::Span;
use std::alloc::AllocError;

/// Notes that a rule is broken at a place.
pub fn note(view: &mut View, code: FaultCode, at: Span)
    ensures { view.new ≡ spec.note code at view.old }
{
    view.fault = Fault::first_of(view.fault, Fault::at(code, at));
}

/// Notes that a rule is broken at a place, if it is.
pub fn note_if(view: &mut View, broken: bool, code: FaultCode, at: Span)
    ensures { view.new ≡ spec.note_if broken code at view.old }
{
    if broken {
        note(view, code, at);
    }
}

/// Answers the level inside a master (RM 3.10.2); one that cannot be counted is answered as want of memory.
fn deeper(level: usize) -> Result<usize, AllocError>
    ensures { IfOk result (λ inner. inner ≡ spec.deeper level) }
{
    level.checked_add(1).ok_or(AllocError)
}

/// Begins the part of a body or a block, and answers the region around.
pub fn enter_master(view: &mut View) -> Result<Part, AllocError>
    ensures around { IfOk result (λ around. around ≡ view.old.part) }
    ensures inside { OnOk result (view.new ≡ spec.enter_master view.old) }
{
    let around = view.part;
    view.part = Part {
        start: view.table.count(),
        level: deeper(around.level)?,
        progress: Progress::BeforeBodies,
    };
    Ok(around)
}

/// Begins a region that is no master, and answers the region around.
pub fn enter_region(view: &mut View) -> Part
    ensures around { result ≡ view.old.part }
    ensures inside { view.new ≡ spec.enter_region view.old }
{
    let around = view.part;
    view.part.start = view.table.count();
    around
}

/// Goes back to the region around: what was declared is out of view.
pub fn leave(view: &mut View, around: Part)
    ensures { view.new ≡ spec.leave around view.old }
{
    view.table.close(view.part.start);
    view.part = around;
}

/// Leaves only so many declarations in view, the outermost.
pub fn cut(view: &mut View, count: usize)
    ensures { view.new ≡ spec.cut count view.old }
{
    view.table.close(count);
}

/// Notes that a declaration has come as far as this.
pub fn set_stage(view: &mut View, number: usize, stage: Stage)
    ensures { view.new ≡ spec.set_stage number stage view.old }
{
    view.table.set(number, stage);
}

/// Notes that a body stands before what follows.
pub fn behind_body(view: &mut View)
    ensures { view.new ≡ spec.behind_body view.old }
{
    view.part.progress = Progress::BehindBody;
}
