//! The instructions of statements whose exceptions are handled, and of their handlers (RM 11.2 to 11.4).
//!
//! No loop of the same master stands around handlers, so what completes a loop leads from them out of their master.

ghost use Rattle.std.specs.Prelude.{◌≡◌, ◌≤◌, ◌-◌, length, map, OnOk, None};
ghost use Rattle.ctl_program.specs.declared.statement.Master.{out-Master};
ghost use Rattle.ctl_emitter.specs.Emitted.{chosen, further_handlers, lined, one_handler, skipped_handlers, sought_code, stated, statements_of};
ghost use Rattle.ctl_layout.specs.Layout as spec;

use crate::emit_statements::statements;
use ctl_code::code::Instr;
use ctl_emitter::emit::Emitter;
use ctl_program::statement::{Choices, Handler, Master, Stmt};
use std::alloc::AllocError;

/// Emits the statements of a master, and the handlers of their exceptions if it has some (RM 11.2).
#[cycle(emit)]
pub(crate) fn handled(emitter: &mut Emitter, master: &Master) -> Result<(), AllocError>
    ensures { OnOk result (emitter.new ≡ stated (statements_of (out-Master master.now)) None emitter.old) }
{
    let handlers = master.handlers.as_slice();
    if handlers.is_empty() {
        return statements(emitter, master.body.as_slice(), None);
    }
    let head = emitter.place();
    emitter.put(Instr::Handle(0))?;
    statements(emitter, master.body.as_slice(), None)?;
    let length = emitter.since(head);
    emitter.set(head, Instr::Handle(length));
    skipped_handlers(emitter, handlers)
}

/// Emits the end of statements that are handled, which skips their handlers, and these.
#[cycle(emit)]
fn skipped_handlers(emitter: &mut Emitter, all: &[Handler]) -> Result<(), AllocError>
    ensures { OnOk result (emitter.new ≡ stated (skipped_handlers (map spec.handler_code all.now)) None emitter.old) }
{
    let end = emitter.place();
    emitter.put(Instr::Skip(0))?;
    handlers(emitter, all, end)?;
    let length = emitter.behind(end);
    emitter.set(end, Instr::Skip(length));
    Ok(())
}

/// Emits handlers, whose ends lead back to the end of the statements that they handle, and what raises an exception again that none
/// of them handles (RM 11.4).
#[cycle(emit)]
fn handlers(emitter: &mut Emitter, handlers: &[Handler], end: usize) -> Result<(), AllocError>
    requires { end ≤ length emitter.old.instructions }
    ensures { OnOk result (emitter.new ≡ stated (further_handlers (length emitter.old.instructions - end) (map spec.handler_code handlers.now)) None emitter.old) }
{
    for one in handlers {
        handler(emitter, one)?;
        let back = emitter.since(end);
        emitter.put(Instr::Back(back))?;
    }
    emitter.put(Instr::RaiseAgain)
}

/// Emits a handler, which passes over the instruction at its end where it does not handle the exception.
#[cycle(emit)]
fn handler(emitter: &mut Emitter, handler: &Handler) -> Result<(), AllocError>
    ensures { OnOk result (emitter.new ≡ stated (one_handler (spec.handler_code handler.now)) None emitter.old) }
{
    match &handler.choices {
        Choices::Others => statements(emitter, handler.body.as_slice(), None),
        Choices::Exceptions(exceptions) => {
            chosen(emitter, handler.body.as_slice(), exceptions.as_slice())
        }
    }
}

/// Emits the statements of a handler of these exceptions, over which it passes where the exception is none of them.
#[cycle(emit)]
fn chosen(emitter: &mut Emitter, body: &[Stmt], exceptions: &[usize]) -> Result<(), AllocError>
    ensures { OnOk result (emitter.new ≡ stated (chosen exceptions.now (spec.all (map spec.statement_code body.now))) None emitter.old) }
{
    sought(emitter, exceptions)?;
    let head = emitter.place();
    emitter.put(Instr::Skip(0))?;
    statements(emitter, body, None)?;
    let length = emitter.since(head);
    emitter.set(head, Instr::Skip(length));
    Ok(())
}

/// Emits exceptions that are looked for one after another: the one that is handled passes over the others and the instruction behind.
fn sought(emitter: &mut Emitter, exceptions: &[usize]) -> Result<(), AllocError>
    ensures { OnOk result (emitter.new ≡ lined (sought_code exceptions.now) emitter.old) }
{
    let mut length = exceptions.len();
    for one in exceptions {
        let exception = *one;
        emitter.put(Instr::Catch { exception, length })?;
        length = length.saturating_sub(1);
    }
    Ok(())
}
