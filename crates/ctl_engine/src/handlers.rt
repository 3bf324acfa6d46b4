//! Handlers of exceptions (RM 11.2 to 11.4): the statements whose exceptions go to handlers begin, an exception goes there, one of the
//! handlers is chosen, and `raise;` raises again what is handled.

ghost use Rattle.std.specs.Prelude.{◌≡◌, ◌+◌, ◌^◌, ◌<◌, ℕ, IfNone, IfSome, None, Some, length, reverse};
ghost use Rattle.ctl_frames.specs.declared.frame.Mode.TheVariants as ModeOf;
ghost use Rattle.ctl_code.specs.declared.code.Instr.TheVariants as InstrOf;
ghost use Rattle.ctl_code.specs.States.{State};
ghost use Rattle.ctl_code.specs.Table as Table;
ghost use Rattle.ctl_engine.specs.Handlers.{ChangesHandling, first_caught, first_handlers};
ghost use Rattle.ctl_engine.specs.Moves.{Before, GoesOn, Makes, here_of};

use crate::calls::replace_top;
use crate::engine::Engine;
use crate::jumps::pass_over;
use ctl_code::code::{Code, Way};
use ctl_frames::frame::{Frame, Handling, Mode};

impl Engine {
    /// Answers the exception that the innermost handler around handles, which the newest frame has; 0 where that is no master's.
    #[inline(always)]
    pub fn caught(&self) -> usize
        ensures { result ≡ first_caught (reverse self.now.control.items) }
    {
        match self.control.as_slice() {
            [.., Frame::InMaster(handling, _)] => handling.caught,
            _ => 0,
        }
    }

    /// Answers the exception that the innermost handler around handles, as `caught` does, where some frame is there.
    #[inline(always)]
    pub fn caught_there(&self) -> usize
        requires { 0 < length self.now.control.items }
        ensures { result ≡ first_caught (reverse self.now.control.items) }
    {
        match self.control.as_slice() {
            [.., Frame::InMaster(handling, _)] => handling.caught,
            [] => unreachable!(),
            _ => 0,
        }
    }

    /// Answers the place of the handlers of the newest master, if its frame is the newest and it has some that have not begun.
    #[inline(always)]
    pub fn handlers(&self) -> Option<usize>
        ensures { result ≡ first_handlers (reverse self.now.control.items) }
    {
        match self.control.as_slice() {
            [.., Frame::InMaster(handling, _)] => handling.handlers,
            _ => None,
        }
    }

    /// Has the exceptions of the newest master handled so from here on, if its frame is the newest, and goes on so.
    #[inline(always)]
    pub fn set_handling(&mut self, handling: Handling, mode: Mode)
        ensures { ChangesHandling self.old self.new handling mode }
    {
        self.mode = mode;
        let Some(after) = self.innermost() else {
            return;
        };
        replace_top(&mut self.control, Frame::InMaster(handling, after));
    }

    /// Begins the statements of the newest master whose exceptions go to its handlers, behind so many instructions (RM 11.2).
    #[inline(always)]
    pub fn handle(&mut self, code: &Code, length: usize, place: usize)
        ghost s: { State }
        requires before { Before code.now self.old place (InstrOf.Handle length) s }
        requires place { place + 1 + length < 2 ^ 64 }
        ensures makes { Makes code.now self.old self.new (Table.by_instr code.now (Some (InstrOf.Handle length)) s.operands (here_of place s)) }
        ensures at { (at : ℕ) × (self.new.mode ≡ ModeOf.At at) }
        ensures masters { reverse self.new.masters.items ≡ reverse self.old.masters.items }
    {
        let _ = code;
        let handling = Handling {
            handlers: Some(place + 1 + length),
            caught: self.caught(),
        };
        self.set_handling(handling, Mode::At(place + 1));
    }

    /// Passes over so many instructions, those of the choices behind, where the exception that is handled is this one (RM 11.4).
    pub fn catch(&mut self, code: &Code, exception: usize, length: usize, place: usize)
        ghost s: { State }
        requires before { Before code.now self.old place (InstrOf.Catch exception length) s }
        requires place { place + 1 + length < 2 ^ 64 }
        ensures makes { Makes code.now self.old self.new (Table.by_instr code.now (Some (InstrOf.Catch exception length)) s.operands (here_of place s)) }
        ensures at { (at : ℕ) × (self.new.mode ≡ ModeOf.At at) }
        ensures masters { reverse self.new.masters.items ≡ reverse self.old.masters.items }
    {
        let _ = code;
        let is_handled = self.caught() == exception;
        self.go_on(Mode::At(pass_over(is_handled, length, place)));
    }

    /// Raises the exception that is handled again (RM 11.3).
    pub fn raise_again(&mut self, code: &Code, place: usize)
        ghost s: { State }
        requires before { Before code.now self.old place InstrOf.RaiseAgain s }
        ensures { Makes code.now self.old self.new (Table.by_instr code.now (Some InstrOf.RaiseAgain) s.operands (here_of place s)) }
    {
        let _ = code;
        let _ = place;
        let exception = self.caught();
        self.go_on(Mode::Transfers(Way::Raise(exception)));
    }

    /// Takes an exception to the handlers of the newest master, if its frame is the newest and it has some that have not begun; answers their
    /// place (RM 11.4). Unchanged where there are none.
    #[inline(always)]
    pub fn handle_at_once(&mut self, exception: usize) -> Option<usize>
        ensures some { IfSome result (λ place. (first_handlers (reverse self.old.control.items) ≡ Some place) × ChangesHandling self.old self.new (record { handlers = None; caught = exception }) (ModeOf.At place)) }
        ensures none { IfNone result (GoesOn self.old self.new self.old.mode self.old.cells.items) }
    {
        let place = self.handlers()?;
        let handling = Handling {
            handlers: None,
            caught: exception,
        };
        self.set_handling(handling, Mode::At(place));
        Some(place)
    }
}
