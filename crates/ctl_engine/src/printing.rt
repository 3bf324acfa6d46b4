//! The instructions that print a text or end the line.

ghost use Rattle.std.specs.Prelude.{◌≡◌, ◌+◌, ◌^◌, ◌<◌, ◌≤◌, ◌∷◌, ◌++◌, OnErr, OnOk, Some, vec_capacity, vec_len};
ghost use Rattle.ctl_tree.specs.declared.event.Event.TheVariants.{Print};
ghost use Rattle.ctl_code.specs.declared.code.Instr.TheVariants as InstrOf;
ghost use Rattle.ctl_code.specs.Table as Table;
ghost use Rattle.ctl_code.specs.States.{State};
ghost use Rattle.ctl_engine.specs.Moves.{Before, GoesOn, Makes, here_of};
ghost use Rattle.ctl_engine.specs.Prints.{line_end, print_of};

use crate::engine::Engine;
use ctl_code::code::Code;
use ctl_frames::frame::Mode;
use ctl_tree::event::Event;
use ctl_tree::text::Text;
use ctl_values::texts::text_from;
use room::reserve;
use std::alloc::AllocError;

/// A text is printed, and its line ends where that is asked.
fn show_text(events: &mut Vec<Event>, text: Text, ends_line: bool)
    requires { vec_len events.old + 2 ≤ vec_capacity events.old }
    ensures { events.new.items ≡ events.old.items ++ Print text ∷ line_end ends_line }
{
    events.push_reserved(Event::Print(text));
    if ends_line {
        events.push_reserved(Event::Newline);
    }
}

impl Engine {
    /// Prints the text of this number, and ends the line where that is asked; its images take their values from the newest operands,
    /// the first of them in this cell of the newest window.
    #[inline(never)]
    pub fn print(
        &mut self,
        code: &Code,
        text: usize,
        first: usize,
        ends_line: bool,
        place: usize,
    ) -> Result<(), AllocError>
        ghost s: { State }
        requires before { Before code.now self.old place (print_of ends_line text first) s }
        requires place { place + 1 < 2 ^ 64 }
        ensures ok { OnOk result (Makes code.now self.old self.new (Table.by_instr code.now (Some (print_of ends_line text first)) s.operands (here_of place s))) }
        ensures err { OnErr result (GoesOn self.old self.new self.old.mode self.old.cells.items) }
    {
        let parts = code.texts[text].parts();
        let first = self.window() + first;
        reserve(&mut self.events, 2)?;
        let printed = text_from(self.alloc, parts, self.cells.as_slice(), first)?;
        show_text(&mut self.events, printed, ends_line);
        self.mode = Mode::At(place + 1);
        Ok(())
    }

    /// Ends the line; unchanged where memory is refused.
    #[inline(never)]
    pub fn end_line(&mut self, code: &Code, place: usize) -> Result<(), AllocError>
        ghost s: { State }
        requires before { Before code.now self.old place InstrOf.NewLine s }
        requires place { place + 1 < 2 ^ 64 }
        ensures ok { OnOk result (Makes code.now self.old self.new (Table.by_instr code.now (Some InstrOf.NewLine) s.operands (here_of place s))) }
        ensures err { OnErr result (GoesOn self.old self.new self.old.mode self.old.cells.items) }
    {
        let _ = code;
        reserve(&mut self.events, 1)?;
        self.events.push_reserved(Event::Newline);
        self.mode = Mode::At(place + 1);
        Ok(())
    }
}
