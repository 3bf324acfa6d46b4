//! The main procedure is executed (RM 10.2).

ghost use Rattle.std.specs.Prelude.{◌+◌, ◌^◌, ◌<◌, OnErr, OnOk, Some};
ghost use Rattle.ctl_code.specs.declared.code.Instr.TheVariants as InstrOf;
ghost use Rattle.ctl_code.specs.Table as Table;
ghost use Rattle.ctl_code.specs.States.{State};
ghost use Rattle.ctl_code.specs.Valid.{IsValid};
ghost use Rattle.ctl_engine.specs.Moves.{GoesOn, Makes, Starts, here_of};

use crate::engine::Engine;
use ctl_code::code::Code;
use ctl_frames::frame::{After, Master};
use std::alloc::AllocError;

impl Engine {
    /// Executes the main procedure, whose number this is; unchanged where memory is refused.
    pub fn start(&mut self, code: &Code, body: usize, place: usize) -> Result<(), AllocError>
        ghost s: { State }
        requires valid { IsValid code.now }
        requires before { Starts code.now self.old place body s }
        requires number { self.old.given_masters + 1 < 2 ^ 64 }
        ensures ok { OnOk result (Makes code.now self.old self.new (Table.by_instr code.now (Some (InstrOf.Start body)) s.operands (here_of place s))) }
        ensures err { OnErr result (GoesOn self.old self.new self.old.mode self.old.cells.items) }
    {
        let _ = place;
        let entry = code.entries[body];
        let formals = self.count_formals();
        let master = Master {
            number: self.given_masters + 1,
            window: 0,
            base: 0,
            slots: entry.slots,
            link: 0,
            depth: 1,
            owned: self.count_owned(),
            outer_formals: formals,
            formals,
            spots: self.count_spots(),
        };
        self.reserve()?;
        self.open(master, 0, After::Body, entry.place);
        Ok(())
    }
}
