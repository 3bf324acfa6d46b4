//! The engine before its first step, and what it has shown behind its last.

ghost use Rattle.std.specs.Prelude.{◌≡◌, IfOk};
ghost use Rattle.ctl_code.specs.Steps as Steps;
ghost use Rattle.ctl_code.specs.Valid.{IsValid};
ghost use Rattle.ctl_engine.specs.Shows.{Shows};

use crate::engine::Engine;
use ctl_code::code::Code;
use ctl_frames::frame::{Mode, Numbered};
use ctl_frames::parts::needs_of;
use ctl_objects::Objects;
use ctl_tree::event::Event;
use std::alloc::{AllocError, Global};

impl Engine {
    /// Answers an engine before the first instruction; there is room for a window of this code.
    pub fn new(alloc: Global, code: &Code) -> Result<Engine, AllocError>
        requires { IsValid code.now }
        ensures { IfOk result (λ engine. Shows code.now engine Steps.start) }
    {
        let cells = vec![in alloc; 0; code.room]?;
        let needs = needs_of(alloc, code)?;
        Ok(Engine {
            alloc,
            mode: Mode::At(0),
            control: Vec::new(alloc),
            masters: Vec::new(alloc),
            cells,
            owned: Vec::new(alloc),
            formals: Vec::new(alloc),
            spots: Vec::new(alloc),
            stock: Objects::new(alloc, needs),
            saved: Vec::new(alloc),
            noted: Vec::new(alloc),
            given_masters: 0,
            numbered: Numbered {
                objects: 0,
                collections: 0,
            },
            events: Vec::new(alloc),
            picks: Vec::new(alloc),
        })
    }

    /// Answers what was shown, and the choices that were made, and frees the objects.
    pub fn into_parts(self) -> (Vec<Event>, Vec<u64>)
        ensures events { result.0.items ≡ self.events.items }
        ensures picks { result.1.items ≡ self.picks.items }
    {
        let Engine {
            alloc: _,
            mode: _,
            control: _,
            masters: _,
            cells: _,
            owned: _,
            formals: _,
            spots: _,
            stock,
            saved: _,
            noted: _,
            given_masters: _,
            numbered: _,
            events,
            picks,
        } = self;
        stock.close();
        (events, picks)
    }
}
