//! What finalizations and assignments are made of: the copies of parts that are made before, room, and frames that go (RM 7.6, 7.6.1).

ghost use Rattle.std.specs.Prelude.{◌≡◌, ◌+◌, ◌-◌, ◌^◌, ◌<◌, ◌≤◌, ◌++◌, List, ℕ, IfOk, OnErr, OnOk, Some, length, slice_get, vec_capacity, vec_len, if◌then◌else◌, IsTrue};
ghost use Rattle.ctl_meaning.specs.Changes as Changes;
ghost use Rattle.ctl_meaning.specs.Finalization as S;
ghost use Rattle.ctl_meaning.specs.Outcome.{Fine};
ghost use Rattle.ctl_meaning.specs.World.{World};
ghost use Rattle.ctl_code.specs.declared.code.Code.{Code};
ghost use Rattle.ctl_code.specs.States as T;
ghost use Rattle.ctl_code.specs.States.{Word};
ghost use Rattle.ctl_code.specs.Table as Table;
ghost use Rattle.ctl_engine.specs.Assigning.{HasRoom};
ghost use Rattle.ctl_engine.specs.Finishing.{AreDoubles, DropsFrame, with_objects};
ghost use Rattle.ctl_engine.specs.Moves.{GoesOn};
ghost use Rattle.ctl_engine.specs.Shows as Shows;
ghost use Rattle.ctl_engine.specs.Shows.{Holds, kept};

use crate::engine::Engine;
use ctl_code::code::{Begun, Code};
use ctl_frames::frame::{Ended, Frame};
use ctl_frames::spots::Spot;
use ctl_tree::event::{Cause, Part};
use room::reserve;
use std::alloc::{AllocError, Global};

/// The finalization of a part: its cause, the record type of the part, and the cell where the window of a body begins that is called
/// for it.
#[derive(Clone, Copy)]
pub struct Finalization {
    pub cause: Cause,
    pub record_type: usize,
    pub base: usize,
}

/// A part that is to be finalized or adjusted, three times: for the frame that waits for it, for the formal of its Finalize or Adjust, and
/// for what is shown of the call. All are made before anything changes.
#[derive(Drop)]
pub struct Doubles {
    pub spot: Spot,
    pub formal: Spot,
    pub part: Part,
}

/// Answers what the finalization or the adjustment of a part hands on in which an operation failed, or none did (RM 7.6.1).
pub fn handed(failed: bool) -> Ended
    ensures { Shows.tried_of result ≡ Fine (Table.handed failed) }
{
    if failed {
        Ended::OperationFailed
    } else {
        Ended::Complete
    }
}

/// Makes a part three times.
#[inline(always)]
pub fn doubled(alloc: Global, spot: Spot) -> Result<Doubles, AllocError>
    ensures { IfOk result (λ doubles. AreDoubles doubles spot) }
{
    let formal = spot.copied(alloc)?;
    let part = spot.part(alloc)?;
    Ok(Doubles { spot, formal, part })
}

impl Engine {
    /// Begins the finalization of the object of this number, if it is there (RM 7.6.1).
    pub fn begin_finalization(&mut self, number: u64)
        ensures holds { (code : Code) (k : List T.Frame) (ops : List Word) (w : World) → Holds code (kept self.old) k ops w → Holds code (kept self.new) k ops (Changes.begin_finalization number w) }
        ensures kept { kept self.new ≡ with_objects self.new.stock.objects (kept self.old) }
        ensures control { self.new.control ≡ self.old.control }
        ensures spots { self.new.spots ≡ self.old.spots }
        ensures others { (self.new.masters ≡ self.old.masters) × (self.new.formals ≡ self.old.formals) }
        ensures given { self.new.given_masters ≡ self.old.given_masters }
        ensures events { self.new.events ≡ self.old.events }
        ensures picks { self.new.picks ≡ self.old.picks }
    {
        self.stock.begin_finalization(number);
    }

    /// Ends the finalization of the object that is this part as a whole, if it is there (RM 7.6.1); nothing changes where it is a part
    /// inside of an object.
    pub fn end_whole(&mut self, spot: &Spot)
        ensures holds { (code : Code) (k : List T.Frame) (ops : List Word) (w : World) → Holds code (kept self.old) k ops w → Holds code (kept self.new) k ops (if S.is_whole spot.now then Changes.end_finalization spot.now.object w else w) }
        ensures kept { kept self.new ≡ with_objects self.new.stock.objects (kept self.old) }
        ensures stacks { (self.new.control ≡ self.old.control) × (self.new.noted ≡ self.old.noted) }
        ensures events { self.new.events ≡ self.old.events }
        ensures picks { self.new.picks ≡ self.old.picks }
    {
        if spot.is_whole() {
            self.stock.end_finalization(spot.object());
        }
    }

    /// Tells whether there is room for the finalization or the adjustment of a part, as `prepare_finalization` makes it.
    #[inline(always)]
    fn has_room_to_finish(&self, code: &Code, base: usize) -> bool
        requires number { self.now.given_masters + 1 < 2 ^ 64 }
        ensures room { IsTrue result → HasRoom code.now self.now base }
        ensures control { IsTrue result → vec_len self.now.control + 4 ≤ vec_capacity self.now.control }
        ensures spots { IsTrue result → vec_len self.now.spots < vec_capacity self.now.spots }
        ensures notes { IsTrue result → vec_len self.now.noted < vec_capacity self.now.noted }
    {
        self.spots.len() < self.spots.capacity()
            && 4 <= self.control.capacity() - self.control.len()
            && self.noted.len() < self.noted.capacity()
            && self.masters.len() < self.masters.capacity()
            && self.events.len() < self.events.capacity()
            && self.formals.len() < self.formals.capacity()
            && base <= self.cells.len()
            && code.room <= self.cells.len() - base
    }

    /// Makes room for the finalization or the adjustment of a part, as `prepare_finalization` does, where there is none yet.
    #[cold]
    #[inline(never)]
    fn prepare_more_to_finish(&mut self, code: &Code, base: usize) -> Result<(), AllocError>
        requires number { self.old.given_masters + 1 < 2 ^ 64 }
        ensures ok { OnOk result ((more : List ℕ) × GoesOn self.old self.new self.old.mode (self.old.cells.items ++ more)) }
        ensures err { OnErr result (GoesOn self.old self.new self.old.mode self.old.cells.items) }
        ensures room { OnOk result (HasRoom code.now self.new base) }
        ensures control { OnOk result (vec_len self.new.control + 3 ≤ vec_capacity self.new.control) }
        ensures frames { OnOk result (vec_len self.new.control + 4 ≤ vec_capacity self.new.control) }
        ensures spots { OnOk result (vec_len self.new.spots < vec_capacity self.new.spots) }
        ensures choices { self.new.picks ≡ self.old.picks }
        ensures waiting { vec_len self.new.control ≡ vec_len self.old.control }
        ensures owned { self.new.owned ≡ self.old.owned }
        ensures existing { self.new.stock ≡ self.old.stock }
        ensures saved { self.new.saved ≡ self.old.saved }
        ensures notes { OnOk result (vec_len self.new.noted < vec_capacity self.new.noted) }
    {
        reserve(&mut self.spots, 1)?;
        reserve(&mut self.control, 4)?;
        reserve(&mut self.noted, 1)?;
        self.prepare(base, code.room, 1)
    }

    /// Makes room for the finalization or the adjustment of a part: for its frames and the part that they wait for, for the call of a body
    /// whose window begins there, and to note the part; nothing else changes.
    #[inline(always)]
    pub fn prepare_finalization(&mut self, code: &Code, base: usize) -> Result<(), AllocError>
        requires number { self.old.given_masters + 1 < 2 ^ 64 }
        ensures ok { OnOk result ((more : List ℕ) × GoesOn self.old self.new self.old.mode (self.old.cells.items ++ more)) }
        ensures err { OnErr result (GoesOn self.old self.new self.old.mode self.old.cells.items) }
        ensures room { OnOk result (HasRoom code.now self.new base) }
        ensures control { OnOk result (vec_len self.new.control + 3 ≤ vec_capacity self.new.control) }
        ensures frames { OnOk result (vec_len self.new.control + 4 ≤ vec_capacity self.new.control) }
        ensures spots { OnOk result (vec_len self.new.spots < vec_capacity self.new.spots) }
        ensures choices { self.new.picks ≡ self.old.picks }
        ensures waiting { vec_len self.new.control ≡ vec_len self.old.control }
        ensures owned { self.new.owned ≡ self.old.owned }
        ensures existing { self.new.stock ≡ self.old.stock }
        ensures saved { self.new.saved ≡ self.old.saved }
        ensures notes { OnOk result (vec_len self.new.noted < vec_capacity self.new.noted) }
    {
        if self.has_room_to_finish(code, base) {
            return Ok(());
        }
        self.prepare_more_to_finish(code, base)
    }

    /// Takes the newest frame off, with the part that it waits for.
    pub fn drop_frame(&mut self) -> Spot
        requires control { 0 < vec_len self.old.control }
        requires spots { 0 < vec_len self.old.spots }
        ensures { DropsFrame self.old self.new result }
    {
        let _ = self.control.take_last();
        self.spots.take_last()
    }

    /// Copies a component of the newest part, three times.
    pub fn double_component(&self, component: &Begun) -> Result<Doubles, AllocError>
        requires { 0 < length self.now.spots.items }
        ensures { IfOk result (λ doubles. (s : S.Spot) × (slice_get self.now.spots.items (length self.now.spots.items - 1) ≡ Some s) × AreDoubles doubles (Table.component_of s component.now.offset component.now.position)) }
    {
        let newest = self.count_spots() - 1;
        let mut spot = self.spots[newest].copied(self.alloc)?;
        spot.select(component.offset, component.position)?;
        doubled(self.alloc, spot)
    }
}

/// An assignment whose target is to take the value that is saved for it: their record type, the place where it goes on, and the cell where
/// the window of a body begins that is called for the target.
#[derive(Clone, Copy)]
pub struct Assignment {
    pub record_type: usize,
    pub place: usize,
    pub base: usize,
}
