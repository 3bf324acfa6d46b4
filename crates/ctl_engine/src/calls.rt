//! Calls of the bodies of operations: room is made, and the call for an owned object of whichever active master.

ghost use Rattle.std.specs.Prelude.{◌≡◌, ◌+◌, ◌^◌, ◌<◌, ◌≤◌, [], ◌∷◌, ◌++◌, List, ℕ, IsTrue, OnErr, OnOk, drop, length, reverse, take, vec_capacity, vec_len};
ghost use Rattle.ctl_code.specs.Table as Table;
ghost use Rattle.ctl_frames.specs.declared.frame.Frame.TheVariants as FrameOf;
ghost use Rattle.ctl_code.specs.Valid.{IsValid};
ghost use Rattle.ctl_frames.specs.Links.{AreLinked, end_behind, first_end};
ghost use Rattle.ctl_engine.specs.Assigning.{Called, Calls, HasRoom, IsCaller, is_assigning};
ghost use Rattle.ctl_frames.specs.Masters.{AreBelow, Head, display_from, first_display};
ghost use Rattle.ctl_frames.specs.Holders.{first_formal};
ghost use Rattle.ctl_engine.specs.Moves.{GoesOn, Makes, OpensBody, cleared};

use crate::engine::Engine;
use crate::holders::master_at;
use ctl_code::code::{Code, Entry};
use ctl_frames::frame::{After, Completion, Formal, Frame, Master};
use ctl_frames::spots::Spot;
use ctl_tree::event::Event;
use room::reserve;
use std::alloc::AllocError;

/// Makes so many cells, if there are fewer; the new ones are 0.
#[inline(always)]
pub fn make_room(cells: &mut Vec<u64>, wanted: usize) -> Result<(), AllocError>
    ensures ok { OnOk result ((more : List ℕ) × (cells.new.items ≡ cells.old.items ++ more)) }
    ensures long { OnOk result (wanted ≤ length cells.new.items) }
    ensures err { OnErr result (cells.new.items ≡ cells.old.items) }
{
    if wanted <= cells.as_slice().len() {
        return Ok(());
    }
    cells.resize(wanted, 0)
}

/// How a master is left: whether a finalization failed, how its statements were completed, and where its end leads.
#[derive(Clone, Copy)]
pub struct Departure {
    pub failed: bool,
    pub pending: Completion,
    pub after: After,
}

impl Departure {
    /// Makes the frame of a master that is left so, whose layers lie below this place.
    pub fn frame(self, next: usize) -> Frame
        ensures { result ≡ FrameOf.Leaving self.failed self.pending self.after next }
    {
        Frame::Leaving {
            failed: self.failed,
            pending: self.pending,
            after: self.after,
            next,
        }
    }
}

/// Puts another frame in place of the newest one.
#[inline(always)]
pub fn replace_top(control: &mut Vec<Frame>, frame: Frame)
    requires { 0 < vec_len control.old }
    ensures items { reverse control.new.items ≡ frame ∷ drop 1 (reverse control.old.items) }
    ensures len { vec_len control.new ≡ vec_len control.old }
    ensures capacity { vec_capacity control.new ≡ vec_capacity control.old }
{
    let top = control.as_slice().len() - 1;
    control[top] = frame;
}

impl Engine {
    /// Answers the cell behind those of the newest master.
    #[inline(always)]
    pub fn end_of_newest(&self) -> usize
        requires { first_end (reverse self.now.masters.items) < 2 ^ 64 }
        ensures { result ≡ first_end (reverse self.now.masters.items) }
    {
        match self.masters.as_slice() {
            [.., newest] => newest.base + newest.slots,
            [] => 0,
        }
    }

    /// Answers the cell where the window of a body begins that is called now: behind those of the newest master, and behind the operands
    /// that a statement has put aside which is under way in it.
    pub fn next_window(&self, code: &Code) -> usize
        requires { end_behind code.now (reverse self.now.masters.items) (reverse self.now.control.items) < 2 ^ 64 }
        ensures { result ≡ end_behind code.now (reverse self.now.masters.items) (reverse self.now.control.items) }
    {
        let mut count = self.control.as_slice().len();
        while count > 0 {
            count -= 1;
            match self.control[count] {
                Frame::InMaster(..) | Frame::Leaving { .. } => return self.end_of_newest(),
                Frame::Creating { place, .. }
                | Frame::Copying { place, .. }
                | Frame::Assigning { place, .. }
                | Frame::Freeing { place, .. } => {
                    return self.window() + code.kinds.height_at(place, 0);
                }
                // The value of an allocator is not there yet.
                Frame::Allocating { place, .. } | Frame::AllocatingCopy { place, .. } => {
                    return self.window() + code.kinds.height_at(place, 1);
                }
                Frame::Evaluating { .. } => return self.window(),
                _ => {}
            }
        }
        0
    }

    /// Answers the master that a body of this level is declared in, where the newest master sees it: it is the newest of so many.
    #[inline(always)]
    pub fn around(&self, level: usize) -> usize
        ghost hs: { List Head }
        requires { AreLinked self.now.masters.items hs }
        ensures bound { result ≤ length self.now.masters.items }
        ensures display { display_from result hs ≡ take level (first_display hs) }
    {
        self.around_from(self.count_masters(), level)
    }

    /// Answers the master that a body of this level is declared in, where the newest of so many masters sees it: it is the newest of so
    /// many.
    #[inline(always)]
    pub fn around_from(&self, newest: usize, level: usize) -> usize
        ghost hs: { List Head }
        requires linked { AreLinked self.now.masters.items hs }
        requires bound { newest ≤ length self.now.masters.items }
        ensures bound { result ≤ length self.now.masters.items }
        ensures display { display_from result hs ≡ take level (display_from newest hs) }
    {
        let mut count = newest;
        while count > 0 {
            let master = self.masters[count - 1];
            if master.depth <= level {
                return count;
            }
            count = master.link;
        }
        0
    }

    /// Answers how many masters a place in the newest of so many sees.
    #[inline(always)]
    pub fn depth_at(&self, count: usize) -> usize
        ghost hs: { List Head }
        requires linked { AreLinked self.now.masters.items hs }
        requires bound { count ≤ length self.now.masters.items }
        ensures depth { result ≡ length (display_from count hs) }
        ensures shallow { result ≤ count }
    {
        if count == 0 {
            return 0;
        }
        self.masters[count - 1].depth
    }

    /// Makes room for a body whose window begins with this cell and has so many, for what is shown of its call, and for so many formals;
    /// nothing else changes.
    #[inline(always)]
    pub fn prepare(&mut self, base: usize, room: usize, formals: usize) -> Result<(), AllocError>
        ensures ok { OnOk result ((more : List ℕ) × GoesOn self.old self.new self.old.mode (self.old.cells.items ++ more)) }
        ensures err { OnErr result (GoesOn self.old self.new self.old.mode self.old.cells.items) }
        ensures cells { OnOk result (base + room ≤ length self.new.cells.items) }
        ensures masters { OnOk result (vec_len self.new.masters < vec_capacity self.new.masters) }
        ensures control { OnOk result (vec_len self.new.control + 2 ≤ vec_capacity self.new.control) }
        ensures events { OnOk result (vec_len self.new.events < vec_capacity self.new.events) }
        ensures formals { OnOk result (vec_len self.new.formals + formals ≤ vec_capacity self.new.formals) }
        ensures number { self.new.given_masters ≡ self.old.given_masters }
        ensures objects { self.new.numbered ≡ self.old.numbered }
        ensures waiting { vec_len self.new.control ≡ vec_len self.old.control }
        ensures owned { self.new.owned ≡ self.old.owned }
        ensures existing { self.new.stock ≡ self.old.stock }
        ensures saved { self.new.saved ≡ self.old.saved }
        ensures spots { self.new.spots ≡ self.old.spots }
        ensures noted { self.new.noted ≡ self.old.noted }
        ensures frames { vec_capacity self.old.control ≤ vec_capacity self.new.control }
        ensures choices { self.new.picks ≡ self.old.picks }
    {
        let wanted = base.checked_add(room).ok_or(AllocError)?;
        reserve(&mut self.masters, 1)?;
        reserve(&mut self.control, 2)?;
        reserve(&mut self.events, 1)?;
        reserve(&mut self.formals, formals)?;
        make_room(&mut self.cells, wanted)
    }

    /// Tells whether there is room for a body whose window begins with this cell and has so many, and for so many formals.
    #[inline(always)]
    fn has_room_for(&self, base: usize, room: usize, formals: usize) -> bool
        requires { base ≤ length self.now.cells.items }
        ensures cells { IsTrue result → base + room ≤ length self.now.cells.items }
        ensures masters { IsTrue result → vec_len self.now.masters < vec_capacity self.now.masters }
        ensures control { IsTrue result → vec_len self.now.control < vec_capacity self.now.control }
        ensures formals { IsTrue result → vec_len self.now.formals + formals ≤ vec_capacity self.now.formals }
    {
        room <= self.cells.len() - base
            && self.has_room()
            && formals <= self.formals.capacity() - self.formals.len()
    }

    /// Makes room for the body of a subprogram whose window begins with this cell and has so many, and for so many formals, where there is none
    /// yet; nothing else changes.
    #[inline(always)]
    pub fn prepare_body(
        &mut self,
        base: usize,
        room: usize,
        formals: usize,
    ) -> Result<(), AllocError>
        requires { base ≤ length self.old.cells.items }
        ensures ok { OnOk result ((more : List ℕ) × GoesOn self.old self.new self.old.mode (self.old.cells.items ++ more)) }
        ensures err { OnErr result (GoesOn self.old self.new self.old.mode self.old.cells.items) }
        ensures cells { OnOk result (base + room ≤ length self.new.cells.items) }
        ensures masters { OnOk result (vec_len self.new.masters < vec_capacity self.new.masters) }
        ensures control { OnOk result (vec_len self.new.control < vec_capacity self.new.control) }
        ensures formals { OnOk result (vec_len self.new.formals + formals ≤ vec_capacity self.new.formals) }
        ensures number { self.new.given_masters ≡ self.old.given_masters }
    {
        if self.has_room_for(base, room, formals) {
            return Ok(());
        }
        self.prepare_more(base, room, formals)
    }

    /// Makes room for the body of a subprogram, as `prepare_body` does, where there is none yet.
    #[cold]
    #[inline(never)]
    fn prepare_more(&mut self, base: usize, room: usize, formals: usize) -> Result<(), AllocError>
        ensures ok { OnOk result ((more : List ℕ) × GoesOn self.old self.new self.old.mode (self.old.cells.items ++ more)) }
        ensures err { OnErr result (GoesOn self.old self.new self.old.mode self.old.cells.items) }
        ensures cells { OnOk result (base + room ≤ length self.new.cells.items) }
        ensures masters { OnOk result (vec_len self.new.masters < vec_capacity self.new.masters) }
        ensures control { OnOk result (vec_len self.new.control < vec_capacity self.new.control) }
        ensures formals { OnOk result (vec_len self.new.formals + formals ≤ vec_capacity self.new.formals) }
        ensures number { self.new.given_masters ≡ self.old.given_masters }
    {
        self.prepare(base, room, formals)
    }

    /// Enters the master of an operation's body, whose first slot is the formal that stands for this part; there is room for it, and its
    /// cells are cleared. Goes on at this place.
    #[inline(always)]
    pub fn open_for(&mut self, master: Master, spot: Spot, place: usize)
        requires masters { vec_len self.old.masters < vec_capacity self.old.masters }
        requires control { vec_len self.old.control < vec_capacity self.old.control }
        requires formals { vec_len self.old.formals < vec_capacity self.old.formals }
        requires number { self.old.given_masters + 1 < 2 ^ 64 }
        requires cells { master.base + master.slots ≤ length self.old.cells.items }
        ensures { OpensBody self.old self.new master place (cleared master.base master.slots self.old.cells.items) (self.old.formals.items ++ first_formal spot ∷ []) }
    {
        self.formals.push_reserved(Formal {
            slot: 0,
            spot,
            is_value: false,
        });
        self.open(master, 0, After::Body, place);
    }

    /// Tells whether the newest frames finalize or adjust the target of an assignment.
    fn is_assigning(&self) -> bool
        ensures { result ≡ is_assigning (reverse self.now.control.items) }
    {
        let mut count = self.control.as_slice().len();
        while count > 0 {
            count -= 1;
            match self.control[count] {
                Frame::Assigning { .. } => return true,
                Frame::Adjusting { .. }
                | Frame::AdjustingOwn { .. }
                | Frame::FinalizingOwn { .. }
                | Frame::FinalizingParts { .. } => {}
                _ => return false,
            }
        }
        false
    }

    /// Answers whose masters an operation of an object of this master is called among: it is the newest of so many. In an assignment it is
    /// the statement's, which sees the type of the operation, and else the object's (RM 7.6).
    #[inline(always)]
    pub fn caller(&self, master: u64) -> usize
        requires { (bound : ℕ) × AreBelow (reverse self.now.masters.items) bound }
        ensures { IsCaller (is_assigning (reverse self.now.control.items)) self.now.masters.items master result }
    {
        let owner = master_at(self.masters.as_slice(), master);
        // Most often the object is of the newest master, whose statement it then is too.
        if owner == self.count_masters() || !self.is_assigning() {
            return owner;
        }
        self.count_masters()
    }

    /// Calls a body that the user wrote, with what is shown of the call, for a part of an object of this master: the body is entered inside
    /// the masters around it that its caller sees (RM 7.6). Its window begins with this cell, and there is room for it.
    #[inline(always)]
    pub fn call_operation(
        &mut self,
        code: &Code,
        entry: &Entry,
        master: u64,
        base: usize,
        event: Event,
        spot: Spot,
    )
        ghost t: { Called }
        requires valid { IsValid code.now }
        requires calls { Calls code.now self.old entry.now master base t }
        requires spot { spot ≡ t.spot }
        requires room { HasRoom code.now self.old base }
        ensures { Makes code.now self.old self.new (Table.call_operation code.now t.body event t.spot t.object t.control t.world) }
    {
        let caller = self.caller(master);
        self.call_among(code, entry, caller, base, event, spot);
    }

    /// Calls a body that the user wrote, as `call_operation` does, for an object whose operations are called among the masters that the
    /// newest of so many sees.
    #[inline(always)]
    pub fn call_among(
        &mut self,
        code: &Code,
        entry: &Entry,
        caller: usize,
        base: usize,
        event: Event,
        spot: Spot,
    )
        ghost t: { Called }
        requires valid { IsValid code.now }
        requires calls { (master : ℕ) × Calls code.now self.old entry.now master base t × IsCaller (is_assigning (reverse self.old.control.items)) self.old.masters.items master caller }
        requires spot { spot ≡ t.spot }
        requires room { HasRoom code.now self.old base }
        ensures { Makes code.now self.old self.new (Table.call_operation code.now t.body event t.spot t.object t.control t.world) }
    {
        let _ = code;
        let link = self.around_from(caller, entry.level);
        let outer_formals = self.count_formals();
        let master = Master {
            number: self.given_masters + 1,
            window: base,
            base,
            slots: entry.slots,
            link,
            depth: self.depth_at(link) + 1,
            owned: self.count_owned(),
            outer_formals,
            formals: outer_formals + 1,
            spots: self.count_spots(),
        };
        self.events.push_reserved(event);
        self.open_for(master, spot, entry.place);
    }
}
