//! The layers of a master, which are left one by one, the newest first: objects are finalized where some part of them is controlled
//! (RM 7.6.1); and how what it owned goes.

ghost use Rattle.ctl_tree.specs.declared.event.Cause.TheVariants as CauseOf;
ghost use Rattle.std.specs.Prelude.{◌≡◌, ◌||◌, ◌+◌, ◌<◌, ◌≤◌, ℕ, [], ◌∷◌, List, IfNone, IfSome, IsFalse, None, Some, drop, length, reverse, slice_get, slice_set, take, vec_capacity, vec_len};
ghost use Rattle.ctl_meaning.specs.Objects.{change_in, with_begun};
ghost use Rattle.ctl_meaning.specs.Outcome.{Fine, Done, Result};
ghost use Rattle.ctl_meaning.specs.World.{Object};
ghost use Rattle.ctl_code.specs.Table as Table;
ghost use Rattle.ctl_code.specs.Valid.{IsValid};
ghost use Rattle.ctl_frames.specs.declared.frame.Frame.TheVariants as FrameOf;
ghost use Rattle.ctl_frames.specs.declared.frame.Owned.{Owned};
ghost use Rattle.ctl_engine.specs.Departing.{IsFinalizeOf, IsNewestLayer, TakesOut, out};
ghost use Rattle.ctl_engine.specs.LeftPools.{LeavesPools};
ghost use Rattle.ctl_frames.specs.Masters.{layers_from, rising_layers};
ghost use Rattle.ctl_objects.specs.Stock.{Stock};
ghost use Rattle.ctl_frames.specs.Owned.{HaveCome, remaining, set_numbers, sets_owned};
ghost use Rattle.ctl_objects.specs.Order.{AreUpTo};
ghost use Rattle.ctl_engine.specs.Shows as Shows;
ghost use Rattle.ctl_engine.specs.Shows.{IsPlainly, IsResult};

use crate::calls::{Departure, replace_top};
use crate::engine::Engine;
use ctl_code::code::{Code, Entry, Way};
use ctl_frames::frame::{Completion, Ended, Frame, Master, Mode, Owned, Role};
use ctl_objects::Objects;
use ctl_program::library::PROGRAM_ERROR;
use ctl_tree::event::Cause;

/// Answers what the finalization of an object hands on: one that raised is remembered, and the exception goes no further (RM 7.6.1).
pub fn remembered(ended: Ended) -> Ended
    ensures { Shows.tried_of result ≡ Fine (Table.finalized (Shows.tried_of ended)) }
{
    match ended {
        Ended::Raised(_) => Ended::OperationFailed,
        other => other,
    }
}

impl Departure {
    /// Answers how the master is completed: by Program_Error, in place of what was under way, where a finalization failed (RM 7.6.1).
    #[tactic(auto, unfolding(ctl_meaning::specs::Outcome::program_error))]
    pub fn completion(self) -> Completion
        ensures result { Shows.result_of result ≡ Table.pending_with self.failed (Shows.result_of self.pending) }
        ensures plain { IsPlainly self.pending → IsPlainly result }
        ensures stands { (r : Result Done) → IsResult self.pending r → IsResult result (Table.pending_with self.failed r) }
    {
        if self.failed {
            Completion::Transferred(Way::Raise(PROGRAM_ERROR))
        } else {
            self.pending
        }
    }
}

/// Tells whether an operation has failed in what has ended so (RM 7.6.1).
pub fn says_failed(ended: Ended) -> bool
    ensures { result ≡ Table.says_failed (Shows.tried_of ended) }
{
    matches!(ended, Ended::OperationFailed | Ended::Raised(_))
}

/// Tells whether a finalization has failed, before or in what has ended so (RM 7.6.1).
pub fn fails_with(failed: bool, ended: Ended) -> bool
    ensures { result ≡ (failed || Table.says_failed (Shows.tried_of ended)) }
{
    failed || says_failed(ended)
}

/// Answers the body that the user wrote for the Finalize of a record type, if there is one (RM 7.6).
pub fn finalize_of(code: &Code, record_type: usize) -> Option<Entry>
    requires valid { IsValid code.now }
    ensures none { IfNone result (Table.operation_of (λ x. x.finalize) code.now record_type ≡ None) }
    ensures some { IfSome result (λ entry. IsFinalizeOf code.now record_type entry) }
{
    let finalize = code.records.as_slice().get(record_type)?.finalize?;
    Some(code.entries[finalize])
}

/// Tells whether something that came from this place on may be a collection: nothing is, if no collection was given a number since what came
/// before it.
fn may_gather(owned: &[Owned], start: usize) -> bool
    requires bound { start ≤ length owned.now }
    requires come { (given : ℕ) × HaveCome 0 owned.now given }
    ensures { IsFalse result → sets_owned (drop start owned.now) ≡ [] }
{
    let before = if start == 0 {
        0
    } else {
        owned[start - 1].collections
    };
    match owned {
        [.., newest] => newest.collections > before,
        [] => false,
    }
}

/// Forgets the objects of the collections that came from this place on, which belong to this master, behind its own (RM 7.6.1); no declared
/// object has a greater master.
fn forget_gathered(owned: &[Owned], start: usize, stock: &mut Objects, master: u64)
    requires bound { start ≤ length owned.now }
    requires masters { AreUpTo master stock.old.objects }
    ensures objects { (all : List Object) → stock.old.objects ≡ remaining master [] all → stock.new.objects ≡ remaining master (set_numbers (drop start owned.now)) all }
    ensures needs { stock.new.needs ≡ stock.old.needs }
    ensures pools { (first : Stock) → LeavesPools first stock.old → LeavesPools first stock.new }
{
    for at in start..owned.len() {
        if let Role::Collection { .. } = owned[at].role {
            stock.close_master(master, &[owned[at].number]);
        }
    }
}

/// Forgets what a master owned, which is what came last: its objects, and its collections with theirs (RM 7.6.1). No declared object has a
/// greater master.
#[inline(always)]
pub fn forget_owned(owned: &mut Vec<Owned>, stock: &mut Objects, master: &Master)
    requires bound { master.now.owned ≤ length owned.old.items }
    requires come { (given : ℕ) × HaveCome 0 owned.old.items given }
    requires masters { AreUpTo master.now.number stock.old.objects }
    ensures owned { owned.new.items ≡ take master.now.owned owned.old.items }
    ensures objects { stock.new.objects ≡ remaining master.now.number (set_numbers (drop master.now.owned owned.old.items)) stock.old.objects }
    ensures needs { stock.new.needs ≡ stock.old.needs }
    ensures pools { LeavesPools stock.old stock.new }
{
    stock.close_master(master.number, &[]);
    if may_gather(owned.as_slice(), master.owned) {
        forget_gathered(owned.as_slice(), master.owned, stock, master.number);
    }
    owned.truncate(master.owned);
}

impl Engine {
    /// Finds the newest layer of the newest master (RM 7.6.1): it lies below this place, from which on nothing that is owned is a layer.
    pub fn newest_layer(&self, master: &Master, next: usize) -> Option<usize>
        requires { rising_layers (drop next self.now.owned.items) ≡ [] }
        ensures some { IfSome result (λ at. (o : Owned) × IsNewestLayer master.now self.now.owned.items at o) }
        ensures none { IfNone result (layers_from master.now.owned self.now.owned.items ≡ []) }
    {
        let mut end = next.min(self.count_owned());
        while end > master.owned {
            end -= 1;
            if self.owned[end].is_layer {
                return Some(end);
            }
        }
        None
    }

    /// Takes the object at this place out of the layers of the master that is left so, of which it is the newest: nothing is executed for
    /// it (RM 7.6.1).
    pub fn take_out(&mut self, departure: Departure, at: usize)
        ghost o: { Owned }
        requires found { slice_get self.old.owned.items at ≡ Some o }
        requires waiting { 0 < vec_len self.old.control }
        ensures taken { TakesOut self.old self.new departure.failed departure.pending departure.after at (out o) }
        ensures room { (vec_len self.new.control ≡ vec_len self.old.control) × (vec_capacity self.new.control ≡ vec_capacity self.old.control) }
    {
        self.owned[at].is_layer = false;
        replace_top(&mut self.control, departure.frame(at));
        self.mode = Mode::Giving(Ended::Complete);
    }

    /// Takes the object at this place out of the layers of the master that is left so, of which it is the newest, and begins its
    /// finalization (RM 7.6.1); there is room for its frame.
    #[inline(always)]
    pub fn begin_layer(&mut self, departure: Departure, at: usize)
        ghost o: { Owned }
        requires found { slice_get self.old.owned.items at ≡ Some o }
        requires top { 0 < vec_len self.old.control }
        requires control { vec_len self.old.control < vec_capacity self.old.control }
        ensures control { reverse self.new.control.items ≡ FrameOf.Finalizing CauseOf.Scope o.number ∷ FrameOf.Leaving departure.failed departure.pending departure.after at ∷ drop 1 (reverse self.old.control.items) }
        ensures room { vec_len self.new.control ≡ vec_len self.old.control + 1 }
        ensures capacity { vec_capacity self.new.control ≡ vec_capacity self.old.control }
        ensures owned { self.new.owned.items ≡ slice_set self.old.owned.items at (out o) }
        ensures masters { self.new.masters ≡ self.old.masters }
        ensures cells { self.new.cells ≡ self.old.cells }
        ensures objects { self.new.stock.objects ≡ change_in o.number with_begun self.old.stock.objects }
        ensures same { self.new.stock ≡ record self.old.stock { objects = self.new.stock.objects } }
        ensures saved { self.new.saved ≡ self.old.saved }
        ensures noted { self.new.noted ≡ self.old.noted }
        ensures formals { self.new.formals ≡ self.old.formals }
        ensures spots { self.new.spots ≡ self.old.spots }
        ensures numbers { (self.new.given_masters ≡ self.old.given_masters) × (self.new.numbered ≡ self.old.numbered) }
        ensures events { self.new.events ≡ self.old.events }
        ensures picks { self.new.picks ≡ self.old.picks }
    {
        let object = &mut self.owned[at];
        object.is_layer = false;
        let number = object.number;
        self.stock.begin_finalization(number);
        replace_top(&mut self.control, departure.frame(at));
        self.control.push_reserved(Frame::Finalizing {
            cause: Cause::Scope,
            number,
        });
    }
}
