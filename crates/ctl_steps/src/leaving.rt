//! Masters whose statements are over are left: their layers one by one, the newest first, and then what they own (RM 7.6.1).

ghost use Rattle.std.specs.Prelude.{◌≡◌, ◌+◌, ◌^◌, ◌<◌, ◌∷◌, List, ℕ, OnErr, OnOk, length, reverse, take, vec_len};
ghost use Rattle.ctl_frames.specs.declared.frame.Frame.{Frame};
ghost use Rattle.ctl_frames.specs.declared.frame.Frame.TheVariants as FrameOf;
ghost use Rattle.ctl_frames.specs.declared.frame.After.TheVariants.{Block, Function};
ghost use Rattle.ctl_engine.specs.Shows as Shows;
ghost use Rattle.ctl_frames.specs.declared.frame.Owned.{Owned};
ghost use Rattle.ctl_engine.specs.Departing.{ClosesSo, Departed, Departs, FinalizesLayer};
ghost use Rattle.ctl_frames.specs.Links.{first_base, first_end};
ghost use Rattle.ctl_engine.specs.Moves.{BeforeResuming, Closes, GoesOn, Makes};
ghost use Rattle.ctl_code.specs.Table as Table;
ghost use Rattle.ctl_code.specs.States.{Giving, State};
ghost use Rattle.ctl_code.specs.Valid.{IsValid};
ghost use Rattle.ctl_code.specs.Fits.{Behind, FitsWorld};

use crate::closing::close_after;
use crate::finalizing::finalize_part;
use crate::returning::close_with_record;
use ctl_code::code::{Code, Parts, Way};
use ctl_engine::calls::Departure;
use ctl_engine::engine::Engine;
use ctl_engine::finalizing::{Finalization, doubled};
use ctl_engine::layers::{forget_owned, says_failed};
use ctl_engine::leaving::completes_loop;
use ctl_frames::frame::{After, Completion, Ended, Formal, Frame, Mode, Role};
use ctl_frames::parts::parts_of;
use ctl_frames::spots::Spot;
use ctl_lifetimes::emptying::empty_layer;
use ctl_places::returning::concerns_record;
use ctl_program::library::PROGRAM_ERROR;
use ctl_tree::event::Cause;
use std::alloc::AllocError;

/// Answers what comes behind a master, whose statements were completed so, where no finalization failed: what completes a loop leads to the
/// place behind a block, and the block's end to the next one; a function that reaches its end raises Program_Error (RM 6.5).
#[inline(always)]
#[tactic(auto, unfolding(ctl_meaning::specs::Outcome::program_error))]
pub fn mode_behind(after: After, completion: Completion) -> Mode
    requires { (place : ℕ) → after ≡ Block place → place + 1 < 2 ^ 64 }
    ensures { result ≡ Shows.mode_behind after completion }
{
    match (after, completion) {
        (After::Block(place), Completion::Normal) => Mode::At(place + 1),
        (After::Block(place), Completion::Transferred(way)) => {
            if completes_loop(way) {
                Mode::At(place)
            } else {
                Mode::Transfers(way)
            }
        }
        (After::Body, Completion::Transferred(Way::Raise(exception))) => {
            Mode::Giving(Ended::Raised(exception))
        }
        (After::Body, _) => Mode::Giving(Ended::Complete),
        (_, Completion::Transferred(Way::Raise(exception))) => {
            Mode::Transfers(Way::Raise(exception))
        }
        (After::Procedure { place, .. }, _) => Mode::At(place),
        (After::Function { place }, _) => mode_given(place, completion),
        (After::Record { place, .. }, _) => mode_given(place, completion),
    }
}

/// Answers what comes behind a function whose call goes on at this place: one that reaches its end raises Program_Error (RM 6.5).
#[inline(always)]
#[tactic(auto, unfolding(ctl_meaning::specs::Outcome::program_error))]
fn mode_given(place: usize, completion: Completion) -> Mode
    ensures { result ≡ Shows.mode_given place completion }
{
    match completion {
        Completion::Transferred(Way::Raise(exception)) => Mode::Transfers(Way::Raise(exception)),
        Completion::Transferred(Way::Return | Way::ReturnValue(_) | Way::ReturnRecord) => {
            Mode::At(place)
        }
        _ => Mode::Transfers(Way::Raise(PROGRAM_ERROR)),
    }
}

/// Answers the value of a function that a return statement completes; one without a value counts as 0 (RM 6.5).
#[inline(always)]
fn value_behind(after: After, completion: Completion) -> Option<u64>
    ensures { result ≡ Shows.value_behind after completion }
{
    match (after, completion) {
        (After::Function { .. }, Completion::Transferred(Way::Return)) => Some(0),
        (After::Function { .. }, Completion::Transferred(Way::ReturnValue(value))) => Some(value),
        _ => None,
    }
}

/// Drops the formals behind so many.
#[inline(always)]
fn drop_formals(formals: &mut Vec<Formal>, count: usize)
    ensures { formals.new.items ≡ take count formals.old.items }
{
    let standing = formals.as_slice().len();
    // A block has none, and the body of an operation has one.
    if standing <= count {
        return;
    }
    if standing - count == 1 {
        let _ = formals.take_last();
        return;
    }
    formals.truncate(count);
}

/// Takes the newest master, its formals and its frame off, and goes on so; answers where its cells began.
#[inline(always)]
pub fn close(engine: &mut Engine, mode: Mode) -> usize
    requires masters { 0 < vec_len engine.old.masters }
    requires control { 0 < vec_len engine.old.control }
    ensures closes { Closes engine.old engine.new mode engine.old.cells.items }
    ensures base { result ≡ first_base (reverse engine.old.masters.items) }
    ensures parts { engine.new.spots ≡ engine.old.spots }
{
    let newest = engine.masters.take_last();
    drop_formals(&mut engine.formals, newest.outer_formals);
    let _ = engine.control.take_last();
    engine.mode = mode;
    newest.base
}

/// Takes the newest master off, whose statements were completed so, and goes on behind it: the value of a function is put where the
/// cells of its master begin, and is the newest operand there (RM 6.5). No record is given.
#[inline(always)]
pub fn close_behind(engine: &mut Engine, after: After, completion: Completion)
    requires masters { 0 < vec_len engine.old.masters }
    requires control { 0 < vec_len engine.old.control }
    requires place { (place : ℕ) → after ≡ Block place → place + 1 < 2 ^ 64 }
    requires cell { (place : ℕ) → after ≡ Function place → first_base (reverse engine.old.masters.items) < length engine.old.cells.items }
    ensures { ClosesSo engine.old engine.new after completion }
{
    let base = close(engine, mode_behind(after, completion));
    if let Some(value) = value_behind(after, completion) {
        engine.cells[base] = value;
    }
}

/// Finalizes the object at this place, of a record type, the newest layer of the newest master, which is left so (RM 7.6.1); unchanged
/// where memory is refused.
#[inline(always)]
fn finalize_layer(
    engine: &mut Engine,
    code: &Code,
    departure: Departure,
    at: usize,
    record: usize,
) -> Result<(), AllocError>
    ghost t: { Departed × Owned }
    requires valid { IsValid code.now }
    requires layer { FinalizesLayer code.now engine.old departure.failed departure.pending departure.after at «record» t.0 t.1 }
    requires waiting { 0 < vec_len engine.old.control }
    requires end { first_end (reverse engine.old.masters.items) < 2 ^ 64 }
    requires number { engine.old.given_masters + 1 < 2 ^ 64 }
    ensures ok { OnOk result (Makes code.now engine.old engine.new (Table.next_layer code.now t.0.master t.0.layers t.0.failed t.0.pending t.0.after t.0.control t.0.world)) }
    ensures err { OnErr result (GoesOn engine.old engine.new engine.old.mode engine.old.cells.items) }
{
    let base = engine.end_of_newest();
    let whole = Spot::whole(engine.alloc, engine.owned[at].number);
    let doubles = doubled(engine.alloc, whole)?;
    engine.prepare_finalization(code, base)?;
    engine.begin_layer(departure, at);
    let finalization = Finalization {
        cause: Cause::Scope,
        record_type: record,
        base,
    };
    finalize_part(engine, code, finalization, doubles);
    Ok(())
}

/// Takes out the newest layer of the newest master, which is left so, or closes the master with what it owned, where nothing that is
/// owned below this place is a layer (RM 7.6.1). A layer is finalized if some part of it is controlled; else it stays as it is, and
/// closes, if it is a pool (RM 13.11). Unchanged where memory is refused.
// Into each place that leaves a master, where most of how it is left is known.
#[inline(always)]
pub fn next_layer(
    engine: &mut Engine,
    code: &Code,
    departure: Departure,
    next: usize,
) -> Result<(), AllocError>
    ghost t: { Departed }
    requires valid { IsValid code.now }
    requires departs { Departs code.now engine.old departure.failed departure.pending departure.after next t }
    requires fits { Behind code.now t.after t.control }
    requires world { FitsWorld code.now t.world }
    requires waiting { 0 < vec_len engine.old.control }
    requires number { engine.old.given_masters + 1 < 2 ^ 64 }
    ensures ok { OnOk result (Makes code.now engine.old engine.new (Table.next_layer code.now t.master t.layers t.failed t.pending t.after t.control t.world)) }
    ensures err { OnErr result (GoesOn engine.old engine.new engine.old.mode engine.old.cells.items) }
{
    let newest = engine.newest();
    let Some(at) = engine.newest_layer(&newest, next) else {
        if concerns_record(departure) {
            return close_with_record(engine, code, departure, next);
        }
        forget_owned(&mut engine.owned, &mut engine.stock, &newest);
        close_behind(engine, departure.after, departure.completion());
        return Ok(());
    };
    match engine.owned[at].role {
        Role::Collection { count, .. } => empty_layer(engine, code, departure, at, count),
        Role::Object { record } => match parts_of(code, record) {
            Parts::Plain => {
                let number = engine.owned[at].number;
                engine.take_out(departure, at);
                close_after(engine, Cause::Scope, number);
                Ok(())
            }
            _ => finalize_layer(engine, code, departure, at, record),
        },
    }
}

/// Goes on leaving the newest master, where the finalization of a layer has ended so (RM 7.6.1); unchanged where memory is refused.
#[inline(always)]
pub fn resume_leaving(
    engine: &mut Engine,
    code: &Code,
    ended: Ended,
    departure: Departure,
    next: usize,
) -> Result<(), AllocError>
    ghost s: { State }
    requires valid { IsValid code.now }
    requires before { BeforeResuming code.now engine.old s }
    requires top { (fs : List Frame) × (reverse engine.old.control.items ≡ FrameOf.Leaving departure.failed departure.pending departure.after next ∷ fs) }
    requires number { engine.old.given_masters + 1 < 2 ^ 64 }
    ensures ok { OnOk result (Makes code.now engine.old engine.new (Table.act code.now (Giving (Shows.tried_of ended)) s.control s.operands s.world 0)) }
    ensures err { OnErr result (GoesOn engine.old engine.new engine.old.mode engine.old.cells.items) }
{
    let departure = Departure {
        failed: departure.failed || says_failed(ended),
        ..departure
    };
    next_layer(engine, code, departure, next)
}
