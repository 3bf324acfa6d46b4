//! The parts of a copy that are adjusted are finalized, where another Adjust failed: a controlled one by the body of its Finalize, and then its
//! components, one chosen after another (RM 7.6.1).

ghost use Rattle.std.specs.Prelude.{◌≡◌, ◌+◌, ◌-◌, ◌^◌, ◌<◌, ◌≤◌, ◌∷◌, ◌++◌, [], List, OnErr, OnOk, Some, length, reverse, slice_get};
ghost use Rattle.ctl_meaning.specs.Changes as Changes;
ghost use Rattle.ctl_meaning.specs.Lists.{any_of, begins, pull_rest, same_list};
ghost use Rattle.ctl_meaning.specs.Outcome.{Tried};
ghost use Rattle.ctl_code.specs.declared.code.Begun.{Begun};
ghost use Rattle.ctl_code.specs.States as T;
ghost use Rattle.ctl_code.specs.States.{Giving, Handed, State};
ghost use Rattle.ctl_code.specs.Table as Table;
ghost use Rattle.ctl_code.specs.Valid.{IsValid};
ghost use Rattle.ctl_frames.specs.declared.frame.Frame.{Frame};
ghost use Rattle.ctl_frames.specs.declared.frame.Frame.TheVariants as FrameOf;
ghost use Rattle.ctl_engine.specs.Assigning.{Called};
ghost use Rattle.ctl_frames.specs.Filling.{noted_among, pick_among};
ghost use Rattle.ctl_engine.specs.Finishing.{AreDoubles, BeginsOver, Finished, Finishes, HasFrameRoom, HasRoomToFinish};
ghost use Rattle.ctl_engine.specs.Moves.{BeforeResuming, Chooses, GoesOn, Makes, Resumes};
ghost use Rattle.ctl_frames.specs.Noted.{IsUndone};
ghost use Rattle.ctl_engine.specs.Shows as Shows;
ghost use Rattle.ctl_lifetimes.specs.Undoing.{CallsUndone, IsChosenAmong, UndoesParts, among, between, has_any_of, noted_from};

use crate::filling::note_pick;
use ctl_code::code::{Begun, Code, Entry, Initial, Parts};
use ctl_engine::calls::replace_top;
use ctl_engine::engine::Engine;
use ctl_engine::finalizing::Doubles;
use ctl_engine::layers::finalize_of;
use ctl_frames::frame::{Ended, Frame, Left, Mode};
use ctl_frames::left::Chosen;
use ctl_frames::parts::{controlled_at, count_controlled, parts_of};
use ctl_frames::spots::Spot;
use ctl_tree::ending::Stop;
use ctl_tree::event::{Cause, Event};
use ctl_tree::request::Order;
use room::reserve;
use std::alloc::AllocError;

/// The finalization of a part of a copy that failed: its record type, where the parts that are adjusted are noted from, and the cell where
/// the window of a body begins that is called for it.
#[derive(Clone, Copy)]
pub struct Undone {
    pub record_type: usize,
    pub first: usize,
    pub base: usize,
}

/// Tells whether a part is among those that are noted from one on, which are all of its object (RM 7.6.1).
fn is_noted(noted: &[Spot], first: usize, spot: &Spot) -> bool
    ensures { result ≡ any_of (same_list spot.now.path) (noted_from first noted.now) }
{
    for at in first..noted.len() {
        if noted[at].has_path_of(spot) {
            return true;
        }
    }
    false
}

/// Tells whether the component of a part at this position is among those that are noted from one on, or has a part that is (RM 7.6.1).
fn has_undone(noted: &[Spot], first: usize, spot: &Spot, position: usize) -> bool
    ensures { result ≡ any_of (begins (spot.now.path ++ position ∷ [])) (noted_from first noted.now) }
{
    for at in first..noted.len() {
        if noted[at].lies_in(spot, position) {
            return true;
        }
    }
    false
}

/// Tells whether the component of a part is to be finalized that stands at a place among those with a controlled part, where the parts
/// that are adjusted are noted from one on (RM 7.6.1).
fn is_undone(
    engine: &Engine,
    code: &Code,
    record: usize,
    spot: &Spot,
    first: usize,
    at: usize,
) -> bool
    requires { at < length (Table.controlled_of code.now «record») }
    ensures { (x : Begun) × (slice_get (Table.controlled_of code.now «record») at ≡ Some x) × (result ≡ has_any_of (noted_from first engine.now.noted.items) spot.now x) }
{
    let component = controlled_at(code, record, at);
    has_undone(engine.noted.as_slice(), first, spot, component.position)
}

/// Counts the components of a part that are to be finalized, among some that stand side by side (RM 7.6.1).
fn count_undone(
    engine: &Engine,
    code: &Code,
    record: usize,
    spot: &Spot,
    first: usize,
    left: Left,
) -> usize
    requires rising { left.first ≤ left.last }
    requires within { left.last ≤ length (Table.controlled_of code.now «record») }
    ensures { result ≡ length (among (Table.controlled_of code.now «record») left.first left.last (has_any_of (noted_from first engine.now.noted.items) spot.now)) }
{
    let mut count = 0;
    for at in left.first..left.last {
        if is_undone(engine, code, record, spot, first, at) {
            count += 1;
        }
    }
    count
}

/// Finds the last component of a part that is to be finalized, among some that stand side by side; there is one (RM 7.6.1).
fn newest_undone(
    engine: &Engine,
    code: &Code,
    record: usize,
    spot: &Spot,
    first: usize,
    left: Left,
) -> usize
    requires within { left.last ≤ length (Table.controlled_of code.now «record») }
    requires some { 0 < length (among (Table.controlled_of code.now «record») left.first left.last (has_any_of (noted_from first engine.now.noted.items) spot.now)) }
    ensures { let all = Table.controlled_of code.now «record» in
        let passes = has_any_of (noted_from first engine.now.noted.items) spot.now in
        let undone = among all left.first left.last passes in
        IsChosenAmong all passes undone (length undone - 1) result (between left.first result) }
{
    let mut end = left.last;
    while end > left.first {
        end -= 1;
        if is_undone(engine, code, record, spot, first, end) {
            return end;
        }
    }
    unreachable!()
}

/// Finds the first component of a part that is to be finalized, among some that stand side by side; there is one (RM 7.6.1).
fn oldest_undone(
    engine: &Engine,
    code: &Code,
    record: usize,
    spot: &Spot,
    first: usize,
    left: Left,
) -> usize
    requires within { left.last ≤ length (Table.controlled_of code.now «record») }
    requires some { 0 < length (among (Table.controlled_of code.now «record») left.first left.last (has_any_of (noted_from first engine.now.noted.items) spot.now)) }
    ensures { let all = Table.controlled_of code.now «record» in
        let passes = has_any_of (noted_from first engine.now.noted.items) spot.now in
        IsChosenAmong all passes (among all left.first left.last passes) 0 result (between (result + 1) left.last) }
{
    for at in left.first..left.last {
        if is_undone(engine, code, record, spot, first, at) {
            return at;
        }
    }
    unreachable!()
}

/// Chooses a component by an order, the candidates being those that are to be finalized among some that stand side by side, so many, in
/// the order of their positions (RM 7.6.1).
fn choose_undone(
    engine: &Engine,
    code: &Code,
    order: Order,
    record: usize,
    spot: &Spot,
    first: usize,
    left: Left,
    candidates: usize,
) -> Chosen
    requires within { left.last ≤ length (Table.controlled_of code.now «record») }
    requires some { 0 < candidates }
    requires count { candidates ≡ length (among (Table.controlled_of code.now «record») left.first left.last (has_any_of (noted_from first engine.now.noted.items) spot.now)) }
    ensures { let all = Table.controlled_of code.now «record» in
        let passes = has_any_of (noted_from first engine.now.noted.items) spot.now in
        (result.pick ≡ pick_among order candidates) × IsChosenAmong all passes (among all left.first left.last passes) result.pick result.at result.rest }
{
    match order {
        Order::Newest => {
            let at = newest_undone(engine, code, record, spot, first, left);
            Chosen {
                at,
                pick: candidates - 1,
                rest: Left {
                    first: left.first,
                    last: at,
                },
            }
        }
        Order::Oldest => {
            let at = oldest_undone(engine, code, record, spot, first, left);
            Chosen {
                at,
                pick: 0,
                rest: Left {
                    first: at + 1,
                    last: left.last,
                },
            }
        }
    }
}

/// Lets the components of a part wait that are to be finalized, where the parts that are adjusted are noted from one on; where it has
/// none, the part is finalized (RM 7.6.1). There is room for the frame.
fn undo_components(engine: &mut Engine, code: &Code, record: usize, first: usize, spot: Spot)
    ghost t: { Finished }
    requires finishes { Finishes code.now engine.old t }
    requires undone { IsUndone first t.control }
    requires room { HasFrameRoom engine.old }
    requires spot { spot ≡ t.spot }
    ensures { Makes code.now engine.old engine.new (Table.undo_components code.now t.spot «record» t.control t.world) }
{
    let left = Left {
        first: 0,
        last: count_controlled(code, record),
    };
    let count = count_undone(engine, code, record, &spot, first, left);
    if count == 0 {
        engine.mode = Mode::Giving(Ended::Complete);
        return;
    }
    engine.control.push_reserved(Frame::UndoingParts {
        record,
        left,
        count,
        first,
    });
    engine.spots.push_reserved(spot);
    engine.mode = Mode::Giving(Ended::Complete);
}

/// Calls the Finalize of a part that is adjusted, which the user wrote for its type with this body, and whose object is declared
/// in this master (RM 7.6.1); there is room.
fn call_undone(
    engine: &mut Engine,
    code: &Code,
    entry: &Entry,
    undoing: Undone,
    master: u64,
    doubles: Doubles,
)
    ghost t: { Finished × Called }
    requires valid { IsValid code.now }
    requires finishes { Finishes code.now engine.old t.0 }
    requires base { BeginsOver undoing.base t.0 }
    requires room { HasRoomToFinish code.now engine.old undoing.base }
    requires doubles { AreDoubles doubles t.0.spot }
    requires undone { IsUndone undoing.first t.0.control }
    requires calls { CallsUndone code.now engine.old entry.now undoing.record_type master t.0 t.1 }
    ensures { Makes code.now engine.old engine.new (Table.undo_by code.now (Table.operation_of (λ x. x.finalize) code.now undoing.record_type) t.0.spot undoing.record_type (Changes.object_at t.0.spot.object t.0.world) t.0.control t.0.world) }
{
    let Doubles { spot, formal, part } = doubles;
    engine.control.push_reserved(Frame::UndoingOwn {
        record: undoing.record_type,
        first: undoing.first,
    });
    engine.spots.push_reserved(spot);
    let event = Event::Finalize(part, Cause::Failed);
    engine.call_operation(code, entry, master, undoing.base, event, formal);
}

/// Finalizes a controlled part that is adjusted: by its own Finalize, where the user wrote one for its type, and then its components
/// (RM 7.6.1). Where its object is not there, the program is erroneous (RM 13.11.2). There is room.
fn undo_adjusted(engine: &mut Engine, code: &Code, undoing: Undone, doubles: Doubles)
    ghost t: { Finished }
    requires valid { IsValid code.now }
    requires finishes { Finishes code.now engine.old t }
    requires base { BeginsOver undoing.base t }
    requires room { HasRoomToFinish code.now engine.old undoing.base }
    requires doubles { AreDoubles doubles t.spot }
    requires undone { IsUndone undoing.first t.control }
    ensures { Makes code.now engine.old engine.new (Table.undo_by code.now (Table.operation_of (λ x. x.finalize) code.now undoing.record_type) t.spot undoing.record_type (Changes.object_at t.spot.object t.world) t.control t.world) }
{
    let Some(master) = engine.master_of(doubles.spot.object()) else {
        engine.mode = Mode::Stopped(Stop::UseAfterFree);
        return;
    };
    match finalize_of(code, undoing.record_type) {
        Some(entry) => call_undone(engine, code, &entry, undoing, master, doubles),
        None => undo_components(
            engine,
            code,
            undoing.record_type,
            undoing.first,
            doubles.spot,
        ),
    }
}

/// Finalizes a controlled part: by its own Finalize, if it is adjusted, and then its components (RM 7.6.1); there is room.
fn undo_own(engine: &mut Engine, code: &Code, undoing: Undone, doubles: Doubles)
    ghost t: { Finished }
    requires valid { IsValid code.now }
    requires finishes { Finishes code.now engine.old t }
    requires base { BeginsOver undoing.base t }
    requires room { HasRoomToFinish code.now engine.old undoing.base }
    requires doubles { AreDoubles doubles t.spot }
    requires undone { IsUndone undoing.first t.control }
    ensures { Makes code.now engine.old engine.new (Table.undo_own code.now (any_of (same_list t.spot.path) (Table.adjusted_in t.control)) t.spot undoing.record_type t.control t.world) }
{
    if is_noted(engine.noted.as_slice(), undoing.first, &doubles.spot) {
        undo_adjusted(engine, code, undoing, doubles);
    } else {
        undo_components(
            engine,
            code,
            undoing.record_type,
            undoing.first,
            doubles.spot,
        );
    }
}

/// Finalizes a part of a copy that failed, as far as it is adjusted: first the part itself, if it is controlled, and then its components
/// (RM 7.6.1); there is room.
pub fn undo_part(engine: &mut Engine, code: &Code, undoing: Undone, doubles: Doubles)
    ghost t: { Finished }
    requires valid { IsValid code.now }
    requires finishes { Finishes code.now engine.old t }
    requires base { BeginsOver undoing.base t }
    requires room { HasRoomToFinish code.now engine.old undoing.base }
    requires doubles { AreDoubles doubles t.spot }
    requires undone { IsUndone undoing.first t.control }
    ensures { Makes code.now engine.old engine.new (Table.undo_part code.now (Table.parts_of code.now undoing.record_type) t.spot undoing.record_type t.control t.world) }
{
    match parts_of(code, undoing.record_type) {
        Parts::Controlled => undo_own(engine, code, undoing, doubles),
        Parts::Within => undo_components(
            engine,
            code,
            undoing.record_type,
            undoing.first,
            doubles.spot,
        ),
        Parts::Plain => engine.mode = Mode::Giving(Ended::Complete),
    }
}

/// Goes on with a part behind its own Finalize, however that has ended: its components are finalized, as far as they are adjusted
/// (RM 7.6.1).
pub fn resume_undoing_own(engine: &mut Engine, code: &Code, record: usize, first: usize)
    ghost s: { State }
    requires valid { IsValid code.now }
    requires before { BeforeResuming code.now engine.old s }
    requires top { (fs : List Frame) × (reverse engine.old.control.items ≡ FrameOf.UndoingOwn «record» first ∷ fs) }
    ensures { (ended : Tried Handed) → Makes code.now engine.old engine.new (Table.act code.now (Giving ended) s.control s.operands s.world 0) }
{
    let spot = engine.drop_frame();
    undo_components(engine, code, record, first, spot);
}

/// Finalizes the component that an order chooses among those that are left of the newest part, so many, where the parts that are
/// adjusted are noted from one on (RM 7.6.1); unchanged where memory is refused.
fn undo_next(
    engine: &mut Engine,
    code: &Code,
    order: Order,
    record: usize,
    left: Left,
    count: usize,
    first: usize,
) -> Result<(), AllocError>
    ghost t: { Finished × List Begun × T.Frame }
    requires valid { IsValid code.now }
    requires waits { UndoesParts code.now engine.old «record» left count first t.0 t.1 }
    requires some { 0 < count }
    requires rest { t.2 ≡ T.UndoingParts t.0.spot (pull_rest (pick_among order (length t.1)) t.1) }
    requires number { engine.old.given_masters + 1 < 2 ^ 64 }
    ensures ok { OnOk result (Chooses code.now engine.old engine.new (Table.undo_next code.now t.0.spot t.1 (pick_among order (length t.1)) t.0.control t.0.world) (noted_among (length t.1) (pick_among order (length t.1)))) }
    ensures err { OnErr result (GoesOn engine.old engine.new engine.old.mode engine.old.cells.items) }
{
    reserve(&mut engine.picks, 1)?;
    let newest = engine.count_spots() - 1;
    let chosen = choose_undone(
        engine,
        code,
        order,
        record,
        &engine.spots[newest],
        first,
        left,
        count,
    );
    let component = controlled_at(code, record, chosen.at);
    let frame = Frame::UndoingParts {
        record,
        left: chosen.rest,
        count: count - 1,
        first,
    };
    let Initial::ByType(record_type) = component.initial else {
        note_pick(&mut engine.picks, count, chosen.pick);
        replace_top(&mut engine.control, frame);
        engine.mode = Mode::Giving(Ended::Complete);
        return Ok(());
    };
    let base = engine.next_window(code);
    let doubles = engine.double_component(&component)?;
    engine.prepare_finalization(code, base)?;
    note_pick(&mut engine.picks, count, chosen.pick);
    replace_top(&mut engine.control, frame);
    let undoing = Undone {
        record_type,
        first,
        base,
    };
    undo_part(engine, code, undoing, doubles);
    Ok(())
}

/// Goes on with the components of the newest part, behind what has ended so: one of those that are left, so many, is finalized, by the
/// order, or else the part is. An exception goes on at once (RM 7.6.1). Unchanged where memory is refused.
pub fn resume_undoing_parts(
    engine: &mut Engine,
    code: &Code,
    order: Order,
    ended: Ended,
    record: usize,
    left: Left,
    count: usize,
    first: usize,
) -> Result<(), AllocError>
    ghost s: { State }
    requires valid { IsValid code.now }
    requires before { BeforeResuming code.now engine.old s }
    requires top { (fs : List Frame) × (reverse engine.old.control.items ≡ FrameOf.UndoingParts «record» left count first ∷ fs) }
    requires number { engine.old.given_masters + 1 < 2 ^ 64 }
    ensures ok { OnOk result (Resumes code.now engine.old engine.new order (Shows.tried_of ended) s) }
    ensures err { OnErr result (GoesOn engine.old engine.new engine.old.mode engine.old.cells.items) }
{
    if let Ended::Raised(_) = ended {
        let _ = engine.drop_frame();
        engine.mode = Mode::Giving(ended);
        return Ok(());
    }
    if count == 0 {
        let _ = engine.drop_frame();
        engine.mode = Mode::Giving(Ended::Complete);
        return Ok(());
    }
    undo_next(engine, code, order, record, left, count, first)
}
