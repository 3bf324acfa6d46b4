//! Parts of objects are adjusted: their components with a controlled part, one chosen after another, and then the part itself (RM 7.6).

ghost use Rattle.std.specs.Prelude.{◌≡◌, ◌≢◌, ◌+◌, ◌^◌, ◌<◌, ◌≤◌, ◌∷◌, [], ℕ, List, IfNone, IfSome, None, OnErr, OnOk, Some, length, reverse, vec_capacity, vec_len};
ghost use Rattle.ctl_code.specs.declared.code.Begun.{Begun};
ghost use Rattle.ctl_code.specs.declared.code.Parts.TheVariants as PartsOf;
ghost use Rattle.ctl_meaning.specs.Changes as Changes;
ghost use Rattle.ctl_meaning.specs.Lists.{pull_rest};
ghost use Rattle.ctl_code.specs.States as T;
ghost use Rattle.ctl_code.specs.States.{Giving, Maker, State};
ghost use Rattle.ctl_code.specs.Table as Table;
ghost use Rattle.ctl_code.specs.Valid.{IsValid};
ghost use Rattle.ctl_frames.specs.declared.frame.Ended.TheVariants as EndedOf;
ghost use Rattle.ctl_frames.specs.declared.frame.Frame.{Frame};
ghost use Rattle.ctl_frames.specs.declared.frame.Frame.TheVariants as FrameOf;
ghost use Rattle.ctl_lifetimes.specs.Adjusting.{AdjustsParts, CallsAdjust, HasNoteRoom};
ghost use Rattle.ctl_engine.specs.Assigning.{Called, IsAdjustOf, IsCaller, is_assigning};
ghost use Rattle.ctl_frames.specs.Owned.{IsObject};
ghost use Rattle.ctl_meaning.specs.World.{Object};
ghost use Rattle.ctl_engine.specs.Copying.{AwaitsCopy};
ghost use Rattle.ctl_engine.specs.Declaring.{NewObject};
ghost use Rattle.ctl_frames.specs.Filling.{AreLeft, noted_among, pick_among};
ghost use Rattle.ctl_engine.specs.Finishing.{AreDoubles, BeginsOver, Finished, Finishes, HasRoomToFinish};
ghost use Rattle.ctl_engine.specs.Moves.{BeforeResuming, Chooses, GoesOn, Makes, Resumes};
ghost use Rattle.ctl_frames.specs.Noted.{IsNoting};
ghost use Rattle.ctl_engine.specs.Shows as Shows;

use crate::filling::note_pick;
use crate::initialize::finalize_in;
use ctl_code::code::{Code, Entry, Initial, Parts};
use ctl_engine::calls::replace_top;
use ctl_engine::engine::Engine;
use ctl_engine::finalizing::{Doubles, handed};
use ctl_engine::layers::says_failed;
use ctl_engine::showing::show_life;
use ctl_frames::frame::{Ended, Frame, Left, Mode};
use ctl_frames::parts::{controlled_at, count_controlled, parts_of};
use ctl_frames::spots::Spot;
use ctl_tree::ending::Stop;
use ctl_tree::event::{Event, Owner, Part};
use ctl_tree::request::Order;
use room::reserve;
use std::alloc::AllocError;

/// The adjustment of a part: whose object is created by a copy, if one is, the record type of the part, whether an Adjust before
/// it failed, and the cell where the window of a body begins that is called for it.
#[derive(Clone, Copy)]
pub struct Adjustment {
    pub creation: Option<Owner>,
    pub record_type: usize,
    pub failed: bool,
    pub base: usize,
}

/// Answers the body that the user wrote for the Adjust of a record type, if there is one (RM 7.6).
pub fn adjust_of(code: &Code, record: usize) -> Option<Entry>
    requires valid { IsValid code.now }
    ensures none { IfNone result (Table.operation_of (λ x. x.adjust) code.now «record» ≡ None) }
    ensures some { IfSome result (λ entry. IsAdjustOf code.now «record» entry) }
{
    let adjust = code.records.as_slice().get(record)?.adjust?;
    Some(code.entries[adjust])
}

/// Answers all components of a record type with a controlled part (RM 7.6).
#[inline(always)]
fn controlled_left(code: &Code, record: usize) -> Left
    ensures { AreLeft (Table.controlled_of code.now «record») result (Table.controlled_of code.now «record») }
{
    Left {
        first: 0,
        last: count_controlled(code, record),
    }
}

/// Hands on that a part is adjusted, whether an Adjust before it failed or not. Where its object is created, it is shown that the part
/// has come to life, where the user wrote a Finalize for its type, and the part is noted (RM 7.6, 7.6.1); there is room.
#[inline(always)]
fn adjusted(engine: &mut Engine, code: &Code, adjustment: Adjustment, spot: Spot, part: Part)
    ghost t: { Finished }
    requires finishes { Finishes code.now engine.old t }
    requires noting { IsNoting adjustment.creation t.control }
    requires notes { HasNoteRoom engine.old adjustment.creation }
    requires events { vec_len engine.old.events < vec_capacity engine.old.events }
    requires spot { spot ≡ t.spot }
    requires part { part ≡ Table.part_at t.spot }
    ensures { Makes code.now engine.old engine.new (Table.adjusted code.now adjustment.creation t.spot adjustment.record_type adjustment.failed t.control t.world) }
{
    engine.mode = Mode::Giving(handed(adjustment.failed));
    let Some(owner) = adjustment.creation else {
        return;
    };
    let finalize = finalize_in(code, adjustment.record_type);
    show_life(&mut engine.events, part, owner, finalize);
    engine.noted.push_reserved(spot);
}

/// Calls the Adjust of a part, which the user wrote for its type with this body, among the masters that the newest of so many
/// sees (RM 7.6); there is room.
#[inline(always)]
fn call_adjust_of(
    engine: &mut Engine,
    code: &Code,
    entry: &Entry,
    adjustment: Adjustment,
    caller: usize,
    doubles: Doubles,
)
    ghost t: { Finished × Called }
    requires valid { IsValid code.now }
    requires finishes { Finishes code.now engine.old t.0 }
    requires base { BeginsOver adjustment.base t.0 }
    requires room { HasRoomToFinish code.now engine.old adjustment.base }
    requires doubles { AreDoubles doubles t.0.spot }
    requires noting { IsNoting adjustment.creation t.0.control }
    requires calls { (master : ℕ) × CallsAdjust code.now engine.old entry.now adjustment master t.0 t.1 × IsCaller (is_assigning (reverse engine.old.control.items)) engine.old.masters.items master caller }
    ensures { Makes code.now engine.old engine.new (Table.adjust_by code.now (Table.operation_of (λ x. x.adjust) code.now adjustment.record_type) adjustment.creation t.0.spot adjustment.record_type adjustment.failed (Changes.object_at t.0.spot.object t.0.world) t.0.control t.0.world) }
{
    let Doubles { spot, formal, part } = doubles;
    engine.control.push_reserved(Frame::AdjustingOwn {
        creation: adjustment.creation,
        record: adjustment.record_type,
        failed: adjustment.failed,
    });
    engine.spots.push_reserved(spot);
    let event = Event::Adjust(part);
    engine.call_among(code, entry, caller, adjustment.base, event, formal);
}

/// Adjusts a controlled part, whose components are adjusted, by its own Adjust, where the user wrote one for its type (RM 7.6). Where
/// its object is not there, the program is erroneous (RM 13.11.2). There is room.
#[inline(always)]
fn adjust_controlled(engine: &mut Engine, code: &Code, adjustment: Adjustment, doubles: Doubles)
    ghost t: { Finished }
    requires valid { IsValid code.now }
    requires finishes { Finishes code.now engine.old t }
    requires base { BeginsOver adjustment.base t }
    requires room { HasRoomToFinish code.now engine.old adjustment.base }
    requires doubles { AreDoubles doubles t.spot }
    requires noting { IsNoting adjustment.creation t.control }
    requires notes { HasNoteRoom engine.old adjustment.creation }
    ensures { Makes code.now engine.old engine.new (Table.adjust_by code.now (Table.operation_of (λ x. x.adjust) code.now adjustment.record_type) adjustment.creation t.spot adjustment.record_type adjustment.failed (Changes.object_at t.spot.object t.world) t.control t.world) }
{
    let Some(master) = engine.master_of(doubles.spot.object()) else {
        engine.mode = Mode::Stopped(Stop::UseAfterFree);
        return;
    };
    let caller = engine.caller(master);
    adjust_among(engine, code, adjustment, caller, doubles);
}

/// Adjusts a controlled part, as `adjust_controlled` does, of an object that is there and whose operations are called among the masters that
/// the newest of so many sees.
#[inline(always)]
pub fn adjust_among(
    engine: &mut Engine,
    code: &Code,
    adjustment: Adjustment,
    caller: usize,
    doubles: Doubles,
)
    ghost t: { Finished }
    requires valid { IsValid code.now }
    requires finishes { Finishes code.now engine.old t }
    requires base { BeginsOver adjustment.base t }
    requires room { HasRoomToFinish code.now engine.old adjustment.base }
    requires doubles { AreDoubles doubles t.spot }
    requires noting { IsNoting adjustment.creation t.control }
    requires notes { HasNoteRoom engine.old adjustment.creation }
    requires there { (master : ℕ) × (o : Object) × IsObject engine.old.owned.items engine.old.stock.objects t.spot.object master o × IsCaller (is_assigning (reverse engine.old.control.items)) engine.old.masters.items master caller }
    ensures { Makes code.now engine.old engine.new (Table.adjust_by code.now (Table.operation_of (λ x. x.adjust) code.now adjustment.record_type) adjustment.creation t.spot adjustment.record_type adjustment.failed (Changes.object_at t.spot.object t.world) t.control t.world) }
{
    match adjust_of(code, adjustment.record_type) {
        Some(entry) => call_adjust_of(engine, code, &entry, adjustment, caller, doubles),
        None => adjusted(engine, code, adjustment, doubles.spot, doubles.part),
    }
}

/// Adjusts a part whose components are adjusted, if it is controlled (RM 7.6); there is room.
#[inline(always)]
fn adjust_own(engine: &mut Engine, code: &Code, adjustment: Adjustment, doubles: Doubles)
    ghost t: { Finished }
    requires valid { IsValid code.now }
    requires finishes { Finishes code.now engine.old t }
    requires base { BeginsOver adjustment.base t }
    requires room { HasRoomToFinish code.now engine.old adjustment.base }
    requires doubles { AreDoubles doubles t.spot }
    requires noting { IsNoting adjustment.creation t.control }
    requires notes { HasNoteRoom engine.old adjustment.creation }
    ensures { Makes code.now engine.old engine.new (Table.adjust_own code.now (Table.parts_of code.now adjustment.record_type) adjustment.creation t.spot adjustment.record_type adjustment.failed t.control t.world) }
{
    match parts_of(code, adjustment.record_type) {
        Parts::Controlled => adjust_controlled(engine, code, adjustment, doubles),
        _ => engine.mode = Mode::Giving(handed(adjustment.failed)),
    }
}

/// Adjusts a part: first its components with a controlled part, and then the part itself, if it is controlled (RM 7.6); there is room.
#[inline(always)]
pub fn adjust_part(engine: &mut Engine, code: &Code, adjustment: Adjustment, doubles: Doubles)
    ghost t: { Finished }
    requires valid { IsValid code.now }
    requires finishes { Finishes code.now engine.old t }
    requires base { BeginsOver adjustment.base t }
    requires room { HasRoomToFinish code.now engine.old adjustment.base }
    requires doubles { AreDoubles doubles t.spot }
    requires noting { IsNoting adjustment.creation t.control }
    requires notes { HasNoteRoom engine.old adjustment.creation }
    ensures { Makes code.now engine.old engine.new (Table.adjust_part code.now adjustment.creation t.spot adjustment.record_type adjustment.failed t.control t.world) }
{
    let left = controlled_left(code, adjustment.record_type);
    if left.first == left.last {
        return adjust_own(engine, code, adjustment, doubles);
    }
    engine.control.push_reserved(Frame::Adjusting {
        creation: adjustment.creation,
        record: adjustment.record_type,
        left,
    });
    engine.spots.push_reserved(doubles.spot);
    engine.mode = Mode::Giving(handed(adjustment.failed));
}

/// Lets the object of this number, of a record type with a controlled part, be adjusted, which is created for this owner and has taken a
/// value; this frame waits for it, and there is room (RM 7.6).
pub fn adjust_object(
    engine: &mut Engine,
    code: &Code,
    copy: Frame,
    object: u64,
    record: usize,
    owner: Owner,
)
    ghost t: { Maker × NewObject }
    requires copies { AwaitsCopy code.now engine.old copy t.0 «record» t.1 }
    requires object { t.1.number ≡ object }
    requires some { Table.parts_of code.now «record» ≢ PartsOf.Plain }
    requires control { vec_len engine.old.control + 2 ≤ vec_capacity engine.old.control }
    requires spots { vec_len engine.old.spots < vec_capacity engine.old.spots }
    ensures { Makes code.now engine.old engine.new (Table.adjust_new code.now (Table.parts_of code.now «record») t.0 (Table.newborn object «record» owner) t.1.point t.1.control t.1.world) }
{
    engine.control.push_reserved(copy);
    engine.control.push_reserved(Frame::Adjusting {
        creation: Some(owner),
        record,
        left: controlled_left(code, record),
    });
    let whole = Spot::whole(engine.alloc, object);
    engine.spots.push_reserved(whole);
    engine.mode = Mode::Giving(Ended::Complete);
}

/// Adjusts the component that an order chooses among those that are left of the newest part, where an Adjust before it failed or did
/// not (RM 7.6); unchanged where memory is refused.
fn adjust_next(
    engine: &mut Engine,
    code: &Code,
    order: Order,
    creation: Option<Owner>,
    record: usize,
    left: Left,
    failed: bool,
) -> Result<(), AllocError>
    ghost t: { Finished × List Begun × T.Frame }
    requires valid { IsValid code.now }
    requires waits { AdjustsParts code.now engine.old creation «record» left t.0 t.1 }
    requires some { 0 < length t.1 }
    requires rest { t.2 ≡ T.Adjusting creation t.0.spot «record» (pull_rest (pick_among order (length t.1)) t.1) }
    requires number { engine.old.given_masters + 1 < 2 ^ 64 }
    ensures ok { OnOk result (Chooses code.now engine.old engine.new (Table.adjust_next code.now creation t.0.spot «record» t.1 failed (pick_among order (length t.1)) t.0.control t.0.world) (noted_among (length t.1) (pick_among order (length t.1)))) }
    ensures err { OnErr result (GoesOn engine.old engine.new engine.old.mode engine.old.cells.items) }
{
    reserve(&mut engine.picks, 1)?;
    let candidates = left.count();
    let chosen = left.choose(order);
    let component = controlled_at(code, record, chosen.at);
    let frame = Frame::Adjusting {
        creation,
        record,
        left: chosen.rest,
    };
    let Initial::ByType(record_type) = component.initial else {
        note_pick(&mut engine.picks, candidates, chosen.pick);
        replace_top(&mut engine.control, frame);
        engine.mode = Mode::Giving(handed(failed));
        return Ok(());
    };
    let base = engine.next_window(code);
    let doubles = engine.double_component(&component)?;
    engine.prepare_finalization(code, base)?;
    note_pick(&mut engine.picks, candidates, chosen.pick);
    replace_top(&mut engine.control, frame);
    let adjustment = Adjustment {
        creation,
        record_type,
        failed,
        base,
    };
    adjust_part(engine, code, adjustment, doubles);
    Ok(())
}

/// Adjusts the newest part, whose components are adjusted, if it is controlled (RM 7.6); unchanged where memory is refused.
fn adjust_newest(
    engine: &mut Engine,
    code: &Code,
    creation: Option<Owner>,
    record: usize,
    failed: bool,
) -> Result<(), AllocError>
    ghost t: { Finished }
    requires valid { IsValid code.now }
    requires waits { (those : Left) × AdjustsParts code.now engine.old creation «record» those t [] }
    requires number { engine.old.given_masters + 1 < 2 ^ 64 }
    ensures ok { OnOk result (Makes code.now engine.old engine.new (Table.adjust_own code.now (Table.parts_of code.now «record») creation t.spot «record» failed t.control t.world)) }
    ensures err { OnErr result (GoesOn engine.old engine.new engine.old.mode engine.old.cells.items) }
{
    let base = engine.next_window(code);
    let newest = engine.count_spots() - 1;
    let target = &engine.spots[newest];
    let formal = target.copied(engine.alloc)?;
    let part = target.part(engine.alloc)?;
    engine.prepare_finalization(code, base)?;
    let spot = engine.drop_frame();
    let adjustment = Adjustment {
        creation,
        record_type: record,
        failed,
        base,
    };
    adjust_own(engine, code, adjustment, Doubles { spot, formal, part });
    Ok(())
}

/// Goes on with the components of the newest part, behind what has ended so: one of those that are left is adjusted, by the order, or
/// else the part itself (RM 7.6). Unchanged where memory is refused.
pub fn resume_adjusting(
    engine: &mut Engine,
    code: &Code,
    order: Order,
    ended: Ended,
    creation: Option<Owner>,
    record: usize,
    left: Left,
) -> Result<(), AllocError>
    ghost s: { State }
    requires valid { IsValid code.now }
    requires before { BeforeResuming code.now engine.old s }
    requires top { (fs : List Frame) × (reverse engine.old.control.items ≡ FrameOf.Adjusting creation «record» left ∷ fs) }
    requires number { engine.old.given_masters + 1 < 2 ^ 64 }
    ensures ok { OnOk result (Resumes code.now engine.old engine.new order (Shows.tried_of ended) s) }
    ensures err { OnErr result (GoesOn engine.old engine.new engine.old.mode engine.old.cells.items) }
{
    if let Ended::Raised(_) = ended {
        let _ = engine.drop_frame();
        engine.mode = Mode::Giving(ended);
        return Ok(());
    }
    let failed = says_failed(ended);
    if left.first == left.last {
        return adjust_newest(engine, code, creation, record, failed);
    }
    adjust_next(engine, code, order, creation, record, left, failed)
}

/// Goes on behind the Adjust of the newest part, which has ended so, where an Adjust before it failed or did not: the part is adjusted,
/// and an exception is remembered (RM 7.6.1). Unchanged where memory is refused.
#[inline(always)]
pub fn resume_adjusting_own(
    engine: &mut Engine,
    code: &Code,
    ended: Ended,
    creation: Option<Owner>,
    record: usize,
    failed: bool,
) -> Result<(), AllocError>
    ghost s: { State }
    requires before { BeforeResuming code.now engine.old s }
    requires top { (fs : List Frame) × (reverse engine.old.control.items ≡ FrameOf.AdjustingOwn creation «record» failed ∷ fs) }
    ensures ok { OnOk result (Makes code.now engine.old engine.new (Table.act code.now (Giving (Shows.tried_of ended)) s.control s.operands s.world 0)) }
    ensures err { OnErr result (GoesOn engine.old engine.new engine.old.mode engine.old.cells.items) }
{
    if let Ended::Raised(_) = ended {
        let _ = engine.drop_frame();
        engine.mode = Mode::Giving(Ended::OperationFailed);
        return Ok(());
    }
    match creation {
        Some(owner) => come_to_life_adjusted(engine, code, ended, owner, record, failed),
        None => {
            let _ = engine.drop_frame();
            engine.mode = Mode::Giving(handed(failed));
            Ok(())
        }
    }
}

/// Goes on behind the Adjust of the newest part, of an object that is created for this owner by a copy, as `resume_adjusting_own` does: the
/// part is shown to have come to life, and noted.
// Apart from what goes on behind other Adjusts.
#[inline(never)]
fn come_to_life_adjusted(
    engine: &mut Engine,
    code: &Code,
    ended: Ended,
    owner: Owner,
    record: usize,
    failed: bool,
) -> Result<(), AllocError>
    ghost s: { State }
    requires before { BeforeResuming code.now engine.old s }
    requires top { (fs : List Frame) × (reverse engine.old.control.items ≡ FrameOf.AdjustingOwn (Some owner) «record» failed ∷ fs) }
    requires plain { (exception : ℕ) → ended ≢ EndedOf.Raised exception }
    ensures ok { OnOk result (Makes code.now engine.old engine.new (Table.act code.now (Giving (Shows.tried_of ended)) s.control s.operands s.world 0)) }
    ensures err { OnErr result (GoesOn engine.old engine.new engine.old.mode engine.old.cells.items) }
{
    let _ = ended;
    let newest = engine.count_spots() - 1;
    let part = engine.spots[newest].part(engine.alloc)?;
    reserve(&mut engine.events, 1)?;
    reserve(&mut engine.noted, 1)?;
    let spot = engine.drop_frame();
    let adjustment = Adjustment {
        creation: Some(owner),
        record_type: record,
        failed,
        base: 0,
    };
    adjusted(engine, code, adjustment, spot, part);
    Ok(())
}
