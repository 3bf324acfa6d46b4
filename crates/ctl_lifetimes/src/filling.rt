//! Parts are created: their components begin, one chosen after another, with constants or as parts of their own (RM 3.8, 7.6).

ghost use Rattle.std.specs.Prelude.{◌≡◌, ◌^◌, ◌+◌, ◌<◌, ◌≤◌, ◌∷◌, ◌++◌, List, OnErr, OnOk, length, reverse, take, vec_capacity, vec_len};
ghost use Rattle.ctl_meaning.specs.Changes.{object_at};
ghost use Rattle.ctl_meaning.specs.Outcome.{Fine};
ghost use Rattle.ctl_code.specs.declared.code.Begun.{Begun};
ghost use Rattle.ctl_code.specs.declared.code.Initial.TheVariants.{ByType};
ghost use Rattle.ctl_code.specs.Fits.{IsLed};
ghost use Rattle.ctl_code.specs.Table as Table;
ghost use Rattle.ctl_code.specs.States.{Handed, State};
ghost use Rattle.ctl_meaning.specs.Lists.{keep};
ghost use Rattle.ctl_code.specs.Valid as Valid;
ghost use Rattle.ctl_code.specs.Valid.{IsValid};
ghost use Rattle.ctl_frames.specs.declared.frame.Frame.{Frame};
ghost use Rattle.ctl_frames.specs.declared.frame.Frame.TheVariants as FrameOf;
ghost use Rattle.ctl_frames.specs.Filling.{AreApart, AreLeft, IsCreation, noted_among};
ghost use Rattle.ctl_engine.specs.Initializing.{Awaits, Grown, Grows, IsOf};
ghost use Rattle.ctl_engine.specs.Moves.{BeforeResuming, GoesOn, Makes, Resumes};
ghost use Rattle.ctl_engine.specs.Shows.{tried_of};

use crate::evaluating::begin_default;
use crate::failing::fail;
use crate::initialize::initialize;
use ctl_code::code::{Begun, Code, Initial, Parts};
use ctl_engine::calls::replace_top;
use ctl_engine::engine::Engine;
use ctl_frames::frame::{Apart, Ended, Frame, Left, Mode};
use ctl_frames::parts::{begun_at, count_begun, count_controlled, parts_of};
use ctl_frames::spots::Spot;
use ctl_tree::ending::Stop;
use ctl_tree::event::Owner;
use ctl_tree::request::Order;
use room::reserve;
use std::alloc::AllocError;

/// The creation of the newest part: its record type, and the owner of its object.
#[derive(Clone, Copy)]
pub struct Creation {
    pub record_type: usize,
    pub owner: Owner,
}

/// Notes a pick among so many candidates, for which there is room; with one candidate nothing was asked.
pub fn note_pick(picks: &mut Vec<u64>, candidates: usize, pick: usize)
    requires { vec_len picks.old < vec_capacity picks.old }
    ensures { picks.new.items ≡ picks.old.items ++ noted_among candidates pick }
{
    if candidates > 1 {
        picks.push_reserved(pick as u64);
    }
}

/// Answers all components of a record type with a controlled part (RM 7.6.1).
pub fn all_controlled(code: &Code, record: usize) -> Apart
    ensures { AreApart (Table.controlled_of code.now «record») result (Table.controlled_of code.now «record») }
{
    let count = count_controlled(code, record);
    Apart {
        low: Left {
            first: 0,
            last: count,
        },
        high: Left {
            first: count,
            last: count,
        },
    }
}

/// Tells whether a component has a controlled part (RM 7.6.1).
fn is_finalized(code: &Code, component: &Begun) -> bool
    ensures { result ≡ Valid.is_finalized code.now component.now.initial }
{
    match component.initial {
        Initial::Constant(_) | Initial::Computed => false,
        Initial::ByType(record) => !matches!(parts_of(code, record), Parts::Plain),
    }
}

/// Counts those that have a controlled part of the first components of a record type that begin with something, so many (RM 7.6.1).
fn count_finalized(code: &Code, record: usize, end: usize) -> usize
    requires { end ≤ length (Table.begun_of code.now «record») }
    ensures { result ≡ length (keep (λ x. Valid.is_finalized code.now x.initial) (take end (Table.begun_of code.now «record»))) }
{
    let mut count = 0;
    for at in 0..end {
        if is_finalized(code, &begun_at(code, record, at)) {
            count += 1;
        }
    }
    count
}

/// Answers the components of a record type with a controlled part that are complete where these, of those that begin with something, are
/// not (RM 7.6.1).
fn complete_of(code: &Code, record: usize, incomplete: Left) -> Apart
    ghost those: { List Begun }
    requires valid { IsValid code.now }
    requires left { AreLeft (Table.begun_of code.now «record») incomplete those }
    ensures { AreApart (Table.controlled_of code.now «record») result (Table.complete_of code.now «record» those) }
{
    Apart {
        low: Left {
            first: 0,
            last: count_finalized(code, record, incomplete.first),
        },
        high: Left {
            first: count_finalized(code, record, incomplete.last),
            last: count_controlled(code, record),
        },
    }
}

/// Begins a part of an object of this owner, of a record type: its components are to begin (RM 7.6). There is room for it, and for
/// the frame that waits for it.
pub fn begin_part(engine: &mut Engine, code: &Code, spot: Spot, record: usize, owner: Owner)
    ghost t: { Grown }
    requires awaits { Awaits code.now engine.old t.control t.world }
    requires is_of { IsOf «record» owner t.new }
    requires spot { t.new.spot ≡ spot }
    requires control { vec_len engine.old.control < vec_capacity engine.old.control }
    requires spots { vec_len engine.old.spots < vec_capacity engine.old.spots }
    requires creation { IsCreation t.control }
    ensures begins { Makes code.now engine.old engine.new (Table.begin_part code.now t.new t.control t.world) }
    ensures picks { engine.new.picks ≡ engine.old.picks }
{
    let all = Left {
        first: 0,
        last: count_begun(code, record),
    };
    engine.spots.push_reserved(spot);
    engine.control.push_reserved(Frame::Filling {
        record,
        owner,
        left: all,
        incomplete: all,
    });
    engine.mode = Mode::Giving(Ended::Complete);
}

/// Gives a component of the newest part, by its first cell in the part, the value of its default, where these are left then (RM 3.8).
/// Where the object is not there, the program is erroneous (RM 13.11.2).
fn take_default(
    engine: &mut Engine,
    code: &Code,
    creation: Creation,
    offset: usize,
    value: u64,
    rest: Left,
)
    ghost t: { Grown × List Begun }
    requires grows { Grows code.now engine.old creation.record_type creation.owner t.0 }
    requires rest { AreLeft (Table.begun_of code.now creation.record_type) rest t.1 }
    requires creation { IsCreation t.0.control }
    ensures takes { Makes code.now engine.old engine.new (Table.take_default t.0.new offset value t.1 (object_at t.0.new.spot.object t.0.world) t.0.control t.0.world) }
    ensures picks { engine.new.picks ≡ engine.old.picks }
{
    let _ = code;
    let newest = engine.count_spots() - 1;
    let spot = &engine.spots[newest];
    let start = spot.offset();
    let object = spot.object();
    if !engine.stock.exists(object) {
        let _ = engine.control.take_last();
        engine.mode = Mode::Stopped(Stop::UseAfterFree);
        return;
    }
    engine.stock.write_part(object, start, offset, value);
    replace_top(
        &mut engine.control,
        Frame::Filling {
            record: creation.record_type,
            owner: creation.owner,
            left: rest,
            incomplete: rest,
        },
    );
    engine.mode = Mode::Giving(Ended::Complete);
}

/// Begins a component of the newest part, of this record type, where these are left then and these were before (RM 7.6); unchanged
/// where memory is refused.
fn begin_component(
    engine: &mut Engine,
    code: &Code,
    creation: Creation,
    component: &Begun,
    record: usize,
    left: Left,
    rest: Left,
) -> Result<(), AllocError>
    ghost t: { Grown × List Begun × List Begun }
    requires grows { Grows code.now engine.old creation.record_type creation.owner t.0 }
    requires left { AreLeft (Table.begun_of code.now creation.record_type) left t.1 }
    requires rest { AreLeft (Table.begun_of code.now creation.record_type) rest t.2 }
    requires creation { IsCreation t.0.control }
    ensures ok { OnOk result (Makes code.now engine.old engine.new (Table.begin_component code.now t.0.new component.now (ByType «record») t.2 t.1 t.0.control t.0.world)) }
    ensures err { OnErr result (GoesOn engine.old engine.new engine.old.mode engine.old.cells.items) }
    ensures picks { engine.new.picks ≡ engine.old.picks }
{
    let newest = engine.count_spots() - 1;
    let mut spot = engine.spots[newest].copied(engine.alloc)?;
    spot.select(component.offset, component.position)?;
    reserve(&mut engine.control, 1)?;
    reserve(&mut engine.spots, 1)?;
    replace_top(
        &mut engine.control,
        Frame::Filling {
            record: creation.record_type,
            owner: creation.owner,
            left: rest,
            incomplete: left,
        },
    );
    begin_part(engine, code, spot, record, creation.owner);
    Ok(())
}

/// Begins a component of the newest part, with a constant, with the evaluation of its default or as a part of its own, where these are left
/// then and these were before (RM 3.8, 7.6); unchanged where memory is refused.
fn begin_chosen(
    engine: &mut Engine,
    code: &Code,
    creation: Creation,
    component: &Begun,
    left: Left,
    rest: Left,
) -> Result<(), AllocError>
    ghost t: { Grown × List Begun × List Begun }
    requires valid { IsValid code.now }
    requires grows { Grows code.now engine.old creation.record_type creation.owner t.0 }
    requires left { AreLeft (Table.begun_of code.now creation.record_type) left t.1 }
    requires rest { AreLeft (Table.begun_of code.now creation.record_type) rest t.2 }
    requires creation { IsCreation t.0.control }
    requires led { IsLed code.now creation.record_type component.now }
    ensures ok { OnOk result (Makes code.now engine.old engine.new (Table.begin_component code.now t.0.new component.now component.now.initial t.2 t.1 t.0.control t.0.world)) }
    ensures err { OnErr result (GoesOn engine.old engine.new engine.old.mode engine.old.cells.items) }
    ensures picks { engine.new.picks ≡ engine.old.picks }
{
    match component.initial {
        Initial::Constant(value) => {
            take_default(engine, code, creation, component.offset, value, rest);
            Ok(())
        }
        Initial::ByType(record) => {
            begin_component(engine, code, creation, component, record, left, rest)
        }
        Initial::Computed => begin_default(engine, code, creation, component, left, rest),
    }
}

/// Begins the component of the newest part that an order chooses among those that are left (RM 3.8, 7.6); unchanged where memory is
/// refused.
fn fill(
    engine: &mut Engine,
    code: &Code,
    order: Order,
    creation: Creation,
    left: Left,
) -> Result<(), AllocError>
    ghost s: { State }
    requires valid { IsValid code.now }
    requires before { BeforeResuming code.now engine.old s }
    requires top { (incomplete : Left) × (fs : List Frame) × (reverse engine.old.control.items ≡ FrameOf.Filling creation.record_type creation.owner left incomplete ∷ fs) }
    requires some { left.first < left.last }
    ensures ok { OnOk result ((h : Handed) → Resumes code.now engine.old engine.new order (Fine h) s) }
    ensures err { OnErr result (GoesOn engine.old engine.new engine.old.mode engine.old.cells.items) }
{
    reserve(&mut engine.picks, 1)?;
    let chosen = left.choose(order);
    let component = begun_at(code, creation.record_type, chosen.at);
    begin_chosen(engine, code, creation, &component, left, chosen.rest)?;
    note_pick(&mut engine.picks, left.count(), chosen.pick);
    Ok(())
}

/// Goes on with the creation of the newest part, of a record type, of an object of this owner: the last one of its components that
/// have begun has ended so, some are left, and some are not complete (RM 7.6). A component is chosen by the order, or else the part is
/// initialized, or its creation has failed (RM 7.6.1). Unchanged where memory is refused.
#[inline(always)]
pub fn resume_filling(
    engine: &mut Engine,
    code: &Code,
    order: Order,
    ended: Ended,
    record: usize,
    owner: Owner,
    left: Left,
    incomplete: Left,
) -> Result<(), AllocError>
    ghost s: { State }
    requires valid { IsValid code.now }
    requires before { BeforeResuming code.now engine.old s }
    requires top { (fs : List Frame) × (reverse engine.old.control.items ≡ FrameOf.Filling «record» owner left incomplete ∷ fs) }
    requires number { engine.old.given_masters + 1 < 2 ^ 64 }
    ensures ok { OnOk result (Resumes code.now engine.old engine.new order (tried_of ended) s) }
    ensures err { OnErr result (GoesOn engine.old engine.new engine.old.mode engine.old.cells.items) }
{
    if let Ended::Raised(exception) = ended {
        let complete = complete_of(code, record, incomplete);
        return fail(engine, code, record, complete, exception);
    }
    let creation = Creation {
        record_type: record,
        owner,
    };
    if left.first == left.last {
        return initialize(engine, code, creation);
    }
    fill(engine, code, order, creation, left)
}
