//! Default expressions that are no constants are evaluated (RM 3.8): in a window of their own over all that waits, which the newest master has
//! until then.

ghost use Rattle.std.specs.Prelude.{◌≡◌, ◌+◌, ◌<◌, ◌∷◌, ◌++◌, [], List, MatchOption, OnErr, OnOk, length, reverse, vec_capacity, vec_len};
ghost use Rattle.ctl_code.specs.declared.code.Begun.{Begun};
ghost use Rattle.ctl_code.specs.declared.code.Initial.TheVariants.{Computed};
ghost use Rattle.ctl_code.specs.declared.code.Way.TheVariants as WayOf;
ghost use Rattle.ctl_code.specs.Fits.{IsLed};
ghost use Rattle.ctl_code.specs.States.{State};
ghost use Rattle.ctl_code.specs.Table as Table;
ghost use Rattle.ctl_code.specs.Valid.{IsValid};
ghost use Rattle.ctl_meaning.specs.Finalization as S;
ghost use Rattle.ctl_frames.specs.declared.frame.Completion.TheVariants as CompletionOf;
ghost use Rattle.ctl_frames.specs.declared.frame.Frame.{Frame};
ghost use Rattle.ctl_frames.specs.declared.frame.Frame.TheVariants as FrameOf;
ghost use Rattle.ctl_frames.specs.Filling.{AreLeft, IsCreation};
ghost use Rattle.ctl_engine.specs.Initializing.{Grown, Grows};
ghost use Rattle.ctl_engine.specs.Lending as spec;
ghost use Rattle.ctl_engine.specs.Lending.{GivesBack, Lends};
ghost use Rattle.ctl_engine.specs.Moves.{BeforeTransfer, GoesOn, IsNoEvaluation, Makes};
ghost use Rattle.ctl_engine.specs.Shows.{IsPlain, kept, with_spots};

use crate::filling::Creation;
use ctl_code::code::{Begun, Code, Way};
use ctl_engine::calls::replace_top;
use ctl_engine::engine::Engine;
use ctl_frames::frame::{Ended, Frame, Left, Master, Mode};
use ctl_frames::parts::default_of;
use ctl_tree::ending::Stop;
use std::alloc::AllocError;

/// The default of a component that is evaluated: its object, the first cell of its part and how far behind that its cell is; and the window and
/// the number of parts that the newest master had before.
#[derive(Clone, Copy)]
pub struct Evaluation {
    pub object: u64,
    pub start: usize,
    pub offset: usize,
    pub window: usize,
    pub spots: usize,
}

/// Answers the value that a default has which control leaves so; None where no value is returned. None waits among the parts.
fn returned_by(way: Way) -> Option<u64>
    ensures { result ≡ spec.returned_by way }
{
    match way {
        Way::Return => Some(0),
        Way::ReturnValue(value) => Some(value),
        _ => None,
    }
}

/// Answers how the evaluation of a default has ended which control leaves so without a value.
fn ended_by(way: Way) -> Ended
    ensures { result ≡ spec.ended_by way }
{
    match way {
        Way::Raise(exception) => Ended::Raised(exception),
        _ => Ended::Complete,
    }
}

/// Has the newest master say that its window begins there, and that all parts so far stand below, for the evaluation of the default of a
/// component, which goes on at this place; what it said before stands in a frame that waits, for which there is room.
fn lend(engine: &mut Engine, object: u64, start: usize, offset: usize, window: usize, place: usize)
    requires masters { 0 < vec_len engine.old.masters }
    requires control { vec_len engine.old.control < vec_capacity engine.old.control }
    ensures { Lends engine.old engine.new object start offset window place }
{
    let spots = engine.count_spots();
    let newest = engine.newest();
    let at = engine.count_masters() - 1;
    engine.control.push_reserved(Frame::Evaluating {
        object,
        start,
        offset,
        window: newest.window,
        spots: newest.spots,
    });
    engine.masters[at] = Master {
        window,
        spots,
        ..newest
    };
    engine.mode = Mode::At(place);
}

/// Has the newest master say again what it said before the evaluation of a default, whose frame is the newest and comes off.
fn give_back(engine: &mut Engine, evaluation: Evaluation)
    requires masters { 0 < vec_len engine.old.masters }
    requires control { 0 < vec_len engine.old.control }
    ensures { GivesBack engine.old engine.new evaluation.window evaluation.spots }
{
    let _ = engine.control.take_last();
    let newest = engine.newest();
    let at = engine.count_masters() - 1;
    engine.masters[at] = Master {
        window: evaluation.window,
        spots: evaluation.spots,
        ..newest
    };
}

/// Begins to evaluate the default of a component of the newest part, where these are left then and these were before (RM 3.8); unchanged
/// where memory is refused.
pub fn begin_default(
    engine: &mut Engine,
    code: &Code,
    creation: Creation,
    component: &Begun,
    left: Left,
    rest: Left,
) -> Result<(), AllocError>
    ghost t: { Grown × List Begun × List Begun }
    requires valid { IsValid code.now }
    requires grows { Grows code.now engine.old creation.record_type creation.owner t.0 }
    requires left { AreLeft (Table.begun_of code.now creation.record_type) left t.1 }
    requires rest { AreLeft (Table.begun_of code.now creation.record_type) rest t.2 }
    requires creation { IsCreation t.0.control }
    requires led { IsLed code.now creation.record_type component.now }
    requires computed { component.now.initial ≡ Computed }
    ensures ok { OnOk result (Makes code.now engine.old engine.new (Table.begin_component code.now t.0.new component.now Computed t.2 t.1 t.0.control t.0.world)) }
    ensures err { OnErr result (GoesOn engine.old engine.new engine.old.mode engine.old.cells.items) }
    ensures picks { engine.new.picks ≡ engine.old.picks }
{
    let window = engine.next_window(code);
    engine.prepare(window, code.room, 0)?;
    let newest = engine.count_spots() - 1;
    let spot = &engine.spots[newest];
    let object = spot.object();
    let start = spot.offset();
    let place = default_of(code, creation.record_type, component.position);
    replace_top(
        &mut engine.control,
        Frame::Filling {
            record: creation.record_type,
            owner: creation.owner,
            left: rest,
            incomplete: left,
        },
    );
    lend(engine, object, start, component.offset, window, place);
    Ok(())
}

/// Answers the evaluation that the newest frame waits for, if that is one of a default.
#[inline(always)]
pub fn newest_evaluation(engine: &Engine) -> Option<Evaluation>
    ensures { MatchOption result (IsNoEvaluation (reverse engine.now.control.items)) (λ e. (fs : List Frame) × (reverse engine.now.control.items ≡ FrameOf.Evaluating e.object e.start e.offset e.window e.spots ∷ fs)) }
{
    let Some(frame) = engine.newest_frame() else {
        return None;
    };
    match frame {
        Frame::Evaluating {
            object,
            start,
            offset,
            window,
            spots,
        } => Some(Evaluation {
            object,
            start,
            offset,
            window,
            spots,
        }),
        _ => None,
    }
}

/// Answers how control leaves a default, which has one cell: where the value of a record waits among the parts, that comes off them, and its
/// first cell stands in the way (RM 3.8, 6.5).
pub fn settle(engine: &mut Engine, way: Way) -> Way
    requires waits { way ≡ WayOf.ReturnRecord → 0 < length engine.old.spots.items }
    ensures way { result ≡ spec.settled engine.old.spots.items way }
    ensures plain { IsPlain way → kept engine.new ≡ kept engine.old }
    ensures waits { (below : List S.Spot) (s : S.Spot) → way ≡ WayOf.ReturnRecord → engine.old.spots.items ≡ below ++ s ∷ [] → kept engine.new ≡ with_spots (kept engine.old) below }
    ensures control { engine.new.control ≡ engine.old.control }
    ensures events { engine.new.events ≡ engine.old.events }
    ensures picks { engine.new.picks ≡ engine.old.picks }
{
    if let Way::ReturnRecord = way {
        let value = engine.cell_waiting();
        let _ = engine.spots.take_last();
        return Way::ReturnValue(value);
    }
    way
}

/// Ends the evaluation of a default, whose frame is the newest: the component takes the value that is returned, or what stopped the
/// evaluation is handed on (RM 3.8, 11.4). Where the object is not there, the program is erroneous (RM 13.11.2). No value waits.
pub fn end_default(engine: &mut Engine, code: &Code, way: Way, evaluation: Evaluation)
    ghost s: { State }
    requires valid { IsValid code.now }
    requires before { BeforeTransfer code.now engine.old (CompletionOf.Transferred way) s }
    requires plain { IsPlain way }
    requires top { (fs : List Frame) × (reverse engine.old.control.items ≡ FrameOf.Evaluating evaluation.object evaluation.start evaluation.offset evaluation.window evaluation.spots ∷ fs) }
    ensures { Makes code.now engine.old engine.new (Table.by_transfer code.now (Table.way_of way) s.control s.world) }
{
    let _ = code;
    give_back(engine, evaluation);
    let Some(value) = returned_by(way) else {
        engine.mode = Mode::Giving(ended_by(way));
        return;
    };
    if !engine.stock.exists(evaluation.object) {
        engine.mode = Mode::Stopped(Stop::UseAfterFree);
        return;
    }
    engine.stock.write_part(
        evaluation.object,
        evaluation.start,
        evaluation.offset,
        value,
    );
    engine.mode = Mode::Giving(Ended::Complete);
}
