//! Members of collections that are emptied are finalized, one after another (RM 7.6.1).

ghost use Rattle.std.specs.Prelude.{◌≡◌, ◌+◌, ◌^◌, ◌<◌, ◌≢◌, ◌∷◌, Bool, List, OnErr, OnOk, reverse};
ghost use Rattle.ctl_tree.specs.declared.event.Cause.TheVariants as CauseOf;
ghost use Rattle.ctl_code.specs.declared.code.Parts.TheVariants as PartsOf;
ghost use Rattle.ctl_code.specs.States as T;
ghost use Rattle.ctl_code.specs.States.{State};
ghost use Rattle.ctl_code.specs.Table as Table;
ghost use Rattle.ctl_code.specs.Valid.{IsValid};
ghost use Rattle.ctl_frames.specs.declared.frame.Frame.{Frame};
ghost use Rattle.ctl_frames.specs.declared.frame.Frame.TheVariants as FrameOf;
ghost use Rattle.ctl_lifetimes.specs.Emptying.{Emptied, Empties, member_finished};
ghost use Rattle.ctl_frames.specs.Filling.{noted_among, pick_among};
ghost use Rattle.ctl_engine.specs.Finishing.{Finished};
ghost use Rattle.ctl_engine.specs.Moves.{BeforeResuming, Chooses, GoesOn, Resumes};
ghost use Rattle.ctl_engine.specs.Shows as Shows;

use crate::finalizing::finalize_whole;
use ctl_code::code::Code;
use ctl_engine::calls::replace_top;
use ctl_engine::engine::Engine;
use ctl_engine::finalizing::{Finalization, doubled, handed};
use ctl_engine::layers::fails_with;
use ctl_frames::frame::{Ended, Frame, Mode};
use ctl_frames::spots::Spot;
use ctl_lifetimes::emptying::{Member, find_candidates, pick_of};
use ctl_lifetimes::filling::note_pick;
use ctl_tree::event::Cause;
use ctl_tree::request::Order;
use room::reserve;
use std::alloc::AllocError;

/// Finalizes this member of some collections, which an order has chosen among so many; the frame of the collections waits for it
/// (RM 7.6.1). Unchanged where memory is refused.
fn finalize_member(
    engine: &mut Engine,
    code: &Code,
    order: Order,
    count: usize,
    member: Member,
    first: u64,
    last: u64,
    failed: bool,
) -> Result<(), AllocError>
    ghost t: { Bool × Emptied × Finished }
    requires valid { IsValid code.now }
    requires empties { Empties code.now engine.old first last t.0 t.1 }
    requires finished { t.2 ≡ member_finished t.1 failed member.number }
    requires some { 0 < count }
    requires parts { Table.parts_of code.now member.record_type ≢ PartsOf.Plain }
    requires number { engine.old.given_masters + 1 < 2 ^ 64 }
    ensures ok { OnOk result (Chooses code.now engine.old engine.new (Table.finalize_object code.now (Table.parts_of code.now member.record_type) CauseOf.Collection member.number member.record_type (T.Emptying t.1.sets failed ∷ t.1.control) t.1.world) (noted_among count (pick_among order count))) }
    ensures err { OnErr result (GoesOn engine.old engine.new engine.old.mode engine.old.cells.items) }
{
    reserve(&mut engine.picks, 1)?;
    let base = engine.next_window(code);
    let doubles = doubled(engine.alloc, Spot::whole(engine.alloc, member.number))?;
    engine.prepare_finalization(code, base)?;
    note_pick(&mut engine.picks, count, pick_of(order, count));
    let frame = Frame::Emptying {
        first,
        last,
        failed,
    };
    replace_top(&mut engine.control, frame);
    let finalization = Finalization {
        cause: Cause::Collection,
        record_type: member.record_type,
        base,
    };
    finalize_whole(engine, code, member.number, finalization, doubles);
    Ok(())
}

/// Goes on with the collections from one to another, behind what has ended so: one of their members that are still to be finalized is
/// finalized, by the order, though others failed; where there is none, it is handed on whether one failed (RM 7.6.1). Unchanged where
/// memory is refused.
pub(crate) fn resume_emptying(
    engine: &mut Engine,
    code: &Code,
    order: Order,
    ended: Ended,
    first: u64,
    last: u64,
    failed: bool,
) -> Result<(), AllocError>
    ghost s: { State }
    requires valid { IsValid code.now }
    requires before { BeforeResuming code.now engine.old s }
    requires top { (fs : List Frame) × (reverse engine.old.control.items ≡ FrameOf.Emptying first last failed ∷ fs) }
    requires number { engine.old.given_masters + 1 < 2 ^ 64 }
    ensures ok { OnOk result (Resumes code.now engine.old engine.new order (Shows.tried_of ended) s) }
    ensures err { OnErr result (GoesOn engine.old engine.new engine.old.mode engine.old.cells.items) }
{
    let fails = fails_with(failed, ended);
    let found = find_candidates(engine, code, order, first, last);
    let Some(member) = found.chosen else {
        let _ = engine.control.take_last();
        engine.mode = Mode::Giving(handed(fails));
        return Ok(());
    };
    finalize_member(engine, code, order, found.count, member, first, last, fails)
}
