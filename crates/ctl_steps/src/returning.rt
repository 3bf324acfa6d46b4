//! A master is closed behind whose end a value waits, or that of a record may stand (RM 6.5).

ghost use Rattle.std.specs.Prelude.{◌≡◌, ◌<◌, ◌∷◌, [], List, OnErr, OnOk, reverse, vec_len};
ghost use Rattle.ctl_code.specs.Fits.{Behind, FitsWorld};
ghost use Rattle.ctl_code.specs.Table as Table;
ghost use Rattle.ctl_code.specs.Valid.{IsValid};
ghost use Rattle.ctl_frames.specs.declared.frame.Master.{Master};
ghost use Rattle.ctl_engine.specs.Departing.{Departed, Departs};
ghost use Rattle.ctl_frames.specs.Masters.{layers_from};
ghost use Rattle.ctl_engine.specs.Moves.{GoesOn, Makes};

use crate::leaving::{close, mode_behind};
use ctl_code::code::Code;
use ctl_engine::calls::Departure;
use ctl_engine::engine::Engine;
use ctl_engine::layers::forget_owned;
use ctl_places::returning::{
    cell_behind, drop_parts, put_cell, put_record, record_behind, waits_further,
};
use room::reserve;
use std::alloc::AllocError;

/// Takes the newest master off, which is left so and of whose layers none is left, with what it owned, and goes on behind it, where a value
/// waits, or that of a record may stand (RM 6.5): behind a block the value waits further; behind the call of a function it is the newest
/// operand; else it is dropped. Unchanged where memory is refused.
#[inline(never)]
pub fn close_with_record(
    engine: &mut Engine,
    code: &Code,
    departure: Departure,
    next: usize,
) -> Result<(), AllocError>
    ghost t: { Departed }
    requires valid { IsValid code.now }
    requires departs { Departs code.now engine.old departure.failed departure.pending departure.after next t }
    requires fits { Behind code.now t.after t.control }
    requires world { FitsWorld code.now t.world }
    requires waiting { 0 < vec_len engine.old.control }
    requires none { (m : Master) × (ms : List Master) × (reverse engine.old.masters.items ≡ m ∷ ms) × (layers_from m.owned engine.old.owned.items ≡ []) }
    ensures ok { OnOk result (Makes code.now engine.old engine.new (Table.next_layer code.now t.master t.layers t.failed t.pending t.after t.control t.world)) }
    ensures err { OnErr result (GoesOn engine.old engine.new engine.old.mode engine.old.cells.items) }
{
    let _places = code.instructions.as_slice().len();
    let _ = next;
    let newest = engine.newest();
    let after = departure.after;
    let completion = departure.completion();
    let given = record_behind(engine, after, completion)?;
    let cell = cell_behind(engine, after, completion);
    reserve(&mut engine.spots, 1)?;
    forget_owned(&mut engine.owned, &mut engine.stock, &newest);
    let base = close(engine, mode_behind(after, completion));
    let stays = waits_further(after, completion);
    drop_parts(&mut engine.spots, newest.spots, stays);
    put_record(&mut engine.spots, given);
    put_cell(&mut engine.cells, base, cell);
    Ok(())
}
