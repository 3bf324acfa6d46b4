//! Procedures and functions are called (RM 6.4).

ghost use Rattle.std.specs.Prelude.{◌≡◌, ◌+◌, ◌^◌, ◌<◌, ◌≤◌, ◌∷◌, ◌++◌, [], ℕ, IfOk, IsTrue, List, OnErr, OnOk, Some, drop, length, reverse, slice_get, take, vec_capacity, vec_len};
ghost use Rattle.ctl_code.specs.Kinds.{stack_at};
ghost use Rattle.ctl_code.specs.Table as Table;
ghost use Rattle.ctl_code.specs.States.{State, Word, worth};
ghost use Rattle.ctl_meaning.specs.Finalization as S;
ghost use Rattle.ctl_code.specs.Valid.{HaveOperands, IsValid};
ghost use Rattle.ctl_code.specs.Windows.{height};
ghost use Rattle.ctl_allocations.specs.Calling as Calling;
ghost use Rattle.ctl_allocations.specs.Calling.{BeforeCall};
ghost use Rattle.ctl_frames.specs.Masters.{first_window};
ghost use Rattle.ctl_engine.specs.Moves.{GoesOn, Makes, here_of};
ghost use Rattle.ctl_places.specs.Passing.{AreActuals, StandIn, bound, cell_passed, formal_if, is_located, passed, with_actuals};
ghost use Rattle.ctl_frames.specs.Spots.{located};
ghost use Rattle.ctl_engine.specs.Shows.{kept};
ghost use Rattle.ctl_frames.specs.declared.frame.Mode.TheVariants as ModeOf;
ghost use Rattle.ctl_engine.specs.Windows.{IsGoing};

use ctl_code::code::Code;
use ctl_engine::engine::{Engine, clear};
use ctl_frames::frame::{After, Callee, Formal, Master};
use ctl_frames::spots::Spot;
use ctl_places::record_values::is_value_as;
use ctl_steps::procedures::is_part;
use std::alloc::AllocError;

/// Passes the actual in a cell to the formal of a slot: where it is a part of an object, the newest one, the formal stands for it from then
/// on, and where it is the value of a record, the formal is a copy of it; the cell becomes 0 (RM 6.2). There is room for the formal.
fn pass(
    cells: &mut [u64],
    spots: &mut Vec<Spot>,
    formals: &mut Vec<Formal>,
    cell: usize,
    slot: usize,
    is_part: bool,
)
    requires cell { cell < length cells.old }
    requires room { vec_len formals.old < vec_capacity formals.old }
    requires some { IsTrue is_part → 0 < vec_len spots.old }
    ensures passed { (x : Word) (below : List S.Spot) → is_part ≡ is_located x → spots.old.items ≡ below ++ located (x ∷ []) → slice_get cells.old cell ≡ Some (worth x) → (cells.new ≡ cell_passed x cell cells.old) × (spots.new.items ≡ below) × (formals.new.items ≡ formals.old.items ++ formal_if x slot) }
    ensures length { vec_len formals.new ≤ vec_len formals.old + 1 }
    ensures capacity { vec_capacity formals.new ≡ vec_capacity formals.old }
{
    if is_part {
        let spot = spots.take_last();
        let is_value = is_value_as(&spot, cells[cell]);
        formals.push_reserved(Formal {
            slot,
            spot,
            is_value,
        });
        cells[cell] = 0;
    }
}

/// Lets the formals of a body stand for the parts that are passed to it, and be copies of the values of records, the last one first: the cells
/// from one on are the actuals of a call, so many, and those of parts and such values become 0 (RM 6.2, 6.4.1).
#[inline(never)]
fn bind(
    code: &Code,
    place: usize,
    cells: &mut [u64],
    spots: &mut Vec<Spot>,
    formals: &mut Vec<Formal>,
    base: usize,
    actuals: usize,
)
    ghost t: { List Word × List S.Spot }
    requires cells { base + actuals ≤ length cells.old }
    requires formals { vec_len formals.old + actuals ≤ vec_capacity formals.old }
    requires stack { AreActuals actuals (stack_at code.now.kinds place) t.0 }
    requires spots { spots.old.items ≡ t.1 ++ located (take actuals t.0) }
    requires words { StandIn actuals t.0 base cells.old }
    ensures cells { cells.new ≡ passed actuals t.0 base cells.old }
    ensures spots { spots.new.items ≡ t.1 }
    ensures formals { formals.new.items ≡ formals.old.items ++ bound actuals t.0 }
{
    for depth in 0..actuals {
        let slot = actuals - 1 - depth;
        let is_part = is_part(code, place, depth);
        pass(cells, spots, formals, base + slot, slot, is_part);
    }
}

/// Lets the formals of a body stand for the parts that are passed to it, as `bind` does.
#[inline(always)]
fn bind_parts(
    code: &Code,
    place: usize,
    cells: &mut [u64],
    spots: &mut Vec<Spot>,
    formals: &mut Vec<Formal>,
    base: usize,
    actuals: usize,
)
    ghost t: { List Word × List S.Spot }
    requires cells { base + actuals ≤ length cells.old }
    requires formals { vec_len formals.old + actuals ≤ vec_capacity formals.old }
    requires stack { AreActuals actuals (stack_at code.now.kinds place) t.0 }
    requires spots { spots.old.items ≡ t.1 ++ located (take actuals t.0) }
    requires words { StandIn actuals t.0 base cells.old }
    ensures cells { cells.new ≡ passed actuals t.0 base cells.old }
    ensures spots { spots.new.items ≡ t.1 }
    ensures formals { formals.new.items ≡ formals.old.items ++ bound actuals t.0 }
{
    // Where no part stands, no actual is one; so it is with most calls.
    if spots.is_empty() {
        return;
    }
    bind(code, place, cells, spots, formals, base, actuals);
}

/// Counts the cells of a window below the actuals of a call, which stands at this place with so many.
#[inline(always)]
#[tactic(auto, using(ctl_allocations::proofs::SubprogramCalled::height_over))]
fn height_below(code: &Code, actuals: usize, place: usize) -> usize
    requires before { place < length code.now.kinds }
    requires actuals { HaveOperands actuals (stack_at code.now.kinds place) }
    ensures { result ≡ height (drop actuals (stack_at code.now.kinds place)) }
{
    code.kinds.height_before(place) - actuals
}

/// Answers where the end of a body leads that is called so, where the call goes on at this place with so many copies (RM 6.4).
#[inline(always)]
fn after_for(callee: Callee, copies: usize, place: usize) -> After
    ensures { result ≡ Calling.after_for callee copies place }
{
    match callee {
        Callee::Procedure => After::Procedure { place, copies },
        Callee::Function => After::Function { place },
        Callee::Record { cells } => After::Record { place, cells },
    }
}

/// Begins the slots of a body, whose first cells are the actuals of its call: the formals stand for parts of objects or have values,
/// and all other slots are cleared (RM 6.4.1).
#[inline(always)]
fn begin_slots(
    engine: &mut Engine,
    code: &Code,
    place: usize,
    base: usize,
    slots: usize,
    actuals: usize,
)
    ghost t: { List Word × List S.Spot }
    requires cells { base + slots ≤ length engine.old.cells.items }
    requires many { actuals ≤ slots }
    requires formals { vec_len engine.old.formals + actuals ≤ vec_capacity engine.old.formals }
    requires stack { AreActuals actuals (stack_at code.now.kinds place) t.0 }
    requires spots { engine.old.spots.items ≡ t.1 ++ located (take actuals t.0) }
    requires words { StandIn actuals t.0 base engine.old.cells.items }
    ensures mode { engine.new.mode ≡ engine.old.mode }
    ensures kept { kept engine.new ≡ with_actuals (kept engine.old) t.0 t.1 base slots actuals }
    ensures events { engine.new.events ≡ engine.old.events }
    ensures picks { engine.new.picks ≡ engine.old.picks }
    ensures given { engine.new.given_masters ≡ engine.old.given_masters }
    ensures masters { engine.new.masters ≡ engine.old.masters }
    ensures control { engine.new.control ≡ engine.old.control }
{
    bind_parts(
        code,
        place,
        &mut engine.cells,
        &mut engine.spots,
        &mut engine.formals,
        base,
        actuals,
    );
    clear(&mut engine.cells, base + actuals, slots - actuals);
}

/// Calls the procedure or the function whose body has this number, as `call_from` does, from the newest window.
#[inline(never)]
pub(crate) fn call(
    engine: &mut Engine,
    code: &Code,
    callee: Callee,
    body: usize,
    actuals: usize,
    copies: usize,
    place: usize,
) -> Result<(), AllocError>
    ghost s: { State }
    requires valid { IsValid code.now }
    requires before { BeforeCall code.now engine.old callee place body actuals copies s }
    requires place { place + 1 < 2 ^ 64 }
    requires number { engine.old.given_masters + 1 < 2 ^ 64 }
    ensures ok { OnOk result (Makes code.now engine.old engine.new (Table.call_body code.now body actuals (Calling.leading_to callee copies) s.operands (here_of place s))) }
    ensures going { OnOk result (IsGoing engine.new.mode) }
    ensures at { OnOk result ((at : ℕ) × (engine.new.mode ≡ ModeOf.At at)) }
    ensures err { OnErr result (GoesOn engine.old engine.new engine.old.mode engine.old.cells.items) }
{
    call_from(
        engine,
        engine.window(),
        code,
        callee,
        body,
        actuals,
        copies,
        place,
    )?;
    Ok(())
}

/// Calls the procedure or the function whose body has this number, with so many of the newest operands as its actuals: the body is
/// entered inside the masters around it that this place sees, and the call goes on at the next place, where what so many of the first
/// formals of a procedure hold in the end are new operands, and so is the value of a function (RM 6.4, 6.4.1). The newest window begins
/// with this cell; answers where that of the body begins. Unchanged where memory is refused.
#[inline(always)]
pub(crate) fn call_from(
    engine: &mut Engine,
    window: usize,
    code: &Code,
    callee: Callee,
    body: usize,
    actuals: usize,
    copies: usize,
    place: usize,
) -> Result<usize, AllocError>
    ghost s: { State }
    requires valid { IsValid code.now }
    requires before { BeforeCall code.now engine.old callee place body actuals copies s }
    requires place { place + 1 < 2 ^ 64 }
    requires window { window ≡ first_window (reverse engine.old.masters.items) }
    requires number { engine.old.given_masters + 1 < 2 ^ 64 }
    ensures ok { OnOk result (Makes code.now engine.old engine.new (Table.call_body code.now body actuals (Calling.leading_to callee copies) s.operands (here_of place s))) }
    ensures going { OnOk result (IsGoing engine.new.mode) }
    ensures at { OnOk result ((at : ℕ) × (engine.new.mode ≡ ModeOf.At at)) }
    ensures window { IfOk result (λ base. base ≡ first_window (reverse engine.new.masters.items)) }
    ensures err { OnErr result (GoesOn engine.old engine.new engine.old.mode engine.old.cells.items) }
{
    let entry = code.entries[body];
    let base = window + height_below(code, actuals, place);
    engine.prepare_body(base, code.room, actuals)?;
    let outer_formals = engine.count_formals();
    begin_slots(engine, code, place, base, entry.slots, actuals);
    // Behind what may be a call, over which each number here would be kept.
    let link = engine.around(entry.level);
    let master = Master {
        number: engine.given_masters + 1,
        window: base,
        base,
        slots: entry.slots,
        link,
        depth: engine.depth_at(link) + 1,
        owned: engine.count_owned(),
        outer_formals,
        formals: engine.count_formals(),
        spots: engine.count_spots(),
    };
    engine.stand(master, 0, after_for(callee, copies, place + 1), entry.place);
    Ok(base)
}
