//! Masters: what stands around the items of one, and what is kept of what stood around it (RM 7.6.1).

ghost use Rattle.std.specs.Prelude.{◌≡◌, IfOk};
ghost use Rattle.ctl_draft.specs.Freezing as freezing;
ghost use Rattle.ctl_types.specs.Elaboration as spec;
ghost use Rattle.ctl_types.specs.Parts as part;
ghost use Rattle.ctl_typing.specs.Judgement.{Judges};

use ctl_draft::draft::{Around, Draft, Giving, Handling, Looping, Returning};
use ctl_draft::freezing::freeze_all;
use ctl_draft::order::end_of_part;
use ctl_draft::view::keep_first;
use ctl_program::statement as checked;
use ctl_program::types::Ty;
use ctl_tree::fault::FaultCode;
use ctl_tree::span::Span;
use sqlite_items::Items;
use std::alloc::{AllocError, Global};

/// What was there before a master: how many declarations were in view, and the slots of the master around.
#[derive(Drop)]
pub struct Outer {
    pub count: usize,
    pub slots: Items<Ty>,
}

/// What is known of a subprogram where its body begins: what its returns give, its number, and the collections that stand before it.
#[derive(Drop)]
pub struct Opened {
    pub giving: Giving,
    pub number: Option<usize>,
    pub layers: Items<checked::Item>,
}

/// Answers what stands around the items of a new master; where its level cannot be counted, that is answered as want of memory.
pub fn inside(around: Around, giving: Giving, draft: &Draft) -> Result<Around, AllocError>
    ensures { IfOk result (λ inner. inner ≡ spec.inside around giving draft.now) }
{
    let level = around.level.checked_add(1).ok_or(AllocError)?;
    Ok(Around {
        level,
        start: draft.tables.entries.len(),
        first_subprogram: draft.subprograms.len(),
        first_record: draft.tables.records.len(),
        first_access: draft.tables.states.accesses.len(),
        looping: Looping::Outside,
        handling: Handling::Outside,
        giving,
    })
}

/// Answers what stands around the items of a block: the transfers of control in it may leave what stands around it (RM 5.7, 6.5).
pub fn inside_block(around: Around, draft: &Draft) -> Result<Around, AllocError>
    ensures { IfOk result (λ inner. inner ≡ spec.inside_block around draft.now) }
{
    let inner = inside(around, around.giving, draft)?;
    Ok(Around {
        looping: around.looping,
        handling: around.handling,
        ..inner
    })
}

/// Enters a master: it has slots of its own.
pub fn enter_master(alloc: Global, draft: &mut Draft) -> Outer
    ensures { (draft.new ≡ spec.without_slots draft.old) × (result ≡ part.outside_of draft.old) }
{
    let count = draft.tables.entries.len();
    let slots = std::mem::replace(&mut draft.slots, Items::new(alloc));
    Outer { count, slots }
}

/// Leaves a master: its declarations go out of view.
pub fn leave_master(outer: Outer, draft: &mut Draft)
    ensures { draft.new ≡ part.left_to outer draft.old }
{
    draft.leave_view(outer.count);
    draft.slots = outer.slots;
}

/// Notes where a function's body has no return, and goes back to the body around (RM 6.5).
pub fn leave_returns(returning: Returning, place: Span, giving: Giving, draft: &mut Draft)
    ensures { draft.new ≡ part.returned_to returning place giving draft.old }
{
    let is_missing = giving != Giving::Nothing && draft.returning == Returning::Nowhere;
    draft.fault_when(is_missing, FaultCode::Return, place);
    draft.returning = returning;
}

/// Adds items behind those so far, where all are known.
pub fn more_items(
    before: Option<Items<checked::Item>>,
    more: Option<Items<checked::Item>>,
) -> Result<Option<Items<checked::Item>>, AllocError>
    ensures { IfOk result (λ all. all ≡ spec.more_items before more) }
{
    match before {
        None => Ok(None),
        Some(mut before) => match more {
            None => Ok(None),
            Some(more) => {
                before.append(more)?;
                Ok(Some(before))
            }
        },
    }
}

/// Ends a declarative part: all types that are declared in it are frozen, and what waits in it is judged (RM 13.14, 3.11).
pub fn end_part(
    alloc: Global,
    items: Option<Items<checked::Item>>,
    waiting: usize,
    around: Around,
    draft: &mut Draft,
) -> Result<Option<Items<checked::Item>>, AllocError>
    ensures { Judges (λ d. spec.part_behind around waiting (items, d)) draft.old result draft.new }
{
    let layers = freeze_all(alloc, around, draft)?;
    end_of_part(around, waiting, draft);
    keep_first(&mut draft.waiting, waiting);
    more_items(items, Some(layers))
}

/// Makes a master of its parts, where all are known.
pub fn master_of(
    slots: usize,
    items: Option<Items<checked::Item>>,
    statements: Option<Items<checked::Stmt>>,
    handlers: Option<Items<checked::Handler>>,
) -> Option<checked::Master>
    ensures { result ≡ part.master_of slots items statements handlers }
{
    match items.zip(statements).zip(handlers) {
        Some(((items, body), handlers)) => Some(checked::Master {
            slots,
            items,
            body,
            handlers,
        }),
        None => None,
    }
}
