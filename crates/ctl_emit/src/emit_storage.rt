//! The instructions of calls of the library's Allocate and Deallocate, and those behind allocators and Unchecked_Deallocation (RM 13.11).

ghost use Rattle.std.specs.Prelude.{◌≡◌, ◌∷◌, ◌++◌, [], OnOk, None, Some, drop};
ghost use Rattle.ctl_program.specs.declared.types.Ty.TheVariants.{Address, Count};
ghost use Rattle.ctl_code.specs.declared.code.Instr.TheVariants as InstrOf;
ghost use Rattle.ctl_layout.specs.Parts as parts;
ghost use Rattle.ctl_layout.specs.Parts.{Variable};
ghost use Rattle.ctl_emitter.specs.Emitted.{appended, lined, stated, with_values};
ghost use Rattle.ctl_layout.specs.Values as values;
ghost use Rattle.ctl_layout.specs.Layout as spec;

use ctl_code::code::{Instr, Way};
use ctl_code::kinds::Kind;
use ctl_emitter::emit::Emitter;
use ctl_layout::copies::{ANY_TYPE, FIRST_POSITION};
use ctl_layout::right::{Reached, reached_by};
use ctl_program::expression::{Expr, Name, Step};
use ctl_program::library::PROGRAM_ERROR;
use ctl_program::types::{Ty, Var};
use std::alloc::AllocError;

/// The record type of the operand that is a pool: of no account, since the pool is found by its object.
const POOL_TYPE: usize = ANY_TYPE;

/// Emits what raises Program_Error where a Finalize of an object that is freed failed (RM 13.11.2).
#[tactic(auto, unfolding(ctl_meaning::specs::Outcome::program_error))]
pub(crate) fn fail_behind(emitter: &mut Emitter) -> Result<(), AllocError>
    ensures { OnOk result (emitter.new ≡ lined spec.failed_code emitter.old) }
{
    emitter.put(Instr::Transfer(Way::Raise(PROGRAM_ERROR)))
}

/// Emits the pool of a call of the library's Allocate or Deallocate, which a variable holds or a formal stands for: a new operand.
fn pool_operand(emitter: &mut Emitter, pool: Var) -> Result<(), AllocError>
    ensures { OnOk result (emitter.new ≡ appended (spec.pool_operand pool emitter.old.notes.standing) [] (spec.with_pool emitter.old.notes.standing) emitter.old) }
{
    emitter.locate(pool, POOL_TYPE)?;
    emitter.enter(Kind::Operand(Ty::Record(POOL_TYPE)))
}

/// Emits the size and the alignment of such a call: two new operands.
fn request(emitter: &mut Emitter, size: &Expr, alignment: &Expr) -> Result<(), AllocError>
    ensures { OnOk result (emitter.new ≡ with_values ((values.value_code size.now, Count) ∷ (values.value_code alignment.now, Count) ∷ []) emitter.old) }
{
    let _size = emitter.evaluated(Ty::Count, size)?;
    let _alignment = emitter.evaluated(Ty::Count, alignment)?;
    Ok(())
}

/// Emits the address, the size and the alignment of a block: three new operands.
fn block_request(
    emitter: &mut Emitter,
    address: &Expr,
    size: &Expr,
    alignment: &Expr,
) -> Result<(), AllocError>
    ensures { OnOk result (emitter.new ≡ with_values ((values.value_code address.now, Address) ∷ (values.value_code size.now, Count) ∷ (values.value_code alignment.now, Count) ∷ []) emitter.old) }
{
    let _address = emitter.evaluated(Ty::Address, address)?;
    request(emitter, size, alignment)
}

/// Emits a call of the library's Allocate for the pool in a variable; another variable takes the address (RM 13.11).
fn take_block(
    emitter: &mut Emitter,
    pool: Var,
    address: Var,
    size: &Expr,
    alignment: &Expr,
) -> Result<(), AllocError>
    ensures { OnOk result (emitter.new ≡ stated (spec.library_allocate (Some (Variable pool)) (Some (Variable address)) (values.value_code size.now) (values.value_code alignment.now)) None emitter.old) }
{
    let (out, slot) = (emitter.out_to(address), address.slot);
    pool_operand(emitter, pool)?;
    request(emitter, size, alignment)?;
    emitter.put(Instr::TakeBlock {
        record: POOL_TYPE,
        out,
        slot,
    })?;
    emitter.leave_operands(3);
    Ok(())
}

/// Emits the pool of a call of the library's Allocate, and behind it what finds the part behind these steps whose component takes the
/// address: two new operands.
fn pool_and_part(
    emitter: &mut Emitter,
    pool: Var,
    of: &Name,
    steps: &[Step],
    record: usize,
) -> Result<(), AllocError>
    ensures { let s = emitter.old.notes.standing in
        OnOk result (emitter.new ≡ appended (spec.pool_operand pool s ++ parts.located_code (values.begun_by of.now) steps.now «record» (spec.with_pool s)) [] (spec.with_pool_and_part «record» s) emitter.old) }
{
    pool_operand(emitter, pool)?;
    emitter.located(of, steps, record)?;
    emitter.enter(Kind::Operand(Ty::Record(record)))
}

/// Emits the size and the alignment of such a call over its pool and a part of this record type; a component of the part takes the
/// address, by its position.
fn request_into(
    emitter: &mut Emitter,
    record: usize,
    position: usize,
    size: &Expr,
    alignment: &Expr,
) -> Result<(), AllocError>
    ensures { let s = emitter.old.notes.standing in
        OnOk result (emitter.new ≡ appended (spec.values_then (spec.request (values.value_code size.now) (values.value_code alignment.now)) (InstrOf.TakeBlockInto spec.pool_type «record» position) s) [] (drop 2 s) emitter.old) }
{
    request(emitter, size, alignment)?;
    emitter.put(Instr::TakeBlockInto {
        record: POOL_TYPE,
        of: record,
        position,
    })?;
    emitter.leave_operands(4);
    Ok(())
}

/// Emits a call of the library's Deallocate for the pool in a variable (RM 13.11).
fn give_block(
    emitter: &mut Emitter,
    pool: Var,
    address: &Expr,
    size: &Expr,
    alignment: &Expr,
) -> Result<(), AllocError>
    ensures { OnOk result (emitter.new ≡ stated (spec.library_deallocate (Some (Variable pool)) (values.value_code address.now) (values.value_code size.now) (values.value_code alignment.now)) None emitter.old) }
{
    pool_operand(emitter, pool)?;
    block_request(emitter, address, size, alignment)?;
    emitter.put(Instr::GiveBlock { record: POOL_TYPE })?;
    emitter.leave_operands(4);
    Ok(())
}

/// Emits a call of the library's Allocate: of a pool in a variable, whose address a variable takes, or a component, or an object
/// that an access value designates (RM 13.11).
pub(crate) fn library_allocate(
    emitter: &mut Emitter,
    pool: &Name,
    address: &Name,
    size: &Expr,
    alignment: &Expr,
) -> Result<(), AllocError>
    ensures { OnOk result (emitter.new ≡ stated (spec.library_allocate (values.reached_by pool.now) (values.reached_by address.now) (values.value_code size.now) (values.value_code alignment.now)) None emitter.old) }
{
    match (reached_by(pool), reached_by(address)) {
        (Some(Reached::Variable(pool)), Some(Reached::Variable(address))) => {
            take_block(emitter, pool, address, size, alignment)
        }
        (
            Some(Reached::Variable(pool)),
            Some(
                Reached::Part {
                    steps,
                    record,
                    position,
                },
            ),
        ) => {
            pool_and_part(emitter, pool, address, steps, record)?;
            request_into(emitter, record, position, size, alignment)
        }
        (Some(Reached::Variable(pool)), Some(Reached::Object { steps })) => {
            pool_and_part(emitter, pool, address, steps, ANY_TYPE)?;
            request_into(emitter, ANY_TYPE, FIRST_POSITION, size, alignment)
        }
        _ => emitter.put(Instr::Missing),
    }
}

/// Emits a call of the library's Deallocate: of a pool in a variable (RM 13.11).
pub(crate) fn library_deallocate(
    emitter: &mut Emitter,
    pool: &Name,
    address: &Expr,
    size: &Expr,
    alignment: &Expr,
) -> Result<(), AllocError>
    ensures { OnOk result (emitter.new ≡ stated (spec.library_deallocate (values.reached_by pool.now) (values.value_code address.now) (values.value_code size.now) (values.value_code alignment.now)) None emitter.old) }
{
    match reached_by(pool) {
        Some(Reached::Variable(pool)) => give_block(emitter, pool, address, size, alignment),
        _ => emitter.put(Instr::Missing),
    }
}
