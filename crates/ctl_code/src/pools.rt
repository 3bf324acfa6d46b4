//! Whether the declaration of a pool is well formed (RM 13.11).

ghost use Rattle.std.specs.Prelude.{◌≡◌, ◌↔◌, ℕ, ◌+◌, ◌^◌, ◌<◌, [], ◌∷◌, drop, IsTrue};
ghost use Rattle.ctl_program.specs.declared.types.Ty.TheVariants.{Count};
ghost use Rattle.ctl_code.specs.declared.code.Instr.TheVariants as I;
ghost use Rattle.ctl_code.specs.declared.kinds.Kind.TheVariants.{Operand};
ghost use Rattle.ctl_code.specs.Kinds.{stack_at};
ghost use Rattle.ctl_code.specs.Valid.{DropsPart, IsDeclarable, IsFine, Leads, Under};
ghost use Rattle.ctl_code.specs.declared.homes.Declaration.TheVariants as DeclarationOf;
ghost use Rattle.ctl_code.specs.Windows.{HasHome, depth, height, OwnsSlot};

use crate::around::has_home;
use crate::code::Code;
use crate::fine::{drops_part, has, is_operand, is_part, leads_on};
use crate::homes::Declaration;
use crate::kinds::Kind;
use crate::layouts::is_declarable;
use ctl_program::types::Ty;

/// Tells whether two values of Storage_Count stand on top, the lower one in this cell.
fn has_discriminants(code: &Code, place: usize, at: usize) -> bool
    ensures { let stack = stack_at code.now.kinds place in
        IsTrue result ↔ ((stack ≡ Operand Count ∷ Operand Count ∷ drop 2 stack) × (at ≡ height (drop 2 stack))) }
{
    has(code, place, 0, Kind::Operand(Ty::Count)) && is_operand(code, place, 1, at, Ty::Count)
}

/// Tells whether a size and an alignment stand on top.
fn has_request(code: &Code, place: usize) -> bool
    ensures { let stack = stack_at code.now.kinds place in IsTrue result ↔ (stack ≡ Operand Count ∷ Operand Count ∷ drop 2 stack) }
{
    has(code, place, 0, Kind::Operand(Ty::Count)) && has(code, place, 1, Kind::Operand(Ty::Count))
}

/// Tells whether the part that is a pool stands below a size and an alignment, and the next place finds what is below it (RM 13.11).
fn takes_request(code: &Code, place: usize, record: usize) -> bool
    requires { place + 1 < 2 ^ 64 }
    ensures { IsTrue result ↔ Under (Operand Count ∷ Operand Count ∷ []) (stack_at code.now.kinds place) (DropsPart code.now place «record») }
{
    has_request(code, place) && drops_part(code, place, 2, record)
}

/// Checks a call of the library's Allocate: the part that is the pool stands below a size and an alignment, and there is the variable that
/// takes the address (RM 13.11).
pub(crate) fn is_taking_fine(
    code: &Code,
    place: usize,
    record: usize,
    out: usize,
    slot: usize,
) -> bool
    requires { place + 1 < 2 ^ 64 }
    ensures { IsTrue result ↔ IsFine code.now place (I.TakeBlock «record» out slot) (stack_at code.now.kinds place) }
{
    takes_request(code, place, record) && code.kinds.has_slot(place, out, slot, &code.homes)
}

/// Checks a call of the library's Allocate whose address a component takes: the part that has it stands below a size and an alignment, over
/// the part that is the pool (RM 13.11).
pub(crate) fn is_taking_into_fine(code: &Code, place: usize, record: usize, of: usize) -> bool
    requires { place + 1 < 2 ^ 64 }
    ensures { (position : ℕ) → IsTrue result ↔ IsFine code.now place (I.TakeBlockInto «record» of position) (stack_at code.now.kinds place) }
{
    has_request(code, place) && is_part(code, place, 2, of) && drops_part(code, place, 3, record)
}

/// Checks a call of the library's Deallocate: the part that is the pool stands below an address, a size and an alignment (RM 13.11).
pub(crate) fn is_giving_fine(code: &Code, place: usize, record: usize) -> bool
    requires { place + 1 < 2 ^ 64 }
    ensures { IsTrue result ↔ IsFine code.now place (I.GiveBlock «record») (stack_at code.now.kinds place) }
{
    has_request(code, place)
        && has(code, place, 2, Kind::Operand(Ty::Address))
        && drops_part(code, place, 3, record)
}

/// Checks the declaration of a block pool in a slot of the newest master: its discriminants stand on top, the first of them in this cell
/// (RM 13.11).
pub(crate) fn is_pool_fine(code: &Code, place: usize, slot: usize, number: usize, at: usize) -> bool
    requires { place + 1 < 2 ^ 64 }
    ensures { let stack = stack_at code.now.kinds place in
        IsTrue result ↔ (IsDeclarable code.now (depth stack) number × Under (Operand Count ∷ Operand Count ∷ []) stack (λ below. (at ≡ height below) × Leads code.now (place + 1) below) × OwnsSlot stack slot × HasHome code.now.homes stack (DeclarationOf.Record number)) }
{
    is_declarable(code, code.kinds.depth_at(place), number)
        && has_discriminants(code, place, at)
        && leads_on(code, place, 2, None)
        && code.kinds.owns_slot(place, slot)
        && has_home(code, place, Declaration::Record(number))
}
