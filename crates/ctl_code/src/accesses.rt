//! Whether an instruction on collections and allocated objects is well formed (RM 4.8, 7.6.1, 13.11.2).

ghost use Rattle.std.specs.Prelude.{◌≡◌, ◌↔◌, ℕ, ◌+◌, ◌≤◌, ◌^◌, ◌<◌, IsTrue};
ghost use Rattle.ctl_code.specs.declared.code.Instr.TheVariants as I;
ghost use Rattle.ctl_code.specs.Kinds.{changed, stack_at};
ghost use Rattle.ctl_code.specs.Valid.{HasCollection, HasVariable, IsAllocable, IsFine, IsGathered, IsKnown, Leads, MayLie, MayHaveVariable, over_numbers};
ghost use Rattle.ctl_code.specs.Windows.{depth};

use crate::around::{has_home, has_home_of};
use crate::code::Code;
use crate::fine::{has, is_operand, is_part, leads_on};
use crate::homes::Declaration;
use crate::kinds::Kind;
use crate::layouts::is_declarable;
use crate::tables::{access_home, operations_at};
use crate::types::is_scalar;
use ctl_program::types::{Ty, Var};

/// Tells whether objects of a type may lie among so many masters: those of an elementary type anywhere.
fn may_lie(code: &Code, masters: usize, of: Ty) -> bool
    ensures { IsTrue result ↔ MayLie code.now masters of }
{
    match of {
        Ty::Record(record) => is_declarable(code, masters, record),
        _ => true,
    }
}

/// Tells whether the code has the operations of a type, if it is a record type.
fn is_known(code: &Code, of: Ty) -> bool
    ensures { IsTrue result ↔ IsKnown code.now of }
{
    match of {
        Ty::Record(record) => operations_at(code, record).is_some(),
        _ => true,
    }
}

/// Tells whether the collection of an access type stands in one of so many masters around a place, and objects of a type may lie where it
/// does (RM 4.8).
fn is_allocable(code: &Code, masters: usize, access: usize, of: Ty) -> bool
    ensures { IsTrue result ↔ IsAllocable code.now masters access of }
{
    match access_home(code, access) {
        Some(home) => {
            1 <= home.collection.level
                && home.collection.level <= masters
                && may_lie(code, home.collection.level, of)
        }
        None => false,
    }
}

/// Tells whether the master of a variable stands around an instruction, and has its slot (RM 7.6.1).
pub(crate) fn has_variable(code: &Code, place: usize, variable: Var) -> bool
    ensures { IsTrue result ↔ HasVariable code.now.homes (stack_at code.now.kinds place) variable }
{
    let depth = code.kinds.depth_at(place);
    1 <= variable.level
        && variable.level <= depth
        && code
            .kinds
            .has_slot(place, depth - variable.level, variable.slot, &code.homes)
}

/// Tells whether there is no variable, or its master stands around an instruction and has its slot.
fn may_have_variable(code: &Code, place: usize, variable: Option<Var>) -> bool
    ensures { IsTrue result ↔ MayHaveVariable code.now.homes (stack_at code.now.kinds place) variable }
{
    match variable {
        Some(variable) => has_variable(code, place, variable),
        None => true,
    }
}

/// Tells whether the master of the collection of an access type stands around an instruction, and has its slot; and so for its pool
/// (RM 3.10, 13.11).
fn has_collection(code: &Code, place: usize, access: usize) -> bool
    ensures { IsTrue result ↔ HasCollection code.now (stack_at code.now.kinds place) access }
{
    match access_home(code, access) {
        Some(home) => {
            has_variable(code, place, home.collection) && may_have_variable(code, place, home.pool)
        }
        None => false,
    }
}

/// Tells whether the collection of an access type is one of the newest master, and has a slot there (RM 3.10, 7.6.1).
fn is_gathered(code: &Code, place: usize, access: usize) -> bool
    ensures { IsTrue result ↔ IsGathered code.now access (stack_at code.now.kinds place) }
{
    match access_home(code, access) {
        Some(home) => {
            home.collection.level == code.kinds.depth_at(place)
                && code.kinds.owns_slot(place, home.collection.slot)
        }
        None => false,
    }
}

/// Checks that a collection is made (RM 7.6.1): of an access type of the table, in its slot of the newest master.
pub(crate) fn is_gather_fine(code: &Code, place: usize, access: usize) -> bool
    requires { place + 1 < 2 ^ 64 }
    ensures { let stack = stack_at code.now.kinds place in
        IsTrue result ↔ (IsGathered code.now access stack × (1 ≤ depth stack) × Leads code.now (place + 1) stack) }
{
    is_gathered(code, place, access)
        && 1 <= code.kinds.depth_at(place)
        && leads_on(code, place, 0, None)
}

/// Tells whether the change of the stack that an instruction makes leads behind the next place.
fn leads_behind_next(code: &Code, place: usize, taken: usize, new: Option<Kind>) -> bool
    requires { place + 1 < 2 ^ 64 }
    ensures { IsTrue result ↔ Leads code.now (place + 1 + 1) (changed taken new (stack_at code.now.kinds place)) }
{
    1 < code.kinds.len().saturating_sub(place + 1)
        && code.kinds.leads(place, taken, new, place + 1 + 1)
}

/// How many numbers stand behind the call of an Allocate: those of the collection and of the pool, and what its first two formals hold
/// (RM 13.11).
const ADDRESS_NUMBERS: usize = 4;

/// Tells whether these numbers stand before the next place, over what is made of the stack: so many of the newest are taken, and this is put
/// on top, if any.
fn leads_to_address(code: &Code, place: usize, taken: usize, new: Option<Kind>) -> bool
    requires { place + 1 < 2 ^ 64 }
    ensures { IsTrue result ↔ Leads code.now (place + 1) (over_numbers 4 (changed taken new (stack_at code.now.kinds place))) }
{
    code.kinds
        .leads_over_numbers(place, taken, new, ADDRESS_NUMBERS, place + 1)
}

/// Checks an allocator: the collection of its access type stands in a master that is seen (RM 4.8).
pub(crate) fn is_new_fine(
    code: &Code,
    place: usize,
    access: usize,
    of: Ty,
    ty: Ty,
    at: usize,
) -> bool
    requires { place + 1 < 2 ^ 64 }
    ensures { IsTrue result ↔ IsFine code.now place (I.New access of ty at) (stack_at code.now.kinds place) }
{
    is_scalar(ty)
        && is_allocable(code, code.kinds.depth_at(place), access, of)
        && code.kinds.height_at(place, 0) == at
        && leads_to_address(code, place, 0, None)
        && leads_behind_next(code, place, 0, Some(Kind::Operand(ty)))
        && has_collection(code, place, access)
        && has_home_of(code, place, of)
}

/// Checks an allocator at the address that an Allocate gave (RM 4.8, 13.11).
pub(crate) fn is_new_in_fine(code: &Code, place: usize, of: Ty, ty: Ty, at: usize) -> bool
    requires { place + 1 < 2 ^ 64 }
    ensures { IsTrue result ↔ IsFine code.now place (I.NewIn of ty at) (stack_at code.now.kinds place) }
{
    is_scalar(ty)
        && is_known(code, of)
        && code.kinds.has_numbers(place, ADDRESS_NUMBERS)
        && code.kinds.height_at(place, ADDRESS_NUMBERS) == at
        && leads_on(code, place, ADDRESS_NUMBERS, Some(Kind::Operand(ty)))
}

/// Checks that a new object is given the value below its access value (RM 4.8).
pub(crate) fn is_given_fine(code: &Code, place: usize, of: Ty, ty: Ty, at: usize) -> bool
    requires { place + 1 < 2 ^ 64 }
    ensures { IsTrue result ↔ IsFine code.now place (I.GiveValue of ty at) (stack_at code.now.kinds place) }
{
    is_scalar(of)
        && is_scalar(ty)
        && has(code, place, 0, Kind::Operand(ty))
        && is_operand(code, place, 1, at, of)
        && leads_on(code, place, 2, Some(Kind::Operand(ty)))
}

/// Checks an allocator with the value of a part, which stands on top, in this cell (RM 4.8).
pub(crate) fn is_new_copy_fine(
    code: &Code,
    place: usize,
    access: usize,
    record: usize,
    ty: Ty,
    at: usize,
) -> bool
    requires { place + 1 < 2 ^ 64 }
    ensures { IsTrue result ↔ IsFine code.now place (I.NewCopy access «record» ty at) (stack_at code.now.kinds place) }
{
    is_scalar(ty)
        && is_allocable(code, code.kinds.depth_at(place), access, Ty::Record(record))
        && is_operand(code, place, 0, at, Ty::Record(record))
        && leads_to_address(code, place, 1, Some(Kind::RecordValue))
        && leads_behind_next(code, place, 1, Some(Kind::Operand(ty)))
        && has_collection(code, place, access)
        && has_home(code, place, Declaration::Record(record))
}

/// Checks an allocator with the value of a record at the address that an Allocate gave (RM 4.8, 13.11).
pub(crate) fn is_new_copy_in_fine(
    code: &Code,
    place: usize,
    record: usize,
    ty: Ty,
    at: usize,
) -> bool
    requires { place + 1 < 2 ^ 64 }
    ensures { IsTrue result ↔ IsFine code.now place (I.NewCopyIn «record» ty at) (stack_at code.now.kinds place) }
{
    is_scalar(ty)
        && operations_at(code, record).is_some()
        && code.kinds.has_numbers(place, ADDRESS_NUMBERS)
        && has(code, place, ADDRESS_NUMBERS, Kind::RecordValue)
        && code.kinds.height_at(place, ADDRESS_NUMBERS + 1) == at
        && leads_on(code, place, ADDRESS_NUMBERS + 1, Some(Kind::Operand(ty)))
}

/// Checks that an object is freed whose access value is in a variable (RM 13.11.2).
pub(crate) fn is_free_fine(
    code: &Code,
    place: usize,
    access: usize,
    out: usize,
    slot: usize,
) -> bool
    requires { place + 1 < 2 ^ 64 }
    ensures { IsTrue result ↔ IsFine code.now place (I.Free access out slot) (stack_at code.now.kinds place) }
{
    has_collection(code, place, access)
        && leads_on(code, place, 0, None)
        && leads_behind_next(code, place, 0, None)
        && code.kinds.has_slot(place, out, slot, &code.homes)
}

/// Checks that an object is freed whose access value is in a component: the part that has it stands on top (RM 13.11.2).
pub(crate) fn is_free_part_fine(code: &Code, place: usize, access: usize, record: usize) -> bool
    requires { place + 1 < 2 ^ 64 }
    ensures { (position : ℕ) → IsTrue result ↔ IsFine code.now place (I.FreePart access «record» position) (stack_at code.now.kinds place) }
{
    has_collection(code, place, access)
        && is_part(code, place, 0, record)
        && leads_on(code, place, 1, None)
        && leads_behind_next(code, place, 1, None)
}
