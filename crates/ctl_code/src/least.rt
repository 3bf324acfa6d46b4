//! The least numbers of slots of the masters around declarations with which code is well formed, if there are such numbers: an instruction
//! asks that a master around its body has a slot, that the masters around a subprogram or a record type which it names stand around the body
//! with as many slots, or nothing; a record type asks that of its operations and of the types of its components (RM 6.1, 3.10.2).

ghost use Rattle.std.specs.Prelude.{◌≡◌, ◌<◌, ◌≤◌, ◌||◌, IfOk, length};
ghost use Rattle.ctl_code.specs.declared.code.Initial.TheVariants.{Computed};
ghost use Rattle.ctl_code.specs.Demands as spec;
ghost use Rattle.ctl_code.specs.Demands.{AreAround, AreFine, IsAround, IsFineAt, IsMet, with_counts};
ghost use Rattle.ctl_code.specs.Homes.{Raises};
ghost use Rattle.ctl_code.specs.Kinds.{stack_at};
ghost use Rattle.ctl_code.specs.Valid.{AreInitialsWithin, AreOperationsWithin, HasCollection, HasVariable, IsFine, IsInitialWithin, IsOperationWithin, IsValid, MayHaveVariable};
ghost use Rattle.ctl_code.specs.Windows.{Counts, HasHome, HasHomeOf, HasSlot, IsWithin, said, slots_at};

use crate::code::{Code, Initial, Instr, Layout};
use crate::homes::{Declaration, Homes};
use crate::kinds::MasterAt;
use crate::layouts::default_of;
use crate::tables::access_home;
use ctl_program::types::{Ty, Var};
use std::alloc::{AllocError, Global};

/// What an instruction asks of the masters around its body, or around the record type whose default it evaluates: that the one so many
/// further out has a slot, that the one of a variable has its slot, that those around a declaration stand there, that the collection of an
/// access type and its pool have their slots, or two of these.
#[derive(Clone, Copy)]
pub enum Demand {
    Nothing,
    Slot {
        out: usize,
        slot: usize,
    },
    Variable(Var),
    Home(Declaration),
    Collection(usize),
    Allocated {
        access: usize,
        of: Ty,
    },
    Freed {
        access: usize,
        out: usize,
        slot: usize,
    },
}

/// Tells whether one of both is true.
fn either(first: bool, second: bool) -> bool
    ensures { result ≡ (first || second) }
{
    first || second
}

// Masters around an instruction ----------------------------------------------------------------

/// Sees to it that the master so many further out has a slot, if it stands around the body; tells whether it had not.
fn keep_slot(
    code: &Code,
    homes: &mut Homes,
    place: usize,
    out: usize,
    slot: usize,
) -> Result<bool, AllocError>
    ensures { IfOk result (λ raised. Raises (λ counts. HasSlot counts (stack_at code.now.kinds place) out slot) homes.old homes.new raised) }
{
    let depth = code.kinds.depth_at(place);
    if out >= depth {
        return Ok(false);
    }
    let level = depth - 1 - out;
    match code.kinds.master_at(place, level) {
        MasterAt::Entered(_) => Ok(false),
        MasterAt::Around(outer) => {
            let slots = slot.checked_add(1).ok_or(AllocError)?;
            homes.raise(outer, level, slots)
        }
    }
}

/// Sees to it that the master at a level has as many slots as the one at that level around a declaration, if it stands around the body.
fn keep_level(
    code: &Code,
    homes: &mut Homes,
    place: usize,
    of: Declaration,
    level: usize,
) -> Result<bool, AllocError>
    ensures { IfOk result (λ raised. Raises (λ counts. said counts of level ≤ slots_at counts (stack_at code.now.kinds place) level) homes.old homes.new raised) }
{
    match code.kinds.master_at(place, level) {
        MasterAt::Entered(_) => Ok(false),
        MasterAt::Around(outer) => {
            let slots = homes.at(of, level);
            homes.raise(outer, level, slots)
        }
    }
}

/// Sees to it that the masters around a declaration stand around an instruction, as far as these stand around its body.
fn keep_home(
    code: &Code,
    homes: &mut Homes,
    place: usize,
    of: Declaration,
) -> Result<bool, AllocError>
    ensures { IfOk result (λ raised. Raises (λ counts. HasHome counts (stack_at code.now.kinds place) of) homes.old homes.new raised) }
{
    let mut raised = false;
    for level in 0..homes.levels(of) {
        let more = keep_level(code, homes, place, of, level)?;
        raised = either(raised, more);
    }
    Ok(raised)
}

/// Sees to it that the masters around the declaration of a type, if that is a record type, stand around an instruction, as far as these stand
/// around its body.
fn keep_home_of(code: &Code, homes: &mut Homes, place: usize, of: Ty) -> Result<bool, AllocError>
    ensures { IfOk result (λ raised. Raises (λ counts. HasHomeOf counts (stack_at code.now.kinds place) of) homes.old homes.new raised) }
{
    match of {
        Ty::Record(record) => keep_home(code, homes, place, Declaration::Record(record)),
        _ => Ok(false),
    }
}

/// Sees to it that the master of a variable has its slot, if it stands around the body.
fn keep_variable(
    code: &Code,
    homes: &mut Homes,
    place: usize,
    variable: Var,
) -> Result<bool, AllocError>
    ensures { IfOk result (λ raised. Raises (λ counts. HasVariable counts (stack_at code.now.kinds place) variable) homes.old homes.new raised) }
{
    let depth = code.kinds.depth_at(place);
    if variable.level == 0 || variable.level > depth {
        return Ok(false);
    }
    keep_slot(code, homes, place, depth - variable.level, variable.slot)
}

/// Sees to the same of a variable, if there is one.
fn may_keep_variable(
    code: &Code,
    homes: &mut Homes,
    place: usize,
    variable: Option<Var>,
) -> Result<bool, AllocError>
    ensures { IfOk result (λ raised. Raises (λ counts. MayHaveVariable counts (stack_at code.now.kinds place) variable) homes.old homes.new raised) }
{
    match variable {
        Some(variable) => keep_variable(code, homes, place, variable),
        None => Ok(false),
    }
}

/// Sees to it that the masters of the collection of an access type and of its pool have their slots (RM 3.10, 13.11).
fn keep_collection(
    code: &Code,
    homes: &mut Homes,
    place: usize,
    access: usize,
) -> Result<bool, AllocError>
    ensures { IfOk result (λ raised. Raises (λ counts. HasCollection (with_counts counts code.now) (stack_at code.now.kinds place) access) homes.old homes.new raised) }
{
    let Some(home) = access_home(code, access) else {
        return Ok(false);
    };
    let first = keep_variable(code, homes, place, home.collection)?;
    let second = may_keep_variable(code, homes, place, home.pool)?;
    Ok(either(first, second))
}

/// Answers what an instruction asks.
fn demand_of(instr: &Instr) -> Demand
    ensures { result ≡ spec.demand_of instr.now }
{
    match *instr {
        Instr::Call { procedure, .. } => Demand::Home(Declaration::Subprogram(procedure)),
        Instr::Evaluate { function, .. } | Instr::EvaluateRecord { function, .. } => {
            Demand::Home(Declaration::Subprogram(function))
        }
        Instr::Declare { record, .. }
        | Instr::DeclareCopy { record, .. }
        | Instr::DeclarePool { record, .. }
        | Instr::Assign { record } => Demand::Home(Declaration::Record(record)),
        Instr::New { access, of, .. } => Demand::Allocated { access, of },
        Instr::NewCopy { access, record, .. } => Demand::Allocated {
            access,
            of: Ty::Record(record),
        },
        Instr::Free { access, out, slot } => Demand::Freed { access, out, slot },
        Instr::FreePart { access, .. } => Demand::Collection(access),
        Instr::CopyBack { out, slot, .. }
        | Instr::TakeBlock { out, slot, .. }
        | Instr::Store { out, slot, .. } => Demand::Slot { out, slot },
        Instr::Fetch { variable, .. }
        | Instr::FetchPart { variable, .. }
        | Instr::Locate { variable, .. }
        | Instr::Designate { variable, .. } => Demand::Variable(variable),
        _ => Demand::Nothing,
    }
}

/// Sees to what is asked at a place.
fn keep(code: &Code, homes: &mut Homes, place: usize, demand: Demand) -> Result<bool, AllocError>
    ensures { IfOk result (λ raised. Raises (λ counts. IsMet (with_counts counts code.now) (stack_at code.now.kinds place) demand) homes.old homes.new raised) }
{
    match demand {
        Demand::Nothing => Ok(false),
        Demand::Slot { out, slot } => keep_slot(code, homes, place, out, slot),
        Demand::Variable(variable) => keep_variable(code, homes, place, variable),
        Demand::Home(of) => keep_home(code, homes, place, of),
        Demand::Collection(access) => keep_collection(code, homes, place, access),
        Demand::Allocated { access, of } => {
            let first = keep_collection(code, homes, place, access)?;
            let second = keep_home_of(code, homes, place, of)?;
            Ok(either(first, second))
        }
        Demand::Freed { access, out, slot } => {
            let first = keep_collection(code, homes, place, access)?;
            let second = keep_slot(code, homes, place, out, slot)?;
            Ok(either(first, second))
        }
    }
}

/// Answers the place of an instruction among so many, by its number from the first one on, or from the last one.
fn place_of(from_last: bool, count: usize, number: usize) -> usize
    requires { number < count }
    ensures { result ≡ spec.place_of from_last count number }
{
    if from_last {
        count - 1 - number
    } else {
        number
    }
}

/// Sees to what the instruction at a place asks.
fn keep_instruction(code: &Code, homes: &mut Homes, place: usize) -> Result<bool, AllocError>
    requires { place < length code.now.instructions.items }
    ensures { IfOk result (λ raised. Raises (λ counts. IsFineAt (with_counts counts code.now) place) homes.old homes.new raised) }
{
    keep(code, homes, place, demand_of(&code.instructions[place]))
}

/// Sees to what each instruction asks, from the first one on, or from the last one.
fn keep_instructions(code: &Code, homes: &mut Homes, from_last: bool) -> Result<bool, AllocError>
    ensures { IfOk result (λ raised. Raises (λ counts. AreFine (with_counts counts code.now)) homes.old homes.new raised) }
{
    let mut raised = false;
    let count = code.instructions.len();
    for number in 0..count {
        let more = keep_instruction(code, homes, place_of(from_last, count, number))?;
        raised = either(raised, more);
    }
    Ok(raised)
}

// Masters around record types ------------------------------------------------------------------

/// Sees to it that the masters around the one declaration stand around the other with as many slots.
fn keep_within(homes: &mut Homes, outer: Declaration, of: Declaration) -> Result<bool, AllocError>
    ensures { IfOk result (λ raised. Raises (λ counts. IsWithin counts outer of) homes.old homes.new raised) }
{
    let mut raised = false;
    for level in 0..homes.levels(of) {
        let slots = homes.at(of, level);
        let more = homes.raise(outer, level, slots)?;
        raised = either(raised, more);
    }
    Ok(raised)
}

/// Sees to it that the masters around an operation, if there is one, stand around the record type of a number (RM 7.6).
fn keep_operation(
    homes: &mut Homes,
    number: usize,
    operation: Option<usize>,
) -> Result<bool, AllocError>
    ensures { IfOk result (λ raised. Raises (λ counts. IsOperationWithin counts number operation) homes.old homes.new raised) }
{
    match operation {
        Some(operation) => keep_within(
            homes,
            Declaration::Record(number),
            Declaration::Subprogram(operation),
        ),
        None => Ok(false),
    }
}

/// Sees to it that the masters around each operation of the record type of a number stand around the type (RM 7.6, 13.11).
fn keep_operations(code: &Code, homes: &mut Homes, number: usize) -> Result<bool, AllocError>
    ensures { IfOk result (λ raised. Raises (λ counts. AreOperationsWithin (with_counts counts code.now) number) homes.old homes.new raised) }
{
    let Some(operations) = code.records.get(number) else {
        return Ok(false);
    };
    let first = keep_operation(homes, number, operations.initialize)?;
    let second = keep_operation(homes, number, operations.finalize)?;
    let third = keep_operation(homes, number, operations.adjust)?;
    let fourth = keep_operation(homes, number, operations.allocate)?;
    let fifth = keep_operation(homes, number, operations.deallocate)?;
    Ok(either(first, either(second, either(third, either(fourth, fifth)))))
}

/// Sees to it that the masters around the record type whose default is evaluated at a place, if any is, stand around the record type of a
/// number, which has the component by inheritance or declares it (RM 3.4, 3.8).
fn keep_default(
    code: &Code,
    homes: &mut Homes,
    number: usize,
    place: usize,
) -> Result<bool, AllocError>
    ensures { IfOk result (λ raised. Raises (λ counts. IsInitialWithin (with_counts counts code.now) number place Computed) homes.old homes.new raised) }
{
    match code.kinds.default_at(place) {
        Some(other) => keep_within(
            homes,
            Declaration::Record(number),
            Declaration::Record(other),
        ),
        None => Ok(false),
    }
}

/// Sees to it that the masters around the type of a component, if that is a record type, stand around the record type of a number; and those
/// around the type from which it has the default that is evaluated at a place.
fn keep_initial(
    code: &Code,
    homes: &mut Homes,
    number: usize,
    place: usize,
    initial: Initial,
) -> Result<bool, AllocError>
    ensures { IfOk result (λ raised. Raises (λ counts. IsInitialWithin (with_counts counts code.now) number place initial) homes.old homes.new raised) }
{
    match initial {
        Initial::Constant(_) => Ok(false),
        Initial::Computed => keep_default(code, homes, number, place),
        Initial::ByType(other) => keep_within(
            homes,
            Declaration::Record(number),
            Declaration::Record(other),
        ),
    }
}

/// Sees to it that the masters around the types of its components that begin with something stand around a record type.
fn keep_initials(
    code: &Code,
    homes: &mut Homes,
    number: usize,
    layout: &Layout,
) -> Result<bool, AllocError>
    ensures { IfOk result (λ raised. Raises (λ counts. AreInitialsWithin (with_counts counts code.now) number layout.now.begun.items) homes.old homes.new raised) }
{
    let mut raised = false;
    for component in &layout.begun {
        let place = default_of(code, number, component.position);
        let more = keep_initial(code, homes, number, place, component.initial)?;
        raised = either(raised, more);
    }
    Ok(raised)
}

/// Sees to what the record type of a number asks.
fn keep_layout(
    code: &Code,
    homes: &mut Homes,
    number: usize,
    layout: &Layout,
) -> Result<bool, AllocError>
    ensures { IfOk result (λ raised. Raises (λ counts. IsAround (with_counts counts code.now) number layout.now) homes.old homes.new raised) }
{
    let first = keep_operations(code, homes, number)?;
    let second = keep_initials(code, homes, number, layout)?;
    Ok(either(first, second))
}

/// Sees to what each record type asks.
fn keep_layouts(code: &Code, homes: &mut Homes) -> Result<bool, AllocError>
    ensures { IfOk result (λ raised. Raises (λ counts. AreAround (with_counts counts code.now)) homes.old homes.new raised) }
{
    let mut raised = false;
    for (number, layout) in code.layouts.iter().enumerate() {
        let more = keep_layout(code, homes, number, layout)?;
        raised = either(raised, more);
    }
    Ok(raised)
}

// Whole code -----------------------------------------------------------------------------------

/// Sees to all that is asked, once, from the first instruction on, or from the last one; tells whether something had to be raised.
fn keep_all(code: &Code, homes: &mut Homes, from_last: bool) -> Result<bool, AllocError>
    ensures { IfOk result (λ raised. Raises (λ counts. IsValid (with_counts counts code.now)) homes.old homes.new raised) }
{
    let first = keep_instructions(code, homes, from_last)?;
    let second = keep_layouts(code, homes)?;
    Ok(either(first, second))
}

/// Finds the least numbers of slots of the masters around declarations with which code is well formed, whatever it says of them itself.
///
/// Each round but the last raises one of them, so no memory has room for as many rounds as there are numbers. Rounds go forwards and backwards
/// by turns, since a body may be called before the one that it calls, or behind it.
pub fn least_homes(alloc: Global, code: &Code) -> Result<Homes, AllocError>
    ensures { IfOk result (λ homes. (most : Counts) → IsValid (with_counts most code.now) → IsValid (with_counts homes code.now)) }
{
    let mut homes = Homes::new(alloc);
    let mut from_last = false;
    for _ in 0..usize::MAX {
        if !keep_all(code, &mut homes, from_last)? {
            return Ok(homes);
        }
        from_last = !from_last;
    }
    Err(AllocError)
}
