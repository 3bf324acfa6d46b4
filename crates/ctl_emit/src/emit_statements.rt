//! The instructions of masters, items and statements.
//!
//! An exit statement leads to the landing of the innermost loop of its master, or out of the master: `landing` is the place of the one, or
//! None.

ghost use Rattle.std.specs.Prelude.{◌≡◌, ◌≤◌, ◌<◌, ◌+◌, ◌-◌, [], IfOk, drop, length, map, option_map, OnOk, None, Some};
ghost use Rattle.std.specs.Option.{ForSome};
ghost use Rattle.ctl_layout.specs.Parts as parts;
ghost use Rattle.ctl_emitter.specs.Emitted.{appended, first_end, further_arms, lined, open_arms, repeated, skipping, standing, stated, without_image, without_images};
ghost use Rattle.ctl_layout.specs.Values as values;
ghost use Rattle.ctl_layout.specs.Values.{begun_by, denoted};
ghost use Rattle.ctl_layout.specs.Texts as texts;
ghost use Rattle.ctl_layout.specs.Layout as spec;

use crate::emit_handlers::handled;
use crate::emit_storage::{fail_behind, library_allocate, library_deallocate};
use ctl_code::code::{DiscriminantOrder, Instr, Way};
use ctl_code::kinds::Kind;
use ctl_emitter::emit::Emitter;
use ctl_layout::copies::{ANY_TYPE, FIRST_POSITION};
use ctl_layout::right::{Denoted, Reached, denoted_by, reached_by, sourced};
use ctl_layout::typing::{copied, value_type};
use ctl_program::expression::{Actual, Expr, Name, Step};
use ctl_program::operators::Direction;
use ctl_program::program::Subprogram;
use ctl_program::statement::{Arm, Association, Item, Master, Piece, Stmt};
use ctl_program::types::{Ty, Var};
use std::alloc::AllocError;

/// Emits the body of the subprogram of a number, whose window begins with its slots.
pub fn body(emitter: &mut Emitter, number: usize, subprogram: &Subprogram) -> Result<(), AllocError>
    requires { emitter.old.notes.standing ≡ [] }
    ensures { OnOk result (emitter.new ≡ stated (spec.body_code number subprogram.now) None emitter.old) }
{
    let (level, slots) = (subprogram.level, subprogram.body.slots);
    emitter.enter(Kind::Body {
        level,
        slots,
        number,
    })?;
    master(emitter, &subprogram.body)?;
    emitter.leave();
    Ok(())
}

/// Emits a master's items, its statements with their handlers, and their end.
#[cycle(emit)]
pub(crate) fn master(emitter: &mut Emitter, master: &Master) -> Result<(), AllocError>
    ensures { OnOk result (emitter.new ≡ stated (spec.master_code master.now).inside None emitter.old) }
{
    items(emitter, master.items.as_slice())?;
    handled(emitter, master)?;
    emitter.put(Instr::Leave)
}

/// Emits the items of a declarative part.
fn items(emitter: &mut Emitter, items: &[Item]) -> Result<(), AllocError>
    ensures { OnOk result (emitter.new ≡ lined (spec.all_items (map spec.item_code items.now)).code emitter.old) }
{
    for one in items {
        item(emitter, one)?;
    }
    Ok(())
}

/// Emits an item of a declarative part.
fn item(emitter: &mut Emitter, item: &Item) -> Result<(), AllocError>
    ensures { OnOk result (emitter.new ≡ lined (spec.item_code item.now).code emitter.old) }
{
    match item {
        Item::Object(slot, ty, value) => object(emitter, *slot, *ty, value),
        Item::Silent => Ok(()),
        Item::Collections(accesses) => collections(emitter, accesses.as_slice()),
        Item::Pool(slot, record, associations) => {
            pool(emitter, *slot, *record, associations.as_slice())
        }
    }
}

/// Emits the collections of access types that are frozen at one place, of which there is at least one (RM 7.6.1, 13.14).
fn collections(emitter: &mut Emitter, accesses: &[usize]) -> Result<(), AllocError>
    ensures { OnOk result (emitter.new ≡ lined (spec.collections accesses.now).code emitter.old) }
{
    match accesses {
        [] => emitter.put(Instr::Missing),
        [..] => gathers(emitter, accesses),
    }
}

/// Emits the collections of access types, of which the last one makes all of them a layer (RM 7.6.1).
fn gathers(emitter: &mut Emitter, accesses: &[usize]) -> Result<(), AllocError>
    ensures { OnOk result (emitter.new ≡ lined (spec.gathers_code accesses.now 0) emitter.old) }
{
    for index in 0..accesses.len() {
        let access = accesses[index];
        let count = layer_of(accesses, index);
        emitter.put(Instr::Gather { access, count })?;
    }
    Ok(())
}

/// Emits the declaration of an object, with its value if it has one.
fn object(
    emitter: &mut Emitter,
    slot: usize,
    ty: Ty,
    value: &Option<Expr>,
) -> Result<(), AllocError>
    ensures { OnOk result (emitter.new ≡ lined (spec.object slot ty (option_map values.value_code value.now)).code emitter.old) }
{
    match value {
        None => declaration(emitter, slot, ty),
        Some(value) => with_value(emitter, slot, ty, value),
    }
}

/// Emits the declaration of an object with a value: of a record type, or of an elementary one.
fn with_value(emitter: &mut Emitter, slot: usize, ty: Ty, value: &Expr) -> Result<(), AllocError>
    ensures { OnOk result (emitter.new ≡ lined (spec.with_value slot ty (values.value_code value.now)).code emitter.old) }
{
    match ty {
        Ty::Record(record) => copy(emitter, slot, record, value),
        Ty::Integer | Ty::Count | Ty::Boolean | Ty::Address | Ty::Handle | Ty::Access(_) => {
            valued(emitter, slot, ty, value)
        }
    }
}

/// Emits the declaration of an object of a record type with the value of a part, which is found first, or of a call (RM 3.3.1).
fn copy(emitter: &mut Emitter, slot: usize, record: usize, value: &Expr) -> Result<(), AllocError>
    ensures { OnOk result (emitter.new ≡ lined (spec.copy slot «record» (values.copied «record» (values.value_code value.now))).code emitter.old) }
{
    let Some(part) = copied(record, value) else {
        return emitter.put(Instr::Missing);
    };
    emitter.source(part, record)?;
    emitter.over_operand(Ty::Record(record), Instr::DeclareCopy { slot, record })
}

/// Emits the declaration of an object without a value: of a record type, or an elementary one.
fn declaration(emitter: &mut Emitter, slot: usize, ty: Ty) -> Result<(), AllocError>
    ensures { OnOk result (emitter.new ≡ lined (spec.declaration slot ty) emitter.old) }
{
    match ty {
        Ty::Record(record) => emitter.put(Instr::Declare { slot, record }),
        Ty::Integer | Ty::Count | Ty::Boolean | Ty::Address | Ty::Handle | Ty::Access(_) => {
            let Some(to) = emitter.newest_cell(slot) else {
                return emitter.put(Instr::Missing);
            };
            let value = 0;
            emitter.put(Instr::Set { value, ty, to })?;
            emitter.put(Instr::Number)
        }
    }
}

/// Emits the declaration of an elementary variable with a value.
fn valued(emitter: &mut Emitter, slot: usize, ty: Ty, value: &Expr) -> Result<(), AllocError>
    ensures { OnOk result (emitter.new ≡ lined (spec.valued slot ty (values.value_code value.now)).code emitter.old) }
{
    let Some(to) = emitter.newest_cell(slot) else {
        return emitter.put(Instr::Missing);
    };
    emitter.expression(to, ty, value)?;
    emitter.put(Instr::Number)
}

/// Emits the declaration of a pool: of a block pool, with a value for each of its discriminants (RM 3.7.1, 13.11).
fn pool(
    emitter: &mut Emitter,
    slot: usize,
    record: usize,
    associations: &[Association],
) -> Result<(), AllocError>
    ensures { OnOk result (emitter.new ≡ lined (spec.pool slot «record» (map spec.association associations.now)).code emitter.old) }
{
    match associations {
        [first, second] => {
            let order = order_of(first.position, second.position);
            ordered_pool(emitter, slot, record, order, &first.value, &second.value)
        }
        _ => emitter.put(Instr::Missing),
    }
}

/// Emits the declaration of a block pool whose discriminants stand in this order, if they are both of them.
fn ordered_pool(
    emitter: &mut Emitter,
    slot: usize,
    record: usize,
    order: Option<DiscriminantOrder>,
    first: &Expr,
    second: &Expr,
) -> Result<(), AllocError>
    ensures { OnOk result (emitter.new ≡ lined (spec.ordered_pool slot «record» order (values.value_code first.now) (values.value_code second.now)).code emitter.old) }
{
    let Some(order) = order else {
        return emitter.put(Instr::Missing);
    };
    let at = emitter.height();
    discriminants(emitter, first, second)?;
    emitter.put(Instr::DeclarePool {
        slot,
        record,
        order,
        at,
    })?;
    emitter.leave();
    emitter.leave();
    Ok(())
}

/// Emits the discriminants of a block pool: two new operands.
fn discriminants(emitter: &mut Emitter, first: &Expr, second: &Expr) -> Result<(), AllocError>
    ensures { OnOk result (emitter.new ≡ appended (spec.discriminants_code (values.value_code first.now) (values.value_code second.now) emitter.old.notes.standing) [] (spec.with_discriminants emitter.old.notes.standing) emitter.old) }
{
    let _first = emitter.evaluated(Ty::Count, first)?;
    let _second = emitter.evaluated(Ty::Count, second)?;
    Ok(())
}

/// Emits statements, each in turn.
#[cycle(emit)]
pub(crate) fn statements(
    emitter: &mut Emitter,
    statements: &[Stmt],
    landing: Option<usize>,
) -> Result<(), AllocError>
    requires { ForSome landing (λ at. at ≤ length emitter.old.instructions) }
    ensures { OnOk result (emitter.new ≡ stated (spec.all (map spec.statement_code statements.now)) landing emitter.old) }
{
    for one in statements {
        statement(emitter, one, landing)?;
    }
    Ok(())
}

/// Emits a statement.
#[cycle(emit)]
fn statement(
    emitter: &mut Emitter,
    statement: &Stmt,
    landing: Option<usize>,
) -> Result<(), AllocError>
    requires { ForSome landing (λ at. at ≤ length emitter.old.instructions) }
    ensures { OnOk result (emitter.new ≡ stated (spec.statement_code statement.now) landing emitter.old) }
{
    match statement {
        Stmt::Null => Ok(()),
        Stmt::Assign(name, value) => assign(emitter, name, value),
        Stmt::AssignRecord(name, record, value) => assign_record(emitter, name, *record, value),
        Stmt::Put(pieces) => print(emitter, false, pieces.as_slice()),
        Stmt::PutLine(pieces) => print(emitter, true, pieces.as_slice()),
        Stmt::NewLine => emitter.put(Instr::NewLine),
        Stmt::Exit(condition) => exit(emitter, condition, landing),
        Stmt::Raise(exception) => emitter.put(Instr::Transfer(Way::Raise(*exception))),
        Stmt::RaiseAgain => emitter.put(Instr::RaiseAgain),
        Stmt::Return(value) => leave_body(emitter, value),
        Stmt::Call(procedure, actuals) => emitter.call(*procedure, actuals.as_slice()),
        Stmt::If(branches, others) => {
            let end = arms(emitter, branches.as_slice(), landing)?;
            statements(emitter, others.as_slice(), landing)?;
            skip_from(emitter, end);
            Ok(())
        }
        Stmt::Loop(body) => endless(emitter, body.as_slice()),
        Stmt::While(test, body) => while_loop(emitter, body.as_slice(), test),
        Stmt::For(parameter, way, low, high, body) => {
            for_loop(emitter, body.as_slice(), *parameter, *way, low, high)
        }
        Stmt::Block(master) => block(emitter, master.get(), landing),
        Stmt::Free(access, name) => free(emitter, *access, name),
        Stmt::LibraryAllocate(pool, address, size, alignment) => {
            library_allocate(emitter, pool, address, size, alignment)
        }
        Stmt::LibraryDeallocate(pool, address, size, alignment) => {
            library_deallocate(emitter, pool, address, size, alignment)
        }
        Stmt::Nothing(name) => call_nothing(emitter, name),
        Stmt::Dispatch(..) | Stmt::Release(_) => emitter.put(Instr::Missing),
    }
}

/// Emits the assignment of a value to what a name denotes (RM 5.2).
fn assign(emitter: &mut Emitter, name: &Name, value: &Expr) -> Result<(), AllocError>
    ensures { OnOk result (emitter.new ≡ stated (spec.assign (values.reached_by name.now) (values.value_code value.now)) None emitter.old) }
{
    match reached_by(name) {
        Some(Reached::Variable(variable)) => assign_variable(emitter, variable, value),
        Some(
            Reached::Part {
                steps,
                record,
                position,
            },
        ) => assign_component(emitter, name, steps, record, position, value),
        Some(Reached::Object { steps }) => {
            assign_component(emitter, name, steps, ANY_TYPE, FIRST_POSITION, value)
        }
        None => emitter.put(Instr::Missing),
    }
}

/// Emits the value of a component over the part that has it, a new operand of this record type, and what gives it to the component.
fn store_part(
    emitter: &mut Emitter,
    record: usize,
    position: usize,
    value: &Expr,
) -> Result<(), AllocError>
    ensures { OnOk result (emitter.new ≡ lined (spec.store_part_code «record» position (values.value_code value.now)) emitter.old) }
{
    let ty = value_type(value);
    emitter.enter(Kind::Operand(Ty::Record(record)))?;
    let from = emitter.held(ty, value)?;
    emitter.take(
        Instr::StorePart {
            from,
            ty,
            record,
            position,
        },
        from,
    )?;
    emitter.leave();
    Ok(())
}

/// Emits the assignment of a value to a component: the part that has it comes before the value (RM 5.2).
fn assign_component(
    emitter: &mut Emitter,
    of: &Name,
    steps: &[Step],
    record: usize,
    position: usize,
    value: &Expr,
) -> Result<(), AllocError>
    ensures { OnOk result (emitter.new ≡ stated (spec.assign (Some (parts.Part (begun_by of.now) steps.now «record» position)) (values.value_code value.now)) None emitter.old) }
{
    emitter.located(of, steps, record)?;
    store_part(emitter, record, position, value)
}

/// Emits the assignment of a value to a variable.
fn assign_variable(emitter: &mut Emitter, variable: Var, value: &Expr) -> Result<(), AllocError>
    ensures { OnOk result (emitter.new ≡ stated (spec.assign (Some (parts.Variable variable)) (values.value_code value.now)) None emitter.old) }
{
    let ty = value_type(value);
    match emitter.local_cell(variable) {
        Some(to) => emitter.expression(to, ty, value),
        None => {
            let (out, slot) = (emitter.out_to(variable), variable.slot);
            let from = emitter.held(ty, value)?;
            emitter.take(
                Instr::Store {
                    from,
                    ty,
                    out,
                    slot,
                },
                from,
            )
        }
    }
}

/// Emits a call of an instance of Unchecked_Deallocation for an access type: what the value of a variable or a component designates is
/// freed (RM 13.11.2).
fn free(emitter: &mut Emitter, access: usize, name: &Name) -> Result<(), AllocError>
    ensures { OnOk result (emitter.new ≡ stated (spec.free access (values.reached_by name.now)) None emitter.old) }
{
    match reached_by(name) {
        Some(Reached::Variable(variable)) => free_variable(emitter, access, variable),
        Some(
            Reached::Part {
                steps,
                record,
                position,
            },
        ) => free_component(emitter, access, name, steps, record, position),
        Some(Reached::Object { steps }) => {
            free_component(emitter, access, name, steps, ANY_TYPE, FIRST_POSITION)
        }
        None => emitter.put(Instr::Missing),
    }
}

/// Emits such a call for the value of a variable.
fn free_variable(emitter: &mut Emitter, access: usize, variable: Var) -> Result<(), AllocError>
    ensures { OnOk result (emitter.new ≡ stated (spec.free access (Some (parts.Variable variable))) None emitter.old) }
{
    let (out, slot) = (emitter.out_to(variable), variable.slot);
    emitter.put(Instr::Free { access, out, slot })?;
    fail_behind(emitter)
}

/// Emits such a call for the value of a component: the part that has it is found first.
fn free_component(
    emitter: &mut Emitter,
    access: usize,
    of: &Name,
    steps: &[Step],
    record: usize,
    position: usize,
) -> Result<(), AllocError>
    ensures { OnOk result (emitter.new ≡ stated (spec.free access (Some (parts.Part (begun_by of.now) steps.now «record» position))) None emitter.old) }
{
    emitter.located(of, steps, record)?;
    emitter.over_operand(
        Ty::Record(record),
        Instr::FreePart {
            access,
            record,
            position,
        },
    )?;
    fail_behind(emitter)
}

/// Emits the assignment of a record to what a name denotes (RM 5.2).
fn assign_record(
    emitter: &mut Emitter,
    name: &Name,
    record: usize,
    value: &Actual,
) -> Result<(), AllocError>
    ensures { OnOk result (emitter.new ≡ stated (spec.assign_record (values.reached_by name.now) «record» (values.sourced value.now)) None emitter.old) }
{
    match (denoted_by(name), sourced(value)) {
        (Some(target), Some(source)) => overwrite(emitter, target, record, source),
        (None, _) | (_, None) => emitter.put(Instr::Missing),
    }
}

/// Emits the assignment of one part to another: the target is found before the source (RM 5.2).
fn overwrite(
    emitter: &mut Emitter,
    target: Denoted<'_>,
    record: usize,
    source: Denoted<'_>,
) -> Result<(), AllocError>
    ensures { OnOk result (emitter.new ≡ stated (spec.assign_record (denoted (Some target.entry)) «record» (denoted (Some source.entry))) None emitter.old) }
{
    emitter.source(target, record)?;
    emitter.enter(Kind::Operand(Ty::Record(record)))?;
    emitter.source(source, record)?;
    emitter.over_operand(Ty::Record(record), Instr::Assign { record })?;
    emitter.leave();
    Ok(())
}

/// Emits a call of the library's Initialize, Adjust or Finalize: what a name denotes is found, and nothing is done with it (RM 7.6).
fn call_nothing(emitter: &mut Emitter, name: &Name) -> Result<(), AllocError>
    ensures { OnOk result (emitter.new ≡ stated (spec.call_nothing (values.reached_by name.now)) None emitter.old) }
{
    match denoted_by(name) {
        Some(part) => drop_part(emitter, part),
        None => emitter.put(Instr::Missing),
    }
}

/// Emits such a call for what is run.
fn drop_part(emitter: &mut Emitter, part: Denoted<'_>) -> Result<(), AllocError>
    ensures { OnOk result (emitter.new ≡ stated (spec.call_nothing (denoted (Some part.entry))) None emitter.old) }
{
    emitter.source(part, ANY_TYPE)?;
    emitter.over_operand(Ty::Record(ANY_TYPE), Instr::DropPart { record: ANY_TYPE })
}

/// Adds what an exit statement is.
fn exit_to(emitter: &mut Emitter, landing: Option<usize>) -> Result<(), AllocError>
    ensures { OnOk result (emitter.new ≡ stated spec.departure landing emitter.old) }
{
    match landing {
        Some(landing) => {
            let back = emitter.since(landing);
            emitter.put(Instr::Back(back))
        }
        None => emitter.put(Instr::Transfer(Way::Exit)),
    }
}

/// Emits an exit statement.
fn exit(
    emitter: &mut Emitter,
    condition: &Option<Expr>,
    landing: Option<usize>,
) -> Result<(), AllocError>
    requires { ForSome landing (λ at. at ≤ length emitter.old.instructions) }
    ensures { OnOk result (emitter.new ≡ stated (spec.exit (option_map values.value_code condition.now)) landing emitter.old) }
{
    match condition {
        None => exit_to(emitter, landing),
        Some(test) => {
            let (from, length) = (emitter.held(Ty::Boolean, test)?, 1);
            emitter.take(Instr::Unless { from, length }, from)?;
            exit_to(emitter, landing)
        }
    }
}

/// Emits a return statement (RM 6.5).
fn leave_body(emitter: &mut Emitter, value: &Option<Expr>) -> Result<(), AllocError>
    ensures { OnOk result (emitter.new ≡ stated (spec.return (option_map values.value_code value.now)) None emitter.old) }
{
    match value {
        None => emitter.put(Instr::Transfer(Way::Return)),
        Some(value) => leave_with(emitter, value_type(value), value),
    }
}

/// Emits a return statement with a value of this type: of a record type, or of an elementary one.
fn leave_with(emitter: &mut Emitter, ty: Ty, value: &Expr) -> Result<(), AllocError>
    ensures { OnOk result (emitter.new ≡ stated (spec.return_of ty (values.value_code value.now)) None emitter.old) }
{
    match ty {
        Ty::Record(record) => return_record(emitter, record, value),
        Ty::Integer | Ty::Count | Ty::Boolean | Ty::Address | Ty::Handle | Ty::Access(_) => {
            return_value(emitter, ty, value)
        }
    }
}

/// Emits a return statement with a value of this elementary type.
fn return_value(emitter: &mut Emitter, ty: Ty, value: &Expr) -> Result<(), AllocError>
    ensures { OnOk result (emitter.new ≡ lined (λ s. spec.return_held ty (values.held (values.value_code value.now) ty s)) emitter.old) }
{
    let from = emitter.held(ty, value)?;
    emitter.take(Instr::Return { from, ty }, from)
}

/// Emits a return statement with the value of a part of a record type, which is found first, or of a call.
fn return_record(emitter: &mut Emitter, record: usize, value: &Expr) -> Result<(), AllocError>
    ensures { OnOk result (emitter.new ≡ stated (spec.return_record «record» (values.copied «record» (values.value_code value.now))) None emitter.old) }
{
    let Some(part) = copied(record, value) else {
        return emitter.put(Instr::Missing);
    };
    emitter.source(part, record)?;
    emitter.over_operand(Ty::Record(record), Instr::ReturnRecord { record })
}

/// Emits the arms of an `if`. Gives where the end of the first one stands, which does not skip the rest yet.
#[cycle(emit)]
fn arms(
    emitter: &mut Emitter,
    arms: &[Arm],
    landing: Option<usize>,
) -> Result<Option<usize>, AllocError>
    requires { ForSome landing (λ at. at ≤ length emitter.old.instructions) }
    ensures emitted { OnOk result (emitter.new ≡ stated (open_arms (map spec.arm_code arms.now)) landing emitter.old) }
    ensures end { IfOk result (λ end. end ≡ first_end landing (map spec.arm_code arms.now) emitter.old) }
    ensures landing { OnOk result (ForSome landing (λ at. at ≤ length emitter.new.instructions)) }
{
    match arms {
        [] => Ok(None),
        [first, more @ ..] => {
            tested(emitter, first.body.as_slice(), &first.test, landing)?;
            let end = emitter.place();
            emitter.put(Instr::Skip(0))?;
            further_arms(emitter, more, end, landing)?;
            Ok(Some(end))
        }
    }
}

/// Has the end of the first arm skip all that follows it.
fn skip_from(emitter: &mut Emitter, end: Option<usize>)
    ensures { emitter.new ≡ skipping end emitter.old }
{
    if let Some(end) = end {
        let length = emitter.behind(end);
        emitter.set(end, Instr::Skip(length));
    }
}

/// Emits further arms, whose ends lead back to the end of the first one.
#[cycle(emit)]
fn further_arms(
    emitter: &mut Emitter,
    arms: &[Arm],
    end: usize,
    landing: Option<usize>,
) -> Result<(), AllocError>
    requires landing { ForSome landing (λ at. at ≤ length emitter.old.instructions) }
    requires end { end ≤ length emitter.old.instructions }
    ensures { OnOk result (emitter.new ≡ stated (further_arms (length emitter.old.instructions - end) (map spec.arm_code arms.now)) landing emitter.old) }
{
    for arm in arms {
        tested(emitter, arm.body.as_slice(), &arm.test, landing)?;
        let back = emitter.since(end);
        emitter.put(Instr::Back(back))?;
    }
    Ok(())
}

/// Emits statements under a condition, where it does not hold they and one more instruction are passed over.
#[cycle(emit)]
fn tested(
    emitter: &mut Emitter,
    body: &[Stmt],
    test: &Expr,
    landing: Option<usize>,
) -> Result<(), AllocError>
    requires { ForSome landing (λ at. at ≤ length emitter.old.instructions) }
    ensures { OnOk result (emitter.new ≡ stated (spec.tested (values.value_code test.now) (spec.all (map spec.statement_code body.now))) landing emitter.old) }
{
    let (from, length) = (emitter.held(Ty::Boolean, test)?, 0);
    let head = emitter.place();
    emitter.take(Instr::Unless { from, length }, from)?;
    statements(emitter, body, landing)?;
    let length = emitter.since(head);
    emitter.set(head, Instr::Unless { from, length });
    Ok(())
}

/// Emits a loop without an iteration scheme.
#[cycle(emit)]
fn endless(emitter: &mut Emitter, body: &[Stmt]) -> Result<(), AllocError>
    ensures { OnOk result (emitter.new ≡ stated (spec.loop (spec.all (map spec.statement_code body.now))) None emitter.old) }
{
    emitter.put(Instr::Skip(1))?;
    let landing = emitter.place();
    emitter.put(Instr::Skip(0))?;
    statements(emitter, body, Some(landing))?;
    repeat(emitter, landing)
}

/// Emits a loop whose turns stand under a condition.
#[cycle(emit)]
fn while_loop(emitter: &mut Emitter, body: &[Stmt], test: &Expr) -> Result<(), AllocError>
    ensures { OnOk result (emitter.new ≡ stated (spec.while (values.value_code test.now) (spec.all (map spec.statement_code body.now))) None emitter.old) }
{
    emitter.put(Instr::Skip(1))?;
    let landing = emitter.place();
    emitter.put(Instr::Skip(0))?;
    tested(emitter, body, test, Some(landing))?;
    repeat(emitter, landing)
}

/// Emits the end of a loop with this landing, behind which its turns begin.
fn repeat(emitter: &mut Emitter, landing: usize) -> Result<(), AllocError>
    ensures { OnOk result (emitter.new ≡ repeated landing emitter.old) }
{
    let length = emitter.behind(landing);
    emitter.put(Instr::Back(length))?;
    let length = emitter.behind(landing);
    emitter.set(landing, Instr::Skip(length));
    Ok(())
}

/// Emits the bounds of a loop with a parameter: two new operands.
fn bounds(emitter: &mut Emitter, low: &Expr, high: &Expr) -> Result<(), AllocError>
    ensures { OnOk result (emitter.new ≡ appended (spec.bounds_code (values.value_code low.now) (values.value_code high.now) emitter.old.notes.standing) [] (spec.with_bounds emitter.old.notes.standing) emitter.old) }
{
    let _low = emitter.evaluated(Ty::Integer, low)?;
    let _high = emitter.evaluated(Ty::Integer, high)?;
    Ok(())
}

/// Emits a loop with a parameter.
#[cycle(emit)]
fn for_loop(
    emitter: &mut Emitter,
    body: &[Stmt],
    parameter: Var,
    way: Direction,
    low: &Expr,
    high: &Expr,
) -> Result<(), AllocError>
    ensures { OnOk result (emitter.new ≡ stated (spec.for parameter way (values.value_code low.now) (values.value_code high.now) (spec.all (map spec.statement_code body.now))) None emitter.old) }
{
    let at = emitter.newest_at(parameter);
    let base = emitter.height();
    bounds(emitter, low, high)?;
    let head = emitter.place();
    emitter.put(Instr::Missing)?;
    let landing = emitter.place();
    emitter.put(Instr::Abandon(0))?;
    statements(emitter, body, Some(landing))?;
    let length = emitter.behind(landing);
    emitter.put(next_of(at, base, parameter, way, length))?;
    let length = emitter.behind(landing);
    emitter.set(landing, Instr::Abandon(length));
    let length = emitter.behind(head);
    emitter.set(head, for_of(at, base, parameter, way, length));
    emitter.leave();
    emitter.leave();
    Ok(())
}

/// Emits a block: its entry says how long it is, which is known at its end; behind it stands what an exit statement out of it leads to.
#[cycle(emit)]
fn block(emitter: &mut Emitter, inside: &Master, landing: Option<usize>) -> Result<(), AllocError>
    requires { ForSome landing (λ at. at ≤ length emitter.old.instructions) }
    ensures { OnOk result (emitter.new ≡ stated (spec.block (spec.master_code inside.now)) landing emitter.old) }
{
    let (slots, length) = (inside.slots, 0);
    let head = emitter.place();
    emitter.put(Instr::Enter { slots, length })?;
    emitter.enter(Kind::Block(slots))?;
    master(emitter, inside)?;
    emitter.leave();
    let length = emitter.behind(head);
    emitter.set(head, Instr::Enter { slots, length });
    exit_to(emitter, landing)
}

/// Prints a text, and ends the line where that is asked.
fn print(emitter: &mut Emitter, ends_line: bool, pieces: &[Piece]) -> Result<(), AllocError>
    ensures { OnOk result (emitter.new ≡ stated (spec.print ends_line pieces.now) None emitter.old) }
{
    let first = emitter.height();
    emitter.pieces(pieces)?;
    let number = emitter.text(pieces)?;
    emitter.put(print_of(ends_line, number, first))?;
    leave_images(emitter, pieces);
    Ok(())
}

/// Takes the values of images off.
fn leave_images(emitter: &mut Emitter, pieces: &[Piece])
    ensures { emitter.new ≡ standing (without_images pieces.now emitter.old.notes.standing) emitter.old }
{
    for piece in pieces {
        leave_image(emitter, piece);
    }
}

/// Takes the value of a piece off, if it is an image.
#[tactic(auto, unfolding(ctl_emitter::specs::Emitted::standing))]
fn leave_image(emitter: &mut Emitter, piece: &Piece)
    ensures { emitter.new ≡ standing (without_image piece.now emitter.old.notes.standing) emitter.old }
{
    match piece {
        Piece::Text(_) => {}
        Piece::IntegerImage(_) | Piece::BooleanImage(_) => emitter.leave(),
    }
}

/// Answers in which order the discriminants of a block pool stand that have these positions, if they are both of them (RM 13.11).
fn order_of(first: usize, second: usize) -> Option<DiscriminantOrder>
    ensures { result ≡ spec.order_of first second }
{
    match (first, second) {
        (0, 1) => Some(DiscriminantOrder::SizeFirst),
        (1, 0) => Some(DiscriminantOrder::CountFirst),
        _ => None,
    }
}

/// Gives the instruction that enters a loop with a parameter, which has this cell.
fn for_of(at: Option<usize>, low: usize, parameter: Var, way: Direction, length: usize) -> Instr
    ensures { result ≡ spec.for_of at low parameter way length }
{
    let slot = parameter.slot;
    match at {
        Some(parameter) => Instr::For {
            low,
            slot,
            parameter,
            way,
            length,
        },
        None => Instr::Missing,
    }
}

/// Gives the instruction that begins its next turn.
fn next_of(at: Option<usize>, low: usize, parameter: Var, way: Direction, length: usize) -> Instr
    ensures { result ≡ spec.next_of at low parameter way length }
{
    let slot = parameter.slot;
    match at {
        Some(parameter) => Instr::Next {
            low,
            slot,
            parameter,
            way,
            length,
        },
        None => Instr::Missing,
    }
}

/// Gives the instruction that prints the text of this number, whose first image is in this cell, and ends the line where that is asked.
fn print_of(ends_line: bool, text: usize, first: usize) -> Instr
    ensures { result ≡ texts.print_of ends_line text first }
{
    if ends_line {
        Instr::PutLine { text, first }
    } else {
        Instr::Put { text, first }
    }
}

/// Answers how many collections are a layer behind that of the access type at this index: all of them, behind the last one (RM 7.6.1).
fn layer_of(accesses: &[usize], index: usize) -> usize
    requires { index < length accesses.now }
    ensures { result ≡ spec.layer_of (drop (index + 1) accesses.now) (index + 1) }
{
    if index + 1 == accesses.len() {
        index + 1
    } else {
        0
    }
}
