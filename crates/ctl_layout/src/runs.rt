//! Whether this version runs each construct of a checked program.

ghost use Rattle.std.specs.Prelude.{◌≡◌, ℕ, List, [], ◌∷◌, is_some, map, option_map, slice_get, IfOk, None, Some};
ghost use Rattle.ctl_program.specs.declared.types.RecordType.{RecordType};
ghost use Rattle.ctl_program.specs.declared.types.Var.{Var};
ghost use Rattle.ctl_layout.specs.Around.{among, deeper};
ghost use Rattle.ctl_layout.specs.Defaults as defaults;
ghost use Rattle.ctl_layout.specs.Layout as spec;
ghost use Rattle.ctl_layout.specs.Records as types;
ghost use Rattle.ctl_layout.specs.Parts as parts;
ghost use Rattle.ctl_layout.specs.Parts.{seen};
ghost use Rattle.ctl_layout.specs.Run as whole;
ghost use Rattle.ctl_layout.specs.Texts as texts;
ghost use Rattle.ctl_layout.specs.Values as values;
ghost use Rattle.ctl_layout.specs.Values.{denoted};

use crate::copies::goes_back;
use crate::forms::{Table, computed, is_number, is_run_type};
use crate::right::{Denoted, Reached, gives_record, reached_by, sourced};
use crate::typing::{copied_from, is_of, type_of, value_type};
use ctl_program::expression::{Actual, Expr, Name, Operand, Step};
use ctl_program::program::{Checked, Subprogram};
use ctl_program::statement::{Arm, Association, Choices, Handler, Item, Master, Piece, Stmt};
use ctl_program::types::{Component, RecordType, Ty};
use sqlite_items::Boxed;
use std::alloc::{AllocError, Global};

/// Tells whether this version runs each construct of a program.
pub fn is_run(alloc: Global, program: &Checked) -> Result<bool, AllocError>
    ensures { IfOk result (λ runs. runs ≡ whole.is_run program.now) }
{
    let table = Table::new(alloc, program.records.as_slice())?;
    if !are_defaults_run(&table, program.records.as_slice()) {
        return Ok(false);
    }
    bodies(&table, program.subprograms.as_slice())
}

/// Tells whether the default of a component is run, if it has one that is evaluated (RM 3.8).
fn is_default_run(table: &Table, component: &Component) -> bool
    ensures { result ≡ whole.is_default_run table.now.records.now component.now }
{
    match computed(component) {
        Some(default) => value(default, table),
        None => true,
    }
}

/// Tells whether those of these components are.
fn are_own_run(table: &Table, components: &[Component]) -> bool
    ensures { result ≡ whole.are_own_run table.now.records.now components.now }
{
    for component in components {
        if !is_default_run(table, component) {
            return false;
        }
    }
    true
}

/// Tells whether those of the components that each of these types adds are, also where no object has the type.
fn are_defaults_run(table: &Table, records: &[RecordType]) -> bool
    ensures { result ≡ whole.are_defaults_run table.now.records.now records.now }
{
    for entry in records {
        if !are_own_run(table, entry.own.as_slice()) {
            return false;
        }
    }
    true
}

/// Tells whether the bodies of these subprograms are run.
fn bodies(table: &Table, subprograms: &[Subprogram]) -> Result<bool, AllocError>
    ensures { IfOk result (λ runs. runs ≡ (spec.bodies 0 subprograms.now).runs (spec.outside table.now.records.now)) }
{
    for subprogram in subprograms {
        if !master(&subprogram.body, table, subprogram.level)? {
            return Ok(false);
        }
    }
    Ok(true)
}

/// Tells whether the record types of the selectors of a name are run (RM 4.1.3).
fn do_selectors_run(table: &Table, steps: &[Step]) -> bool
    ensures { result ≡ parts.selectors_run table.now.records.now steps.now }
{
    for step in steps {
        match step {
            Step::Component(record, _) if !table.is_laid(*record) => return false,
            _ => {}
        }
    }
    true
}

/// Tells whether what a name begins with is run: a variable, or a value (RM 4.1).
#[cycle(values)]
#[tactic(auto, using(crate::proofs::Layers::begun_variable, crate::proofs::Layers::begun_given))]
fn is_begun(name: &Name, table: &Table) -> bool
    ensures { result ≡ parts.is_begun (values.begun_by name.now) table.now.records.now }
{
    match name {
        Name::Variable(..) => true,
        Name::Given(given, _) => is_start(given.get(), table),
    }
}

/// Tells whether a value that a name begins with is run: that of a call of a record type, or an access value (RM 4.1).
#[cycle(values)]
#[tactic(auto, using(crate::proofs::Layers::start_runs))]
fn is_start(expression: &Expr, table: &Table) -> bool
    ensures { result ≡ parts.is_begun (values.given (values.value_code expression.now)) table.now.records.now }
{
    if gives_record(expression) {
        is_result(expression, table)
    } else {
        value(expression, table)
    }
}

/// Tells whether the call of a function that gives a record of this type is run, with these actuals (RM 6.4).
#[cycle(values)]
fn is_record_given(actuals: &[Actual], number: usize, table: &Table) -> bool
    ensures { result ≡ values.record_runs (map values.actual_code actuals.now) number table.now.records.now }
{
    table.is_plain(number) && (!goes_back(actuals) && are_actuals(actuals, table))
}

/// Tells whether the call of a function gives a record and is run, with these actuals and of this type (RM 6.4).
#[cycle(values)]
fn is_record_call(actuals: &[Actual], ty: Ty, table: &Table) -> bool
    ensures { (function : ℕ) → result ≡ parts.may_be_part (values.call_reached function (map values.actual_code actuals.now) ty) table.now.records.now }
{
    match ty {
        Ty::Record(number) => is_record_given(actuals, number, table),
        _ => false,
    }
}

/// Tells whether what a name begins with is run, with the record types of its selectors and the one of what they lead to (RM 4.1.3).
#[cycle(values)]
fn are_laid_out(name: &Name, steps: &[Step], number: usize, table: &Table) -> bool
    ensures { result ≡ parts.parts_run table.now.records.now (values.begun_by name.now) steps.now number }
{
    is_begun(name, table) && (do_selectors_run(table, steps) && table.is_laid(number))
}

/// Tells whether what a name begins with is run, with the record types of the selectors on the way to the object that these steps lead to
/// (RM 4.1).
#[cycle(values)]
fn is_object(name: &Name, steps: &[Step], table: &Table) -> bool
    ensures { result ≡ parts.part_runs (parts.Object (values.begun_by name.now) steps.now) table.now.records.now }
{
    is_begun(name, table) && do_selectors_run(table, steps)
}

/// Tells whether the value of a name is run: of a variable, of a component of what the steps of the name lead to, or of the object that they
/// lead to.
#[cycle(values)]
fn is_read(name: &Name, ty: Ty, table: &Table) -> bool
    ensures { result ≡ (values.read (values.reached_by name.now) ty).runs table.now.records.now }
{
    match reached_by(name) {
        Some(Reached::Variable(_)) => is_run_type(ty),
        Some(Reached::Part { steps, record, .. }) => {
            is_run_type(ty) && are_laid_out(name, steps, record, table)
        }
        Some(Reached::Object { steps }) => is_run_type(ty) && is_object(name, steps, table),
        None => false,
    }
}

/// Tells whether what a name denotes is run, as a part of an object.
#[cycle(values)]
fn is_part(name: &Name, reached: Option<Reached<'_>>, table: &Table) -> bool
    ensures { result ≡ parts.may_be_part (seen (values.begun_by name.now) reached.entry) table.now.records.now }
{
    match reached {
        Some(Reached::Variable(_)) => true,
        Some(Reached::Part { steps, record, .. }) => are_laid_out(name, steps, record, table),
        Some(Reached::Object { steps }) => is_object(name, steps, table),
        None => false,
    }
}

/// Tells the same of a name with what it denotes, or of a call.
fn may_be_part(part: Option<Denoted<'_>>, table: &Table) -> bool
    ensures { result ≡ parts.may_be_part (denoted part.entry) table.now.records.now }
{
    match part {
        Some(Denoted::Named { name, reached }) => is_part(name, Some(reached), table),
        Some(Denoted::Called(call)) => is_start(call, table),
        None => false,
    }
}

/// Tells whether the value of a record that a function gives is run (RM 6.4).
#[cycle(values)]
#[tactic(auto, using(crate::proofs::Layers::result_runs, crate::proofs::Layers::call_result_runs))]
fn is_result(expression: &Expr, table: &Table) -> bool
    ensures { result ≡ parts.may_be_part (values.result_of (values.value_code expression.now).reached) table.now.records.now }
{
    match expression {
        Expr::Call(_, actuals, ty) => is_record_call(actuals.as_slice(), *ty, table),
        _ => false,
    }
}

/// Tells whether a value is that of a part of a record type, or of a call that gives a record of it, which is run (RM 3.3.1).
#[cycle(values)]
#[tactic(auto, using(crate::proofs::Layers::copied_runs, crate::proofs::Layers::call_copied_runs))]
fn is_part_value(expression: &Expr, number: usize, table: &Table) -> bool
    ensures { result ≡ parts.may_be_part (values.copied number (values.value_code expression.now)) table.now.records.now }
{
    match expression {
        Expr::Read(name, ty) => is_part(name, copied_from(number, name, *ty), table),
        Expr::Call(_, actuals, ty) => {
            is_of(number, Some(*ty)) && is_record_call(actuals.as_slice(), *ty, table)
        }
        _ => false,
    }
}

/// Tells whether an object of a record type that is declared may take this value: that of a part of the type, or of a call (RM 3.3.1).
fn is_copied(table: &Table, number: usize, expression: &Expr) -> bool
    ensures { (slot : ℕ) → result ≡ (spec.copy slot number (values.copied number (values.value_code expression.now))).runs table.now.records.now }
{
    table.is_plain(number) && is_part_value(expression, number, table)
}

/// Tells whether one that is allocated may take this value: that of a part of the type, or of a call (RM 4.8).
#[cycle(values)]
fn is_copied_anew(expression: &Expr, number: usize, table: &Table) -> bool
    ensures { (access : ℕ) → result ≡ (values.new_copy access number (values.copied number (values.value_code expression.now))).runs table.now.records.now }
{
    table.is_plain(number) && is_part_value(expression, number, table)
}

/// Tells whether an allocator of an object with this value is run: with that of a part or of a call, where the object is of a record type
/// (RM 4.8).
#[cycle(values)]
fn is_given_anew(ty: Ty, expression: &Expr, table: &Table) -> bool
    ensures { (access : ℕ) → result ≡ (values.new access ty None (Some (values.value_code expression.now))).runs table.now.records.now }
{
    match ty {
        Ty::Record(number) => is_copied_anew(expression, number, table),
        _ => is_run_type(ty) && value(expression, table),
    }
}

/// Tells whether an allocator is run: of an object without a handle (RM 4.8).
#[cycle(values)]
fn is_allocated(
    ty: Ty,
    value: &Option<Boxed<Expr>>,
    handle: &Option<Boxed<Expr>>,
    table: &Table,
) -> bool
    ensures { (access : ℕ) → result ≡ (values.new access ty (option_map values.value_code handle.now) (option_map values.value_code value.now)).runs table.now.records.now }
{
    match (handle, value) {
        (None, None) => is_declared(table, ty),
        (None, Some(value)) => is_given_anew(ty, value.get(), table),
        (Some(_), _) => false,
    }
}

/// Tells whether an expression is run.
#[cycle(values)]
#[tactic(auto, using(crate::proofs::Layers::value_constant, crate::proofs::Layers::value_read, crate::proofs::Layers::call_runs, crate::proofs::Layers::value_unary, crate::proofs::Layers::chain_runs, crate::proofs::Layers::short_runs, crate::proofs::Layers::convert_runs, crate::proofs::Layers::value_access, crate::proofs::Layers::new_runs, crate::proofs::Layers::value_subpool, crate::proofs::Layers::value_discriminant))]
fn value(expression: &Expr, table: &Table) -> bool
    ensures { result ≡ (values.value_code expression.now).runs table.now.records.now }
{
    match expression {
        Expr::Constant(_) | Expr::Access(_) => true,
        Expr::Read(name, ty) => is_read(name, *ty, table),
        Expr::Unary(_, _, operand) => value(operand.get(), table),
        Expr::Chain(first, second, more) => {
            value(first.get(), table)
                && operand(second.get(), table)
                && operands(more.as_slice(), table)
        }
        Expr::Short(_, first, second, more) => {
            value(first.get(), table)
                && value(second.get(), table)
                && values(more.as_slice(), table)
        }
        Expr::Call(_, actuals, ty) => {
            is_run_type(*ty)
                && !goes_back(actuals.as_slice())
                && are_actuals(actuals.as_slice(), table)
        }
        Expr::New(_, ty, handle, value) => is_allocated(*ty, value, handle, table),
        Expr::Convert(ty, operand) => is_number(*ty) && value(operand.get(), table),
        Expr::Discriminant(name, _) => is_part(name, reached_by(name), table),
        Expr::Subpool(..) => false,
    }
}

/// Tells whether an actual is run: a scalar value or that of a record, a part that a name denotes, or a copy of a scalar value that may be
/// read (RM 6.4.1).
#[cycle(values)]
#[tactic(auto, using(crate::proofs::Layers::actual_value, crate::proofs::Layers::actual_part, crate::proofs::Layers::actual_copied))]
fn is_actual(actual: &Actual, table: &Table) -> bool
    ensures { result ≡ (values.actual_code actual.now).runs table.now.records.now }
{
    match actual {
        Actual::ByValue(expression, Ty::Record(number)) => {
            is_of(*number, type_of(expression)) && is_result(expression, table)
        }
        Actual::ByValue(expression, ty) => is_run_type(*ty) && value(expression, table),
        Actual::Part(name, Ty::Record(_)) => is_part(name, reached_by(name), table),
        Actual::Part(..) => false,
        Actual::Copied(name, ty, _) => is_read(name, *ty, table),
    }
}

/// Tells whether the actuals of a call are run (RM 6.4).
#[cycle(values)]
fn are_actuals(actuals: &[Actual], table: &Table) -> bool
    ensures { result ≡ values.actuals_run (map values.actual_code actuals.now) table.now.records.now }
{
    for one in actuals {
        if !is_actual(one, table) {
            return false;
        }
    }
    true
}

/// Tells whether the right operand of an operator is run.
#[cycle(values)]
#[tactic(auto, using(crate::proofs::Layers::operator_is))]
fn operand(operand: &Operand, table: &Table) -> bool
    ensures { result ≡ (values.operator_of operand.now).right.runs table.now.records.now }
{
    value(&operand.right, table)
}

/// Tells whether the right operands of operators are run.
#[cycle(values)]
fn operands(operands: &[Operand], table: &Table) -> bool
    ensures { result ≡ values.operators_run table.now.records.now (map values.operator_of operands.now) }
{
    for one in operands {
        if !operand(one, table) {
            return false;
        }
    }
    true
}

/// Tells whether operands of a short-circuit form are run.
#[cycle(values)]
fn values(operands: &[Expr], table: &Table) -> bool
    ensures { result ≡ values.values_run table.now.records.now (map values.value_code operands.now) }
{
    for one in operands {
        if !value(one, table) {
            return false;
        }
    }
    true
}

/// Tells whether a piece of a text is run.
fn piece(piece: &Piece, table: &Table) -> bool
    ensures { result ≡ texts.piece_is_run table.now.records.now piece.now }
{
    match piece {
        Piece::Text(_) => true,
        Piece::IntegerImage(expression) => value(expression, table),
        Piece::BooleanImage(expression) => value(expression, table),
    }
}

/// Tells whether a text is run.
fn pieces(pieces: &[Piece], table: &Table) -> bool
    ensures { result ≡ texts.pieces_are_run table.now.records.now pieces.now }
{
    for one in pieces {
        if !piece(one, table) {
            return false;
        }
    }
    true
}

/// Tells whether a part of the record type of this number takes the value of another one, inside so many masters (RM 5.2).
fn is_assignable(table: &Table, masters: usize, number: usize) -> bool
    ensures { result ≡ defaults.is_assignable (among table.now.records.now masters) number }
{
    match table.records.get(number) {
        Some(entry) => table.is_plain(number) && entry.level <= masters,
        None => false,
    }
}

/// Tells whether objects of a type are run.
fn is_declared(table: &Table, ty: Ty) -> bool
    ensures { result ≡ defaults.is_declared table.now.records.now ty }
{
    match ty {
        Ty::Record(number) => table.is_plain(number),
        _ => is_run_type(ty),
    }
}

/// Tells whether a declaration with this value is run, in each slot.
fn is_given(table: &Table, ty: Ty, expression: &Expr) -> bool
    ensures { (slot : ℕ) → result ≡ (spec.with_value slot ty (values.value_code expression.now)).runs table.now.records.now }
{
    match ty {
        Ty::Record(number) => is_copied(table, number, expression),
        _ => is_run_type(ty) && value(expression, table),
    }
}

/// Tells whether these are the positions of both discriminants of a block pool (RM 13.11).
fn are_both(first: usize, second: usize) -> bool
    ensures { result ≡ is_some (spec.order_of first second) }
{
    matches!((first, second), (0, 1) | (1, 0))
}

/// Tells whether the declaration of a pool is run: of a block pool, with a value for each of its discriminants (RM 13.11).
fn is_pool(table: &Table, number: usize, associations: &[Association]) -> bool
    ensures { (slot : ℕ) → result ≡ (spec.pool slot number (map spec.association associations.now)).runs table.now.records.now }
{
    match associations {
        [first, second] => {
            are_both(first.position, second.position)
                && table.is_pool(number)
                && value(&first.value, table)
                && value(&second.value, table)
        }
        _ => false,
    }
}

/// Tells whether an item is run.
fn item(table: &Table, item: &Item) -> bool
    ensures { result ≡ (spec.item_code item.now).runs table.now.records.now }
{
    match item {
        Item::Object(_, ty, None) => is_declared(table, *ty),
        Item::Object(_, ty, Some(expression)) => is_given(table, *ty, expression),
        Item::Collections(accesses) => !accesses.as_slice().is_empty(),
        Item::Silent => true,
        Item::Pool(_, number, associations) => is_pool(table, *number, associations.as_slice()),
    }
}

/// Tells whether items are run.
fn items(table: &Table, items: &[Item]) -> bool
    ensures { result ≡ (spec.all_items (map spec.item_code items.now)).runs table.now.records.now }
{
    for one in items {
        if !item(table, one) {
            return false;
        }
    }
    true
}

/// Tells whether an assignment is run, inside however many masters: to a variable, or to a component of what the steps of the name lead to.
fn is_assigned(name: &Name, expression: &Expr, table: &Table) -> bool
    ensures { (masters : ℕ) → result ≡ (spec.assign (values.reached_by name.now) (values.value_code expression.now)).runs (among table.now.records.now masters) }
{
    match reached_by(name) {
        Some(Reached::Variable(_)) => value(expression, table),
        Some(Reached::Part { steps, record, .. }) => {
            are_laid_out(name, steps, record, table) && value(expression, table)
        }
        Some(Reached::Object { steps }) => {
            is_object(name, steps, table) && value(expression, table)
        }
        None => false,
    }
}

/// Tells whether an assignment of a record is run, inside so many masters.
fn is_record_assigned(
    name: &Name,
    number: usize,
    value: &Actual,
    table: &Table,
    masters: usize,
) -> bool
    ensures { result ≡ (spec.assign_record (values.reached_by name.now) number (values.sourced value.now)).runs (among table.now.records.now masters) }
{
    is_part(name, reached_by(name), table)
        && (may_be_part(sourced(value), table) && is_assignable(table, masters, number))
}

/// Tells whether what is freed is run: what a variable designates, or a component of what the steps of the name lead to, or the object that
/// they lead to (RM 13.11.2).
fn is_freed(name: &Name, table: &Table) -> bool
    ensures { (access masters : ℕ) → result ≡ (spec.free access (values.reached_by name.now)).runs (among table.now.records.now masters) }
{
    match reached_by(name) {
        Some(Reached::Variable(_)) => true,
        Some(Reached::Part { steps, record, .. }) => are_laid_out(name, steps, record, table),
        Some(Reached::Object { steps }) => is_object(name, steps, table),
        None => false,
    }
}

/// Tells whether a call of the library's Initialize, Adjust or Finalize is run: of what a name denotes (RM 7.6).
fn is_nothing(name: &Name, table: &Table) -> bool
    ensures { (masters : ℕ) → result ≡ (spec.call_nothing (values.reached_by name.now)).runs (among table.now.records.now masters) }
{
    is_part(name, reached_by(name), table)
}

/// Tells whether a call of the library's Allocate is run: of a pool in a variable, whose address a variable takes, or a component of what the
/// steps of the name lead to, or the object that they lead to (RM 13.11).
fn is_taken(pool: &Name, address: &Name, size: &Expr, alignment: &Expr, table: &Table) -> bool
    ensures { (masters : ℕ) → result ≡ (spec.library_allocate (values.reached_by pool.now) (values.reached_by address.now) (values.value_code size.now) (values.value_code alignment.now)).runs (among table.now.records.now masters) }
{
    match (reached_by(pool), reached_by(address)) {
        (Some(Reached::Variable(_)), Some(Reached::Variable(_))) => {
            value(size, table) && value(alignment, table)
        }
        (Some(Reached::Variable(_)), Some(Reached::Part { steps, record, .. })) => {
            are_laid_out(address, steps, record, table)
                && value(size, table)
                && value(alignment, table)
        }
        (Some(Reached::Variable(_)), Some(Reached::Object { steps })) => {
            is_object(address, steps, table) && value(size, table) && value(alignment, table)
        }
        _ => false,
    }
}

/// Tells whether a call of the library's Deallocate is run: of a pool in a variable (RM 13.11).
fn is_given_back(pool: &Name, address: &Expr, size: &Expr, alignment: &Expr, table: &Table) -> bool
    ensures { (masters : ℕ) → result ≡ (spec.library_deallocate (values.reached_by pool.now) (values.value_code address.now) (values.value_code size.now) (values.value_code alignment.now)).runs (among table.now.records.now masters) }
{
    match reached_by(pool) {
        Some(Reached::Variable(_)) => {
            value(address, table) && value(size, table) && value(alignment, table)
        }
        _ => false,
    }
}

/// Tells whether the condition of an exit is run, if there is one.
fn is_exit(condition: &Option<Expr>, table: &Table) -> bool
    ensures { (masters : ℕ) → result ≡ (spec.exit (option_map values.value_code condition.now)).runs (among table.now.records.now masters) }
{
    match condition {
        Some(expression) => value(expression, table),
        None => true,
    }
}

/// Tells whether a return statement with this value is run: of a scalar type, or of a record type (RM 6.5).
fn is_returned(expression: &Expr, table: &Table) -> bool
    ensures { (masters : ℕ) → result ≡ (spec.return (Some (values.value_code expression.now))).runs (among table.now.records.now masters) }
{
    match value_type(expression) {
        Ty::Record(number) => table.is_plain(number) && is_part_value(expression, number, table),
        ty => is_run_type(ty) && value(expression, table),
    }
}

/// Tells whether a return statement is run: without a value, or with one (RM 6.5).
fn is_return(given: &Option<Expr>, table: &Table) -> bool
    ensures { (masters : ℕ) → result ≡ (spec.return (option_map values.value_code given.now)).runs (among table.now.records.now masters) }
{
    match given {
        Some(expression) => is_returned(expression, table),
        None => true,
    }
}

/// Tells whether a statement is run, inside so many masters.
#[cycle(statements)]
#[tactic(auto, unfolding(crate::specs::Layout::statement_code, crate::specs::Layout::master_code, crate::specs::Layout::arm_code))]
fn statement(statement: &Stmt, table: &Table, masters: usize) -> Result<bool, AllocError>
    ensures { IfOk result (λ runs. runs ≡ (spec.statement_code statement.now).runs (among table.now.records.now masters)) }
{
    match statement {
        Stmt::Null | Stmt::NewLine | Stmt::Raise(_) | Stmt::RaiseAgain => Ok(true),
        Stmt::Assign(name, expression) => Ok(is_assigned(name, expression, table)),
        Stmt::AssignRecord(name, number, value) => {
            Ok(is_record_assigned(name, *number, value, table, masters))
        }
        Stmt::Put(text) | Stmt::PutLine(text) => Ok(pieces(text.as_slice(), table)),
        Stmt::Exit(condition) => Ok(is_exit(condition, table)),
        Stmt::Return(value) => Ok(is_return(value, table)),
        Stmt::Call(_, actuals) => Ok(are_actuals(actuals.as_slice(), table)),
        Stmt::If(arms, otherwise) => Ok(
            conditional(arms.as_slice(), table, masters)?
                && statements(otherwise.as_slice(), table, masters)?,
        ),
        Stmt::Loop(body) => statements(body.as_slice(), table, masters),
        Stmt::While(test, body) => {
            Ok(value(test, table) && statements(body.as_slice(), table, masters)?)
        }
        Stmt::For(_, _, low, high, body) => Ok(
            value(low, table) && value(high, table) && statements(body.as_slice(), table, masters)?,
        ),
        Stmt::Block(inside) => master(inside.get(), table, masters),
        Stmt::Free(_, name) => Ok(is_freed(name, table)),
        Stmt::LibraryAllocate(pool, address, size, alignment) => {
            Ok(is_taken(pool, address, size, alignment, table))
        }
        Stmt::LibraryDeallocate(pool, address, size, alignment) => {
            Ok(is_given_back(pool, address, size, alignment, table))
        }
        Stmt::Nothing(name) => Ok(is_nothing(name, table)),
        Stmt::Dispatch(..) | Stmt::Release(_) => Ok(false),
    }
}

/// Tells whether statements are run, inside so many masters.
#[cycle(statements)]
fn statements(statements: &[Stmt], table: &Table, masters: usize) -> Result<bool, AllocError>
    ensures { IfOk result (λ runs. runs ≡ (spec.all (map spec.statement_code statements.now)).runs (among table.now.records.now masters)) }
{
    for one in statements {
        if !statement(one, table, masters)? {
            return Ok(false);
        }
    }
    Ok(true)
}

/// Tells whether an arm is run, inside so many masters.
#[cycle(statements)]
#[tactic(auto, unfolding(crate::specs::Layout::statement_code, crate::specs::Layout::arm_code))]
fn arm(arm: &Arm, table: &Table, masters: usize) -> Result<bool, AllocError>
    ensures { IfOk result (λ runs. runs ≡ spec.arms_run (spec.arm_code arm.now ∷ []) (among table.now.records.now masters)) }
{
    Ok(value(&arm.test, table) && statements(arm.body.as_slice(), table, masters)?)
}

/// Tells whether arms are run, inside so many masters.
#[cycle(statements)]
fn conditional(arms: &[Arm], table: &Table, masters: usize) -> Result<bool, AllocError>
    ensures { IfOk result (λ runs. runs ≡ spec.arms_run (map spec.arm_code arms.now) (among table.now.records.now masters)) }
{
    for one in arms {
        if !arm(one, table, masters)? {
            return Ok(false);
        }
    }
    Ok(true)
}

/// Tells whether a handler names an exception, or `others` (RM 11.2).
fn has_choice(choices: &Choices) -> bool
    ensures { result ≡ spec.has_choice choices.now }
{
    match choices {
        Choices::Others => true,
        Choices::Exceptions(exceptions) => !exceptions.as_slice().is_empty(),
    }
}

/// Tells whether a handler is run, inside so many masters.
#[cycle(statements)]
#[tactic(auto, unfolding(crate::specs::Layout::statement_code, crate::specs::Layout::handler_code))]
fn handler(handler: &Handler, table: &Table, masters: usize) -> Result<bool, AllocError>
    ensures { IfOk result (λ runs. runs ≡ spec.handlers_run (spec.handler_code handler.now ∷ []) (among table.now.records.now masters)) }
{
    Ok(has_choice(&handler.choices) && statements(handler.body.as_slice(), table, masters)?)
}

/// Tells whether handlers are run, inside so many masters.
#[cycle(statements)]
fn handlers(handlers: &[Handler], table: &Table, masters: usize) -> Result<bool, AllocError>
    ensures { IfOk result (λ runs. runs ≡ spec.handlers_run (map spec.handler_code handlers.now) (among table.now.records.now masters)) }
{
    for one in handlers {
        if !handler(one, table, masters)? {
            return Ok(false);
        }
    }
    Ok(true)
}

/// Tells whether a master is run, inside so many others: its items, its statements, and its handlers. One that cannot be counted wants
/// memory.
#[cycle(statements)]
#[tactic(auto, unfolding(crate::specs::Layout::statement_code, crate::specs::Layout::master_code, crate::specs::Layout::handler_code))]
fn master(inside: &Master, table: &Table, around: usize) -> Result<bool, AllocError>
    ensures { IfOk result (λ runs. runs ≡ (spec.master_code inside.now).inside.runs (deeper (among table.now.records.now around))) }
{
    let masters = around.checked_add(1).ok_or(AllocError)?;
    Ok(
        items(table, inside.items.as_slice())
            && statements(inside.body.as_slice(), table, masters)?
            && handlers(inside.handlers.as_slice(), table, masters)?,
    )
}
