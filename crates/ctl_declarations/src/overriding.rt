//! What a subprogram is to the operations of a type (RM 3.2.3, 7.6, 8.3.1, 13.11).

ghost use Rattle.std.specs.Prelude.{◌≡◌, IfOk, slice_get};
ghost use Rattle.ctl_declarations.specs.Declarations as spec;
ghost use Rattle.ctl_draft.specs.Freezing as freezing;

use crate::headings::Heading;
use ctl_draft::draft::{Around, Draft, Role};
use ctl_draft::freezing::is_free_type;
use ctl_draft::operations::{operation_formals, provides};
use ctl_program::types::{Operations, Ty};
use ctl_resolve::library::operation_named;
use ctl_syntax::denoted::{Definition, OperationName, Use};
use ctl_syntax::item::{Indicator, Mode, Specification};
use ctl_tree::fault::FaultCode;
use ctl_tree::span::Span;
use ctl_typing::judging::is_same;
use ctl_typing::lookup::{is_limited, root_of};
use ctl_typing::table::{FormalEntry, RecordState, Tables};
use sqlite_items::Items;
use std::alloc::{AllocError, Global};

/// Tells whether both are one mode.
fn is_same_mode(a: Mode, b: Mode) -> bool
    ensures { result ≡ spec.same_mode a b }
{
    match (a, b) {
        (Mode::In, Mode::In) | (Mode::Out, Mode::Out) | (Mode::InOut, Mode::InOut) => true,
        _ => false,
    }
}

/// Tells whether formals have the same modes and types (RM 6.3.1).
pub fn has_same_formals(a: &[FormalEntry], b: &[FormalEntry]) -> bool
    ensures { result ≡ spec.same_formals a.now b.now }
{
    let mut left = a;
    let mut right = b;
    'formals: while let (Some((x, more)), Some((y, others))) = (
        left.split_first(),
        right.split_first(),
    ) {
        if !is_same_mode(x.mode, y.mode) || !is_same(x.ty, y.ty) {
            return false;
        }
        left = more;
        right = others;
    }
    left.is_empty() && right.is_empty()
}

/// Tells whether a record type is declared in a part of this level.
fn is_at_level(tables: &Tables, level: usize, number: usize) -> bool
    ensures { result ≡ spec.is_at_level level (slice_get tables.now.records number) }
{
    match sqlite_items::at(tables.records.as_slice(), number) {
        Some(entry) => entry.level == level,
        None => false,
    }
}

/// Tells whether a subprogram with these formals is an operation of a type of the same part (RM 3.2.3).
fn is_operation(
    alloc: Global,
    tables: &Tables,
    level: usize,
    operation: OperationName,
    number: usize,
    formals: &[FormalEntry],
) -> Result<bool, AllocError>
    ensures { IfOk result (λ is. is ≡ spec.is_operation tables.now level operation number formals.now) }
{
    let ty = Ty::Record(number);
    if !is_at_level(tables, level, number)
        || !provides(root_of(tables, number), is_limited(tables, ty), operation)
    {
        return Ok(false);
    }
    let expected = operation_formals(alloc, operation, ty)?;
    Ok(has_same_formals(formals, expected.as_slice()))
}

/// Answers what a subprogram that is called as an operation is, by its first formal's type.
fn overriding_first(
    alloc: Global,
    tables: &Tables,
    level: usize,
    operation: OperationName,
    formals: &[FormalEntry],
    ty: Ty,
) -> Result<Role, AllocError>
    ensures { IfOk result (λ role. role ≡ spec.overriding_first tables.now level operation formals.now ty) }
{
    let Ty::Record(number) = ty else {
        return Ok(Role::Misplaced);
    };
    if is_operation(alloc, tables, level, operation, number, formals)? {
        Ok(Role::Overrides(operation, number))
    } else {
        Ok(Role::Misplaced)
    }
}

/// Answers what a subprogram that is called as an operation is: no function is one (RM 7.6, 13.11).
fn overriding_by(
    alloc: Global,
    tables: &Tables,
    level: usize,
    operation: OperationName,
    formals: &[FormalEntry],
    result_type: Option<Ty>,
) -> Result<Role, AllocError>
    ensures { IfOk result (λ role. role ≡ spec.overriding_by tables.now level operation formals.now result_type) }
{
    match (formals.first(), result_type) {
        (Some(first), None) => {
            overriding_first(alloc, tables, level, operation, formals, first.ty)
        }
        _ => Ok(Role::Misplaced),
    }
}

/// Answers what a subprogram is to the operations of a type, by its name and its formals (RM 8.3.1).
fn role_by(
    alloc: Global,
    tables: &Tables,
    level: usize,
    indicator: Indicator,
    named: Option<OperationName>,
    formals: &[FormalEntry],
    result_type: Option<Ty>,
) -> Result<Role, AllocError>
    ensures { IfOk result (λ role. role ≡ spec.role_by tables.now level indicator named formals.now result_type) }
{
    match (named, indicator) {
        (Some(operation), _) => {
            overriding_by(alloc, tables, level, operation, formals, result_type)
        }
        (None, Indicator::Overriding) => Ok(Role::Misplaced),
        (None, Indicator::Absent) => Ok(Role::Plain),
    }
}

/// Answers what a subprogram that is declared is to the operations of a type; nothing is said of one whose heading is wrong (RM 8.3.1).
pub fn role_of(
    alloc: Global,
    around: Around,
    specification: &Specification<Definition, Use>,
    heading: &Option<Heading>,
    tables: &Tables,
) -> Result<Role, AllocError>
    ensures { IfOk result (λ role. role ≡ spec.role_of around specification.now heading.now tables.now) }
{
    match heading {
        None => Ok(Role::Plain),
        Some((formals, result_type)) => {
            let named = operation_named(specification.name.identifier.text.as_bytes());
            let formals = formals.as_slice();
            role_by(
                alloc,
                tables,
                around.level,
                specification.indicator,
                named,
                formals,
                *result_type,
            )
        }
    }
}

/// Tells whether a body says `overriding` of what is no operation.
fn is_unfounded(indicator: Indicator, named: Option<OperationName>) -> bool
    ensures { result ≡ spec.is_unfounded indicator named }
{
    match (indicator, named) {
        (Indicator::Overriding, None) => true,
        _ => false,
    }
}

/// Notes a body that says `overriding` and completes what is no operation (RM 8.3.1(4)).
pub fn keep_indicator(specification: &Specification<Definition, Use>, draft: &mut Draft)
    ensures { draft.new ≡ spec.indicator_kept specification.now draft.old }
{
    let named = operation_named(specification.name.identifier.text.as_bytes());
    let is_broken = is_unfounded(specification.indicator, named);
    draft.fault_when(
        is_broken,
        FaultCode::Override,
        specification.name.identifier.span,
    );
}

/// Answers operations of which this one is a subprogram of the text.
fn with_operation(operation: OperationName, subprogram: usize, operations: Operations) -> Operations
    ensures { result ≡ spec.with_operation operation subprogram operations }
{
    let written = Some(subprogram);
    match operation {
        OperationName::Initialize => Operations {
            initialize: written,
            ..operations
        },
        OperationName::Adjust => Operations {
            adjust: written,
            ..operations
        },
        OperationName::Finalize => Operations {
            finalize: written,
            ..operations
        },
        OperationName::Allocate => Operations {
            allocate: written,
            ..operations
        },
        OperationName::Deallocate => Operations {
            deallocate: written,
            ..operations
        },
    }
}

/// Notes that a type calls a subprogram from here on.
fn change_operation(
    records: &mut Items<RecordState>,
    operation: OperationName,
    number: usize,
    subprogram: usize,
)
    ensures { records.new ≡ freezing.changed (spec.overridden operation subprogram) number records.old }
{
    if let Some(&state) = records.get(number) {
        let mut state = state;
        state.operations = with_operation(operation, subprogram, state.operations);
        records.set(number, state);
    }
}

/// Overrides an operation of a type; once that is frozen, it is too late (RM 13.14(16)).
fn override_operation(
    place: Span,
    operation: OperationName,
    number: usize,
    subprogram: usize,
    draft: &mut Draft,
)
    ensures { draft.new ≡ spec.override place operation number subprogram draft.old }
{
    let is_free = is_free_type(&draft.tables.states, Ty::Record(number));
    change_operation(
        &mut draft.tables.states.records,
        operation,
        number,
        subprogram,
    );
    draft.early_when(!is_free, FaultCode::LatePrimitive, place);
}

/// Does what the role of a subprogram asks.
pub fn play(place: Span, subprogram: usize, role: Role, draft: &mut Draft)
    ensures { draft.new ≡ spec.play place subprogram role draft.old }
{
    match role {
        Role::Plain => {}
        Role::Misplaced => draft.fault_when(true, FaultCode::Override, place),
        Role::Overrides(operation, number) => {
            override_operation(place, operation, number, subprogram, draft)
        }
    }
}
