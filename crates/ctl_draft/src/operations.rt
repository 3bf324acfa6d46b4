//! The operations that types have and may override (RM 7.6, 13.11).

ghost use Rattle.std.specs.Prelude.{◌≡◌, IfOk, None};
ghost use Rattle.ctl_draft.specs.Operations as spec;

use ctl_program::types::{Operations, Root, Ty};
use ctl_syntax::denoted::OperationName;
use ctl_syntax::item::Mode;
use ctl_typing::table::FormalEntry;
use sqlite_items::Items;
use std::alloc::{AllocError, Global};

/// Tells whether a type that descends from this root has an operation (RM 7.6, 13.11).
pub fn provides(root: Root, is_limited: bool, operation: OperationName) -> bool
    ensures { result ≡ spec.provides root is_limited operation }
{
    match (root, operation) {
        (Root::Untagged, _) => false,
        (_, OperationName::Initialize | OperationName::Finalize) => true,
        (Root::Controlled, OperationName::Adjust) => !is_limited,
        (Root::BlockPool, OperationName::Allocate | OperationName::Deallocate) => true,
        _ => false,
    }
}

/// Makes a formal of a mode and a type.
pub fn formal(mode: Mode, ty: Ty) -> FormalEntry
    ensures { result ≡ spec.formal mode ty }
{
    FormalEntry { mode, ty }
}

/// Answers the formals of an operation of a type (RM 7.6, 13.11).
pub fn operation_formals(
    alloc: Global,
    operation: OperationName,
    ty: Ty,
) -> Result<Items<FormalEntry>, AllocError>
    ensures { IfOk result (λ formals. formals ≡ spec.operation_formals operation ty) }
{
    let mut formals = Items::new(alloc);
    formals.push(formal(Mode::InOut, ty))?;
    match operation {
        OperationName::Allocate => formals.push(formal(Mode::Out, Ty::Address))?,
        OperationName::Deallocate => formals.push(formal(Mode::In, Ty::Address))?,
        _ => return Ok(formals),
    }
    formals.push(formal(Mode::In, Ty::Count))?;
    formals.push(formal(Mode::In, Ty::Count))?;
    Ok(formals)
}

/// Answers that no operation is the user's.
pub fn no_operations() -> Operations
    ensures { result ≡ spec.operations_of None }
{
    Operations {
        initialize: None,
        adjust: None,
        finalize: None,
        allocate: None,
        deallocate: None,
    }
}
