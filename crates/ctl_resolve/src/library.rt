//! The library units that a program may name (RM 10.1.1), and what they and Standard declare (RM A.1, A.10, 7.6, 13.7, 13.11).

ghost use Rattle.std.specs.Prelude.{◌≡◌};
ghost use Rattle.ctl_resolve.specs.Library as spec;

use ctl_grammar::spelling::is_same_name;
use ctl_syntax::denoted::{LibraryName, OperationName};

/// A library unit, or the parent of one.
#[derive(Clone, Copy)]
pub enum Unit {
    Ada,
    /// Ada.Text_IO (RM A.10.1)
    TextIo,
    /// Ada.Finalization (RM 7.6)
    Finalization,
    /// Ada.Unchecked_Deallocation (RM 13.11.2)
    UncheckedDeallocation,
    /// Ada.Unchecked_Deallocate_Subpool (RM 13.11.5)
    UncheckedDeallocateSubpool,
    System,
    /// System.Storage_Elements (RM 13.7.1)
    StorageElements,
    /// System.Storage_Pools (RM 13.11)
    StoragePools,
    /// System.Storage_Pools.Subpools (RM 13.11.4)
    Subpools,
    /// Block_Pools, this project's own
    BlockPools,
    /// MR_Pools, this project's own on the model of RM 13.11.6
    MarkReleasePools,
}

/// Answers how the last word of a unit's name is spelled, in lower case.
fn unit_spelling(unit: Unit) -> &'static [u8]
    ensures { result.now ≡ spec.unit_spelling unit }
{
    match unit {
        Unit::Ada => b"ada",
        Unit::TextIo => b"text_io",
        Unit::Finalization => b"finalization",
        Unit::UncheckedDeallocation => b"unchecked_deallocation",
        Unit::UncheckedDeallocateSubpool => b"unchecked_deallocate_subpool",
        Unit::System => b"system",
        Unit::StorageElements => b"storage_elements",
        Unit::StoragePools => b"storage_pools",
        Unit::Subpools => b"subpools",
        Unit::BlockPools => b"block_pools",
        Unit::MarkReleasePools => b"mr_pools",
    }
}

/// Answers how a name of the library is spelled, in lower case.
pub fn name_spelling(name: LibraryName) -> &'static [u8]
    ensures { result.now ≡ spec.name_spelling name }
{
    match name {
        LibraryName::Integer => b"integer",
        LibraryName::Boolean => b"boolean",
        LibraryName::True => b"true",
        LibraryName::False => b"false",
        LibraryName::ConstraintError => b"constraint_error",
        LibraryName::ProgramError => b"program_error",
        LibraryName::StorageError => b"storage_error",
        LibraryName::Put => b"put",
        LibraryName::PutLine => b"put_line",
        LibraryName::NewLine => b"new_line",
        LibraryName::Controlled => b"controlled",
        LibraryName::LimitedControlled => b"limited_controlled",
        LibraryName::Address => b"address",
        LibraryName::NullAddress => b"null_address",
        LibraryName::StorageCount => b"storage_count",
        LibraryName::RootStoragePool => b"root_storage_pool",
        LibraryName::SubpoolHandle => b"subpool_handle",
        LibraryName::BlockPool => b"block_pool",
        LibraryName::MarkReleasePool => b"mark_release_pool",
        LibraryName::Mark => b"mark",
        LibraryName::DefaultSubpool => b"default_subpool_for_pool",
        LibraryName::UncheckedDeallocation => b"unchecked_deallocation",
        LibraryName::UncheckedDeallocateSubpool => b"unchecked_deallocate_subpool",
        LibraryName::Package => b"",
    }
}

/// Answers how the name of an operation is spelled, in lower case.
pub fn operation_spelling(operation: OperationName) -> &'static [u8]
    ensures { result.now ≡ spec.operation_spelling operation }
{
    match operation {
        OperationName::Initialize => b"initialize",
        OperationName::Adjust => b"adjust",
        OperationName::Finalize => b"finalize",
        OperationName::Allocate => b"allocate",
        OperationName::Deallocate => b"deallocate",
    }
}

/// Answers the units that are no children of others.
fn roots() -> &'static [Unit]
    ensures { result.now ≡ spec.roots }
{
    &[
        Unit::Ada,
        Unit::System,
        Unit::BlockPools,
        Unit::MarkReleasePools,
    ]
}

/// Answers the children of a unit (RM 10.1.1).
fn children(unit: Unit) -> &'static [Unit]
    ensures { result.now ≡ spec.children unit }
{
    match unit {
        Unit::Ada => &[
            Unit::TextIo,
            Unit::Finalization,
            Unit::UncheckedDeallocation,
            Unit::UncheckedDeallocateSubpool,
        ],
        Unit::System => &[Unit::StorageElements, Unit::StoragePools],
        Unit::StoragePools => &[Unit::Subpools],
        _ => &[],
    }
}

/// Answers a unit with the units that it is a descendant of.
pub fn with_ancestors(unit: Unit) -> &'static [Unit]
    ensures { result.now ≡ spec.with_ancestors unit }
{
    match unit {
        Unit::Ada => &[Unit::Ada],
        Unit::TextIo => &[Unit::TextIo, Unit::Ada],
        Unit::Finalization => &[Unit::Finalization, Unit::Ada],
        Unit::UncheckedDeallocation => &[Unit::UncheckedDeallocation, Unit::Ada],
        Unit::UncheckedDeallocateSubpool => &[Unit::UncheckedDeallocateSubpool, Unit::Ada],
        Unit::System => &[Unit::System],
        Unit::StorageElements => &[Unit::StorageElements, Unit::System],
        Unit::StoragePools => &[Unit::StoragePools, Unit::System],
        Unit::Subpools => &[Unit::Subpools, Unit::StoragePools, Unit::System],
        Unit::BlockPools => &[Unit::BlockPools],
        Unit::MarkReleasePools => &[Unit::MarkReleasePools],
    }
}

/// Answers what Standard declares.
pub fn standard_names() -> &'static [LibraryName]
    ensures { result.now ≡ spec.standard_names }
{
    &[
        LibraryName::Integer,
        LibraryName::Boolean,
        LibraryName::True,
        LibraryName::False,
        LibraryName::ConstraintError,
        LibraryName::ProgramError,
        LibraryName::StorageError,
    ]
}

/// Answers what a unit declares.
pub fn names_of(unit: Unit) -> &'static [LibraryName]
    ensures { result.now ≡ spec.names_of unit }
{
    match unit {
        Unit::TextIo => &[LibraryName::Put, LibraryName::PutLine, LibraryName::NewLine],
        Unit::Finalization => &[LibraryName::Controlled, LibraryName::LimitedControlled],
        Unit::System => &[LibraryName::Address, LibraryName::NullAddress],
        Unit::StorageElements => &[LibraryName::StorageCount],
        Unit::StoragePools => &[LibraryName::RootStoragePool],
        Unit::Subpools => &[LibraryName::SubpoolHandle],
        Unit::BlockPools => &[LibraryName::BlockPool],
        Unit::MarkReleasePools => &[
            LibraryName::MarkReleasePool,
            LibraryName::Mark,
            LibraryName::DefaultSubpool,
        ],
        _ => &[],
    }
}

/// Answers the operations that a type may override (RM 7.6, 13.11).
fn operations() -> &'static [OperationName]
    ensures { result.now ≡ spec.operations }
{
    &[
        OperationName::Initialize,
        OperationName::Adjust,
        OperationName::Finalize,
        OperationName::Allocate,
        OperationName::Deallocate,
    ]
}

/// Tells whether this is the last word of the name of a unit (RM 2.3).
#[tactic(auto, unfolding(crate::specs::Library::is_unit))]
fn is_unit(name: &[u8], unit: Unit) -> bool
    ensures { result ≡ spec.is_unit name.now unit }
{
    is_same_name(name, unit_spelling(unit))
}

/// Tells whether this is a name of the library.
#[tactic(auto, unfolding(crate::specs::Library::is_name))]
fn is_name(name: &[u8], candidate: LibraryName) -> bool
    ensures { result ≡ spec.is_name name.now candidate }
{
    is_same_name(name, name_spelling(candidate))
}

/// Tells whether this is the name of an operation.
#[tactic(auto, unfolding(crate::specs::Library::is_operation))]
fn is_operation(name: &[u8], operation: OperationName) -> bool
    ensures { result ≡ spec.is_operation name.now operation }
{
    is_same_name(name, operation_spelling(operation))
}

/// Finds the unit of this name that is no child of another.
#[tactic(auto, unfolding(crate::specs::Library::root_unit))]
pub fn root_unit(name: &[u8]) -> Option<Unit>
    ensures { result ≡ spec.root_unit name.now }
{
    for unit in roots() {
        if is_unit(name, *unit) {
            return Some(*unit);
        }
    }
    None
}

/// Finds the child of a unit that has this name.
#[tactic(auto, unfolding(crate::specs::Library::child_of))]
pub fn child_of(parent: Unit, name: &[u8]) -> Option<Unit>
    ensures { result ≡ spec.child_of parent name.now }
{
    for unit in children(parent) {
        if is_unit(name, *unit) {
            return Some(*unit);
        }
    }
    None
}

/// Finds what a unit declares under a name.
#[tactic(auto, unfolding(crate::specs::Library::name_in))]
pub fn name_in(unit: Unit, name: &[u8]) -> Option<LibraryName>
    ensures { result ≡ spec.name_in unit name.now }
{
    for candidate in names_of(unit) {
        if is_name(name, *candidate) {
            return Some(*candidate);
        }
    }
    None
}

/// Finds the operation of this name.
#[tactic(auto, unfolding(crate::specs::Library::operation_named))]
pub fn operation_named(name: &[u8]) -> Option<OperationName>
    ensures { result ≡ spec.operation_named name.now }
{
    for operation in operations() {
        if is_operation(name, *operation) {
            return Some(*operation);
        }
    }
    None
}

/// Finds what Standard declares under a name (RM A.1).
#[tactic(auto, unfolding(crate::specs::Library::standard_name))]
fn standard_name(name: &[u8]) -> Option<LibraryName>
    ensures { result ≡ spec.standard_name name.now }
{
    for candidate in standard_names() {
        if is_name(name, *candidate) {
            return Some(*candidate);
        }
    }
    None
}

/// Answers what a unit itself is: a package, or a procedure.
pub fn unit_itself(unit: Unit) -> LibraryName
    ensures { result ≡ spec.unit_itself unit }
{
    match unit {
        Unit::UncheckedDeallocation => LibraryName::UncheckedDeallocation,
        Unit::UncheckedDeallocateSubpool => LibraryName::UncheckedDeallocateSubpool,
        _ => LibraryName::Package,
    }
}

/// Answers the number of a unit: the same unit has the same.
fn number_of(unit: Unit) -> u8
    ensures { result ≡ spec.number_of unit }
{
    match unit {
        Unit::Ada => 0,
        Unit::TextIo => 1,
        Unit::Finalization => 2,
        Unit::UncheckedDeallocation => 3,
        Unit::UncheckedDeallocateSubpool => 4,
        Unit::System => 5,
        Unit::StorageElements => 6,
        Unit::StoragePools => 7,
        Unit::Subpools => 8,
        Unit::BlockPools => 9,
        Unit::MarkReleasePools => 10,
    }
}

/// Tells whether a unit is among these.
pub fn is_among(units: &[Unit], unit: Unit) -> bool
    ensures { result ≡ spec.is_among units.now unit }
{
    units
        .iter()
        .any(|other| number_of(*other) == number_of(unit))
}

/// Finds what these units declare under a name.
fn name_in_units(units: &[Unit], name: &[u8]) -> Option<LibraryName>
    ensures { result ≡ spec.name_in_units units.now name.now }
{
    for unit in units {
        if let Some(found) = name_in(*unit, name) {
            return Some(found);
        }
    }
    None
}

/// Finds what is direct under a name that the text does not declare: a name of Standard, or of a unit that a use clause names (RM 8.4).
pub fn direct_name(used: &[Unit], name: &[u8]) -> Option<LibraryName>
    ensures { result ≡ spec.direct_name used.now name.now }
{
    match standard_name(name) {
        Some(found) => Some(found),
        None => name_in_units(used, name),
    }
}
