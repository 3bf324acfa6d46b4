//! What the names of a resolved tree denote.

use crate::item::Tree;
use crate::name::Identifier;
use ctl_tree::span::Span;

/// What Standard or a library unit declares (RM A.1, A.10, 7.6, 13.7, 13.11), and the units that are procedures themselves.
#[derive(Clone, Copy)]
pub enum LibraryName {
    Integer,
    Boolean,
    True,
    False,
    ConstraintError,
    ProgramError,
    StorageError,
    /// of Ada.Text_IO (RM A.10.7)
    Put,
    PutLine,
    NewLine,
    /// of Ada.Finalization (RM 7.6)
    Controlled,
    LimitedControlled,
    /// of System (RM 13.7)
    Address,
    NullAddress,
    /// of System.Storage_Elements (RM 13.7.1)
    StorageCount,
    /// of System.Storage_Pools (RM 13.11)
    RootStoragePool,
    /// of System.Storage_Pools.Subpools (RM 13.11.4)
    SubpoolHandle,
    /// of Block_Pools, this project's own
    BlockPool,
    /// of MR_Pools, this project's own on the model of RM 13.11.6
    MarkReleasePool,
    Mark,
    DefaultSubpool,
    /// Ada.Unchecked_Deallocation, a generic procedure (RM 13.11.2)
    UncheckedDeallocation,
    /// Ada.Unchecked_Deallocate_Subpool (RM 13.11.5)
    UncheckedDeallocateSubpool,
    /// a package, which is no value, type or subprogram
    Package,
}

/// An operation that a type may override (RM 7.6, 13.11).
#[derive(Clone, Copy)]
pub enum OperationName {
    Initialize,
    Adjust,
    Finalize,
    Allocate,
    Deallocate,
}

/// What the use of a name denotes.
#[derive(Clone, Copy)]
pub enum Denoted {
    /// a declaration of the text: its number among those in view, and its level
    Declared(usize, usize),
    Library(LibraryName),
    /// an operation: whose it is, the type of the first parameter tells
    Operation(OperationName),
    /// nothing: no declaration in view gives the name, and that is told of already
    Unknown,
}

/// The use of a name, with the place of its first identifier.
#[derive(Clone, Copy)]
pub struct Use {
    pub span: Span,
    pub denoted: Denoted,
}

/// A declaration's name, with its number among those in view, and its level: how many masters stand around it (RM 3.10.2).
#[derive(Drop)]
pub struct Definition {
    pub identifier: Identifier,
    pub number: usize,
    pub level: usize,
}

/// The tree of a text as it is written.
pub type Written = Tree<Identifier, Identifier>;

/// The tree of a text once each name has what it denotes.
pub type Named = Tree<Definition, Use>;
