//! Types, variables, and the tables of record and access types.

use crate::expression::Expr;
use sqlite_items::Items;

/// The type of a value.
#[derive(Clone, Copy, PartialEq, Eq)]
pub enum Ty {
    /// Integer (RM 3.5.4)
    Integer,
    /// System.Storage_Elements.Storage_Count (RM 13.7.1)
    Count,
    Boolean,
    /// System.Address (RM 13.7)
    Address,
    /// System.Storage_Pools.Subpools.Subpool_Handle (RM 13.11.4)
    Handle,
    /// an access type, by its number in the table (RM 3.10)
    Access(usize),
    /// a record type, tagged or not, by its number in the table (RM 3.8, 3.9)
    Record(usize),
}

/// A use of a declared object, a formal, a loop parameter or a collection.
#[derive(Clone, Copy)]
pub struct Var {
    /// how many masters (subprogram bodies and blocks) stand around the declaration, its own one included (RM 3.10.2)
    pub level: usize,
    /// the number of the declaration among those of its master that take a slot
    pub slot: usize,
}

/// What a record type descends from (RM 7.6, 13.11).
#[derive(Clone, Copy)]
pub enum Root {
    Untagged,
    /// Controlled or Limited_Controlled
    Controlled,
    BlockPool,
    /// Mark_Release_Pool
    MarkPool,
}

/// The operations that the user wrote for a type, its own or inherited, by their numbers.
#[derive(Clone, Copy)]
pub struct Operations {
    pub initialize: Option<usize>,
    pub adjust: Option<usize>,
    pub finalize: Option<usize>,
    pub allocate: Option<usize>,
    pub deallocate: Option<usize>,
}

/// A component, with its default expression (RM 3.8).
#[derive(Drop)]
pub struct Component {
    pub ty: Ty,
    pub default: Option<Expr>,
}

/// A record type. The types of its components and its parent stand before it in the table.
#[derive(Drop)]
pub struct RecordType {
    /// how many masters stand around its declaration
    pub level: usize,
    pub root: Root,
    /// the type that it extends (RM 3.9.1)
    pub parent: Option<usize>,
    /// the components that it does not inherit
    pub own: Items<Component>,
    pub operations: Operations,
}

/// An access type (RM 3.10).
#[derive(Clone, Copy)]
pub struct AccessType {
    /// where its collection is found
    pub collection: Var,
    /// the type that it designates, or for a class-wide one the root of that class
    pub designated: Ty,
    /// its storage pool; the standard pool where there is none (RM 13.11)
    pub pool: Option<Var>,
}
