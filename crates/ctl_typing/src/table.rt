//! What the check knows of the declarations in view, and the tables of types, subprograms and exceptions.

use crate::notes::Deed;
use ctl_program::types::{Operations, Root, Ty, Var};
use ctl_syntax::item::{Aliasing, Coverage, Generality, Limitation, Mode, Taggedness};
use ctl_tree::span::Span;
use ctl_tree::text::Text;
use sqlite_items::Items;

/// Whether an object may be assigned to by this name (RM 3.3, 6.2).
#[derive(Clone, Copy)]
pub enum Mutability {
    Variable,
    /// a constant, a parameter of mode `in`, a loop parameter
    Constant,
}

/// Which declaration an object has: a pool is a declared object (profile).
#[derive(Clone, Copy)]
pub enum Standing {
    Declared,
    Formal,
    LoopParameter,
}

/// A declared object, a formal or a loop parameter.
#[derive(Clone, Copy)]
pub struct ObjectEntry {
    pub ty: Ty,
    pub var: Var,
    pub standing: Standing,
    pub mutability: Mutability,
    pub aliasing: Aliasing,
}

/// A formal parameter of a subprogram (RM 6.1).
#[derive(Clone, Copy)]
pub struct FormalEntry {
    pub mode: Mode,
    pub ty: Ty,
}

/// A subprogram: its number among those of the program, its formals with their names, and its result.
#[derive(Drop)]
pub struct Profile {
    pub subprogram: usize,
    pub formals: Items<FormalEntry>,
    pub names: Items<Text>,
    pub result: Option<Ty>,
}

/// What a declaration in view declares, by its number.
#[derive(Drop)]
pub enum Entry {
    /// a type that is complete
    Type(Ty),
    /// a type of which the full declaration has not come yet (RM 3.10.1)
    Incomplete(Taggedness),
    Object(ObjectEntry),
    Subprogram(Profile),
    /// an instance of Ada.Unchecked_Deallocation, by the number of its access type
    Deallocation(usize),
    /// an exception, by its number
    Exception(usize),
    /// a declaration that breaks a rule: nothing is known of it
    Unknown,
}

/// Whether an object begins with a value that the text gives, or with what its type says (RM 3.3.1).
#[derive(Clone, Copy)]
pub enum Beginning {
    Default,
    Value,
}

/// A component of a record type: its name, its position, from 1 and with the inherited ones first, its type, and whether it has a default
/// expression (RM 3.8).
#[derive(Drop)]
pub struct ComponentEntry {
    pub name: Text,
    pub position: usize,
    pub ty: Ty,
    pub beginning: Beginning,
}

/// A record type.
#[derive(Drop)]
pub struct RecordEntry {
    /// how many masters stand around its declaration
    pub level: usize,
    pub root: Root,
    pub limitation: Limitation,
    /// whether an object of the type can be declared: Controlled and Limited_Controlled are abstract (RM 3.9.3)
    pub concreteness: Concreteness,
    pub control: Control,
    pub parent: Option<usize>,
    /// the components that it does not inherit
    pub own: Items<ComponentEntry>,
    /// how many components it has, with the inherited ones
    pub count: usize,
    /// what the default expressions of its own components do
    pub deeds: Items<Deed>,
}

/// What changes of a record type after its declaration.
#[derive(Clone, Copy)]
pub struct RecordState {
    /// the operations that the user wrote for it, its own or inherited
    pub operations: Operations,
    pub freezing: Freezing,
    pub defaults: Defaults,
    /// the last subprogram that an object of it calls when it is created or finalized; known at the end of the part that declares the
    /// type
    pub called: Option<usize>,
}

/// Whether a type is frozen (RM 13.14).
#[derive(Clone, Copy)]
pub enum Freezing {
    Free,
    Frozen,
    /// of an access type, whose collection stands before the construct that froze it
    Placed,
}

/// Whether the defaults of a record type's components were used for an object of it, and have frozen what they freeze (RM 13.14).
#[derive(Clone, Copy)]
pub enum Defaults {
    Unused,
    Used,
}

/// Whether objects of a type can be declared and allocated (RM 3.9.3).
#[derive(Clone, Copy)]
pub enum Concreteness {
    Abstract,
    Concrete,
}

/// Whether a type has a controlled part (RM 7.6).
#[derive(Clone, Copy)]
pub enum Control {
    Uncontrolled,
    Controlled,
}

/// What an access type designates (RM 3.10, 3.10.1).
#[derive(Clone, Copy)]
pub enum Designated {
    Known(Ty),
    /// a type that is wrong itself
    Unclear,
    /// a type of which the full declaration has not come yet, by the number of its declaration, and where it is named
    Awaited(usize, Span),
}

/// An access type.
#[derive(Clone, Copy)]
pub struct AccessEntry {
    /// how many masters stand around its declaration
    pub level: usize,
    /// where its identifier stands
    pub span: Span,
    pub generality: Generality,
    pub coverage: Coverage,
    pub designated: Designated,
    pub collection: Var,
    /// the pool object, and the record type that it is of
    pub pool: Option<(Var, usize)>,
    pub freezing: Freezing,
}

/// What is known at some place of the text: the declarations in view, and all types so far.
#[derive(Drop)]
pub struct Tables {
    pub entries: Items<Entry>,
    pub records: Items<RecordEntry>,
    pub states: States,
}

/// What changes of the types after their declarations.
#[derive(Drop)]
pub struct States {
    /// of each record type
    pub records: Items<RecordState>,
    /// the access types themselves
    pub accesses: Items<AccessEntry>,
}
