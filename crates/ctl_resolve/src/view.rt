//! What is in view at a place of the text (RM 8.2, 8.3).

use crate::library::Unit;
use crate::table::Table;
use ctl_syntax::denoted::{Denoted, LibraryName, OperationName};
use ctl_tree::fault::Fault;
use ctl_tree::span::Span;
use ctl_tree::text::Text;
use sqlite_items::Items;

/// How far a declaration has come.
#[derive(Clone, Copy)]
pub enum Stage {
    /// it has not ended, and gives no name yet (RM 8.3(17))
    Hidden,
    /// an incomplete type: its full declaration has not ended (RM 3.10.1)
    Incomplete,
    /// a subprogram whose body has not come (RM 6.1, 6.3)
    Bodiless,
    Complete,
}

/// What uses know a declaration by.
#[derive(Clone, Copy)]
pub enum Role {
    /// its name
    Direct,
    /// nothing: it overrides this operation for the type that the mark of its first parameter denotes, and a call is resolved by the
    /// type of its first actual (RM 7.6, 8.6, 13.11)
    Override(OperationName, Denoted),
    /// nothing: it is a second declaration of its name in one region, and the name goes on denoting the first one
    Repeated,
}

/// A declaration in view.
#[derive(Drop)]
pub struct Declaration {
    /// what it is filed under, in lower case, since case does not count (RM 2.3): its name; for an override the last word of the mark of
    /// its first parameter
    pub key: Text,
    pub role: Role,
    pub stage: Stage,
    /// how many masters (subprogram bodies and blocks) stand around it (RM 3.10.2)
    pub level: usize,
    /// where its identifier stands
    pub span: Span,
}

/// What a subprogram is filed under.
#[derive(Drop)]
pub struct Filing {
    pub key: Text,
    pub role: Role,
}

/// What is known of a declaration that was found.
#[derive(Clone, Copy)]
pub struct Known {
    /// how many declarations in view stand before it
    pub number: usize,
    pub level: usize,
    pub stage: Stage,
}

/// Which declaration is sought among those of one key.
#[derive(Clone, Copy)]
pub enum Sought {
    /// the one that a use of the name denotes
    Direct,
    /// a subprogram that waits for its body
    Bodiless,
    /// an incomplete type
    Incomplete,
    /// an override of this operation for what the mark denotes
    Override(OperationName, Denoted),
    /// the same, where it waits for its body
    BodilessOverride(OperationName, Denoted),
}

/// Whether a body stands before, in the part that is read.
#[derive(Clone, Copy)]
pub enum Progress {
    BeforeBodies,
    BehindBody,
}

/// The declarative part whose items are read, or another region of declarations (RM 8.1).
#[derive(Clone, Copy)]
pub struct Part {
    /// how many declarations around it are in view
    pub start: usize,
    /// how many masters stand around its declarations
    pub level: usize,
    pub progress: Progress,
}

/// What is in view, and the first fault by place so far.
#[derive(Drop)]
pub struct View {
    /// the declarations of the text, the innermost last
    pub table: Table,
    /// the region that is read
    pub part: Part,
    /// the library units that the with clauses bring (RM 10.1.2)
    pub brought: Items<Unit>,
    /// those whose names the use clauses make direct (RM 8.4)
    pub used: Items<Unit>,
    pub fault: Option<Fault>,
}

/// How a name is used.
#[derive(Clone, Copy)]
pub enum Usage {
    /// as the designated type of an access type, which may be incomplete (RM 3.10.1)
    Designated,
    Plain,
}

/// Where the identifiers of a name lead from a library unit.
#[derive(Clone, Copy)]
pub enum Way {
    /// to a unit
    Reaches(Unit),
    /// from this unit to the identifier of this number, which is no child of it, and what the unit declares by that name
    Stops(Unit, usize, Option<LibraryName>),
}

/// What the beginning of a name means where it stands.
#[derive(Clone, Copy)]
pub enum Meaning {
    /// it denotes this, and so many identifiers behind the first are used up
    Means(Denoted, usize),
    /// the identifier of this number, from 0, is given by no visible declaration
    UnknownAt(usize),
    /// a library unit that no with clause brings
    NotWithed,
}
