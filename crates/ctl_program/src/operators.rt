//! Operators, and the other words of an expression that stand for no value.

/// An operator with one operand (RM 4.5.4, 4.5.6).
#[derive(Clone, Copy)]
pub enum UnaryOp {
    Plus,
    Minus,
    Abs,
    Not,
}

/// An operator with two operands (RM 4.5.1 to 4.5.5).
#[derive(Clone, Copy)]
pub enum BinaryOp {
    Add,
    Subtract,
    Multiply,
    Divide,
    Modulo,
    Remainder,
    And,
    Or,
    Xor,
    Equal,
    Unequal,
    Less,
    LessEqual,
    Greater,
    GreaterEqual,
}

/// A short-circuit control form (RM 4.5.1).
#[derive(Clone, Copy)]
pub enum Shortcut {
    AndThen,
    OrElse,
}

/// A function on a Mark_Release_Pool that gives a subpool (RM 13.11.4, 13.11.6).
#[derive(Clone, Copy)]
pub enum SubpoolFunction {
    /// `Mark`: a new subpool, the last
    Mark,
    /// `Default_Subpool_for_Pool`: the last one
    Default,
}

/// An operation that may be called of a class-wide object (RM 7.6).
#[derive(Clone, Copy)]
pub enum Operation {
    Initialize,
    Adjust,
    Finalize,
}

/// What the copy of an actual begins with (RM 6.4.1).
#[derive(Clone, Copy)]
pub enum CopyStart {
    /// the actual's value: `in out`, and `out` of an access type or handle
    Actual,
    /// the beginning value of its type: `out` of any other type
    Beginning,
}

/// Which way a `for` loop goes through its range (RM 5.5).
#[derive(Clone, Copy)]
pub enum Direction {
    Upward,
    /// `reverse`
    Downward,
}

/// What a subprogram is: whether a call of it gives a value (RM 6.1).
#[derive(Clone, Copy)]
pub enum SubprogramKind {
    Procedure,
    Function,
}
