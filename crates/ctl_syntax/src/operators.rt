//! Operators (RM 4.5).

/// What joins relations (RM 4.5.1).
#[derive(Clone, Copy)]
pub enum LogicalOperator {
    And,
    Or,
    Xor,
    AndThen,
    OrElse,
}

/// What compares (RM 4.5.2).
#[derive(Clone, Copy)]
pub enum RelationalOperator {
    Equal,
    NotEqual,
    Less,
    LessEqual,
    Greater,
    GreaterEqual,
}

/// What joins terms of a sum, or factors of a term (RM 4.5.3, 4.5.5).
#[derive(Clone, Copy)]
pub enum ArithmeticOperator {
    Plus,
    Minus,
    Concatenate,
    Times,
    Divide,
    Mod,
    Rem,
}

/// What stands before one operand: a sign of a sum's first term, or a word before a primary (RM 4.5.4, 4.5.6).
#[derive(Clone, Copy)]
pub enum UnaryOperator {
    Plus,
    Minus,
    Abs,
    Not,
}

/// An operator with the operand behind it.
#[derive(Drop)]
pub struct Operand<E> {
    pub operator: ArithmeticOperator,
    pub operand: E,
}
