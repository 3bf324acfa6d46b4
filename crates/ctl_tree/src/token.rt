//! The tokens of a source text (RM 2).

use crate::span::Span;
use crate::text::Text;

/// What a token is.
#[derive(Clone, Copy, Debug, PartialEq, Eq)]
pub enum Kind {
    Identifier,
    Number,
    String,
    // delimiters (RM 2.2)
    /// `&`
    Ampersand,
    /// `'`
    Apostrophe,
    /// `(`
    LeftParenthesis,
    /// `)`
    RightParenthesis,
    /// `*`
    Star,
    /// `+`
    Plus,
    /// `,`
    Comma,
    /// `-`
    Minus,
    /// `.`
    Dot,
    /// `/`
    Slash,
    /// `:`
    Colon,
    /// `;`
    Semicolon,
    /// `<`
    Less,
    /// `=`
    Equal,
    /// `>`
    Greater,
    /// `|`
    Bar,
    /// `=>`
    Arrow,
    /// `..`
    DoubleDot,
    /// `:=`
    Becomes,
    /// `/=`
    NotEqual,
    /// `>=`
    GreaterEqual,
    /// `<=`
    LessEqual,
    // the reserved words that the subset uses (RM 2.9)
    Abs,
    Access,
    Aliased,
    All,
    And,
    Begin,
    Constant,
    Declare,
    Else,
    Elsif,
    End,
    Exception,
    Exit,
    For,
    Function,
    If,
    In,
    Is,
    Limited,
    Loop,
    Mod,
    New,
    Not,
    Null,
    Or,
    Others,
    Out,
    Overriding,
    Procedure,
    Raise,
    Record,
    Rem,
    Return,
    Reverse,
    Tagged,
    Then,
    Type,
    Use,
    When,
    While,
    With,
    Xor,
    // the reserved words that it leaves out
    Abort,
    Abstract,
    Accept,
    Array,
    At,
    Body,
    Case,
    Delay,
    Delta,
    Digits,
    Do,
    Entry,
    Generic,
    Goto,
    Interface,
    Of,
    Package,
    Pragma,
    Private,
    Protected,
    Range,
    Renames,
    Requeue,
    Select,
    Separate,
    Some,
    Subtype,
    Synchronized,
    Task,
    Terminate,
    Until,
    /// the end mark, which is the last token and stands at the end of the text
    Finish,
}

/// A token with its place.
#[derive(Drop, Debug)]
pub struct Token {
    pub kind: Kind,
    pub span: Span,
    /// an identifier as it is written, or a string's bytes with each doubled quotation mark once; else empty
    pub text: Text,
    /// a number's value; else 0
    pub value: u64,
}
