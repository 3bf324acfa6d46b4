//! Why a source text is refused, and where.

ghost use Rattle.std.specs.Prelude.{◌≡◌};
ghost use Rattle.ctl_tree.specs.Faults as spec;

use crate::span::Span;
use std::alloc::{AllocError, AllocFailed};
use std::fmt;

/// Why a source text is refused. `code as u8` is the number that the program prints.
#[derive(Clone, Copy, Debug, PartialEq, Eq)]
pub enum FaultCode {
    BadByte = 1,
    BadNumber = 2,
    OpenString = 3,
    BadIdentifier = 4,
    TooLong = 5,
    /// the host refused memory
    Memory = 9,
    Unexpected = 10,
    TooDeep = 11,
    LeftOut = 12,
    EndName = 13,
    Unknown = 20,
    Duplicate = 21,
    NoBody = 22,
    Order = 23,
    Elab = 24,
    NotWithed = 25,
    LatePrimitive = 26,
    Type = 30,
    Mode = 31,
    Limited = 32,
    Override = 33,
    Range = 34,
    Return = 35,
    Pool = 36,
    SelfContained = 37,
    Level = 40,
    SubpoolLevel = 41,
    ClassLevel = 42,
}

impl FaultCode {
    /// Answers the number that the program prints.
    fn number(self) -> u8
        ensures { result ≡ spec.number self }
    {
        self as u8
    }

    /// Gives the name that the program prints behind the number.
    pub fn name(self) -> &'static str {
        match self {
            FaultCode::BadByte => "BAD_BYTE",
            FaultCode::BadNumber => "BAD_NUMBER",
            FaultCode::OpenString => "OPEN_STRING",
            FaultCode::BadIdentifier => "BAD_IDENTIFIER",
            FaultCode::TooLong => "TOO_LONG",
            FaultCode::Memory => "MEMORY",
            FaultCode::Unexpected => "UNEXPECTED",
            FaultCode::TooDeep => "TOO_DEEP",
            FaultCode::LeftOut => "LEFT_OUT",
            FaultCode::EndName => "END_NAME",
            FaultCode::Unknown => "UNKNOWN",
            FaultCode::Duplicate => "DUPLICATE",
            FaultCode::NoBody => "NO_BODY",
            FaultCode::Order => "ORDER",
            FaultCode::Elab => "ELAB",
            FaultCode::NotWithed => "NOT_WITHED",
            FaultCode::LatePrimitive => "LATE_PRIMITIVE",
            FaultCode::Type => "TYPE",
            FaultCode::Mode => "MODE",
            FaultCode::Limited => "LIMITED",
            FaultCode::Override => "OVERRIDE",
            FaultCode::Range => "RANGE",
            FaultCode::Return => "RETURN",
            FaultCode::Pool => "POOL",
            FaultCode::SelfContained => "SELF_CONTAINED",
            FaultCode::Level => "LEVEL",
            FaultCode::SubpoolLevel => "SUBPOOL_LEVEL",
            FaultCode::ClassLevel => "CLASS_LEVEL",
        }
    }
}

impl fmt::Display for FaultCode {
    fn fmt<W: fmt::Write>(&self, f: &mut fmt::Formatter<W>) -> fmt::Result {
        let number = self.number();
        let name = self.name();
        write!(f, "{number} {name}")
    }
}

/// Why a source text is refused, and the place, both parts counted from 1.
#[derive(Clone, Copy, Debug, PartialEq, Eq)]
pub struct Fault {
    pub code: FaultCode,
    pub line: usize,
    pub column: usize,
}

impl Fault {
    /// Gives the fault of this code at this place.
    pub fn at(code: FaultCode, span: Span) -> Fault
        ensures { result ≡ record { code = code; line = span.line; column = span.column } }
    {
        Fault {
            code,
            line: span.line,
            column: span.column,
        }
    }

    /// Tells whether a fault comes before another: by line, by column, and then by number.
    fn is_before(self, other: Fault) -> bool
        ensures { result ≡ spec.is_before self other }
    {
        if self.line != other.line {
            self.line < other.line
        } else if self.column != other.column {
            self.column < other.column
        } else {
            self.code.number() < other.code.number()
        }
    }

    /// Answers the first of the faults so far and one more.
    pub fn first_of(so_far: Option<Fault>, fault: Fault) -> Option<Fault>
        ensures { result ≡ spec.first_of so_far fault }
    {
        match so_far {
            Some(other) if !fault.is_before(other) => Some(other),
            _ => Some(fault),
        }
    }

    /// Says that the host refused memory: a fault of no place of the text, which stands at its beginning.
    pub fn memory() -> Fault
        ensures { result ≡ record { code = FaultCode.Memory; line = 1; column = 1 } }
    {
        Fault {
            code: FaultCode::Memory,
            line: 1,
            column: 1,
        }
    }
}

impl fmt::Display for Fault {
    fn fmt<W: fmt::Write>(&self, f: &mut fmt::Formatter<W>) -> fmt::Result {
        let line = self.line;
        let column = self.column;
        let code = self.code;
        write!(f, "{line}:{column}: {code}")
    }
}

impl From<AllocError> for Fault {
    ghost use Rattle.std.specs.Prelude.{◌≡◌};
    ghost use Rattle.ctl_tree.specs.declared.fault.FaultCode.TheVariants.{Memory};

    ghost from_gives = { λ _ f. f ≡ record { code = Memory; line = 1; column = 1 } };

    fn from(_e: AllocError) -> Fault {
        Fault::memory()
    }
}

impl<T: Drop> From<AllocFailed<T>> for Fault {
    ghost use Rattle.std.specs.Prelude.{◌≡◌};
    ghost use Rattle.ctl_tree.specs.declared.fault.FaultCode.TheVariants.{Memory};

    ghost from_gives = { λ _ f. f ≡ record { code = Memory; line = 1; column = 1 } };

    fn from(_e: AllocFailed<T>) -> Fault {
        Fault::memory()
    }
}
