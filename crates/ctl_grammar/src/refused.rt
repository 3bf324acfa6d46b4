//! Why tokens are no text of the grammar.

ghost use Rattle.std.specs.Prelude.{◌≡◌};

use std::alloc::{AllocError, AllocFailed};

/// What is wrong with a token.
#[derive(Clone, Copy)]
pub enum Reason {
    /// The grammar does not allow it where it stands.
    Unexpected,
    /// It opens a construct where as many as may be are open.
    TooDeep,
    /// It is an identifier that the subset leaves out where it stands, as an attribute that it does not know.
    LeftOut,
    /// It is a name at an end, but not that of the subprogram (RM 6.3).
    EndName,
}

/// Why reading failed.
#[derive(Drop)]
pub enum Refused {
    /// The host refused memory.
    Memory,
    /// The next token is faulty.
    Token(Reason),
}

impl From<AllocError> for Refused {
    ghost use Rattle.std.specs.Prelude.{◌≡◌};
    ghost use Rattle.ctl_grammar.specs.declared.refused.Refused.TheVariants.{Memory};

    ghost from_gives = { λ _ e. e ≡ Memory };

    fn from(_e: AllocError) -> Refused {
        Refused::Memory
    }
}

impl<T: Drop> From<AllocFailed<T>> for Refused {
    ghost use Rattle.std.specs.Prelude.{◌≡◌};
    ghost use Rattle.ctl_grammar.specs.declared.refused.Refused.TheVariants.{Memory};

    ghost from_gives = { λ _ e. e ≡ Memory };

    fn from(_e: AllocFailed<T>) -> Refused {
        Refused::Memory
    }
}
