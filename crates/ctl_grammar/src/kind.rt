//! The kinds of token, told apart by their numbers.

ghost use Rattle.std.specs.Prelude.{◌≡◌};
ghost use Rattle.ctl_grammar.specs.Kind.{code, is_left_out, same_kind};

use ctl_tree::token::Kind;

/// Gives the position of the kind in the list of all kinds.
#[tactic(auto, unfolding(crate::specs::Kind::code))]
fn code_of(kind: Kind) -> u8
    ensures { result ≡ code kind }
{
    kind as u8
}

/// Tells whether the two kinds are the same one.
pub fn is_same_kind(a: Kind, b: Kind) -> bool
    ensures { result ≡ same_kind a b }
{
    code_of(a) == code_of(b)
}

/// Tells whether the kind is a reserved word that the subset leaves out (RM 2.9).
#[tactic(auto, unfolding(crate::specs::Kind::code))]
pub fn is_left_out(kind: Kind) -> bool
    ensures { result ≡ is_left_out kind }
{
    let code = code_of(kind);
    code_of(Kind::Abort) <= code && code < code_of(Kind::Finish)
}
