//! When two identifiers are the same.

ghost use Rattle.std.specs.Prelude.{◌≡◌};
ghost use Rattle.std.specs.Char.{to_ascii_lowercase};
ghost use Rattle.ctl_grammar.specs.Spelling.{same_letter, same_name};

/// Tells whether two bytes are the same: case does not count.
#[tactic(auto, unfolding(crate::specs::Spelling::same_letter))]
fn is_same_letter(a: u8, b: u8) -> bool
    ensures { result ≡ same_letter a b }
{
    a.to_ascii_lowercase() == b.to_ascii_lowercase()
}

/// Tells whether two identifiers are the same: case does not count (RM 2.3).
#[tactic(auto, unfolding(crate::specs::Spelling::same_name))]
pub fn is_same_name(a: &[u8], b: &[u8]) -> bool
    ensures { result ≡ same_name a.now b.now }
{
    let mut left = a;
    let mut right = b;
    'letters: while let (Some((x, more)), Some((y, others))) = (
        left.split_first(),
        right.split_first(),
    ) {
        if !is_same_letter(*x, *y) {
            return false;
        }
        left = more;
        right = others;
    }
    left.is_empty() && right.is_empty()
}
