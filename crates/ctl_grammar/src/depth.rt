//! How deep a text may nest. `specs/Depth.antt` has the same number.

ghost use Rattle.std.specs.Prelude.{◌≡◌};
ghost use Rattle.ctl_grammar.specs.Depth.{greatest_depth};

/// How many constructs may be open: bodies of subprograms, blocks, ifs, loops and pairs of parentheses (profile).
const GREATEST_DEPTH: u32 = 100;

/// Gives how many constructs may be open.
pub fn greatest_depth() -> u32
    ensures { result ≡ greatest_depth }
{
    GREATEST_DEPTH
}
