//! The first two stages: from the bytes of a source text to the tree that they spell.

ghost use Rattle.std.specs.Prelude.{◌⊎◌, IfErr, IfOk};
ghost use Rattle.ctl_tree.specs.declared.fault.Fault.{Fault};
ghost use Rattle.ctl_lex.specs.Memory.{IsMemory};
ghost use Rattle.ctl_front.specs.Text.{BreaksForm, Spells};

use ctl_lex::tokens;
use ctl_parse::parse;
use ctl_syntax::denoted::Written;
use ctl_tree::fault::Fault;
use std::alloc::Global;

/// Answers the tree that the bytes of a source text spell, or the text's first fault: that of its lexis (1 to 5), and where it spells
/// tokens that of its grammar (10 to 13). MEMORY comes only where the host refused memory.
#[tactic(auto)]
pub fn tree_of(alloc: Global, source: &[u8]) -> Result<Written, Fault>
    ensures found { IfOk result (λ tree. Spells source.now tree) }
    ensures refused { IfErr result (λ fault. BreaksForm source.now fault ⊎ IsMemory fault) }
{
    let tokens = tokens(alloc, source)?;
    parse(alloc, &tokens)
}
