//! All stages: lexis, grammar, names, types.

ghost use Rattle.std.specs.Prelude.{◌≡◌, ◌⊎◌, IfErr, IfOk};
ghost use Rattle.ctl_lex.specs.Memory.{IsMemory};
ghost use Rattle.ctl_front.specs.Text.{Answers, BreaksForm, Spells, SpellsNamed, Written};
ghost use Rattle.ctl_resolve.specs.Whole as Names;

use crate::tree::tree_of;
use ctl_program::program::Checked;
use ctl_resolve::context::Broken;
use ctl_resolve::whole::named;
use ctl_syntax::denoted::Named;
use ctl_tree::fault::Fault;
use ctl_types::whole::check;
use std::alloc::Global;

/// Answers the tree of a source text with what its names denote, and its first broken rules on names and on use clauses, or its first fault
/// of lexis or grammar (1 to 13). MEMORY comes only where the host refused memory.
fn named_of(alloc: Global, source: &[u8]) -> Result<(Named, Broken), Fault>
    ensures found { IfOk result (λ n. (tree : Written) × Spells source.now tree × (n ≡ Names.named tree)) }
    ensures refused { IfErr result (λ fault. BreaksForm source.now fault ⊎ IsMemory fault) }
{
    let written = tree_of(alloc, source)?;
    let found = named(alloc, &written);
    // A tree is large: the written one goes before the program is made.
    drop(written);
    Ok(found?)
}

/// Answers the checked program of a source text, or its first fault: of its lexis (1 to 5) or its grammar (10 to 13); or the first rule on
/// names, order and completion that it breaks (20 to 26); or the first rule on types (30 to 41). MEMORY comes only where the host refused
/// memory.
pub fn program_of(alloc: Global, source: &[u8]) -> Result<Checked, Fault>
    ensures { Answers source.now result }
{
    let (tree, broken) = named_of(alloc, source)?;
    check(alloc, &tree, broken.names, broken.uses)
}

/// Drops a resolved tree.
// What a drop of so large a value does is long to prove. Who calls this by name does not prove it again.
pub fn drop_tree(tree: Named) {
    drop(tree);
}

/// Answers the tree of a source text with what its names denote, or its first fault of lexis or grammar (1 to 13). MEMORY comes only where
/// the host refused memory.
pub fn resolved_of(alloc: Global, source: &[u8]) -> Result<Named, Fault>
    ensures found { IfOk result (λ named. SpellsNamed source.now named) }
    ensures refused { IfErr result (λ fault. BreaksForm source.now fault ⊎ IsMemory fault) }
{
    let (tree, _) = named_of(alloc, source)?;
    Ok(tree)
}
