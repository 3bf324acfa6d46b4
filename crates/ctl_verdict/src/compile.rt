//! The code of a source text.

ghost use Rattle.std.specs.Prelude.{◌≡◌, ◌⊎◌, IfErr, IfOk, MatchResult};
ghost use Rattle.ctl_tree.specs.declared.fault.Fault.{Fault};
ghost use Rattle.ctl_lex.specs.Memory.{IsMemory};
ghost use Rattle.ctl_verdict.specs.Compiled.{IsCodeOf};
ghost use Rattle.ctl_verdict.specs.Verdict.{IsFaultOf, IsFaultless};

use crate::verdict::check_source;
use ctl_gen::generate::generate;
use ctl_tree::fault::Fault;
use ctl_types::whole::drop_program;
use ctl_valid::valid::ValidCode;
use std::alloc::Global;

/// Compiles a source text: answers the code of its program. The fault is that of the text, or MEMORY.
pub fn compile_source(alloc: Global, source: &[u8]) -> Result<ValidCode, Fault>
    // A text with a fault is refused with it.
    ensures faulty { (fault : Fault) → IsFaultOf source.now fault → MatchResult result (λ _. ⊥) (λ f. (f ≡ fault) ⊎ IsMemory f) }
    // A text that has none is refused for want of memory alone.
    ensures faultless { IsFaultless source.now → IfErr result IsMemory }
    // It is refused with nothing else than its fault, or want of memory.
    ensures refused { IfErr result (λ fault. IsFaultOf source.now fault ⊎ IsMemory fault) }
    ensures compiled { IfOk result (λ code. IsCodeOf source.now code) }
{
    let program = check_source(alloc, source)?;
    let code = generate(alloc, &program);
    drop_program(program);
    code
}
