//! What is resolved of two parts, one after the other.

ghost use Rattle.std.specs.Prelude.{◌≡◌, IfOk};
ghost use Rattle.ctl_resolve.specs.Naming.{Naming, Names};
ghost use Rattle.ctl_resolve.specs.declared.view.View.{View};

use std::alloc::AllocError;

/// Pairs what was resolved with what is resolved next; where memory was refused for that, the first is dropped here, and its parts are in no
/// other function's way.
pub fn paired<A: Drop, B>(first: A, second: Result<B, AllocError>) -> Result<(A, B), AllocError>
    ensures { (p : Naming B) (old new : View) → Names p old second new → IfOk result (λ pair. (pair.0 ≡ first) × (p old ≡ (pair.1, new))) }
{
    Ok((first, second?))
}
