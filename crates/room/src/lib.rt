//! Room for more elements of a vector.
#![tactic(auto)]

ghost use Rattle.std.specs.Prelude.{◌≡◌, ◌+◌, ◌≤◌, OnOk, vec_capacity, vec_len};

use std::alloc::AllocError;

/// Makes room for so many more elements; the elements stay. The test stands where it is asked, and memory is asked for elsewhere.
#[inline(always)]
pub fn reserve<T>(vector: &mut Vec<T>, additional: usize) -> Result<(), AllocError>
    ensures items { vector.new.items ≡ vector.old.items }
    ensures len { vec_len vector.new ≡ vec_len vector.old }
    ensures ok { OnOk result (vec_len vector.new + additional ≤ vec_capacity vector.new) }
    ensures capacity { vec_capacity vector.old ≤ vec_capacity vector.new }
{
    if additional <= vector.capacity() - vector.len() {
        return Ok(());
    }
    vector.reserve(additional)
}
