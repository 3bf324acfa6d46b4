// The allocation under a region, apart from its words.
ghost use Rattle.std.specs.Prelude.{◌≡◌, ℕ, ◌<◌, List, length};
ghost use base.Fml.{fex, fsep, feq};
ghost use denote.RawPtr.{InBlock};
ghost use Rattle.raw_region.specs.Places.{Home, home_code, held, words_at, AreHeld};
ghost use Rattle.raw_region.specs.Ownership.{unread, whole_again};

use crate::holding::Holding;
use std::alloc::Allocator;
use std::marker::{Model, Move, Owns};

// The right to free the memory of a region, which is a `Vec` without its words: those are in the region, or in Blocks of
// it. Contracts see the home of the words.
pub(crate) struct Allocation<A: Allocator> {
    backing: Vec<u64, A>,
}

// What it owns: whoever brings the words back has the `Vec` with them.
impl<A: Allocator> Move for Allocation<A> {
    ghost own_val = { λ home vals. whole_again home (λ words.
        fex Inside (λ i. fsep (feq (List ℕ) i.backing.items words) (Fields.own_val i vals))) };
}

// What is seen of it, and that a `&` to it shows no word.
impl<A: Allocator> Owns for Allocation<A> {
    ghost shr_at = { unread };

    ghost Value = { Home };

    ghost coded = { home_code };
}

// Takes the words of a `Vec` out of it, as those of a region that has a name of its own.
pub(crate) fn part<A: Allocator>(vec: Vec<u64, A>) -> (Holding, Allocation<A>)
    requires { 0 < vec.len }
    ensures { (result.0.home ≡ result.1) × (result.1.at ≡ vec.ptr) × (result.1.size ≡ vec.len) × InBlock vec.ptr
        × (result.0.places ≡ held vec.items) }
{
    (Holding {}, Allocation { backing: vec })
}

// Brings the words back, all of which are there, and returns their `Vec`.
pub(crate) fn reunite<A: Allocator>(holding: Holding, allocation: Allocation<A>) -> Vec<u64, A>
    requires { (holding.home ≡ allocation) × InBlock allocation.at × (length holding.places ≡ allocation.size)
        × AreHeld holding.places 0 allocation.size }
    ensures { result.items ≡ words_at holding.places 0 allocation.size }
{
    let Holding {} = holding;
    let Allocation { backing } = allocation;
    backing
}
