// The words that a region holds, and the rights to those that are out. Both are ghost state: they take no memory.
ghost use Rattle.std.specs.Prelude.{◌≡◌, ℕ, ◌+◌, ◌<◌, ◌≤◌, length, IsSome, Some};
ghost use denote.RawPtr.{InBlock};
ghost use Rattle.raw_region.specs.Places.{Home, home_code, Places, places_code, place, held, out, with_run, words_at, AreHeld, AreOut};
ghost use Rattle.raw_region.specs.Ownership.{nth_place, span_lent, place_lent, places_own, tickets};

use std::marker::Model;
use std_alloc::vec::{Lodged, lodge};

// The words that are in their places of the region `home`.
pub(crate) struct Holding {
    ghost home: { Home } by { home_code },
    ghost places: { Places } by { places_code },
}

impl Model for Holding {
    ghost also_owns = { λ h. places_own h.home h.places 0 (length h.places) };

    ghost also_shares = { λ h _. span_lent (λ k. place_lent h.home k (place h.places k)) 0 (length h.places) };
}

// The right to the `count` places from `start` on, which nothing else has.
pub(crate) struct Claim {
    ghost home: { Home } by { home_code },
    ghost start: { ℕ },
    ghost count: { ℕ },
}

impl Model for Claim {
    ghost also_owns = { λ c. tickets c.home c.start c.count };
}

impl Holding {
    // Returns the word in the place i of the region that begins at `base`.
    #[inline(always)]
    pub(crate) fn word(&self, base: *mut u64, i: usize) -> &u64
        requires { (self.now.home.at ≡ base) × InBlock base × IsSome (place self.now.places i)
            × (i < 33554432) }
        ensures { Some result.now ≡ place self.now.places i }
    {
        unsafe { &*base.add(i) }
    }

    // Takes the `len` words from `start` on out, as a `Vec` that neither grows nor frees them.
    #[inline(always)]
    pub(crate) fn lend_out(
        &mut self,
        base: *mut u64,
        start: usize,
        len: usize,
    ) -> (Claim, Vec<u64, Lodged>)
        requires { (self.old.home.at ≡ base) × InBlock base × (1 ≤ len) × AreHeld self.old.places start len
            × (start + len ≤ length self.old.places) × (start + len ≤ 33554432) }
        ensures { (self.new.home ≡ self.old.home) × (self.new.places ≡ with_run self.old.places start (out len))
            × (result.0.home ≡ self.old.home) × (result.0.start ≡ start) × (result.0.count ≡ len)
            × (result.1.items ≡ words_at self.old.places start len) × (result.1.len ≡ len)
            × (result.1.ptr ≡ nth_place base start) }
    {
        let words = unsafe { lodge(base.add(start), len, len) };
        (Claim {}, words)
    }

    // Puts words back into their places, which were out before the call.
    #[inline(always)]
    pub(crate) fn take_back(&mut self, claim: Claim, words: Vec<u64, Lodged>)
        requires { (claim.home ≡ self.old.home) × InBlock self.old.home.at
            × (words.ptr ≡ nth_place self.old.home.at claim.start) × (claim.count ≡ words.len)
            × (0 < words.len) × (claim.start + words.len ≤ length self.old.places) }
        ensures { (self.new.home ≡ self.old.home)
            × (self.new.places ≡ with_run self.old.places claim.start (held words.items))
            × AreOut self.old.places claim.start (length words.items) }
    {
        let Claim {} = claim;
        let _count = words.dislodge();
    }
}
