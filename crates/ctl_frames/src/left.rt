//! Which of the components is chosen that are left among those that a frame goes through (RM 7.6, 7.6.1).

ghost use Rattle.std.specs.Prelude.{◌≡◌, ◌-◌, ◌^◌, ◌+◌, ◌<◌, ◌≤◌, List, IsFalse, IsTrue};
ghost use Rattle.ctl_code.specs.declared.code.Begun.{Begun};
ghost use Rattle.ctl_frames.specs.Filling.{AreApart, AreLeft, IsChosen, pick_among, IsChosenApart};

use crate::frame::{Apart, Left};
use ctl_code::code::Begun;
use ctl_tree::request::Order;

/// The component that is chosen: its place among those that begin with something, the number of the candidate that it was, and what is
/// left then.
#[derive(Clone, Copy)]
pub struct Chosen {
    pub at: usize,
    pub pick: usize,
    pub rest: Left,
}

impl Left {
    /// Counts the components that are left.
    pub fn count(self) -> usize
        requires { self.first ≤ self.last }
        ensures { result ≡ self.last - self.first }
    {
        self.last - self.first
    }

    /// Chooses a component by an order, the candidates being in the order of their positions.
    pub fn choose(self, order: Order) -> Chosen
        requires { self.first < self.last }
        ensures pick { result.pick ≡ pick_among order (self.last - self.first) }
        ensures chosen { (all : List Begun) (left : List Begun) → AreLeft all self left → IsChosen all left result.pick result.at result.rest }
    {
        match order {
            Order::Newest => {
                let at = self.last - 1;
                Chosen {
                    at,
                    pick: at - self.first,
                    rest: Left {
                        first: self.first,
                        last: at,
                    },
                }
            }
            Order::Oldest => Chosen {
                at: self.first,
                pick: 0,
                rest: Left {
                    first: self.first + 1,
                    last: self.last,
                },
            },
        }
    }
}

/// The component that is chosen: its place among those of its record type with a controlled part, the number of the candidate that it was,
/// and what is left then.
#[derive(Clone, Copy)]
pub struct ChosenApart {
    pub at: usize,
    pub pick: usize,
    pub rest: Apart,
}

impl Apart {
    /// Counts the components that are left.
    pub fn count(self) -> usize
        requires rising { (self.low.first ≤ self.low.last) × (self.high.first ≤ self.high.last) }
        requires few { (self.low.last - self.low.first) + (self.high.last - self.high.first) < 2 ^ 64 }
        ensures { result ≡ (self.low.last - self.low.first) + (self.high.last - self.high.first) }
    {
        (self.low.last - self.low.first) + (self.high.last - self.high.first)
    }

    /// Tells whether no component is left.
    pub fn is_empty(self) -> bool
        requires { (self.low.first ≤ self.low.last) × (self.high.first ≤ self.high.last) }
        ensures none { IsTrue result → (self.low.last - self.low.first) + (self.high.last - self.high.first) ≡ 0 }
        ensures some { IsFalse result → 0 < (self.low.last - self.low.first) + (self.high.last - self.high.first) }
    {
        self.low.first == self.low.last && self.high.first == self.high.last
    }

    /// Chooses one of the components that lie behind the others.
    fn choose_high(self, order: Order) -> ChosenApart
        requires rising { self.low.first ≤ self.low.last }
        requires some { self.high.first < self.high.last }
        requires few { (self.low.last - self.low.first) + (self.high.last - self.high.first) < 2 ^ 64 }
        ensures pick { result.pick ≡ (self.low.last - self.low.first) + pick_among order (self.high.last - self.high.first) }
        ensures chosen { (all left : List Begun) → AreApart all self left → IsChosenApart all left result.pick result.at result.rest }
    {
        let chosen = self.high.choose(order);
        ChosenApart {
            at: chosen.at,
            pick: (self.low.last - self.low.first) + chosen.pick,
            rest: Apart {
                low: self.low,
                high: chosen.rest,
            },
        }
    }

    /// Chooses one of the components that lie before the others.
    fn choose_low(self, order: Order) -> ChosenApart
        requires some { self.low.first < self.low.last }
        ensures pick { result.pick ≡ pick_among order (self.low.last - self.low.first) }
        ensures chosen { (all left : List Begun) → AreApart all self left → IsChosenApart all left result.pick result.at result.rest }
    {
        let chosen = self.low.choose(order);
        ChosenApart {
            at: chosen.at,
            pick: chosen.pick,
            rest: Apart {
                low: chosen.rest,
                high: self.high,
            },
        }
    }

    /// Chooses a component by an order, the candidates being in the order of their positions.
    pub fn choose(self, order: Order) -> ChosenApart
        requires rising { (self.low.first ≤ self.low.last) × (self.high.first ≤ self.high.last) }
        requires few { (self.low.last - self.low.first) + (self.high.last - self.high.first) < 2 ^ 64 }
        requires some { 0 < (self.low.last - self.low.first) + (self.high.last - self.high.first) }
        ensures pick { result.pick ≡ pick_among order ((self.low.last - self.low.first) + (self.high.last - self.high.first)) }
        ensures chosen { (all left : List Begun) → AreApart all self left → IsChosenApart all left result.pick result.at result.rest }
    {
        let is_low = match order {
            Order::Newest => self.high.first == self.high.last,
            Order::Oldest => self.low.first < self.low.last,
        };
        if is_low {
            self.choose_low(order)
        } else {
            self.choose_high(order)
        }
    }
}
