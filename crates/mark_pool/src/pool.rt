ghost use Rattle.std.specs.Prelude.{◌≡◌, ℕ, ◌+◌, ◌-◌, ◌^◌, ◌<◌, ◌≤◌, [], length, map, min, replicate, All, MatchOption, IfOk, IsTrue, ◌↔◌};
ghost use Rattle.raw_region.specs.Places.{held, words_at};
ghost use Rattle.mark_pool.specs.Marks.{Marks, IsPoolSize, size_of, IsFull, with_mark, with_taken, with_back, IsTopBack, AreAllBack, out_count, out_since_top, IsEmptied, IsDropped, back_at, IsWithin};

use arrayvec::ArrayVec;
use raw_region::{Block, PoolFault, RawRegion};
use std::alloc::{Allocator, Global};
use std::marker::Model;

/// The number of a mark of a pool. Each number is issued once.
#[derive(Clone, Copy, Debug, PartialEq, Eq)]
pub struct MarkNo(pub u64);

/// A mark that stands: its number, how many words were used when it was made, and how many of those are in Blocks.
#[derive(Clone, Copy, Default)]
pub struct StandingMark {
    number: u64,
    start: usize,
    // How many of the words before `start` are in Blocks. What is in Blocks from `start` on is all the others; so a
    // `take`, which lies behind every mark, changes no count.
    out_below: usize,
}

impl StandingMark {
    /// Counts the words of a Block from the place `start` on as back, as far as they are before the mark.
    fn bring_back(&mut self, start: usize, words: usize)
        requires { IsWithin start words self.old }
        ensures { self.new ≡ back_at start words self.old }
    {
        let before = self.start.saturating_sub(start);
        self.out_below -= words.min(before);
    }
}

/// Counts the words of a Block from the place `start` on as back at each of these marks.
fn bring_back_each(marks: &mut [StandingMark], start: usize, words: usize)
    requires { All (IsWithin start words) marks.old }
    ensures { marks.new ≡ map (back_at start words) marks.old }
{
    for mark in marks.iter_mut() {
        mark.bring_back(start, words);
    }
}

/// A pool whose words are taken one after the other and released back to a mark, in one region (RM 13.11.6).
///
/// At most ten marks stand in it, one of them from the start. It has to be closed by `close`, once all Blocks are back.
pub struct MarkPool<A: Allocator = Global> {
    region: RawRegion<A>,
    size: usize,
    used: usize,
    // How many words are in Blocks.
    out: usize,
    top: StandingMark,
    // From the oldest on.
    older: ArrayVec<StandingMark, 9>,
    // The number that was issued last, as each below it was.
    last: u64,
}

impl<A: Allocator> Model for MarkPool<A> {
    ghost use Rattle.std.specs.Prelude.{◌+◌, map};
    ghost use Rattle.mark_pool.specs.Marks.{Marks, marks_code, seen_mark, Stands, Counts};

    ghost Value = { Marks };

    ghost coded = { marks_code };

    ghost view = { λ p. record {
      home = p.region.home;
      places = p.region.places;
      used = p.used;
      top = seen_mark p.top;
      older = map seen_mark p.older.items;
      issued = p.last + 1;
    } };

    ghost invariant = { λ p. Stands p.region p.size p.used p.top p.older.items
        × Counts p.region.places p.size p.out p.top p.older.items };
}

impl<A: Allocator> MarkPool<A> {
    /// Opens a pool of `words` 64-bit words, from 1 to 2,097,152, all of them zero, with its first mark.
    ///
    /// # Errors
    ///
    /// Returns `Size` if `words` is out of range, and `Memory` if the allocator refuses the region.
    pub fn new(alloc: A, words: usize) -> Result<MarkPool<A>, PoolFault>
        ensures ok { IfOk result (λ p. IsPoolSize words × (p.places ≡ held (replicate words 0))
            × (p.used ≡ 0) × (p.top ≡ record { number = 0; start = 0 }) × (p.older ≡ []) × (p.issued ≡ 1)) }
        ensures size { (result ≡ Err PoolFault.Size) ↔ (¬ IsPoolSize words) }
    {
        if words < 1 || words > 2097152 {
            return Err(PoolFault::Size);
        }
        Ok(MarkPool {
            region: RawRegion::open(alloc, words)?,
            size: words,
            used: 0,
            out: 0,
            top: StandingMark {
                number: 0,
                start: 0,
                out_below: 0,
            },
            older: ArrayVec::new(),
            last: 0,
        })
    }

    /// Counts the words that are used.
    pub fn used(&self) -> u64
        ensures { result ≡ self.now.used }
    {
        self.used as u64
    }

    /// Counts the words that are out, in Blocks.
    pub fn out(&self) -> u64
        ensures { result ≡ out_count self.now }
    {
        self.out as u64
    }

    /// Returns whether all Blocks are back. If so, those taken since the newest mark are back, too.
    pub fn is_whole(&self) -> bool
        ensures all { IsTrue result ↔ AreAllBack self.now }
        ensures top { IsTrue result → IsTopBack self.now }
    {
        self.out == 0
    }

    /// Counts the words that are out, in Blocks, from the newest mark on. If there are none, the mark can be released.
    pub fn out_since_top(&self) -> u64
        ensures count { result ≡ out_since_top self.now }
        ensures none { (result ≡ 0) ↔ IsTopBack self.now }
    {
        (self.out - self.top.out_below) as u64
    }

    /// Returns the number of the newest mark.
    pub fn top(&self) -> MarkNo
        ensures { result.0 ≡ self.now.top.number }
    {
        MarkNo(self.top.number)
    }

    /// Returns whether ten marks stand.
    pub fn is_full(&self) -> bool
        ensures { IsTrue result ↔ IsFull self.now }
    {
        self.older.len() == 9
    }

    /// Returns whether there is a number left for another mark.
    pub fn has_mark_numbers(&self) -> bool
        ensures { IsTrue result ↔ self.now.issued < 2 ^ 64 }
    {
        self.last < u64::MAX
    }

    /// Makes a mark at the words used so far, under a new number, or returns `None` if ten marks stand.
    pub fn mark(&mut self) -> Option<MarkNo>
        requires { self.old.issued < 2 ^ 64 }
        ensures { MatchOption result (IsFull self.old × (self.new ≡ self.old))
            (λ n. (¬ IsFull self.old) × (n.0 ≡ self.old.issued) × (self.new ≡ with_mark self.old)) }
    {
        if self.older.len() == 9 {
            return None;
        }
        let number = self.last + 1;
        self.older.push(self.top);
        self.top = StandingMark {
            number,
            start: self.used,
            out_below: self.out,
        };
        self.last = number;
        Some(MarkNo(number))
    }

    /// Takes the next `words` words, at least one, or returns `None` if fewer are left.
    pub fn take(&mut self, words: usize) -> Option<Block>
        requires { 1 ≤ words }
        ensures { MatchOption result ((size_of self.old < self.old.used + words) × (self.new ≡ self.old))
            (λ b. (self.old.used + words ≤ size_of self.old) × (b.home ≡ self.old.home)
            × (b.start ≡ self.old.used) × (b.words ≡ words_at self.old.places self.old.used words)
            × (self.new ≡ with_taken self.old words)) }
    {
        if words > self.size - self.used {
            return None;
        }
        let start = self.used;
        self.used += words;
        self.out += words;
        Some(self.region.cut(start, words))
    }

    /// Brings a Block of this pool back. Its words stay used until the mark before it is released.
    pub fn back(&mut self, block: Block)
        requires { block.home ≡ self.old.home }
        ensures { self.new ≡ with_back self.old block }
    {
        let start = block.start();
        let len = block.words().len();
        self.region.home(block);
        self.out -= len;
        self.top.bring_back(start, len);
        bring_back_each(self.older.as_mut_slice(), start, len);
    }

    /// Releases the newest mark, since which all Blocks are back: the words used since then are no longer used, and the
    /// mark is dropped. The first mark stays, under a new number.
    pub fn release(&mut self)
        requires back { IsTopBack self.old }
        requires numbers { self.old.issued < 2 ^ 64 }
        ensures used { self.new.used ≡ self.old.top.start }
        ensures places { (self.new.home ≡ self.old.home) × (self.new.places ≡ self.old.places) }
        ensures first { self.old.older ≡ [] → IsEmptied self.old self.new }
        ensures other { 0 < length self.old.older → IsDropped self.old self.new }
    {
        self.used = self.top.start;
        match self.older.pop() {
            Some(mark) => self.top = mark,
            None => {
                self.last += 1;
                self.top.number = self.last;
            }
        }
    }

    /// Closes the pool and frees its region. All Blocks are back.
    pub fn close(self)
        requires { AreAllBack self }
    {
        let MarkPool {
            region,
            size: _,
            used: _,
            out: _,
            top: _,
            older: _,
            last: _,
        } = self;
        region.close();
    }
}
