use crate::script::{Call, Tested, wrong_line};
use pool_area::{MarkArea, Standing};
use std::alloc::{Allocator, Global};

// The calls, each with its condition tested first. 1000 stands for a condition that does not hold, 2000 for memory.

fn create<A: Allocator + Copy>(area: &mut MarkArea<A>, alloc: A, number: u64) -> bool {
    if area.len() >= 10 || number == u64::MAX || area.given() >= number {
        return false;
    }
    area.create(alloc, number);
    true
}

fn allocate<A: Allocator>(area: &mut MarkArea<A>, number: u64, object: u64, words: usize) -> usize {
    if words < 1 || words > 4096 {
        return 1000;
    }
    if !area.is_last(number) || area.is_overfull(words as u64 * 8) {
        return 1000;
    }
    match area.allocate(number, object, words) {
        Ok(index) => index,
        Err(_) => 2000,
    }
}

fn read<A: Allocator>(area: &MarkArea<A>, number: u64, index: usize, place: usize) -> u64 {
    if place >= area.block_len(number, index) {
        return 1000;
    }
    area.word(number, index, place)
}

fn write<A: Allocator>(
    area: &mut MarkArea<A>,
    number: u64,
    index: usize,
    place: usize,
    value: u64,
) -> bool {
    if place >= area.block_len(number, index) {
        return false;
    }
    area.set_word(number, index, place, value);
    true
}

fn drop_last<A: Allocator>(area: &mut MarkArea<A>, number: u64) -> bool {
    if number == u64::MAX || area.given() >= number {
        return false;
    }
    area.drop_last(number);
    true
}

fn release<A: Allocator>(area: &mut MarkArea<A>, number: u64, next: u64) -> bool {
    if next == u64::MAX || area.given() >= next {
        return false;
    }
    area.release(number, next)
}

/// Copies the first three words of a block to the places from the second on.
fn copy_words<A: Allocator>(area: &mut MarkArea<A>, number: u64) -> bool {
    if area.block_len(number, 0) < 4 {
        return false;
    }
    area.copy_within(number, 0, 0, 1, 3);
    true
}

fn kill<A: Allocator>(area: &mut MarkArea<A>, number: u64) -> bool {
    area.set_standing(number, Standing::Dead);
    area.is_last_dead()
}

fn vacate<A: Allocator>(area: &mut MarkArea<A>, number: u64, index: usize) -> usize {
    area.vacate(number, index);
    area.block_len(number, index)
}

/// Tells how a subpool stands: 1 where it is attached, 2 where it is detached, 3 where it is dead, 0 for none.
fn standing_of<A: Allocator>(area: &MarkArea<A>, number: u64) -> u64 {
    match area.standing(number) {
        Some(Standing::Attached) => 1,
        Some(Standing::Detached) => 2,
        Some(Standing::Dead) => 3,
        None => 0,
    }
}

/// Tells a number, and 3000 where there is none.
fn or_none(number: Option<u64>) -> u64 {
    match number {
        Some(number) => number,
        None => 3000,
    }
}

impl<A: Allocator + Copy> Tested<A> for MarkArea<A> {
    fn new(alloc: A, units: u64) -> Option<MarkArea<A>> {
        if units < 8 || units > 16777216 {
            return None;
        }
        match MarkArea::new(alloc, units, 1) {
            Ok(area) => Some(area),
            Err(_) => None,
        }
    }

    /// Makes one call: Allocate number object words, Create number, Drop number, Free number next (`release`), Kill number
    /// (whether the last one is dead then), Move number (`copy_words`), Vacate number index (the block's length then), and
    /// Write number index place value.
    fn answer(&mut self, alloc: A, call: Call) -> u64 {
        let [_, b, c, d, e, _] = call.numbers;
        match call.letter {
            b'A' => allocate(self, c, d, e as usize) as u64,
            b'C' => create(self, alloc, e) as u64,
            b'D' => drop_last(self, e) as u64,
            b'F' => release(self, d, e) as u64,
            b'K' => kill(self, e) as u64,
            b'M' => copy_words(self, e) as u64,
            b'V' => vacate(self, d, e as usize) as u64,
            b'W' => write(self, b, c as usize, d as usize, e) as u64,
            _ => told(self, call),
        }
    }

    fn close(self) {
        self.close();
    }
}

/// Asks a question: blocks number (`count`), dead (`is_last_dead`), holder number index (`object`), last (`last_number`),
/// number place (`number_at`), overfull units, pools (`len`), read number index place, and standing number.
fn told<A: Allocator>(area: &MarkArea<A>, call: Call) -> u64 {
    let [_, _, c, d, e, _] = call.numbers;
    match call.letter {
        b'b' => area.count(e) as u64,
        b'd' => area.is_last_dead() as u64,
        b'h' => or_none(area.object(d, e as usize)),
        b'l' => or_none(area.last_number()),
        b'n' => or_none(area.number_at(e as usize)),
        b'o' => area.is_overfull(e) as u64,
        b'p' => area.len() as u64,
        b'r' => read(area, c, d as usize, e as usize),
        b's' => standing_of(area, e),
        _ => 4000,
    }
}

const AREAS: &str = "\
# Blocks are taken in the last subpool: of four words two in the first subpool, 1, and two in a further one, 2.
Allocate 1 7 2=0; Write 1 0 1 5=1; Create 2=1; Allocate 1 9 1=1000; Allocate 2 8 3=1000; Allocate 2 8 2=0; Write 2 0 0 6=1;
overfull 8=1; read 1 0 1=5; read 2 0 0=6; read 2 0 1=0; holder 1 0=7; holder 2 0=8; holder 2 1=3000;
blocks 1=1; blocks 2=1; blocks 3=0; Vacate 2 0=0; holder 2 0=3000; overfull 8=1;

# The last subpool is dropped, twice, while the first is dead; in the one that stands then the whole pool is taken.
Allocate 1 7 2=0; Write 1 0 1 5=1; Create 2=1; Allocate 1 9 1=1000; Allocate 2 8 3=1000; Allocate 2 8 2=0; Write 2 0 0 6=1;
Kill 1=0; standing 1=3; standing 2=1; standing 3=0; dead =0;
Drop 3=1; pools =1; last =1; dead =1; Drop 3=1; pools =1; last =3; standing 3=1; Allocate 3 7 4=0; read 3 0 1=0;

# A release drops the dead ones: of three the second is released, which stays, without its object, until the third is.
Create 2=1; Allocate 2 6 1=0; Create 3=1; Allocate 3 7 3=0;
Free 2 9=0; pools =3; standing 2=3; overfull 8=1; holder 2 0=3000; holder 3 0=7;
Free 3 9=1; pools =1; last =1; overfull 32=0; Free 1 9=1; pools =1; last =9; dead =0;

# Words are copied.
Allocate 1 7 4=0; Write 1 0 0 1=1; Write 1 0 1 2=1; Move 1=1; read 1 0 0=1; read 1 0 1=1; read 1 0 2=2; read 1 0 3=0;
";

/// A pool of one word, in which ten subpools stand, and no more.
const TEN: &str = "\
Create 2=1; Create 3=1; Create 4=1; Create 5=1; Create 6=1; Create 7=1; Create 8=1; Create 9=1; Create 10=1; Create 11=0;
Create 12=0; pools =10; number 0=1; number 9=10; number 10=3000;
";

/// Tells the first wrong lines, those of the pools of four words first.
fn wrong_lines(alloc: Global) -> [u64; 2] {
    [
        wrong_line::<MarkArea<Global>>(alloc, 32, AREAS),
        wrong_line::<MarkArea<Global>>(alloc, 8, TEN),
    ]
}

#[test]
fn subpools_and_blocks(rt: HostRuntime) {
    assert_eq!(rt; wrong_lines(rt.alloc()), [0, 0]);
}

/// Two subpools of a pool of 64 storage units, with an object each.
pub const GROWN: &str = "\
Allocate 1 7 2=0;
? read 1 0 1=1000; Create 2=1; Allocate 2 8 2=2000; read 1 0 1=1000; read 2 0 1=1000;
Write 1 0 1 5=1; Create 2=1;
Allocate 2 8 2=0;
? read 1 0 1=5; read 2 0 1=1000;
read 1 0 1=5; read 2 0 1=0;
";
