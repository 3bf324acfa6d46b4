ghost use Rattle.std.specs.Prelude.{◌≡◌, replicate};
ghost use Rattle.raw_region.specs.Places.{held};

use linked_list_allocator::LocalHeap;
use raw_region::{PoolFault, RawRegion};
use std::alloc::{AllocError, Allocator, Global};

/// Cuts two Blocks out of eight words, writes through them, and reads after they are home.
fn used<A: Allocator>(region: RawRegion<A>) -> [u64; 5]
    requires { region.places ≡ held (replicate 8 0) }
{
    let mut region = region;
    region.write(7, 5);
    let mut first = region.cut(0, 3);
    let mut second = region.cut(3, 4);
    first.words_mut()[2] = 9;
    second.words_mut()[0] = 4;
    let seen = first.words()[2];
    region.home(second);
    region.home(first);
    let read = [
        region.read(2),
        region.read(3),
        region.read(7),
        region.read(0),
        seen,
    ];
    region.close();
    read
}

/// Cuts both words of a region out as Blocks, writes them, and brings them home at once: where they start, and the words.
fn brought_both(region: RawRegion<Global>) -> ([usize; 2], [u64; 2])
    requires { region.places ≡ held (replicate 2 0) }
{
    let mut region = region;
    let mut first = region.cut(0, 1);
    let mut second = region.cut(1, 1);
    first.words_mut()[0] = 1;
    second.words_mut()[0] = 2;
    let starts = [first.start(), second.start()];
    region.home_both(first, second);
    let words = [region.read(0), region.read(1)];
    region.close();
    (starts, words)
}

fn brings_words_home(alloc: Global) -> bool {
    match RawRegion::open(alloc, 8) {
        Ok(region) => used(region) == [9, 4, 5, 0, 9],
        Err(_) => false,
    }
}

fn brings_both_home(alloc: Global) -> bool {
    match RawRegion::open(alloc, 2) {
        Ok(region) => brought_both(region) == ([0, 1], [1, 2]),
        Err(_) => false,
    }
}

/// Writes the texts of the faults.
fn texts(alloc: Global) -> Result<String, AllocError> {
    format!(in alloc; "{}; {}", PoolFault::Size, PoolFault::Memory)
}

fn are_faults_told(alloc: Global) -> bool {
    let wanted = "the pool's size is out of range; out of memory";
    let right = match texts(alloc) {
        Ok(texts) => texts.as_str() == wanted,
        Err(_) => false,
    };
    right && PoolFault::Size.code() == 50 && PoolFault::Memory.code() == 9
}

/// Says whether Blocks bring their words home, one after the other and both at once, and faults have their numbers and texts.
fn all_right(alloc: Global) -> [bool; 3] {
    [
        brings_words_home(alloc),
        brings_both_home(alloc),
        are_faults_told(alloc),
    ]
}

#[test]
fn regions_and_faults(rt: HostRuntime) {
    assert_eq!(rt; all_right(rt.alloc()), [true; 3]);
}

/// Opens a region over a heap, of which it needs one allocation: whether it was opened, and whether it takes its words and
/// works.
pub fn grow_on(heap: &LocalHeap) -> [bool; 2] {
    match RawRegion::open(heap, 8) {
        Ok(region) => {
            let taken = heap.used() >= 64;
            [true, used(region) == [9, 4, 5, 0, 9] && taken]
        }
        Err(_) => [false, true],
    }
}
