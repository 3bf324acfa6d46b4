//! Heaps that rise from nothing, by the unit in which a heap gives memory: those that are too small refuse, and all have
//! their bytes back in the end.

use crate::script::grow;
use crate::{areas, blocks, finalization, marks, regions, stores};
use fin_lists::FinLists;
use linked_list_allocator::LocalHeap;
use pool_area::MarkArea;
use pool_store::PoolStore;
use std::alloc::Global;

/// The unit in bytes in which a heap gives memory: the heaps rise by it from each to the next.
const HEAP_STEP: usize = 16;

/// What is made over a heap.
#[derive(Clone, Copy)]
enum Grown {
    Area,
    Standard,
    InBlocks,
    InSubpools,
    Blocks,
    Marks,
    Regions,
    Lists,
}

/// Makes all that there is over a heap: whether all was made, and whether else all was as it should be.
fn grow_on(heap: &LocalHeap, grown: Grown) -> [bool; 2] {
    match grown {
        Grown::Area => grow::<&LocalHeap, MarkArea<&LocalHeap>>(heap, 64, areas::GROWN),
        Grown::Standard => grow_store(heap, stores::GROWN),
        Grown::InBlocks => grow_store(heap, stores::GROWN_IN_BLOCKS),
        Grown::InSubpools => grow_store(heap, stores::GROWN_IN_SUBPOOLS),
        Grown::Blocks => blocks::grow_on(heap),
        Grown::Marks => marks::grow_on(heap),
        Grown::Regions => regions::grow_on(heap),
        Grown::Lists => grow::<&LocalHeap, FinLists<&LocalHeap>>(heap, 0, finalization::GROWN),
    }
}

fn grow_store(heap: &LocalHeap, text: &str) -> [bool; 2] {
    grow::<&LocalHeap, PoolStore<&LocalHeap>>(heap, 0, text)
}

/// Makes all over a heap of this size: whether all was made, or none if something was not as it should be.
fn made_in(alloc: Global, grown: Grown, size: usize) -> Option<bool> {
    let Ok(heap) = LocalHeap::new(alloc, size) else {
        return None;
    };
    let [all, same] = grow_on(&heap, grown);
    // A heap without room refuses.
    if same && heap.used() == 0 && (!all || size > 0) {
        Some(all)
    } else {
        None
    }
}

/// Says whether so many heaps behave: none refuses what a smaller one had room for, and the last has room for all.
fn refuses_each_growth(alloc: Global, grown: Grown, heaps: usize) -> bool {
    let mut made = false;
    for number in 0..heaps {
        match made_in(alloc, grown, HEAP_STEP.saturating_mul(number)) {
            Some(all) if all || !made => made = all,
            _ => return false,
        }
    }
    made
}

/// Says whether the heaps behave, for each that is made over them.
fn all_refused(alloc: Global) -> [bool; 8] {
    [
        refuses_each_growth(alloc, Grown::Area, 80),
        refuses_each_growth(alloc, Grown::Standard, 60),
        refuses_each_growth(alloc, Grown::InBlocks, 800),
        refuses_each_growth(alloc, Grown::InSubpools, 640),
        refuses_each_growth(alloc, Grown::Blocks, 40),
        refuses_each_growth(alloc, Grown::Marks, 40),
        refuses_each_growth(alloc, Grown::Lists, 200),
        refuses_each_growth(alloc, Grown::Regions, 40),
    ]
}

#[test]
fn each_growth_is_refused(rt: HostRuntime) {
    assert_eq!(rt; all_refused(rt.alloc()), [true; 8]);
}
