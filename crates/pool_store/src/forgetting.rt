// The objects that are gone once their subpool is released, or their pool with marks closed.
ghost use Rattle.std.specs.Prelude.{◌≡◌, false};
ghost use Rattle.std.specs.Option.{option_map_or};
ghost use Rattle.std.specs.FinMap.{get};
ghost use Rattle.pool_store.specs.Cells.{is_in_subpool, is_out_of_subpool, is_out_of_pool, forgotten, AreHeldIn};
ghost use Rattle.pool_store.specs.Kept.{kept};
ghost use Rattle.pool_store.specs.Store.{others};

use crate::cell::Cell;
use number_map::NumberMap;
use pool_area::MarkArea;
use std::alloc::Allocator;

/// Removes the objects in the subpools of a pool.
pub fn forget_pool<A: Allocator>(cells: &mut NumberMap<Cell, A>, pool: u64, area: &MarkArea<A>)
    requires { AreHeldIn pool area.now cells.old.values }
    ensures { cells.new.values ≡ kept (is_out_of_pool pool) cells.old.values }
{
    for place in 0..area.len() {
        if let Some(subpool) = area.number_at(place) {
            forget_subpool(cells, pool, area, subpool);
        }
    }
}

/// Removes the objects in a subpool.
pub fn forget_subpool<A: Allocator>(
    cells: &mut NumberMap<Cell, A>,
    pool: u64,
    area: &MarkArea<A>,
    subpool: u64,
)
    requires { AreHeldIn pool area.now cells.old.values }
    ensures { cells.new.values ≡ kept (is_out_of_subpool pool subpool) cells.old.values }
{
    for index in 0..area.count(subpool) {
        forget(cells, pool, subpool, area.object(subpool, index));
    }
}

// Removes the object of a block, if it is in this subpool.
fn forget<A: Allocator>(
    cells: &mut NumberMap<Cell, A>,
    pool: u64,
    subpool: u64,
    object: Option<u64>,
)
    ensures { cells.new.values ≡ forgotten pool subpool object cells.old.values }
{
    let Some(object) = object else {
        return;
    };
    if lies_in(cells, pool, subpool, object) {
        let _ = cells.remove(object);
    }
}

fn lies_in<A: Allocator>(cells: &NumberMap<Cell, A>, pool: u64, subpool: u64, object: u64) -> bool
    ensures { result ≡ option_map_or (is_in_subpool pool subpool) (get cells.now.values object) false }
{
    match cells.get(object) {
        Some(cell) => cell.pool == pool && cell.subpool == subpool,
        None => false,
    }
}

/// Removes a number from the list.
pub fn forget_number<A: Allocator>(numbers: &mut Vec<u64, A>, number: u64)
    ensures { numbers.new.items ≡ others number numbers.old.items }
{
    numbers.retain(|other| *other != number);
}
