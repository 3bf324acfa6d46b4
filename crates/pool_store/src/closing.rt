// The end of a pool, and of what lies in it.
ghost use Rattle.std.specs.Prelude.{◌≡◌, false};
ghost use Rattle.std.specs.Option.{option_map_or};
ghost use Rattle.std.specs.FinMap.{get};
ghost use Rattle.pool_store.specs.Entries.{is_in, is_elsewhere, forgotten, AreHeldBy};
ghost use Rattle.pool_store.specs.Kept.{kept};

use crate::entry::Entry;
use number_map::NumberMap;
use pool_area::BlockArea;
use std::alloc::Allocator;

/// Frees a pool of blocks with the objects that lie in it.
pub fn close_area<A: Allocator>(objects: &mut NumberMap<Entry<A>, A>, pool: u64, area: BlockArea<A>)
    requires { AreHeldBy pool area objects.old.values }
    ensures { objects.new.values ≡ kept (is_elsewhere pool) objects.old.values }
{
    let mut area = area;
    while let Some(returned) = area.give_back() {
        forget(objects, pool, returned.object);
    }
    area.close();
}

// Removes the object of a block, if it is in this pool.
fn forget<A: Allocator>(objects: &mut NumberMap<Entry<A>, A>, pool: u64, object: Option<u64>)
    ensures { objects.new.values ≡ forgotten pool object objects.old.values }
{
    let Some(object) = object else {
        return;
    };
    if lies_in(objects, pool, object) {
        let _ = objects.remove(object);
    }
}

fn lies_in<A: Allocator>(objects: &NumberMap<Entry<A>, A>, pool: u64, object: u64) -> bool
    ensures { result ≡ option_map_or (is_in pool) (get objects.now.values object) false }
{
    match objects.get(object) {
        Some(entry) => entry.is_in(pool),
        None => false,
    }
}
