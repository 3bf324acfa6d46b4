//! What is shown of objects.

ghost use Rattle.std.specs.Prelude.{◌≡◌, ◌<◌, ◌++◌, vec_capacity, vec_len};
ghost use Rattle.ctl_code.specs.Table as Table;

use ctl_tree::event::{Event, Owner, Part};
use ctl_tree::text::Path;
use std::alloc::Global;

/// Names an object as a whole.
pub fn whole(alloc: Global, object: u64) -> Part
    ensures { result ≡ Table.whole_part object }
{
    Part {
        object,
        path: Path::new(alloc),
    }
}

/// Shows that a part of an object of this owner has come to life, where the user wrote a Finalize for its type (RM 7.6).
#[inline(always)]
pub fn show_life(events: &mut Vec<Event>, part: Part, owner: Owner, finalize: Option<usize>)
    requires { vec_len events.old < vec_capacity events.old }
    ensures { events.new.items ≡ events.old.items ++ Table.birth finalize part owner }
{
    if finalize.is_some() {
        events.push_reserved(Event::Live(part, owner));
    }
}
