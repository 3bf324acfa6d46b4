//! The cells of an object, as words in the object store.

ghost use Rattle.std.specs.Prelude.{◌≡◌, ◌+◌, ◌++◌, drop, length, slice_index_or, vec_capacity, vec_len, ◌≤◌};
ghost use Rattle.ctl_meaning.specs.Objects.{first_cells};
ghost use Rattle.pool_store.specs.Store.{with_word, words_of};
ghost use Rattle.ctl_storage.specs.Inside.{words_written};

use pool_store::PoolStore;

/// Reads a cell of an object with so many cells, by the first cell of a part; 0 where the object
/// has no such cell.
#[inline(always)]
pub(crate) fn read_word(
    store: &PoolStore,
    number: u64,
    cells: usize,
    start: usize,
    offset: usize,
) -> u64
    requires { cells ≡ length (words_of number store.now) }
    ensures { result ≡ slice_index_or (words_of number store.now) (start + offset) 0 }
{
    if start >= cells || offset >= cells - start {
        return 0;
    }
    match store.read(number, start + offset) {
        Ok(value) => value,
        Err(_gone) => 0,
    }
}

/// Writes a cell of an object with so many cells, by the first cell of a part; nothing where the
/// object has no such cell.
#[inline(always)]
pub(crate) fn write_word(
    store: &mut PoolStore,
    number: u64,
    cells: usize,
    start: usize,
    offset: usize,
    value: u64,
)
    requires { cells ≡ length (words_of number store.old) }
    ensures { store.new ≡ with_word number (start + offset) value store.old }
{
    if start < cells && offset < cells - start {
        let _ = store.write(number, start + offset, value);
    }
}

/// Saves cells of an object with so many cells, so many from one on, for which there is room; 0 for
/// one that the object does not have.
pub(crate) fn save_words(
    saved: &mut Vec<u64>,
    store: &PoolStore,
    number: u64,
    cells: usize,
    start: usize,
    count: usize,
)
    requires room { vec_len saved.old + count ≤ vec_capacity saved.old }
    requires cells { cells ≡ length (words_of number store.now) }
    ensures { saved.new.items ≡ saved.old.items ++ first_cells count (drop start (words_of number store.now)) }
{
    for at in 0..count {
        let value = read_word(store, number, cells, start, at);
        saved.push_reserved(value);
    }
}

/// Writes these values into cells of an object with so many cells, from one on; one for which the
/// object has no cell is not written.
pub(crate) fn write_words(
    store: &mut PoolStore,
    number: u64,
    cells: usize,
    start: usize,
    values: &[u64],
)
    requires { cells ≡ length (words_of number store.old) }
    ensures { store.new ≡ words_written number start values.now store.old }
{
    for at in 0..values.len() {
        write_word(store, number, cells, start, at, values[at]);
    }
}
