//! The cells of declared objects: they lie one object behind another, those of the newest object
//! last (RM 3.8).

ghost use Rattle.std.specs.Prelude.{◌≡◌, ◌+◌, ◌≤◌, ◌++◌, length, replicate, vec_capacity, vec_len};
ghost use Rattle.ctl_meaning.specs.Names.{scalar_of};
ghost use Rattle.ctl_meaning.specs.Objects.{cells_at};
ghost use Rattle.ctl_objects.specs.Declarations.{cell_written, cells_written, object_of, LieApart};

use crate::declarations::Declaration;

/// Adds so many cells of 0, for which there is room.
pub(crate) fn add_zeros(cells: &mut Vec<u64>, count: usize)
    requires { vec_len cells.old + count ≤ vec_capacity cells.old }
    ensures { cells.new.items ≡ cells.old.items ++ replicate count 0 }
{
    for _ in 0..count {
        cells.push_reserved(0);
    }
}

/// Reads a cell of a part of an object, by the first cell of the part; 0 where the object has no
/// such cell.
#[inline(always)]
pub(crate) fn read_cell(cells: &[u64], object: &Declaration, start: usize, offset: usize) -> u64
    requires { object.now.first + object.now.cells ≤ length cells.now }
    ensures { result ≡ scalar_of (cells_at (start + offset) 1 (object_of cells.now object.now)) }
{
    if start >= object.cells || offset >= object.cells - start {
        return 0;
    }
    cells[object.first + start + offset]
}

/// Writes a cell of a part of an object, by the first cell of the part; nothing where the object
/// has no such cell.
#[inline(always)]
pub(crate) fn write_cell(
    cells: &mut [u64],
    object: &Declaration,
    start: usize,
    offset: usize,
    value: u64,
)
    requires { object.now.first + object.now.cells ≤ length cells.old }
    ensures { cells.new ≡ cell_written object.now (start + offset) value cells.old }
{
    if start < object.cells && offset < object.cells - start {
        cells[object.first + start + offset] = value;
    }
}

/// Saves cells of an object, so many from one on, behind those that are saved already, for which
/// there is room; 0 for one that the object does not have.
pub(crate) fn save_cells(
    saved: &mut Vec<u64>,
    cells: &[u64],
    object: &Declaration,
    start: usize,
    count: usize,
)
    requires room { vec_len saved.old + count ≤ vec_capacity saved.old }
    requires lies { object.now.first + object.now.cells ≤ length cells.now }
    ensures { saved.new.items ≡ saved.old.items ++ cells_at start count (object_of cells.now object.now) }
{
    for at in 0..count {
        let value = read_cell(cells, object, start, at);
        saved.push_reserved(value);
    }
}

/// Writes these values into cells of an object, from one on; one for which the object has no cell
/// is not written.
pub(crate) fn write_cells(cells: &mut [u64], object: &Declaration, start: usize, values: &[u64])
    requires { object.now.first + object.now.cells ≤ length cells.old }
    ensures { cells.new ≡ cells_written object.now start values.now cells.old }
{
    for at in 0..values.len() {
        write_cell(cells, object, start, at, values[at]);
    }
}

/// Writes so many cells of one object, from one on, into cells of another object, from one on: 0
/// for a cell that the first does not have, and nothing where the second has no cell.
pub(crate) fn copy_cells(
    cells: &mut [u64],
    from: &Declaration,
    start: usize,
    to: &Declaration,
    target: usize,
    count: usize,
)
    requires from { from.now.first + from.now.cells ≤ length cells.old }
    requires to { to.now.first + to.now.cells ≤ length cells.old }
    requires apart { LieApart from.now to.now }
    ensures { cells.new ≡ cells_written to.now target (cells_at start count (object_of cells.old from.now)) cells.old }
{
    for at in 0..count {
        let value = read_cell(cells, from, start, at);
        write_cell(cells, to, target, at, value);
    }
}
