//! Parts of objects, as operands and formals stand for them.

ghost use Rattle.std.specs.Prelude.{◌≡◌, ◌+◌, ◌++◌, [], ◌∷◌, ◌≤◌, IfOk, OnErr, OnOk, drop, slice_get, vec_capacity, vec_len, IsTrue};
ghost use Rattle.ctl_code.specs.Table as Table;
ghost use Rattle.ctl_meaning.specs.Lists.{begins, same_list};
ghost use Rattle.ctl_meaning.specs.Finalization.{is_whole};
ghost use Rattle.ctl_meaning.specs.Names.{scalar_of};
ghost use Rattle.ctl_meaning.specs.Objects.{first_cells};
ghost use Rattle.ctl_frames.specs.Spots.{cell_or, value_spot, whole_spot};

use ctl_tree::event::Part;
use ctl_tree::text::Path;
use room::reserve;
use std::alloc::{AllocError, Global};
use std::marker::Model;

/// A part of an object: the number of the object, the first cell of the part in it, and the way to it (RM 3.2). The value of a record that is
/// an operand stands among the parts as one of no object, its cells in place of the way.
///
/// A contract sees it as the table of instructions does.
#[derive(Drop)]
pub struct Spot {
    object: u64,
    offset: usize,
    path: Vec<u64>,
}

/// Where a part of an object begins to which no way leads: the number of the object, and the first cell of the part in it.
#[derive(Clone, Copy)]
pub struct Start {
    pub object: u64,
    pub offset: usize,
}

impl Model for Spot {
    ghost use Rattle.ctl_meaning.specs.Finalization as F;

    ghost Value = { F.Spot };

    ghost view = { λ s. record { object = s.object; offset = s.offset; path = s.path.items } };
}

impl Spot {
    /// Answers the whole of an object.
    #[inline(always)]
    pub fn whole(alloc: Global, object: u64) -> Spot
        ensures { result ≡ whole_spot object }
    {
        Spot {
            object,
            offset: 0,
            path: Vec::new(alloc),
        }
    }

    /// Answers the part of an object that begins with this cell, and to which no way leads.
    #[inline(always)]
    pub fn without_path(alloc: Global, object: u64, offset: usize) -> Spot
        ensures { result ≡ record { object = object; offset = offset; path = [] } }
    {
        Spot {
            object,
            offset,
            path: Vec::new(alloc),
        }
    }

    /// Tells whether no way leads to it, as to the whole of an object.
    #[inline(always)]
    pub fn has_no_path(&self) -> bool
        ensures { IsTrue result → self.now.path ≡ [] }
    {
        self.path.is_empty()
    }

    /// Answers the value of a record with these cells, as it stands among the parts.
    pub fn of_value(cells: Vec<u64>) -> Spot
        ensures { result ≡ value_spot cells.items }
    {
        Spot {
            object: 0,
            offset: 0,
            path: cells,
        }
    }

    /// Answers the cells of the value of a record, which stands among the parts.
    pub fn cells(&self) -> &[u64]
        ensures { result.now ≡ self.now.path }
    {
        self.path.as_slice()
    }

    /// Answers the cell at this place of the value of a record, which stands among the parts; 0 for one that it does not have.
    #[tactic(auto, using(crate::proofs::FirstCells::cell_there))]
    pub fn cell(&self, at: usize) -> u64
        ensures { result ≡ scalar_of (drop at self.now.path) }
    {
        cell_of(self.path.as_slice(), at)
    }

    /// Answers so many of the first cells of the value of a record, which stands among the parts, as `first_of` does.
    pub fn first_cells(&self, alloc: Global, count: usize) -> Result<Vec<u64>, AllocError>
        ensures { IfOk result (λ cells. cells.items ≡ first_cells count self.now.path) }
    {
        first_of(alloc, self.path.as_slice(), count)
    }

    /// Saves so many of the first cells of the value of a record, which stands among the parts, behind those that are saved already, for which
    /// there is room; 0 for each that it does not have.
    pub fn save(&self, count: usize, saved: &mut Vec<u64>)
        requires { vec_len saved.old + count ≤ vec_capacity saved.old }
        ensures { saved.new.items ≡ saved.old.items ++ first_cells count self.now.path }
    {
        save_first(self.path.as_slice(), count, saved);
    }

    /// Answers the value of a component of the value of a record, which stands among the parts, by the first cell of the component (RM 4.1.3).
    pub fn component(&self, alloc: Global, offset: usize) -> Result<Spot, AllocError>
        ensures { IfOk result (λ s. s ≡ value_spot (drop offset self.now.path)) }
    {
        let start = offset.min(self.path.len());
        let cells = Vec::from_slice(alloc, &self.path.as_slice()[start..])?;
        Ok(Spot::of_value(cells))
    }

    /// Answers the number of its object.
    pub fn object(&self) -> u64
        ensures { result ≡ self.now.object }
    {
        self.object
    }

    /// Answers its first cell in the object.
    pub fn offset(&self) -> usize
        ensures { result ≡ self.now.offset }
    {
        self.offset
    }

    /// Answers a copy.
    #[inline(always)]
    pub fn copied(&self, alloc: Global) -> Result<Spot, AllocError>
        ensures { IfOk result (λ s. s ≡ self.now) }
    {
        Ok(Spot {
            object: self.object,
            offset: self.offset,
            path: copied_path(alloc, self.path.as_slice())?,
        })
    }

    /// Answers a copy of the value of a record, which stands among the parts.
    pub fn copied_value(&self, alloc: Global) -> Result<Spot, AllocError>
        ensures { IfOk result (λ s. s ≡ value_spot self.now.path) }
    {
        let cells = copied_path(alloc, self.path.as_slice())?;
        Ok(Spot::of_value(cells))
    }

    /// Tells whether it is the whole of its object.
    #[tactic(auto, unfolding(ctl_meaning::specs::Finalization::is_whole))]
    pub fn is_whole(&self) -> bool
        ensures { result ≡ is_whole self.now }
    {
        is_same_path(self.path.as_slice(), &[])
    }

    /// Answers the part as what is shown names it.
    #[inline(always)]
    pub fn part(&self, alloc: Global) -> Result<Part, AllocError>
        ensures { IfOk result (λ p. p ≡ Table.part_at self.now) }
    {
        Ok(Part {
            object: self.object,
            path: shown_path(alloc, self.path.as_slice())?,
        })
    }

    /// Goes on to a component of the part, by its first cell in the part and its position; unchanged where memory is refused (RM 4.1.3).
    pub fn select(&mut self, offset: usize, position: usize) -> Result<(), AllocError>
        ensures ok { OnOk result (self.new ≡ Table.component_of self.old offset position) }
        ensures err { OnErr result (self.new ≡ self.old) }
    {
        let start = self.offset.checked_add(offset).ok_or(AllocError)?;
        self.path.push(position as u64)?;
        self.offset = start;
        Ok(())
    }

    /// Tells whether both are one part of one object.
    pub fn is_same(&self, other: &Spot) -> bool
        ensures { result ≡ Table.is_same_part self.now other.now }
    {
        self.object == other.object && is_same_path(self.path.as_slice(), other.path.as_slice())
    }

    /// Tells whether it has the same way to it as another part, of the same object.
    pub fn has_path_of(&self, other: &Spot) -> bool
        ensures { result ≡ same_list other.now.path self.now.path }
    {
        is_same_path(other.path.as_slice(), self.path.as_slice())
    }

    /// Tells whether it is the component at this position of a part of the same object, or lies in that component.
    pub fn lies_in(&self, whole: &Spot, position: usize) -> bool
        ensures { result ≡ begins (whole.now.path ++ position ∷ []) self.now.path }
    {
        lies_below(self.path.as_slice(), whole.path.as_slice(), position as u64)
    }
}

/// Answers the cell at this place; 0 for one that is not there.
fn cell_of(cells: &[u64], at: usize) -> u64
    ensures { result ≡ cell_or (slice_get cells.now at) }
{
    match cells.get(at) {
        Some(cell) => *cell,
        None => 0,
    }
}

/// Answers so many of these cells, the first ones; 0 for each that is not there.
pub fn first_of(alloc: Global, cells: &[u64], count: usize) -> Result<Vec<u64>, AllocError>
    ensures { IfOk result (λ first. first.items ≡ first_cells count cells.now) }
{
    let mut first = Vec::new(alloc);
    reserve(&mut first, count)?;
    save_first(cells, count, &mut first);
    Ok(first)
}

/// Saves so many of these cells, the first ones, behind those that are saved already, for which there is room; 0 for each that is not there.
fn save_first(cells: &[u64], count: usize, saved: &mut Vec<u64>)
    requires { vec_len saved.old + count ≤ vec_capacity saved.old }
    ensures { saved.new.items ≡ saved.old.items ++ first_cells count cells.now }
{
    for at in 0..count {
        let cell = cell_of(cells, at);
        saved.push_reserved(cell);
    }
}

/// Copies the path of a part; that of a whole object asks for no memory.
#[inline(always)]
fn copied_path(alloc: Global, path: &[u64]) -> Result<Vec<u64>, AllocError>
    ensures { IfOk result (λ copy. copy.items ≡ path.now) }
{
    if path.is_empty() {
        return Ok(Vec::new(alloc));
    }
    Vec::from_slice(alloc, path)
}

/// Copies the path of a part for what is shown of it; that of a whole object is made at once, which most are.
#[inline(always)]
fn shown_path(alloc: Global, path: &[u64]) -> Result<Path, AllocError>
    ensures { IfOk result (λ copy. copy ≡ path.now) }
{
    if path.is_empty() {
        return Ok(Path::new(alloc));
    }
    Path::from_slice(alloc, path)
}

/// Tells whether two paths are the same.
fn is_same_path(path: &[u64], other: &[u64]) -> bool
    ensures { result ≡ same_list path.now other.now }
{
    if path.len() != other.len() {
        return false;
    }
    for at in 0..path.len() {
        if path[at] != other[at] {
            return false;
        }
    }
    true
}

/// Tells whether a path begins with another one.
fn begins_with(path: &[u64], beginning: &[u64]) -> bool
    ensures { result ≡ begins beginning.now path.now }
{
    if path.len() < beginning.len() {
        return false;
    }
    for at in 0..beginning.len() {
        if path[at] != beginning[at] {
            return false;
        }
    }
    true
}

/// Tells whether a path begins with another one, and then this position.
fn lies_below(path: &[u64], whole: &[u64], position: u64) -> bool
    ensures { result ≡ begins (whole.now ++ position ∷ []) path.now }
{
    let depth = whole.len();
    if path.len() <= depth {
        return false;
    }
    position == path[depth] && begins_with(path, whole)
}
