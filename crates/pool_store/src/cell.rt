/// The place of an object in a subpool: its pool and the subpool, by their numbers, and its block there, from 0 for the
/// oldest.
#[derive(Clone, Copy, Debug, PartialEq, Eq, Drop)]
pub struct Cell {
    pub pool: u64,
    pub subpool: u64,
    pub index: usize,
}
