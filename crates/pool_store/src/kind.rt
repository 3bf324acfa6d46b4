/// The pools that are open under a number. A pool of blocks and a pool with marks may have the same one.
#[derive(Clone, Copy, Debug, PartialEq, Eq)]
pub enum PoolKind {
    /// a pool of blocks
    Blocks,
    /// a pool with marks
    Marks,
    /// one of each
    Both,
}
