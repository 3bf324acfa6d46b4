//! What is known of a block pool, and what its calls answer (RM 13.11).

/// The discriminants of a block pool: how many storage units a block has, and how many blocks there
/// are.
#[derive(Clone, Copy, PartialEq, Eq)]
pub struct PoolSize {
    pub block_size: u64,
    pub block_count: usize,
}

/// Whether a pool gives blocks, or has closed.
#[derive(Clone, Copy)]
pub enum PoolState {
    Open,
    Closed,
}

/// A block pool: its discriminants, and whether it is open.
#[derive(Clone, Copy)]
pub struct Pool {
    pub size: PoolSize,
    pub state: PoolState,
}

/// Whether a block came back to its pool.
#[derive(Clone, Copy)]
pub enum BlockReturn {
    Accepted,
    /// No block of the pool is out under the address, or it holds an object.
    Refused,
}

/// Whether an object was put into a block.
#[derive(Clone, Copy)]
pub enum Placing {
    Placed,
    /// No block of the pool is out under the address, or it holds an object, or is too small.
    Refused,
}
