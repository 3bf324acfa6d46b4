//! The bounds of the number types (RM 3.5.4, 13.7.1, profile). `specs/Limits.antt` has the same numbers.

/// Integer'Last (RM 3.5.4).
pub const INTEGER_LAST: i64 = 2_147_483_647;

/// Integer'First (RM 3.5.4).
pub const INTEGER_FIRST: i64 = -INTEGER_LAST - 1;

/// The cell of Integer'Last.
pub const INTEGER_LAST_CELL: u64 = INTEGER_LAST as u64;

/// The cell of Integer'First: a negative number counts down from 2 ** 64.
pub const INTEGER_FIRST_CELL: u64 = u64::MAX - INTEGER_LAST_CELL;

/// Storage_Count'Last (RM 13.7.1).
pub const STORAGE_COUNT_LAST: u64 = INTEGER_LAST_CELL;
