//! The numbers of what the library declares, which stands first in the tables of each program. `specs/Library.antt` has the same numbers.

// Record types (RM 7.6, 13.11, profile).

pub const CONTROLLED: usize = 0;

pub const LIMITED_CONTROLLED: usize = 1;

pub const BLOCK_POOL: usize = 2;

pub const MARK_RELEASE_POOL: usize = 3;

// Exceptions of Standard (RM 11.1).

pub const CONSTRAINT_ERROR: usize = 0;

pub const PROGRAM_ERROR: usize = 1;

pub const STORAGE_ERROR: usize = 2;
