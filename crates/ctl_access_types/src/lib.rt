//! Access types as they are declared, and the incomplete types that they may designate (RM 3.10, 3.10.1).
#![tactic(auto)]

pub mod accesses;
