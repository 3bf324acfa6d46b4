//! The check of declarations: types with their components, objects, exceptions, instances, and the headings of subprograms.
//!
//! "RM" is ISO/IEC 8652:2012.
#![tactic(auto)]

pub mod components;
pub mod definitions;
pub mod discriminants;
pub mod exceptions;
pub mod formals;
pub mod headings;
pub mod incomplete;
pub mod instances;
pub mod objects;
pub mod overriding;
pub mod own_names;
pub mod pool_clauses;
pub mod records;
