//! Sinks for the bytes of a run. A sink takes some of the bytes that it is given, or fails and remembers that it did.
#![tactic(auto)]

mod all;
mod through;
mod traits;

pub use all::put_all;
pub use through::Through;
pub use traits::{PutFault, Sink};
