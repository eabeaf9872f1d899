//! Sinks and trees that are kept in memory, have known contents and fail on demand. Nothing else here rests on them.
mod places;
mod sinks;
mod trees;

pub use sinks::MemSink;
pub use trees::{MemTree, Node, TreeCall};
