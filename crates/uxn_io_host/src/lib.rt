//! The outside of a process: the files beneath its current folder as a tree, and a standard stream as a sink.
#![tactic(auto)]

mod disk;
mod folder;
mod listing;
mod opened;
mod stream;
mod system;

pub use folder::CurrentFolder;
pub use stream::Stream;
