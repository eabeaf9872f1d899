//! What is outside of a call.
use uxn_io_traits::{Sink, Tree};

/// What a call sees and changes: a tree of files, the standard output and the error output.
#[derive(Drop)]
pub struct Host<'t, 'o, 'e, T: Tree, O: Sink, E: Sink> {
    /// The tree.
    pub tree: &'t mut T,
    /// The standard output.
    pub out: &'o mut O,
    /// The error output.
    pub err: &'e mut E,
}
