//! What is requested of a tree.
use super::Path;

/// A request: a call of a tree, with its path. Calls that read on in a file from a later byte belong to the one that began.
#[derive(Clone, Copy)]
pub enum TreeRequest {
    /// `Tree::kind` was called.
    LooksAt(Path),
    /// `Tree::read` was called for the first byte.
    Reads(Path),
    /// `Tree::names` was called.
    Lists(Path),
    /// `Tree::create` was called.
    Makes(Path),
    /// `Tree::append` was called.
    AppendsTo(Path),
    /// `Tree::remove` was called.
    TakesAway(Path),
}
