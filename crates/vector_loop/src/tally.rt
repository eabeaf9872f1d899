//! What is counted in a run.

/// How a vector ended.
#[derive(Clone, Copy)]
pub enum VectorEnd {
    /// Its last instruction was BRK.
    Broke,
    /// It ran as many instructions as it was allowed, and none was BRK.
    Cut,
}

/// What was counted so far.
#[derive(Clone, Copy)]
pub struct Tally {
    /// The instructions run.
    pub instructions: u64,
    /// The vectors begun.
    pub vectors: u64,
    /// The vectors that were cut.
    pub cuts: u64,
    /// The events of the script begun.
    pub events: u64,
    /// The frames among them.
    pub frames: u64,
    /// The shots among them.
    pub shots: u64,
    /// The expects among them.
    pub expects: u64,
    /// The expects whose port did not read the byte.
    pub misses: u64,
}
