//! References that wait for their targets.

use tal_words::Rune;

/// A reference that waits for its target.
#[derive(Clone, Copy)]
pub struct Hole {
    /// What the reference represents.
    pub rune: Rune,
    /// The address of its first byte.
    pub address: u16,
}

/// What is known of a full name.
#[derive(Drop)]
pub struct Named {
    /// The address of its label, where it is defined.
    pub address: Option<u16>,
    /// The references that wait for it, in order.
    pub holes: Vec<Hole>,
}
