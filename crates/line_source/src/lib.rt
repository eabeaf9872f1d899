//! Text that arrives while it is used: a source of bytes, and its lines one after the other.
#![tactic(auto)]

mod lines;
mod memory;
mod source;
mod stream;
#[cfg(test)]
mod tests;

pub use lines::{Ending, LineStop, next_line};
pub use memory::MemSource;
pub use source::Source;
pub use stream::InputStream;
