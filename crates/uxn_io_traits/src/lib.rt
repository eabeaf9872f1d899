//! What the program meets outside itself: sinks that take bytes, trees of files, and paths in them; an outside that is not there; and
//! inquiries: what a call asks of a tree, one question after the other, and what it answers by the replies.
#![tactic(auto)]

mod asking;
mod bytes;
mod halt;
mod nothing;
mod paths;
mod pieces;
mod refused;
mod requests;
mod sinks;
mod texts;
mod trees;

pub use asking::{can_create, read_whole};
pub use bytes::Bytes;
pub use halt::Halt;
pub use nothing::{NoSink, NoTree};
pub use paths::{Path, PathFault};
pub use pieces::append_pieces;
pub use refused::RefusedFiles;
pub use requests::TreeRequest;
pub use sinks::{Failed, Sink, put_all};
pub use texts::{decimal, hex_byte, hex_short};
pub use trees::{Entry, FileBytes, Kind, NamesStop, ReadStop, Tree, append_all, read_file};
