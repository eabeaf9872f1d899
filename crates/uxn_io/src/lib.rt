//! What the program meets outside itself, as `uxn_io_traits` has it, with sinks and trees in memory, which have known contents and
//! fail on demand.
#![tactic(auto)]

mod memory;

pub use memory::{MemSink, MemTree, Node, TreeCall};
pub use uxn_io_traits::{
    Bytes, Entry, Failed, FileBytes, Kind, NamesStop, NoSink, NoTree, Path, PathFault, ReadStop,
    RefusedFiles, Sink, Tree, TreeRequest, append_all, decimal, hex_byte, hex_short, put_all,
    read_file,
};
