//! The two file devices: files beneath a root, by names that a program writes to memory.
#![tactic(auto)]

mod device;
mod laws;
mod listing;
mod mode;
mod names;
mod reading;
mod signs;
mod span;
mod stop;
mod writing;

pub use device::FileDevice;
pub use laws::actions_keep_to_the_root;
pub use stop::FileStop;
