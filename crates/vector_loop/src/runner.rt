//! What takes part in a run.

use crate::tally::Tally;
use crate::watch::Watcher;
use uxn_io_traits::{Sink, Tree};
use uxn_opcodes::Core;
use varvara_bus::Bus;

/// A machine with its bus, the watcher of its run, and what was counted so far. A vector runs at most `budget` instructions.
#[derive(Drop)]
pub struct Runner<'r, 'a, T: Tree, O: Sink, E: Sink, W: Watcher> {
    pub(crate) core: &'r mut Core,
    pub(crate) bus: &'r mut Bus<'a, T, O, E>,
    pub(crate) watcher: &'r mut W,
    pub(crate) tally: Tally,
    pub(crate) budget: u32,
}
