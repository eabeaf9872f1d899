//! The ports of the computer: the devices behind them, borrowed a tree of files and two sinks.
#![tactic(auto)]

mod bus;
mod devices;
mod files;
mod page;
mod ports;
mod reading;
mod screen;
mod time;
mod touches;
mod voices;

pub use bus::Bus;
pub use devices::Devices;
pub use time::Clock;
pub use touches::touched;
