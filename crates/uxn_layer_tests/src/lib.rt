//! Tests of calls of the lower crates that no command reaches, or whose answers none shows: the sinks and trees in memory, the
//! kinds of faults of paths, how many words an expander visited, what a patcher tells, which rows of a screen are composed, printed
//! scripts, the lines of a text, includes, what an instruction leaves as it was, moments gone back to, and the turns of machines
//! in a line.
#![tactic(auto)]

#[cfg(test)]
mod bus_tests;
#[cfg(test)]
mod expander_tests;
#[cfg(test)]
mod include_tests;
#[cfg(test)]
mod line_tests;
#[cfg(test)]
mod outside_tests;
#[cfg(test)]
mod patcher_tests;
#[cfg(test)]
mod screen_tests;
#[cfg(test)]
mod script_tests;
#[cfg(test)]
mod undo_tests;
