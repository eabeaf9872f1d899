//! Tests of whole calls over a tree and outputs in memory of which a call fails, as no command-line case can make it; and
//! of the source of a workload.
#![tactic(auto)]

#[cfg(test)]
mod calls;
#[cfg(test)]
mod fault_tests;
#[cfg(test)]
mod good_tests;
#[cfg(test)]
mod order_tests;
#[cfg(test)]
mod outside;
#[cfg(test)]
mod retry_tests;
#[cfg(test)]
mod retrying;
#[cfg(test)]
mod telling;
#[cfg(test)]
mod telling_tests;
#[cfg(test)]
mod turn_tests;
#[cfg(test)]
mod workload_tests;
