//! The source of one routine of the workload, of which a command shows the length alone.

use std::alloc::{AllocError, Global};
use uxn_cli::workload_source;

/// That source.
static ONE: &[u8] =
    b"|0100 #0000\nw-0\n#18 DEO #18 DEO\n;tick #20 DEO2 BRK\n@tick #01 #2e DEO BRK\n@w-0 #0001 ADD2 JMP2r\n";

/// Whether the source of one routine is this text.
fn is_source_of_one(alloc: Global, text: &[u8]) -> Result<bool, AllocError> {
    Ok(workload_source(alloc, 1)?.as_slice() == text)
}

#[test]
fn the_source_of_one_routine(rt: HostRuntime) {
    assert!(rt; is_source_of_one(rt.alloc(), ONE) == Ok(true));
}
