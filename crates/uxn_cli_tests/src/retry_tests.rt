//! A fault that a tree or an output counts on a call which then succeeds ends no call of the program.

use super::calls::{ALL, Call, Contents, GOOD, Puts, new_tree, texts};
use super::retrying::Retrying;
use std::alloc::Global;
use uxn_cli::uxn;
use uxn_io::{MemSink, TreeCall};

/// A source that writes a byte.
const WRITES: Contents = &[("a.tal", Some(b"|0100 LIT \"a #18 DEO BRK"))];

/// A run of it.
const RUN: Call = Call {
    before: WRITES,
    out: b"a",
    ..GOOD
};

/// Runs over a tree and outputs that try a call once more.
static CALLS: [Call; 3] = [
    Call {
        shows: "a fault of each, and the call that is tried again succeeds",
        fails: &[(TreeCall::Kind, 0)],
        puts: Puts { out: &[0], ..ALL },
        ..RUN
    },
    Call {
        shows: "the tree fails again",
        fails: &[(TreeCall::Kind, 0), (TreeCall::Kind, 1)],
        status: 136,
        out: b"",
        ..RUN
    },
    Call {
        shows: "the output fails again",
        puts: Puts {
            out: &[0, 1],
            ..ALL
        },
        status: 137,
        out: b"",
        ..RUN
    },
];

/// Whether a call over such a tree and such outputs gives what it is to give.
fn gives_by_retries(alloc: Global, call: &Call) -> Option<bool> {
    let words = texts(alloc, call.words).ok()?;
    let mut tree = Retrying {
        inner: new_tree(alloc, call.before, call.fails)?,
    };
    let mut out = Retrying {
        inner: MemSink::new(alloc, 200, call.puts.out).ok()?,
    };
    let mut err = Retrying {
        inner: MemSink::new(alloc, call.puts.err_room, call.puts.err).ok()?,
    };
    let status = uxn(alloc, &words, &mut tree, &mut out, &mut err);
    Some(status == call.status && out.inner.bytes() == call.out && err.inner.bytes() == call.err)
}

#[test]
fn a_fault_of_a_call_that_then_succeeds_ends_nothing(rt: HostRuntime) {
    for call in &CALLS {
        let shows = call.shows;
        assert!(rt; gives_by_retries(rt.alloc(), call) == Some(true), "{shows}");
    }
}
