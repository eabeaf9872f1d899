//! Each call of the tree and of the outputs fails in turn, and a tree says that it cannot make an output.

use super::calls::{Call, Contents, GOOD, new_tree, stands, texts};
use super::outside::{Calls, Files, Output, Way};
use std::alloc::Global;
use std::process::Abort;
use uxn_cli::uxn;

/// What a call has left: its status, the files and both outputs.
#[derive(Drop)]
struct Left<'a> {
    status: u8,
    files: Files<'a>,
    out: Output<'a>,
    err: Output<'a>,
}

impl Left<'_> {
    /// The status of a call that ends at the only fault there was.
    fn early_status(&self) -> Option<u8> {
        match (self.files.faults, self.out.faults, self.err.faults) {
            (1, 0, 0) => Some(136),
            (0, 1, 0) | (0, 0, 1) => Some(137),
            _ => None,
        }
    }

    /// Whether the call has given what it is to give.
    fn is_whole(&self, call: &Call) -> bool {
        self.status == call.status
            && self.out.taken.are(call.out)
            && self.err.taken.are(call.err)
            && stands(self.files.tree(), call.after)
    }

    /// Whether the call has ended early, with the changes of a whole one that were made up to this call of the outside.
    fn is_cut(&self, whole: &Left<'_>, at: u32) -> bool {
        self.early_status() == Some(self.status)
            && self.files.changes().are_cut(whole.files.changes(), at)
            && self.out.taken.are_cut(&whole.out.taken, at)
            && self.err.taken.are_cut(&whole.err.taken, at)
    }
}

/// Makes a call over an outside with this row of calls, whose tree does not make one path. None when out of memory.
fn run<'a>(
    alloc: Global,
    words: &[&str],
    before: Contents,
    unmade: &'a str,
    calls: &'a Calls,
) -> Option<Left<'a>> {
    let words = texts(alloc, words).ok()?;
    let tree = new_tree(alloc, before, &[])?;
    let mut files = Files::new(alloc, calls, tree, unmade.as_bytes());
    let mut out = Output::new(alloc, calls);
    let mut err = Output::new(alloc, calls);
    let status = uxn(alloc, &words, &mut files, &mut out, &mut err);
    Some(Left {
        status,
        files,
        out,
        err,
    })
}

/// Whether a call ends at its outside call of this number, where that one fails, and makes none after it.
fn ends_at(alloc: Global, call: &Call, way: Way, whole: &Left<'_>, at: u32) -> bool {
    let calls = Calls::new(way, at);
    match run(alloc, call.words, call.before, "", &calls) {
        Some(left) => calls.made() == at.saturating_add(1) && left.is_cut(whole, at),
        None => false,
    }
}

/// Whether a call gives what it is to give where nothing fails, and ends at each of its outside calls where that one
/// fails.
fn ends_at_each(alloc: Global, call: &Call, way: Way) -> bool {
    let calls = Calls::new(way, u32::MAX);
    let Some(whole) = run(alloc, call.words, call.before, "", &calls) else {
        return false;
    };
    let mut ends = whole.is_whole(call);
    for at in 0..calls.made() {
        ends = ends && ends_at(alloc, call, way, &whole, at);
    }
    ends
}

/// A picture of 8 by 8 in one grey.
const PICTURE: &[u8] = b"P6\n8 8\n255\n\
    DDDDDDDDDDDDDDDDDDDDDDDDDDDDDDDDDDDDDDDDDDDDDDDDDDDDDDDDDDDDDDDDDDDDDDDDDDDDDDDDDDDDDDDDDDDDDDDD\
    DDDDDDDDDDDDDDDDDDDDDDDDDDDDDDDDDDDDDDDDDDDDDDDDDDDDDDDDDDDDDDDDDDDDDDDDDDDDDDDDDDDDDDDDDDDDDDDD";

/// A source that writes a file and shows a small grey screen, a script for a frame and a shot, and a folder.
const SAVES: Contents = &[
    (
        "a.tal",
        Some(
            b"|0100 #4444 #08 DEO2 #4444 #0a DEO2 #4444 #0c DEO2 #0008 #22 DEO2 #0008 #24 DEO2 ;name #a8 DEO2 #0002 #aa DEO2 ;text #ae DEO2 BRK @name \"a.txt $1 @text \"hi",
        ),
    ),
    ("x", Some(b"frame\nshot")),
    ("c", Some(b"step 2\nstacks\nrun")),
    ("save", None),
];

/// The report of its run.
const REPORT: &[u8] = b"exit 0\ninstructions 25\nvectors 1\ncuts 0\nevents 2\nframes 1\nshots 1\n";

/// A run with a root and every output.
const SAVING: &[&str] = &[
    "play",
    "a.tal",
    "--script",
    "x",
    "--root",
    "save",
    "--frames",
    "p",
    "--samples",
    "s",
    "--report",
    "r",
];

/// The same under a debugger.
const DEBUGGED: &[&str] = &[
    "debug",
    "a.tal",
    "--commands",
    "c",
    "--log",
    "l",
    "--script",
    "x",
    "--root",
    "save",
    "--frames",
    "p",
    "--samples",
    "s",
    "--report",
    "r",
];

/// `asm` with every output.
const ASSEMBLED: &[&str] = &[
    "asm",
    "a.tal",
    "--out",
    "o",
    "--symbols",
    "y",
    "--listing",
    "l",
];

/// Calls, each of whose calls of the tree and of the outputs fails in turn.
static CALLS: [Call; 9] = [
    Call {
        shows: "a run with every output",
        words: SAVING,
        before: SAVES,
        after: &[
            ("p", Some(PICTURE)),
            ("s", Some(&[0; 2940])),
            ("r", Some(REPORT)),
            ("save/a.txt", Some(b"hi")),
        ],
        ..GOOD
    },
    Call {
        shows: "a run under a debugger",
        words: &[
            "debug",
            "a.tal",
            "--commands",
            "c",
            "--log",
            "l",
            "--report",
            "r",
        ],
        before: &[
            ("a.tal", Some(b"LIT 41 #18 DEO #85 #0f DEO BRK")),
            ("c", Some(b"step 2\nstacks\nrun")),
        ],
        status: 5,
        out: b"A",
        after: &[
            (
                "l",
                Some(
                    b"at 0104 2 DEO\nWST 00 00 00 00 00 00 41 18\nRST 00 00 00 00 00 00 00 00\nend 7\n",
                ),
            ),
            (
                "r",
                Some(b"exit 5\ninstructions 7\nvectors 1\ncuts 0\nevents 0\nframes 0\nshots 0\n"),
            ),
        ],
        ..GOOD
    },
    Call {
        shows: "bytes on both outputs, and a file that is made, read, taken away and listed",
        words: &["play", "a.tal", "--root", "save"],
        before: &[
            (
                "a.tal",
                Some(
                    b"|0100 LIT \"A #18 DEO ;new #a8 DEO2 #0002 #aa DEO2 ;text #ae DEO2 LIT \"B #19 DEO ;old #a8 DEO2 #0004 #aa DEO2 #0200 #ac DEO2 #0200 LDA #18 DEO #0200 #a4 DEO2 #01 #a6 DEO LIT \"C #19 DEO ;dot #a8 DEO2 #0006 #aa DEO2 #0300 #ac DEO2 #0305 LDA #18 DEO BRK @new \"a.txt $1 @old \"b.txt $1 @dot \". $1 @text \"hi",
                ),
            ),
            ("save", None),
            ("save/b.txt", Some(b"xy")),
        ],
        out: b"Axa",
        err: b"BC",
        after: &[("save/a.txt", Some(b"hi")), ("save/b.txt", None)],
        ..GOOD
    },
    Call {
        shows: "asm with every output",
        words: ASSEMBLED,
        before: &[("a.tal", Some(b"@a BRK INC"))],
        after: &[
            ("o", Some(b"\x00\x01")),
            ("y", Some(b"\x01\x00a\x00")),
            ("l", Some(b"0100 00  1:4 BRK\n0101 01  1:8 INC\n")),
        ],
        ..GOOD
    },
    Call {
        shows: "dis with symbols",
        words: &["dis", "a.rom", "--symbols", "y"],
        before: &[("a.rom", Some(b"\x00\x01")), ("y", Some(b"\x01\x00a\x00"))],
        out: b"|0100\n( @a )\nBRK ( 0100 )\nINC ( 0101 )\n",
        ..GOOD
    },
    Call {
        shows: "machines in a line",
        words: &["line", "l"],
        before: &[
            ("l", Some(b"machine a.tal\nmachine a.tal\nscript x")),
            (
                "a.tal",
                Some(b"|0100 ;on #10 DEO2 BRK @on #12 DEI INC #18 DEO BRK"),
            ),
            ("x", Some(b"input \"abc")),
        ],
        out: b"cde\x01",
        ..GOOD
    },
    Call {
        shows: "a workload",
        words: &["gen", "1"],
        out: b"source 95\nrom 30\ninstructions 253\nvectors 61\ncuts 0\nframes 60\nconsole 0100\nexit 0\n",
        ..GOOD
    },
    Call {
        shows: "words that are not legal",
        words: &["play"],
        status: 128,
        err: b"words: not understood\n",
        ..GOOD
    },
    Call {
        shows: "an output that is a folder",
        words: &["play", "a.tal", "--frames", "p", "--samples", "save"],
        before: &[("a.tal", Some(b"BRK")), ("save", None)],
        status: 135,
        err: b"output: save\n",
        after: &[("p", None)],
        ..GOOD
    },
];

/// Makes each call with each of its outside calls failing in this way.
fn fail_each(rt: &impl Abort, alloc: Global, way: Way) {
    for call in &CALLS {
        let shows = call.shows;
        assert!(rt; ends_at_each(alloc, call, way), "{shows}");
    }
}

#[test]
fn an_outside_call_that_fails_and_does_nothing_ends_a_call_there(rt: HostRuntime) {
    fail_each(&rt, rt.alloc(), Way::Undone);
}

#[test]
fn an_outside_call_that_fails_once_it_is_done_ends_a_call_there(rt: HostRuntime) {
    fail_each(&rt, rt.alloc(), Way::Done);
}

#[test]
fn an_outside_call_that_fails_within_a_piece_ends_a_call_there(rt: HostRuntime) {
    fail_each(&rt, rt.alloc(), Way::Halves);
}

/// The words of a call over `SAVES`, an output that the tree says it cannot make, the line for it, and the changes before it.
struct Unmade {
    words: &'static [&'static str],
    path: &'static str,
    line: &'static [u8],
    changes: &'static [u8],
}

/// Each output of each command.
static UNMADE: [Unmade; 10] = [
    Unmade {
        words: SAVING,
        path: "p",
        line: b"output: p\n",
        changes: b"",
    },
    Unmade {
        words: SAVING,
        path: "s",
        line: b"output: s\n",
        changes: b"+p\n",
    },
    Unmade {
        words: SAVING,
        path: "r",
        line: b"output: r\n",
        changes: b"+p\n+s\n",
    },
    Unmade {
        words: DEBUGGED,
        path: "l",
        line: b"output: l\n",
        changes: b"",
    },
    Unmade {
        words: DEBUGGED,
        path: "p",
        line: b"output: p\n",
        changes: b"+l\n",
    },
    Unmade {
        words: DEBUGGED,
        path: "s",
        line: b"output: s\n",
        changes: b"+l\n+p\n",
    },
    Unmade {
        words: DEBUGGED,
        path: "r",
        line: b"output: r\n",
        changes: b"+l\n+p\n+s\n",
    },
    Unmade {
        words: ASSEMBLED,
        path: "o",
        line: b"output: o\n",
        changes: b"",
    },
    Unmade {
        words: ASSEMBLED,
        path: "y",
        line: b"output: y\n",
        changes: b"+o\n",
    },
    Unmade {
        words: ASSEMBLED,
        path: "l",
        line: b"output: l\n",
        changes: b"+o\n+y\n",
    },
];

/// Whether a call is refused at an output that the tree does not make, with nothing made behind it.
fn is_refused(alloc: Global, call: &Unmade) -> bool {
    let calls = Calls::new(Way::Undone, u32::MAX);
    match run(alloc, call.words, SAVES, call.path, &calls) {
        Some(left) => {
            left.status == 135
                && left.out.taken.are(b"")
                && left.err.taken.are(call.line)
                && left.files.changes().are(call.changes)
        }
        None => false,
    }
}

#[test]
fn an_output_that_a_tree_does_not_make_is_refused_with_nothing_made_behind_it(rt: HostRuntime) {
    for call in &UNMADE {
        let path = call.path;
        assert!(rt; is_refused(rt.alloc(), call), "{path}");
    }
}
