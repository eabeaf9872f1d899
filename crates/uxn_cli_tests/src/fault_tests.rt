//! Where a call of the tree or of an output fails: the status, what both outputs hold, and what stands in the tree.

use super::calls::{ALL, Call, Contents, GOOD, Puts, give_each};
use uxn_io::TreeCall;

/// A source that puts a byte on each output.
const WRITES: Contents = &[("a.tal", Some(b"LIT 41 #18 DEO LIT 42 #19 DEO BRK"))];

/// A picture of 8 by 8, of which two shots are taken.
const SHOTS: Contents = &[
    (
        "a.tal",
        Some(b"#f000 #08 DEO2 #0f00 #0a DEO2 #0008 #22 DEO2 #0008 #24 DEO2 #01 #2e DEO BRK"),
    ),
    ("x", Some(b"shot\nshot")),
];

/// The prefix of that picture: its head and its first row.
const PICTURE: &[u8] =
    b"P6\n8 8\n255\n\x00\xff\x00\xff\x00\x00\xff\x00\x00\xff\x00\x00\xff\x00\x00\xff\x00\x00\xff\x00\x00\xff\x00\x00";

/// A source that writes a file, and a script for a frame and a shot.
const SAVES: Contents = &[
    (
        "a.tal",
        Some(b"|0100 ;name #a8 DEO2 #0002 #aa DEO2 ;text #ae DEO2 BRK @name \"a.txt $1 @text \"hi"),
    ),
    ("x", Some(b"frame\nshot")),
    ("save", None),
];

/// The words of a run with a root and every output.
const ALL_OUTPUTS: [&str; 12] = [
    "play",
    "a.tal",
    "--script",
    "x",
    "--root",
    "save",
    "--frames",
    "p",
    "--samples",
    "s",
    "--report",
    "r",
];

/// The words of a run with a root.
const ROOTED: &[&str] = &["play", "a.tal", "--root", "save"];

/// A source that asks what a file is and then takes it away, by one short.
const TAKES_AWAY: Contents = &[
    (
        "a.tal",
        Some(b"|0100 ;name #a8 DEO2 #0004 #aa DEO2 #0200 #a5 DEO2 BRK @name \"a.txt"),
    ),
    ("save", None),
    ("save/a.txt", Some(b"xy")),
];

/// A source that reads a file.
const READS: Contents = &[
    (
        "a.tal",
        Some(b"|0100 ;name #a8 DEO2 #0004 #aa DEO2 #0200 #ac DEO2 BRK @name \"a.txt"),
    ),
    ("save", None),
    ("save/a.txt", Some(b"xy")),
];

/// A source that lists its root.
const LISTS: Contents = &[
    (
        "a.tal",
        Some(b"|0100 ;name #a8 DEO2 #0100 #aa DEO2 #0200 #ac DEO2 BRK @name \"."),
    ),
    ("save", None),
];

/// A source whose console vector puts each byte that it is given.
const ECHOES: Contents = &[
    (
        "a.tal",
        Some(b"|0100 ;on #10 DEO2 BRK @on #12 DEI #18 DEO BRK"),
    ),
    ("x", Some(b"input \"abc")),
];

/// A source that writes by the second file device.
const SAVES_BY_THE_SECOND: Contents = &[
    (
        "a.tal",
        Some(b"|0100 ;name #b8 DEO2 #0002 #ba DEO2 ;text #be DEO2 BRK @name \"a.txt $1 @text \"hi"),
    ),
    ("save", None),
];

/// Each call of a tree behind those that read the source.
const FURTHER: &[(TreeCall, u32)] = &[
    (TreeCall::Kind, 1),
    (TreeCall::Kind, 2),
    (TreeCall::Kind, 3),
    (TreeCall::Read, 2),
    (TreeCall::Read, 3),
    (TreeCall::Create, 0),
    (TreeCall::Append, 0),
    (TreeCall::Remove, 0),
    (TreeCall::Names, 0),
];

/// A run that ends with 136 and puts nothing, as most calls below do.
const CALL: Call = Call {
    before: WRITES,
    status: 136,
    ..GOOD
};

/// A setup, whose first line is a comment, and the source of its two machines, which has a macro for each word of the other lines.
const JOINED: Contents = &[(
    "a.tal",
    Some(b"#00 %machine { } %a.tal { LIT 41 #18 DEO }\nmachine a.tal\nmachine a.tal\n"),
)];

/// Calls in which an output or an input fails.
static OUTPUTS: [Call; 9] = [
    // The outputs.
    Call {
        shows: "the output fails at its first put",
        puts: Puts { out: &[0], ..ALL },
        status: 137,
        ..CALL
    },
    Call {
        shows: "the error output fails at its first put",
        puts: Puts { err: &[0], ..ALL },
        status: 137,
        out: b"A",
        ..CALL
    },
    Call {
        shows: "the second half of a short is put on the error output, which fails",
        before: &[("a.tal", Some(b"#4142 #18 DEO2 BRK"))],
        puts: Puts { err: &[0], ..ALL },
        status: 137,
        out: b"A",
        ..CALL
    },
    Call {
        shows: "the output fails at an event",
        words: &["play", "a.tal", "--script", "x", "--report", "r"],
        before: ECHOES,
        puts: Puts { out: &[1], ..ALL },
        status: 137,
        out: b"a",
        after: &[("r", Some(b""))],
        ..CALL
    },
    Call {
        shows: "the error output fails at the debug text",
        before: &[("a.tal", Some(b"#12 #01 #0e DEO LIT 41 #18 DEO BRK"))],
        puts: Puts { err: &[0], ..ALL },
        status: 137,
        ..CALL
    },
    Call {
        shows: "the error output fails at the line of a refusal",
        words: &["play"],
        puts: Puts { err: &[0], ..ALL },
        status: 137,
        ..CALL
    },
    Call {
        shows: "the error output is full within the line of a refusal",
        words: &["play"],
        puts: Puts { err_room: 5, ..ALL },
        status: 137,
        err: b"words",
        ..CALL
    },
    // The inputs and the outputs of a command.
    Call {
        shows: "the source fails as it is read",
        fails: &[(TreeCall::Read, 0)],
        ..CALL
    },
    Call {
        shows: "the ROM fails as it is appended",
        words: &["asm", "a.tal", "--out", "o"],
        fails: &[(TreeCall::Append, 0)],
        after: &[("o", Some(b""))],
        ..CALL
    },
];

/// Calls in which a file fails, most of them one that is written.
static FILES: [Call; 9] = [
    Call {
        shows: "a workload asks the tree nothing",
        words: &["gen", "1"],
        before: &[],
        fails: &[
            (TreeCall::Kind, 0),
            (TreeCall::Read, 0),
            (TreeCall::Create, 0),
        ],
        status: 0,
        out: b"source 95\nrom 30\ninstructions 253\nvectors 61\ncuts 0\nframes 60\nconsole 0100\nexit 0\n",
        ..CALL
    },
    // Machines in a line: each of the two puts two bytes, and those of the second go to the output.
    Call {
        shows: "the output fails at the second byte of a line",
        words: &["line", "a.tal"],
        before: JOINED,
        puts: Puts { out: &[1], ..ALL },
        status: 137,
        out: b"A",
        ..CALL
    },
    Call {
        shows: "the source of the second machine fails as it is read",
        words: &["line", "a.tal"],
        before: JOINED,
        fails: &[(TreeCall::Read, 3)],
        ..CALL
    },
    // Pictures.
    Call {
        shows: "the picture fails at its head",
        words: &[
            "play", "a.tal", "--script", "x", "--frames", "p", "--report", "r",
        ],
        before: SHOTS,
        fails: &[(TreeCall::Append, 0)],
        after: &[("p", Some(b"")), ("r", Some(b""))],
        ..CALL
    },
    Call {
        shows: "the picture fails at its second row",
        words: &[
            "play", "a.tal", "--script", "x", "--frames", "p", "--report", "r",
        ],
        before: SHOTS,
        fails: &[(TreeCall::Append, 2)],
        after: &[("p", Some(PICTURE)), ("r", Some(b""))],
        ..CALL
    },
    // Outputs that are made one after the other, and a file that the program writes.
    Call {
        shows: "the first output fails as it is made",
        words: &ALL_OUTPUTS,
        before: SAVES,
        fails: &[(TreeCall::Create, 0)],
        after: &[("p", None), ("s", None), ("r", None), ("save/a.txt", None)],
        ..CALL
    },
    Call {
        shows: "the program's file fails as it is made",
        words: &ALL_OUTPUTS,
        before: SAVES,
        fails: &[(TreeCall::Create, 3)],
        after: &[
            ("p", Some(b"")),
            ("s", Some(b"")),
            ("r", Some(b"")),
            ("save/a.txt", None),
        ],
        ..CALL
    },
    Call {
        shows: "the program's file fails as it is appended to",
        words: &ALL_OUTPUTS,
        before: SAVES,
        fails: &[(TreeCall::Append, 0)],
        after: &[
            ("p", Some(b"")),
            ("s", Some(b"")),
            ("r", Some(b"")),
            ("save/a.txt", Some(b"")),
        ],
        ..CALL
    },
    Call {
        shows: "the file of the second device fails as it is made",
        words: ROOTED,
        before: SAVES_BY_THE_SECOND,
        fails: &[(TreeCall::Create, 0)],
        after: &[("save/a.txt", None)],
        ..CALL
    },
];

/// Calls in which a file device's file fails, or its name asks the tree nothing.
static DEVICES: [Call; 9] = [
    // Other actions of files. The source is read by two calls before them.
    Call {
        shows: "a short asks what a file is and then takes it away",
        words: ROOTED,
        before: TAKES_AWAY,
        status: 0,
        after: &[("save/a.txt", None)],
        ..CALL
    },
    Call {
        shows: "the file that a short takes away fails to go",
        words: ROOTED,
        before: TAKES_AWAY,
        fails: &[(TreeCall::Remove, 0)],
        after: &[("save/a.txt", Some(b"xy"))],
        ..CALL
    },
    Call {
        shows: "the file that a program reads fails",
        words: ROOTED,
        before: READS,
        fails: &[(TreeCall::Read, 2)],
        ..CALL
    },
    Call {
        shows: "the folder that a program lists fails",
        words: ROOTED,
        before: LISTS,
        fails: &[(TreeCall::Names, 0)],
        ..CALL
    },
    Call {
        shows: "a folder is listed by one call",
        words: ROOTED,
        before: LISTS,
        fails: &[(TreeCall::Names, 1)],
        status: 0,
        ..CALL
    },
    // Names that are no path: the tree is asked nothing.
    Call {
        shows: "a name above the root asks the tree nothing",
        words: ROOTED,
        before: &[
            (
                "a.tal",
                Some(
                    b"|0100 ;name #a8 DEO2 #0009 #aa DEO2 #0200 #ac DEO2 #a2 DEI2 #0200 #ae DEO2 #a2 DEI2 ORA2 #01 #a6 DEO #a2 DEI2 ORA2 #30 ADD #18 DEO BRK @name \"../x 00",
                ),
            ),
            ("save", None),
        ],
        fails: FURTHER,
        status: 0,
        out: b"0",
        ..CALL
    },
    Call {
        shows: "an absolute name asks the tree nothing",
        words: ROOTED,
        before: &[
            (
                "a.tal",
                Some(
                    b"|0100 ;name #a8 DEO2 #0009 #aa DEO2 #0200 #ac DEO2 #a2 DEI2 #0200 #ae DEO2 #a2 DEI2 ORA2 #01 #a6 DEO #a2 DEI2 ORA2 #30 ADD #18 DEO BRK @name \"/etc/x 00",
                ),
            ),
            ("save", None),
        ],
        fails: FURTHER,
        status: 0,
        out: b"0",
        ..CALL
    },
    Call {
        shows: "a name with an empty part asks the tree nothing",
        words: ROOTED,
        before: &[
            (
                "a.tal",
                Some(
                    b"|0100 ;name #a8 DEO2 #0009 #aa DEO2 #0200 #ac DEO2 #a2 DEI2 #0200 #ae DEO2 #a2 DEI2 ORA2 #01 #a6 DEO #a2 DEI2 ORA2 #30 ADD #18 DEO BRK @name \"a//b 00",
                ),
            ),
            ("save", None),
        ],
        fails: FURTHER,
        status: 0,
        out: b"0",
        ..CALL
    },
    Call {
        shows: "a name without an end asks the tree nothing",
        words: ROOTED,
        before: &[
            (
                "a.tal",
                Some(
                    b"|0100 ;fill #02 DEO2 #8000 #a8 DEO2 #0009 #aa DEO2 #0200 #ac DEO2 #a2 DEI2 #0200 #ae DEO2 #a2 DEI2 ORA2 #01 #a6 DEO #a2 DEI2 ORA2 #30 ADD #18 DEO BRK @fill 00 0100 0000 8000 78",
                ),
            ),
            ("save", None),
        ],
        fails: FURTHER,
        status: 0,
        out: b"0",
        ..CALL
    },
];

#[test]
fn a_fault_of_an_output_ends_a_call(rt: HostRuntime) {
    give_each(&rt, rt.alloc(), &OUTPUTS);
}

#[test]
fn a_fault_of_a_file_ends_a_call(rt: HostRuntime) {
    give_each(&rt, rt.alloc(), &FILES);
}

#[test]
fn a_fault_of_a_file_device_ends_a_call(rt: HostRuntime) {
    give_each(&rt, rt.alloc(), &DEVICES);
}
