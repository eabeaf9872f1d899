//! Each option of each command once, where nothing fails: the call is done, and so memory did not run out, and this is what it leaves.

use super::calls::{Call, Contents, GOOD, give_each};

/// A source that puts a byte, its ROM, its symbols, and commands that show the first moment.
const PUTS: Contents = &[
    ("a.tal", Some(b"|0100 LIT \"A #18 DEO BRK")),
    ("a.rom", Some(b"\x80\x41\x80\x18\x17")),
    ("y", Some(b"\x01\x00on\x00")),
    ("c", Some(b"where")),
];

/// A source that puts each byte that it is given, a script of two, and commands.
const ECHOES: Contents = &[
    (
        "a.tal",
        Some(b"|0100 ;on #10 DEO2 BRK @on #12 DEI #18 DEO BRK"),
    ),
    ("x", Some(b"input \"ab")),
    ("c", Some(b"where")),
];

/// A source that writes a file beneath its root, and commands.
const SAVES: Contents = &[
    (
        "a.tal",
        Some(b"|0100 ;name #a8 DEO2 #0002 #aa DEO2 ;text #ae DEO2 BRK @name \"a.txt $1 @text \"hi"),
    ),
    ("c", Some(b"where")),
    ("save", None),
];

/// A source that draws a pixel on a screen of 8 by 8, a script that takes its picture, and commands.
const DRAWS: Contents = &[
    (
        "a.tal",
        Some(b"#f000 #08 DEO2 #0f00 #0a DEO2 #0008 #22 DEO2 #0008 #24 DEO2 #01 #2e DEO BRK"),
    ),
    ("x", Some(b"shot")),
    ("c", Some(b"where")),
];

/// That picture.
const PICTURE: &[u8] = b"P6\n8 8\n255\n\
      \x00\xff\x00\xff\x00\x00\xff\x00\x00\xff\x00\x00\xff\x00\x00\xff\x00\x00\xff\x00\x00\xff\x00\x00\
      \xff\x00\x00\xff\x00\x00\xff\x00\x00\xff\x00\x00\xff\x00\x00\xff\x00\x00\xff\x00\x00\xff\x00\x00\
      \xff\x00\x00\xff\x00\x00\xff\x00\x00\xff\x00\x00\xff\x00\x00\xff\x00\x00\xff\x00\x00\xff\x00\x00\
      \xff\x00\x00\xff\x00\x00\xff\x00\x00\xff\x00\x00\xff\x00\x00\xff\x00\x00\xff\x00\x00\xff\x00\x00\
      \xff\x00\x00\xff\x00\x00\xff\x00\x00\xff\x00\x00\xff\x00\x00\xff\x00\x00\xff\x00\x00\xff\x00\x00\
      \xff\x00\x00\xff\x00\x00\xff\x00\x00\xff\x00\x00\xff\x00\x00\xff\x00\x00\xff\x00\x00\xff\x00\x00\
      \xff\x00\x00\xff\x00\x00\xff\x00\x00\xff\x00\x00\xff\x00\x00\xff\x00\x00\xff\x00\x00\xff\x00\x00\
      \xff\x00\x00\xff\x00\x00\xff\x00\x00\xff\x00\x00\xff\x00\x00\xff\x00\x00\xff\x00\x00\xff\x00\x00";

/// A source that does nothing, a script of a frame, and commands.
const RESTS: Contents = &[
    ("a.tal", Some(b"BRK")),
    ("x", Some(b"frame")),
    ("c", Some(b"where")),
];

/// The samples of a frame in which nothing sounds.
const SILENCE: &[u8] = &[0; 2940];

/// The report of a run of one instruction.
const RESTED: &[u8] = b"exit 0\ninstructions 1\nvectors 1\ncuts 0\nevents 0\nframes 0\nshots 0\n";

/// A source that goes on for ever, and commands.
const GOES_ON: Contents = &[("a.tal", Some(b"@on !on")), ("c", Some(b"where"))];

/// The report of its run, which was cut after three instructions.
const CUT: &[u8] = b"exit 0\ninstructions 3\nvectors 1\ncuts 1\nevents 0\nframes 0\nshots 0\n";

/// What `play` does by each of its options.
static PLAYED: [Call; 7] = [
    Call {
        shows: "play a ROM",
        words: &["play", "a.rom", "--rom"],
        before: PUTS,
        out: b"A",
        ..GOOD
    },
    Call {
        shows: "play a script",
        words: &["play", "a.tal", "--script", "x"],
        before: ECHOES,
        out: b"ab",
        ..GOOD
    },
    Call {
        shows: "play beneath a root",
        words: &["play", "a.tal", "--root", "save"],
        before: SAVES,
        after: &[("save/a.txt", Some(b"hi"))],
        ..GOOD
    },
    Call {
        shows: "play and keep the pictures",
        words: &["play", "a.tal", "--script", "x", "--frames", "p"],
        before: DRAWS,
        after: &[("p", Some(PICTURE))],
        ..GOOD
    },
    Call {
        shows: "play and keep the samples",
        words: &["play", "a.tal", "--script", "x", "--samples", "s"],
        before: RESTS,
        after: &[("s", Some(SILENCE))],
        ..GOOD
    },
    Call {
        shows: "play and report",
        words: &["play", "a.tal", "--report", "r"],
        before: RESTS,
        after: &[("r", Some(RESTED))],
        ..GOOD
    },
    Call {
        shows: "play with a budget",
        words: &["play", "a.tal", "--budget", "3", "--report", "r"],
        before: GOES_ON,
        after: &[("r", Some(CUT))],
        ..GOOD
    },
];

/// What `debug` does by its own options, and of a ROM, a script and a root.
static WATCHED: [Call; 5] = [
    Call {
        shows: "debug a source",
        words: &["debug", "a.tal", "--commands", "c", "--log", "l"],
        before: PUTS,
        out: b"A",
        after: &[("l", Some(b"at 0100 0 LIT\n"))],
        ..GOOD
    },
    Call {
        shows: "debug with symbols",
        words: &[
            "debug",
            "a.tal",
            "--commands",
            "c",
            "--log",
            "l",
            "--symbols",
            "y",
        ],
        before: PUTS,
        out: b"A",
        after: &[("l", Some(b"at 0100 0 LIT on+0000\n"))],
        ..GOOD
    },
    Call {
        shows: "debug a ROM",
        words: &["debug", "a.rom", "--commands", "c", "--log", "l", "--rom"],
        before: PUTS,
        out: b"A",
        after: &[("l", Some(b"at 0100 0 LIT\n"))],
        ..GOOD
    },
    Call {
        shows: "debug over a script",
        words: &[
            "debug",
            "a.tal",
            "--commands",
            "c",
            "--log",
            "l",
            "--script",
            "x",
        ],
        before: ECHOES,
        out: b"ab",
        after: &[("l", Some(b"at 0100 0 LIT2\n"))],
        ..GOOD
    },
    Call {
        shows: "debug beneath a root",
        words: &[
            "debug",
            "a.tal",
            "--commands",
            "c",
            "--log",
            "l",
            "--root",
            "save",
        ],
        before: SAVES,
        after: &[
            ("save/a.txt", Some(b"hi")),
            ("l", Some(b"at 0100 0 LIT2\n")),
        ],
        ..GOOD
    },
];

/// What `debug` writes beside its log, and by a budget.
static KEPT: [Call; 4] = [
    Call {
        shows: "debug and keep the pictures",
        words: &[
            "debug",
            "a.tal",
            "--commands",
            "c",
            "--log",
            "l",
            "--script",
            "x",
            "--frames",
            "p",
        ],
        before: DRAWS,
        after: &[("p", Some(PICTURE)), ("l", Some(b"at 0100 0 LIT2\n"))],
        ..GOOD
    },
    Call {
        shows: "debug and keep the samples",
        words: &[
            "debug",
            "a.tal",
            "--commands",
            "c",
            "--log",
            "l",
            "--script",
            "x",
            "--samples",
            "s",
        ],
        before: RESTS,
        after: &[("s", Some(SILENCE)), ("l", Some(b"at 0100 0 BRK\n"))],
        ..GOOD
    },
    Call {
        shows: "debug and report",
        words: &[
            "debug",
            "a.tal",
            "--commands",
            "c",
            "--log",
            "l",
            "--report",
            "r",
        ],
        before: RESTS,
        after: &[("r", Some(RESTED)), ("l", Some(b"at 0100 0 BRK\n"))],
        ..GOOD
    },
    Call {
        shows: "debug with a budget",
        words: &[
            "debug",
            "a.tal",
            "--commands",
            "c",
            "--log",
            "l",
            "--budget",
            "3",
            "--report",
            "r",
        ],
        before: GOES_ON,
        after: &[("r", Some(CUT)), ("l", Some(b"at 0100 0 JMI on+0000\n"))],
        ..GOOD
    },
];

/// What the other commands write and print.
static OTHERS: [Call; 7] = [
    Call {
        shows: "asm a ROM",
        words: &["asm", "a.tal", "--out", "o"],
        before: PUTS,
        after: &[("o", Some(b"\x80\x41\x80\x18\x17"))],
        ..GOOD
    },
    Call {
        shows: "asm with symbols",
        words: &["asm", "a.tal", "--out", "o", "--symbols", "s"],
        before: GOES_ON,
        after: &[("o", Some(b"\x40\xff\xfd")), ("s", Some(b"\x01\x00on\x00"))],
        ..GOOD
    },
    Call {
        shows: "asm with a listing",
        words: &["asm", "a.tal", "--out", "o", "--listing", "l"],
        before: PUTS,
        after: &[
            ("o", Some(b"\x80\x41\x80\x18\x17")),
            (
                "l",
                Some(
                    b"0100 80  1:7 LIT\n0101 41  1:11 \"A\n0102 80 18  1:14 #18\n0104 17  1:18 DEO\n0105 00  1:22 BRK\n",
                ),
            ),
        ],
        ..GOOD
    },
    Call {
        shows: "dis a ROM",
        words: &["dis", "a.rom"],
        before: PUTS,
        out: b"|0100\nLIT 41 ( 0100 )\nLIT 18 ( 0102 )\nDEO ( 0104 )\n",
        ..GOOD
    },
    Call {
        shows: "dis with symbols",
        words: &["dis", "a.rom", "--symbols", "y"],
        before: PUTS,
        out: b"|0100\n( @on )\nLIT 41 ( 0100 )\nLIT 18 ( 0102 )\nDEO ( 0104 )\n",
        ..GOOD
    },
    Call {
        shows: "gen",
        words: &["gen", "1"],
        out: b"source 95\nrom 30\ninstructions 253\nvectors 61\ncuts 0\nframes 60\nconsole 0100\nexit 0\n",
        ..GOOD
    },
    Call {
        shows: "line: the second machine puts what the first one does, and the end",
        words: &["line", "setup"],
        before: &[
            ("setup", Some(b"machine a.tal\nmachine b.tal")),
            ("a.tal", Some(b"|0100 LIT \"A #18 DEO BRK")),
            (
                "b.tal",
                Some(b"|0100 ;on #10 DEO2 BRK @on #12 DEI #18 DEO BRK"),
            ),
        ],
        out: b"A\x00",
        ..GOOD
    },
];

#[test]
fn each_option_of_play_is_done(rt: HostRuntime) {
    give_each(&rt, rt.alloc(), &PLAYED);
}

#[test]
fn each_option_of_debug_is_done(rt: HostRuntime) {
    give_each(&rt, rt.alloc(), &WATCHED);
}

#[test]
fn what_debug_writes_beside_its_log_is_there(rt: HostRuntime) {
    give_each(&rt, rt.alloc(), &KEPT);
}

#[test]
fn each_option_of_the_other_commands_is_done(rt: HostRuntime) {
    give_each(&rt, rt.alloc(), &OTHERS);
}
