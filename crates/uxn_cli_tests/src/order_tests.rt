//! An input is not touched before the one before it was accepted: where it is refused, a fault of the next one does not come.

use super::calls::{Call, Contents, GOOD, give_each};
use uxn_io::TreeCall;

/// The fault of the first call for the second file of a command.
const SECOND: &[(TreeCall, u32)] = &[(TreeCall::Kind, 1)];

/// That for its third file.
const THIRD: &[(TreeCall, u32)] = &[(TreeCall::Kind, 2)];

/// That for its fourth file.
const FOURTH: &[(TreeCall, u32)] = &[(TreeCall::Kind, 3)];

/// A source with a fault.
const FAULTY: Option<&[u8]> = Some(b"#123");

/// What is no script, no commands, no symbols and no setup.
const UNKNOWN: Option<&[u8]> = Some(b"none");

/// A call whose source is refused, and whose second file fails.
const CALL: Call = Call {
    before: &[("a.tal", FAULTY), ("b.tal", Some(b"BRK")), ("x", UNKNOWN)],
    fails: SECOND,
    status: 131,
    err: b"source 1:1: BadNumber: #123\n",
    ..GOOD
};

/// Setups, and what they name.
const SETUPS: Contents = &[
    ("faulty", UNKNOWN),
    ("first", Some(b"machine a.tal\nmachine b.tal")),
    ("second", Some(b"machine b.tal\nmachine a.tal\nscript x")),
    ("missing", Some(b"machine none\nmachine b.tal")),
    ("third", Some(b"machine b.tal\nmachine none\nscript x")),
    ("a.tal", FAULTY),
    ("b.tal", Some(b"BRK")),
    ("x", UNKNOWN),
];

/// Calls in which an input is refused, and the next one fails.
static CALLS: [Call; 22] = [
    Call {
        shows: "dis: no ROM, before the symbols",
        words: &["dis", "none", "--symbols", "a.tal"],
        status: 130,
        err: b"missing: none\n",
        ..CALL
    },
    Call {
        shows: "play: no source, before the script",
        words: &["play", "none", "--script", "x"],
        status: 130,
        err: b"missing: none\n",
        ..CALL
    },
    Call {
        shows: "play: a source, before the script",
        words: &["play", "a.tal", "--script", "x"],
        ..CALL
    },
    Call {
        shows: "play: a ROM, before the script",
        words: &["play", "none", "--script", "x", "--rom"],
        status: 130,
        err: b"missing: none\n",
        ..CALL
    },
    Call {
        shows: "play: a script, before the outputs",
        words: &["play", "b.tal", "--script", "x", "--frames", "p"],
        fails: THIRD,
        status: 132,
        err: b"script 1: Unknown\n",
        ..CALL
    },
    Call {
        shows: "asm: no source, before the outputs",
        words: &["asm", "none", "--out", "o"],
        status: 130,
        err: b"missing: none\n",
        ..CALL
    },
    Call {
        shows: "asm: a source, before the outputs",
        words: &["asm", "a.tal", "--out", "o"],
        ..CALL
    },
    Call {
        shows: "debug: no source, before the symbols",
        words: &[
            "debug",
            "none",
            "--commands",
            "x",
            "--log",
            "l",
            "--symbols",
            "x",
        ],
        status: 130,
        err: b"missing: none\n",
        ..CALL
    },
    Call {
        shows: "debug: a source, before the symbols",
        words: &[
            "debug",
            "a.tal",
            "--commands",
            "x",
            "--log",
            "l",
            "--symbols",
            "x",
        ],
        ..CALL
    },
    Call {
        shows: "debug: a source, before the script",
        words: &[
            "debug",
            "a.tal",
            "--commands",
            "x",
            "--log",
            "l",
            "--script",
            "x",
        ],
        ..CALL
    },
    Call {
        shows: "debug: a source, before the commands",
        words: &["debug", "a.tal", "--commands", "x", "--log", "l"],
        ..CALL
    },
    Call {
        shows: "debug: no symbols, before the script",
        words: &[
            "debug",
            "b.tal",
            "--commands",
            "x",
            "--log",
            "l",
            "--symbols",
            "none",
            "--script",
            "x",
        ],
        fails: THIRD,
        status: 130,
        err: b"missing: none\n",
        ..CALL
    },
    Call {
        shows: "debug: symbols, before the script",
        words: &[
            "debug",
            "b.tal",
            "--commands",
            "x",
            "--log",
            "l",
            "--symbols",
            "x",
            "--script",
            "x",
        ],
        fails: THIRD,
        status: 134,
        err: b"symbols 0: Torn\n",
        ..CALL
    },
    Call {
        shows: "debug: symbols, before the commands",
        words: &[
            "debug",
            "b.tal",
            "--commands",
            "x",
            "--log",
            "l",
            "--symbols",
            "x",
        ],
        fails: THIRD,
        status: 134,
        err: b"symbols 0: Torn\n",
        ..CALL
    },
    Call {
        shows: "debug: no script, before the commands",
        words: &[
            "debug",
            "b.tal",
            "--commands",
            "x",
            "--log",
            "l",
            "--script",
            "none",
        ],
        fails: THIRD,
        status: 130,
        err: b"missing: none\n",
        ..CALL
    },
    Call {
        shows: "debug: a script, before the commands",
        words: &[
            "debug",
            "b.tal",
            "--commands",
            "x",
            "--log",
            "l",
            "--script",
            "x",
        ],
        fails: THIRD,
        status: 132,
        err: b"script 1: Unknown\n",
        ..CALL
    },
    Call {
        shows: "debug: commands, before the outputs",
        words: &["debug", "b.tal", "--commands", "x", "--log", "l"],
        fails: THIRD,
        status: 133,
        err: b"commands 1: Unknown\n",
        ..CALL
    },
    Call {
        shows: "line: a setup, before its first source",
        words: &["line", "faulty"],
        before: SETUPS,
        status: 139,
        err: b"setup 1: Unknown\n",
        ..CALL
    },
    Call {
        shows: "line: a first source, before the second",
        words: &["line", "first"],
        before: SETUPS,
        fails: THIRD,
        ..CALL
    },
    Call {
        shows: "line: no first source, before the second",
        words: &["line", "missing"],
        before: SETUPS,
        fails: THIRD,
        status: 130,
        err: b"missing: none\n",
        ..CALL
    },
    Call {
        shows: "line: the last source, before the script",
        words: &["line", "second"],
        before: SETUPS,
        fails: FOURTH,
        ..CALL
    },
    Call {
        shows: "line: no last source, before the script",
        words: &["line", "third"],
        before: SETUPS,
        fails: FOURTH,
        status: 130,
        err: b"missing: none\n",
        ..CALL
    },
];

#[test]
fn an_input_is_not_touched_before_the_one_before_it_was_accepted(rt: HostRuntime) {
    give_each(&rt, rt.alloc(), &CALLS);
}
