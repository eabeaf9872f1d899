//! The plain text of each line of a script, drawn scripts that are printed as they are read, and how many lines a text has.

ghost use Rattle.std.specs.Prelude.{◌<◌, length};

use play_script::{print_script, read_script};
use std::alloc::{AllocError, Global};
use text_lines::Lines;
use uxn_io::decimal;

// Texts and their plain texts.
static SCRIPTS: [(&str, &str); 20] = [
    ("", "clock 0 0\n"),
    ("input \"hi", "clock 0 0\ninput 68\ninput 69\n"),
    ("clock 253370000000 -840", "clock 253370000000 -840\n"),
    ("clock 7 -0\n", "clock 7 0\n"),
    (
        "# a comment\n\n\t args \"ab \" 7A7a\r\nend",
        "clock 0 0\nargs 6162 \" 7a7a\nend\n",
    ),
    ("#frame\nargs \"a\"", "clock 0 0\nargs 6122\n"),
    ("input \"\nargs \"x\nclock 1 2", "clock 1 2\nargs 78\n"),
    (
        "input 00fF \"\" \"",
        "clock 0 0\ninput 00\ninput ff\ninput 22\n",
    ),
    ("frame\nframe 2", "clock 0 0\nframe\nframe\nframe\n"),
    ("key 0A\nkey fF", "clock 0 0\nkey 0a\nkey ff\n"),
    (
        "down a\ndown b\ndown select\ndown start\ndown up\ndown down\ndown left\ndown right",
        "clock 0 0\ndown a\ndown b\ndown select\ndown start\ndown up\ndown down\ndown left\ndown right\n",
    ),
    ("up right\nup a", "clock 0 0\nup right\nup a\n"),
    (
        "mouse 0 65535\nmouse 10 9",
        "clock 0 0\nmouse 0 65535\nmouse 10 9\n",
    ),
    (
        "press 1\npress 8\nrelease 3\nrelease 5",
        "clock 0 0\npress 1\npress 8\nrelease 3\nrelease 5\n",
    ),
    (
        "scroll -32768 32767\nscroll -0 -1",
        "clock 0 0\nscroll -32768 32767\nscroll 0 -1\n",
    ),
    ("shot\nend\nshot", "clock 0 0\nshot\nend\nshot\n"),
    ("# none\n\nscript 2", "script 2\nclock 0 0\n"),
    (
        "script 2\nkey 6A 3\nkey 6b",
        "script 2\nclock 0 0\nkey 6a\nkey 6a\nkey 6a\nkey 6b\n",
    ),
    (
        "script 2\ndown a\ndown b 1\ndown start 2\nup left 4",
        "script 2\nclock 0 0\ndown a\ndown b\ndown start 2\nup left 4\n",
    ),
    (
        "script 2\nargs \"a\nexpect C0 0a\nframe 2",
        "script 2\nclock 0 0\nargs 61\nexpect c0 0a\nframe\nframe\n",
    ),
];

/// Says whether a text is read as a script whose plain text is this.
fn prints_as(alloc: Global, text: &str, plain: &str) -> bool {
    match read_script(alloc, text.as_bytes()) {
        Ok(script) => match print_script(alloc, &script) {
            Ok(printed) => printed.as_slice() == plain.as_bytes(),
            Err(_) => false,
        },
        Err(_) => false,
    }
}

#[test]
fn each_line_is_read_and_printed(rt: HostRuntime) {
    for (text, plain) in &SCRIPTS {
        assert!(rt; prints_as(rt.alloc(), text, plain), "at {text}");
    }
}

/// How many of the drawn lines version 1 has.
const OLD_LINES: u32 = 18;

// Lines in which `?` is drawn as a hexadecimal digit, `*` as a number below 32,768, `+` as a digit from 1 to 8 and `~` as one from 1
// to 4. Those of version 2 stand behind those of both versions.
static LINES: [&str; 24] = [
    "input ??",
    "input \"* ???? \"a\"",
    "end",
    "frame",
    "frame +",
    "key ??",
    "down a",
    "down select",
    "up start",
    "up right",
    "mouse * *",
    "press +",
    "release +",
    "scroll -* *",
    "scroll * -*",
    "shot",
    "# ~ lines",
    "\t frame  ~\r",
    "key ?? +",
    "down left ~",
    "down b ~",
    "up down ~",
    "expect ?? ??",
    "expect\tc0 ??",
];

/// Numbers that are drawn one after the other.
#[derive(Drop)]
struct Draws(u32);

impl Draws {
    /// A number below this one.
    fn below(&mut self, bound: u32) -> u32
        requires { 0 < bound }
        ensures { result < bound }
    {
        self.0 = self.0.wrapping_mul(1_664_525).wrapping_add(1_013_904_223);
        self.0 / 256 % bound
    }
}

/// Puts a line that is drawn.
fn put_drawn(text: &mut Vec<u8>, draws: &mut Draws, line: &str) -> Result<(), AllocError> {
    for byte in line.as_bytes() {
        match *byte {
            b'?' => text.push(b"0123456789abcdefABCDEF"[draws.below(22) as usize])?,
            b'*' => text.extend_from_slice(decimal(u64::from(draws.below(32_768))).as_slice())?,
            b'+' => text.push(b'1' + draws.below(8) as u8)?,
            b'~' => text.push(b'1' + draws.below(4) as u8)?,
            other => text.push(other)?,
        }
    }
    Ok(text.push(b'\n')?)
}

/// A script of a version that is drawn.
fn drawn(alloc: Global, version: u8, seed: u32) -> Result<Vec<u8>, AllocError> {
    let mut draws = Draws(seed);
    let mut text = Vec::new(alloc);
    if version == 2 {
        put_drawn(&mut text, &mut draws, "# drawn\n script 2")?;
    }
    if draws.below(2) == 0 {
        put_drawn(&mut text, &mut draws, "args \"+a ????  \"")?;
    }
    if draws.below(2) == 0 {
        put_drawn(&mut text, &mut draws, "clock * -~~+")?;
    }
    let lines = if version == 2 { 24 } else { OLD_LINES };
    for _ in 0..draws.below(40) {
        let line = LINES[draws.below(lines) as usize];
        put_drawn(&mut text, &mut draws, line)?;
    }
    Ok(text)
}

/// Says whether a drawn script of a version is read, and its plain text is read as a script of that version with this plain text.
fn goes_round(alloc: Global, version: u8, seed: u32) -> bool {
    match drawn(alloc, version, seed) {
        Ok(text) => match read_script(alloc, text.as_slice()) {
            Ok(script) => match print_script(alloc, &script) {
                Ok(plain) => script.version() == version
                    && is_plain(alloc, version, plain.as_slice()),
                Err(_) => false,
            },
            Err(_) => false,
        },
        Err(_) => false,
    }
}

/// Says whether a text is read as a script of this version whose plain text it is.
fn is_plain(alloc: Global, version: u8, text: &[u8]) -> bool {
    match read_script(alloc, text) {
        Ok(script) => match print_script(alloc, &script) {
            Ok(plain) => script.version() == version && plain.as_slice() == text,
            Err(_) => false,
        },
        Err(_) => false,
    }
}

#[test]
fn drawn_scripts_of_both_versions_are_printed_as_they_are_read(rt: HostRuntime) {
    for seed in 0..100u32 {
        assert!(rt; goes_round(rt.alloc(), 1, seed), "at {seed} in version 1");
        assert!(rt; goes_round(rt.alloc(), 2, seed), "at {seed} in version 2");
    }
}

/// Texts, each with how many lines it has: what stands behind the last newline is one too, even if it is nothing.
static COUNTS: [(&[u8], u32); 5] = [(b"", 1), (b"a", 1), (b"a\n", 2), (b"a\nb", 2), (b"\n\n", 3)];

/// How many lines a short text has, up to ten.
fn count_lines(text: &[u8]) -> u32
    requires { length text.now < 10 }
{
    let mut lines = Lines::new(text);
    for _ in 0..10 {
        lines.next_line();
    }
    lines.number()
}

#[test]
fn the_empty_line_at_the_end_is_counted(rt: HostRuntime) {
    for (text, count) in &COUNTS {
        assert!(rt;
            text.len() < 10 && count_lines(text) == *count,
            "at {text:?}"
        );
    }
}
