//! What a call requests of its tree, in order: what its inquiry asks, and nothing else.

use super::calls::{Contents, new_tree, texts};
use super::telling::Telling;
use std::alloc::{AllocError, Global};
use uxn_cli::uxn;
use uxn_io::{NoSink, TreeRequest};

/// What a call shows, its words, its tree, and the requests that this receives: `?` and a path that is looked at, `<` and
/// one that is read, `+` and one that is made, `>` and one to which bytes are appended.
struct Request {
    shows: &'static str,
    words: &'static [&'static str],
    before: Contents,
    requests: &'static [u8],
}

/// Sources, some with includes or a fault, a script and a folder.
const FILES: Contents = &[
    ("plain.tal", Some(b"BRK")),
    ("outer.tal", Some(b"~inner.tal BRK")),
    ("inner.tal", Some(b"#01 POP")),
    ("faulty.tal", Some(b")x ~inner.tal")),
    ("late.tal", Some(b"~inner.tal #123 ~plain.tal")),
    ("itself.tal", Some(b"~itself.tal")),
    ("script", Some(b"input a\n")),
    (
        "setup",
        Some(b"machine plain.tal\nmachine faulty.tal\nmachine plain.tal"),
    ),
    ("d", None),
];

/// Calls over these files.
static REQUESTS: [Request; 9] = [
    Request {
        shows: "a source, its file, a script",
        words: &["play", "outer.tal", "--script", "script"],
        before: FILES,
        requests: b"?outer.tal<outer.tal?inner.tal<inner.tal?script<script",
    },
    Request {
        shows: "no file of a source with a fault of words, and no script",
        words: &["play", "faulty.tal", "--script", "script"],
        before: FILES,
        requests: b"?faulty.tal<faulty.tal",
    },
    Request {
        shows: "all files of a source, before its words are assembled, and no output behind its fault",
        words: &["asm", "late.tal", "--out", "o"],
        before: FILES,
        requests: b"?late.tal<late.tal?inner.tal<inner.tal?plain.tal<plain.tal",
    },
    Request {
        shows: "nothing behind an include that is too deep",
        words: &["asm", "itself.tal", "--out", "o"],
        before: FILES,
        requests: b"?itself.tal<itself.tal?itself.tal<itself.tal?itself.tal<itself.tal?itself.tal<itself.tal\
            ?itself.tal<itself.tal?itself.tal<itself.tal?itself.tal<itself.tal?itself.tal<itself.tal\
            ?itself.tal<itself.tal?itself.tal<itself.tal?itself.tal<itself.tal?itself.tal<itself.tal\
            ?itself.tal<itself.tal?itself.tal<itself.tal?itself.tal<itself.tal?itself.tal<itself.tal",
    },
    Request {
        shows: "a missing source is looked at alone",
        words: &["play", "none", "--script", "script"],
        before: FILES,
        requests: b"?none",
    },
    Request {
        shows: "the folder of an output, the output, and then the changes",
        words: &["asm", "inner.tal", "--out", "d/o"],
        before: FILES,
        requests: b"?inner.tal<inner.tal?d?d/o+d/o>d/o",
    },
    Request {
        shows: "an output that cannot be made",
        words: &["asm", "plain.tal", "--out", "e/o"],
        before: FILES,
        requests: b"?plain.tal<plain.tal?e?e/o",
    },
    Request {
        shows: "no machine behind one whose source has a fault",
        words: &["line", "setup"],
        before: FILES,
        requests: b"?setup<setup?plain.tal<plain.tal?faulty.tal<faulty.tal",
    },
    Request {
        shows: "words that are not understood request nothing",
        words: &["play"],
        before: FILES,
        requests: b"",
    },
];

/// The sign of a request, and the bytes of its path.
fn written(request: &TreeRequest) -> (u8, &[u8]) {
    match request {
        TreeRequest::LooksAt(path) => (b'?', path.bytes()),
        TreeRequest::Reads(path) => (b'<', path.bytes()),
        TreeRequest::Lists(path) => (b'/', path.bytes()),
        TreeRequest::Makes(path) => (b'+', path.bytes()),
        TreeRequest::AppendsTo(path) => (b'>', path.bytes()),
        TreeRequest::TakesAway(path) => (b'-', path.bytes()),
    }
}

/// Requests as a text.
fn text_of(alloc: Global, requests: &[TreeRequest]) -> Result<Vec<u8>, AllocError> {
    let mut text = Vec::new(alloc);
    for request in requests {
        let (sign, path) = written(request);
        text.push(sign)?;
        text.extend_from_slice(path)?;
    }
    Ok(text)
}

/// Whether a call requests just this.
fn requests_just_this(alloc: Global, request: &Request) -> bool {
    let Ok(words) = texts(alloc, request.words) else {
        return false;
    };
    let Some(tree) = new_tree(alloc, request.before, &[]) else {
        return false;
    };
    let mut tree = Telling::new(alloc, tree);
    let _status = uxn(alloc, &words, &mut tree, &mut NoSink, &mut NoSink);
    let Some(requests) = &tree.requests else {
        return false;
    };
    match text_of(alloc, requests) {
        Ok(text) => text.as_slice() == request.requests,
        Err(_) => false,
    }
}

#[test]
fn a_call_requests_what_its_inquiry_asks_and_nothing_else(rt: HostRuntime) {
    for request in &REQUESTS {
        let shows = request.shows;
        assert!(rt; requests_just_this(rt.alloc(), request), "{shows}");
    }
}
