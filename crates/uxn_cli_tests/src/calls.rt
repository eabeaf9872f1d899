//! A call of the program over a tree and outputs in memory, and whether it gives what it is to give.

use std::alloc::{AllocError, Global};
use std::process::Abort;
use uxn_cli::uxn;
use uxn_io::{Bytes, MemSink, MemTree, Node, Path, TreeCall};

/// Paths with the bytes of a file.
pub type Contents = &'static [(&'static str, Option<&'static [u8]>)];

/// The puts that fail, and the room of the error output.
pub struct Puts {
    pub out: &'static [u32],
    pub err: &'static [u32],
    pub err_room: usize,
}

/// No put fails.
pub const ALL: Puts = Puts {
    out: &[],
    err: &[],
    err_room: 100,
};

/// What a call shows, its words, the tree that it is made over (a path without bytes is a folder), and what fails; and
/// what it gives: its status, the bytes on both outputs, and what stands afterwards (a path without bytes is not there).
pub struct Call {
    pub shows: &'static str,
    pub words: &'static [&'static str],
    pub before: Contents,
    pub fails: &'static [(TreeCall, u32)],
    pub puts: Puts,
    pub status: u8,
    pub out: &'static [u8],
    pub err: &'static [u8],
    pub after: Contents,
}

/// A call of `play` in which nothing fails.
pub const GOOD: Call = Call {
    shows: "",
    words: &["play", "a.tal"],
    before: &[],
    fails: &[],
    puts: ALL,
    status: 0,
    out: b"",
    err: b"",
    after: &[],
};

/// The words as texts.
pub fn texts(alloc: Global, words: &[&str]) -> Result<Vec<String>, AllocError> {
    let mut texts = Vec::new(alloc);
    for word in words {
        texts.push(word.to_string(alloc)?)?;
    }
    Ok(texts)
}

/// The files and folders of a tree.
fn nodes(alloc: Global, files: Contents) -> Result<Vec<(Path, Node)>, AllocError> {
    let mut nodes = Vec::new(alloc);
    for (name, bytes) in files {
        if let Ok(path) = Path::read(name.as_bytes()) {
            let folder = bytes.is_none();
            let bytes = Bytes::new(alloc, bytes.unwrap_or(&[]))?;
            nodes.push((path, Node { folder, bytes }))?;
        }
    }
    Ok(nodes)
}

/// A tree of these files, with places for five files more.
pub fn new_tree(alloc: Global, files: Contents, fails: &[(TreeCall, u32)]) -> Option<MemTree> {
    let nodes = nodes(alloc, files).ok()?;
    if !MemTree::can_hold(&nodes, 3000) {
        return None;
    }
    MemTree::new(alloc, &nodes, 5, 3000, fails).ok()
}

/// The bytes of the file with this name, if it is there.
fn bytes_of<'a>(tree: &'a MemTree, name: &str) -> Option<&'a [u8]> {
    let path = Path::read(name.as_bytes()).ok()?;
    let node = tree.node(&path)?;
    Some(node.bytes.as_slice())
}

/// Whether these files are there with these bytes, or are not there.
pub fn stands(tree: &MemTree, files: Contents) -> bool {
    let mut same = true;
    for (name, bytes) in files {
        same = same && bytes_of(tree, name) == *bytes;
    }
    same
}

/// Whether a call over a tree has its status, and puts its bytes on both outputs.
fn ends(alloc: Global, call: &Call, words: &[String], tree: &mut MemTree) -> bool {
    let Ok(mut out) = MemSink::new(alloc, 200, call.puts.out) else {
        return false;
    };
    let Ok(mut err) = MemSink::new(alloc, call.puts.err_room, call.puts.err) else {
        return false;
    };
    uxn(alloc, words, tree, &mut out, &mut err) == call.status
        && out.bytes() == call.out
        && err.bytes() == call.err
}

/// Whether a call gives what it is to give.
fn gives(alloc: Global, call: &Call) -> bool {
    let Ok(words) = texts(alloc, call.words) else {
        return false;
    };
    let Some(mut tree) = new_tree(alloc, call.before, call.fails) else {
        return false;
    };
    ends(alloc, call, &words, &mut tree) && stands(&tree, call.after)
}

/// Each call gives what its row says.
pub fn give_each(rt: &impl Abort, alloc: Global, calls: &[Call]) {
    for call in calls {
        let shows = call.shows;
        assert!(rt; gives(alloc, call), "{shows}");
    }
}
